// Why a label is in the set of an attribute: the part of the set that holds it, and the marks that an expression reads. What an answer means is in specs/.
#![tactic(auto)]

ghost use Rattle.std.specs.Prelude.{◌≡◌, List, [], ◌∷◌, ℕ, suc, ◌+◌, ◌≤◌, ◌<◌, length};
ghost use Rattle.labels.specs.declared.Labels.{Labels};
ghost use Rattle.labels.specs.Sets.{no_labels};
ghost use Rattle.wire.specs.Bytes.{byte, fields_in};
ghost use Rattle.rules.specs.Patterns.{chosen};
ghost use Rattle.rules.specs.Read.{operator_from};
ghost use Rattle.rules.specs.State.{class_scope, upward};
ghost use Rattle.rules.specs.Evaluate.{evaluate, marks_in, is_boolean, skips_right, marks_read, arm_marks};
ghost use Rattle.rules.specs.declared.Kind.TheVariants.{Expression, Arm};
ghost use Rattle.places.specs.At.{expression_at, arms_at, StandsAs, Siblings};
ghost use Rattle.places.specs.Parts.{OperationAt, SelectorAt};
ghost use Rattle.cells.specs.Scopes.{scope_of};
ghost use Rattle.cells.specs.Memory.{cells_of, classes_of, base_for};
ghost use Rattle.evaluator.specs.Answers.{answered};
ghost use Rattle.evaluator.specs.Known.{Sized};
ghost use Rattle.provenance.specs.Parts.{held_part};
ghost use Rattle.provenance.specs.Given.{Gives};
ghost use Rattle.provenance.specs.Notes.{asked_of, NotesAttribute, NotesTitled, NotesRun, NotesResource};

use labels::Labels;
use memory::{Context, Scope};
use values::{Labelled, Refusal, SetPart, Value, place};

// In place of a part's number where no part has the label, and where there is no such attribute.
pub const NO_PART: u8 = 6;

pub const NO_ATTRIBUTE: u8 = 0;

// ---- Parts

// The number of the first part that has the label, of the set that is the union of these.
pub fn part_held(
    title: Labels,
    path: Labels,
    trail: Labels,
    marks: Labels,
    value: Labels,
    label: u8,
) -> u8
    ensures { result ≡ held_part (record { title = title; path = path; trail = trail; marks = marks; value = value }) label }
{
    if title.contains(label) {
        return values::part_number(SetPart::Title);
    }
    if path.contains(label) {
        return values::part_number(SetPart::Path);
    }
    if trail.contains(label) {
        return values::part_number(SetPart::Trail);
    }
    if marks.contains(label) {
        return values::part_number(SetPart::Marks);
    }
    if value.contains(label) {
        return values::part_number(SetPart::Value);
    }
    NO_PART
}

// ---- Marks of variables

// The marks of a variable in a scope and in those above it, up to the first that has a value: at most so many are tried.
fn marks_up(work: &[u8], scope: Scope, name: u16, tries: u16) -> Labels
    requires { 65536 ≤ length work.now }
    ensures { result ≡ marks_in (cells_of work.now) name (upward tries (classes_of work.now) (base_for scope.base_is_node) (scope_of scope.number)) }
{
    let mut marks = Labels::EMPTY;
    let mut at = scope.number;
    for _ in 0..tries {
        if let Some(i) = cells::slot_for(work, at, name) {
            marks = marks.union(cells::mark_at(work, i));
            if cells::has_value(work, i) {
                return marks;
            }
        }
        let Some(q) = memory::parent_of(work, scope.base_is_node, at) else {
            return marks;
        };
        at = q;
    }
    marks
}

// The same in a class alone, defined or not. One past the last name has no cells.
fn class_marks(work: &[u8], class: u16, name: u16) -> Labels
    requires { 65536 ≤ length work.now }
    ensures { result ≡ marks_in (cells_of work.now) name (class_scope class ∷ []) }
{
    if 1024 <= class {
        return Labels::EMPTY;
    }
    let number = 2 + class;
    let scope = Scope {
        number,
        base_is_node: false,
    };
    marks_up(work, scope, name, 1)
}

// The variable at p: in a scope or those above it, in top, or in a class.
fn variable_marks(m: &[u8], p: usize, work: &[u8], scope: Scope) -> Labels
    requires { (65536 ≤ length work.now) × (p ≤ 65535) }
    ensures { (out : List ℕ) (fill d : ℕ) → StandsAs m.now d Expression p → 0x13 ≤ byte m.now p → byte m.now p < 0x16 → Gives m.now work.now out fill scope result (λ k c st. marks_read k c st (expression_at m.now d p)) }
{
    let name = wire::two_at(m, p + 3);
    match wire::byte_at(m, p) {
        0x13 => marks_up(work, scope, name, 1026),
        0x14 => marks_up(work, memory::TOP, name, 1),
        _ => class_marks(work, name, wire::two_at(m, p + 5)),
    }
}

// ---- Operands that are skipped

fn is_boolean(b: bool, e: Result<Value, Refusal>) -> bool
    ensures { (k : Labels) → result ≡ is_boolean b (answered e k) }
{
    match e {
        Ok(value) => values::same_value(Value::Boolean(b), value),
        Err(_) => false,
    }
}

// Whether the operator at p skips its right side. The left one is evaluated only for those that may.
fn skips_right(
    m: &[u8],
    below: u8,
    p: usize,
    work: &[u8],
    out: &[u8],
    fill: usize,
    scope: Scope,
) -> bool
    requires { Sized m.now work.now out.now fill p }
    ensures { (d : ℕ) → OperationAt m.now d below p → Gives m.now work.now out.now fill scope result (λ k c st. skips_right (operator_from (byte m.now (p + 3))) (evaluate k c st (expression_at m.now below (p + 4)))) }
{
    let op = wire::byte_at(m, p + 3);
    if op < 5 {
        return false;
    }
    let mut set = [0u64; 4];
    let a = evaluator::evaluate(m, below, place(p + 4), work, out, fill, scope, &mut set);
    is_boolean(op != 5, a)
}

// ---- Marks of expressions

#[cycle(chosen_marks_marks_read_operation_marks_selector_marks)]
fn operation_marks(
    m: &[u8],
    below: u8,
    p: usize,
    work: &[u8],
    out: &[u8],
    fill: usize,
    scope: Scope,
) -> Labels
    requires { Sized m.now work.now out.now fill p }
    ensures { (d : ℕ) → OperationAt m.now d below p → Gives m.now work.now out.now fill scope result (λ k c st. marks_read k c st (expression_at m.now d p)) }
{
    let left = marks_read(m, below, place(p + 4), work, out, fill, scope);
    if skips_right(m, below, p, work, out, fill, scope) {
        return left;
    }
    let q = place(wire::end_of(m, p + 4));
    let right = marks_read(m, below, q, work, out, fill, scope);
    left.union(right)
}

// What the arm chosen by x reads, of those between two places; an arm has one level more than what is in it.
#[cycle(chosen_marks_marks_read_operation_marks_selector_marks)]
fn chosen_marks(
    m: &[u8],
    inner: u8,
    first: usize,
    end: usize,
    x: Value,
    work: &[u8],
    out: &[u8],
    fill: usize,
    scope: Scope,
) -> Labels
    requires { Sized m.now work.now out.now fill end }
    ensures { (d : ℕ) → d ≡ suc inner → Siblings m.now d Arm first end → Gives m.now work.now out.now fill scope result (λ k c st. chosen (arm_marks k c st (arms_at m.now d (fields_in m.now first end))) x no_labels) }
{
    let mut tried = [0u64; 4];
    let Some(q) = patterns::try_patterns(m, first, end, x, &mut tried) else {
        return Labels::EMPTY;
    };
    marks_read(m, inner, place(q), work, out, fill, scope)
}

#[cycle(chosen_marks_marks_read_operation_marks_selector_marks)]
fn selector_marks(
    m: &[u8],
    below: u8,
    p: usize,
    work: &[u8],
    out: &[u8],
    fill: usize,
    scope: Scope,
) -> Labels
    requires { Sized m.now work.now out.now fill p }
    ensures { (d : ℕ) → SelectorAt m.now d below p → Gives m.now work.now out.now fill scope result (λ k c st. marks_read k c st (expression_at m.now d p)) }
{
    if below == 0 {
        return Labels::EMPTY;
    }
    let scrutinee = place(p + 3);
    let marks = marks_read(m, below, scrutinee, work, out, fill, scope);
    let mut set = [0u64; 4];
    let a = evaluator::evaluate(m, below, scrutinee, work, out, fill, scope, &mut set);
    let Ok(value) = a else {
        return marks;
    };
    let first = wire::end_of(m, p + 3);
    let end = place(wire::end_of(m, p));
    let chosen = chosen_marks(m, below - 1, first, end, value, work, out, fill, scope);
    marks.union(chosen)
}

// The marks that evaluating the expression at p reads, with `depth` levels left for it. A part that decides what else is read is evaluated anew for
// each level around it: at most 32 times, since no expression is deeper.
#[cycle(chosen_marks_marks_read_operation_marks_selector_marks)]
pub fn marks_read(
    m: &[u8],
    depth: u8,
    p: usize,
    work: &[u8],
    out: &[u8],
    fill: usize,
    scope: Scope,
) -> Labels
    requires { Sized m.now work.now out.now fill p }
    ensures { StandsAs m.now depth Expression p → Gives m.now work.now out.now fill scope result (λ k c st. marks_read k c st (expression_at m.now depth p)) }
{
    if depth == 0 {
        return Labels::EMPTY;
    }
    let below = depth - 1;
    let tag = wire::byte_at(m, p);
    if tag < 0x13 {
        return Labels::EMPTY;
    }
    if tag < 0x16 {
        return variable_marks(m, p, work, scope);
    }
    match tag {
        0x16 => operation_marks(m, below, p, work, out, fill, scope),
        0x17 => marks_read(m, below, place(p + 3), work, out, fill, scope),
        0x18 => marks_read(m, below, place(p + 7), work, out, fill, scope),
        _ => selector_marks(m, below, p, work, out, fill, scope),
    }
}

// ---- Notes: the words of the working memory ask about an attribute and a label, and take the number of the part

fn asked_label(work: &[u8]) -> u8
    requires { 65536 ≤ length work.now }
    ensures { result ≡ (asked_of work.now).label }
{
    (memory::word(work, memory::ASKED_LABEL) % 256) as u8
}

// The part that holds the label asked about, of the attribute at q of a resource whose title has this set; its expression has `inner` levels.
fn attribute_part(
    m: &[u8],
    inner: u8,
    q: usize,
    set: Labels,
    work: &[u8],
    out: &[u8],
    fill: usize,
    here: Context,
) -> u8
    requires { Sized m.now work.now out.now fill q }
    ensures { NotesAttribute m.now work.now out.now fill here inner q set result }
{
    let at = place(q + 5);
    let mut own = [0u64; 4];
    let e = evaluator::evaluate(m, inner, at, work, out, fill, here.scope, &mut own);
    let Ok(_) = e else {
        return NO_PART;
    };
    let value = Labels::in_words(&own);
    let marks = marks_read(m, inner, at, work, out, fill, here.scope);
    let label = asked_label(work);
    part_held(set, here.path, memory::trail(work), marks, value, label)
}

// What is noted of the resource at p, whose title is x: the part of the attribute asked about, or none, and what was noted before stays. The expressions in
// its attributes have `inner` levels.
fn titled_note(
    m: &[u8],
    inner: u8,
    p: usize,
    x: Labelled,
    work: &[u8],
    out: &[u8],
    fill: usize,
    here: Context,
) -> Option<u8>
    requires { Sized m.now work.now out.now fill p }
    ensures { NotesTitled m.now work.now out.now fill here inner p x result }
{
    let Value::String(title) = x.value else {
        return None;
    };
    if title != memory::word(work, memory::ASKED_TITLE) {
        return None;
    }
    let first = wire::end_of(m, p + 5);
    let end = place(wire::end_of(m, p));
    let name = memory::word(work, memory::ASKED_NAME);
    let Some(q) = attributes::find_named(m, first, end, name) else {
        return Some(NO_ATTRIBUTE);
    };
    Some(attribute_part(m, inner, q, x.labels, work, out, fill, here))
}

// The same of the resource at p, with `depth` levels left for it.
fn resource_note(
    m: &[u8],
    depth: u8,
    p: usize,
    work: &[u8],
    out: &[u8],
    fill: usize,
    here: Context,
) -> Option<u8>
    requires { Sized m.now work.now out.now fill p }
    ensures { NotesRun m.now work.now out.now fill here depth p result }
{
    if depth < 2 {
        return None;
    }
    let mut set = [0u64; 4];
    let at = place(p + 5);
    let t = evaluator::evaluate(m, depth - 1, at, work, out, fill, here.scope, &mut set);
    let Ok(value) = t else {
        return None;
    };
    let labels = Labels::in_words(&set);
    titled_note(
        m,
        depth - 2,
        p,
        Labelled { value, labels },
        work,
        out,
        fill,
        here,
    )
}

// Notes the part of the attribute asked about, if it is one of the resource at p, which is about to be added. In a compile nothing is asked about.
pub fn note_resource(
    m: &[u8],
    depth: u8,
    p: usize,
    work: &mut [u8],
    out: &[u8],
    fill: usize,
    here: Context,
)
    requires { Sized m.now work.old out.now fill p }
    ensures { NotesResource m.now work.old work.new out.now fill here depth p }
{
    let asked = memory::word(work, memory::ASKED_TYPE) as usize;
    if asked == 0 {
        return;
    }
    let kind = wire::two_at(m, p + 3) as usize;
    if asked != kind + 1 {
        return;
    }
    if let Some(part) = resource_note(m, depth, p, work, out, fill, here) {
        memory::set_word(work, memory::NOTE, part as u16);
    }
}
