// Expressions, evaluated over the manifest's bytes in place. The labels that decide a value join a set that the caller lends, in four words; what is handed
// back is the value alone. What an answer means, and what the bytes must stand for, is in specs/.
#![tactic(auto)]

ghost use Rattle.std.specs.Prelude.{◌≡◌, true, List, ℕ, suc, ◌+◌, ◌≤◌, ◌<◌, length};
ghost use Rattle.labels.specs.Words.{labels_in, Grows};
ghost use Rattle.wire.specs.Bytes.{byte, two, end_of, fields_in};
ghost use Rattle.rules.specs.Outcome.{plain, joining};
ghost use Rattle.rules.specs.Read.{operator_from};
ghost use Rattle.rules.specs.State.{Entry, Known};
ghost use Rattle.rules.specs.Evaluate.{is_type, is_class, of_constant};
ghost use Rattle.rules.specs.Evaluate as rules;
ghost use Rattle.rules.specs.declared.Kind.TheVariants.{Expression, Arm};
ghost use Rattle.places.specs.At.{value_at, constant_at, expression_at, arms_at, StandsAs, Siblings};
ghost use Rattle.places.specs.Parts.{OperationAt, NegationAt, AttributeReadAt, SelectorAt};
ghost use Rattle.cells.specs.Memory.{cells_of};
ghost use Rattle.memory.specs.Words.{struck_in};
ghost use Rattle.evaluator.specs.Answers.{answered, evaluated, Joined};
ghost use Rattle.evaluator.specs.Operators.{begin_integer, begin_boolean, arithmetic, both_integers, right_boolean, result_of, computed_at};
ghost use Rattle.evaluator.specs.Operators as operators;
ghost use Rattle.evaluator.specs.Known.{KnownIn, Ready, Tells, TellsJoined, Sized, defined_tag, constant_in, variable_in, sought_as, class_read, attribute_of};

use labels::Labels;
use memory::Scope;
use values::{ArithmeticError, Labelled, Reason, Refusal, Value, place};

// A variable that is sought: its name, the scope where the search begins, and how many scopes are tried.
#[derive(Clone, Copy)]
struct Variable {
    name: u16,
    scope: Scope,
    tries: u16,
}

// What the left value says of an operator: not of its kind, the result already, or that the right value counts.
#[derive(Clone, Copy)]
enum Begun {
    WrongKind,
    Decided,
    Open,
}

// ---- Constants

fn value_at(m: &[u8], p: usize) -> Value
    requires { p < 4294967296 }
    ensures { result ≡ value_at m.now p (byte m.now p) }
{
    match wire::byte_at(m, p) {
        0x10 => Value::Integer(wire::signed_at(m, p + 4)),
        0x11 => Value::String(wire::two_at(m, p + 4)),
        _ => Value::Boolean(wire::byte_at(m, p + 4) == 1),
    }
}

pub fn constant_at(m: &[u8], p: usize) -> Labelled
    requires { p < 4294967296 }
    ensures { result ≡ of_constant (constant_at m.now p) }
{
    let labels = Labels::one(wire::byte_at(m, p + 3));
    let value = value_at(m, p);
    Labelled { value, labels }
}

// Whether the constant at p is struck out. In a compile none is.
fn is_struck(m: &[u8], p: usize, work: &[u8]) -> bool
    requires { (65536 ≤ length work.now) × (p ≤ 65535) }
    ensures { result ≡ struck_in work.now (constant_at m.now p) }
{
    if memory::none_struck_out(work) {
        return false;
    }
    memory::is_struck_out(work, wire::byte_at(m, p + 3), p)
}

// The constant at p: its label joins the set.
fn constant(m: &[u8], p: usize, work: &[u8], set: &mut [u64; 4]) -> Result<Value, Refusal>
    requires { (65536 ≤ length work.now) × (p ≤ 65535) }
    ensures { Joined set.old set.new result (constant_in work.now (constant_at m.now p)) }
{
    if is_struck(m, p, work) {
        return Err(Refusal::at(Reason::Malformed, p));
    }
    labels::join(set, Labels::one(wire::byte_at(m, p + 3)));
    Ok(value_at(m, p))
}

// ---- Operators

fn begin_integer(x: Value) -> Begun
    ensures { result ≡ begin_integer x }
{
    let Value::Integer(_) = x else {
        return Begun::WrongKind;
    };
    Begun::Open
}

// `decides` is the left value that decides: false for and, true for or.
fn begin_boolean(decides: bool, x: Value) -> Begun
    ensures { result ≡ begin_boolean decides x }
{
    match x {
        Value::Integer(_) => Begun::WrongKind,
        Value::String(_) => Begun::WrongKind,
        Value::Boolean(b) => {
            if b == decides {
                return Begun::Decided;
            }
            Begun::Open
        }
    }
}

fn begin(op: u8, x: Value) -> Begun
    ensures { result ≡ operators.begin (operator_from op) x }
{
    if op < 4 {
        return begin_integer(x);
    }
    if op == 4 {
        return Begun::Open;
    }
    begin_boolean(op != 5, x)
}

fn compute(op: u8, i: i64, j: i64) -> Result<i64, ArithmeticError>
    requires { op < 3 }
    ensures { result_of result ≡ arithmetic (operator_from op) i j }
{
    match op {
        0 => values::integers::sum(i, j),
        1 => values::integers::difference(i, j),
        _ => values::integers::quotient(i, j),
    }
}

fn computed_at(p: usize, c: Result<i64, ArithmeticError>) -> Result<Value, Refusal>
    requires { p ≤ 65535 }
    ensures { evaluated result ≡ computed_at p c }
{
    match c {
        Ok(z) => Ok(Value::Integer(z)),
        Err(ArithmeticError::Overflow) => Err(Refusal::at(Reason::Overflow, p)),
        Err(ArithmeticError::DivisionByZero) => Err(Refusal::at(Reason::DivisionByZero, p)),
    }
}

fn both_integers(op: u8, p: usize, right: usize, x: Value, y: Value) -> Result<Value, Refusal>
    requires { (op < 4) × (p ≤ 65535) × (right ≤ 65535) }
    ensures { evaluated result ≡ both_integers (operator_from op) p right x y }
{
    let Value::Integer(i) = x else {
        return Err(Refusal::at(Reason::WrongKind, right));
    };
    let Value::Integer(j) = y else {
        return Err(Refusal::at(Reason::WrongKind, right));
    };
    if op == 3 {
        return Ok(Value::Boolean(values::integers::is_greater(i, j)));
    }
    computed_at(p, compute(op, i, j))
}

fn right_boolean(right: usize, y: Value) -> Result<Value, Refusal>
    requires { right ≤ 65535 }
    ensures { evaluated result ≡ right_boolean right y }
{
    let Value::Boolean(_) = y else {
        return Err(Refusal::at(Reason::WrongKind, right));
    };
    Ok(y)
}

fn combine(op: u8, p: usize, right: usize, x: Value, y: Value) -> Result<Value, Refusal>
    requires { (p ≤ 65535) × (right ≤ 65535) }
    ensures { evaluated result ≡ operators.combine (operator_from op) p right x y }
{
    if op < 4 {
        return both_integers(op, p, right, x, y);
    }
    if op == 4 {
        return Ok(Value::Boolean(values::same_value(x, y)));
    }
    right_boolean(right, y)
}

fn negated(operand: usize, x: Value) -> Result<Value, Refusal>
    requires { operand ≤ 65535 }
    ensures { evaluated result ≡ operators.negation operand x }
{
    let Value::Boolean(b) = x else {
        return Err(Refusal::at(Reason::WrongKind, operand));
    };
    Ok(Value::Boolean(!b))
}

// ---- Reads

// A variable in a scope, or else in those above it: the marks on the way join the set, and then the value's own labels.
fn read_up(work: &[u8], p: usize, variable: Variable, set: &mut [u64; 4]) -> Result<Value, Refusal>
    requires { (65536 ≤ length work.now) × (p ≤ 65535) }
    ensures { Joined set.old set.new result (variable_in work.now p variable) }
{
    let name = variable.name;
    let mut at = variable.scope.number;
    for _ in 0..variable.tries {
        if let Some(i) = cells::slot_for(work, at, name) {
            labels::join(set, cells::mark_at(work, i));
            if cells::has_value(work, i) {
                labels::join(set, cells::labels_at(work, i));
                return Ok(cells::value_at(work, i));
            }
        }
        let Some(q) = memory::parent_of(work, variable.scope.base_is_node, at) else {
            return Err(Refusal::at(Reason::NoValue, p));
        };
        at = q;
    }
    Err(Refusal::at(Reason::NoValue, p))
}

fn defined_tag(m: &[u8], work: &[u8], name: u16) -> u8
    requires { (65536 ≤ length work.now) × (name < 1024) }
    ensures { result ≡ defined_tag m.now work.now name }
{
    let q = memory::definition_at(work, name);
    if q == 0 {
        return 0;
    }
    wire::byte_at(m, q as usize)
}

fn is_class(m: &[u8], work: &[u8], name: u16) -> bool
    requires { 65536 ≤ length work.now }
    ensures { ((k : Known) → KnownIn m.now work.now k → result ≡ is_class k name) × (result ≡ true → name < 1024) }
{
    if 1024 <= name {
        return false;
    }
    defined_tag(m, work, name) == 0x34
}

fn is_type(m: &[u8], work: &[u8], name: u16) -> bool
    requires { 65536 ≤ length work.now }
    ensures { (k : Known) → KnownIn m.now work.now k → result ≡ is_type k name }
{
    if 1024 <= name {
        return false;
    }
    if memory::built_in(work, name) {
        return true;
    }
    defined_tag(m, work, name) == 0x32
}

// The variable at p of a class, which is sought there alone.
fn class_variable(m: &[u8], p: usize, work: &[u8], class: u16) -> Option<Variable>
    requires { (65536 ≤ length work.now) × (p ≤ 65535) }
    ensures { (k : Known) → KnownIn m.now work.now k → sought_as work.now p result ≡ class_read k p (cells_of work.now) class (two m.now (p + 5)) }
{
    if !is_class(m, work, class) {
        return None;
    }
    let number = 2 + class;
    Some(Variable {
        name: wire::two_at(m, p + 5),
        scope: Scope {
            number,
            base_is_node: false,
        },
        tries: 1,
    })
}

// The variable at p: in a scope or those above it, in top, or in a class.
fn variable_at(m: &[u8], p: usize, work: &[u8], scope: Scope) -> Option<Variable>
    requires { (65536 ≤ length work.now) × (p ≤ 65535) }
    ensures { (out : List ℕ) (fill d : ℕ) → StandsAs m.now d Expression p → 0x13 ≤ byte m.now p → byte m.now p < 0x16 → Tells m.now work.now out fill scope (sought_as work.now p result) (λ k c st. rules.evaluate k c st (expression_at m.now d p)) }
{
    let name = wire::two_at(m, p + 3);
    match wire::byte_at(m, p) {
        0x13 => Some(Variable {
            name,
            scope,
            tries: 1026,
        }),
        0x14 => Some(Variable {
            name,
            scope: memory::TOP,
            tries: 1,
        }),
        _ => class_variable(m, p, work, name),
    }
}

// One call of `read_up` for the three kinds of variables: the back end then merges it into `evaluate`, and its answer is not copied.
fn variable_read(
    m: &[u8],
    p: usize,
    work: &[u8],
    scope: Scope,
    set: &mut [u64; 4],
) -> Result<Value, Refusal>
    requires { (65536 ≤ length work.now) × (p ≤ 65535) }
    ensures { Grows set.old set.new × ((out : List ℕ) (fill d : ℕ) → StandsAs m.now d Expression p → 0x13 ≤ byte m.now p → byte m.now p < 0x16 → TellsJoined m.now work.now out fill scope set.old set.new result (λ k c st. rules.evaluate k c st (expression_at m.now d p))) }
{
    let variable = variable_at(m, p, work, scope).ok_or(Refusal::at(Reason::Unknown, p))?;
    read_up(work, p, variable, set)
}

// The attribute that the field at p names, of the resource with this title, which stands at `title_place`.
fn attribute_of(
    m: &[u8],
    work: &[u8],
    out: &[u8],
    fill: usize,
    p: usize,
    title_place: usize,
    title: Value,
    set: &mut [u64; 4],
) -> Result<Value, Refusal>
    requires { Sized m.now work.now out.now fill p × (title_place ≤ 65535) }
    ensures { Grows set.old set.new × ((k : Known) (es : List Entry) → Ready m.now work.now out.now fill k es → answered result (labels_in set.new) ≡ joining (labels_in set.old) (attribute_of k es p title_place (two m.now (p + 3)) (two m.now (p + 5)) title)) }
{
    let Value::String(s) = title else {
        return Err(Refusal::at(Reason::WrongKind, title_place));
    };
    let kind = wire::two_at(m, p + 3);
    if !is_type(m, work, kind) {
        return Err(Refusal::at(Reason::Unknown, p));
    }
    let name = wire::two_at(m, p + 5);
    let Some(x) = catalog_index::read(work, out, fill, kind, s, name) else {
        return Err(Refusal::at(Reason::NotInCatalog, p));
    };
    labels::join(set, x.labels);
    Ok(x.value)
}

// ---- Expressions. `below` is how many levels are left for the parts of one

#[cycle(attribute_read_choose_composed_evaluate_negation_operation_selector)]
fn operation(
    m: &[u8],
    below: u8,
    p: usize,
    work: &[u8],
    out: &[u8],
    fill: usize,
    scope: Scope,
    set: &mut [u64; 4],
) -> Result<Value, Refusal>
    requires { Sized m.now work.now out.now fill p }
    ensures { Grows set.old set.new × ((d : ℕ) → OperationAt m.now d below p → TellsJoined m.now work.now out.now fill scope set.old set.new result (λ k c st. rules.evaluate k c st (expression_at m.now d p))) }
{
    let left = place(p + 4);
    let x = evaluate(m, below, left, work, out, fill, scope, set)?;
    let op = wire::byte_at(m, p + 3);
    match begin(op, x) {
        Begun::WrongKind => Err(Refusal::at(Reason::WrongKind, left)),
        Begun::Decided => Ok(x),
        Begun::Open => {
            let right = place(wire::end_of(m, p + 4));
            let y = evaluate(m, below, right, work, out, fill, scope, set)?;
            combine(op, p, right, x, y)
        }
    }
}

#[cycle(attribute_read_choose_composed_evaluate_negation_operation_selector)]
fn negation(
    m: &[u8],
    below: u8,
    p: usize,
    work: &[u8],
    out: &[u8],
    fill: usize,
    scope: Scope,
    set: &mut [u64; 4],
) -> Result<Value, Refusal>
    requires { Sized m.now work.now out.now fill p }
    ensures { Grows set.old set.new × ((d : ℕ) → NegationAt m.now d below p → TellsJoined m.now work.now out.now fill scope set.old set.new result (λ k c st. rules.evaluate k c st (expression_at m.now d p))) }
{
    let operand = place(p + 3);
    let x = evaluate(m, below, operand, work, out, fill, scope, set)?;
    negated(operand, x)
}

#[cycle(attribute_read_choose_composed_evaluate_negation_operation_selector)]
fn attribute_read(
    m: &[u8],
    below: u8,
    p: usize,
    work: &[u8],
    out: &[u8],
    fill: usize,
    scope: Scope,
    set: &mut [u64; 4],
) -> Result<Value, Refusal>
    requires { Sized m.now work.now out.now fill p }
    ensures { Grows set.old set.new × ((d : ℕ) → AttributeReadAt m.now d below p → TellsJoined m.now work.now out.now fill scope set.old set.new result (λ k c st. rules.evaluate k c st (expression_at m.now d p))) }
{
    let title = place(p + 7);
    let x = evaluate(m, below, title, work, out, fill, scope, set)?;
    attribute_of(m, work, out, fill, p, title, x, set)
}

// What the arm chosen by x gives, for the selector at p; an arm has one level more than what is in it.
#[cycle(attribute_read_choose_composed_evaluate_negation_operation_selector)]
fn choose(
    m: &[u8],
    inner: u8,
    p: usize,
    x: Value,
    work: &[u8],
    out: &[u8],
    fill: usize,
    scope: Scope,
    set: &mut [u64; 4],
) -> Result<Value, Refusal>
    requires { Sized m.now work.now out.now fill p }
    ensures { Grows set.old set.new × ((d : ℕ) → d ≡ suc inner → Siblings m.now d Arm (end_of m.now (p + 3)) (end_of m.now p) → end_of m.now p ≤ 65535 → TellsJoined m.now work.now out.now fill scope set.old set.new result (λ k c st. rules.select k (rules.arm_patterns k c st (arms_at m.now d (fields_in m.now (end_of m.now (p + 3)) (end_of m.now p)))) p x)) }
{
    let first = wire::end_of(m, p + 3);
    let end = place(wire::end_of(m, p));
    if let Some(q) = patterns::struck_pattern(m, first, end, x, work) {
        return Err(Refusal::at(Reason::Malformed, q));
    }
    let Some(chosen) = patterns::try_patterns(m, first, end, x, set) else {
        return Err(Refusal::at(Reason::NoMatch, p));
    };
    evaluate(m, inner, place(chosen), work, out, fill, scope, set)
}

#[cycle(attribute_read_choose_composed_evaluate_negation_operation_selector)]
fn selector(
    m: &[u8],
    below: u8,
    p: usize,
    work: &[u8],
    out: &[u8],
    fill: usize,
    scope: Scope,
    set: &mut [u64; 4],
) -> Result<Value, Refusal>
    requires { Sized m.now work.now out.now fill p }
    ensures { Grows set.old set.new × ((d : ℕ) → SelectorAt m.now d below p → TellsJoined m.now work.now out.now fill scope set.old set.new result (λ k c st. rules.evaluate k c st (expression_at m.now d p))) }
{
    if below == 0 {
        return Err(Refusal::at(Reason::Malformed, p));
    }
    let x = evaluate(m, below, place(p + 3), work, out, fill, scope, set)?;
    choose(m, below - 1, p, x, work, out, fill, scope, set)
}

// The expression at p, which has parts, with `depth` levels left for it.
#[cycle(attribute_read_choose_composed_evaluate_negation_operation_selector)]
fn composed(
    m: &[u8],
    depth: u8,
    p: usize,
    work: &[u8],
    out: &[u8],
    fill: usize,
    scope: Scope,
    set: &mut [u64; 4],
) -> Result<Value, Refusal>
    requires { Sized m.now work.now out.now fill p }
    ensures { Grows set.old set.new × (StandsAs m.now depth Expression p → 0x16 ≤ byte m.now p → TellsJoined m.now work.now out.now fill scope set.old set.new result (λ k c st. rules.evaluate k c st (expression_at m.now depth p))) }
{
    if depth == 0 {
        return Err(Refusal::at(Reason::Malformed, p));
    }
    let below = depth - 1;
    match wire::byte_at(m, p) {
        0x16 => operation(m, below, p, work, out, fill, scope, set),
        0x17 => negation(m, below, p, work, out, fill, scope, set),
        0x18 => attribute_read(m, below, p, work, out, fill, scope, set),
        _ => selector(m, below, p, work, out, fill, scope, set),
    }
}

// The expression at p, with `depth` levels left for it. The set then has what it had and, unless this is a refusal, the value's labels; after a refusal it
// has what it had, and labels of parts that were evaluated before.
#[cycle(attribute_read_choose_composed_evaluate_negation_operation_selector)]
pub fn evaluate(
    m: &[u8],
    depth: u8,
    p: usize,
    work: &[u8],
    out: &[u8],
    fill: usize,
    scope: Scope,
    set: &mut [u64; 4],
) -> Result<Value, Refusal>
    requires { Sized m.now work.now out.now fill p }
    ensures { Grows set.old set.new × (StandsAs m.now depth Expression p → TellsJoined m.now work.now out.now fill scope set.old set.new result (λ k c st. rules.evaluate k c st (expression_at m.now depth p))) }
{
    let tag = wire::byte_at(m, p);
    if tag < 0x13 {
        return constant(m, p, work, set);
    }
    if tag < 0x16 {
        return variable_read(m, p, work, scope, set);
    }
    composed(m, depth, p, work, out, fill, scope, set)
}
