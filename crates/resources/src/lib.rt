// A resource of a built-in type, after its step: its parts evaluated over the manifest's bytes in place, and its entry written to the output.
#![tactic(auto)]

ghost use Rattle.std.specs.Prelude.{◌≡◌, true, List, ℕ, suc, ◌+◌, ◌-◌, ◌≤◌, ◌<◌, length, drop};
ghost use Rattle.rules.specs.State.{Attribute, Entry};
ghost use Rattle.rules.specs.Ranges.{Each, FitsAttribute};
ghost use Rattle.catalog.specs.Layout.{entry_attributes};
ghost use Rattle.catalog.specs.Making.{attribute, entry, Holding};
ghost use Rattle.catalog.specs.Finding.{Written};
ghost use Rattle.evaluator.specs.Known.{Sized};
ghost use Rattle.resources.specs.Attributes.{under_both, Kept, Appended, Added, Gathered};
ghost use Rattle.resources.specs.Entries.{Within, Entered, Checks, RunsTitled, Runs};

use attributes::Span;
use labels::Labels;
use memory::{Context, Scope};
use values::{Labelled, Reason, Refusal, Value, place};

// ---- Attributes

// One more attribute after the `size` bytes of the entry in the making.
fn append(
    out: &mut [u8],
    fill: usize,
    size: usize,
    name: u16,
    x: Labelled,
    outer: Labels,
    own: Labels,
) -> usize
    requires { (fill ≤ length out.old) × (size ≤ 4294967296) }
    ensures { Appended out.old out.new fill size result (attribute name (under_both outer own x)) }
{
    let content = x.under(outer).under(own);
    catalog::add_attribute(&mut out[fill..], size, name, content)
}

// The attribute at q, evaluated and appended; its expression has `inner` levels.
fn add_attribute(
    m: &[u8],
    inner: u8,
    q: usize,
    work: &[u8],
    out: &mut [u8],
    fill: usize,
    size: usize,
    scope: Scope,
    outer: Labels,
    own: Labels,
) -> Result<usize, Refusal>
    requires { (Sized m.now work.now out.old fill q) × (size ≤ 4294967296) }
    ensures { Added m.now work.now out.old out.new fill size scope inner q outer own result }
{
    let mut set = [0u64; 4];
    let value = evaluator::evaluate(m, inner, place(q + 5), work, out, fill, scope, &mut set)?;
    let labels = Labels::in_words(&set);
    let x = Labelled { value, labels };
    Ok(append(out, fill, size, wire::two_at(m, q + 3), x, outer, own))
}

// The attributes of a span; an attribute has one level more than its expression.
fn gather(
    m: &[u8],
    inner: u8,
    span: Span,
    work: &[u8],
    out: &mut [u8],
    fill: usize,
    scope: Scope,
    outer: Labels,
    own: Labels,
) -> Result<usize, Refusal>
    requires { Sized m.now work.now out.old fill span.end }
    ensures { (d : ℕ) → d ≡ suc inner → Gathered m.now work.now out.old out.new fill scope d span.first span.end outer own result }
{
    let mut size: usize = catalog::layout::ENTRY_ATTRIBUTES;
    for q in wire::fields_in(m, span.first, span.end) {
        size = add_attribute(m, inner, q, work, out, fill, size, scope, outer, own)?;
    }
    Ok(size)
}

// ---- The entry

// The header in front of the attributes, unless the entry of `size` bytes is longer than the room.
fn finish(
    out: &mut [u8],
    fill: usize,
    size: usize,
    room: usize,
    p: usize,
    kind: u16,
    title: u16,
    own: Labels,
) -> Result<usize, Refusal>
    requires { (fill ≤ length out.old) × ((fill ≤ 65535) × ((entry_attributes ≤ size) × ((room ≤ 65535) × ((room ≤ length out.old - fill) × (p ≤ 65535))))) }
    ensures { Kept out.old out.new fill × (Within fill room result × ((ats : List Attribute) (es : List Entry) → Holding (drop fill out.old) size ats → Each FitsAttribute ats → Written out.old fill es → Entered out.new fill room p es (entry kind title own ats) result)) }
{
    if room < size {
        return Err(Refusal::at(Reason::OutputFull, p));
    }
    let finished = catalog::finish_entry(&mut out[fill..], size, room, kind, title, own);
    finished.ok_or(Refusal::at(Reason::OutputFull, p))?;
    Ok(fill + size)
}

// The checks of the resource at p, whose type is built in and whose attributes are those of the span, by rising number, and its entry.
fn check(
    m: &[u8],
    p: usize,
    span: Span,
    work: &[u8],
    out: &mut [u8],
    fill: usize,
    size: usize,
    room: usize,
    title: u16,
    own: Labels,
) -> Result<usize, Refusal>
    requires { (65536 ≤ length work.now) × ((fill ≤ length out.old) × ((fill ≤ 65535) × ((entry_attributes ≤ size) × ((room ≤ 65535) × ((room ≤ length out.old - fill) × ((p ≤ 65535) × (span.end ≤ 65535))))))) }
    ensures { Checks m.now work.now out.old out.new fill size room p span.first span.end true title own result }
{
    let kind = wire::two_at(m, p + 3);
    if catalog_index::has_entry(work, out, fill, kind, title) {
        return Err(Refusal::at(Reason::ResourceAgain, p));
    }
    if let Some(q) = attributes::find_repeated(m, span.first, span.end) {
        return Err(Refusal::at(Reason::AttributeAgain, q));
    }
    finish(out, fill, size, room, p, kind, title, own)
}

// ---- The whole

// The resource at p, whose title is x; the expressions in its attributes have `inner` levels.
fn add_titled(
    m: &[u8],
    inner: u8,
    p: usize,
    x: Labelled,
    work: &[u8],
    out: &mut [u8],
    fill: usize,
    room: usize,
    here: Context,
    built_in: bool,
) -> Result<usize, Refusal>
    requires { (Sized m.now work.now out.old fill p) × ((room ≤ 65535) × (room ≤ length out.old - fill)) }
    ensures { RunsTitled m.now work.now out.old out.new fill room here inner p x built_in result }
{
    let Value::String(title) = x.value else {
        return Err(Refusal::at(Reason::WrongKind, place(p + 5)));
    };
    let outer = memory::path_and_trail(work, here.path);
    let own = outer.union(x.labels);
    let span = Span {
        first: wire::end_of(m, p + 5),
        end: place(wire::end_of(m, p)),
    };
    let size = gather(m, inner, span, work, out, fill, here.scope, outer, own)?;
    if !built_in {
        return Err(Refusal::at(Reason::Unknown, p));
    }
    check(m, p, span, work, out, fill, size, room, title, own)
}

// The resource at p, with `depth` levels left for it. `built_in` says whether its type is, `room` how much of the output is left.
pub fn add_resource(
    m: &[u8],
    depth: u8,
    p: usize,
    work: &[u8],
    out: &mut [u8],
    fill: usize,
    room: usize,
    here: Context,
    built_in: bool,
) -> Result<usize, Refusal>
    requires { (Sized m.now work.now out.old fill p) × ((room ≤ 65535) × (room ≤ length out.old - fill)) }
    ensures { Runs m.now work.now out.old out.new fill room here depth p built_in result }
{
    if depth < 2 {
        return Err(Refusal::at(Reason::Malformed, p));
    }
    let mut set = [0u64; 4];
    let at = place(p + 5);
    let value = evaluator::evaluate(m, depth - 1, at, work, out, fill, here.scope, &mut set)?;
    let labels = Labels::in_words(&set);
    let x = Labelled { value, labels };
    add_titled(m, depth - 2, p, x, work, out, fill, room, here, built_in)
}
