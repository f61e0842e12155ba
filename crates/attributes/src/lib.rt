// The attributes (26) of a declaration: evaluated in written order into a table by name, and the first of them that repeats a name.
#![tactic(auto)]

ghost use Rattle.std.specs.Prelude.{◌≡◌, [], ℕ, ◌+◌, ◌-◌, ◌≤◌, ◌<◌, eqb, length};
ghost use Rattle.std.proofs.Math.Option.{some};
ghost use Rattle.wire.specs.Bytes.{pick, byte, end_of, fields_in};
ghost use Rattle.rules.specs.Evaluate.{any};
ghost use Rattle.rules.specs.declared.Kind.TheVariants.{Attribute, Statement};
ghost use Rattle.places.specs.At.{StandsAs, Siblings};
ghost use Rattle.records.specs.Record.{held_of};
ghost use Rattle.catalog.specs.Finding.{Below};
ghost use Rattle.evaluator.specs.Known.{Sized};
ghost use Rattle.attributes.specs.Names.{has_name, named_in, name_from, repeated_in, Marked, Marks, Unmarked};
ghost use Rattle.attributes.specs.Table.{HasRow, given_at, Adds, Fresh};
ghost use Rattle.attributes.specs.Evaluated.{GivenIn, TitledIn};

use labels::Labels;
use memory::Scope;
use values::{Labelled, Reason, Refusal, Value};

// The fields from `first` up to `end`: the attributes of a declaration, or the parameters of a definition.
#[derive(Clone, Copy)]
pub struct Span {
    pub first: usize,
    pub end: usize,
}

// ---- Names

// Whether one of the attributes between two places has this name.
pub fn is_named(m: &[u8], first: usize, end: usize, name: u16) -> bool
    requires { end ≤ 65535 }
    ensures { result ≡ any (has_name m.now name) (fields_in m.now first end) }
{
    wire::fields_in(m, first, end).any(|q| wire::two_at(m, q + 3) == name)
}

// The first of the attributes between two places that has this name.
pub fn find_named(m: &[u8], first: usize, end: usize, name: u16) -> Option<usize>
    requires { end ≤ 65535 }
    ensures { (result ≡ named_in m.now name (fields_in m.now first end)) × Below end result }
{
    wire::fields_in(m, first, end).find(|q| wire::two_at(m, *q + 3) == name)
}

// Whether one of the attributes between two places has a name of `limit` or more.
pub fn has_name_from(m: &[u8], first: usize, end: usize, limit: u16) -> bool
    requires { end ≤ 65535 }
    ensures { result ≡ any (name_from m.now limit) (fields_in m.now first end) }
{
    wire::fields_in(m, first, end).any(|q| limit <= wire::two_at(m, q + 3))
}

// Whether one of the fields from `first` up to q has this name, by the marks of the names below 1,024 that they have.
// A checked manifest has no other names.
pub fn is_marked(m: &[u8], first: usize, q: usize, name: u16, seen: &[u8]) -> bool
    requires { q ≤ 65535 }
    ensures { Marked m.now seen.now first q → result ≡ any (has_name m.now name) (fields_in m.now first q) }
{
    if 1024 <= name {
        return is_named(m, first, q, name);
    }
    wire::byte_at(seen, name as usize) == 1
}

// The same, and marks the name.
fn is_again(m: &[u8], first: usize, q: usize, name: u16, seen: &mut [u8]) -> bool
    requires { (q ≤ 65535) × (1024 ≤ length seen.old) }
    ensures { (Marked m.now seen.old first q → result ≡ any (has_name m.now name) (fields_in m.now first q)) × Marks seen.old seen.new name }
{
    let again = is_marked(m, first, q, name, seen);
    wire::put_byte(seen, name as usize, 1);
    again
}

// Marks the names below 1,024 of the fields between two places, where none is marked yet.
pub fn mark_names(m: &[u8], first: usize, end: usize, seen: &mut [u8])
    requires { (end ≤ 65535) × (1024 ≤ length seen.old) }
    ensures { Unmarked seen.old → Marked m.now seen.new first end }
{
    for q in wire::fields_in(m, first, end) {
        wire::put_byte(seen, wire::two_at(m, q + 3) as usize, 1);
    }
}

// The first of the attributes between two places whose name one before it has.
pub fn find_repeated(m: &[u8], first: usize, end: usize) -> Option<usize>
    requires { end ≤ 65535 }
    ensures { (result ≡ repeated_in m.now [] (fields_in m.now first end)) × Below end result }
{
    if end <= first {
        return None;
    }
    let mut seen = [0u8; 1024];
    for q in wire::fields_in(m, first, end) {
        if is_again(m, first, q, wire::two_at(m, q + 3), &mut seen) {
            return Some(q);
        }
    }
    None
}

// ---- The table

// How many bytes a table with a row for every name has. A row is a record.
pub const TABLE: usize = 1024 * records::SIZE;

// How many names a small table has rows for: to clear the large one takes longer than most declarations take.
pub const SMALL_NAMES: u16 = 64;

// How many bytes a small table has.
pub const SMALL_TABLE: usize = 64 * records::SIZE;

// The value given to a name.
pub fn given(table: &[u8], name: u16) -> Option<Labelled>
    ensures { result ≡ held_of (given_at table.now name) }
{
    let place = records::SIZE * name as usize;
    if table.len() < place + records::SIZE {
        return None;
    }
    records::record_at(table, place)
}

// Gives a value to a name.
fn put_given(table: &mut [u8], name: u16, x: Labelled)
    requires { HasRow (length table.old) name }
    ensures { (n : ℕ) → given_at table.new n ≡ pick (eqb n name) (some x) (given_at table.old n) }
{
    records::put_record(table, records::SIZE * name as usize, x);
}

// Gives a value to a name that has none yet.
fn add_given(table: &mut [u8], name: u16, x: Labelled)
    requires { name < 1024 → HasRow (length table.old) name }
    ensures { Adds table.old table.new name x }
{
    if 1024 <= name {
        return;
    }
    if given(table, name).is_none() {
        put_given(table, name, x);
    }
}

// ---- Evaluation

// The attributes of a span, with `depth` levels left for them, into a table that gives nothing yet.
pub fn evaluate_attributes(
    m: &[u8],
    depth: u8,
    span: Span,
    work: &[u8],
    out: &[u8],
    fill: usize,
    scope: Scope,
    table: &mut [u8],
) -> Result<(), Refusal>
    requires { (Sized m.now work.now out.now fill span.end × Siblings m.now depth Attribute span.first span.end) × Fresh m.now table.old (fields_in m.now span.first span.end) }
    ensures { GivenIn m.now work.now out.now fill scope depth span.first span.end table.new result }
{
    for q in wire::fields_in(m, span.first, span.end) {
        let mut set = [0u64; 4];
        let value = evaluator::evaluate(m, depth - 1, q + 5, work, out, fill, scope, &mut set)?;
        let labels = Labels::in_words(&set);
        add_given(table, wire::two_at(m, q + 3), Labelled { value, labels });
    }
    Ok(())
}

// The title and the attributes of the 27 at p, with `depth` levels left for it.
pub fn evaluate_titled(
    m: &[u8],
    depth: u8,
    p: usize,
    work: &[u8],
    out: &[u8],
    fill: usize,
    scope: Scope,
    table: &mut [u8],
) -> Result<Labelled, Refusal>
    requires { ((Sized m.now work.now out.now fill p × StandsAs m.now depth Statement p) × (byte m.now p ≡ 0x27)) × Fresh m.now table.old (fields_in m.now (end_of m.now (p + 5)) (end_of m.now p)) }
    ensures { TitledIn m.now work.now out.now fill scope (depth - 1) p table.new result }
{
    let mut set = [0u64; 4];
    let value = evaluator::evaluate(m, depth - 1, p + 5, work, out, fill, scope, &mut set)?;
    let Value::String(_) = value else {
        return Err(Refusal::at(Reason::WrongKind, p + 5));
    };
    let span = Span {
        first: wire::end_of(m, p + 5),
        end: wire::end_of(m, p),
    };
    evaluate_attributes(m, depth - 1, span, work, out, fill, scope, table)?;
    let labels = Labels::in_words(&set);
    Ok(Labelled { value, labels })
}
