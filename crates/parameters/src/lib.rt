// The parameters (33) of a definition: what a declaration gives them checked (11, 12, 21), and assigned in the order of the 33s.
#![tactic(auto)]

ghost use Rattle.std.specs.Prelude.{◌≡◌, ℕ, ◌+◌, ◌≤◌, ◌<◌, List, length, true, Some, None};
ghost use Rattle.wire.specs.Bytes.{two, fields_in, pick};
ghost use Rattle.rules.specs.Run.{Given};
ghost use Rattle.rules.specs.declared.Kind.TheVariants.{Parameter};
ghost use Rattle.places.specs.At.{parameters_at, Siblings, default_at};
ghost use Rattle.places.specs.Parts.{BlockEnds};
ghost use Rattle.records.specs.Record.{held_of};
ghost use Rattle.catalog.specs.Finding.{Below};
ghost use Rattle.attributes.specs.Names.{Alike};
ghost use Rattle.attributes.specs.Table.{Gives, given_at};
ghost use Rattle.parameters.specs.Places.{unknown_in, parameter_value, missing_in, of_default, defaults_in};
ghost use Rattle.parameters.specs.Checked.{Checked, SmallNames, Stores, Assigns, AssignsAll};
ghost use Rattle.patterns.specs.Struck.{first_struck, Near};

use attributes::Span;
use memory::Context;
use values::{Labelled, Reason, Refusal};

// Where the parameters that begin at `from` end: the definition's block stands there.
pub fn end_of_parameters(m: &[u8], from: usize) -> usize
    requires { (length m.now ≤ 65535) × (from ≤ 65535) }
    ensures { (to e : ℕ) → Siblings m.now 31 Parameter from to → BlockEnds m.now 31 to e → result ≡ to }
{
    let mut q = from;
    while wire::byte_at(m, q) == 0x33 {
        q = wire::end_of(m, q);
    }
    q
}

// ---- Checks

// The first attribute from `first` to `end` that names no parameter from `from` to `to`.
fn find_unknown(m: &[u8], first: usize, end: usize, from: usize, to: usize) -> Option<usize>
    requires { (end ≤ 65535) × (to ≤ 65535) }
    ensures { (result ≡ unknown_in m.now (fields_in m.now from to) (fields_in m.now first end)) × Below end result }
{
    if end <= first {
        return None;
    }
    let mut seen = [0u8; 1024];
    attributes::mark_names(m, from, to, &mut seen);
    for q in wire::fields_in(m, first, end) {
        if !attributes::is_marked(m, from, to, wire::two_at(m, q + 3), &seen) {
            return Some(q);
        }
    }
    None
}

// The value of the parameter at q: the one given, or else its default.
fn value_of(m: &[u8], q: usize, table: &[u8]) -> Option<Labelled>
    requires { q ≤ 65535 }
    ensures { result ≡ held_of (parameter_value m.now table.now q) }
{
    if let Some(x) = attributes::given(table, wire::two_at(m, q + 3)) {
        return Some(x);
    }
    if wire::end_of(m, q) <= q + 5 {
        return None;
    }
    Some(evaluator::constant_at(m, q + 5))
}

// The first parameter from `from` to `to` without a value.
fn find_missing(m: &[u8], from: usize, to: usize, table: &[u8]) -> Option<usize>
    requires { to ≤ 65535 }
    ensures { (result ≡ missing_in m.now table.now (fields_in m.now from to)) × Below to result }
{
    for q in wire::fields_in(m, from, to) {
        if value_of(m, q, table).is_none() {
            return Some(q);
        }
    }
    None
}

// What the attributes given, whose values are in the table, give to the parameters: 11, 12, then 21.
pub fn check_parameters(
    m: &[u8],
    given: Span,
    parameters: Span,
    table: &[u8],
) -> Result<(), Refusal>
    requires { (length m.now ≤ 65535) × ((given.end ≤ 65535) × (parameters.end ≤ 65535)) }
    ensures { (gs : List Given) → Gives table.now gs → Alike m.now gs (fields_in m.now given.first given.end) → Siblings m.now 31 Parameter parameters.first parameters.end → SmallNames m.now (fields_in m.now parameters.first parameters.end) → Checked (parameters_at m.now (fields_in m.now parameters.first parameters.end)) gs result }
{
    if let Some(q) = find_unknown(m, given.first, given.end, parameters.first, parameters.end) {
        return Err(Refusal::at(Reason::UnknownParameter, q));
    }
    if let Some(q) = find_missing(m, parameters.first, parameters.end, table) {
        return Err(Refusal::at(Reason::MissingParameter, q));
    }
    if let Some(q) = attributes::find_repeated(m, given.first, given.end) {
        return Err(Refusal::at(Reason::AttributeAgain, q));
    }
    Ok(())
}

// ---- Stores

// The parameter at q, assigned as a 21 would do it.
fn store_parameter(
    m: &[u8],
    q: usize,
    table: &[u8],
    work: &mut [u8],
    here: Context,
) -> Result<(), Refusal>
    requires { (q ≤ 65535) × ((65536 ≤ length work.old) × (two m.now (q + 3) < 1024)) }
    ensures { Stores m.now table.now work.old work.new q here result }
{
    let x = value_of(m, q, table).ok_or(Refusal::at(Reason::MissingParameter, q))?;
    statements::store(work, q, here, wire::two_at(m, q + 3), x)
}

// The parameters of a definition, in the context of its body.
fn store_parameters(
    m: &[u8],
    parameters: Span,
    table: &[u8],
    work: &mut [u8],
    here: Context,
) -> Result<(), Refusal>
    requires { ((parameters.end ≤ 65535) × ((65536 ≤ length work.old) × (length m.now ≤ 65535))) × (Siblings m.now 31 Parameter parameters.first parameters.end × SmallNames m.now (fields_in m.now parameters.first parameters.end)) }
    ensures { Assigns m.now table.now work.old work.new parameters.first parameters.end here result }
{
    for q in wire::fields_in(m, parameters.first, parameters.end) {
        store_parameter(m, q, table, work, here)?;
    }
    Ok(())
}

// ---- Defaults

// Whether the parameter at q takes its default, and that is struck out.
fn takes_struck(m: &[u8], q: usize, table: &[u8], work: &[u8]) -> bool
    requires { (q ≤ 65535) × (65536 ≤ length work.now) }
    ensures { (pick result (Some (q + 5)) None ≡ first_struck work.now (of_default (given_at table.now (two m.now (q + 3))) (default_at m.now q))) × (result ≡ true → q + 5 ≤ 65535) }
{
    if attributes::given(table, wire::two_at(m, q + 3)).is_some() {
        return false;
    }
    if wire::end_of(m, q) <= q + 5 {
        return false;
    }
    memory::is_struck_out(work, wire::byte_at(m, q + 8), q + 5)
}

// The first default struck out of those that the parameters from `from` to `to` take. In a compile none is.
fn struck_default(m: &[u8], from: usize, to: usize, table: &[u8], work: &[u8]) -> Option<usize>
    requires { (to ≤ 65535) × (65536 ≤ length work.now) }
    ensures { (result ≡ first_struck work.now (defaults_in m.now table.now (fields_in m.now from to))) × Near result }
{
    if memory::none_struck_out(work) {
        return None;
    }
    for q in wire::fields_in(m, from, to) {
        if takes_struck(m, q, table, work) {
            return Some(q + 5);
        }
    }
    None
}

// The parameters of a definition, in the context of its body, unless a default that is assigned is struck out.
pub fn assign_parameters(
    m: &[u8],
    parameters: Span,
    table: &[u8],
    work: &mut [u8],
    here: Context,
) -> Result<(), Refusal>
    requires { ((parameters.end ≤ 65535) × ((65536 ≤ length work.old) × (length m.now ≤ 65535))) × (Siblings m.now 31 Parameter parameters.first parameters.end × SmallNames m.now (fields_in m.now parameters.first parameters.end)) }
    ensures { AssignsAll m.now table.now work.old work.new parameters.first parameters.end here result }
{
    if let Some(q) = struck_default(m, parameters.first, parameters.end, table, work) {
        return Err(Refusal::at(Reason::Malformed, q));
    }
    store_parameters(m, parameters, table, work, here)
}
