// The check before running, and the strings of a manifest.
#![tactic(auto)]

ghost use Rattle.std.specs.Prelude.{◌≡◌};
ghost use Rattle.rules.specs.Check.{check as check_of};
ghost use Rattle.syntax.specs.Before.{before};

use crate::names::check_names;
use crate::order::{check_strings, count_strings};
use crate::shape::check_shape;
use rules::{Fault, Verdict};
use values::Reason;
use wire::end_of;

mod shape; // shape.rt: refusals 3 and 4
pub mod order; // order.rt: refusal 5, the order of the strings
mod names; // names.rt: refusal 5, the names
pub mod strings; // strings.rt: strings by number and by text
pub mod nodes; // nodes.rt: the node that runs for a device

// Refusals 3 and 4, then 5.
pub fn check(m: &[u8]) -> Verdict
    ensures { result ≡ check_of m.now }
{
    check_shape(m)?;
    let e = end_of(m, 0);
    check_strings(m, e)?;
    check_names(m, e, count_strings(m, e))
}

// Refusal 2, then 3 to 5.
pub fn check_all(m: &[u8]) -> Verdict
    ensures { result ≡ before m.now }
{
    if m.len() == 0 {
        return Err(Fault::at(Reason::ManifestLength, 0));
    }
    if 65535 < m.len() {
        return Err(Fault::at(Reason::ManifestLength, 0));
    }
    check(m)
}
