// Refusal 5: the strings rise strictly by bytes, a prefix first.
ghost use Rattle.std.specs.Prelude.{◌≡◌, ◌≤◌, length};
ghost use Rattle.rules.specs.Bytes.{fields_in};
ghost use Rattle.rules.specs.Check.{ascends, rising};

use crate::strings::text_of;
use rules::{Fault, Verdict};
use values::Reason;
use wire::end_of;

// Whether `x` comes before `y`.
pub fn comes_before(x: &[u8], y: &[u8]) -> bool
    ensures { result ≡ ascends x.now y.now }
{
    x < y
}

// The strings from 3 to `e`, each against the one before it.
pub fn check_strings(m: &[u8], e: usize) -> Verdict
    requires { e ≤ 65538 }
    ensures { result ≡ rising m.now (fields_in m.now 3 e) }
{
    let mut last = text_of(m, 3);
    for q in wire::fields_in(m, end_of(m, 3), e) {
        let text = text_of(m, q);
        if !comes_before(last, text) {
            return Err(Fault::at(Reason::StringOrder, q));
        }
        last = text;
    }
    Ok(())
}

// How many strings there are.
pub fn count_strings(m: &[u8], e: usize) -> u16
    requires { e ≤ 65538 }
    ensures { result ≡ length (fields_in m.now 3 e) }
{
    wire::fields_in(m, 3, e).count() as u16
}
