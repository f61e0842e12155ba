// Refusal 5: no name is past the strings.
ghost use Rattle.std.specs.Prelude.{◌≡◌, length};
ghost use Rattle.rules.specs.Check.{names_known, places_in};

use format::lines::{line_of, names_right, stride};
use rules::{Fault, Verdict};
use values::Reason;
use wire::{byte_in, length_at};

// The names of all fields from `from` on, in reading order.
pub fn check_names(m: &[u8], from: usize, strings: u16) -> Verdict
    ensures { result ≡ names_known m.now strings (places_in m.now from (length m.now)) }
{
    let mut p = from;
    while p < m.len() {
        let line = line_of(byte_in(m, p));
        if !names_right(m, strings, p, line) {
            return Err(Fault::at(Reason::StringOrder, p));
        }
        p = p + 3 + stride(line, length_at(m, p)) as usize;
    }
    Ok(())
}
