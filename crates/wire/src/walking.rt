// The fields of a lent slice one after another, by their lengths alone.
ghost use Rattle.std.specs.Prelude.{◌≡◌, ◌≤◌, ◌-◌};
ghost use Rattle.std.specs.Iterator.{at_most};
ghost use Rattle.wire.specs.Walks.{Steps};

use crate::end_of;

// The places of the fields from `at` up to `end`.
#[derive(Drop)]
pub struct Walk<'a> {
    bytes: &'a [u8],
    at: usize,
    end: usize,
    ghost near: { end ≤ 4294967296 },
}

// The places of the fields from `from` up to `end`.
pub fn fields_in<'a>(m: &'a [u8], from: usize, end: usize) -> Walk<'a>
    requires { end ≤ 4294967296 }
    ensures bytes { result.bytes.now ≡ m.now }
    ensures at { result.at ≡ from }
    ensures end { result.end ≡ end }
{
    Walk {
        bytes: m,
        at: from,
        end,
    }
}

impl<'a> Iterator for Walk<'a> {
    type Item = usize;

    ghost next_gives = { λ s r t. Steps s.bytes.now s.at s.end r t.bytes.now t.at t.end };

    ghost remaining = { λ s. at_most (s.end - s.at) };

    fn next(&mut self) -> Option<usize> {
        if self.end <= self.at {
            return None;
        }
        let p = self.at;
        self.at = end_of(self.bytes, p);
        Some(p)
    }
}
