// The patterns of a selector or of a case, tried on a value over the manifest's bytes in place. An arm (1A) and a branch (24) begin alike: a pattern, then what follows if it is chosen.
#![tactic(auto)]

ghost use Rattle.std.specs.Prelude.{◌≡◌, ◌≤◌, ◌<◌, length};
ghost use Rattle.labels.specs.Sets.{one_label};
ghost use Rattle.labels.specs.Words.{Joins};
ghost use Rattle.wire.specs.Bytes.{byte, fields_in};
ghost use Rattle.rules.specs.Arithmetic.{same_value};
ghost use Rattle.rules.specs.Patterns.{tried};
ghost use Rattle.places.specs.At.{constant_at};
ghost use Rattle.patterns.specs.Tried.{patterns_at, Matches};
ghost use Rattle.patterns.specs.Struck.{first_struck, Near};

use values::Value;

// Joins a label to a set in four words.
fn join_label(set: &mut [u64; 4], label: u8)
    requires { length set.old ≡ 4 }
    ensures { Joins set.old set.new (one_label label) }
{
    let i = (label / 64) as usize;
    set[i] = set[i] | (1u64 << (label % 64));
}

// Whether the constant at p, whose tag is known, has the value x, compared in place.
fn equals_constant(m: &[u8], tag: u8, p: usize, x: Value) -> bool
    requires { (tag ≡ byte m.now p) × (p < 4294967296) }
    ensures { result ≡ same_value x (constant_at m.now p).value }
{
    match x {
        Value::Integer(z) => {
            if tag != 0x10 {
                return false;
            }
            z == wire::signed_at(m, p + 4)
        }
        Value::String(n) => {
            if tag != 0x11 {
                return false;
            }
            n == wire::two_at(m, p + 4)
        }
        Value::Boolean(b) => {
            // Every other tag reads as a boolean.
            if tag == 0x10 {
                return false;
            }
            if tag == 0x11 {
                return false;
            }
            b == (wire::byte_at(m, p + 4) == 1)
        }
    }
}

// The first constant among the patterns of the fields from `from` to `end` that equals x, also behind a default, or else the first default; the labels of the constants tried join the set lent. The rule of which one is chosen stands here alone.
pub fn try_patterns(
    m: &[u8],
    from: usize,
    end: usize,
    x: Value,
    set: &mut [u64; 4],
) -> Option<usize>
    requires { (end ≤ 65535) × (length set.old ≡ 4) }
    ensures { Matches m.now from end x set.old set.new result }
{
    let mut default = None;
    for q in wire::fields_in(m, from, end) {
        let pattern = q + 3;
        let tag = wire::byte_at(m, pattern);
        if tag == 0x1b {
            // "With two defaults the first counts."
            default = default.or(Some(wire::end_of(m, pattern)));
            continue;
        }
        join_label(set, wire::byte_at(m, pattern + 3));
        if equals_constant(m, tag, pattern, x) {
            return Some(wire::end_of(m, pattern));
        }
    }
    default
}

// The first constant struck out among the patterns that are tried on x, of the fields from `from` to `end`. In a compile none is.
pub fn struck_pattern(m: &[u8], from: usize, end: usize, x: Value, work: &[u8]) -> Option<usize>
    requires { (end ≤ 65535) × (65536 ≤ length work.now) }
    ensures { (result ≡ first_struck work.now (tried (patterns_at m.now (fields_in m.now from end)) x)) × Near result }
{
    if memory::none_struck_out(work) {
        return None;
    }
    for q in wire::fields_in(m, from, end) {
        let pattern = q + 3;
        let tag = wire::byte_at(m, pattern);
        if tag == 0x1b {
            continue;
        }
        if memory::is_struck_out(work, wire::byte_at(m, pattern + 3), pattern) {
            return Some(pattern);
        }
        if equals_constant(m, tag, pattern, x) {
            return None;
        }
    }
    None
}
