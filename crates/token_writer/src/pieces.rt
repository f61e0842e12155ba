// Bytes at a place of the output. A byte past its end is not written; the answer is the place behind the last one all the same.
ghost use Rattle.std.specs.Prelude.{◌+◌, ◌≤◌, ◌<◌, length, replicate};
ghost use Rattle.values.specs.Decimal.{signed_decimal};
ghost use Rattle.notation.specs.Layout.{escaped, escaped_all};
ghost use Rattle.token_writer.specs.Writing.{Wrote};

use values::decimal::put_signed;

pub fn put_bytes(out: &mut [u8], at: usize, bytes: &[u8]) -> usize
    requires { at + length bytes.now < 18446744073709551616 }
    ensures { Wrote out.old out.new at result bytes.now }
{
    wire::copy_into(out, at, bytes);
    at + bytes.len()
}

// The byte `b`, `count` times.
pub fn put_run(out: &mut [u8], at: usize, b: u8, count: usize) -> usize
    requires { at + count < 18446744073709551616 }
    ensures { Wrote out.old out.new at result (replicate count b) }
{
    let end = at + count;
    let room = out.len();
    out[at.min(room)..end.min(room)].fill(b);
    end
}

// A byte of a string, in single quotes.
fn put_escaped(out: &mut [u8], at: usize, b: u8) -> usize
    requires { at ≤ 562949953421311 }
    ensures { Wrote out.old out.new at result (escaped b) }
{
    match b {
        b'\'' => put_bytes(out, at, b"\\'"),
        b'\\' => put_bytes(out, at, b"\\\\"),
        b'\n' => put_bytes(out, at, b"\\n"),
        _ => {
            wire::put_byte(out, at, b);
            at + 1
        }
    }
}

// The bytes between the quotes.
pub fn put_quoted(out: &mut [u8], at: usize, string: &[u8]) -> usize
    requires { (at ≤ 562949953290239) × (length string.now ≤ 65535) }
    ensures { Wrote out.old out.new at result (escaped_all string.now) }
{
    let mut end = at;
    for byte in string {
        end = put_escaped(out, end, *byte);
    }
    end
}

// The digits are made in a buffer of their own: part of them may be past the end of the output.
pub fn put_integer(out: &mut [u8], at: usize, value: i64) -> usize
    requires { at ≤ 562949953421311 }
    ensures { Wrote out.old out.new at result (signed_decimal value) }
{
    let mut digits = [0u8; 20];
    let count = put_signed(&mut digits, value);
    put_bytes(out, at, &digits[..count])
}
