// Decimal numbers in a text, up to a limit.
ghost use Rattle.std.specs.Prelude.{◌≡◌};
ghost use Rattle.input.specs.Numbers.{with_digit, spelled, up_to};

// The number n with one digit more, unless the byte is no digit or the number is above the limit.
fn with_digit(most: u32, n: u32, byte: u8) -> Option<u32>
    ensures { result ≡ up_to most (with_digit most n byte) }
{
    if !byte.is_ascii_digit() {
        return None;
    }
    let more = n.checked_mul(10)?.checked_add(u32::from(byte - b'0'))?;
    if most < more {
        return None;
    }
    Some(more)
}

// The number that digits spell, unless a byte is no digit or the number is above the limit.
pub fn number_spelled(most: u32, digits: &[u8]) -> Option<u32>
    ensures { result ≡ up_to most (spelled most digits.now 0) }
{
    let mut n: u32 = 0;
    for byte in digits {
        n = with_digit(most, n, *byte)?;
    }
    Some(n)
}
