// Each operation tests whether its result fits before it computes it.
ghost use Rattle.std.specs.Prelude.{◌≡◌, false, ◌+ℤ◌, ◌-ℤ◌};
ghost use Rattle.std.specs.Int.Signed.{lt_z};
ghost use Rattle.values.specs.Integers.{is_zero, floor_divide};
ghost use Rattle.values.specs.Computed.{computed};

use crate::ArithmeticError;

const LEAST: i64 = -9223372036854775808;

const GREATEST: i64 = 9223372036854775807;

pub fn sum(a: i64, b: i64) -> Result<i64, ArithmeticError>
    ensures { result ≡ computed false (a +ℤ b) }
{
    if 0 < b {
        if a <= GREATEST - b {
            return Ok(a + b);
        }
        return Err(ArithmeticError::Overflow);
    }
    if LEAST - b <= a {
        return Ok(a + b);
    }
    Err(ArithmeticError::Overflow)
}

pub fn difference(a: i64, b: i64) -> Result<i64, ArithmeticError>
    ensures { result ≡ computed false (a -ℤ b) }
{
    if 0 < b {
        if LEAST + b <= a {
            return Ok(a - b);
        }
        return Err(ArithmeticError::Overflow);
    }
    if a <= GREATEST + b {
        return Ok(a - b);
    }
    Err(ArithmeticError::Overflow)
}

// Division that rounds toward minus infinity: truncating division, corrected by the remainder and the signs.
pub fn quotient(a: i64, b: i64) -> Result<i64, ArithmeticError>
    ensures { result ≡ computed (is_zero b) (floor_divide a b) }
{
    if b == 0 {
        return Err(ArithmeticError::DivisionByZero);
    }
    if a == LEAST && b == -1 {
        return Err(ArithmeticError::Overflow);
    }
    let truncated = a / b;
    let remainder = a % b;
    if remainder == 0 {
        return Ok(truncated);
    }
    if (remainder < 0) == (b < 0) {
        return Ok(truncated);
    }
    Ok(truncated - 1)
}

pub fn is_greater(a: i64, b: i64) -> bool
    ensures { result ≡ lt_z b a }
{
    b < a
}
