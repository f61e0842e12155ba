// Numbers as decimal text, written at the start of a lent buffer. Where the buffer is too short nothing is written, and the answer is 0.
ghost use Rattle.std.specs.Prelude.{◌≡◌, [], ◌+◌, ◌≤◌, nat_abs, length};
ghost use Rattle.std.proofs.lemmas.List.Edits.{sets};
ghost use Rattle.values.specs.Decimal.{last_digits, decimal, signed_decimal, wrote, write_text};

pub fn put_unsigned(out: &mut [u8], n: u64) -> usize
    ensures { wrote result out.new ≡ write_text (decimal n) out.old }
{
    let count = digit_count(n);
    if out.len() < count {
        return 0;
    }
    put_digits(out, 0, count, n);
    count
}

pub fn put_signed(out: &mut [u8], z: i64) -> usize
    ensures { wrote result out.new ≡ write_text (signed_decimal z) out.old }
{
    let n = z.unsigned_abs();
    if 0 <= z {
        return put_unsigned(out, n);
    }
    let count = digit_count(n);
    if out.len() <= count {
        return 0;
    }
    out[0] = b'-';
    put_digits(out, 1, count, n);
    count + 1
}

fn digit_count(n: u64) -> usize
    ensures { result ≡ length (decimal n) }
{
    let mut count: usize = 1;
    let mut rest = n;
    while 10 <= rest {
        rest /= 10;
        count += 1;
    }
    count
}

// Writes the last `count` digits of n from `at` on, the last first.
fn put_digits(out: &mut [u8], at: usize, count: usize, n: u64)
    requires { at + count ≤ length out.old }
    ensures { out.new ≡ sets out.old at (last_digits count n []) }
{
    let mut rest = n;
    for i in (0..count).rev() {
        out[at + i] = b'0' + (rest % 10) as u8;
        rest /= 10;
    }
}
