// Lines and their parts, and numbers and bytes as text.
ghost use Rattle.std.specs.Prelude.{◌≡◌, ◌+◌, ◌*◌, ◌/◌, ◌≤◌, ◌<◌, min, eqb, length};
ghost use Rattle.wire.specs.Runs.{over};
ghost use Rattle.run_cases.specs.Text.{IsPrefixLen, hex_value, hex_digit, pair_at, pairs, hex_text, number_up_to};

// ---- Lines

// Whether a byte ends a line.
pub fn is_line_feed(byte: u8) -> bool
    ensures { result ≡ eqb byte 10 }
{
    byte == b'\n'
}

// Whether a byte stands between two parts of a line.
pub fn is_space(byte: u8) -> bool
    ensures { result ≡ eqb byte 32 }
{
    byte == b' '
}

// ---- Reading

// The value of a hexadecimal digit; 16 for any other byte.
fn hex_value(b: u8) -> u8
    ensures { result ≡ hex_value b }
{
    if b < 48 {
        return 16;
    }
    if b < 58 {
        return b - 48;
    }
    if b < 97 {
        return 16;
    }
    if b < 103 {
        return b - 87;
    }
    16
}

// n with one more decimal digit, or `most` where that is larger.
fn with_digit(n: usize, digit: u8, most: usize) -> usize
    ensures { result ≡ min most (n * 10 + digit) }
{
    n.saturating_mul(10)
        .saturating_add(digit as usize)
        .min(most)
}

// The decimal number at the start, or `most` where it is larger.
pub fn read_number(text: &[u8], most: usize) -> usize
    ensures value { result ≡ number_up_to most text.now 0 }
    ensures upper_bound { result ≤ most }
{
    let mut n: usize = 0;
    for byte in text {
        let digit = hex_value(*byte);
        if 9 < digit {
            return n;
        }
        n = with_digit(n, digit, most);
    }
    n
}

// The number at the start as a length, at most all of `room`.
pub fn read_length(text: &[u8], room: &[u8]) -> usize
    ensures value { result ≡ number_up_to (length room.now) text.now 0 }
    ensures prefix_len { IsPrefixLen result room.now }
{
    read_number(text, room.len())
}

// The byte that the two digits at i stand for; 256 where there are no two.
fn pair_at(text: &[u8], i: usize) -> u16
    requires { i ≤ length text.now }
    ensures { result ≡ pair_at text.now i }
{
    if text.len() - i < 2 {
        return 256;
    }
    let high = hex_value(text[i]);
    if 15 < high {
        return 256;
    }
    let low = hex_value(text[i + 1]);
    if 15 < low {
        return 256;
    }
    (16 * high + low) as u16
}

// The bytes that the digits at the start stand for, as many as `into` holds. Answers how many.
pub fn read_hex(text: &[u8], into: &mut [u8]) -> usize
    ensures into_after { into.new ≡ over into.old 0 (pairs (length into.old) text.now 0) }
    ensures value { result ≡ length (pairs (length into.old) text.now 0) }
    ensures prefix_len { IsPrefixLen result into.new }
{
    let mut n: usize = 0;
    let mut i = 0;
    while n < into.len() {
        let pair = pair_at(text, i);
        if 255 < pair {
            return n;
        }
        into[n] = pair as u8;
        n += 1;
        i += 2;
    }
    n
}

// ---- Writing

fn hex_digit(value: u8) -> u8
    requires { value < 16 }
    ensures { result ≡ hex_digit value }
{
    if value < 10 { 48 + value } else { 87 + value }
}

// Two digits for each of the first `count` bytes, as far as there are bytes and `into` holds the digits. Answers how many digits.
pub fn put_hex(into: &mut [u8], bytes: &[u8], count: usize) -> usize
    ensures into_after { into.new ≡ over into.old 0 (hex_text (min (min count (length bytes.now)) (length into.old / 2)) bytes.now 0) }
    ensures prefix_len { IsPrefixLen result into.new }
    ensures value { result ≡ 2 * min (min count (length bytes.now)) (length into.old / 2) }
{
    let all = count.min(bytes.len()).min(into.len() / 2);
    for n in 0..all {
        let b = bytes[n];
        into[2 * n] = hex_digit(b / 16);
        into[2 * n + 1] = hex_digit(b % 16);
    }
    2 * all
}
