// Bytes, big-endian numbers and fields in lent slices. Reads and stores are total: past the end a byte reads as 0, and nothing is stored there.
#![tactic(auto)]

mod walking;

ghost use Rattle.std.specs.Prelude.{◌≡◌, ◌∷◌, ◌+◌, ◌-◌, ◌≤◌, ◌<◌, length, drop};
ghost use Rattle.wire.specs.Bytes.{byte, two, end_of};
ghost use Rattle.wire.specs.Numbers.{number, signed64, high_bytes, word64};
ghost use Rattle.wire.specs.Runs.{bytes_at, over, zeros};

pub use walking::{Walk, fields_in};

fn wide(b: u8) -> u64
    ensures { result ≡ b }
{
    b as u64
}

fn wide_two(b: u8) -> u16
    ensures { result ≡ b }
{
    b as u16
}

// ---- Reads

pub fn byte_at(m: &[u8], i: usize) -> u8
    ensures { result ≡ byte m.now i }
{
    if i < m.len() { m[i] } else { 0 }
}

// The place after `i`; past the end any place will do.
fn after(m: &[u8], i: usize) -> usize
    ensures { drop result m.now ≡ drop (i + 1) m.now }
{
    if i < m.len() { i + 1 } else { i }
}

pub fn two_at(m: &[u8], i: usize) -> u16
    ensures { result ≡ two m.now i }
{
    if i < m.len() {
        if 2 <= m.len() - i {
            return two_in(m, i);
        }
        return wide_two(byte_in(m, i)) * 256;
    }
    0
}

// A byte that is there.
pub fn byte_in(m: &[u8], i: usize) -> u8
    requires { i < length m.now }
    ensures { result ≡ byte m.now i }
{
    m[i]
}

// Two bytes that are there.
pub fn two_in(m: &[u8], i: usize) -> u16
    requires { i + 2 ≤ length m.now }
    ensures { result ≡ two m.now i }
{
    let high = byte_in(m, i);
    let low = byte_in(m, i + 1);
    wide_two(high) * 256 + wide_two(low)
}

// Eight bytes that are there.
pub fn number_in(m: &[u8], i: usize) -> u64
    requires { i + 8 ≤ length m.now }
    ensures { result ≡ number (bytes_at m.now i 8) 0 }
{
    let mut n: u64 = 0;
    let mut p = i;
    let mut left: usize = 8;
    while 0 < left {
        n = n * 256 + wide(byte_in(m, p));
        p += 1;
        left -= 1;
    }
    n
}

// Eight bytes.
pub fn number_at(m: &[u8], i: usize) -> u64
    ensures { result ≡ number (bytes_at m.now i 8) 0 }
{
    if i < m.len() {
        if 8 <= m.len() - i {
            return number_in(m, i);
        }
    }
    number_slow(m, i)
}

fn number_slow(m: &[u8], i: usize) -> u64
    ensures { result ≡ number (bytes_at m.now i 8) 0 }
{
    let mut n: u64 = 0;
    let mut p = i;
    let mut left: usize = 8;
    while 0 < left {
        n = n * 256 + wide(byte_at(m, p));
        p = after(m, p);
        left -= 1;
    }
    n
}

fn signed_of(n: u64) -> i64
    ensures { result ≡ signed64 n }
{
    if n < 9223372036854775808 {
        return n as i64;
    }
    let k = (18446744073709551615 - n) as i64;
    -1 - k
}

pub fn signed_at(m: &[u8], i: usize) -> i64
    ensures { result ≡ signed64 (number (bytes_at m.now i 8) 0) }
{
    signed_of(number_at(m, i))
}

// The same, where the eight bytes are there.
pub fn signed_in(m: &[u8], i: usize) -> i64
    requires { i + 8 ≤ length m.now }
    ensures { result ≡ signed64 (number (bytes_at m.now i 8) 0) }
{
    signed_of(number_in(m, i))
}

// The length in the header of the field at `p`.
pub fn length_at(m: &[u8], p: usize) -> u16
    ensures { result ≡ two m.now (p + 1) }
{
    two_at(m, after(m, p))
}

// The place after the field at `p`.
pub fn end_of(m: &[u8], p: usize) -> usize
    requires { p < 4294967296 }
    ensures { result ≡ end_of m.now p }
{
    if p + 3 <= m.len() {
        return end_in(m, p);
    }
    p + 3 + length_at(m, p) as usize
}

// The same, where the header is there.
pub fn end_in(m: &[u8], p: usize) -> usize
    requires { (p + 3 ≤ length m.now) × (p < 4294967296) }
    ensures { result ≡ end_of m.now p }
{
    p + 3 + two_in(m, p + 1) as usize
}

// ---- Stores

pub fn put_byte(out: &mut [u8], at: usize, b: u8)
    ensures { out.new ≡ over out.old at (high_bytes 1 b) }
{
    if at < out.len() {
        out[at] = b;
    }
}

// The `width` low bytes of `n`.
pub fn put_number(out: &mut [u8], at: usize, n: u64, width: usize)
    requires { width ≤ 8 }
    ensures { out.new ≡ over out.old at (high_bytes width n) }
{
    let mut p = at;
    let mut left = width;
    while 0 < left && p < out.len() {
        left -= 1;
        out[p] = ((n >> (8 * left)) % 256) as u8;
        p += 1;
    }
}

pub fn put_two(out: &mut [u8], at: usize, n: u16)
    ensures { out.new ≡ over out.old at (high_bytes 2 n) }
{
    if at < out.len() {
        out[at] = (n / 256) as u8;
        let q = at + 1;
        if q < out.len() {
            out[q] = (n % 256) as u8;
        }
    }
}

// The header of a field: its tag and its length.
pub fn put_header(out: &mut [u8], at: usize, tag: u8, size: u16)
    ensures { out.new ≡ over out.old at (tag ∷ high_bytes 2 size) }
{
    if at < out.len() {
        out[at] = tag;
        put_two(out, at + 1, size);
    }
}

// Eight bytes that are there.
fn put_eight_in(out: &mut [u8], at: usize, n: u64)
    requires { at + 8 ≤ length out.old }
    ensures { out.new ≡ over out.old at (high_bytes 8 n) }
{
    out[at] = (n / 72057594037927936) as u8;
    out[at + 1] = (n / 281474976710656 % 256) as u8;
    out[at + 2] = (n / 1099511627776 % 256) as u8;
    out[at + 3] = (n / 4294967296 % 256) as u8;
    out[at + 4] = (n / 16777216 % 256) as u8;
    out[at + 5] = (n / 65536 % 256) as u8;
    out[at + 6] = (n / 256 % 256) as u8;
    out[at + 7] = (n % 256) as u8;
}

pub fn put_eight(out: &mut [u8], at: usize, n: u64)
    ensures { out.new ≡ over out.old at (high_bytes 8 n) }
{
    if at < out.len() {
        if 8 <= out.len() - at {
            put_eight_in(out, at, n);
            return;
        }
    }
    put_number(out, at, n, 8);
}

fn word_of(z: i64) -> u64
    ensures { result ≡ word64 z }
{
    if z < 0 {
        return 18446744073709551615 - (-1 - z) as u64;
    }
    z as u64
}

pub fn put_signed(out: &mut [u8], at: usize, z: i64)
    ensures { out.new ≡ over out.old at (high_bytes 8 (word64 z)) }
{
    put_eight(out, at, word_of(z));
}

pub fn copy_into(out: &mut [u8], at: usize, from: &[u8])
    ensures { out.new ≡ over out.old at from.now }
{
    let mut p = at;
    let mut i = 0;
    while i < from.len() && p < out.len() {
        out[p] = from[i];
        p += 1;
        i += 1;
    }
}

// Zeros from `from` up to `to`.
pub fn clear(out: &mut [u8], from: usize, to: usize)
    ensures { out.new ≡ over out.old from (zeros (to - from)) }
{
    let mut p = from;
    while p < to && p < out.len() {
        out[p] = 0;
        p += 1;
    }
}
