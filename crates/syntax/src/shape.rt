// Refusals 3 and 4: the fields are as listed, and none is deeper than 32. One reading from the first byte.
ghost use Rattle.std.specs.Prelude.{◌≡◌, ◌+◌, ◌≤◌, ◌<◌, length};
ghost use Rattle.rules.specs.Bytes.{byte, two, end_of, fields_in};
ghost use Rattle.rules.specs.Check.{inside, shape};
ghost use Rattle.format.specs.Numbers.{line_number, parts_from};
ghost use Rattle.format.specs.Coming.{then_from};
ghost use Rattle.syntax.specs.Walked.{headed, walked};

use format::lines::{bytes_right, has_fields, head_size, length_right, line_of};
use format::order::{follows, may_end};
use format::parts::{MANIFEST, parts_of};
use rules::{Fault, Verdict};
use values::Reason;
use wire::{byte_in, two_in};

// The header of the field at `q`, whose line is `line`, in surroundings that end at `e`: the parts that may come after it.
fn header_at(m: &[u8], parts: u64, line: u64, q: usize, e: usize) -> Option<u64>
    requires { (q < e) × ((e ≤ length m.now) × (line ≡ line_number (byte m.now q))) }
    ensures { then_from result ≡ headed m.now (parts_from parts) q e }
{
    if e - q < 3 {
        return None;
    }
    let len = two_in(m, q + 1);
    if e - q - 3 < len as usize {
        return None;
    }
    if length_right(line, len) {
        follows(parts, byte_in(m, q), line)
    } else {
        None
    }
}

// What is inside the field at `p`, whose header is right, with `levels` left for it.
#[cycle(check_fields_check_inside)]
fn check_inside(m: &[u8], line: u64, p: usize, len: u16, levels: u8) -> Verdict
    requires { (end_of m.now p ≤ length m.now) × ((line ≡ line_number (byte m.now p)) × (len ≡ two m.now (p + 1))) }
    ensures { result ≡ inside m.now levels p }
{
    if levels == 0 {
        return Err(Fault::at(Reason::TooDeep, p));
    }
    let size = head_size(line);
    if len < size {
        return Err(Fault::at(Reason::Malformed, p));
    }
    if !bytes_right(m, p, line) {
        return Err(Fault::at(Reason::Malformed, p));
    }
    if !has_fields(line) {
        return Ok(());
    }
    let parts = parts_of(byte_in(m, p));
    let from = p + 3 + size as usize;
    let end = p + 3 + len as usize;
    check_fields(m, p, parts, from, end, levels - 1)
}

// The fields from `from` to `e`, which belong to the field at `p`.
#[cycle(check_fields_check_inside)]
fn check_fields(m: &[u8], p: usize, parts: u64, from: usize, e: usize, levels: u8) -> Verdict
    requires { e ≤ length m.now }
    ensures { result ≡ walked m.now (inside m.now levels) p (parts_from parts) e (fields_in m.now from e) }
{
    let mut left = parts;
    let mut q = from;
    while q < e {
        let line = line_of(byte_in(m, q));
        let Some(then) = header_at(m, left, line, q, e) else {
            return Err(Fault::at(Reason::Malformed, q));
        };
        let len = two_in(m, q + 1);
        check_inside(m, line, q, len, levels)?;
        left = then;
        q = q + 3 + len as usize;
    }
    if may_end(left) {
        Ok(())
    } else {
        Err(Fault::at(Reason::Malformed, p))
    }
}

// The whole manifest: one 01, then items.
pub fn check_shape(m: &[u8]) -> Verdict
    ensures { result ≡ shape m.now }
{
    check_fields(m, 0, MANIFEST, 0, m.len(), 32)
}
