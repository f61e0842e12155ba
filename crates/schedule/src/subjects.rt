// What stands at a position of a catalog. Any bytes may be given for one.
ghost use Rattle.std.specs.Prelude.{◌≡◌, ◌≤◌};
ghost use Rattle.schedule.specs.Subjects.{value_right, entry_stands, attribute_stands, next_in, subject_in, subject_at};

use crate::{Position, Subject};
use catalog::layout::{ATTRIBUTE_VALUE, BEFORE_ATTRIBUTES, ENTRY_ATTRIBUTES};
use wire::{byte_at, end_of, length_at};

const LONGEST: usize = 65535;

fn value_right(tag: u8, size: u16) -> bool
    ensures { result ≡ value_right tag size }
{
    match tag {
        0x42 => size == 8,
        0x43 => size == 2,
        0x44 => size == 1,
        _ => false,
    }
}

// Whether an entry stands at `p`, whole.
fn entry_stands(catalog: &[u8], p: usize) -> bool
    requires { p ≤ 65535 }
    ensures { result ≡ entry_stands catalog.now p }
{
    if byte_at(catalog, p) != 0x40 {
        return false;
    }
    if length_at(catalog, p) < BEFORE_ATTRIBUTES {
        return false;
    }
    end_of(catalog, p) <= catalog.len()
}

// Whether an attribute stands at `q`, whole, in an entry that ends at `e`.
fn attribute_stands(catalog: &[u8], q: usize, e: usize) -> bool
    requires { q ≤ 65535 }
    ensures { result ≡ attribute_stands catalog.now q e }
{
    if byte_at(catalog, q) != 0x41 {
        return false;
    }
    let end = end_of(catalog, q);
    if e < end {
        return false;
    }
    if end_of(catalog, q + ATTRIBUTE_VALUE) != end {
        return false;
    }
    value_right(
        byte_at(catalog, q + ATTRIBUTE_VALUE),
        length_at(catalog, q + ATTRIBUTE_VALUE),
    )
}

fn next_in(p: usize, q: usize, e: usize) -> Position
    requires { e ≤ 65535 }
    ensures { result ≡ next_in p q e }
{
    if q == e {
        return Position {
            entry: e,
            attribute: e + ENTRY_ATTRIBUTES,
        };
    }
    Position {
        entry: p,
        attribute: q,
    }
}

// At `q` in the entry from `p` to `e`.
fn subject_in(catalog: &[u8], p: usize, q: usize, e: usize) -> Subject
    requires { (p ≤ 65535) × (e ≤ 65535) }
    ensures { result ≡ subject_in catalog.now p q e }
{
    if e <= q {
        if q == p + ENTRY_ATTRIBUTES {
            return Subject::NoAttributes(next_in(p, e, e));
        }
        return Subject::NotACatalog;
    }
    if q < p + ENTRY_ATTRIBUTES {
        return Subject::NotACatalog;
    }
    if attribute_stands(catalog, q, e) {
        return Subject::AnAttribute(next_in(p, end_of(catalog, q), e));
    }
    Subject::NotACatalog
}

pub fn subject_at(catalog: &[u8], at: Position) -> Subject
    ensures { result ≡ subject_at catalog.now at }
{
    if LONGEST < catalog.len() {
        return Subject::NotACatalog;
    }
    let p = at.entry;
    if catalog.len() <= p {
        return Subject::End;
    }
    if entry_stands(catalog, p) {
        return subject_in(catalog, p, at.attribute, end_of(catalog, p));
    }
    Subject::NotACatalog
}
