// The catalog in the lent output. An entry is made in the rest of the output, from the fill point on; what an
// attribute holds is read back.
#![tactic(auto)]

ghost use Rattle.std.specs.Prelude.{◌≡◌, List, ◌≤◌, length};
ghost use Rattle.wire.specs.Runs.{over};
ghost use Rattle.rules.specs.State.{Attribute};
ghost use Rattle.rules.specs.Catalog.{value_bytes};
ghost use Rattle.catalog.specs.Layout.{entry_attributes};
ghost use Rattle.catalog.specs.Making.{stored, attribute, entry, add_attribute, Holding, put_entry, cleared_from};
ghost use Rattle.catalog.specs.Finding.{value_at, content_at};

use crate::layout::{
    ATTRIBUTE_LABELS, ATTRIBUTE_NAME, ATTRIBUTE_VALUE, BEFORE_VALUE, ENTRY_ATTRIBUTES,
    ENTRY_LABELS, ENTRY_TITLE, ENTRY_TYPE, HEADER,
};
use labels::Labels;
use values::{Labelled, Value};

pub mod layout; // layout.rt: where the parts of an entry and of an attribute stand

// ---- Writing

fn value_size(v: Value) -> u16
    ensures { result ≡ length (value_bytes v) }
{
    match v {
        Value::Integer(_) => 11,
        Value::String(_) => 5,
        Value::Boolean(_) => 4,
    }
}

fn put_value(rest: &mut [u8], at: usize, v: Value)
    requires { at ≤ 4294967400 }
    ensures { rest.new ≡ over rest.old at (value_bytes v) }
{
    match v {
        Value::Integer(z) => {
            wire::put_header(rest, at, 0x42, 8);
            wire::put_signed(rest, at + HEADER, z);
        }
        Value::String(n) => {
            wire::put_header(rest, at, 0x43, 2);
            wire::put_two(rest, at + HEADER, n);
        }
        Value::Boolean(b) => {
            wire::put_header(rest, at, 0x44, 1);
            wire::put_byte(rest, at + HEADER, u8::from(b));
        }
    }
}

// One more attribute after the `size` bytes of an entry in the making. If it does not fit, nothing is stored; the new size is told all the same.
pub fn add_attribute(rest: &mut [u8], size: usize, name: u16, x: Labelled) -> usize
    requires { size ≤ 4294967296 }
    ensures { stored result rest.new ≡ add_attribute rest.old size (attribute name x) }
{
    let value = x.value;
    let body = BEFORE_VALUE + value_size(value);
    let end = size + HEADER + body as usize;
    if rest.len() < end {
        return end;
    }
    wire::put_header(rest, size, 0x41, body);
    wire::put_two(rest, size + ATTRIBUTE_NAME, name);
    let labels = x.labels;
    labels.write_at(rest, size + ATTRIBUTE_LABELS);
    put_value(rest, size + ATTRIBUTE_VALUE, value);
    end
}

// Writes the header of an entry of `size` bytes in front of its attributes, unless the entry is longer than the rest or the room.
pub fn finish_entry(
    rest: &mut [u8],
    size: usize,
    room: usize,
    kind: u16,
    title: u16,
    labels: Labels,
) -> Option<usize>
    requires { (entry_attributes ≤ size) × (room ≤ 65535) }
    ensures { (ats : List Attribute) → Holding rest.old size ats → stored result rest.new ≡ put_entry rest.old room (entry kind title labels ats) }
{
    if rest.len() < size {
        return None;
    }
    if room < size {
        return None;
    }
    wire::put_header(rest, 0, 0x40, (size - HEADER) as u16);
    wire::put_two(rest, ENTRY_TYPE, kind);
    wire::put_two(rest, ENTRY_TITLE, title);
    labels.write_at(rest, ENTRY_LABELS);
    Some(size)
}

// All bytes from `from` on become zero.
pub fn clear_rest(out: &mut [u8], from: usize)
    ensures { out.new ≡ cleared_from from out.old }
{
    let end = out.len();
    wire::clear(out, from, end);
}

// ---- Reading

fn value_at(out: &[u8], at: usize) -> Value
    requires { at ≤ 4294967400 }
    ensures { result ≡ value_at out.now at }
{
    match wire::byte_at(out, at) {
        0x42 => Value::Integer(wire::signed_at(out, at + HEADER)),
        0x43 => Value::String(wire::two_at(out, at + HEADER)),
        _ => Value::Boolean(wire::byte_at(out, at + HEADER) == 1),
    }
}

// What the attribute at a place holds.
pub fn read_attribute(out: &[u8], at: usize) -> Labelled
    requires { at ≤ 4294967296 }
    ensures { result ≡ content_at out.now at }
{
    let value = value_at(out, at + ATTRIBUTE_VALUE);
    let labels = Labels::read_at(out, at + ATTRIBUTE_LABELS);
    Labelled { value, labels }
}
