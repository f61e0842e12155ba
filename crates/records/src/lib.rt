// A labelled value in 48 bytes, as the cells and the table of given values keep it: payload 8 bytes, source 2, key 2, kind 1, spare 3, set 32.
// A store writes all of them: source, key and spare as zeros, which nothing reads yet.
#![tactic(auto)]

ghost use Rattle.std.specs.Prelude.{◌≡◌, ◌+◌, ◌≤◌, length};
ghost use Rattle.wire.specs.Numbers.{high_bytes};
ghost use Rattle.wire.specs.Runs.{over};
ghost use Rattle.records.specs.Record.{record_size, kind_at, kind_of, payload_of, value_from, word_at, middle_bytes, record_bytes, content_at, record_in, is_empty, held_of};

use labels::Labels;
use values::{Labelled, Value};

// How many bytes a record has.
pub const SIZE: usize = 48;

// Where source and key stand in it, before the kind.
const SOURCE: usize = 8;

// The kind; 0 where the record holds nothing.
const KIND: usize = 12;

const SET: usize = 16;

// ---- Values by kind and payload

#[tactic(auto, unfolding(crate::specs::Record::kind_of))]
fn kind_of(value: Value) -> u8
    ensures { result ≡ kind_of value }
{
    match value {
        Value::Integer(_) => 2,
        Value::String(_) => 3,
        Value::Boolean(_) => 4,
    }
}

fn put_payload(bytes: &mut [u8], at: usize, value: Value)
    ensures { bytes.new ≡ over bytes.old at (high_bytes 8 (payload_of value)) }
{
    match value {
        Value::Integer(z) => wire::put_signed(bytes, at, z),
        Value::String(n) => wire::put_eight(bytes, at, n as u64),
        Value::Boolean(b) => wire::put_eight(bytes, at, b as u64),
    }
}

fn value_at(bytes: &[u8], kind: u8, at: usize) -> Value
    requires { at + 8 ≤ length bytes.now }
    ensures { result ≡ value_from kind (word_at bytes.now at) }
{
    if kind == 2 {
        return Value::Integer(wire::signed_in(bytes, at));
    }
    let payload = wire::number_in(bytes, at);
    if kind == 3 {
        return Value::String((payload % 65536) as u16);
    }
    Value::Boolean(payload == 1)
}

// ---- Records

// Whether the record at a place holds nothing.
pub fn is_empty(bytes: &[u8], at: usize) -> bool
    requires { at + record_size ≤ length bytes.now }
    ensures { result ≡ is_empty (record_in bytes.now at) }
{
    wire::byte_in(bytes, at + KIND) == 0
}

// The value of a record that holds one, and its set, apart: an answer with both in it is copied at each call that is not merged.
pub fn value_in(bytes: &[u8], at: usize) -> Value
    requires { at + record_size ≤ length bytes.now }
    ensures { result ≡ (content_at bytes.now at).value }
{
    let kind = wire::byte_in(bytes, at + KIND);
    value_at(bytes, kind, at)
}

pub fn labels_in(bytes: &[u8], at: usize) -> Labels
    requires { at + record_size ≤ length bytes.now }
    ensures { result ≡ (content_at bytes.now at).labels }
{
    Labels::read_within(bytes, at + SET)
}

// What the record at a place holds.
pub fn record_at(bytes: &[u8], at: usize) -> Option<Labelled>
    requires { at + record_size ≤ length bytes.now }
    ensures { result ≡ held_of (record_in bytes.now at) }
{
    let kind = wire::byte_in(bytes, at + KIND);
    if kind == 0 {
        return None;
    }
    let value = value_at(bytes, kind, at);
    let labels = Labels::read_within(bytes, at + SET);
    Some(Labelled { value, labels })
}

// Source, key, kind and spare.
fn put_middle(bytes: &mut [u8], at: usize, kind: u8)
    requires { at + 8 ≤ length bytes.old }
    ensures { bytes.new ≡ over bytes.old at (middle_bytes kind) }
{
    bytes[at] = 0;
    bytes[at + 1] = 0;
    bytes[at + 2] = 0;
    bytes[at + 3] = 0;
    bytes[at + 4] = kind;
    bytes[at + 5] = 0;
    bytes[at + 6] = 0;
    bytes[at + 7] = 0;
}

pub fn put_record(bytes: &mut [u8], at: usize, x: Labelled)
    requires { at + record_size ≤ length bytes.old }
    ensures { bytes.new ≡ over bytes.old at (record_bytes x) }
{
    let value = x.value;
    let labels = x.labels;
    put_payload(bytes, at, value);
    put_middle(bytes, at + SOURCE, kind_of(value));
    labels.write_within(bytes, at + SET);
}

// The record at a place then holds nothing.
pub fn empty_record(bytes: &mut [u8], at: usize)
    requires { at ≤ 4294967296 }
    ensures { bytes.new ≡ over bytes.old (kind_at at) (high_bytes 1 0) }
{
    wire::put_byte(bytes, at + KIND, 0);
}
