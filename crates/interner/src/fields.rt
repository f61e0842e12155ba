// The table of strings as a manifest has it: a field with a field for each string.
ghost use Rattle.std.specs.Prelude.{◌≡◌, ◌+◌, ◌≤◌, ◌<◌, length};
ghost use Rattle.rules.specs.Fields.{wrap, write_all};
ghost use Rattle.notation.specs.Quoted.{string_from};
ghost use Rattle.notation.specs.Convert.{string_fields};
ghost use Rattle.interner.specs.Table.{strings};
ghost use Rattle.interner.specs.TableField.{table_bytes, at_start, Measurable, Writable, Put};

use crate::{next, start};

// The tag and the length before the body of a field.
const HEADER: usize = 3;

// ---- Lengths

// The length of the string that begins at `at`.
fn string_size(text: &[u8], at: usize) -> usize
    ensures { (result ≡ length (string_from text.now at)) × (result ≤ length text.now) }
{
    let first = start(text, at);
    let mut p = first.at;
    let mut size: usize = 0;
    loop {
        let x = next(text, first.quote, p);
        if x.code == 0 {
            return size;
        }
        p = x.at;
        size += 1;
    }
}

// The length of the whole field, which leaves room for sums.
pub fn table_size(text: &[u8], table: &[u8], count: usize) -> usize
    requires { Measurable text.now table.now count }
    ensures { (result ≡ length (table_bytes text.now table.now count)) × (result < 4294967296) }
{
    let mut size = HEADER;
    for i in 0..count {
        let place = usize::from(wire::two_in(table, 2 * i));
        size += HEADER + string_size(text, place);
    }
    size
}

// ---- Bytes

// Writes the string that begins at `from`; the answer is the place behind it.
fn put_string(text: &[u8], from: usize, out: &mut [u8], at: usize) -> usize
    requires { at + length (string_from text.now from) ≤ length out.old }
    ensures { Put out.old out.new at result (string_from text.now from) }
{
    let first = start(text, from);
    let mut p = first.at;
    let mut end = at;
    loop {
        let x = next(text, first.quote, p);
        if x.code == 0 {
            return end;
        }
        out[end] = (x.code - 1) as u8;
        p = x.at;
        end += 1;
    }
}

// The field of one string.
fn put_field(text: &[u8], from: usize, out: &mut [u8], at: usize) -> usize
    requires { (at + 3 + length (string_from text.now from) ≤ length out.old) × (length (string_from text.now from) ≤ 65535) }
    ensures { Put out.old out.new at result (wrap 0x02 (string_from text.now from)) }
{
    let size = string_size(text, from);
    wire::put_header(out, at, 0x02, size as u16);
    put_string(text, from, out, at + HEADER)
}

// The fields of all strings, one after the other.
fn put_fields(text: &[u8], table: &[u8], count: usize, out: &mut [u8]) -> usize
    requires { Writable text.now table.now count out.old }
    ensures { Put out.old out.new 3 result (write_all (string_fields (strings text.now table.now count))) }
{
    let mut end = HEADER;
    for i in 0..count {
        let place = usize::from(wire::two_in(table, 2 * i));
        end = put_field(text, place, out, end);
    }
    end
}

// Writes the whole field at the start of the output; the answer is its length. The header comes last, since it has the length of what follows it.
pub fn write_table(text: &[u8], table: &[u8], count: usize, out: &mut [u8]) -> usize
    requires { Writable text.now table.now count out.old }
    ensures { (result ≡ length (table_bytes text.now table.now count)) × (out.new ≡ at_start (table_bytes text.now table.now count) out.old) }
{
    let end = put_fields(text, table, count, out);
    wire::put_header(out, 0, 0x01, (end - HEADER) as u16);
    end
}
