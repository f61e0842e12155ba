// A line made of pieces, one after the other, in a lent buffer. `at` is how long the line is so far; past the buffer's end it does not fit.
ghost use Rattle.std.specs.Prelude.{◌≡◌, [], ◌∷◌, ◌++◌};
ghost use Rattle.catalog.specs.Making.{stored};
ghost use Rattle.rules.specs.Compile.{string_at};
ghost use Rattle.rules.specs.Schedule.{decimal, signed_decimal, boolean_text, value_text, labels_up, with_commas, labels_text};
ghost use Rattle.schedule.specs.Appending.{appended, finished, one_label_text};
ghost use Rattle.schedule.specs.Strings.{strings_by};

use labels::Labels;
use values::Value;
use values::decimal::{put_signed, put_unsigned};

pub fn put_text(line: &mut [u8], at: usize, text: &[u8]) -> usize
    ensures { stored result line.new ≡ appended text.now at line.old }
{
    wire::copy_into(line, at, text);
    if line.len() < at {
        return at;
    }
    if line.len() - at < text.len() {
        return line.len() + 1;
    }
    at + text.len()
}

pub fn put_number(line: &mut [u8], at: usize, n: u64) -> usize
    ensures { stored result line.new ≡ appended (decimal n) at line.old }
{
    let mut digits = [0u8; 20];
    let count = put_unsigned(&mut digits, n);
    put_text(line, at, &digits[..count])
}

fn put_integer(line: &mut [u8], at: usize, z: i64) -> usize
    ensures { stored result line.new ≡ appended (signed_decimal z) at line.old }
{
    let mut digits = [0u8; 20];
    let count = put_signed(&mut digits, z);
    put_text(line, at, &digits[..count])
}

// The strings of a manifest, at the places that an index has for them.
#[derive(Clone, Copy)]
pub struct Strings<'a> {
    pub manifest: &'a [u8],
    pub index: &'a [u8],
    pub count: u16,
}

impl<'a> Strings<'a> {
    // The string with a number; past the last one an empty one.
    pub fn get(self, n: u16) -> &'a [u8]
        ensures { result.now ≡ string_at (strings_by self.entry.manifest.now self.entry.index.now self.entry.count) n }
    {
        if self.count <= n {
            return &self.manifest[0..0];
        }
        syntax::strings::text_of(
            self.manifest,
            wire::two_at(self.index, 2 * n as usize) as usize,
        )
    }
}

// A string and a space.
pub fn put_word(line: &mut [u8], at: usize, strings: Strings<'_>, n: u16) -> usize
    ensures { stored result line.new ≡ appended (string_at (strings_by strings.entry.manifest.now strings.entry.index.now strings.entry.count) n ++ (32 ∷ [])) at line.old }
{
    let end = put_text(line, at, strings.get(n));
    put_text(line, end, b" ")
}

fn put_boolean(line: &mut [u8], at: usize, b: bool) -> usize
    ensures { stored result line.new ≡ appended (boolean_text b) at line.old }
{
    if b {
        return put_text(line, at, b"true");
    }
    put_text(line, at, b"false")
}

// "value (decimal, bytes, or true/false)"
pub fn put_value(line: &mut [u8], at: usize, strings: Strings<'_>, v: Value) -> usize
    ensures { stored result line.new ≡ appended (value_text (strings_by strings.entry.manifest.now strings.entry.index.now strings.entry.count) v) at line.old }
{
    match v {
        Value::Integer(z) => put_integer(line, at, z),
        Value::String(n) => put_text(line, at, strings.get(n)),
        Value::Boolean(b) => put_boolean(line, at, b),
    }
}

// A label, with a comma before it unless it is the first.
fn put_label(line: &mut [u8], at: usize, first: bool, n: u8) -> usize
    ensures { stored result line.new ≡ appended (one_label_text first n) at line.old }
{
    if first {
        return put_number(line, at, n as u64);
    }
    let comma = put_text(line, at, b",");
    put_number(line, comma, n as u64)
}

// "the labels rising": each search begins after the label found last.
fn put_label_list(line: &mut [u8], at: usize, labels: Labels) -> usize
    ensures { stored result line.new ≡ appended (with_commas (labels_up labels 256 0)) at line.old }
{
    let mut end = at;
    let mut from: u16 = 0;
    while let Some(n) = labels.next(from) {
        end = put_label(line, end, from == 0, n);
        from = n as u16 + 1;
    }
    end
}

// "how many labels, the labels rising", and the line's end.
pub fn put_labels(line: &mut [u8], at: usize, labels: Labels) -> usize
    ensures { stored result line.new ≡ appended (labels_text labels) at line.old }
{
    let space = put_text(line, at, b" ");
    let count = put_number(line, space, labels.count() as u64);
    let second = put_text(line, count, b" ");
    let list = put_label_list(line, second, labels);
    put_text(line, list, b"\n")
}

// Zeros after the line, or everywhere if it does not fit.
pub fn finish(line: &mut [u8], at: usize) -> Option<usize>
    ensures { stored result line.new ≡ finished at line.old }
{
    if line.len() < at {
        catalog::clear_rest(line, 0);
        return None;
    }
    catalog::clear_rest(line, at);
    Some(at)
}
