// The strings of a manifest: a table of their places, and what they say.
ghost use Rattle.std.specs.Prelude.{◌≡◌, ◌+◌, ◌*◌, ◌<◌, ◌≤◌, length};
ghost use Rattle.wire.specs.Runs.{over};
ghost use Rattle.rules.specs.Bytes.{fields_in};
ghost use Rattle.rules.specs.Check.{text, string_places};
ghost use Rattle.rules.specs.Types.{the_eight};
ghost use Rattle.rules.specs.Compile.{same_bytes, string_at, string_number, title_text};
ghost use Rattle.syntax.specs.Strings.{string_texts, is_built_in_text, place_bytes, indexed, Indexed, found_of};

use wire::{end_of, length_at, put_two, two_at};

// The body of the field at `p`, or as much of it as is there.
pub fn text_of(m: &[u8], p: usize) -> &[u8]
    ensures { result.now ≡ text m.now p }
{
    if m.len() <= p {
        return &m[0..0];
    }
    if m.len() - p <= 3 {
        return &m[0..0];
    }
    let len = length_at(m, p) as usize;
    let from = p + 3;
    if m.len() - from <= len {
        return &m[from..];
    }
    let end = from + len;
    &m[from..end]
}

pub fn same_bytes(x: &[u8], y: &[u8]) -> bool
    ensures { result ≡ same_bytes x.now y.now }
{
    if x.len() != y.len() {
        return false;
    }
    for i in 0..x.len() {
        if x[i] != y[i] {
            return false;
        }
    }
    true
}

// Whether the string at `place` is `bytes`.
pub fn string_is(m: &[u8], place: usize, bytes: &[u8]) -> bool
    ensures { result ≡ same_bytes (text m.now place) bytes.now }
{
    same_bytes(text_of(m, place), bytes)
}

// Puts the places of the fields from `from` up to `e` into `table`, two bytes each, and returns how many there are.
pub fn index_fields(m: &[u8], from: usize, e: usize, table: &mut [u8]) -> u16
    requires { e ≤ 65538 }
    ensures { (result ≡ length (fields_in m.now from e)) × (table.new ≡ over table.old 0 (place_bytes (fields_in m.now from e))) }
{
    let mut n: u16 = 0;
    for q in wire::fields_in(m, from, e) {
        put_two(table, 2 * n as usize, (q % 65536) as u16);
        n += 1;
    }
    n
}

// Puts the places of the strings into `table`, and returns how many there are.
pub fn index_strings(m: &[u8], table: &mut [u8]) -> u16
    ensures { (result ≡ length (string_places m.now)) × (table.new ≡ indexed m.now table.old) }
{
    index_fields(m, 3, end_of(m, 0), table)
}

// The string with the number `n`; past the last one an empty one.
pub fn string_at<'a>(m: &'a [u8], table: &[u8], strings: u16, n: u16) -> &'a [u8]
    requires { Indexed m.now table.now strings }
    ensures { result.now ≡ string_at (string_texts m.now) n }
{
    if strings <= n {
        return &m[0..0];
    }
    text_of(m, two_at(table, 2 * n as usize) as usize)
}

// The number of a string.
pub fn string_number(m: &[u8], bytes: &[u8]) -> Option<u16>
    ensures { result ≡ found_of (string_number bytes.now (string_texts m.now) 0) }
{
    let mut places = wire::fields_in(m, 3, end_of(m, 0));
    let n = places.position(|q| same_bytes(bytes, text_of(m, q)))?;
    Some(n as u16)
}

// The number of the string `title`.
pub fn title_number(m: &[u8]) -> Option<u16>
    ensures { result ≡ found_of (string_number title_text (string_texts m.now) 0) }
{
    string_number(m, b"title")
}

// Whether a type is one of the eight, by its name.
pub fn is_built_in_text(text: &[u8]) -> bool
    ensures { result ≡ is_built_in_text the_eight text.now }
{
    same_bytes(text, b"kiosk")
        | same_bytes(text, b"tablet")
        | same_bytes(text, b"printer")
        | same_bytes(text, b"scanner")
        | same_bytes(text, b"gate")
        | same_bytes(text, b"screen")
        | same_bytes(text, b"plan")
        | same_bytes(text, b"wall")
}
