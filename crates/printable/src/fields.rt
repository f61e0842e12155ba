// One field of a manifest: whether the notation can spell it.
ghost use Rattle.std.specs.Prelude.{◌≡◌, ◌&&◌, ℕ, ◌+◌, ◌<◌, length, drop};
ghost use Rattle.rules.specs.Format.{form_of, size};
ghost use Rattle.rules.specs.Check.{next_in_order};
ghost use Rattle.rules.specs.Compile.{is_built_in};
ghost use Rattle.rules.specs.declared.Piece.{Piece};
ghost use Rattle.format.specs.Numbers.{name_number, line_number};
ghost use Rattle.syntax.specs.Strings.{string_texts, Indexed};
ghost use Rattle.type_list.specs.Listed.{chosen, Listed};
ghost use Rattle.notation.specs.Printer.{spellable, names_spellable, type_right};
ghost use Rattle.printable.specs.Reading.{prints_at, label_behind};

use crate::names::is_name;
use crate::{Manifest, Types};
use format::lines::{line_of, stride};
use syntax::strings::string_at;
use type_list::is_type;
use wire::{byte_at, byte_in, length_at, two_at};

// Whether the piece at `q`, if `check` says that it is a name, can be spelled.
fn name_spellable(m: Manifest<'_>, q: usize, check: u64) -> bool
    requires { Indexed m.bytes.now m.table.now m.strings }
    ensures { (x : Piece) → check ≡ name_number x → result ≡ spellable (string_texts m.entry.bytes.now) m.entry.bytes.now q x }
{
    match check {
        1 => is_name(string_at(m.bytes, m.table, m.strings, two_at(m.bytes, q))),
        _ => true,
    }
}

// Whether the names that the field at `p` begins with can be spelled.
fn pieces_spellable(m: Manifest<'_>, p: usize, line: u64) -> bool
    requires { (Indexed m.bytes.now m.table.now m.strings) × (p < length m.bytes.now) }
    ensures { (t : ℕ) → line ≡ line_number t → result ≡ (spellable (string_texts m.entry.bytes.now) m.entry.bytes.now (p + 3) (form_of t).one && spellable (string_texts m.entry.bytes.now) m.entry.bytes.now (p + 3 + size (form_of t).one) (form_of t).two) }
{
    if line / 2048 % 4 == 0 {
        return true;
    }
    if !name_spellable(m, p + 3, line / 2048 % 2) {
        return false;
    }
    name_spellable(m, p + 3 + (line / 8192 % 16) as usize, line / 4096 % 2)
}

// The same, but for a string and a device's name, which are spelled in quotes.
fn names_spellable(m: Manifest<'_>, p: usize, tag: u8) -> bool
    requires { (Indexed m.bytes.now m.table.now m.strings) × (p < length m.bytes.now) }
    ensures { result ≡ names_spellable (string_texts m.entry.bytes.now) tag (drop (p + 3) m.entry.bytes.now) }
{
    if tag == 0x11 {
        return true;
    }
    if tag == 0x31 {
        return true;
    }
    pieces_spellable(m, p, line_of(tag))
}

// Whether the type with this name is built in.
fn is_built_in_type(types: Types<'_>, m: Manifest<'_>, n: u16) -> bool
    requires { Listed types.list.now types.index.now types.count × Indexed m.bytes.now m.table.now m.strings }
    ensures { result ≡ is_built_in (chosen types.entry.list.now) (string_texts m.entry.bytes.now) n }
{
    is_type(
        types.list,
        types.index,
        types.count,
        string_at(m.bytes, m.table, m.strings, n),
    )
}

// Whether a built-in resource has a built-in type, and a defined one another.
fn type_right(types: Types<'_>, m: Manifest<'_>, p: usize, tag: u8) -> bool
    requires { Listed types.list.now types.index.now types.count × ((Indexed m.bytes.now m.table.now m.strings) × (p < length m.bytes.now)) }
    ensures { result ≡ type_right (chosen types.entry.list.now) (string_texts m.entry.bytes.now) tag (drop (p + 3) m.entry.bytes.now) }
{
    match tag {
        0x25 => is_built_in_type(types, m, two_at(m.bytes, p + 3)),
        0x27 => !is_built_in_type(types, m, two_at(m.bytes, p + 3)),
        _ => true,
    }
}

// Whether the field at `p` can be printed behind a constant with the label `last`.
pub fn prints_at(types: Types<'_>, m: Manifest<'_>, last: u8, p: usize) -> bool
    requires { Listed types.list.now types.index.now types.count × ((Indexed m.bytes.now m.table.now m.strings) × (p < length m.bytes.now)) }
    ensures { result ≡ prints_at (chosen types.entry.list.now) m.entry.bytes.now (string_texts m.entry.bytes.now) last p }
{
    let tag = byte_in(m.bytes, p);
    if label_behind(m.bytes, last, p) < last {
        return false;
    }
    if !names_spellable(m, p, tag) {
        return false;
    }
    type_right(types, m, p, tag)
}

// The label of the last constant, where that of the one before the field at `p` is `last`.
pub fn label_behind(m: &[u8], last: u8, p: usize) -> u8
    requires { p < length m.now }
    ensures { result ≡ label_behind m.now last p }
{
    let tag = byte_in(m, p);
    if tag < 0x10 {
        return last;
    }
    if 0x12 < tag {
        return last;
    }
    byte_at(m, p + 3)
}

// The next field in reading order.
pub fn next_place(m: &[u8], p: usize) -> usize
    requires { p < length m.now }
    ensures { result ≡ next_in_order m.now p }
{
    let line = line_of(byte_in(m, p));
    p + 3 + stride(line, length_at(m, p)) as usize
}
