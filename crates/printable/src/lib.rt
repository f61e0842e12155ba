// Whether the notation can spell a manifest: refusal 26.
#![tactic(auto)]

ghost use Rattle.std.specs.Prelude.{◌≡◌, ◌≤◌, length};
ghost use Rattle.rules.specs.Check.{check};
ghost use Rattle.syntax.specs.Strings.{Indexed, found_of};
ghost use Rattle.type_list.specs.Listed.{chosen, Listed};
ghost use Rattle.notation.specs.Printer.{unprintable_at};
ghost use Rattle.rules.specs.Verdicts.{no_fault};

use crate::fields::{label_behind, next_place, prints_at};
use wire::end_of;

mod names; // names.rt: names in the notation
pub mod fields; // fields.rt: one field

// A manifest, the places of its strings, and how many there are.
#[derive(Clone, Copy)]
pub struct Manifest<'a> {
    pub bytes: &'a [u8],
    pub table: &'a [u8],
    pub strings: u16,
}

// A list of types, the places of its names, and how many there are. An empty list means the eight.
#[derive(Clone, Copy)]
pub struct Types<'a> {
    pub list: &'a [u8],
    pub index: &'a [u8],
    pub count: u16,
}

// The place of the first field that cannot be printed.
pub fn first_unprintable(types: Types<'_>, m: Manifest<'_>) -> Option<u16>
    requires { Listed types.list.now types.index.now types.count × ((check m.bytes.now ≡ no_fault) × ((length m.bytes.now ≤ 65535) × (Indexed m.bytes.now m.table.now m.strings))) }
    ensures { result ≡ found_of (unprintable_at (chosen types.entry.list.now) m.entry.bytes.now) }
{
    let mut last: u8 = 0;
    let mut p = end_of(m.bytes, 0);
    while p < m.bytes.len() {
        if !prints_at(types, m, last, p) {
            return Some(p as u16);
        }
        last = label_behind(m.bytes, last, p);
        p = next_place(m.bytes, p);
    }
    None
}
