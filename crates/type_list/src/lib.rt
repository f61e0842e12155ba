// The list of types that a caller may lend: its check, and whether it holds a type. A call that is lent none hands on an empty list, which no list that is lent
// may be: then the eight types of document 01 are meant.
#![tactic(auto)]

ghost use Rattle.std.specs.Prelude.{◌≡◌, ◌<◌, ◌≤◌, length};
ghost use Rattle.rules.specs.Types.{lower_case, field_right, check_list, check_types};
ghost use Rattle.syntax.specs.Strings.{is_built_in_text};
ghost use Rattle.type_list.specs.Listed.{chosen, Listed, Belongs};
ghost use Rattle.rules.specs.Verdicts.{no_fault};

use rules::{Fault, Verdict};
use syntax::order::comes_before;
use syntax::strings::{index_fields, is_built_in_text, same_bytes, text_of};
use values::Reason;
use wire::{byte_in, end_of, length_at, two_at};

// The tag and the length before a name.
const HEADER: usize = 3;

// The most types, and the most letters of one.
const MOST: u8 = 64;

const LONGEST: u16 = 32;

// How many bytes the places of the types take.
pub const INDEX: usize = 128;

// ---- The check

fn is_lower_case(text: &[u8]) -> bool
    ensures { result ≡ lower_case text.now }
{
    text.iter().all(|letter| letter.is_ascii_lowercase())
}

// Whether the field at `q` may stand behind the type `before`.
fn is_right(list: &[u8], before: &[u8], q: usize) -> bool
    requires { q < length list.now }
    ensures { result ≡ field_right list.now before.now q }
{
    let left = list.len() - q;
    if left < HEADER {
        return false;
    }
    if byte_in(list, q) != 0x02 {
        return false;
    }
    let letters = length_at(list, q);
    if left - HEADER < letters as usize {
        return false;
    }
    if letters == 0 {
        return false;
    }
    if LONGEST < letters {
        return false;
    }
    let name = text_of(list, q);
    if !is_lower_case(name) {
        return false;
    }
    comes_before(before, name)
}

// A list that is lent: without fault, or 28 at its first faulty field, or at 0 if it is empty.
pub fn check_types(list: &[u8]) -> Verdict
    ensures { result ≡ check_list list.now }
{
    if list.len() == 0 {
        return Err(Fault::at(Reason::TypeList, 0));
    }
    let mut more = MOST;
    let mut start: usize = 0;
    let mut q: usize = 0;
    while q < list.len() {
        if more == 0 {
            return Err(Fault::at(Reason::TypeList, q));
        }
        if !is_right(list, &list[start..q], q) {
            return Err(Fault::at(Reason::TypeList, q));
        }
        start = q + HEADER;
        q = end_of(list, q);
        more -= 1;
    }
    Ok(())
}

// ---- What it holds

// Puts the places of the types into `index`, and returns how many there are.
pub fn index_types(list: &[u8], index: &mut [u8]) -> u16
    requires { (check_types (chosen list.now) ≡ no_fault) × (128 ≤ length index.old) }
    ensures { Listed list.now index.new result }
{
    index_fields(list, 0, list.len(), index)
}

// How many types come before the text, by halves.
fn count_before(list: &[u8], index: &[u8], count: u16, text: &[u8]) -> u16
    requires { Listed list.now index.now count }
    ensures { Belongs list.now count text.now result }
{
    let mut low: u16 = 0;
    let mut high = count;
    while low < high {
        let middle = low + (high - low) / 2;
        let place = two_at(index, 2 * middle as usize) as usize;
        if comes_before(text_of(list, place), text) {
            low = middle + 1;
        } else {
            high = middle;
        }
    }
    low
}

// Whether a type is built in, by its name: the list holds it, or where none is lent it is one of the eight.
pub fn is_type(list: &[u8], index: &[u8], count: u16, text: &[u8]) -> bool
    requires { Listed list.now index.now count }
    ensures { result ≡ is_built_in_text (chosen list.now) text.now }
{
    if list.len() == 0 {
        return is_built_in_text(text);
    }
    let before = count_before(list, index, count, text);
    if count <= before {
        return false;
    }
    let place = two_at(index, 2 * before as usize) as usize;
    let name = text_of(list, place);
    same_bytes(text, name)
}
