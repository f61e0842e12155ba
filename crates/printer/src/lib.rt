// A manifest as text.
#![tactic(auto)]

ghost use Rattle.std.specs.Prelude.{◌≡◌, ◌≤◌, length};
ghost use Rattle.rules.specs.Check.{check};
ghost use Rattle.rules.specs.Read.{manifest_of};
ghost use Rattle.rules.specs.Types.{the_eight, lent, check_types};
ghost use Rattle.syntax.specs.Strings.{Indexed, found_of};
ghost use Rattle.type_list.specs.Listed.{chosen};
ghost use Rattle.notation.specs.Printer.{text_of, unprintable_at};
ghost use Rattle.statement_printer.specs.Passing.{Source};
ghost use Rattle.text_answers.specs.Leaving.{Leaves};
ghost use Rattle.printer.specs.Whole.{fitting_text, printable_text, Counted, Prints};
ghost use Rattle.rules.specs.Verdicts.{no_fault};

use item_printer::items;
use notation::Answer;
use printable::{Manifest, Types, first_unprintable};
use statement_printer::tokens::is_full;
use syntax::check_all;
use syntax::strings::index_strings;
use text_answers::{accept, refuse};
use token_writer::{Pen, put_end};
use values::Reason;
use wire::end_of;

// The text as far as the output goes. The answer is its length, or none if that is over 65,535 bytes.
fn write_whole(m: Manifest<'_>, out: &mut [u8]) -> Option<u16>
    requires { (Source m.bytes.now m.table.now m.strings) × (check m.bytes.now ≡ no_fault) }
    ensures { Counted (text_of (manifest_of m.entry.bytes.now)) out.old out.new result }
{
    let last = items(m, end_of(m.bytes, 0), out, Pen::START);
    if is_full(last) {
        return None;
    }
    let size = put_end(out, last);
    if 65535 < size {
        return None;
    }
    Some(size as u16)
}

// The text of a manifest that can be printed, unless it is too long (26).
fn print_fitting(m: Manifest<'_>, out: &mut [u8], work: &mut [u8]) -> Answer
    requires { (Source m.bytes.now m.table.now m.strings) × (check m.bytes.now ≡ no_fault) }
    ensures { Leaves (fitting_text m.entry.bytes.now (length out.old)) out.old out.new work.old work.new result }
{
    let Some(size) = write_whole(m, out) else {
        return refuse(Reason::Unprintable, 0, out, work);
    };
    if out.len() < size as usize {
        return refuse(Reason::Unprintable, 0, out, work);
    }
    accept(size, out, work)
}

// The place of the first field that cannot be printed.
fn find_unprintable(types: &[u8], m: Manifest<'_>) -> Option<u16>
    requires { (check_types (chosen types.now) ≡ no_fault) × ((check m.bytes.now ≡ no_fault) × ((length m.bytes.now ≤ 65535) × Indexed m.bytes.now m.table.now m.strings)) }
    ensures { result ≡ found_of (unprintable_at (chosen types.now) m.entry.bytes.now) }
{
    let mut index = [0u8; type_list::INDEX];
    let count = type_list::index_types(types, &mut index);
    let known = Types {
        list: types,
        index: &index,
        count,
    };
    first_unprintable(known, m)
}

// A sound manifest: 26 at its first field that cannot be printed.
fn print_sound(types: &[u8], manifest: &[u8], out: &mut [u8], work: &mut [u8]) -> Answer
    requires { (check_types (chosen types.now) ≡ no_fault) × ((check manifest.now ≡ no_fault) × (length manifest.now ≤ 65535)) }
    ensures { Leaves (printable_text (chosen types.now) manifest.now (length out.old)) out.old out.new work.old work.new result }
{
    let mut table = [0u8; 2048];
    let strings = index_strings(manifest, &mut table);
    let m = Manifest {
        bytes: manifest,
        table: &table,
        strings,
    };
    match find_unprintable(types, m) {
        Some(p) => refuse(Reason::Unprintable, p, out, work),
        None => print_fitting(m, out, work),
    }
}

// Memory that is long enough, and types without fault: an empty list means the eight.
fn print_chosen(types: &[u8], manifest: &[u8], out: &mut [u8], work: &mut [u8]) -> Answer
    requires { (65536 ≤ length work.old) × (check_types (chosen types.now) ≡ no_fault) }
    ensures { Prints (chosen types.now) manifest.now out.old out.new work.old work.new result }
{
    match check_all(manifest) {
        Err(fault) => refuse(fault.reason, fault.place as u16, out, work),
        Ok(()) => print_sound(types, manifest, out, work),
    }
}

// The text of a manifest, or the first refusal; the eight types are built in. Every byte of `out` and `work` is determined: the text and then zeros, or zeros
// throughout; the memory is zero.
pub fn print(manifest: &[u8], out: &mut [u8], work: &mut [u8]) -> Answer
    ensures { Prints the_eight manifest.now out.old out.new work.old work.new result }
{
    if work.len() < 65536 {
        return refuse(Reason::MemoryTooShort, 0, out, work);
    }
    print_chosen(b"", manifest, out, work)
}

// The same with a list of types, which replaces the eight.
pub fn print_with_types(types: &[u8], manifest: &[u8], out: &mut [u8], work: &mut [u8]) -> Answer
    ensures { Prints (lent types.now) manifest.now out.old out.new work.old work.new result }
{
    if work.len() < 65536 {
        return refuse(Reason::MemoryTooShort, 0, out, work);
    }
    match type_list::check_types(types) {
        Err(fault) => refuse(fault.reason, fault.place as u16, out, work),
        Ok(()) => print_chosen(types, manifest, out, work),
    }
}
