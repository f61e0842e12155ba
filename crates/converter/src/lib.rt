// The converter: from a text in the notation to a manifest.
#![tactic(auto)]

ghost use Rattle.std.specs.Prelude.{◌≡◌, ◌≤◌, length};
ghost use Rattle.notation.specs.Convert.{converted};
ghost use Rattle.rules.specs.Types.{the_eight, lent, check_types};
ghost use Rattle.type_list.specs.Listed.{chosen, Listed};
ghost use Rattle.interner.specs.Table.{strings};
ghost use Rattle.text_answers.specs.Leaving.{Leaves};
ghost use Rattle.parser.specs.Reading.{TextRead};
ghost use Rattle.converter.specs.Converting.{Converts, Passable, Measured, Fitting, Begins};
ghost use Rattle.rules.specs.Verdicts.{no_fault};

use interner::fields::{table_size, write_table};
use notation::Answer;
use parser::text::{Whole, read_text};
use text_answers::{accept, refuse};
use values::Reason;

// Once over the text, with room of its own for what is open.
fn read_pass(
    types: &[u8],
    index: &[u8],
    listed: u16,
    text: &[u8],
    out: &mut [u8],
    table: &mut [u8],
    count: usize,
) -> Result<Whole, usize>
    requires { Listed types.now index.now listed × Passable text.now out.old table.old count }
    ensures { TextRead (chosen types.now) text.now (strings text.now table.old count) result out.new table.new }
{
    let mut frames = [0u8; 256];
    let mut stack = [0u8; 468];
    read_text(
        types,
        index,
        listed,
        text,
        out,
        &mut frames,
        &mut stack,
        table,
        count,
    )
}

// The table of strings, and the items behind it: the first pass has found no fault, and the second one finds none.
fn write_manifest(
    types: &[u8],
    index: &[u8],
    listed: u16,
    text: &[u8],
    out: &mut [u8],
    table: &mut [u8],
    count: usize,
    before: usize,
)
    requires { Listed types.now index.now listed × Fitting (chosen types.now) text.now table.old count before out.old }
    ensures { Begins (chosen types.now) text.now out.new }
{
    write_table(text, table, count, out);
    let _ = read_pass(types, index, listed, text, &mut out[before..], table, count);
}

// A text that was read whole: its manifest, if it is not too long.
fn finish(
    types: &[u8],
    index: &[u8],
    listed: u16,
    text: &[u8],
    out: &mut [u8],
    work: &mut [u8],
    table: &mut [u8],
    count: usize,
    fill: usize,
) -> Answer
    requires { (65536 ≤ length work.old) × (Listed types.now index.now listed × Measured (chosen types.now) text.now table.old count fill) }
    ensures { Leaves (converted (chosen types.now) text.now (length out.old) (length work.old)) out.old out.new work.old work.new result }
{
    let before = table_size(text, table, count);
    let size = before + fill;
    if 65535 < size {
        return refuse(Reason::OutsideNotation, 0, out, work);
    }
    if out.len() < size {
        return refuse(Reason::OutsideNotation, 0, out, work);
    }
    write_manifest(types, index, listed, text, out, table, count, before);
    accept(size as u16, out, work)
}

// Memory that is long enough, and types without fault: an empty list means the eight. The first pass writes nothing: it finds a fault, the strings and how long the manifest is. Both passes look types up in one index.
fn convert_chosen(types: &[u8], text: &[u8], out: &mut [u8], work: &mut [u8]) -> Answer
    requires { (65536 ≤ length work.old) × (check_types (chosen types.now) ≡ no_fault) }
    ensures { Converts (chosen types.now) text.now out.old out.new work.old work.new result }
{
    if 65535 < text.len() {
        return refuse(Reason::OutsideNotation, 0, out, work);
    }
    let mut index = [0u8; type_list::INDEX];
    let listed = type_list::index_types(types, &mut index);
    let mut table = [0u8; 2050];
    let whole = match read_pass(types, &index, listed, text, &mut out[0..0], &mut table, 0) {
        Ok(whole) => whole,
        Err(place) => return refuse(Reason::OutsideNotation, place as u16, out, work),
    };
    if whole.late != 0 {
        return refuse(Reason::PastLine255, (whole.late - 1) as u16, out, work);
    }
    finish(
        types,
        &index,
        listed,
        text,
        out,
        work,
        &mut table,
        whole.count,
        whole.fill,
    )
}

// The manifest of a text, or the first refusal; the eight types are built in. Every byte of `out` and `work` is determined: the manifest and then zeros, or zeros
// throughout; the memory is zero.
pub fn convert(text: &[u8], out: &mut [u8], work: &mut [u8]) -> Answer
    ensures { Converts the_eight text.now out.old out.new work.old work.new result }
{
    if work.len() < 65536 {
        return refuse(Reason::MemoryTooShort, 0, out, work);
    }
    convert_chosen(b"", text, out, work)
}

// The same with a list of types, which replaces the eight.
pub fn convert_with_types(types: &[u8], text: &[u8], out: &mut [u8], work: &mut [u8]) -> Answer
    ensures { Converts (lent types.now) text.now out.old out.new work.old work.new result }
{
    if work.len() < 65536 {
        return refuse(Reason::MemoryTooShort, 0, out, work);
    }
    match type_list::check_types(types) {
        Err(fault) => refuse(fault.reason, fault.place as u16, out, work),
        Ok(()) => convert_chosen(types, text, out, work),
    }
}
