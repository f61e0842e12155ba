// The place in a text of a field of its manifest: the parser reads the text, and what each token inserts is noted.
ghost use Rattle.std.specs.Prelude.{◌≡◌, true, ◌≤◌, eqb, length};
ghost use Rattle.parse_table.specs.Codes.{symbol_of};
ghost use Rattle.parse_table.specs.Stack.{stack_of};
ghost use Rattle.rules.specs.Types.{Types, check_types};
ghost use Rattle.type_list.specs.Listed.{chosen, Listed};
ghost use Rattle.parser.specs.Reading.{Readable};
ghost use Rattle.text_places.specs.Log.{sort, top_before_parts};
ghost use Rattle.text_places.specs.Places.{NotedWhole, Noted, TextNoted, PlaceTold, PlaceGiven};
ghost use Rattle.rules.specs.Verdicts.{no_fault};

use crate::log::{follow, note};
use interner::fields::table_size;
use lexer::next_token;
use parser::text::{Read, begin, read_token};

// How many strings and how many entries of the log a text has.
#[derive(Clone, Copy)]
pub struct Notes {
    pub count: usize,
    pub entries: usize,
}

// The symbol on top of the stack; 0 where there is none.
fn top_symbol(stack: &[u8], top: usize) -> u8
    requires { top ≤ length stack.now }
    ensures { top_before_parts (stack_of stack.now top) ≡ eqb (sort (symbol_of result)) 1 }
{
    if top == 0 {
        return 0;
    }
    stack[top - 1]
}

// All tokens of a text, with the log; none if the text is refused.
fn note_text(
    types: &[u8],
    index: &[u8],
    listed: u16,
    text: &[u8],
    out: &mut [u8],
    frames: &mut [u8],
    stack: &mut [u8],
    table: &mut [u8],
    log: &mut [u8],
) -> Option<Notes>
    requires { Listed types.now index.now listed × Readable text.now out.old frames.old stack.old table.old 0 }
    ensures { TextNoted (chosen types.now) text.now result table.new log.new }
{
    let mut pass = begin(stack, 0);
    let mut entries: usize = 0;
    loop {
        let machine = pass.machine;
        let before = machine.building;
        let symbol = top_symbol(stack, machine.top);
        let token = next_token(text, pass.at, pass.line, pass.operand);
        match read_token(types, index, listed, text, out, frames, stack, table, pass).ok()? {
            Read::On(next) => {
                let behind = next.machine;
                entries = note(log, entries, symbol, token, before, behind.building);
                pass = next;
            }
            Read::Done(last) => {
                let behind = last.machine;
                let all = note(log, entries, symbol, token, before, behind.building);
                return Some(Notes {
                    count: last.count,
                    entries: all,
                });
            }
        }
    }
}

// The place of the field at an offset, once the text is read. The table of strings comes before all else and came with no token.
fn place_in(
    text: &[u8],
    table: &[u8],
    log: &[u8],
    count: usize,
    entries: usize,
    field: usize,
) -> usize
    requires { (length text.now ≤ 65535) × (2050 ≤ length table.now) × Noted text.now table.now log.now count entries }
    ensures { (types : Types) → NotedWhole types text.now table.now log.now count entries → PlaceTold types text.now field (length log.now) result }
{
    let strings = table_size(text, table, count);
    if field < strings {
        return 0;
    }
    if log.len() < 8 * entries {
        return 0;
    }
    follow(log, entries, field - strings)
}

// The place in the text of the token that brought the field at the offset `field`, with types without fault.
fn place_chosen(types: &[u8], text: &[u8], field: usize, log: &mut [u8]) -> usize
    requires { check_types (chosen types.now) ≡ no_fault }
    ensures { PlaceTold (chosen types.now) text.now field (length log.old) result }
{
    if 65535 < text.len() {
        return 0;
    }
    let mut out = [0u8; 1];
    let mut frames = [0u8; 256];
    let mut stack = [0u8; 468];
    let mut table = [0u8; 2050];
    let mut index = [0u8; type_list::INDEX];
    let listed = type_list::index_types(types, &mut index);
    match note_text(
        types,
        &index,
        listed,
        text,
        &mut out[0..0],
        &mut frames,
        &mut stack,
        &mut table,
        log,
    ) {
        Some(notes) => place_in(text, &table, log, notes.count, notes.entries, field),
        None => 0,
    }
}

// Whether a list, which may be none, is without fault.
fn is_sound(types: &[u8]) -> bool
    ensures { (result ≡ true → check_types (chosen types.now) ≡ no_fault) × (check_types (chosen types.now) ≡ no_fault → result ≡ true) }
{
    if types.is_empty() {
        return true;
    }
    type_list::check_types(types).is_ok()
}

// The place in the text of the token that brought the field at the offset `field` of the text's manifest, where these types are built in: an empty list means the
// eight, and with one at fault there is no manifest. The log needs eight bytes for each token that inserts bytes: 262,144 are enough for a manifest that is not too long.
pub fn field_place(types: &[u8], text: &[u8], field: usize, log: &mut [u8]) -> usize
    ensures { PlaceGiven (chosen types.now) text.now field (length log.old) result }
{
    if !is_sound(types) {
        return 0;
    }
    place_chosen(types, text, field, log)
}
