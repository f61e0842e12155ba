// The tokens of a text, one after the other: each one's strings go to the table, and the grammar's machine takes it.
ghost use Rattle.std.specs.Prelude.{◌≡◌, ◌≤◌, length};
ghost use Rattle.std.proofs.Math.Seq.{slice};
ghost use Rattle.notation.specs.Tokens.{a_word, operand_behind};
ghost use Rattle.notation.specs.Building.{resource_tag};
ghost use Rattle.type_list.specs.Listed.{chosen, Listed};
ghost use Rattle.interner.specs.Table.{strings};
ghost use Rattle.parser.specs.Entering.{Spelled, EnteredFor};
ghost use Rattle.parser.specs.Reading.{word_for, Passable, pass_behind, ReadsToken, Begun, Readable, TextRead};

use crate::actions::Names;
use crate::steps::{Machine, take};
use crate::strings::{Numbered, enter_both, enter_one};
use lexer::{Token, next_token};
use notation::kinds::{
    A_NUMBER, A_QUALIFIED, A_TEXT, A_VARIABLE, A_WORD, END_OF_TEXT, FALSE_WORD, LEFT_SQUARE,
    MALFORMED, RIGHT_ROUND, RIGHT_SQUARE, TRUE_WORD,
};
use parse_table::stack::{MANIFEST, push};
use tree_builder::{Building, nothing};
use type_list::is_type;

// The strings of a token. A token without strings leaves the table as it is.
fn enter_strings(text: &[u8], table: &mut [u8], count: usize, token: Token) -> Numbered
    requires { Spelled text.now table.old count token }
    ensures { EnteredFor text.now table.old count token table.new result }
{
    let kind = token.kind;
    match kind {
        A_WORD => enter_one(text, table, count, token.start),
        A_TEXT => enter_one(text, table, count, token.start),
        A_VARIABLE => enter_one(text, table, count, token.start + 1),
        A_QUALIFIED => {
            if token.class_end == 0 {
                return enter_one(text, table, count, token.start + 3);
            }
            enter_both(text, table, count, token.start + 3, token.class_end + 2)
        }
        _ => Numbered {
            count: count,
            class: 0,
            name: 0,
        },
    }
}

// The tag of a resource whose type is the token: 25 if the type is built in, else 27.
fn resource_tag(types: &[u8], index: &[u8], listed: u16, text: &[u8], token: Token) -> u8
    requires { Listed types.now index.now listed × ((token.start ≤ token.end) × (token.end ≤ length text.now)) }
    ensures { token.kind ≡ a_word → result ≡ resource_tag (chosen types.now) (slice token.start token.end text.now) }
{
    if token.kind != A_WORD {
        return 0x27;
    }
    let start = token.start;
    let end = token.end;
    if is_type(types, index, listed, &text[start..end]) {
        return 0x25;
    }
    0x27
}

// Whether an operand may begin behind a token of this kind.
fn operand_behind(kind: u8) -> bool
    ensures { result ≡ operand_behind kind }
{
    !((kind == A_WORD)
        | ((kind == A_NUMBER)
            | ((kind == A_TEXT)
                | ((kind == A_VARIABLE)
                    | ((kind == A_QUALIFIED)
                        | ((kind == TRUE_WORD)
                            | ((kind == FALSE_WORD)
                                | ((kind == RIGHT_ROUND) | (kind == RIGHT_SQUARE)))))))))
}

// A word just read counts only if the next token is `[`: another one may bring strings, which changes numbers while the table grows.
fn word_for(s: Building, kind: u8) -> Building
    ensures { result ≡ word_for kind s }
{
    if kind == LEFT_SQUARE {
        return s;
    }
    let mut next = s;
    next.word = false;
    next
}

// Where a pass stands: the next byte of the text and its line, whether an operand may begin there, the machine, and the number of strings.
#[derive(Clone, Copy)]
pub struct Pass {
    pub at: usize,
    pub line: usize,
    pub operand: bool,
    pub machine: Machine,
    pub count: usize,
}

// What comes of a token that was taken: more tokens follow, or it was the end.
#[derive(Clone, Copy)]
pub enum Read {
    On(Pass),
    Done(Pass),
}

// Where a pass stands behind a token that was taken.
fn pass_behind(token: Token, machine: Machine, count: usize) -> Pass
    ensures { result ≡ pass_behind token machine count }
{
    Pass {
        at: token.end,
        line: token.line_behind,
        operand: operand_behind(token.kind),
        machine: machine,
        count: count,
    }
}

// One token. The error is its place: it may not stand there or brings one string too many.
pub fn read_token(
    types: &[u8],
    index: &[u8],
    listed: u16,
    text: &[u8],
    out: &mut [u8],
    frames: &mut [u8],
    stack: &mut [u8],
    table: &mut [u8],
    pass: Pass,
) -> Result<Read, usize>
    requires { Listed types.now index.now listed × Passable text.now out.old frames.old stack.old table.old pass }
    ensures { ReadsToken (chosen types.now) text.now out.old frames.old stack.old table.old pass result out.new frames.new stack.new table.new }
{
    let token = next_token(text, pass.at, pass.line, pass.operand);
    if token.kind == MALFORMED {
        return Err(token.start);
    }
    let numbers = enter_strings(text, table, pass.count, token);
    if 1024 < numbers.count {
        return Err(token.start);
    }
    let names = Names {
        class: numbers.class,
        name: numbers.name,
        resource: resource_tag(types, index, listed, text, token),
    };
    let machine = pass.machine;
    let building = word_for(machine.building, token.kind);
    let Some(behind) = take(out, frames, stack, building, machine.top, token, names) else {
        return Err(token.start);
    };
    let next = pass_behind(token, behind, numbers.count);
    if token.kind == END_OF_TEXT {
        return Ok(Read::Done(next));
    }
    Ok(Read::On(next))
}

// Where a pass begins, with so many strings in the table: all of the manifest is still to come.
pub fn begin(stack: &mut [u8], count: usize) -> Pass
    requires { 468 ≤ length stack.old }
    ensures { Begun stack.old stack.new count result }
{
    let top = push(stack, 1, MANIFEST);
    Pass {
        at: 0,
        line: 0,
        operand: true,
        machine: Machine {
            top: top,
            building: nothing(),
        },
        count: count,
    }
}

// What a text that is read whole has: how many strings the table has, the place + 1 of the first constant on a line past 255, or 0, and the bytes of the items.
#[derive(Clone, Copy)]
pub struct Whole {
    pub count: usize,
    pub late: usize,
    pub fill: usize,
}

// All tokens of a text. The error is the place of the first one that may not stand there or brings the 1,025th string.
pub fn read_text(
    types: &[u8],
    index: &[u8],
    listed: u16,
    text: &[u8],
    out: &mut [u8],
    frames: &mut [u8],
    stack: &mut [u8],
    table: &mut [u8],
    count: usize,
) -> Result<Whole, usize>
    requires { Listed types.now index.now listed × Readable text.now out.old frames.old stack.old table.old count }
    ensures { TextRead (chosen types.now) text.now (strings text.now table.old count) result out.new table.new }
{
    let mut pass = begin(stack, count);
    loop {
        match read_token(types, index, listed, text, out, frames, stack, table, pass) {
            Ok(Read::On(next)) => pass = next,
            Ok(Read::Done(last)) => {
                let machine = last.machine;
                let building = machine.building;
                return Ok(Whole {
                    count: last.count,
                    late: building.late,
                    fill: building.fill,
                });
            }
            Err(place) => return Err(place),
        }
    }
}
