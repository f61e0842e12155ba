// Tokens as text, one after the other into a lent output: white space as the lines and the brackets ask for it, then the token.
#![tactic(auto)]

ghost use Rattle.std.specs.Prelude.{◌≡◌, [], ◌≤◌, length};
ghost use Rattle.notation.specs.Tokens.{word, number, text, variable, top_variable, class_variable, mark};
ghost use Rattle.token_writer.specs.Writing.{Wrote};
ghost use Rattle.token_writer.specs.Pens.{text_from, Ready, Behind, Put};

use crate::gaps::{brackets_behind, put_gap};
use crate::marks::spelling;
use crate::pieces::{put_bytes, put_integer, put_quoted, put_run};
use notation::kinds::{A_NUMBER, A_QUALIFIED, A_TEXT, A_VARIABLE, A_WORD};

mod gaps; // gaps.rt: the white space before a token
mod marks; // marks.rt: signs and keywords
mod pieces; // pieces.rt: bytes at a place

// Where the text stands: how long it is so far, the kind of its last token, the brackets that are open, and the line of the last token.
#[derive(Clone, Copy)]
pub struct Pen {
    pub fill: usize,
    pub before: Option<u8>,
    pub brackets: usize,
    pub line: u8,
}

impl Pen {
    // Before the first token.
    pub const START: Pen = Pen {
        fill: 0,
        before: None,
        brackets: 0,
        line: 0,
    };
}

// The pen behind a token that ends at `fill`.
fn pen_behind(pen: Pen, fill: usize, kind: u8, line: u8) -> Pen
    requires { Ready pen }
    ensures { (result.fill ≡ fill) × Behind pen result kind line }
{
    Pen {
        fill,
        before: Some(kind),
        brackets: brackets_behind(kind, pen.brackets),
        line,
    }
}

// A sign or a keyword.
pub fn put_mark(out: &mut [u8], pen: Pen, line: u8, kind: u8) -> Pen
    requires { Ready pen × (7 ≤ kind) × (kind ≤ 36) }
    ensures { Put out.old out.new pen result line (mark kind) }
{
    let at = put_gap(out, pen, kind, line);
    let end = put_bytes(out, at, spelling(kind));
    pen_behind(pen, end, kind, line)
}

// A name.
pub fn put_word(out: &mut [u8], pen: Pen, line: u8, name: &[u8]) -> Pen
    requires { Ready pen × (length name.now ≤ 65535) }
    ensures { Put out.old out.new pen result line (word name.now) }
{
    let at = put_gap(out, pen, A_WORD, line);
    let end = put_bytes(out, at, name);
    pen_behind(pen, end, A_WORD, line)
}

// A string, in single quotes.
pub fn put_text(out: &mut [u8], pen: Pen, line: u8, string: &[u8]) -> Pen
    requires { Ready pen × (length string.now ≤ 65535) }
    ensures { Put out.old out.new pen result line (text string.now) }
{
    let at = put_gap(out, pen, A_TEXT, line);
    let quote = put_bytes(out, at, b"'");
    let content = put_quoted(out, quote, string);
    let end = put_bytes(out, content, b"'");
    pen_behind(pen, end, A_TEXT, line)
}

// `$x`
pub fn put_variable(out: &mut [u8], pen: Pen, line: u8, name: &[u8]) -> Pen
    requires { Ready pen × (length name.now ≤ 65535) }
    ensures { Put out.old out.new pen result line (variable name.now) }
{
    let at = put_gap(out, pen, A_VARIABLE, line);
    let sign = put_bytes(out, at, b"$");
    let end = put_bytes(out, sign, name);
    pen_behind(pen, end, A_VARIABLE, line)
}

// `$::x`
pub fn put_top_variable(out: &mut [u8], pen: Pen, line: u8, name: &[u8]) -> Pen
    requires { Ready pen × (length name.now ≤ 65535) }
    ensures { Put out.old out.new pen result line (top_variable name.now) }
{
    let at = put_gap(out, pen, A_QUALIFIED, line);
    let sign = put_bytes(out, at, b"$::");
    let end = put_bytes(out, sign, name);
    pen_behind(pen, end, A_QUALIFIED, line)
}

// `$::a::x`
pub fn put_class_variable(out: &mut [u8], pen: Pen, line: u8, class: &[u8], name: &[u8]) -> Pen
    requires { Ready pen × (length class.now ≤ 65535) × (length name.now ≤ 65535) }
    ensures { Put out.old out.new pen result line (class_variable class.now name.now) }
{
    let at = put_gap(out, pen, A_QUALIFIED, line);
    let sign = put_bytes(out, at, b"$::");
    let whose = put_bytes(out, sign, class);
    let colons = put_bytes(out, whose, b"::");
    let end = put_bytes(out, colons, name);
    pen_behind(pen, end, A_QUALIFIED, line)
}

// A number in decimal digits.
pub fn put_number(out: &mut [u8], pen: Pen, line: u8, value: i64) -> Pen
    requires { Ready pen }
    ensures { Put out.old out.new pen result line (number value) }
{
    let at = put_gap(out, pen, A_NUMBER, line);
    let end = put_integer(out, at, value);
    pen_behind(pen, end, A_NUMBER, line)
}

// The line feed behind the last token, if there is one. The answer is the length of the whole text.
pub fn put_end(out: &mut [u8], pen: Pen) -> usize
    requires { Ready pen }
    ensures { Wrote out.old out.new pen.fill result (text_from pen []) }
{
    match pen.before {
        None => pen.fill,
        Some(_) => put_run(out, pen.fill, b'\n', 1),
    }
}
