// The white space before a token, and the brackets that are open behind it.
ghost use Rattle.std.specs.Prelude.{◌≡◌, ◌≤◌};
ghost use Rattle.notation.specs.Layout.{no_space_behind, no_space_before, brackets_behind};
ghost use Rattle.token_writer.specs.Writing.{Wrote};
ghost use Rattle.token_writer.specs.Pens.{Ready, last_kind, gap_for};

use crate::Pen;
use crate::pieces::put_run;
use notation::kinds::{
    COMMA, EXCLAMATION, LEFT_BRACE, LEFT_ROUND, LEFT_SQUARE, RIGHT_BRACE, RIGHT_ROUND, RIGHT_SQUARE,
};

// Nothing before the first token, and behind `(`, `[` and `!`.
fn no_space_behind(before: Option<u8>) -> bool
    ensures { result ≡ no_space_behind (last_kind before) }
{
    let Some(kind) = before else {
        return true;
    };
    match kind {
        LEFT_ROUND | LEFT_SQUARE | EXCLAMATION => true,
        _ => false,
    }
}

// Nothing before `)`, `[`, `]`, `:` and `,`, which are the kinds from 10 to 14.
fn no_space_before(kind: u8) -> bool
    ensures { result ≡ no_space_before kind }
{
    match kind {
        RIGHT_ROUND..=COMMA => true,
        _ => false,
    }
}

// Line feeds and two spaces for each bracket, where the token is on a later line; else a space or nothing.
pub fn put_gap(out: &mut [u8], pen: Pen, kind: u8, line: u8) -> usize
    requires { Ready pen }
    ensures { Wrote out.old out.new pen.fill result (gap_for pen kind line) }
{
    let at = pen.fill;
    if pen.line < line {
        let feeds = put_run(out, at, b'\n', (line - pen.line) as usize);
        return put_run(out, feeds, b' ', 2 * pen.brackets);
    }
    if no_space_behind(pen.before) {
        return at;
    }
    if no_space_before(kind) {
        return at;
    }
    put_run(out, at, b' ', 1)
}

// `{`, `(` and `[` open a bracket, and `}`, `)` and `]` close one.
pub fn brackets_behind(kind: u8, brackets: usize) -> usize
    requires { brackets ≤ 65535 }
    ensures { result ≡ brackets_behind kind brackets }
{
    match kind {
        LEFT_BRACE | LEFT_ROUND | LEFT_SQUARE => brackets + 1,
        RIGHT_BRACE | RIGHT_ROUND | RIGHT_SQUARE => {
            if brackets == 0 {
                return 0;
            }
            brackets - 1
        }
        _ => brackets,
    }
}
