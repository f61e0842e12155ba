// Strings.
ghost use Rattle.std.specs.Prelude.{◌≡◌, Bool, true, ◌≤◌, ◌<◌, length, get_or};
ghost use Rattle.notation.specs.Lexing.{is_quote};
ghost use Rattle.lexer.specs.Found.{Found};
ghost use Rattle.lexer.specs.Strings.{is_escape, escape_at, piece_size, StringRead};

use crate::bytes::line_behind;
use crate::plain::plain;
use crate::{Quoted, Token};
use notation::kinds::{A_TEXT, MALFORMED};

// The letter of an escape: \ ' " n.
fn is_escape(c: u8) -> bool
    ensures { result ≡ is_escape c }
{
    (c == b'\\') | ((c == b'\'') | ((c == b'"') | (c == b'n')))
}

// The letter of an escape at `at`.
fn escape_at(text: &[u8], at: usize) -> bool
    ensures { result ≡ escape_at text.now at }
{
    if at < text.len() {
        return is_escape(text[at]);
    }
    false
}

// How many bytes of a string stand for one: an escape is two, unless it is malformed.
fn piece_size(text: &[u8], at: usize) -> Option<usize>
    requires { at < length text.now }
    ensures { result ≡ piece_size text.now at }
{
    if text[at] != b'\\' {
        return Some(1);
    }
    if escape_at(text, at + 1) {
        return Some(2);
    }
    None
}

// The string behind its opening quote, from `at` on; none if an escape is malformed, or the text ends in it.
fn read_string(text: &[u8], at: usize, line: usize, quote: u8) -> Option<Quoted>
    requires { (at ≤ length text.now) × (line ≤ at) × (is_quote quote ≡ true) }
    ensures { StringRead text.now at line quote result }
{
    let mut i = at;
    let mut here = line;
    let mut n: usize = 0;
    while i < text.len() {
        let c = text[i];
        if c == quote {
            return Some(Quoted {
                end: i + 1,
                line: here,
                size: n,
            });
        }
        let size = piece_size(text, i)?;
        here = line_behind(c, here);
        i += size;
        n += 1;
    }
    None
}

// The string whose opening quote is at `start`.
pub fn string_token(text: &[u8], start: usize, line: usize) -> Token
    requires { (start < length text.now) × (line ≤ start) × (is_quote (get_or text.now start 0) ≡ true) }
    ensures { (o : Bool) → Found text.now start line o result }
{
    let Some(s) = read_string(text, start + 1, line, text[start]) else {
        return plain(MALFORMED, start, line, start);
    };
    if 255 < s.size {
        return plain(MALFORMED, start, line, start);
    }
    Token {
        kind: A_TEXT,
        start: start,
        line: line,
        end: s.end,
        line_behind: s.line,
        class_end: 0,
        value: 0,
    }
}
