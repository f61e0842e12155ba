// The lexer: the next token of a text in the notation.
#![tactic(auto)]

ghost use Rattle.std.specs.Prelude.{◌≡◌, false, ◌≤◌, ◌<◌, length, get_or};
ghost use Rattle.lexer.specs.Scanned.{is_gap};
ghost use Rattle.lexer.specs.Found.{Found};

use crate::bytes::{is_digit, is_letter, is_quote};
use crate::gaps::skip;
use crate::numbers::number_token;
use crate::plain::plain;
use crate::signs::{equals_token, minus_token, sign_token};
use crate::strings::string_token;
use crate::variables::variable_token;
use crate::words::word_token;
use notation::kinds::END_OF_TEXT;

mod plain; // plain.rt: tokens that hold no class and no number
pub mod bytes; // bytes.rt: tests of bytes, and lines
mod gaps; // gaps.rt: white space and comments
mod words; // words.rt: words, keywords and names
mod variables; // variables.rt: variables
mod numbers; // numbers.rt: numbers
mod strings; // strings.rt: strings
mod signs; // signs.rt: signs

// A place in the text, and its line.
#[derive(Clone, Copy)]
pub struct Spot {
    pub at: usize,
    pub line: usize,
}

// Where digits end, and their number.
#[derive(Clone, Copy)]
pub struct Digits {
    pub end: usize,
    pub value: u64,
}

// A string that is closed: where it ends and on which line, and how many bytes it stands for.
#[derive(Clone, Copy)]
pub struct Quoted {
    pub end: usize,
    pub line: usize,
    pub size: usize,
}

// A token: its kind, where it begins and on which line, where it ends, and the line there.
#[derive(Clone, Copy)]
pub struct Token {
    pub kind: u8,
    pub start: usize,
    pub line: usize,
    pub end: usize,
    pub line_behind: usize,
    pub class_end: usize, // of $::a::x: where a ends; 0 for other tokens
    pub value: i64, // of a number
}

// The token at `at`, where neither white space nor a comment stands.
fn token_at(text: &[u8], at: usize, line: usize, operand: bool) -> Token
    requires { (at ≤ length text.now) × (line ≤ at) × (at < length text.now → is_gap (get_or text.now at 0) ≡ false) }
    ensures { Found text.now at line operand result }
{
    if text.len() <= at {
        return plain(END_OF_TEXT, at, line, at);
    }
    let c = text[at];
    if is_letter(c) {
        return word_token(text, at, line);
    }
    if c == b'$' {
        return variable_token(text, at, line);
    }
    if is_digit(c) {
        return number_token(text, at, line, at, false);
    }
    if (c == b'-') & operand {
        return minus_token(text, at, line);
    }
    if is_quote(c) {
        return string_token(text, at, line);
    }
    if c == b'=' {
        return equals_token(text, at, line);
    }
    sign_token(c, at, line)
}

// The next token from `at` on, which is on this line; `operand`: an operand may begin here.
pub fn next_token(text: &[u8], at: usize, line: usize, operand: bool) -> Token
    requires { (at ≤ length text.now) × (length text.now ≤ 65535) × (line ≤ at) }
    ensures { Found text.now at line operand result }
{
    let from = skip(text, Spot { at: at, line: line });
    token_at(text, from.at, from.line, operand)
}
