// Variables.
ghost use Rattle.std.specs.Prelude.{◌≡◌, Bool, true, ◌+◌, ◌≤◌, ◌<◌, length, get_or};
ghost use Rattle.notation.specs.Lexing.{is_letter};
ghost use Rattle.lexer.specs.Scanned.{TopRead, two_colons};
ghost use Rattle.lexer.specs.Found.{Found};

use crate::Token;
use crate::bytes::is_letter;
use crate::plain::plain;
use crate::words::{is_name, word_end};
use notation::kinds::{A_QUALIFIED, A_VARIABLE, MALFORMED};

// $x, whose letter is behind the $ at `start`.
fn simple_variable(text: &[u8], start: usize, line: usize) -> Token
    requires { (start + 1 < length text.now) × (line ≤ start) × (get_or text.now start 0 ≡ 36) × (is_letter (get_or text.now (start + 1) 0) ≡ true) }
    ensures { (o : Bool) → Found text.now start line o result }
{
    let end = word_end(text, start + 2);
    if !is_name(text, start + 1, end) {
        return plain(MALFORMED, start, line, start);
    }
    plain(A_VARIABLE, start, line, end)
}

// Two colons at `at`.
fn two_colons(text: &[u8], at: usize) -> bool
    requires { at ≤ length text.now }
    ensures { result ≡ two_colons text.now at }
{
    if text.len() - at < 2 {
        return false;
    }
    (text[at] == b':') & (text[at + 1] == b':')
}

// $::a::x, with the second two colons at `colons`.
fn class_variable(text: &[u8], start: usize, line: usize, colons: usize) -> Token
    requires { TopRead text.now start line colons × (two_colons text.now colons ≡ true) }
    ensures { (o : Bool) → Found text.now start line o result }
{
    let from = colons + 2;
    if text.len() <= from {
        return plain(MALFORMED, start, line, start);
    }
    if !is_letter(text[from]) {
        return plain(MALFORMED, start, line, start);
    }
    let end = word_end(text, from + 1);
    if !is_name(text, start + 3, colons) {
        return plain(MALFORMED, start, line, start);
    }
    if !is_name(text, from, end) {
        return plain(MALFORMED, start, line, start);
    }
    Token {
        kind: A_QUALIFIED,
        start: start,
        line: line,
        end: end,
        line_behind: line,
        class_end: colons,
        value: 0,
    }
}

// $::x or $::a::x, whose $ and first colon are at `start`.
fn qualified_variable(text: &[u8], start: usize, line: usize) -> Token
    requires { (start + 1 < length text.now) × (line ≤ start) × (get_or text.now start 0 ≡ 36) × (get_or text.now (start + 1) 0 ≡ 58) }
    ensures { (o : Bool) → Found text.now start line o result }
{
    if text.len() - start <= 3 {
        return plain(MALFORMED, start, line, start);
    }
    if text[start + 2] != b':' {
        return plain(MALFORMED, start, line, start);
    }
    if !is_letter(text[start + 3]) {
        return plain(MALFORMED, start, line, start);
    }
    let end = word_end(text, start + 4);
    if two_colons(text, end) {
        return class_variable(text, start, line, end);
    }
    if !is_name(text, start + 3, end) {
        return plain(MALFORMED, start, line, start);
    }
    plain(A_QUALIFIED, start, line, end)
}

// The variable whose $ is at `start`.
pub fn variable_token(text: &[u8], start: usize, line: usize) -> Token
    requires { (start < length text.now) × (line ≤ start) × (get_or text.now start 0 ≡ 36) }
    ensures { (o : Bool) → Found text.now start line o result }
{
    let from = start + 1;
    if text.len() <= from {
        return plain(MALFORMED, start, line, start);
    }
    let c = text[from];
    if is_letter(c) {
        return simple_variable(text, start, line);
    }
    if c == b':' {
        return qualified_variable(text, start, line);
    }
    plain(MALFORMED, start, line, start)
}
