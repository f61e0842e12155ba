// Signs.
ghost use Rattle.std.specs.Prelude.{◌≡◌, Bool, true, ◌≤◌, ◌<◌, length, get_or};
ghost use Rattle.notation.specs.Lexing.{find, signs};
ghost use Rattle.lexer.specs.Words.{kind_found};
ghost use Rattle.lexer.specs.Found.{sign_token, Found};

use crate::Token;
use crate::bytes::is_digit;
use crate::numbers::number_token;
use crate::plain::plain;
use notation::kinds::{
    ABOVE, ARROW, COLON, COMMA, EQUALS, EXCLAMATION, LEFT_BRACE, LEFT_ROUND, LEFT_SQUARE,
    MALFORMED, MINUS_SIGN, PLUS_SIGN, QUESTION, RIGHT_BRACE, RIGHT_ROUND, RIGHT_SQUARE, SLASH,
    TWO_EQUALS,
};
use wire::byte_at;

// The kind of the sign of one byte.
fn sign_kind(c: u8) -> Option<u8>
    ensures { kind_found result ≡ find c signs }
{
    match c {
        b'{' => Some(LEFT_BRACE),
        b'}' => Some(RIGHT_BRACE),
        b'(' => Some(LEFT_ROUND),
        b')' => Some(RIGHT_ROUND),
        b'[' => Some(LEFT_SQUARE),
        b']' => Some(RIGHT_SQUARE),
        b':' => Some(COLON),
        b',' => Some(COMMA),
        b'+' => Some(PLUS_SIGN),
        b'-' => Some(MINUS_SIGN),
        b'/' => Some(SLASH),
        b'>' => Some(ABOVE),
        b'!' => Some(EXCLAMATION),
        b'?' => Some(QUESTION),
        _ => None,
    }
}

// The = at `start`, with what belongs to it: = == =>.
pub fn equals_token(text: &[u8], start: usize, line: usize) -> Token
    requires { (start < length text.now) × (line ≤ start) × (get_or text.now start 0 ≡ 61) }
    ensures { (o : Bool) → Found text.now start line o result }
{
    let next = start + 1;
    let c = byte_at(text, next);
    if c == b'=' {
        return plain(TWO_EQUALS, start, line, next + 1);
    }
    if c == b'>' {
        return plain(ARROW, start, line, next + 1);
    }
    plain(EQUALS, start, line, next)
}

// The - at `start`, where an operand may begin: of a number, or the sign.
pub fn minus_token(text: &[u8], start: usize, line: usize) -> Token
    requires { (start < length text.now) × (line ≤ start) × (get_or text.now start 0 ≡ 45) }
    ensures { Found text.now start line true result }
{
    let next = start + 1;
    if is_digit(byte_at(text, next)) {
        return number_token(text, start, line, next, true);
    }
    plain(MINUS_SIGN, start, line, next)
}

// The sign c of one byte at `start`.
pub fn sign_token(c: u8, start: usize, line: usize) -> Token
    requires { start < 18446744073709551615 }
    ensures { result ≡ sign_token (find c signs) start line }
{
    match sign_kind(c) {
        Some(kind) => plain(kind, start, line, start + 1),
        None => plain(MALFORMED, start, line, start),
    }
}
