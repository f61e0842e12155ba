// Tokens that hold no class and no number.
ghost use Rattle.std.specs.Prelude.{◌≡◌};
ghost use Rattle.lexer.specs.Found.{plain_token};

use crate::Token;

// A token without a class and a number, on one line.
pub fn plain(kind: u8, start: usize, line: usize, end: usize) -> Token
    ensures { result ≡ plain_token kind start line end }
{
    Token {
        kind: kind,
        start: start,
        line: line,
        end: end,
        line_behind: line,
        class_end: 0,
        value: 0,
    }
}
