// Tests of bytes, and lines.
ghost use Rattle.std.specs.Prelude.{◌≡◌, ◌<◌};
ghost use Rattle.notation.specs.Lexing.{is_letter, is_digit, is_quote, in_word, line_behind};
ghost use Rattle.lexer.specs.Scanned.{is_gap};

// A letter.
pub fn is_letter(c: u8) -> bool
    ensures { result ≡ is_letter c }
{
    c.is_ascii_lowercase()
}

pub fn is_digit(c: u8) -> bool
    ensures { result ≡ is_digit c }
{
    c.is_ascii_digit()
}

// A letter, a digit or an underscore.
pub fn in_word(c: u8) -> bool
    ensures { result ≡ in_word c }
{
    is_letter(c) | (is_digit(c) | (c == b'_'))
}

pub fn is_quote(c: u8) -> bool
    ensures { result ≡ is_quote c }
{
    (c == b'\'') | (c == b'"')
}

// White space, or the # of a comment.
pub fn is_gap(c: u8) -> bool
    ensures { result ≡ is_gap c }
{
    ((c == b' ') | ((c == b'\t') | ((c == b'\r') | (c == b'\n')))) | (c == b'#')
}

// The line behind a byte.
pub fn line_behind(c: u8, line: usize) -> usize
    requires { line < 18446744073709551615 }
    ensures { result ≡ line_behind c line }
{
    if c == b'\n' {
        return line + 1;
    }
    line
}

// A byte as a wider number.
pub fn wide(b: u8) -> u64
    ensures { result ≡ b }
{
    b as u64
}
