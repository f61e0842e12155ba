// Names in the notation.
ghost use Rattle.std.specs.Prelude.{◌≡◌, ◌≤◌, length};
ghost use Rattle.notation.specs.Lexing.{find};
ghost use Rattle.notation.specs.Printer.{all_in_word, no_keyword, is_name};
ghost use Rattle.lexer.specs.Words.{little, keyword_numbers};

use lexer::bytes::{in_word, is_letter, wide};

// Whether all bytes are letters, digits or underscores.
fn all_in_word(bytes: &[u8]) -> bool
    ensures { result ≡ all_in_word bytes.now }
{
    bytes.iter().all(|byte| in_word(*byte))
}

// The bytes as one number, the first byte the lowest.
fn word_number(bytes: &[u8]) -> u64
    requires { length bytes.now ≤ 8 }
    ensures { result ≡ little bytes.now }
{
    let mut n: u64 = 0;
    let mut i = bytes.len();
    while 0 < i {
        i -= 1;
        n = n * 256 + wide(bytes[i]);
    }
    n
}

// Whether no keyword has this number.
fn is_no_keyword(n: u64) -> bool
    ensures { result ≡ no_keyword (find n keyword_numbers) }
{
    match n {
        0x646e61 => false, // and
        0x65736163 => false, // case
        0x7373616c63 => false, // class
        0x746c7561666564 => false, // default
        0x656e69666564 => false, // define
        0x65736c65 => false, // else
        0x65736c6166 => false, // false
        0x6669 => false, // if
        0x6564756c636e69 => false, // include
        0x7374697265686e69 => false, // inherits
        0x65646f6e => false, // node
        0x726f => false, // or
        0x65757274 => false, // true
        _ => true,
    }
}

// A letter, then letters, digits and underscores; no keyword, of which the longest has 8 bytes.
pub fn is_name(bytes: &[u8]) -> bool
    ensures { result ≡ is_name bytes.now }
{
    if bytes.len() == 0 {
        return false;
    }
    if !is_letter(bytes[0]) {
        return false;
    }
    if !all_in_word(bytes) {
        return false;
    }
    if 8 < bytes.len() {
        return true;
    }
    is_no_keyword(word_number(bytes))
}
