// Words, keywords and names.
ghost use Rattle.std.specs.Prelude.{◌≡◌, Bool, true, ◌+◌, ◌≤◌, ◌<◌, length, get_or};
ghost use Rattle.std.proofs.Math.Seq.{slice};
ghost use Rattle.notation.specs.Lexing.{is_letter, find, keywords, keyword_in};
ghost use Rattle.lexer.specs.Scanned.{WordRun};
ghost use Rattle.lexer.specs.Words.{little, kind_found, keyword_numbers, name_fits};
ghost use Rattle.lexer.specs.Found.{Found};

use crate::Token;
use crate::bytes::in_word;
use crate::plain::plain;
use notation::kinds::{
    A_WORD, AND_WORD, CASE_WORD, CLASS_WORD, DEFAULT_WORD, DEFINE_WORD, ELSE_WORD, FALSE_WORD,
    IF_WORD, INCLUDE_WORD, INHERITS_WORD, MALFORMED, NODE_WORD, OR_WORD, TRUE_WORD,
};

// The end of the letters, digits and underscores from `at` on.
pub fn word_end(text: &[u8], at: usize) -> usize
    requires { at ≤ length text.now }
    ensures { WordRun text.now at result }
{
    for i in at..text.len() {
        if !in_word(text[i]) {
            return i;
        }
    }
    text.len()
}

// The bytes from `start` to `end` as one number, the first byte the lowest.
fn word_number(text: &[u8], start: usize, end: usize) -> u64
    requires { (start ≤ end) × (end ≤ length text.now) × (end ≤ start + 8) }
    ensures { result ≡ little (slice start end text.now) }
{
    let mut n: u64 = 0;
    for i in (start..end).rev() {
        n = n * 256 + u64::from(text[i]);
    }
    n
}

// The kind of the keyword with this number.
fn keyword_kind(n: u64) -> Option<u8>
    ensures { kind_found result ≡ find n keyword_numbers }
{
    match n {
        0x646e61 => Some(AND_WORD), // and
        0x65736163 => Some(CASE_WORD), // case
        0x7373616c63 => Some(CLASS_WORD), // class
        0x746c7561666564 => Some(DEFAULT_WORD), // default
        0x656e69666564 => Some(DEFINE_WORD), // define
        0x65736c65 => Some(ELSE_WORD), // else
        0x65736c6166 => Some(FALSE_WORD), // false
        0x6669 => Some(IF_WORD), // if
        0x6564756c636e69 => Some(INCLUDE_WORD), // include
        0x7374697265686e69 => Some(INHERITS_WORD), // inherits
        0x65646f6e => Some(NODE_WORD), // node
        0x726f => Some(OR_WORD), // or
        0x65757274 => Some(TRUE_WORD), // true
        _ => None,
    }
}

// The kind of the keyword that the word from `start` to `end` is.
fn keyword_at(text: &[u8], start: usize, end: usize) -> Option<u8>
    requires { WordRun text.now start end }
    ensures { kind_found result ≡ keyword_in keywords (slice start end text.now) }
{
    if 8 < end - start {
        return None;
    }
    keyword_kind(word_number(text, start, end))
}

// A name: a word that is no keyword, of at most 255 bytes.
pub fn is_name(text: &[u8], start: usize, end: usize) -> bool
    requires { WordRun text.now start end }
    ensures { result ≡ name_fits (slice start end text.now) }
{
    if 255 < end - start {
        return false;
    }
    keyword_at(text, start, end).is_none()
}

// The word or keyword whose letter is at `start`.
pub fn word_token(text: &[u8], start: usize, line: usize) -> Token
    requires { (start < length text.now) × (line ≤ start) × (is_letter (get_or text.now start 0) ≡ true) }
    ensures { (o : Bool) → Found text.now start line o result }
{
    let end = word_end(text, start + 1);
    if 255 < end - start {
        return plain(MALFORMED, start, line, start);
    }
    let kind = keyword_at(text, start, end).unwrap_or(A_WORD);
    plain(kind, start, line, end)
}
