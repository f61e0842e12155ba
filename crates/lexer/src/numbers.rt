// Numbers.
ghost use Rattle.std.specs.Prelude.{◌≡◌, Bool, true, ◌≤◌, ◌<◌, length, get_or};
ghost use Rattle.notation.specs.Lexing.{is_digit};
ghost use Rattle.lexer.specs.Numbers.{more_digits, DigitsRun, word_at, largest_of, signed_of, DigitRead};
ghost use Rattle.lexer.specs.Found.{Found};

use crate::bytes::{in_word, is_digit};
use crate::plain::plain;
use crate::{Digits, Token};
use notation::kinds::{A_NUMBER, MALFORMED};

// Whether a digit goes on with the number n: not behind a zero, and only while the number stays near 64 bits.
fn is_more(c: u8, n: u64) -> bool
    ensures { result ≡ more_digits c n }
{
    is_digit(c) & ((1 <= n) & (n <= 922337203685477580))
}

// The digits from `at` on, behind the first one.
fn read_digits(text: &[u8], at: usize, first: u64) -> Digits
    requires { at ≤ length text.now }
    ensures { DigitsRun text.now at first result }
{
    let mut n = first;
    for i in at..text.len() {
        let c = text[i];
        if !is_more(c, n) {
            return Digits { end: i, value: n };
        }
        n = n * 10 + u64::from(c - b'0');
    }
    Digits {
        end: text.len(),
        value: n,
    }
}

// A byte of a word at `at`.
fn word_at(text: &[u8], at: usize) -> bool
    ensures { result ≡ word_at text.now at }
{
    if at < text.len() {
        return in_word(text[at]);
    }
    false
}

// The largest number that may stand behind a - or without one.
fn largest(negative: bool) -> u64
    ensures { result ≡ largest_of negative }
{
    if negative {
        return 9223372036854775808;
    }
    9223372036854775807
}

// The number n, behind a - or not.
fn signed(n: u64, negative: bool) -> i64
    requires { n ≤ largest_of negative }
    ensures { result ≡ signed_of negative n }
{
    if !negative {
        return n as i64;
    }
    if n == 0 {
        return 0;
    }
    let k = (n - 1) as i64;
    -1 - k
}

// The number whose first digit is at `from`, and which begins at `start`, with a - or without.
pub fn number_token(text: &[u8], start: usize, line: usize, from: usize, negative: bool) -> Token
    requires { (line ≤ start) × (start ≤ from) × (from < length text.now) × (is_digit (get_or text.now from 0) ≡ true) }
    ensures { (o : Bool) → DigitRead text.now start line o from negative → Found text.now start line o result }
{
    let d = read_digits(text, from + 1, u64::from(text[from] - b'0'));
    let end = d.end;
    let n = d.value;
    if word_at(text, end) {
        return plain(MALFORMED, start, line, start);
    }
    if largest(negative) < n {
        return plain(MALFORMED, start, line, start);
    }
    Token {
        kind: A_NUMBER,
        start: start,
        line: line,
        end: end,
        line_behind: line,
        class_end: 0,
        value: signed(n, negative),
    }
}
