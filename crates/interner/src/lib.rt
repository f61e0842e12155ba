// The table of a text's strings, in lent bytes. It keeps no copies: a string is known by the place in the text where it begins, an opening quote or the first
// letter of a word. Each place takes two bytes, and the places are sorted by what the strings mean.
#![tactic(auto)]

ghost use Rattle.std.specs.Prelude.{◌≡◌, false, ◌+◌, ◌<◌, ◌≤◌, length};
ghost use Rattle.notation.specs.Lexing.{in_word};
ghost use Rattle.notation.specs.Quoted.{escape_of, string_from};
ghost use Rattle.interner.specs.Strings.{rest_of, Stepped, alike, order_of};
ghost use Rattle.interner.specs.Table.{Searchable, Searched, Moved, Ready, Kept};

use lexer::bytes::{in_word, is_quote};
use std::cmp::Ordering;

pub mod fields; // fields.rt: the table as a field of a manifest

// Where a string goes on: its closing quote, or 0 for a word, and the place of its next byte.
#[derive(Clone, Copy)]
struct Cursor {
    quote: u8,
    at: usize,
}

// The code of the next byte of a string, and the place behind it. The code is 0 at the end, else one more than the byte: so codes are ordered as strings are.
#[derive(Clone, Copy)]
struct Step {
    code: u16,
    at: usize,
}

// ---- One string

fn escape_of(c: u8) -> u8
    ensures { result ≡ escape_of c }
{
    if c == 0x6e { 0x0a } else { c }
}

fn letter(c: u8, behind: usize) -> Step
    ensures { (result.code ≡ c + 1) × (result.at ≡ behind) × (result.code ≤ 256) }
{
    Step {
        code: c as u16 + 1,
        at: behind,
    }
}

// The string that begins at `p`.
fn start(text: &[u8], p: usize) -> Cursor
    ensures { (rest_of text.now result.quote result.at ≡ string_from text.now p) × (in_word result.quote ≡ false) }
{
    if text.len() <= p {
        return Cursor { quote: 0, at: p };
    }
    let c = text[p];
    if is_quote(c) {
        return Cursor {
            quote: c,
            at: p + 1,
        };
    }
    Cursor { quote: 0, at: p }
}

fn next_in_word(text: &[u8], at: usize) -> Step
    ensures { Stepped text.now 0 at result.code result.at }
{
    if text.len() <= at {
        return Step { code: 0, at };
    }
    let c = text[at];
    if in_word(c) {
        return letter(c, at + 1);
    }
    Step { code: 0, at }
}

fn next_in_quotes(text: &[u8], quote: u8, at: usize) -> Step
    requires { 0 < quote }
    ensures { Stepped text.now quote at result.code result.at }
{
    if text.len() <= at {
        return Step { code: 0, at };
    }
    let c = text[at];
    if c == quote {
        return Step { code: 0, at };
    }
    if c != 0x5c {
        return letter(c, at + 1);
    }
    let q = at + 1;
    if text.len() <= q {
        return Step { code: 0, at };
    }
    let escaped = text[q];
    letter(escape_of(escaped), q + 1)
}

fn next(text: &[u8], quote: u8, at: usize) -> Step
    ensures { Stepped text.now quote at result.code result.at }
{
    if quote == 0 {
        return next_in_word(text, at);
    }
    next_in_quotes(text, quote, at)
}

// ---- Two strings

// Whether two strings go on with the same letter, digit or underscore.
fn go_on_alike(text: &[u8], p: usize, q: usize) -> bool
    ensures { result ≡ alike text.now p q }
{
    if text.len() <= p {
        return false;
    }
    if text.len() <= q {
        return false;
    }
    let c = text[p];
    let d = text[q];
    if c != d {
        return false;
    }
    in_word(c)
}

// What is left at `a` and at `b` of two strings, each with its closing quote, or 0 for a word.
fn compare_rests(text: &[u8], one: u8, other: u8, a: usize, b: usize) -> Ordering
    ensures { result ≡ order_of (rest_of text.now one a) (rest_of text.now other b) }
{
    let mut p = a;
    let mut q = b;
    loop {
        let x = next(text, one, p);
        let y = next(text, other, q);
        if x.code < y.code {
            return Ordering::Less;
        }
        if y.code < x.code {
            return Ordering::Greater;
        }
        if x.code == 0 {
            return Ordering::Equal;
        }
        p = x.at;
        q = y.at;
    }
}

// The same. Letters that both go on with are passed over first, by a shorter test than a step in each takes: no letter ends a string or has another meaning.
fn compare_behind_letters(text: &[u8], one: u8, other: u8, a: usize, b: usize) -> Ordering
    requires { (in_word one ≡ false) × (in_word other ≡ false) }
    ensures { result ≡ order_of (rest_of text.now one a) (rest_of text.now other b) }
{
    let mut p = a;
    let mut q = b;
    while go_on_alike(text, p, q) {
        p += 1;
        q += 1;
    }
    compare_rests(text, one, other, p, q)
}

// The strings that begin at `a` and at `b`.
pub fn compare(text: &[u8], a: usize, b: usize) -> Ordering
    ensures { result ≡ order_of (string_from text.now a) (string_from text.now b) }
{
    let first = start(text, a);
    let second = start(text, b);
    compare_behind_letters(text, first.quote, second.quote, first.at, second.at)
}

// ---- The table

// Where the string that begins at `at` stands among the first `count` of the table. The error is where it belongs.
pub fn search(text: &[u8], table: &[u8], count: usize, at: usize) -> Result<usize, usize>
    requires { Searchable text.now table.now count }
    ensures { Searched text.now table.now count at result }
{
    let mut low: usize = 0;
    let mut high = count;
    while low < high {
        let middle = (low + high) / 2;
        let place = wire::two_in(table, 2 * middle) as usize;
        match compare(text, place, at) {
            Ordering::Less => low = middle + 1,
            Ordering::Equal => return Ok(middle),
            Ordering::Greater => high = middle,
        }
    }
    Err(low)
}

// Moves the bytes between two places two bytes on.
fn make_room(table: &mut [u8], from: usize, end: usize)
    requires { (from ≤ end) × (end + 2 ≤ length table.old) }
    ensures { Moved table.old table.new from end }
{
    table.copy_within(from..end, from + 2);
}

// The number of a string in the table, and how many strings the table has.
#[derive(Clone, Copy)]
pub struct Entered {
    pub number: usize,
    pub count: usize,
}

// Puts the string that begins at `at` in its place in the table, unless it is there.
pub fn enter(text: &[u8], table: &mut [u8], count: usize, at: usize) -> Entered
    requires { Ready text.now table.old count at }
    ensures { Kept text.now table.old table.new count at result.number result.count }
{
    let number = match search(text, table, count, at) {
        Ok(number) => return Entered { number, count },
        Err(number) => number,
    };
    make_room(table, 2 * number, 2 * count);
    wire::put_two(table, 2 * number, at as u16);
    Entered {
        number,
        count: count + 1,
    }
}
