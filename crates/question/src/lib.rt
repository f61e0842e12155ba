// What the why program reads and writes: a question of five lines, with the manifest behind it or a list of types and the manifest, and a line that answers it.
#![tactic(auto)]

ghost use Rattle.std.specs.Prelude.{◌≡◌, ◌≤◌, length};
ghost use Rattle.values.specs.Decimal.{decimal};
ghost use Rattle.question.specs.Lines.{line_after, lines_of, line_between};
ghost use Rattle.input.specs.Numbers.{up_to};
ghost use Rattle.question.specs.Numbers.{number_in};
ghost use Rattle.question.specs.Asking.{with_line, asked};
ghost use Rattle.question.specs.Answers.{numbers_line, answer_line, wrong_line, Put};

use input::numbers::number_spelled;
use input::{after, feed_place, place_of};
use values::Explanation;
use values::decimal::put_unsigned;

// Where the lines of a question end: at their line feeds. The first begins at 0, each other one behind the line feed before it, and the manifest behind the last.
#[derive(Clone, Copy)]
pub struct Lines {
    pub device: usize,
    pub kind: usize,
    pub title: usize,
    pub attribute: usize,
    pub label: usize,
}

// What an input asks: its lines, the label that the last one spells, and how many bytes the list of types has that follows that line, if there is one.
#[derive(Clone, Copy)]
pub struct Question {
    pub lines: Lines,
    pub label: u8,
    pub types: Option<u16>,
}

// ---- Lines

// Where the line behind the line feed at `feed` ends.
fn line_after(given: &[u8], feed: usize) -> usize
    ensures { result ≡ line_after given.now feed }
{
    if given.len() <= feed {
        return given.len();
    }
    feed + 1 + feed_place(after(given, feed))
}

fn lines_of(given: &[u8]) -> Lines
    ensures { result ≡ lines_of given.now }
{
    let device = feed_place(given);
    let kind = line_after(given, device);
    let title = line_after(given, kind);
    let attribute = line_after(given, title);
    let label = line_after(given, attribute);
    Lines {
        device,
        kind,
        title,
        attribute,
        label,
    }
}

// The line behind the line feed at `feed`, up to its end.
pub fn line_between(given: &[u8], feed: usize, end: usize) -> &[u8]
    ensures { result.now ≡ line_between given.now feed end }
{
    if end <= feed {
        return &given[0..0];
    }
    if given.len() <= feed {
        return &given[0..0];
    }
    let from = feed + 1;
    if given.len() <= end {
        return &given[from..];
    }
    &given[from..end]
}

// ---- The fifth line

// The number that a text spells, if it spells one up to the limit.
fn number_in(most: u32, text: &[u8]) -> Option<u32>
    ensures { result ≡ up_to most (number_in most text.now) }
{
    if text.is_empty() {
        return None;
    }
    if 1 < text.len() && text[0] == b'0' {
        return None;
    }
    number_spelled(most, text)
}

fn ask(lines: Lines, line: &[u8], there: usize) -> Option<Question>
    ensures { result ≡ with_line lines line.now there }
{
    let space = place_of(line, b' ');
    let label = number_in(255, &line[..space])?;
    if line.len() <= space {
        return Some(Question {
            lines,
            label: label as u8,
            types: None,
        });
    }
    let size = number_in(65535, after(line, space))?;
    // so many bytes are there for the list
    if there < size as usize {
        return None;
    }
    Some(Question {
        lines,
        label: label as u8,
        types: Some(size as u16),
    })
}

// ---- The question

// What an input asks, if it is a question.
pub fn split(given: &[u8]) -> Option<Question>
    ensures { result ≡ asked given.now }
{
    let lines = lines_of(given);
    if given.len() <= lines.label {
        return None;
    }
    let there = given.len() - lines.label - 1;
    ask(
        lines,
        line_between(given, lines.attribute, lines.label),
        there,
    )
}

// ---- The answer: each line at the start of `out`, as much of it as there is room for. The result is its length, and 64 bytes are enough for any.

fn put_text(out: &mut [u8], at: usize, text: &[u8]) -> usize
    requires { (at ≤ 65535) × (length text.now ≤ 65535) }
    ensures { Put at text.now out.old out.new result }
{
    wire::copy_into(out, at, text);
    at + text.len()
}

fn put_number(out: &mut [u8], at: usize, n: u16) -> usize
    requires { at ≤ 65535 }
    ensures { Put at (decimal n) out.old out.new result }
{
    let mut digits = [0u8; 20];
    let count = put_unsigned(&mut digits, n as u64);
    put_text(out, at, &digits[..count])
}

// A word, a number, what stands between, another number and the line's end.
fn put_numbers(out: &mut [u8], word: &[u8], first: u16, middle: &[u8], second: u16) -> usize
    requires { (length word.now ≤ 8) × (length middle.now ≤ 8) }
    ensures { Put 0 (numbers_line word.now first middle.now second) out.old out.new result × (result ≤ 64) }
{
    let number = put_text(out, 0, word);
    let between = put_number(out, number, first);
    let other = put_text(out, between, middle);
    let end = put_number(out, other, second);
    put_text(out, end, b"\n")
}

pub fn write_answer(explanation: Explanation, out: &mut [u8]) -> usize
    ensures { Put 0 (answer_line explanation) out.old out.new result × (result ≤ 64) }
{
    match explanation {
        Ok(Some(among)) => put_numbers(
            out,
            b"among ",
            values::part_number(among.part) as u16,
            b" ",
            among.place,
        ),
        Ok(None) => put_text(out, 0, b"not among\n"),
        Err(refusal) => put_numbers(
            out,
            b"refused ",
            values::number_of(refusal.reason) as u16,
            b" at ",
            refusal.place,
        ),
    }
}

// The answer to a wrong question.
pub fn write_wrong(out: &mut [u8]) -> usize
    ensures { Put 0 wrong_line out.old out.new result × (result ≤ 64) }
{
    put_text(out, 0, b"not a question\n")
}
