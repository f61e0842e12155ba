// The lines of a schedule, one at a time into a lent buffer: the line, then zeros; or zeros alone, and an answer that says why.
#![tactic(auto)]

ghost use Rattle.std.specs.Prelude.{◌≡◌, [], ◌≤◌, length};
ghost use Rattle.catalog.specs.Making.{stored};
ghost use Rattle.rules.specs.Schedule.{line_start, attribute_line, entry_lines_by, steps_line, refusal_line};
ghost use Rattle.values.specs.Numbers.{number_of};
ghost use Rattle.schedule.specs.Appending.{appended, fitted};
ghost use Rattle.schedule.specs.Strings.{strings_by};
ghost use Rattle.schedule.specs.Subjects.{attribute_at, head_at};
ghost use Rattle.schedule.specs.Lines.{next_line};

use crate::pieces::{Strings, finish, put_labels, put_number, put_text, put_value, put_word};
use crate::subjects::subject_at;
use catalog::layout::{ATTRIBUTE_NAME, ENTRY_ATTRIBUTES, ENTRY_LABELS, ENTRY_TITLE, ENTRY_TYPE};
use labels::Labels;
use values::Reason;

pub mod pieces; // pieces.rt: a line made of pieces
mod subjects; // subjects.rt: what stands at a position

// A line of a catalog: the place of its entry, and the place in it where the next attribute begins.
#[derive(Clone, Copy)]
pub struct Position {
    pub entry: usize,
    pub attribute: usize,
}

impl Position {
    // The first line of a catalog.
    pub const START: Position = Position {
        entry: 0,
        attribute: ENTRY_ATTRIBUTES,
    };
}

// What a line tells of, with the position of the next line.
#[derive(Clone, Copy)]
enum Subject {
    AnAttribute(Position),
    NoAttributes(Position),
    End,
    NotACatalog,
}

// A line that was written: its length, and where the next one is.
#[derive(Clone, Copy)]
pub struct Text {
    pub length: usize,
    pub next: Position,
}

// Why a line was not written: the buffer is too short for it, or what stands at the position is no entry or attribute of a catalog.
#[derive(Clone, Copy)]
pub enum LineError {
    TooLong,
    NotACatalog,
}

// ---- The lines of entries

// The type and the title of the entry at `p`, at the start of its line.
fn put_start(catalog: &[u8], p: usize, strings: Strings<'_>, line: &mut [u8]) -> usize
    requires { p ≤ 65535 }
    ensures { stored result line.new ≡ appended (line_start (strings_by strings.entry.manifest.now strings.entry.index.now strings.entry.count) (head_at catalog.now p)) 0 line.old }
{
    let kind = wire::two_at(catalog, p + ENTRY_TYPE);
    let title = wire::two_at(catalog, p + ENTRY_TITLE);
    let end = put_word(line, 0, strings, kind);
    put_word(line, end, strings, title)
}

// The line of the attribute at `q`, in the entry at `p`.
fn attribute_line(
    catalog: &[u8],
    p: usize,
    q: usize,
    strings: Strings<'_>,
    line: &mut [u8],
) -> Option<usize>
    requires { (p ≤ 65535) × (q ≤ 65535) }
    ensures { stored result line.new ≡ fitted (attribute_line (strings_by strings.entry.manifest.now strings.entry.index.now strings.entry.count) (head_at catalog.now p) (attribute_at catalog.now q)) (length line.old) }
{
    let name = wire::two_at(catalog, q + ATTRIBUTE_NAME);
    let content = catalog::read_attribute(catalog, q);
    let value = content.value;
    let labels = content.labels;
    let start = put_start(catalog, p, strings, line);
    let named = put_word(line, start, strings, name);
    let shown = put_value(line, named, strings, value);
    let end = put_labels(line, shown, labels);
    finish(line, end)
}

// "A resource without attributes has "-" for attribute and value."
fn resource_line(catalog: &[u8], p: usize, strings: Strings<'_>, line: &mut [u8]) -> Option<usize>
    requires { p ≤ 65535 }
    ensures { stored result line.new ≡ fitted (entry_lines_by (strings_by strings.entry.manifest.now strings.entry.index.now strings.entry.count) (head_at catalog.now p) []) (length line.old) }
{
    let labels = Labels::read_at(catalog, p + ENTRY_LABELS);
    let start = put_start(catalog, p, strings, line);
    let none = put_text(line, start, b"- -");
    let end = put_labels(line, none, labels);
    finish(line, end)
}

// The line at a position of a catalog, or none behind the last one. The strings are those of the manifest at the places that the index has; `syntax::strings::index_strings`
// fills it.
pub fn next_line(
    catalog: &[u8],
    at: Position,
    manifest: &[u8],
    index: &[u8],
    strings: u16,
    line: &mut [u8],
) -> Result<Option<Text>, LineError>
    ensures { stored result line.new ≡ next_line (strings_by manifest.now index.now strings) catalog.now at (length line.old) }
{
    let p = at.entry;
    let q = at.attribute;
    let texts = Strings {
        manifest,
        index,
        count: strings,
    };
    match subject_at(catalog, at) {
        Subject::AnAttribute(next) => {
            let written = attribute_line(catalog, p, q, texts, line);
            let length = written.ok_or(LineError::TooLong)?;
            Ok(Some(Text { length, next }))
        }
        Subject::NoAttributes(next) => {
            let written = resource_line(catalog, p, texts, line);
            let length = written.ok_or(LineError::TooLong)?;
            Ok(Some(Text { length, next }))
        }
        Subject::End => {
            catalog::clear_rest(line, 0);
            Ok(None)
        }
        Subject::NotACatalog => {
            catalog::clear_rest(line, 0);
            Err(LineError::NotACatalog)
        }
    }
}

// ---- The last line, and the only one of a refusal

// "The last line is "steps" and their number."
pub fn steps_line(steps: u16, line: &mut [u8]) -> Option<usize>
    ensures { stored result line.new ≡ fitted (steps_line steps) (length line.old) }
{
    let word = put_text(line, 0, b"steps ");
    let number = put_number(line, word, steps as u64);
    let end = put_text(line, number, b"\n");
    finish(line, end)
}

// "A refusal prints only "refused", number, "at", place."
pub fn refusal_line(reason: Reason, place: u16, line: &mut [u8]) -> Option<usize>
    ensures { stored result line.new ≡ fitted (refusal_line (number_of reason) place) (length line.old) }
{
    let word = put_text(line, 0, b"refused ");
    let number = put_number(line, word, values::number_of(reason) as u64);
    let preposition = put_text(line, number, b" at ");
    let offset = put_number(line, preposition, place as u64);
    let end = put_text(line, offset, b"\n");
    finish(line, end)
}
