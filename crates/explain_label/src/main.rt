// Why does this line count? Reads a question from standard input, five lines (device, type, title, attribute, label) and a manifest, and writes the line that
// answers it. Behind the label may stand a space and a number: so many bytes between the lines and the manifest are a list of types, which replaces the eight.
#![tactic(auto)]

ghost use Rattle.std.specs.Prelude.{◌≡◌, ◌≤◌, length, OnOk};
ghost use Rattle.question.specs.Answers.{Put};
ghost use Rattle.question.specs.Lines.{lines_of};
ghost use Rattle.explain_label.specs.Answering.{explained, answer_text};

use input::{after, past};
use question::{Question, line_between};
use standard_streams::{NotRead, NotSent, first, read_whole, send};
use values::Explanation;

// The answer to the question in `given`, with 65,536 bytes of memory. A list of types is the first bytes behind the lines.
fn explain_given(given: &[u8], question: Question) -> Explanation
    requires { question.lines ≡ lines_of given.now }
    ensures { result ≡ explained given.now question }
{
    let mut work = [0u8; 65536];
    let lines = question.lines;
    let device = first(given, lines.device);
    let kind = line_between(given, lines.device, lines.kind);
    let title = line_between(given, lines.kind, lines.title);
    let attribute = line_between(given, lines.title, lines.attribute);
    let label = question.label;
    let rest = after(given, lines.label);
    match question.types {
        None => explanation::explain(rest, device, kind, title, attribute, label, &mut work),
        Some(size) => {
            let types = first(rest, size as usize);
            let manifest = past(rest, size as usize);
            explanation::explain_with_types(
                types, manifest, device, kind, title, attribute, label, &mut work,
            )
        }
    }
}

// Puts the line that answers `given` at the start of `line`, and answers its length.
fn put_answer(given: &[u8], line: &mut [u8]) -> usize
    ensures { Put 0 (answer_text given.now) line.old line.new result × (result ≤ 64) }
{
    match question::split(given) {
        Some(question) => question::write_answer(explain_given(given, question), line),
        None => question::write_wrong(line),
    }
}

// Writes the answer to `given` out, or tells on standard error that it cannot. Nothing else writes to standard output.
fn write(
    rt: &(impl Print + Eprint),
    text: &[u8],
    given: &[u8],
    sent: &mut u64,
) -> Result<(), NotSent>
    requires { ((text.now ≡ answer_text given.now) × (length text.now ≤ 64)) × (sent.old ≡ 0) }
    ensures { OnOk result (sent.new ≡ length (answer_text given.now)) }
{
    send(rt, text, sent)
}

// Answers an input: `Ok` if all of the answer is written.
fn answer(rt: &(impl Print + Eprint), given: &[u8], sent: &mut u64) -> Result<(), NotSent>
    requires { sent.old ≡ 0 }
    ensures { OnOk result (sent.new ≡ length (answer_text given.now)) }
{
    let mut line = [0u8; 64];
    let length = put_answer(given, &mut line);
    write(rt, first(&line, length), given, sent)
}

// An input of 196,608 bytes or more is no question: its list of types, its manifest or one of its lines is too long. An empty input is none either.
fn main(rt: HostRuntime) {
    let mut given = [0u8; 196608];
    let whole = read_whole(&rt, &mut given);
    let asked = match whole {
        Ok(n) => first(&given, n),
        Err(NotRead::TooLong) => b"",
        Err(NotRead::Failed) => return,
    };
    let mut sent: u64 = 0;
    let _ = answer(&rt, asked, &mut sent);
}
