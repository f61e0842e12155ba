// Manifests as people write them: reads a line, a line feed and then bytes from standard input. Where the line is `convert` the bytes are a text, and its tagged form is
// the result; where it is `print` they are a tagged manifest, and its text is. Writes "written", the result's length and a line feed, then the result, so that a reader
// can tell whether it is whole; or the line of a refusal. Where the line is `place`, a space and an offset in decimal, the bytes are a text: writes "place" and the
// place in the text of the field at that offset of its tagged form. Before each of these words may stand `types`, a space, five digits and a space: so many of the
// bytes are then a list of types, which replaces the eight, and the others follow it.
#![tactic(auto)]

ghost use Rattle.std.specs.Prelude.{◌≡◌, List, ℕ, ◌+◌, ◌≤◌, length, OnOk};
ghost use Rattle.values.specs.Numbers.{number_of};
ghost use Rattle.rules.specs.Schedule.{refusal_line};
ghost use Rattle.notation.specs.Convert.{convert};
ghost use Rattle.notation.specs.Printer.{print};
ghost use Rattle.catalog.specs.Making.{stored};
ghost use Rattle.input.specs.Numbers.{up_to};
ghost use Rattle.input.specs.Reading.{reading, reading_of};
ghost use Rattle.schedule.specs.Appending.{fitted};
ghost use Rattle.standard_streams.specs.Sending.{ComesNext, Left, LastLine};
ghost use Rattle.text_places.specs.Places.{PlaceGiven};
ghost use Rattle.manifest_text.specs.Commands.{offset_of, place_asked, command_of, names_types, command_behind, command_in, types_in};
ghost use Rattle.manifest_text.specs.Answers.{types_given, bytes_given, numbered_text, answer_text, AnAnswer, AllSent, InputSent};

use input::numbers::number_spelled;
use input::{Progress, past};
use notation::Answer;
use schedule::pieces::{finish, put_number, put_text};
use standard_streams::{NotSent, first, read_all, send};
use syntax::strings::same_bytes;
use text_places::places::field_place;
use values::Refusal;

// What the first line asks for.
#[derive(Clone, Copy)]
pub enum Command {
    Convert,
    Print,
    Place { field: usize },
}

// ---- The first line

// The number that the one to five digits behind `place ` spell.
fn offset_of(line: &[u8]) -> Option<usize>
    ensures { result ≡ up_to 99999 (offset_of line.now) }
{
    if line.len() < 7 {
        return None;
    }
    if 11 < line.len() {
        return None;
    }
    let number = number_spelled(99999, past(line, 6))?;
    Some(number as usize)
}

fn place_asked(line: &[u8]) -> Option<Command>
    ensures { result ≡ place_asked line.now }
{
    let field = offset_of(line)?;
    Some(Command::Place { field })
}

// The command, if the line is one.
fn command_of(line: &[u8]) -> Option<Command>
    ensures { result ≡ command_of line.now }
{
    if same_bytes(b"convert", line) {
        return Some(Command::Convert);
    }
    if same_bytes(b"print", line) {
        return Some(Command::Print);
    }
    if same_bytes(b"place ", first(line, 6)) {
        return place_asked(line);
    }
    None
}

// ---- A list of types, which the first line may name before the command

fn names_types(line: &[u8]) -> bool
    ensures { result ≡ names_types line.now }
{
    same_bytes(b"types ", first(line, 6))
}

// The command behind `types `, five digits and a space.
fn command_behind(line: &[u8]) -> Option<Command>
    ensures { result ≡ command_behind line.now }
{
    offset_of(first(line, 11))?;
    if same_bytes(b" ", first(past(line, 11), 1)) {
        return command_of(past(line, 12));
    }
    None
}

fn command_in(line: &[u8]) -> Option<Command>
    ensures { result ≡ command_in line.now }
{
    if names_types(line) {
        return command_behind(line);
    }
    command_of(line)
}

// How long the list of types is, if one replaces the eight: the first bytes behind the first line are the list then.
fn types_in(line: &[u8]) -> Option<usize>
    ensures { result ≡ types_in line.now }
{
    if names_types(line) {
        return Some(offset_of(first(line, 11)).unwrap_or(100000));
    }
    None
}

// ---- The calls, with 65,535 bytes of output and 65,536 of memory

fn convert_given(types: Option<usize>, given: &[u8], out: &mut [u8; 65535]) -> Answer
    ensures { (result ≡ (convert (types_given types given.now) (bytes_given types given.now) 65535 65536).answer) × (out.new ≡ (convert (types_given types given.now) (bytes_given types given.now) 65535 65536).output_after) }
{
    let mut work = [0u8; 65536];
    match types {
        None => converter::convert(given, out, &mut work),
        Some(size) => {
            converter::convert_with_types(first(given, size), past(given, size), out, &mut work)
        }
    }
}

fn print_given(types: Option<usize>, given: &[u8], out: &mut [u8; 65535]) -> Answer
    ensures { (result ≡ (print (types_given types given.now) (bytes_given types given.now) 65535 65536).answer) × (out.new ≡ (print (types_given types given.now) (bytes_given types given.now) 65535 65536).output_after) }
{
    let mut work = [0u8; 65536];
    match types {
        None => printer::print(given, out, &mut work),
        Some(size) => {
            printer::print_with_types(first(given, size), past(given, size), out, &mut work)
        }
    }
}

// The place in a text of the field at an offset of its tagged form. The log is long enough for every text that is converted.
fn place_given(types: Option<usize>, given: &[u8], field: usize) -> usize
    ensures { PlaceGiven (types_given types given.now) (bytes_given types given.now) field 262144 result }
{
    let mut log = [0u8; 262144];
    match types {
        None => field_place(b"", given, field, &mut log),
        Some(size) => field_place(first(given, size), past(given, size), field, &mut log),
    }
}

// ---- Writing: `sent` bytes of an answer to `command` for `given`, with these types, are written out. Nothing but `write` changes `sent`, or writes to standard output.

// Writes out what comes next, or tells on standard error that it cannot.
fn write(
    rt: &(impl Print + Eprint),
    text: &[u8],
    types: Option<usize>,
    command: Option<Command>,
    given: &[u8],
    sent: &mut u64,
) -> Result<(), NotSent>
    requires { AnAnswer types command given.now (λ a. ComesNext a sent.old text.now) }
    ensures { OnOk result (sent.new ≡ sent.old + length text.now) }
{
    send(rt, text, sent)
}

// The whole answer, in its buffer.
fn write_all(
    rt: &(impl Print + Eprint),
    written: Option<usize>,
    text: &[u8],
    types: Option<usize>,
    command: Option<Command>,
    given: &[u8],
    sent: &mut u64,
) -> Result<(), NotSent>
    requires { AnAnswer types command given.now (λ a. LastLine a sent.old written text.now) }
    ensures { AllSent types command given.now sent.new result }
{
    write(
        rt,
        first(text, written.unwrap()),
        types,
        command,
        given,
        sent,
    )
}

// A word, a number, a line feed, and bytes.
fn numbered_text(word: &[u8], number: u64, bytes: &[u8], text: &mut [u8]) -> Option<usize>
    ensures { stored result text.new ≡ fitted (numbered_text word.now number bytes.now) (length text.old) }
{
    let digits = put_text(text, 0, word);
    let feed = put_number(text, digits, number);
    let behind = put_text(text, feed, b"\n");
    let end = put_text(text, behind, bytes);
    finish(text, end)
}

fn write_numbered(
    rt: &(impl Print + Eprint),
    word: &[u8],
    number: u64,
    bytes: &[u8],
    types: Option<usize>,
    command: Option<Command>,
    given: &[u8],
    sent: &mut u64,
) -> Result<(), NotSent>
    requires { (AnAnswer types command given.now (λ a. Left a sent.old (numbered_text word.now number bytes.now))) × (length word.now ≤ 8) × (length bytes.now ≤ 65535) }
    ensures { AllSent types command given.now sent.new result }
{
    let mut text = [0u8; 65600];
    let written = numbered_text(word, number, bytes, &mut text);
    write_all(rt, written, &text, types, command, given, sent)
}

fn write_refusal(
    rt: &(impl Print + Eprint),
    refusal: Refusal,
    types: Option<usize>,
    command: Option<Command>,
    given: &[u8],
    sent: &mut u64,
) -> Result<(), NotSent>
    requires { AnAnswer types command given.now (λ a. Left a sent.old (refusal_line (number_of refusal.reason) refusal.place)) }
    ensures { AllSent types command given.now sent.new result }
{
    let mut line = [0u8; 2048];
    let written = schedule::refusal_line(refusal.reason, refusal.place, &mut line);
    write_all(rt, written, &line, types, command, given, sent)
}

// What a call answered and left in its output.
fn write_answer(
    rt: &(impl Print + Eprint),
    answer: Answer,
    out: &[u8; 65535],
    types: Option<usize>,
    command: Option<Command>,
    given: &[u8],
    sent: &mut u64,
) -> Result<(), NotSent>
    requires { AnAnswer types command given.now (λ a. Left a sent.old (answer_text answer out.now)) }
    ensures { AllSent types command given.now sent.new result }
{
    match answer {
        Ok(length) => {
            let bytes = first(out, length as usize);
            write_numbered(
                rt,
                b"written ",
                bytes.len() as u64,
                bytes,
                types,
                command,
                given,
                sent,
            )
        }
        Err(refusal) => write_refusal(rt, refusal, types, command, given, sent),
    }
}

// ---- The commands

fn unknown_line(rt: &impl Eprint) {
    let _ = eprintln!(rt;
        "the first line is neither convert nor print, nor place with an offset, nor one of these behind types and five digits"
    );
}

// Answers a command: `Ok` if all of the answer is written.
fn answer(
    rt: &(impl Print + Eprint),
    types: Option<usize>,
    command: Option<Command>,
    given: &[u8],
    sent: &mut u64,
) -> Result<(), NotSent>
    requires { sent.old ≡ 0 }
    ensures { AllSent types command given.now sent.new result }
{
    let mut out = [0u8; 65535];
    match command {
        Some(Command::Convert) => {
            let converted = convert_given(types, given, &mut out);
            write_answer(rt, converted, &out, types, command, given, sent)
        }
        Some(Command::Print) => {
            let printed = print_given(types, given, &mut out);
            write_answer(rt, printed, &out, types, command, given, sent)
        }
        Some(Command::Place { field }) => {
            let place = place_given(types, given, field);
            write_numbered(
                rt,
                b"place ",
                place as u64,
                b"",
                types,
                command,
                given,
                sent,
            )
        }
        None => {
            unknown_line(rt);
            Ok(())
        }
    }
}

// Answers the input that the buffers hold.
fn answer_read(
    rt: &(impl Print + Eprint),
    at: Progress,
    line: &[u8],
    given: &[u8],
    sent: &mut u64,
) -> Result<(), NotSent>
    requires { sent.old ≡ 0 }
    ensures { (d m input : List ℕ) → length d ≡ 256 → length m ≡ 196608 → reading at line.now given.now ≡ reading_of d m input → InputSent input sent.new result }
{
    let named = first(line, at.line);
    let types = types_in(named);
    let command = command_in(named);
    answer(rt, types, command, first(given, at.rest), sent)
}

fn main(rt: HostRuntime) {
    let mut line = [0u8; 256];
    let mut given = [0u8; 196608];
    let Ok(at) = read_all(&rt, &mut line, &mut given) else {
        return;
    };
    let mut sent: u64 = 0;
    let _ = answer_read(&rt, at, &line, &given, &mut sent);
}
