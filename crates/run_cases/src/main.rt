// Compiles, converts, prints or asks about the cases on standard input, a case to a line, and writes an answer line for each. The formats are those of
// `reference batch`, `reference text-batch`, `reference why-batch` and `reference types-batch` (docs/CASES.md).
#![tactic(auto)]

ghost use Rattle.std.specs.Prelude.{◌≤◌, length};

use std::io::{Input, Read};
use text::{is_line_feed, is_space, put_hex, read_hex, read_length, read_number};

// Lines and their parts, and numbers and bytes as text.
mod text;

fn main(rt: HostRuntime) {
    let mut input = [0u8; 300000];
    answer_all(&rt, &mut input);
}

// ---- Lines

// Nothing says that the input ends, so the rounds are counted: a million, each with a line or more. A line that does not fit the buffer ends the run, as the end of the input does.
fn answer_all(rt: &(impl Input + Print), input: &mut [u8]) {
    let mut source = rt.reader();
    let mut kept: usize = 0;
    for _ in 0..1000000 {
        let full = read_more(&mut source, input, kept);
        let done = answer_lines(rt, &input[..full]);
        if done == 0 {
            return;
        }
        input.copy_within(done..full, 0);
        kept = full - done;
    }
}

// Reads on after the bytes that are kept, until the buffer is full or the input ends. Answers how many bytes there are then.
fn read_more(source: &mut impl Read, input: &mut [u8], kept: usize) -> usize
    requires { kept ≤ length input.old }
    ensures { result ≤ length input.new }
{
    let got = read_full(source, &mut input[kept..]);
    kept + got
}

// Reads until the buffer is full, the input ends or a read fails. Answers how many bytes it put at the start of the buffer.
fn read_full(source: &mut impl Read, buffer: &mut [u8]) -> usize
    ensures { result ≤ length buffer.new }
{
    let mut got: usize = 0;
    while got < buffer.len() {
        match source.read(&mut buffer[got..]) {
            Ok(0) | Err(_) => return got,
            Ok(more) => got += more,
        }
    }
    got
}

// Answers each line that ends here. Answers where the rest begins.
fn answer_lines(rt: &impl Print, lines: &[u8]) -> usize
    ensures { result ≤ length lines.now }
{
    let Some(last) = lines.iter().rposition(|byte| is_line_feed(*byte)) else {
        return 0;
    };
    for line in lines[..last].split(|byte| is_line_feed(*byte)) {
        answer_line(rt, line);
    }
    last + 1
}

// ---- Cases: parts with a space between them. A part that is missing is empty, and what does not fit the room here is cut.

// The bytes of a part in hexadecimal digits.
fn bytes_of<'a>(part: Option<&[u8]>, room: &'a mut [u8]) -> &'a [u8] {
    let size = read_hex(part.unwrap_or(b""), room);
    &room[..size]
}

// A line may begin with a list of types: the word, the list, and a case. A device in hexadecimal digits is not that word.
fn answer_line(rt: &impl Print, line: &[u8]) {
    if !line.starts_with(b"types ") {
        answer_case(rt, line, None);
        return;
    }
    let mut parts = line.splitn(3, |byte| is_space(*byte));
    let _word = parts.next();
    let mut room = [0u8; 3000];
    let types = bytes_of(parts.next(), &mut room);
    answer_case(rt, parts.next().unwrap_or(b""), Some(types));
}

// The first word tells the sort of a case; a device in hexadecimal digits is none of the three words.
fn answer_case(rt: &impl Print, line: &[u8], types: Option<&[u8]>) {
    if line.starts_with(b"convert ") {
        answer_text(rt, line, |text, out, work| convert(types, text, out, work));
    } else if line.starts_with(b"print ") {
        answer_text(rt, line, |text, out, work| print(types, text, out, work));
    } else if line.starts_with(b"why ") {
        answer_why(rt, line, types);
    } else {
        answer_compile(rt, line, types);
    }
}

// Device, limit, output length, memory length, manifest.
fn answer_compile(rt: &impl Print, line: &[u8], types: Option<&[u8]>) {
    let mut parts = line.split(|byte| is_space(*byte));
    let mut room = [0u8; 300];
    let device = bytes_of(parts.next(), &mut room);
    let limit = read_number(parts.next().unwrap_or(b""), 65535) as u16;
    let mut out = [0u8; 70000];
    let output = read_length(parts.next().unwrap_or(b""), &out);
    let mut work = [0u8; 70000];
    let memory = read_length(parts.next().unwrap_or(b""), &work);
    let mut room = [0u8; 70000];
    let manifest = bytes_of(parts.next(), &mut room);
    let (out, work) = (&mut out[..output], &mut work[..memory]);
    let word = match types {
        None => library::rigbanut_compile(manifest, device, limit, out, work),
        Some(types) => {
            library::rigbanut_compile_with_types(types, manifest, device, limit, out, work)
        }
    };
    write_catalog(rt, word, out);
}

fn convert(types: Option<&[u8]>, text: &[u8], out: &mut [u8], work: &mut [u8]) -> u64 {
    match types {
        None => library::rigbanut_convert(text, out, work),
        Some(types) => library::rigbanut_convert_with_types(types, text, out, work),
    }
}

fn print(types: Option<&[u8]>, manifest: &[u8], out: &mut [u8], work: &mut [u8]) -> u64 {
    match types {
        None => library::rigbanut_print(manifest, out, work),
        Some(types) => library::rigbanut_print_with_types(types, manifest, out, work),
    }
}

// The word, output length, memory length, and the text to convert or the manifest to print.
fn answer_text<F: FnOnce(&[u8], &mut [u8], &mut [u8]) -> u64>(rt: &impl Print, line: &[u8], call: F)
    requires { F.IsAlwaysCallable call }
{
    let mut parts = line.split(|byte| is_space(*byte));
    let _word = parts.next();
    let mut out = [0u8; 70000];
    let output = read_length(parts.next().unwrap_or(b""), &out);
    let mut work = [0u8; 70000];
    let memory = read_length(parts.next().unwrap_or(b""), &work);
    let mut room = [0u8; 70000];
    let given = bytes_of(parts.next(), &mut room);
    let word = call(given, &mut out[..output], &mut work[..memory]);
    write_text(rt, word, &out[..output]);
}

// The word, device, type, title, attribute, label, memory length, manifest. No string of a manifest is longer than 255 bytes.
fn answer_why(rt: &impl Print, line: &[u8], types: Option<&[u8]>) {
    let mut parts = line.split(|byte| is_space(*byte));
    let _word = parts.next();
    let (mut first, mut second, mut third, mut fourth) = (
        [0u8; 300], [0u8; 300], [0u8; 300], [0u8; 300],
    );
    let device = bytes_of(parts.next(), &mut first);
    let kind = bytes_of(parts.next(), &mut second);
    let title = bytes_of(parts.next(), &mut third);
    let attribute = bytes_of(parts.next(), &mut fourth);
    let label = read_number(parts.next().unwrap_or(b""), 255) as u8;
    let mut work = [0u8; 70000];
    let memory = read_length(parts.next().unwrap_or(b""), &work);
    let mut room = [0u8; 70000];
    let manifest = bytes_of(parts.next(), &mut room);
    let work = &mut work[..memory];
    let word = match types {
        None => library::rigbanut_why(manifest, device, kind, title, attribute, label, work),
        Some(types) => library::rigbanut_why_with_types(
            types, manifest, device, kind, title, attribute, label, work,
        ),
    };
    write_explanation(rt, word);
}

// ---- Answers. Where one cannot be written nobody is told, and the run goes on.

// What is refused: the number of the reason, and the place.
#[derive(Clone, Copy)]
struct Refused {
    number: u64,
    place: u64,
}

// A refusal's word is number * 2^32 + place; any other is a word of what was accepted.
fn accepted(word: u64) -> Result<u64, Refused> {
    if word < 4294967296 {
        return Ok(word);
    }
    Err(Refused {
        number: word / 4294967296,
        place: word % 4294967296,
    })
}

// Two numbers at the end of an answer. Each part is a write of its own, so that one which fails takes no other part with it.
fn write_numbers(rt: &impl Print, first: u64, second: u64) {
    let _ = print!(rt; "{first}");
    let _ = rt.write_all(b" ");
    let _ = print!(rt; "{second}");
    let _ = rt.write_all(b"\n");
}

fn write_refused(rt: &impl Print, refused: Refused) {
    let _ = rt.write_all(b"refused ");
    write_numbers(rt, refused.number, refused.place);
}

// Among them: part * 65536 + place. Not among them: 0.
fn write_explanation(rt: &impl Print, word: u64) {
    match accepted(word) {
        Ok(0) => {
            let _ = println!(rt; "not among");
        }
        Ok(among) => {
            let _ = rt.write_all(b"among ");
            write_numbers(rt, among / 65536, among % 65536);
        }
        Err(refused) => write_refused(rt, refused),
    }
}

// Accepted: the length.
fn write_text(rt: &impl Print, word: u64, out: &[u8]) {
    match accepted(word) {
        Ok(length) => {
            let _ = print!(rt; "ok");
            write_bytes(rt, length as usize, out);
        }
        Err(refused) => write_refused(rt, refused),
    }
}

// Accepted: steps * 65536 + length.
fn write_catalog(rt: &impl Print, word: u64, out: &[u8]) {
    match accepted(word) {
        Ok(made) => {
            let _ = rt.write_all(b"ok ");
            let _ = print!(rt; "{}", made / 65536);
            write_bytes(rt, (made % 65536) as usize, out);
        }
        Err(refused) => write_refused(rt, refused),
    }
}

// The last part of an answer, with the space before it.
fn write_bytes(rt: &impl Print, length: usize, out: &[u8]) {
    if length == 0 {
        let _ = println!(rt; " -");
        return;
    }
    let mut digits = [0u8; 140000];
    let count = put_hex(&mut digits, out, length);
    let _ = rt.write_all(b" ");
    let _ = rt.write_all(&digits[..count]);
    let _ = rt.write_all(b"\n");
}
