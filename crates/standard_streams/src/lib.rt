// A program's standard input, read as a line and what follows it or as a whole, and its standard output, with a count of what was written.
#![tactic(auto)]

ghost use Rattle.std.specs.Prelude.{◌≡◌, List, ℕ, ◌+◌, ◌<◌, length, take, IfOk, OnOk};
ghost use Rattle.std.specs.ControlFlow.{MatchControlFlow};
ghost use Rattle.input.specs.Reading.{reading, reading_of};
ghost use Rattle.standard_streams.specs.Reading.{Holds};

use input::Progress;
use std::fmt::{self, Write};
use std::io::{self, Input, Read};
use std::ops::ControlFlow;
use std::str;

// How many pieces of input are read at most: enough for 4 GiB that come byte by byte.
const MOST_PIECES: u64 = 4294967296;

// Why an input was not read: it does not fit its buffer, or reading failed, of which standard error was told.
#[derive(Clone, Copy, Debug, PartialEq, Eq)]
pub enum NotRead {
    TooLong,
    Failed,
}

// A text could not be written; standard error was told why.
#[derive(Clone, Copy, Debug, PartialEq, Eq)]
pub struct NotSent;

// ---- Bytes

// The first `n` bytes, or all.
pub fn first(bytes: &[u8], n: usize) -> &[u8]
    ensures { result.now ≡ take n bytes.now }
{
    if bytes.len() <= n {
        return bytes;
    }
    &bytes[..n]
}

// ---- Messages

// The start of a message, as much as there is room for.
#[derive(Drop)]
struct Message {
    bytes: [u8; 256],
    length: usize,
}

impl fmt::Write for Message {
    fn write_str(&mut self, text: &str) -> fmt::Result {
        for byte in text.as_bytes() {
            if self.length < 256 {
                self.bytes[self.length] = *byte;
                self.length += 1;
            }
        }
        Ok(())
    }
}

// The system's words for an error, without the number behind them.
fn without_number(text: &str) -> &str {
    match text.split_once(" (os error ") {
        Some((words, _)) => words,
        None => text,
    }
}

// Tells on standard error why a stream failed. Where standard error fails too nobody is told.
fn tell(rt: &impl Eprint, stream: &str, error: io::Error) {
    let mut message = Message {
        bytes: [0u8; 256],
        length: 0,
    };
    let _ = write!(message, "{error}");
    let text = str::from_utf8(first(&message.bytes, message.length)).unwrap_or("");
    let _ = eprintln!(rt; "{stream}: {}", without_number(text));
}

// ---- Reading

fn unread(rt: &impl Eprint, error: io::Error) -> NotRead {
    tell(rt, "standard input", error);
    NotRead::Failed
}

// Reads one piece of the input, and tells whether there may be more.
fn read_piece<R: Eprint>(
    rt: &R,
    source: &mut impl Read,
    at: Progress,
    line: &mut [u8],
    rest: &mut [u8],
) -> Result<ControlFlow<Progress, Progress>, NotRead>
    ensures { (d m input : List ℕ) → reading at line.old rest.old ≡ reading_of d m input → IfOk result (λ step. MatchControlFlow step (Holds d m line.new rest.new) (Holds d m line.new rest.new)) }
{
    let mut piece = [0u8; 4096];
    let n = source.read(&mut piece).map_err(|error| unread(rt, error))?;
    if n == 0 {
        return Ok(ControlFlow::Break(at));
    }
    let next = input::feed(&piece[..n], at, line, rest);
    if input::is_full(next) {
        return Ok(ControlFlow::Break(next));
    }
    Ok(ControlFlow::Continue(next))
}

// Reads the first line and the rest, to the input's end or until what follows makes no difference.
pub fn read_all<R: Input + Eprint>(
    rt: &R,
    line: &mut [u8],
    rest: &mut [u8],
) -> Result<Progress, NotRead>
    ensures { IfOk result (Holds line.old rest.old line.new rest.new) }
{
    let mut source = rt.reader();
    let mut at = input::start();
    for _ in 0..MOST_PIECES {
        match read_piece(rt, &mut source, at, line, rest)? {
            ControlFlow::Break(all) => return Ok(all),
            ControlFlow::Continue(more) => at = more,
        }
    }
    let _ = eprintln!(rt; "standard input: too many pieces");
    Err(NotRead::Failed)
}

// Reads all of standard input into the buffer, if it is shorter than that, and answers how many bytes it has.
pub fn read_whole<R: Input + Eprint>(rt: &R, buffer: &mut [u8]) -> Result<usize, NotRead> {
    let mut source = rt.reader();
    let mut kept: usize = 0;
    while kept < buffer.len() {
        match source.read(&mut buffer[kept..]) {
            Err(error) => return Err(unread(rt, error)),
            Ok(0) => return Ok(kept),
            Ok(more) => kept += more,
        }
    }
    Err(NotRead::TooLong)
}

// ---- Writing

fn unsent(rt: &impl Eprint, error: io::Error) -> NotSent {
    tell(rt, "standard output", error);
    NotSent
}

// Writes a text out and counts its bytes, or tells on standard error that it cannot.
pub fn send<R: Print + Eprint>(rt: &R, text: &[u8], sent: &mut u64) -> Result<(), NotSent>
    requires { sent.old + length text.now < 18446744073709551616 }
    ensures { OnOk result (sent.new ≡ sent.old + length text.now) }
{
    rt.write_all(text).map_err(|error| unsent(rt, error))?;
    *sent += text.len() as u64;
    Ok(())
}
