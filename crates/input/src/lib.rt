// Standard input, which comes in pieces, as a first line and the rest: the printer "reads the device name, a line feed, then the manifest".
#![tactic(auto)]

ghost use Rattle.std.specs.Prelude.{◌≡◌, List, [], ℕ, ◌+◌, min, length, drop};
ghost use Rattle.wire.specs.Runs.{over};
ghost use Rattle.rules.specs.Schedule.{before_feed};
ghost use Rattle.input.specs.Places.{place_of};
ghost use Rattle.input.specs.Reading.{reading, reading_of, is_full, Fed};

pub mod numbers; // numbers.rt: decimal numbers in a text

// How far the input is read: whether the line feed was met, and how many bytes of each part are kept.
#[derive(Clone, Copy)]
pub struct Progress {
    pub met: bool,
    pub line: usize,
    pub rest: usize,
}

// Nothing is read yet.
pub fn start() -> Progress
    ensures { (line rest : List ℕ) → reading result line rest ≡ reading_of line rest [] }
{
    Progress {
        met: false,
        line: 0,
        rest: 0,
    }
}

// Where a byte stands first; the length if it is not there.
pub fn place_of(bytes: &[u8], wanted: u8) -> usize
    ensures { result ≡ place_of wanted bytes.now }
{
    let place = bytes.iter().position(|byte| *byte == wanted);
    place.unwrap_or(bytes.len())
}

// Where the line feed stands; the piece's length if there is none.
pub fn feed_place(piece: &[u8]) -> usize
    ensures { result ≡ length (before_feed piece.now) }
{
    place_of(piece, b'\n')
}

// What follows the first `count` bytes.
pub fn past(bytes: &[u8], count: usize) -> &[u8]
    ensures { result.now ≡ drop count bytes.now }
{
    if bytes.len() <= count {
        return &bytes[0..0];
    }
    &bytes[count..]
}

// What follows the byte at `i`.
pub fn after(piece: &[u8], i: usize) -> &[u8]
    ensures { result.now ≡ drop (i + 1) piece.now }
{
    if piece.len() <= i {
        return &piece[0..0];
    }
    past(piece, i + 1)
}

// Puts the bytes after the first `kept` of a buffer, as many as fit, and returns how many are kept then.
fn keep(buffer: &mut [u8], kept: usize, bytes: &[u8]) -> usize
    ensures { (result ≡ min (length buffer.old) (kept + length bytes.now)) × (buffer.new ≡ over buffer.old kept bytes.now) }
{
    wire::copy_into(buffer, kept, bytes);
    let room = buffer.len();
    if room <= kept {
        return room;
    }
    if room - kept <= bytes.len() {
        return room;
    }
    kept + bytes.len()
}

// Takes one more piece of the input. What does not fit the buffers is dropped.
pub fn feed(piece: &[u8], at: Progress, line: &mut [u8], rest: &mut [u8]) -> Progress
    ensures { Fed piece.now (reading at line.old rest.old) (reading result line.new rest.new) }
{
    if at.met {
        let all = keep(rest, at.rest, piece);
        return Progress {
            met: true,
            line: at.line,
            rest: all,
        };
    }
    let e = feed_place(piece);
    let before = keep(line, at.line, &piece[..e]);
    let behind = keep(rest, at.rest, after(piece, e));
    Progress {
        met: e < piece.len(),
        line: before,
        rest: behind,
    }
}

// Whether 65,536 bytes of the rest are kept: a manifest or a text is too long then, whatever follows.
pub fn is_full(at: Progress) -> bool
    ensures { result ≡ is_full at }
{
    65536 <= at.rest
}
