// White space and comments.
ghost use Rattle.std.specs.Prelude.{◌≡◌, true, ◌+◌, ◌≤◌, ◌<◌, length, get_or};
ghost use Rattle.lexer.specs.Scanned.{CommentPart, CommentRun, is_gap, GapRun, Skipped};

use crate::Spot;
use crate::bytes::{is_gap, line_behind};

// Whether four bytes follow in the comment that goes on at `at`.
fn four_follow(text: &[u8], at: usize) -> bool
    requires { at ≤ length text.now }
    ensures { result ≡ true → CommentPart text.now at (at + 4) }
{
    if text.len() - at < 4 {
        return false;
    }
    let first = (text[at] == b'\n') | (text[at + 1] == b'\n');
    let last = (text[at + 2] == b'\n') | (text[at + 3] == b'\n');
    !(first | last)
}

// Passes a comment's bytes by fours as far as that goes: testing each by itself takes three times as long.
fn pass_fours(text: &[u8], at: usize) -> usize
    requires { at ≤ length text.now }
    ensures { CommentPart text.now at result }
{
    let mut i: usize = at;
    while four_follow(text, i) {
        i += 4;
    }
    i
}

// Where the comment that goes on at `at` ends: at a line feed, or at the end of the text.
fn comment_end(text: &[u8], at: usize) -> usize
    requires { at ≤ length text.now }
    ensures { CommentRun text.now at result }
{
    for i in pass_fours(text, at)..text.len() {
        if text[i] == b'\n' {
            return i;
        }
    }
    text.len()
}

// Behind the byte c of white space at `at`, or behind the comment that it begins.
fn gap_end(text: &[u8], at: usize, c: u8) -> usize
    requires { (at < length text.now) × (c ≡ get_or text.now at 0) × (is_gap c ≡ true) }
    ensures { GapRun text.now at result }
{
    if c == b'#' {
        return comment_end(text, at + 1);
    }
    at + 1
}

// Passes white space and comments.
pub fn skip(text: &[u8], from: Spot) -> Spot
    requires { (from.at ≤ length text.now) × (from.line ≤ from.at) }
    ensures { Skipped text.now from result }
{
    let mut at = from.at;
    let mut line = from.line;
    while at < text.len() {
        let c = text[at];
        if !is_gap(c) {
            return Spot { at: at, line: line };
        }
        line = line_behind(c, line);
        at = gap_end(text, at, c);
    }
    Spot { at: at, line: line }
}
