// Constants, patterns, and the line on which a form begins.
ghost use Rattle.std.specs.Prelude.{◌≡◌, ◌∷◌, ◌+◌, ◌≤◌, length};
ghost use Rattle.wire.specs.Bytes.{byte, end_of};
ghost use Rattle.rules.specs.Format.{is_constant};
ghost use Rattle.rules.specs.Compile.{string_at};
ghost use Rattle.places.specs.At.{constant_at};
ghost use Rattle.syntax.specs.Strings.{string_texts};
ghost use Rattle.notation.specs.Print.{constant_lexeme};
ghost use Rattle.statement_printer.specs.Passing.{Source, Passes};
ghost use Rattle.statement_printer.specs.Labels.{first_label, boolean_kind};
ghost use Rattle.statement_printer.specs.Patterns.{printed_pattern};

use crate::tokens::{write_mark, write_number, write_text};
use notation::kinds::{DEFAULT_WORD, FALSE_WORD, TRUE_WORD};
use printable::Manifest;
use printable::fields::next_place;
use token_writer::Pen;
use wire::{byte_at, byte_in, end_of, signed_at, two_at};

// The keyword of a boolean.
fn boolean_kind(b: u8) -> u8
    ensures { result ≡ boolean_kind b }
{
    if b == 1 { TRUE_WORD } else { FALSE_WORD }
}

// A constant, on the line that its label names.
pub fn write_constant(m: Manifest<'_>, p: usize, out: &mut [u8], pen: Pen) -> Pen
    requires { (Source m.bytes.now m.table.now m.strings) × (p ≤ 65535) }
    ensures { Passes out.old out.new pen result (λ rest. constant_lexeme (string_at (string_texts m.entry.bytes.now)) (constant_at m.entry.bytes.now p) ∷ rest (byte m.entry.bytes.now (p + 3))) }
{
    let label = byte_at(m.bytes, p + 3);
    match byte_at(m.bytes, p) {
        0x10 => write_number(out, pen, label, signed_at(m.bytes, p + 4)),
        0x11 => write_text(m, out, pen, label, two_at(m.bytes, p + 4)),
        _ => write_mark(out, pen, label, boolean_kind(byte_at(m.bytes, p + 4))),
    }
}

// Whether a field with this tag is a constant.
fn is_constant(tag: u8) -> bool
    ensures { result ≡ is_constant tag }
{
    if tag < 0x10 {
        return false;
    }
    tag <= 0x12
}

// The label of the first constant among the fields from `p` to `end` in reading order, or else the line at hand.
pub fn first_label(m: &[u8], p: usize, end: usize, line: u8) -> u8
    requires { (end ≤ length m.now) × (length m.now ≤ 65535) }
    ensures { result ≡ first_label m.now p end line }
{
    let mut q = p;
    while q < end {
        if is_constant(byte_in(m, q)) {
            return byte_at(m, q + 3);
        }
        q = next_place(m, q);
    }
    line
}

// A pattern: a constant, or `default` on the line on which the form behind it begins.
pub fn write_pattern(m: Manifest<'_>, p: usize, out: &mut [u8], pen: Pen) -> Pen
    requires { (Source m.bytes.now m.table.now m.strings) × (end_of m.bytes.now (end_of m.bytes.now p) ≤ length m.bytes.now) }
    ensures { Passes out.old out.new pen result (printed_pattern (string_at (string_texts m.entry.bytes.now)) m.entry.bytes.now p pen.line) }
{
    if byte_at(m.bytes, p) == 0x1b {
        let body = end_of(m.bytes, p);
        let line = first_label(m.bytes, body, end_of(m.bytes, body), pen.line);
        return write_mark(out, pen, line, DEFAULT_WORD);
    }
    write_constant(m, p, out, pen)
}
