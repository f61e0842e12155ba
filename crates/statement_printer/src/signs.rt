// Operators, brackets, commas and variables.
ghost use Rattle.std.specs.Prelude.{◌≡◌, ℕ, ◌≤◌, ◌<◌};
ghost use Rattle.wire.specs.Bytes.{byte};
ghost use Rattle.rules.specs.Read.{operator_from};
ghost use Rattle.rules.specs.Compile.{string_at};
ghost use Rattle.rules.specs.declared.Kind.TheVariants.{Expression};
ghost use Rattle.places.specs.At.{expression_at, StandsAs};
ghost use Rattle.syntax.specs.Strings.{string_texts};
ghost use Rattle.notation.specs.Print.{operator_kind, level_of, separated, printed};
ghost use Rattle.statement_printer.specs.Passing.{Source, Passes};
ghost use Rattle.statement_printer.specs.Brackets.{bracket};

use crate::tokens::{write_class_variable, write_mark, write_top_variable, write_variable};
use notation::kinds::{ABOVE, AND_WORD, COMMA, MINUS_SIGN, OR_WORD, PLUS_SIGN, SLASH, TWO_EQUALS};
use printable::Manifest;
use token_writer::Pen;
use wire::{byte_at, two_at};

pub fn operator_kind(op: u8) -> u8
    ensures { result ≡ operator_kind (operator_from op) }
{
    match op {
        0 => PLUS_SIGN,
        1 => MINUS_SIGN,
        2 => SLASH,
        3 => ABOVE,
        4 => TWO_EQUALS,
        5 => AND_WORD,
        _ => OR_WORD,
    }
}

// How tightly an operator binds.
pub fn level_of(op: u8) -> u8
    ensures { result ≡ level_of (operator_from op) }
{
    match op {
        0 => 6,
        1 => 6,
        2 => 7,
        3 => 4,
        4 => 5,
        5 => 2,
        _ => 1,
    }
}

// A bracket of this kind, unless the form binds tightly enough.
pub fn bracket(out: &mut [u8], pen: Pen, tight: bool, kind: u8) -> Pen
    requires { (7 ≤ kind) × (kind ≤ 36) }
    ensures { Passes out.old out.new pen result (bracket kind tight pen.line) }
{
    if tight {
        return pen;
    }
    write_mark(out, pen, pen.line, kind)
}

// A comma before every entry but the first.
pub fn separate(out: &mut [u8], pen: Pen, later: bool) -> Pen
    ensures { Passes out.old out.new pen result (λ rest. separated later pen.line (rest pen.line)) }
{
    if later {
        return write_mark(out, pen, pen.line, COMMA);
    }
    pen
}

// A variable: in its scope, in top, or in a class.
pub fn write_read(m: Manifest<'_>, p: usize, out: &mut [u8], pen: Pen) -> Pen
    requires { (Source m.bytes.now m.table.now m.strings) × (p ≤ 65535) }
    ensures { (d l : ℕ) → StandsAs m.entry.bytes.now d Expression p → 0x13 ≤ byte m.entry.bytes.now p → byte m.entry.bytes.now p < 0x16 → Passes out.old out.new pen result (printed (string_at (string_texts m.entry.bytes.now)) (expression_at m.entry.bytes.now d p) l pen.line) }
{
    let name = two_at(m.bytes, p + 3);
    match byte_at(m.bytes, p) {
        0x13 => write_variable(m, out, pen, pen.line, name),
        0x14 => write_top_variable(m, out, pen, pen.line, name),
        _ => write_class_variable(m, out, pen, pen.line, name, two_at(m.bytes, p + 5)),
    }
}
