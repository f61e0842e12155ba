// Statements without blocks. Each begins on the line given, and has `depth` levels left.
ghost use Rattle.std.specs.Prelude.{◌+◌, ◌≤◌};
ghost use Rattle.wire.specs.Bytes.{two, end_of, fields_in};
ghost use Rattle.rules.specs.Compile.{string_at};
ghost use Rattle.rules.specs.declared.Kind.TheVariants.{Attribute, Expression};
ghost use Rattle.places.specs.At.{expression_at, attributes_at, statement_at, StandsAs, Siblings};
ghost use Rattle.syntax.specs.Strings.{string_texts};
ghost use Rattle.notation.specs.Print.{printed_resource, printed_statement};
ghost use Rattle.statement_printer.specs.Passing.{Source, Passes};
ghost use Rattle.statement_printer.specs.Forms.{StatementHere};

use crate::attributes::attributes;
use crate::expressions::expression;
use crate::tokens::{write_mark, write_variable, write_word};
use notation::kinds::{CLASS_WORD, COLON, EQUALS, INCLUDE_WORD, LEFT_BRACE, RIGHT_BRACE};
use printable::Manifest;
use token_writer::Pen;
use wire::{end_of, two_at};

pub fn assignment(m: Manifest<'_>, depth: u8, p: usize, line: u8, out: &mut [u8], pen: Pen) -> Pen
    requires { StatementHere m.bytes.now m.table.now m.strings depth p 0x21 }
    ensures { Passes out.old out.new pen result (printed_statement (string_at (string_texts m.entry.bytes.now)) (statement_at m.entry.bytes.now depth p) line) }
{
    let name = write_variable(m, out, pen, line, two_at(m.bytes, p + 3));
    let sign = write_mark(out, name, name.line, EQUALS);
    expression(m, depth - 1, p + 5, 1, out, sign)
}

pub fn include(m: Manifest<'_>, depth: u8, p: usize, line: u8, out: &mut [u8], pen: Pen) -> Pen
    requires { StatementHere m.bytes.now m.table.now m.strings depth p 0x29 }
    ensures { Passes out.old out.new pen result (printed_statement (string_at (string_texts m.entry.bytes.now)) (statement_at m.entry.bytes.now depth p) line) }
{
    let word = write_mark(out, pen, line, INCLUDE_WORD);
    write_word(m, out, word, word.line, two_at(m.bytes, p + 3))
}

// Type, title and attributes; these have `below` levels left.
pub fn resource(m: Manifest<'_>, below: u8, p: usize, line: u8, out: &mut [u8], pen: Pen) -> Pen
    requires { (Source m.bytes.now m.table.now m.strings) × (StandsAs m.bytes.now below Expression (p + 5)) × (Siblings m.bytes.now below Attribute (end_of m.bytes.now (p + 5)) (end_of m.bytes.now p)) × (end_of m.bytes.now p ≤ 65535) }
    ensures { Passes out.old out.new pen result (printed_resource (string_at (string_texts m.entry.bytes.now)) (two m.entry.bytes.now (p + 3)) (expression_at m.entry.bytes.now below (p + 5)) (attributes_at m.entry.bytes.now below (fields_in m.entry.bytes.now (end_of m.entry.bytes.now (p + 5)) (end_of m.entry.bytes.now p))) line) }
{
    let kind = write_word(m, out, pen, line, two_at(m.bytes, p + 3));
    let open = write_mark(out, kind, kind.line, LEFT_BRACE);
    let title = expression(m, below, p + 5, 1, out, open);
    let colon = write_mark(out, title, title.line, COLON);
    let all = attributes(
        m,
        below,
        end_of(m.bytes, p + 5),
        end_of(m.bytes, p),
        out,
        colon,
    );
    write_mark(out, all, all.line, RIGHT_BRACE)
}

pub fn class_with_attributes(
    m: Manifest<'_>,
    depth: u8,
    p: usize,
    line: u8,
    out: &mut [u8],
    pen: Pen,
) -> Pen
    requires { StatementHere m.bytes.now m.table.now m.strings depth p 0x28 }
    ensures { Passes out.old out.new pen result (printed_statement (string_at (string_texts m.entry.bytes.now)) (statement_at m.entry.bytes.now depth p) line) }
{
    let word = write_mark(out, pen, line, CLASS_WORD);
    let open = write_mark(out, word, word.line, LEFT_BRACE);
    let name = write_word(m, out, open, open.line, two_at(m.bytes, p + 3));
    let colon = write_mark(out, name, name.line, COLON);
    let all = attributes(m, depth - 1, p + 5, end_of(m.bytes, p), out, colon);
    write_mark(out, all, all.line, RIGHT_BRACE)
}
