// Attributes of a resource or a class.
ghost use Rattle.std.specs.Prelude.{◌≤◌};
ghost use Rattle.wire.specs.Bytes.{fields_in};
ghost use Rattle.rules.specs.Compile.{string_at};
ghost use Rattle.rules.specs.declared.Kind.TheVariants.{Attribute};
ghost use Rattle.places.specs.At.{attribute_at, attributes_at, StandsAs, Siblings};
ghost use Rattle.syntax.specs.Strings.{string_texts};
ghost use Rattle.notation.specs.Print.{printed_attribute, printed_attributes};
ghost use Rattle.statement_printer.specs.Passing.{Source, Passes};
ghost use Rattle.statement_printer.specs.Forms.{EntryPasses};

use crate::constants::first_label;
use crate::expressions::expression;
use crate::signs::separate;
use crate::tokens::{write_mark, write_word};
use notation::kinds::ARROW;
use printable::Manifest;
use token_writer::Pen;
use wire::{end_of, two_at};

// The attribute at q, with a comma before it unless it is the first.
fn attribute(m: Manifest<'_>, depth: u8, q: usize, later: bool, out: &mut [u8], pen: Pen) -> Pen
    requires { (Source m.bytes.now m.table.now m.strings) × (StandsAs m.bytes.now depth Attribute q) }
    ensures { EntryPasses (printed_attribute (string_at (string_texts m.entry.bytes.now))) (attribute_at m.entry.bytes.now depth q) later out.old out.new pen result }
{
    let begun = separate(out, pen, later);
    let line = first_label(m.bytes, q + 5, end_of(m.bytes, q + 5), pen.line);
    let name = write_word(m, out, begun, line, two_at(m.bytes, q + 3));
    let sign = write_mark(out, name, name.line, ARROW);
    expression(m, depth - 1, q + 5, 1, out, sign)
}

// The attributes from `first` to `end`, each of which has `depth` levels left.
pub fn attributes(
    m: Manifest<'_>,
    depth: u8,
    first: usize,
    end: usize,
    out: &mut [u8],
    pen: Pen,
) -> Pen
    requires { (Source m.bytes.now m.table.now m.strings) × (Siblings m.bytes.now depth Attribute first end) × (end ≤ 65535) }
    ensures { Passes out.old out.new pen result (printed_attributes (string_at (string_texts m.entry.bytes.now)) (attributes_at m.entry.bytes.now depth (fields_in m.entry.bytes.now first end)) pen.line) }
{
    let mut at = pen;
    let mut later = false;
    for q in wire::fields_in(m.bytes, first, end) {
        at = attribute(m, depth, q, later, out, at);
        later = true;
    }
    at
}
