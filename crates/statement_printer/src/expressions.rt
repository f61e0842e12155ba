// Expressions and their arms.
ghost use Rattle.std.specs.Prelude.{ℕ, ◌+◌, ◌≤◌, false};
ghost use Rattle.wire.specs.Bytes.{fields_in};
ghost use Rattle.rules.specs.Compile.{string_at};
ghost use Rattle.rules.specs.declared.Kind.TheVariants.{Expression, Arm};
ghost use Rattle.places.specs.At.{expression_at, arms_at, StandsAs, Siblings};
ghost use Rattle.syntax.specs.Strings.{string_texts};
ghost use Rattle.notation.specs.Print.{printed, printed_arms};
ghost use Rattle.statement_printer.specs.Passing.{Source, Passes};
ghost use Rattle.statement_printer.specs.Forms.{Here, ArmPasses};

use crate::constants::{write_constant, write_pattern};
use crate::signs::{bracket, level_of, operator_kind, separate, write_read};
use crate::tokens::{write_mark, write_word};
use notation::kinds::{
    ARROW, EXCLAMATION, LEFT_BRACE, LEFT_ROUND, LEFT_SQUARE, QUESTION, RIGHT_BRACE, RIGHT_ROUND,
    RIGHT_SQUARE,
};
use printable::Manifest;
use token_writer::Pen;
use wire::{byte_at, end_of, two_at};

// An operator between its operands. `below` is how many levels are left for them.
#[cycle(arm_arms_attribute_read_expression_negation_operation_selector)]
fn operation(m: Manifest<'_>, below: u8, p: usize, level: u8, out: &mut [u8], pen: Pen) -> Pen
    requires { Here m.bytes.now m.table.now m.strings (below + 1) p 0x16 }
    ensures { Passes out.old out.new pen result (printed (string_at (string_texts m.entry.bytes.now)) (expression_at m.entry.bytes.now (below + 1) p) level pen.line) }
{
    let op = byte_at(m.bytes, p + 3);
    let own = level_of(op);
    let tight = level <= own;
    let before = bracket(out, pen, tight, LEFT_ROUND);
    let left = expression(m, below, p + 4, own, out, before);
    let sign = write_mark(out, left, left.line, operator_kind(op));
    let right = expression(m, below, end_of(m.bytes, p + 4), own + 1, out, sign);
    bracket(out, right, tight, RIGHT_ROUND)
}

// Never in brackets, whatever the level.
#[cycle(arm_arms_attribute_read_expression_negation_operation_selector)]
fn negation(m: Manifest<'_>, below: u8, p: usize, out: &mut [u8], pen: Pen) -> Pen
    requires { Here m.bytes.now m.table.now m.strings (below + 1) p 0x17 }
    ensures { (l : ℕ) → Passes out.old out.new pen result (printed (string_at (string_texts m.entry.bytes.now)) (expression_at m.entry.bytes.now (below + 1) p) l pen.line) }
{
    let sign = write_mark(out, pen, pen.line, EXCLAMATION);
    expression(m, below, p + 3, 8, out, sign)
}

// Never in brackets, whatever the level.
#[cycle(arm_arms_attribute_read_expression_negation_operation_selector)]
fn attribute_read(m: Manifest<'_>, below: u8, p: usize, out: &mut [u8], pen: Pen) -> Pen
    requires { Here m.bytes.now m.table.now m.strings (below + 1) p 0x18 }
    ensures { (l : ℕ) → Passes out.old out.new pen result (printed (string_at (string_texts m.entry.bytes.now)) (expression_at m.entry.bytes.now (below + 1) p) l pen.line) }
{
    let kind = write_word(m, out, pen, pen.line, two_at(m.bytes, p + 3));
    let open = write_mark(out, kind, kind.line, LEFT_SQUARE);
    let title = expression(m, below, p + 7, 1, out, open);
    let close = write_mark(out, title, title.line, RIGHT_SQUARE);
    let again = write_mark(out, close, close.line, LEFT_SQUARE);
    let name = write_word(m, out, again, again.line, two_at(m.bytes, p + 5));
    write_mark(out, name, name.line, RIGHT_SQUARE)
}

// The arm at q, with a comma before it unless it is the first.
#[cycle(arm_arms_attribute_read_expression_negation_operation_selector)]
fn arm(m: Manifest<'_>, inner: u8, q: usize, later: bool, out: &mut [u8], pen: Pen) -> Pen
    requires { (Source m.bytes.now m.table.now m.strings) × (StandsAs m.bytes.now (inner + 1) Arm q) }
    ensures { ArmPasses (string_at (string_texts m.entry.bytes.now)) m.entry.bytes.now (inner + 1) q later out.old out.new pen result }
{
    let begun = separate(out, pen, later);
    let pattern = write_pattern(m, q + 3, out, begun);
    let sign = write_mark(out, pattern, pattern.line, ARROW);
    expression(m, inner, end_of(m.bytes, q + 3), 1, out, sign)
}

// The arms from `first` to `end`; an arm has one level more than what is in it.
#[cycle(arm_arms_attribute_read_expression_negation_operation_selector)]
fn arms(m: Manifest<'_>, inner: u8, first: usize, end: usize, out: &mut [u8], pen: Pen) -> Pen
    requires { (Source m.bytes.now m.table.now m.strings) × (Siblings m.bytes.now (inner + 1) Arm first end) × (end ≤ 65535) }
    ensures { Passes out.old out.new pen result (printed_arms (string_at (string_texts m.entry.bytes.now)) (arms_at m.entry.bytes.now (inner + 1) (fields_in m.entry.bytes.now first end)) false pen.line) }
{
    let mut at = pen;
    let mut later = false;
    for q in wire::fields_in(m.bytes, first, end) {
        at = arm(m, inner, q, later, out, at);
        later = true;
    }
    at
}

#[cycle(arm_arms_attribute_read_expression_negation_operation_selector)]
fn selector(m: Manifest<'_>, below: u8, p: usize, level: u8, out: &mut [u8], pen: Pen) -> Pen
    requires { Here m.bytes.now m.table.now m.strings (below + 1) p 0x19 }
    ensures { Passes out.old out.new pen result (printed (string_at (string_texts m.entry.bytes.now)) (expression_at m.entry.bytes.now (below + 1) p) level pen.line) }
{
    let tight = level <= 3;
    let before = bracket(out, pen, tight, LEFT_ROUND);
    let value = expression(m, below, p + 3, 3, out, before);
    let sign = write_mark(out, value, value.line, QUESTION);
    let open = write_mark(out, sign, sign.line, LEFT_BRACE);
    let all = arms(
        m,
        below - 1,
        end_of(m.bytes, p + 3),
        end_of(m.bytes, p),
        out,
        open,
    );
    let close = write_mark(out, all, all.line, RIGHT_BRACE);
    bracket(out, close, tight, RIGHT_ROUND)
}

// The expression at p, whose operators bind at `level` or tighter, or else stand in brackets. It has `depth` levels left.
#[cycle(arm_arms_attribute_read_expression_negation_operation_selector)]
pub fn expression(m: Manifest<'_>, depth: u8, p: usize, level: u8, out: &mut [u8], pen: Pen) -> Pen
    requires { (Source m.bytes.now m.table.now m.strings) × (StandsAs m.bytes.now depth Expression p) }
    ensures { Passes out.old out.new pen result (printed (string_at (string_texts m.entry.bytes.now)) (expression_at m.entry.bytes.now depth p) level pen.line) }
{
    let below = depth - 1;
    let tag = byte_at(m.bytes, p);
    if tag < 0x13 {
        return write_constant(m, p, out, pen);
    }
    if tag < 0x16 {
        return write_read(m, p, out, pen);
    }
    match tag {
        0x16 => operation(m, below, p, level, out, pen),
        0x17 => negation(m, below, p, out, pen),
        0x18 => attribute_read(m, below, p, out, pen),
        _ => selector(m, below, p, level, out, pen),
    }
}
