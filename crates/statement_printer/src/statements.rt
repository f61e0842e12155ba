// Statements with blocks. A form has `depth` levels left.
ghost use Rattle.std.specs.Prelude.{◌≤◌};
ghost use Rattle.wire.specs.Bytes.{fields_in};
ghost use Rattle.rules.specs.Compile.{string_at};
ghost use Rattle.rules.specs.declared.Kind.TheVariants.{Statement, Block, Branch};
ghost use Rattle.places.specs.At.{statement_at, block_at, branches_at, StandsAs, Siblings};
ghost use Rattle.syntax.specs.Strings.{string_texts};
ghost use Rattle.notation.specs.Print.{in_braces, printed_else, printed_statement, printed_block, printed_branches};
ghost use Rattle.statement_printer.specs.Passing.{Source, Passes};
ghost use Rattle.statement_printer.specs.Forms.{StatementHere, BranchPasses};

use crate::constants::{first_label, write_pattern};
use crate::expressions::expression;
use crate::plain::{assignment, class_with_attributes, include, resource};
use crate::tokens::write_mark;
use notation::kinds::{CASE_WORD, COLON, ELSE_WORD, IF_WORD, LEFT_BRACE, RIGHT_BRACE};
use printable::Manifest;
use token_writer::Pen;
use wire::{byte_at, end_of};

// The statements of a block, each on the line of its first constant.
#[cycle(block_branch_branches_choice_conditional_in_braces_otherwise_statement)]
pub fn block(m: Manifest<'_>, depth: u8, p: usize, out: &mut [u8], pen: Pen) -> Pen
    requires { (Source m.bytes.now m.table.now m.strings) × (StandsAs m.bytes.now depth Block p) }
    ensures { Passes out.old out.new pen result (printed_block (string_at (string_texts m.entry.bytes.now)) (block_at m.entry.bytes.now depth p) pen.line) }
{
    let end = end_of(m.bytes, p);
    let mut at = pen;
    for q in wire::fields_in(m.bytes, p + 3, end) {
        let line = first_label(m.bytes, q, end_of(m.bytes, q), at.line);
        at = statement(m, depth - 1, q, line, out, at);
    }
    at
}

// The block at p, in braces.
#[cycle(block_branch_branches_choice_conditional_in_braces_otherwise_statement)]
pub fn in_braces(m: Manifest<'_>, depth: u8, p: usize, out: &mut [u8], pen: Pen) -> Pen
    requires { (Source m.bytes.now m.table.now m.strings) × (StandsAs m.bytes.now depth Block p) }
    ensures { Passes out.old out.new pen result (in_braces (string_at (string_texts m.entry.bytes.now)) (block_at m.entry.bytes.now depth p) pen.line) }
{
    let open = write_mark(out, pen, pen.line, LEFT_BRACE);
    let inside = block(m, depth, p, out, open);
    write_mark(out, inside, inside.line, RIGHT_BRACE)
}

// Else and a block in braces, where there is a statement in it.
#[cycle(block_branch_branches_choice_conditional_in_braces_otherwise_statement)]
fn otherwise(m: Manifest<'_>, depth: u8, p: usize, out: &mut [u8], pen: Pen) -> Pen
    requires { (Source m.bytes.now m.table.now m.strings) × (StandsAs m.bytes.now depth Block p) }
    ensures { Passes out.old out.new pen result (printed_else (block_at m.entry.bytes.now depth p) (printed_block (string_at (string_texts m.entry.bytes.now)) (block_at m.entry.bytes.now depth p)) pen.line) }
{
    if end_of(m.bytes, p) <= p + 3 {
        return pen;
    }
    let word = write_mark(out, pen, pen.line, ELSE_WORD);
    in_braces(m, depth, p, out, word)
}

#[cycle(block_branch_branches_choice_conditional_in_braces_otherwise_statement)]
fn conditional(m: Manifest<'_>, depth: u8, p: usize, line: u8, out: &mut [u8], pen: Pen) -> Pen
    requires { StatementHere m.bytes.now m.table.now m.strings depth p 0x22 }
    ensures { Passes out.old out.new pen result (printed_statement (string_at (string_texts m.entry.bytes.now)) (statement_at m.entry.bytes.now depth p) line) }
{
    let below = depth - 1;
    let word = write_mark(out, pen, line, IF_WORD);
    let condition = expression(m, below, p + 3, 1, out, word);
    let first = end_of(m.bytes, p + 3);
    let taken = in_braces(m, below, first, out, condition);
    otherwise(m, below, end_of(m.bytes, first), out, taken)
}

// The branch at q: its pattern, then its block in braces.
#[cycle(block_branch_branches_choice_conditional_in_braces_otherwise_statement)]
fn branch(m: Manifest<'_>, depth: u8, q: usize, out: &mut [u8], pen: Pen) -> Pen
    requires { (Source m.bytes.now m.table.now m.strings) × (StandsAs m.bytes.now depth Branch q) }
    ensures { BranchPasses (string_at (string_texts m.entry.bytes.now)) m.entry.bytes.now depth q out.old out.new pen result }
{
    let pattern = write_pattern(m, q + 3, out, pen);
    let colon = write_mark(out, pattern, pattern.line, COLON);
    in_braces(m, depth - 1, end_of(m.bytes, q + 3), out, colon)
}

// The branches from `first` to `end`.
#[cycle(block_branch_branches_choice_conditional_in_braces_otherwise_statement)]
fn branches(m: Manifest<'_>, depth: u8, first: usize, end: usize, out: &mut [u8], pen: Pen) -> Pen
    requires { (Source m.bytes.now m.table.now m.strings) × (Siblings m.bytes.now depth Branch first end) × (end ≤ 65535) }
    ensures { Passes out.old out.new pen result (printed_branches (string_at (string_texts m.entry.bytes.now)) (branches_at m.entry.bytes.now depth (fields_in m.entry.bytes.now first end)) pen.line) }
{
    let mut at = pen;
    for q in wire::fields_in(m.bytes, first, end) {
        at = branch(m, depth, q, out, at);
    }
    at
}

#[cycle(block_branch_branches_choice_conditional_in_braces_otherwise_statement)]
fn choice(m: Manifest<'_>, depth: u8, p: usize, line: u8, out: &mut [u8], pen: Pen) -> Pen
    requires { StatementHere m.bytes.now m.table.now m.strings depth p 0x23 }
    ensures { Passes out.old out.new pen result (printed_statement (string_at (string_texts m.entry.bytes.now)) (statement_at m.entry.bytes.now depth p) line) }
{
    let below = depth - 1;
    let word = write_mark(out, pen, line, CASE_WORD);
    let value = expression(m, below, p + 3, 1, out, word);
    let open = write_mark(out, value, value.line, LEFT_BRACE);
    let all = branches(
        m,
        below,
        end_of(m.bytes, p + 3),
        end_of(m.bytes, p),
        out,
        open,
    );
    write_mark(out, all, all.line, RIGHT_BRACE)
}

// The statement at p, which begins on the line given.
#[cycle(block_branch_branches_choice_conditional_in_braces_otherwise_statement)]
pub fn statement(m: Manifest<'_>, depth: u8, p: usize, line: u8, out: &mut [u8], pen: Pen) -> Pen
    requires { (Source m.bytes.now m.table.now m.strings) × (StandsAs m.bytes.now depth Statement p) }
    ensures { Passes out.old out.new pen result (printed_statement (string_at (string_texts m.entry.bytes.now)) (statement_at m.entry.bytes.now depth p) line) }
{
    match byte_at(m.bytes, p) {
        0x21 => assignment(m, depth, p, line, out, pen),
        0x22 => conditional(m, depth, p, line, out, pen),
        0x23 => choice(m, depth, p, line, out, pen),
        0x25 | 0x27 => resource(m, depth - 1, p, line, out, pen),
        0x28 => class_with_attributes(m, depth, p, line, out, pen),
        _ => include(m, depth, p, line, out, pen),
    }
}
