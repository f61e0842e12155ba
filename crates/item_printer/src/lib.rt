// Nodes, definitions of types and of classes, and the items of a manifest.
#![tactic(auto)]

ghost use Rattle.std.specs.Prelude.{◌≡◌, false, ℕ, ◌+◌, ◌≤◌, length};
ghost use Rattle.wire.specs.Bytes.{two, fields_in};
ghost use Rattle.rules.specs.Compile.{string_at};
ghost use Rattle.rules.specs.declared.Kind.{Kind};
ghost use Rattle.rules.specs.declared.Kind.TheVariants.{Parameter, Device, Item};
ghost use Rattle.places.specs.At.{parameter_at, parameters_at, parent_at, after_parent_at, names_at, item_at, items_at, StandsAs, Siblings};
ghost use Rattle.places.specs.Parts.{BlockEnds};
ghost use Rattle.syntax.specs.Strings.{string_texts};
ghost use Rattle.notation.specs.Print.{printed_entries, printed_parameter, printed_parameters, printed_parent, printed_device, printed_item, printed_items};
ghost use Rattle.statement_printer.specs.Passing.{Source, Passes};
ghost use Rattle.statement_printer.specs.Forms.{EntryPasses};
ghost use Rattle.item_printer.specs.Here.{ItemHere};

use notation::kinds::{
    CLASS_WORD, DEFAULT_WORD, DEFINE_WORD, EQUALS, INHERITS_WORD, LEFT_ROUND, NODE_WORD,
    RIGHT_ROUND,
};
use printable::Manifest;
use statement_printer::constants::{first_label, write_constant};
use statement_printer::signs::separate;
use statement_printer::statements::{in_braces, statement};
use statement_printer::tokens::{write_mark, write_text, write_variable, write_word};
use token_writer::Pen;
use wire::{byte_at, end_of, two_at};

// ---- Parameters

// The parameter at q, with a comma before it unless it is the first.
fn parameter(m: Manifest<'_>, q: usize, later: bool, out: &mut [u8], pen: Pen) -> Pen
    requires { (Source m.bytes.now m.table.now m.strings) × (StandsAs m.bytes.now 31 Parameter q) }
    ensures { EntryPasses (printed_parameter (string_at (string_texts m.entry.bytes.now))) (parameter_at m.entry.bytes.now q) later out.old out.new pen result }
{
    let begun = separate(out, pen, later);
    let end = end_of(m.bytes, q);
    let line = first_label(m.bytes, q + 5, end, pen.line);
    let name = write_variable(m, out, begun, line, two_at(m.bytes, q + 3));
    if end <= q + 5 {
        return name;
    }
    let sign = write_mark(out, name, name.line, EQUALS);
    write_constant(m, q + 5, out, sign)
}

fn parameters_in_order(m: Manifest<'_>, first: usize, end: usize, out: &mut [u8], pen: Pen) -> Pen
    requires { (Source m.bytes.now m.table.now m.strings) × (Siblings m.bytes.now 31 Parameter first end) × (end ≤ 65535) }
    ensures { Passes out.old out.new pen result (printed_entries (printed_parameter (string_at (string_texts m.entry.bytes.now))) (parameters_at m.entry.bytes.now (fields_in m.entry.bytes.now first end)) false pen.line) }
{
    let mut at = pen;
    let mut later = false;
    for q in wire::fields_in(m.bytes, first, end) {
        at = parameter(m, q, later, out, at);
        later = true;
    }
    at
}

// The parameters from `first` to `end`, in brackets if there are any.
fn parameters(m: Manifest<'_>, first: usize, end: usize, out: &mut [u8], pen: Pen) -> Pen
    requires { (Source m.bytes.now m.table.now m.strings) × (Siblings m.bytes.now 31 Parameter first end) × (end ≤ 65535) }
    ensures { Passes out.old out.new pen result (printed_parameters (string_at (string_texts m.entry.bytes.now)) (parameters_at m.entry.bytes.now (fields_in m.entry.bytes.now first end)) pen.line) }
{
    if end <= first {
        return pen;
    }
    let open = write_mark(out, pen, pen.line, LEFT_ROUND);
    let all = parameters_in_order(m, first, end, out, open);
    write_mark(out, all, all.line, RIGHT_ROUND)
}

// ---- Blocks

// The block that ends a node or a definition: the last field of those from `from` to `end`.
fn last_field(m: &[u8], from: usize, end: usize) -> usize
    requires { (from ≤ 65535) × (end ≤ 65535) }
    ensures { (k : Kind) (to : ℕ) → Siblings m.now 31 k from to → BlockEnds m.now 31 to end → result ≡ to }
{
    let mut q = from;
    let mut next = end_of(m, from);
    while next < end {
        q = next;
        next = end_of(m, q);
    }
    q
}

// ---- Nodes

// The device's name at q, with a comma before it unless it is the first.
fn device(m: Manifest<'_>, q: usize, later: bool, out: &mut [u8], pen: Pen) -> Pen
    requires { (Source m.bytes.now m.table.now m.strings) × (q ≤ 65535) }
    ensures { EntryPasses (printed_device (string_at (string_texts m.entry.bytes.now))) (two m.entry.bytes.now (q + 3)) later out.old out.new pen result }
{
    let begun = separate(out, pen, later);
    write_text(m, out, begun, pen.line, two_at(m.bytes, q + 3))
}

fn devices(m: Manifest<'_>, first: usize, end: usize, out: &mut [u8], pen: Pen) -> Pen
    requires { (Source m.bytes.now m.table.now m.strings) × (Siblings m.bytes.now 31 Device first end) × (end ≤ 65535) }
    ensures { Passes out.old out.new pen result (printed_entries (printed_device (string_at (string_texts m.entry.bytes.now))) (names_at m.entry.bytes.now (fields_in m.entry.bytes.now first end)) false pen.line) }
{
    let mut at = pen;
    let mut later = false;
    for q in wire::fields_in(m.bytes, first, end) {
        at = device(m, q, later, out, at);
        later = true;
    }
    at
}

fn node(m: Manifest<'_>, p: usize, line: u8, out: &mut [u8], pen: Pen) -> Pen
    requires { ItemHere m.bytes.now m.table.now m.strings p 0x30 }
    ensures { Passes out.old out.new pen result (printed_item (string_at (string_texts m.entry.bytes.now)) (item_at m.entry.bytes.now p) line) }
{
    let word = write_mark(out, pen, line, NODE_WORD);
    if byte_at(m.bytes, p + 3) == 0x1b {
        let every = write_mark(out, word, word.line, DEFAULT_WORD);
        return in_braces(m, 31, end_of(m.bytes, p + 3), out, every);
    }
    let body = last_field(m.bytes, p + 3, end_of(m.bytes, p));
    let names = devices(m, p + 3, body, out, word);
    in_braces(m, 31, body, out, names)
}

// ---- Definitions

fn type_definition(m: Manifest<'_>, p: usize, line: u8, out: &mut [u8], pen: Pen) -> Pen
    requires { ItemHere m.bytes.now m.table.now m.strings p 0x32 }
    ensures { Passes out.old out.new pen result (printed_item (string_at (string_texts m.entry.bytes.now)) (item_at m.entry.bytes.now p) line) }
{
    let word = write_mark(out, pen, line, DEFINE_WORD);
    let name = write_word(m, out, word, word.line, two_at(m.bytes, p + 3));
    let body = last_field(m.bytes, p + 5, end_of(m.bytes, p));
    let given = parameters(m, p + 5, body, out, name);
    in_braces(m, 31, body, out, given)
}

// Where the parameters of a class begin, if what follows its name is at q.
fn after_parent(m: &[u8], q: usize) -> usize
    requires { q ≤ 65535 }
    ensures { result ≡ after_parent_at m.now q }
{
    if byte_at(m, q) == 0x35 {
        return end_of(m, q);
    }
    q
}

// The parent of a class, if it has one.
fn parent(m: Manifest<'_>, q: usize, out: &mut [u8], pen: Pen) -> Pen
    requires { (Source m.bytes.now m.table.now m.strings) × (q ≤ 65535) }
    ensures { Passes out.old out.new pen result (printed_parent (string_at (string_texts m.entry.bytes.now)) (parent_at m.entry.bytes.now q) pen.line) }
{
    if byte_at(m.bytes, q) != 0x35 {
        return pen;
    }
    let word = write_mark(out, pen, pen.line, INHERITS_WORD);
    write_word(m, out, word, word.line, two_at(m.bytes, q + 3))
}

fn class_definition(m: Manifest<'_>, p: usize, line: u8, out: &mut [u8], pen: Pen) -> Pen
    requires { ItemHere m.bytes.now m.table.now m.strings p 0x34 }
    ensures { Passes out.old out.new pen result (printed_item (string_at (string_texts m.entry.bytes.now)) (item_at m.entry.bytes.now p) line) }
{
    let word = write_mark(out, pen, line, CLASS_WORD);
    let name = write_word(m, out, word, word.line, two_at(m.bytes, p + 3));
    let first = after_parent(m.bytes, p + 5);
    let body = last_field(m.bytes, first, end_of(m.bytes, p));
    let given = parameters(m, first, body, out, name);
    let above = parent(m, p + 5, out, given);
    in_braces(m, 31, body, out, above)
}

// ---- Items

// The item at p, which begins on the line given.
fn item(m: Manifest<'_>, p: usize, line: u8, out: &mut [u8], pen: Pen) -> Pen
    requires { (Source m.bytes.now m.table.now m.strings) × (StandsAs m.bytes.now 32 Item p) }
    ensures { Passes out.old out.new pen result (printed_item (string_at (string_texts m.entry.bytes.now)) (item_at m.entry.bytes.now p) line) }
{
    match byte_at(m.bytes, p) {
        0x30 => node(m, p, line, out, pen),
        0x32 => type_definition(m, p, line, out, pen),
        0x34 => class_definition(m, p, line, out, pen),
        _ => statement(m, 32, p, line, out, pen),
    }
}

// The items from `first` on, each on the line of its first constant.
pub fn items(m: Manifest<'_>, first: usize, out: &mut [u8], pen: Pen) -> Pen
    requires { (Source m.bytes.now m.table.now m.strings) × (Siblings m.bytes.now 32 Item first (length m.bytes.now)) }
    ensures { Passes out.old out.new pen result (printed_items (string_at (string_texts m.entry.bytes.now)) (items_at m.entry.bytes.now (fields_in m.entry.bytes.now first (length m.entry.bytes.now))) pen.line) }
{
    let mut at = pen;
    for p in wire::fields_in(m.bytes, first, m.bytes.len()) {
        let line = first_label(m.bytes, p, end_of(m.bytes, p), at.line);
        at = item(m, p, line, out, at);
    }
    at
}
