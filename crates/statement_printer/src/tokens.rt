// One token more, unless the text is too long already.
ghost use Rattle.std.specs.Prelude.{◌≡◌, ◌∷◌, ◌≤◌, length};
ghost use Rattle.rules.specs.Compile.{string_at};
ghost use Rattle.syntax.specs.Strings.{string_texts};
ghost use Rattle.notation.specs.Tokens.{word, number, text, variable, top_variable, class_variable};
ghost use Rattle.notation.specs.Print.{at, the};
ghost use Rattle.token_writer.specs.Pens.{Ready, Put};
ghost use Rattle.statement_printer.specs.Passing.{Source, is_full, Passes};
ghost use Rattle.statement_printer.specs.Holding.{holding};

use notation::kinds::{A_QUALIFIED, A_TEXT, A_VARIABLE, A_WORD};
use printable::Manifest;
use syntax::strings::string_at;
use token_writer::{
    Pen, put_class_variable, put_mark, put_number, put_text, put_top_variable, put_variable,
    put_word,
};

// There are never more brackets than bytes; the second test saves every caller to show it.
pub fn is_full(pen: Pen) -> bool
    ensures { result ≡ is_full pen }
{
    if 65535 < pen.fill {
        return true;
    }
    65535 < pen.brackets
}

// A sign or a keyword.
pub fn write_mark(out: &mut [u8], pen: Pen, line: u8, kind: u8) -> Pen
    requires { (7 ≤ kind) × (kind ≤ 36) }
    ensures { Passes out.old out.new pen result (λ rest. the line kind ∷ rest line) }
{
    if is_full(pen) {
        return pen;
    }
    put_mark(out, pen, line, kind)
}

// A number in decimal digits.
pub fn write_number(out: &mut [u8], pen: Pen, line: u8, value: i64) -> Pen
    ensures { Passes out.old out.new pen result (λ rest. at line (number value) ∷ rest line) }
{
    if is_full(pen) {
        return pen;
    }
    put_number(out, pen, line, value)
}

// A token that holds the string given: a name, a string in single quotes, `$x` or `$::x`.
fn put_string(out: &mut [u8], pen: Pen, line: u8, string: &[u8], kind: u8) -> Pen
    requires { Ready pen × (length string.now ≤ 65535) }
    ensures { Put out.old out.new pen result line (holding kind string.now) }
{
    match kind {
        A_WORD => put_word(out, pen, line, string),
        A_TEXT => put_text(out, pen, line, string),
        A_VARIABLE => put_variable(out, pen, line, string),
        _ => put_top_variable(out, pen, line, string),
    }
}

// A token of this kind that holds a string, by its number in the table.
fn write_string(m: Manifest<'_>, out: &mut [u8], pen: Pen, line: u8, n: u16, kind: u8) -> Pen
    requires { Source m.bytes.now m.table.now m.strings }
    ensures { Passes out.old out.new pen result (λ rest. at line (holding kind (string_at (string_texts m.entry.bytes.now) n)) ∷ rest line) }
{
    if is_full(pen) {
        return pen;
    }
    put_string(
        out,
        pen,
        line,
        string_at(m.bytes, m.table, m.strings, n),
        kind,
    )
}

// A name.
pub fn write_word(m: Manifest<'_>, out: &mut [u8], pen: Pen, line: u8, n: u16) -> Pen
    requires { Source m.bytes.now m.table.now m.strings }
    ensures { Passes out.old out.new pen result (λ rest. at line (word (string_at (string_texts m.entry.bytes.now) n)) ∷ rest line) }
{
    write_string(m, out, pen, line, n, A_WORD)
}

// A string, in single quotes.
pub fn write_text(m: Manifest<'_>, out: &mut [u8], pen: Pen, line: u8, n: u16) -> Pen
    requires { Source m.bytes.now m.table.now m.strings }
    ensures { Passes out.old out.new pen result (λ rest. at line (text (string_at (string_texts m.entry.bytes.now) n)) ∷ rest line) }
{
    write_string(m, out, pen, line, n, A_TEXT)
}

// `$x`
pub fn write_variable(m: Manifest<'_>, out: &mut [u8], pen: Pen, line: u8, n: u16) -> Pen
    requires { Source m.bytes.now m.table.now m.strings }
    ensures { Passes out.old out.new pen result (λ rest. at line (variable (string_at (string_texts m.entry.bytes.now) n)) ∷ rest line) }
{
    write_string(m, out, pen, line, n, A_VARIABLE)
}

// `$::x`
pub fn write_top_variable(m: Manifest<'_>, out: &mut [u8], pen: Pen, line: u8, n: u16) -> Pen
    requires { Source m.bytes.now m.table.now m.strings }
    ensures { Passes out.old out.new pen result (λ rest. at line (top_variable (string_at (string_texts m.entry.bytes.now) n)) ∷ rest line) }
{
    write_string(m, out, pen, line, n, A_QUALIFIED)
}

// `$::a::x`
pub fn write_class_variable(
    m: Manifest<'_>,
    out: &mut [u8],
    pen: Pen,
    line: u8,
    class: u16,
    n: u16,
) -> Pen
    requires { Source m.bytes.now m.table.now m.strings }
    ensures { Passes out.old out.new pen result (λ rest. at line (class_variable (string_at (string_texts m.entry.bytes.now) class) (string_at (string_texts m.entry.bytes.now) n)) ∷ rest line) }
{
    if is_full(pen) {
        return pen;
    }
    let whose = string_at(m.bytes, m.table, m.strings, class);
    put_class_variable(
        out,
        pen,
        line,
        whose,
        string_at(m.bytes, m.table, m.strings, n),
    )
}
