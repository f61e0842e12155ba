// What a field is, what its body begins with, and what follows that: a tag has all of it in one number, its line. From the lowest digit on: the size of
// the pieces (5 bits), what follows them (2), what a byte may be that is the first piece or the second (2 each), whether they are names (1 each),
// the size of the first piece (4), and from 2^32 on a bit for each kind of field that it is.
ghost use Rattle.std.specs.Prelude.{◌≡◌, ℕ, ◌≤◌, ◌<◌, length};
ghost use Rattle.rules.specs.Format.{form_of, allowed, head_size, length_right, bytes_right, names_right, piece_right, name_right};
ghost use Rattle.rules.specs.Check.{stride as stride_of};
ghost use Rattle.rules.specs.declared.Piece.{Piece};
ghost use Rattle.format.specs.Numbers.{byte_number, name_number, fields_follow, kind_from, line_number};

use crate::kinds::{
    ARM, ATTRIBUTE, BLOCK, BRANCH, CONSTANT, DEVICE, EXPRESSION, ITEM, PARAMETER, PARENT, PATTERN,
    STATEMENT, TABLE, TEXT,
};
use wire::{byte_at, two_at};

// What follows the pieces: any bytes up to 255 in all, or fields; without either, nothing.
const BYTES: u64 = 32;

const FIELDS: u64 = 64;

// What a byte may be: a boolean 0 or 1, an operator 0 to 6.
const A_BOOLEAN: u64 = 1;

const AN_OPERATOR: u64 = 2;

// The first piece.
const LABEL: u64 = 1 + 8192;

const NAME: u64 = 2 + 2048 + 2 * 8192;

const OPERATOR: u64 = 1 + 128 * AN_OPERATOR + 8192;

// The second piece.
const INTEGER: u64 = 8;

const BOOLEAN: u64 = 1 + 512 * A_BOOLEAN;

const OTHER_NAME: u64 = 2 + 4096;

// Of which kinds a field is. A constant is an expression and a pattern too, a statement an item.
const KIND: u64 = 4294967296;

const A_CONSTANT: u64 = KIND * ((1 << CONSTANT) + (1 << EXPRESSION) + (1 << PATTERN));

const AN_EXPRESSION: u64 = KIND * (1 << EXPRESSION);

const A_STATEMENT: u64 = KIND * ((1 << STATEMENT) + (1 << ITEM));

const AN_ITEM: u64 = KIND * (1 << ITEM);

const A_DEVICE: u64 = KIND * ((1 << 16) - (1 << DEVICE));

const NOTHING: u64 = 0;

const STRING_TABLE: u64 = KIND * (1 << TABLE) + FIELDS;

const STRING: u64 = KIND * (1 << TEXT) + BYTES;

const INTEGER_CONSTANT: u64 = A_CONSTANT + LABEL + INTEGER;

const STRING_CONSTANT: u64 = A_CONSTANT + LABEL + OTHER_NAME;

const BOOLEAN_CONSTANT: u64 = A_CONSTANT + LABEL + BOOLEAN;

const VARIABLE: u64 = AN_EXPRESSION + NAME;

const CLASS_VARIABLE: u64 = AN_EXPRESSION + NAME + OTHER_NAME;

const OPERATION: u64 = AN_EXPRESSION + OPERATOR + FIELDS;

const NOT: u64 = AN_EXPRESSION + FIELDS;

const ATTRIBUTE_READ: u64 = AN_EXPRESSION + NAME + OTHER_NAME + FIELDS;

const SELECTOR: u64 = AN_EXPRESSION + FIELDS;

const SELECTOR_ARM: u64 = KIND * (1 << ARM) + FIELDS;

const DEFAULT: u64 = KIND * (1 << PATTERN);

const STATEMENT_BLOCK: u64 = KIND * (1 << BLOCK) + FIELDS;

const ASSIGNMENT: u64 = A_STATEMENT + NAME + FIELDS;

const CONDITION: u64 = A_STATEMENT + FIELDS;

const CASE_BRANCH: u64 = KIND * (1 << BRANCH) + FIELDS;

const DECLARATION: u64 = A_STATEMENT + NAME + FIELDS;

const GIVEN_ATTRIBUTE: u64 = KIND * (1 << ATTRIBUTE) + NAME + FIELDS;

const INCLUDE: u64 = A_STATEMENT + NAME;

const NODE: u64 = AN_ITEM + FIELDS;

const DEVICE_NAME: u64 = A_DEVICE + NAME;

const DEFINITION: u64 = AN_ITEM + NAME + FIELDS;

const DEFINED_PARAMETER: u64 = KIND * (1 << PARAMETER) + NAME + FIELDS;

const PARENT_NAME: u64 = KIND * (1 << PARENT) + NAME;

// The lines of the string table and of a string.
fn string_line(tag: u8) -> u64
    requires { tag < 0x10 }
    ensures { result ≡ line_number tag }
{
    match tag {
        0x01 => STRING_TABLE,
        0x02 => STRING,
        _ => NOTHING,
    }
}

// The line of a tag. Each tag has an arm of its own, so that the back end makes a table of them, small enough to be read in place.
pub fn line_of(tag: u8) -> u64
    ensures { result ≡ line_number tag }
{
    if tag < 0x10 {
        return string_line(tag);
    }
    match tag {
        0x10 => INTEGER_CONSTANT,
        0x11 => STRING_CONSTANT,
        0x12 => BOOLEAN_CONSTANT,
        0x13 => VARIABLE,
        0x14 => VARIABLE,
        0x15 => CLASS_VARIABLE,
        0x16 => OPERATION,
        0x17 => NOT,
        0x18 => ATTRIBUTE_READ,
        0x19 => SELECTOR,
        0x1a => SELECTOR_ARM,
        0x1b => DEFAULT,
        0x20 => STATEMENT_BLOCK,
        0x21 => ASSIGNMENT,
        0x22 => CONDITION,
        0x23 => CONDITION,
        0x24 => CASE_BRANCH,
        0x25 => DECLARATION,
        0x26 => GIVEN_ATTRIBUTE,
        0x27 => DECLARATION,
        0x28 => DECLARATION,
        0x29 => INCLUDE,
        0x30 => NODE,
        0x31 => DEVICE_NAME,
        0x32 => DEFINITION,
        0x33 => DEFINED_PARAMETER,
        0x34 => DEFINITION,
        0x35 => PARENT_NAME,
        _ => NOTHING,
    }
}

// Whether a field with this line is of this kind.
pub fn allows(line: u64, kind: u64) -> bool
    requires { kind < 16 }
    ensures { (t : ℕ) → line ≡ line_number t → result ≡ allowed (kind_from kind) t }
{
    (line / KIND >> kind) % 2 == 1
}

// The bytes of the pieces.
pub fn head_size(line: u64) -> u16
    ensures { (t : ℕ) → line ≡ line_number t → result ≡ head_size (form_of t) }
{
    (line % 32) as u16
}

// Whether fields follow the pieces.
pub fn has_fields(line: u64) -> bool
    ensures { (t : ℕ) → line ≡ line_number t → result ≡ fields_follow (form_of t).rest }
{
    line / 32 % 4 * 32 == FIELDS
}

// Whether the length that a header shows can be right.
pub fn length_right(line: u64, len: u16) -> bool
    ensures { (t : ℕ) → line ≡ line_number t → result ≡ length_right (form_of t) len }
{
    match line / 32 % 4 * 32 {
        FIELDS => true,
        BYTES => len <= 255,
        _ => len == head_size(line),
    }
}

// From a field's pieces to the next field in reading order: into its fields, or past its end.
pub fn stride(line: u64, len: u16) -> u16
    ensures { (t : ℕ) → line ≡ line_number t → result ≡ stride_of (form_of t).rest (head_size (form_of t)) len }
{
    if has_fields(line) {
        head_size(line)
    } else {
        len
    }
}

fn byte_right(m: &[u8], q: usize, check: u64) -> bool
    ensures { (x : Piece) → check ≡ byte_number x → result ≡ piece_right m.now q x }
{
    match check {
        A_BOOLEAN => byte_at(m, q) <= 1,
        AN_OPERATOR => byte_at(m, q) <= 6,
        _ => true,
    }
}

// Whether the pieces of the field at `p` are right. Most have no byte to check.
pub fn bytes_right(m: &[u8], p: usize, line: u64) -> bool
    requires { p ≤ length m.now }
    ensures { (t : ℕ) → line ≡ line_number t → result ≡ bytes_right m.now p (form_of t) }
{
    if line / 128 % 16 == 0 {
        return true;
    }
    if !byte_right(m, p + 3, line / 128 % 4) {
        return false;
    }
    byte_right(m, p + 3 + (line / 8192 % 16) as usize, line / 512 % 4)
}

fn name_right(m: &[u8], strings: u16, q: usize, check: u64) -> bool
    ensures { (x : Piece) → check ≡ name_number x → result ≡ name_right m.now strings q x }
{
    match check {
        1 => two_at(m, q) < strings,
        _ => true,
    }
}

// Whether the names that the field at `p` begins with are among the strings.
pub fn names_right(m: &[u8], strings: u16, p: usize, line: u64) -> bool
    requires { p ≤ length m.now }
    ensures { (t : ℕ) → line ≡ line_number t → result ≡ names_right m.now strings p (form_of t) }
{
    if line / 2048 % 4 == 0 {
        return true;
    }
    if !name_right(m, strings, p + 3, line / 2048 % 2) {
        return false;
    }
    name_right(
        m,
        strings,
        p + 3 + (line / 8192 % 16) as usize,
        line / 4096 % 2,
    )
}
