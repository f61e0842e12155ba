// The whole table: the row of a symbol and a kind, and what is left out.
ghost use Rattle.std.specs.Prelude.{◌≡◌, ◌≤◌, ◌<◌};
ghost use Rattle.notation.specs.Grammar.{row_of, left_out};
ghost use Rattle.parse_table.specs.Codes.{symbol_of, row_in, left_out_in};

use crate::actions::{
    BEGIN_ARM, BEGIN_ATTRIBUTE, BEGIN_BLOCK, BEGIN_BRANCH, BEGIN_PARAMETER, CLOSE, CONSTANT,
    EMPTY_BLOCK, EMPTY_DEFAULT, INSTEAD, LEAVE, NAMED, NONE, PARENT_FIRST, SECOND,
};
use crate::expressions::{operand_row, operator_row};
use crate::rows::{NO_SYMBOLS, Row, constant_row, only, pattern_row};
use crate::statements::{class_row, device_row, devices_row, items_row, statements_row};
use crate::symbols::{
    A_NAME, BLOCK, BRANCHES, CLASS_REST, CLOSE_BRACKET, DEFAULT_VALUE, DEVICE, DEVICES, ENDS,
    EXPRESSION, FURTHER_ARM, FURTHER_ATTRIBUTE, FURTHER_PARAMETER, INHERITS, ITEMS, MAYBE_ARM,
    MAYBE_ATTRIBUTE, MAYBE_PARAMETER, MORE_DEVICES, ONE_ARM, ONE_ATTRIBUTE, ONE_PARAMETER,
    OPERATORS, OTHERWISE, PARAMETERS, PARENT, READ_OR_WORD, STATEMENTS,
};
use notation::kinds::{
    A_VARIABLE, A_WORD, COMMA, ELSE_WORD, EQUALS, INHERITS_WORD, LEFT_BRACE, LEFT_ROUND,
    LEFT_SQUARE, RIGHT_ROUND,
};

// The symbols of a row are read from left to right. Behind a type: expression 1, ], [, a name, ], ends
const ATTRIBUTE_READ: u64 = 0x31_0c_0b_25_0c_3e;

// statements, }, ends
const IN_BLOCK: u64 = 0x2a_08_3e;

const A_BLOCK: u64 = 0x28;

// :, block, ends, branches
const BRANCH: u64 = 0x0d_28_3e_2b;

// perhaps a parameter, )
const IN_BRACKETS: u64 = 0x44_0a;

const A_CONSTANT: u64 = 0x30;

const A_PARENT: u64 = 0x3a;

const A_DEVICE: u64 = 0x3c;

// =>, expression 1, ends, and what follows an entry
const ARM: u64 = 0x0f_31_3e_45;

const ATTRIBUTE: u64 = 0x0f_31_3e_46;

// a default value, ends, and what follows a parameter
const PARAMETER: u64 = 0x2f_3e_47;

// perhaps another entry
const OTHER_ARM: u64 = 0x42;

const OTHER_ATTRIBUTE: u64 = 0x43;

const OTHER_PARAMETER: u64 = 0x44;

const DEFAULT_BRANCH: u32 = BEGIN_BRANCH + SECOND * EMPTY_DEFAULT;

const CONSTANT_BRANCH: u32 = BEGIN_BRANCH + SECOND * CONSTANT;

const DEFAULT_ARM: u32 = BEGIN_ARM + SECOND * EMPTY_DEFAULT;

const CONSTANT_ARM: u32 = BEGIN_ARM + SECOND * CONSTANT;

const NAMED_ATTRIBUTE: u32 = BEGIN_ATTRIBUTE + SECOND * NAMED;

const NAMED_PARAMETER: u32 = BEGIN_PARAMETER + SECOND * NAMED;

// The symbols from a_name to a_constant, which is the last one.
fn lower_row(symbol: u8, kind: u8) -> Option<Row>
    requires { (0x25 ≤ symbol) × (symbol < 0x31) }
    ensures { row_in result ≡ row_of (symbol_of symbol) kind }
{
    match symbol {
        A_NAME => only(A_WORD, kind, NAMED, NO_SYMBOLS),
        READ_OR_WORD => only(LEFT_SQUARE, kind, INSTEAD, ATTRIBUTE_READ),
        CLOSE_BRACKET => only(RIGHT_ROUND, kind, LEAVE, NO_SYMBOLS),
        BLOCK => only(LEFT_BRACE, kind, BEGIN_BLOCK, IN_BLOCK),
        OTHERWISE => only(ELSE_WORD, kind, NONE, A_BLOCK),
        STATEMENTS => statements_row(kind),
        BRANCHES => pattern_row(kind, DEFAULT_BRANCH, CONSTANT_BRANCH, BRANCH),
        ITEMS => items_row(kind),
        CLASS_REST => class_row(kind),
        PARAMETERS => only(LEFT_ROUND, kind, NONE, IN_BRACKETS),
        DEFAULT_VALUE => only(EQUALS, kind, NONE, A_CONSTANT),
        _ => constant_row(kind, CONSTANT, NO_SYMBOLS),
    }
}

// The symbols from inherits on. The field that ends takes nothing.
fn upper_row(symbol: u8, kind: u8) -> Option<Row>
    requires { (0x39 ≤ symbol) × (symbol < 0x48) }
    ensures { row_in result ≡ row_of (symbol_of symbol) kind }
{
    match symbol {
        INHERITS => only(INHERITS_WORD, kind, NONE, A_PARENT),
        PARENT => only(A_WORD, kind, PARENT_FIRST, NO_SYMBOLS),
        DEVICES => devices_row(kind),
        DEVICE => device_row(kind),
        MORE_DEVICES => only(COMMA, kind, NONE, A_DEVICE),
        ONE_ARM => pattern_row(kind, DEFAULT_ARM, CONSTANT_ARM, ARM),
        MAYBE_ARM => pattern_row(kind, DEFAULT_ARM, CONSTANT_ARM, ARM),
        ONE_ATTRIBUTE => only(A_WORD, kind, NAMED_ATTRIBUTE, ATTRIBUTE),
        MAYBE_ATTRIBUTE => only(A_WORD, kind, NAMED_ATTRIBUTE, ATTRIBUTE),
        ONE_PARAMETER => only(A_VARIABLE, kind, NAMED_PARAMETER, PARAMETER),
        MAYBE_PARAMETER => only(A_VARIABLE, kind, NAMED_PARAMETER, PARAMETER),
        FURTHER_ARM => only(COMMA, kind, NONE, OTHER_ARM),
        FURTHER_ATTRIBUTE => only(COMMA, kind, NONE, OTHER_ATTRIBUTE),
        FURTHER_PARAMETER => only(COMMA, kind, NONE, OTHER_PARAMETER),
        _ => None,
    }
}

// What the symbol on top makes of a token of this kind.
pub fn row(symbol: u8, kind: u8) -> Option<Row>
    ensures { row_in result ≡ row_of (symbol_of symbol) kind }
{
    if symbol < A_NAME {
        return only(symbol, kind, NONE, NO_SYMBOLS);
    }
    if symbol < EXPRESSION {
        return lower_row(symbol, kind);
    }
    if symbol < INHERITS {
        return operand_row(symbol, kind);
    }
    if symbol < OPERATORS {
        return upper_row(symbol, kind);
    }
    operator_row(symbol, kind)
}

// The actions that are done where the symbol is left out; none if it may not be.
pub fn left_out(symbol: u8) -> Option<u32>
    ensures { left_out_in result ≡ left_out (symbol_of symbol) }
{
    if OPERATORS <= symbol {
        return Some(NONE);
    }
    match symbol {
        OTHERWISE => Some(EMPTY_BLOCK),
        ENDS => Some(CLOSE),
        READ_OR_WORD => Some(NONE),
        PARAMETERS => Some(NONE),
        DEFAULT_VALUE => Some(NONE),
        INHERITS => Some(NONE),
        MORE_DEVICES => Some(NONE),
        STATEMENTS => Some(NONE),
        BRANCHES => Some(NONE),
        ITEMS => Some(NONE),
        MAYBE_ARM => Some(NONE),
        MAYBE_ATTRIBUTE => Some(NONE),
        MAYBE_PARAMETER => Some(NONE),
        FURTHER_ARM => Some(NONE),
        FURTHER_ATTRIBUTE => Some(NONE),
        FURTHER_PARAMETER => Some(NONE),
        _ => None,
    }
}
