// The rows of statements and items. The symbols of a row are read from left to right.
ghost use Rattle.std.specs.Prelude.{◌≡◌, ◌<◌};
ghost use Rattle.notation.specs.Lexing.{find};
ghost use Rattle.notation.specs.Grammar.{statements, items, class_rest, devices, device, statement_rows, row_of};
ghost use Rattle.parse_table.specs.Codes.{symbol_of, row_in};

use crate::actions::{
    BEGIN_ASSIGNMENT, BEGIN_CASE, BEGIN_CLASS, BEGIN_DEFINE, BEGIN_DEFINITION, BEGIN_DEVICE,
    BEGIN_IF, BEGIN_INCLUDE, BEGIN_NODE, BEGIN_RESOURCE, CLOSE, EMPTY_DEFAULT, NAMED, NONE, SECOND,
    THIRD,
};
use crate::rows::{NO_SYMBOLS, Row, taken};
use notation::kinds::{
    A_TEXT, A_VARIABLE, A_WORD, CASE_WORD, CLASS_WORD, DEFAULT_WORD, DEFINE_WORD, IF_WORD,
    INCLUDE_WORD, LEFT_BRACE, LEFT_ROUND, NODE_WORD,
};

// Statements, whose last symbol is added. =, expression 1, ends
const VALUE: u64 = 0x17_31_3e_00;

// expression 1, block, otherwise, ends
const CONDITION_BLOCKS: u64 = 0x31_28_29_3e_00;

// expression 1, {, branches, }, ends
const VALUE_BRANCHES: u64 = 0x31_07_2b_08_3e_00;

// {, expression 1, :, perhaps an attribute, }, ends
const TITLE_ATTRIBUTES: u64 = 0x07_31_0d_43_08_3e_00;

// a name, ends
const CLASS_NAME: u64 = 0x25_3e_00;

// In a block: {, a name, :, perhaps an attribute, }, ends, statements
const CLASS_ATTRIBUTES: u64 = 0x07_25_0d_43_08_3e_2a;

const STATEMENTS_FOLLOW: u64 = 0x2a;

// Among items: class_rest, items
const CLASS_ITEM: u64 = 0x2d_2c;

// devices, block, ends, items
const NODE_ITEM: u64 = 0x3b_28_3e_2c;

// a name, parameters, block, ends, items
const DEFINE_ITEM: u64 = 0x25_2e_28_3e_2c;

const ITEMS_FOLLOW: u64 = 0x2c;

// Behind class: a name, :, perhaps an attribute, }, ends
const BEHIND_BRACE: u64 = 0x25_0d_43_08_3e;

// parameters, inherits, block, ends
const BEHIND_NAME: u64 = 0x2e_39_28_3e;

// device, )
const DEVICES_IN_BRACKETS: u64 = 0x3c_0a;

const FURTHER_DEVICES: u64 = 0x3d;

const ASSIGNMENT: u32 = BEGIN_ASSIGNMENT + SECOND * NAMED;

const RESOURCE: u32 = BEGIN_RESOURCE + SECOND * NAMED;

const DEFINITION: u32 = BEGIN_DEFINITION + SECOND * NAMED;

const DEVICE_NAME: u32 = BEGIN_DEVICE + SECOND * NAMED + THIRD * CLOSE;

// A statement, and the symbol behind it.
fn statement_row(kind: u8, next: u64) -> Option<Row>
    requires { (0 < next) × (next < 256) }
    ensures { row_in result ≡ find kind (statement_rows (symbol_of next)) }
{
    match kind {
        A_VARIABLE => taken(ASSIGNMENT, VALUE + next),
        IF_WORD => taken(BEGIN_IF, CONDITION_BLOCKS + next),
        CASE_WORD => taken(BEGIN_CASE, VALUE_BRANCHES + next),
        A_WORD => taken(RESOURCE, TITLE_ATTRIBUTES + next),
        INCLUDE_WORD => taken(BEGIN_INCLUDE, CLASS_NAME + next),
        _ => None,
    }
}

pub fn statements_row(kind: u8) -> Option<Row>
    ensures { row_in result ≡ row_of statements kind }
{
    match kind {
        CLASS_WORD => taken(BEGIN_CLASS, CLASS_ATTRIBUTES),
        _ => statement_row(kind, STATEMENTS_FOLLOW),
    }
}

pub fn items_row(kind: u8) -> Option<Row>
    ensures { row_in result ≡ row_of items kind }
{
    match kind {
        CLASS_WORD => taken(NONE, CLASS_ITEM),
        NODE_WORD => taken(BEGIN_NODE, NODE_ITEM),
        DEFINE_WORD => taken(BEGIN_DEFINE, DEFINE_ITEM),
        _ => statement_row(kind, ITEMS_FOLLOW),
    }
}

// Behind class outside of blocks: a class with attributes, or a definition.
pub fn class_row(kind: u8) -> Option<Row>
    ensures { row_in result ≡ row_of class_rest kind }
{
    match kind {
        LEFT_BRACE => taken(BEGIN_CLASS, BEHIND_BRACE),
        A_WORD => taken(DEFINITION, BEHIND_NAME),
        _ => None,
    }
}

pub fn device_row(kind: u8) -> Option<Row>
    ensures { row_in result ≡ row_of device kind }
{
    match kind {
        A_TEXT => taken(DEVICE_NAME, FURTHER_DEVICES),
        A_WORD => taken(DEVICE_NAME, FURTHER_DEVICES),
        _ => None,
    }
}

// Behind node: default, or devices in brackets or not.
pub fn devices_row(kind: u8) -> Option<Row>
    ensures { row_in result ≡ row_of devices kind }
{
    match kind {
        DEFAULT_WORD => taken(EMPTY_DEFAULT, NO_SYMBOLS),
        LEFT_ROUND => taken(NONE, DEVICES_IN_BRACKETS),
        _ => device_row(kind),
    }
}
