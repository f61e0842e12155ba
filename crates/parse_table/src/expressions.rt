// The rows of operands, and of the operators behind them. Each ends in operators, whose code has the level; it is added to the other symbols.
ghost use Rattle.std.specs.Prelude.{◌≡◌, ◌&&◌, ◌+◌, ◌-◌, ◌/◌, ◌%◌, ◌≤◌, ◌<◌, leb};
ghost use Rattle.notation.specs.Grammar.{expression, operators, row_of};
ghost use Rattle.parse_table.specs.Codes.{symbol_of, operation_in, selector_in, row_in};

use crate::actions::{
    AROUND_ABOVE, AROUND_AND, AROUND_EQUALS, AROUND_MINUS, AROUND_OR, AROUND_PLUS, AROUND_SELECTOR,
    AROUND_SLASH, BEGIN_NOT, CONSTANT, ENTER, READ,
};
use crate::rows::{Row, taken};
use notation::kinds::{
    A_NUMBER, A_QUALIFIED, A_TEXT, A_VARIABLE, A_WORD, ABOVE, AND_WORD, EQUALS, EXCLAMATION,
    FALSE_WORD, LEFT_ROUND, MINUS_SIGN, OR_WORD, PLUS_SIGN, QUESTION, SLASH, TRUE_WORD, TWO_EQUALS,
};

// read_or_word
const MAY_READ: u64 = 0x26_00;

// expression 8, ends
const AN_OPERAND: u64 = 0x38_3e_00;

// expression 1, close_bracket
const IN_BRACKETS: u64 = 0x31_27_00;

// {, an arm, }, ends
const ARMS: u64 = 0x07_3f_08_3e_00;

// expression 1, ends; the level of the operator is added to the expression's
const RIGHT_SIDE: u64 = 0x31_3e_00;

const TO_RIGHT_SIDE: u64 = 0x1_00_00;

// An expression of some level: operators from this level on may follow the operand.
pub fn operand_row(symbol: u8, kind: u8) -> Option<Row>
    requires { (0x31 ≤ symbol) × (symbol ≤ 0x38) }
    ensures { row_in result ≡ row_of (expression (symbol - 0x30)) kind }
{
    // The symbol is 0x30 + l, and the operators of levels l to 7 are 0x40 + 8 l + 7.
    let then = symbol as u64 * 8 - 0x139;
    match kind {
        A_NUMBER => taken(CONSTANT, then),
        A_TEXT => taken(CONSTANT, then),
        TRUE_WORD => taken(CONSTANT, then),
        FALSE_WORD => taken(CONSTANT, then),
        A_WORD => taken(CONSTANT, then + MAY_READ),
        A_VARIABLE => taken(READ, then),
        A_QUALIFIED => taken(READ, then),
        EXCLAMATION => taken(BEGIN_NOT, then + AN_OPERAND),
        LEFT_ROUND => taken(ENTER, then + IN_BRACKETS),
        _ => None,
    }
}

// The code of operators from the loosest that the symbol allows to this level.
fn up_to(symbol: u8, level: u8) -> u64
    requires { (0x48 ≤ symbol) × (level ≤ symbol % 8) }
    ensures { (symbol_of result ≡ operators (symbol / 8 - 8) level) × (0 < result) × (result < 256) }
{
    (symbol - symbol % 8 + level) as u64
}

// Whether an operator of this level may follow.
fn allows(symbol: u8, level: u8) -> bool
    requires { 0x48 ≤ symbol }
    ensures { result ≡ (leb (symbol / 8 - 8) level && leb level (symbol % 8)) }
{
    (symbol / 8 - 8 <= level) & (level <= symbol % 8)
}

// An operator of this level with a right side, which binds tighter.
fn operation(symbol: u8, level: u8, action: u32) -> Option<Row>
    requires { 0x48 ≤ symbol }
    ensures { row_in result ≡ operation_in (symbol / 8 - 8) (symbol % 8) level action }
{
    if !allows(symbol, level) {
        return None;
    }
    taken(
        action,
        up_to(symbol, level) + RIGHT_SIDE + TO_RIGHT_SIDE * level as u64,
    )
}

fn selector(symbol: u8) -> Option<Row>
    requires { 0x48 ≤ symbol }
    ensures { row_in result ≡ selector_in (symbol / 8 - 8) (symbol % 8) }
{
    if !allows(symbol, 3) {
        return None;
    }
    taken(AROUND_SELECTOR, up_to(symbol, 3) + ARMS)
}

// Operators of some levels, from tightest: / + - == = > ? and or.
pub fn operator_row(symbol: u8, kind: u8) -> Option<Row>
    requires { 0x48 ≤ symbol }
    ensures { row_in result ≡ row_of (operators (symbol / 8 - 8) (symbol % 8)) kind }
{
    match kind {
        SLASH => operation(symbol, 7, AROUND_SLASH),
        PLUS_SIGN => operation(symbol, 6, AROUND_PLUS),
        MINUS_SIGN => operation(symbol, 6, AROUND_MINUS),
        TWO_EQUALS => operation(symbol, 5, AROUND_EQUALS),
        EQUALS => operation(symbol, 5, AROUND_EQUALS),
        ABOVE => operation(symbol, 4, AROUND_ABOVE),
        QUESTION => selector(symbol),
        AND_WORD => operation(symbol, 2, AROUND_AND),
        OR_WORD => operation(symbol, 1, AROUND_OR),
        _ => None,
    }
}
