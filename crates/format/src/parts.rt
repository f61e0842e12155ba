// The fields that follow the pieces, by tag. A part is a number: its kind, how many fields of this kind it takes (from 16), and for `UP_TO`
// at most how many (128 times). Up to three parts are one number, the first part lowest.
ghost use Rattle.std.specs.Prelude.{◌≡◌, ◌≤◌};
ghost use Rattle.rules.specs.Format.{form_of};
ghost use Rattle.format.specs.Numbers.{parts_from, parts_in};

use crate::kinds::{
    ARM, ATTRIBUTE, BLOCK, BRANCH, CONSTANT, EXPRESSION, ITEM, PARAMETER, PARENT, PATTERN,
    STATEMENT, TABLE, TEXT,
};

pub const ONE: u64 = 16;

pub const UP_TO: u64 = 32;

pub const MANY: u64 = 48;

pub const NAMES: u64 = 64;

pub const COUNT: u64 = 128;

pub const SECOND: u64 = 2097152;

const THIRD: u64 = SECOND * SECOND;

// One field 01, then items.
pub const MANIFEST: u64 = ONE + TABLE + SECOND * (MANY + ITEM);

const NOTHING: u64 = 0;

const STRINGS: u64 = UP_TO + 1024 * COUNT + TEXT;

const ONE_EXPRESSION: u64 = ONE + EXPRESSION;

const TWO_EXPRESSIONS: u64 = ONE + EXPRESSION + SECOND * (ONE + EXPRESSION);

const SELECTOR: u64 = ONE + EXPRESSION + SECOND * (ONE + ARM) + THIRD * (MANY + ARM);

const PATTERN_EXPRESSION: u64 = ONE + PATTERN + SECOND * (ONE + EXPRESSION);

const STATEMENTS: u64 = MANY + STATEMENT;

const EXPRESSION_BLOCKS: u64 = ONE + EXPRESSION + SECOND * (ONE + BLOCK) + THIRD * (ONE + BLOCK);

const EXPRESSION_BRANCHES: u64 = ONE + EXPRESSION + SECOND * (MANY + BRANCH);

const PATTERN_BLOCK: u64 = ONE + PATTERN + SECOND * (ONE + BLOCK);

const EXPRESSION_ATTRIBUTES: u64 = ONE + EXPRESSION + SECOND * (MANY + ATTRIBUTE);

const ATTRIBUTES: u64 = MANY + ATTRIBUTE;

const NAMES_BLOCK: u64 = NAMES + SECOND * (ONE + BLOCK);

const PARAMETERS_BLOCK: u64 = MANY + PARAMETER + SECOND * (ONE + BLOCK);

const DEFAULT: u64 = UP_TO + COUNT + CONSTANT;

const PARENT_PARAMETERS_BLOCK: u64 = UP_TO
    + COUNT
    + PARENT
    + SECOND * (MANY + PARAMETER)
    + THIRD * (ONE + BLOCK);

// Expressions, and the parts of a selector.
fn expression_parts(tag: u8) -> u64
    requires { (0x13 ≤ tag) × (tag ≤ 0x1b) }
    ensures { parts_from result ≡ parts_in (form_of tag).rest }
{
    match tag {
        0x16 => TWO_EXPRESSIONS,
        0x17 => ONE_EXPRESSION,
        0x18 => ONE_EXPRESSION,
        0x19 => SELECTOR,
        0x1a => PATTERN_EXPRESSION,
        _ => NOTHING,
    }
}

// Statements, and the parts of statements.
fn statement_parts(tag: u8) -> u64
    requires { (0x20 ≤ tag) × (tag ≤ 0x29) }
    ensures { parts_from result ≡ parts_in (form_of tag).rest }
{
    match tag {
        0x20 => STATEMENTS,
        0x21 => ONE_EXPRESSION,
        0x22 => EXPRESSION_BLOCKS,
        0x23 => EXPRESSION_BRANCHES,
        0x24 => PATTERN_BLOCK,
        0x25 => EXPRESSION_ATTRIBUTES,
        0x26 => ONE_EXPRESSION,
        0x27 => EXPRESSION_ATTRIBUTES,
        0x28 => ATTRIBUTES,
        _ => NOTHING,
    }
}

// Items, and the parts of definitions.
fn item_parts(tag: u8) -> u64
    requires { (0x30 ≤ tag) × (tag ≤ 0x35) }
    ensures { parts_from result ≡ parts_in (form_of tag).rest }
{
    match tag {
        0x30 => NAMES_BLOCK,
        0x32 => PARAMETERS_BLOCK,
        0x33 => DEFAULT,
        0x34 => PARENT_PARAMETERS_BLOCK,
        _ => NOTHING,
    }
}

// The parts of a tag.
pub fn parts_of(tag: u8) -> u64
    ensures { parts_from result ≡ parts_in (form_of tag).rest }
{
    match tag {
        0x01 => STRINGS,
        0x10..=0x12 => NOTHING,
        0x13..=0x1b => expression_parts(tag),
        0x20..=0x29 => statement_parts(tag),
        0x30..=0x35 => item_parts(tag),
        _ => NOTHING,
    }
}
