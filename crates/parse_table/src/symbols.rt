// The codes of symbols. A sign or keyword has its token's kind, which is less than A_NAME.
pub const A_NAME: u8 = 0x25;

pub const READ_OR_WORD: u8 = 0x26;

pub const CLOSE_BRACKET: u8 = 0x27;

pub const BLOCK: u8 = 0x28;

pub const OTHERWISE: u8 = 0x29;

pub const STATEMENTS: u8 = 0x2a;

pub const BRANCHES: u8 = 0x2b;

pub const ITEMS: u8 = 0x2c;

pub const CLASS_REST: u8 = 0x2d;

pub const PARAMETERS: u8 = 0x2e;

pub const DEFAULT_VALUE: u8 = 0x2f;

pub const A_CONSTANT: u8 = 0x30;

// An expression of level l, 1 to 8, is 0x30 + l.
pub const EXPRESSION: u8 = 0x31;

pub const OPERAND: u8 = 0x38;

pub const INHERITS: u8 = 0x39;

pub const PARENT: u8 = 0x3a;

pub const DEVICES: u8 = 0x3b;

pub const DEVICE: u8 = 0x3c;

pub const MORE_DEVICES: u8 = 0x3d;

pub const ENDS: u8 = 0x3e;

pub const ONE_ARM: u8 = 0x3f;

pub const ONE_ATTRIBUTE: u8 = 0x40;

pub const ONE_PARAMETER: u8 = 0x41;

pub const MAYBE_ARM: u8 = 0x42;

pub const MAYBE_ATTRIBUTE: u8 = 0x43;

pub const MAYBE_PARAMETER: u8 = 0x44;

pub const FURTHER_ARM: u8 = 0x45;

pub const FURTHER_ATTRIBUTE: u8 = 0x46;

pub const FURTHER_PARAMETER: u8 = 0x47;

// Operators of levels l to m, 1 to 7, are 0x40 + 8 l + m.
pub const OPERATORS: u8 = 0x48;
