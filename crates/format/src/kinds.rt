// The kinds of fields by their numbers. Any other number stands for a device's name.
pub const TABLE: u64 = 0;

pub const TEXT: u64 = 1;

pub const CONSTANT: u64 = 2;

pub const EXPRESSION: u64 = 3;

pub const PATTERN: u64 = 4;

pub const ARM: u64 = 5;

pub const STATEMENT: u64 = 6;

pub const BLOCK: u64 = 7;

pub const BRANCH: u64 = 8;

pub const ATTRIBUTE: u64 = 9;

pub const PARAMETER: u64 = 10;

pub const PARENT: u64 = 11;

pub const ITEM: u64 = 12;

pub const DEVICE: u64 = 13;
