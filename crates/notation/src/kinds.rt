// The kinds of tokens by their numbers, as the notation has them.
pub const A_WORD: u8 = 0;

pub const A_NUMBER: u8 = 1;

pub const A_TEXT: u8 = 2;

pub const A_VARIABLE: u8 = 3;

pub const A_QUALIFIED: u8 = 4;

pub const END_OF_TEXT: u8 = 5;

pub const MALFORMED: u8 = 6;

pub const LEFT_BRACE: u8 = 7;

pub const RIGHT_BRACE: u8 = 8;

pub const LEFT_ROUND: u8 = 9;

pub const RIGHT_ROUND: u8 = 10;

pub const LEFT_SQUARE: u8 = 11;

pub const RIGHT_SQUARE: u8 = 12;

pub const COLON: u8 = 13;

pub const COMMA: u8 = 14;

pub const ARROW: u8 = 15;

pub const QUESTION: u8 = 16;

pub const EXCLAMATION: u8 = 17;

pub const PLUS_SIGN: u8 = 18;

pub const MINUS_SIGN: u8 = 19;

pub const SLASH: u8 = 20;

pub const ABOVE: u8 = 21;

pub const TWO_EQUALS: u8 = 22;

pub const EQUALS: u8 = 23;

pub const AND_WORD: u8 = 24;

pub const OR_WORD: u8 = 25;

pub const TRUE_WORD: u8 = 26;

pub const FALSE_WORD: u8 = 27;

pub const DEFAULT_WORD: u8 = 28;

pub const IF_WORD: u8 = 29;

pub const ELSE_WORD: u8 = 30;

pub const CASE_WORD: u8 = 31;

pub const CLASS_WORD: u8 = 32;

pub const INCLUDE_WORD: u8 = 33;

pub const NODE_WORD: u8 = 34;

pub const DEFINE_WORD: u8 = 35;

pub const INHERITS_WORD: u8 = 36;
