// The codes of actions; 0 is none. The actions of a row are one number, a byte for each, the first one lowest.
pub const NONE: u32 = 0;

pub const CLOSE: u32 = 0x01;

pub const CONSTANT: u32 = 0x02;

pub const READ: u32 = 0x03;

pub const NAMED: u32 = 0x04;

pub const PARENT_FIRST: u32 = 0x05;

pub const ENTER: u32 = 0x06;

pub const LEAVE: u32 = 0x07;

pub const BEGIN_RESOURCE: u32 = 0x08;

// The string constant just read becomes an attribute read, 18.
pub const INSTEAD: u32 = 0x09;

// A selector, 19, begins around the field just read.
pub const AROUND_SELECTOR: u32 = 0x0a;

// A field begins: its tag, 10 to 3f.
pub const BEGIN_NOT: u32 = 0x17;

pub const BEGIN_ARM: u32 = 0x1a;

pub const BEGIN_BLOCK: u32 = 0x20;

pub const BEGIN_ASSIGNMENT: u32 = 0x21;

pub const BEGIN_IF: u32 = 0x22;

pub const BEGIN_CASE: u32 = 0x23;

pub const BEGIN_BRANCH: u32 = 0x24;

pub const BEGIN_ATTRIBUTE: u32 = 0x26;

pub const BEGIN_CLASS: u32 = 0x28;

pub const BEGIN_INCLUDE: u32 = 0x29;

pub const BEGIN_NODE: u32 = 0x30;

pub const BEGIN_DEVICE: u32 = 0x31;

pub const BEGIN_DEFINE: u32 = 0x32;

pub const BEGIN_PARAMETER: u32 = 0x33;

pub const BEGIN_DEFINITION: u32 = 0x34;

// An empty field: 40 and its tag.
pub const EMPTY_DEFAULT: u32 = 0x5b;

pub const EMPTY_BLOCK: u32 = 0x60;

// An operation, 16, begins around the field just read: 80 and its operator byte.
pub const AROUND_PLUS: u32 = 0x80;

pub const AROUND_MINUS: u32 = 0x81;

pub const AROUND_SLASH: u32 = 0x82;

pub const AROUND_ABOVE: u32 = 0x83;

pub const AROUND_EQUALS: u32 = 0x84;

pub const AROUND_AND: u32 = 0x85;

pub const AROUND_OR: u32 = 0x86;

// A second and a third action.
pub const SECOND: u32 = 0x100;

pub const THIRD: u32 = 0x10000;
