// Where the parts of an entry (40) and of an attribute (41) stand, from its tag on; no other file of code has an offset of them (specs/Layout.antt says the same for proofs).

// The tag and the length of any field.
pub const HEADER: usize = 3;

pub const ENTRY_TYPE: usize = 3;

pub const ENTRY_TITLE: usize = 5;

pub const ENTRY_LABELS: usize = 7;

// The first of its attributes: with so many bytes an entry starts.
pub const ENTRY_ATTRIBUTES: usize = 39;

// How many bytes of an entry's body stand before them.
pub const BEFORE_ATTRIBUTES: u16 = (ENTRY_ATTRIBUTES - HEADER) as u16;

pub const ATTRIBUTE_NAME: usize = 3;

pub const ATTRIBUTE_LABELS: usize = 5;

pub const ATTRIBUTE_VALUE: usize = 37;

// How many bytes of an attribute's body stand before its value.
pub const BEFORE_VALUE: u16 = (ATTRIBUTE_VALUE - HEADER) as u16;
