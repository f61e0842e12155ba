// Where everything stands in the working memory; no other file of code has an offset of it (specs/Layout.antt says the same for proofs).

// How many slots there are. Their states come first, one byte each.
pub const SLOTS: usize = 512;

// The slots' keys: scope number 2 bytes, name 2 bytes.
pub const KEYS: usize = 512;

pub const KEY_NAME: usize = 2;

pub const KEY_SIZE: usize = 4;

// The slots' bodies: the record of the value, 48 bytes, and the mark, 32.
pub const BODIES: usize = 2560;

pub const BODY_MARK: usize = 48;

pub const BODY_SIZE: usize = 80;

// The trail: 32 bytes.
pub const TRAIL: usize = 43520;

// The records of the 1,024 names: head of a chain 2 bytes, definition's place 2, class 1, built-in 1, parent's scope number 2.
pub const NAMES: usize = 43552;

pub const NAME_DEFINITION: usize = 2;

pub const NAME_CLASS: usize = 4;

pub const NAME_BUILT_IN: usize = 5;

pub const NAME_PARENT: usize = 6;

pub const NAME_SIZE: usize = 8;

// How many chains of slots there are: their heads stand in the names' records.
pub const CHAINS: usize = 1024;

// The slots' links: 2 bytes each.
pub const LINKS: usize = 51744;

pub const LINK_SIZE: usize = 2;

// The number of a slot that may never have been used: 2 bytes, believed only where the states bear it out.
pub const HINT: usize = 52768;

// Fifteen words of 2 bytes. The first is one more than the number of the string "title", or 0 for none; the crate `memory` says what the others are.
pub const WORDS: usize = 52770;

pub const TITLE: usize = WORDS;

// The summaries of sixteen conditions: one more than its place 2 bytes, or 0 for none; the levels left for it 1; whether it declares 1; and the names that it
// assigns, sixteen numbers of 8 bytes.
pub const SUMMARIES: usize = 52800;

pub const SUMMARY_DEPTH: usize = 2;

pub const SUMMARY_DECLARES: usize = 3;

pub const SUMMARY_NAMES: usize = 4;

pub const SUMMARY_SIZE: usize = 132;

// The index over the catalog: the heads of 1,856 chains, 2 bytes each; how many records there are, 2 bytes; and the records, the place of an entry or an
// attribute 2 bytes, and the next record of its chain 2. A record is told by one more than its number, and 0 is none.
pub const HEADS: usize = 54912;

pub const HEAD_SIZE: usize = 2;

pub const COUNT: usize = 58624;

pub const RECORDS: usize = 58626;

pub const RECORD_LINK: usize = 2;

pub const RECORD_SIZE: usize = 4;

// An entry takes at least 39 bytes of at most 65,535, and an attribute more.
pub const MOST_RECORDS: u16 = 1680;

// From here on nothing is kept.
pub const FREE: usize = 65346;
