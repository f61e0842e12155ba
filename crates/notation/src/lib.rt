// What the text tools answer, and the kinds of tokens. What a text means, and how a manifest is printed, stand in specs/; nothing runs here.
#![tactic(auto)]

use values::Refusal;

// The kinds of tokens.
pub mod kinds;

// The length of what was written, or the reason for refusing and its place.
pub type Answer = Result<u16, Refusal>;
