// The parser: the tokens of a text drive the grammar's machine, whose actions build the tree, and their strings go to the table.
#![tactic(auto)]

pub mod actions; // actions.rt: the grammar's actions, done to the tree
pub mod steps; // steps.rt: one token
pub mod strings; // strings.rt: a token's strings in the table
pub mod text; // text.rt: all tokens of a text
