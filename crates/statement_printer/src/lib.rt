// Expressions and statements of a manifest as text.
#![tactic(auto)]

pub mod tokens; // tokens.rt: one token, unless the text is too long already
pub mod constants; // constants.rt: constants, patterns, and the line on which a form begins
pub mod signs; // signs.rt: operators, brackets, commas and variables
mod expressions; // expressions.rt: expressions and their arms
mod attributes; // attributes.rt: attributes of a resource or a class
mod plain; // plain.rt: statements without blocks
pub mod statements; // statements.rt: statements with blocks
