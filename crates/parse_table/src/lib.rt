// The grammar's table in code: what the symbol on top of the stack makes of a token, and the stack. The definition is crates/notation/specs/Grammar.antt;
// symbols and actions are bytes here (specs/Codes.antt).
#![tactic(auto)]

pub mod symbols; // symbols.rt: the codes of symbols
pub mod actions; // actions.rt: the codes of actions
pub mod rows; // rows.rt: what a row is
pub mod expressions; // expressions.rt: the rows of operands and operators
pub mod statements; // statements.rt: the rows of statements and items
pub mod table; // table.rt: the row of any symbol, and what is left out
pub mod stack; // stack.rt: a row's symbols on the stack
