// What a symbol makes of a token of some kind: a row of the grammar's table.
ghost use Rattle.std.specs.Prelude.{◌≡◌};
ghost use Rattle.std.proofs.Math.Option.{some};
ghost use Rattle.notation.specs.Grammar.{row, only as only_of};
ghost use Rattle.notation.specs.Lexing.{find};
ghost use Rattle.parse_table.specs.Codes.{actions_in, symbols_in, constants_in, patterns_in, row_in};

use notation::kinds::{A_NUMBER, A_TEXT, A_WORD, DEFAULT_WORD, FALSE_WORD, TRUE_WORD};

// A row where the token is taken: its actions, a byte each with the first one lowest, and the symbols that come instead, a byte each with the last
// one lowest: they are put on the stack in this order.
#[derive(Clone, Copy)]
pub struct Row {
    pub actions: u32,
    pub symbols: u64,
}

pub const NO_SYMBOLS: u64 = 0;

pub fn taken(actions: u32, symbols: u64) -> Option<Row>
    ensures { row_in result ≡ some (row (actions_in actions) (symbols_in symbols)) }
{
    Some(Row { actions, symbols })
}

// A symbol that takes one kind.
pub fn only(wanted: u8, kind: u8, actions: u32, symbols: u64) -> Option<Row>
    ensures { row_in result ≡ only_of wanted kind (actions_in actions) (symbols_in symbols) }
{
    if kind == wanted {
        taken(actions, symbols)
    } else {
        None
    }
}

// A symbol that takes a constant.
pub fn constant_row(kind: u8, actions: u32, symbols: u64) -> Option<Row>
    ensures { row_in result ≡ find kind (constants_in actions symbols) }
{
    match kind {
        A_WORD => taken(actions, symbols),
        A_NUMBER => taken(actions, symbols),
        A_TEXT => taken(actions, symbols),
        TRUE_WORD => taken(actions, symbols),
        FALSE_WORD => taken(actions, symbols),
        _ => None,
    }
}

// A symbol that takes default or a constant.
pub fn pattern_row(kind: u8, default: u32, constant: u32, symbols: u64) -> Option<Row>
    ensures { row_in result ≡ find kind (patterns_in default constant symbols) }
{
    match kind {
        DEFAULT_WORD => taken(default, symbols),
        _ => constant_row(kind, constant, symbols),
    }
}
