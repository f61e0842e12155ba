// A step of the grammar's machine: one token.
ghost use Rattle.parser.specs.Stepping.{Steppable, TakenRow, Steps};

use crate::actions::{Names, do_actions};
use lexer::Token;
use parse_table::actions::NONE;
use parse_table::rows::Row;
use parse_table::stack::push;
use parse_table::table::{left_out, row};
use tree_builder::Building;

// The number of symbols on the stack, and the tree in the making.
#[derive(Clone, Copy)]
pub struct Machine {
    pub top: usize,
    pub building: Building,
}

// The symbol on top takes the token: its actions are done, and the row's symbols come in its place.
fn take_row(
    out: &mut [u8],
    frames: &mut [u8],
    stack: &mut [u8],
    s: Building,
    top: usize,
    token: Token,
    names: Names,
    row: Row,
) -> Option<Machine>
    requires { Steppable stack.old frames.old out.old s top token names × TakenRow stack.old top token row }
    ensures { Steps token names s top stack.old frames.old out.old result stack.new frames.new out.new }
{
    let Some(building) = do_actions(out, frames, s, row.actions, token, names) else {
        return None;
    };
    let top = push(stack, top, row.symbols);
    Some(Machine { top, building })
}

// One token: from the top on, symbols that do not take it are left out, up to the one that does. Most of them have no actions then: the state is
// not copied for these.
pub fn take(
    out: &mut [u8],
    frames: &mut [u8],
    stack: &mut [u8],
    s: Building,
    top: usize,
    token: Token,
    names: Names,
) -> Option<Machine>
    requires { Steppable stack.old frames.old out.old s top token names }
    ensures { Steps token names s top stack.old frames.old out.old result stack.new frames.new out.new }
{
    let mut building = s;
    for below in (0..top).rev() {
        let symbol = stack[below];
        if let Some(found) = row(symbol, token.kind) {
            return take_row(out, frames, stack, building, below + 1, token, names, found);
        }
        let actions = left_out(symbol)?;
        if actions == NONE {
            continue;
        }
        let Some(next) = do_actions(out, frames, building, actions, token, names) else {
            return None;
        };
        building = next;
    }
    None
}
