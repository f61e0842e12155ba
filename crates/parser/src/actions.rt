// The grammar's actions by their codes, each done to the tree in the making.
ghost use Rattle.std.specs.Prelude.{◌≡◌, List, ℕ, ◌≤◌, ◌<◌};
ghost use Rattle.notation.specs.Building.{constant as constant_action, read as read_action};
ghost use Rattle.parse_table.specs.Codes.{action_of, actions_in};
ghost use Rattle.tree_builder.specs.Shows.{Does, IsWord, Ready};
ghost use Rattle.parser.specs.Doing.{ConstantAt, VariableAt, WordRead, WordsRead, Able, Stands, DoesAll, DoesFor};

use lexer::Token;
use notation::kinds::{A_NUMBER, A_VARIABLE, FALSE_WORD, TRUE_WORD};
use parse_table::actions::{
    AROUND_PLUS, AROUND_SELECTOR, BEGIN_RESOURCE, CONSTANT, ENTER, INSTEAD, LEAVE, NAMED,
    PARENT_FIRST, READ,
};
use tree_builder::Building;

// The strings of a token by their numbers in the table, and the tag of a resource of the type that it names.
#[derive(Clone, Copy)]
pub struct Names {
    pub class: u16,
    pub name: u16,
    pub resource: u8,
}

// The codes of actions that begin a field, and of those that add an empty one.
const BEGIN: u32 = 0x10;

const EMPTY: u32 = 0x40;

// The token is a constant: a number, true or false, or else a string.
fn add_constant(out: &mut [u8], s: Building, token: Token, name: u16) -> Option<Building>
    requires { (token.start ≤ 1048576) × Ready s }
    ensures { ((frames : List ℕ) → Does (ConstantAt token name) constant_action s frames out.old result frames out.new) × (token.kind ≡ 0 → IsWord result) }
{
    let kind = token.kind;
    match kind {
        A_NUMBER => tree_builder::add_integer(out, s, token.line, token.start, token.value),
        TRUE_WORD => tree_builder::add_boolean(out, s, token.line, token.start, 1),
        FALSE_WORD => tree_builder::add_boolean(out, s, token.line, token.start, 0),
        _ => tree_builder::add_string(out, s, token.line, token.start, name),
    }
}

// The token is a variable: $x, $::x or $::a::x.
fn add_variable(out: &mut [u8], s: Building, token: Token, names: Names) -> Option<Building>
    requires { Ready s }
    ensures { (frames : List ℕ) → Does (VariableAt token names) read_action s frames out.old result frames out.new }
{
    if token.kind == A_VARIABLE {
        return tree_builder::add_variable(out, s, 0x13, names.name);
    }
    if token.class_end == 0 {
        return tree_builder::add_variable(out, s, 0x14, names.name);
    }
    tree_builder::add_class_variable(out, s, names.class, names.name)
}

// An action whose code is below 10.
fn do_plain(
    out: &mut [u8],
    frames: &mut [u8],
    s: Building,
    action: u32,
    token: Token,
    names: Names,
) -> Option<Building>
    requires { Able frames.old s action token × (action < 0x10) }
    ensures { DoesFor token names (action_of action) s frames.old out.old result frames.new out.new × WordRead (action_of action) token result }
{
    match action {
        CONSTANT => add_constant(out, s, token, names.name),
        READ => add_variable(out, s, token, names),
        NAMED => Some(tree_builder::add_name(out, s, names.name)),
        PARENT_FIRST => tree_builder::parent_first(out, s, names.name),
        ENTER => tree_builder::enter(s),
        LEAVE => tree_builder::leave(s),
        BEGIN_RESOURCE => tree_builder::begin(out, frames, s, names.resource),
        INSTEAD => Some(tree_builder::instead(out, frames, s, 0x18)),
        AROUND_SELECTOR => tree_builder::around(out, frames, s, 0x19),
        _ => tree_builder::close(out, frames, s),
    }
}

// One action.
fn do_action(
    out: &mut [u8],
    frames: &mut [u8],
    s: Building,
    action: u32,
    token: Token,
    names: Names,
) -> Option<Building>
    requires { Able frames.old s action token × (action < 0x100) }
    ensures { DoesFor token names (action_of action) s frames.old out.old result frames.new out.new × WordRead (action_of action) token result }
{
    if AROUND_PLUS <= action {
        return tree_builder::around_operator(out, frames, s, 0x16, (action - AROUND_PLUS) as u8);
    }
    if EMPTY <= action {
        return tree_builder::add_void(out, s, (action - EMPTY) as u8);
    }
    if BEGIN <= action {
        return tree_builder::begin(out, frames, s, action as u8);
    }
    do_plain(out, frames, s, action, token, names)
}

// Actions, a byte each with the first one lowest. Nothing comes of them if one passes a limit.
// The answer of the last one is the answer: another call, with none left, would only copy the state.
pub fn do_actions(
    out: &mut [u8],
    frames: &mut [u8],
    s: Building,
    actions: u32,
    token: Token,
    names: Names,
) -> Option<Building>
    requires { Stands frames.old out.old s actions token names }
    ensures { DoesAll token names (actions_in actions) s frames.old out.old result frames.new out.new × WordsRead (actions_in actions) token s result }
{
    if actions == 0 {
        return Some(s);
    }
    let first = do_action(out, frames, s, actions % 256, token, names);
    if actions < 256 {
        return first;
    }
    let Some(next) = first else {
        return None;
    };
    do_actions(out, frames, next, actions / 256, token, names)
}
