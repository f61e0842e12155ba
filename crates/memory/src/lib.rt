// The trail and the names in the working memory, and clearing it. The layout, and the state that the bytes stand for, are in the crate `cells`.
#![tactic(auto)]

ghost use Rattle.std.specs.Prelude.{◌≡◌, true, List, ℕ, ◌≤◌, ◌<◌, eqb, length};
ghost use Rattle.wire.specs.Runs.{zeros};
ghost use Rattle.labels.specs.Sets.{◌∪◌};
ghost use Rattle.rules.specs.State.{Entry, parent_of, is_declared, mark_declared};
ghost use Rattle.cells.specs.Layout.{trail_of};
ghost use Rattle.cells.specs.Scopes.{scope_of};
ghost use Rattle.cells.specs.Memory.{base_for, classes_of, definition_of, built_in_of, state_of, trailed, Becomes};
ghost use Rattle.memory.specs.Words.{word_of, WordSet, strike_end, struck_at};
ghost use Rattle.memory.specs.Names.{with_definition, with_built_in, class_state, placed, scope_above, at_node, title_of, title_found, TitleSet, Begun};

use cells::layout::{
    NAME_BUILT_IN, NAME_CLASS, NAME_DEFINITION, NAME_PARENT, NAME_SIZE, NAMES, RECORDS, SLOTS,
    TITLE, TRAIL, WORDS,
};
use labels::Labels;

// The scope in which code runs, and its base, node or top.
#[derive(Clone, Copy)]
pub struct Scope {
    pub number: u16,
    pub base_is_node: bool,
}

pub const TOP: Scope = Scope {
    number: 0,
    base_is_node: false,
};

pub const NODE: Scope = Scope {
    number: 1,
    base_is_node: true,
};

// Where a statement runs: its scope, and the path, the set of the conditions around it.
#[derive(Clone, Copy)]
pub struct Context {
    pub scope: Scope,
    pub path: Labels,
}

// Every byte becomes 0.
pub fn clear(work: &mut [u8])
    ensures { work.new ≡ zeros (length work.old) }
{
    let end = work.len();
    wire::clear(work, 0, end);
}

// The state before the first item. Only the bytes that tell it are cleared.
pub fn begin(work: &mut [u8])
    requires { 65536 ≤ length work.old }
    ensures { Begun work.new }
{
    wire::clear(work, 0, SLOTS);
    wire::clear(work, TRAIL, RECORDS);
}

// ---- The trail

pub fn trail(work: &[u8]) -> Labels
    requires { 65536 ≤ length work.now }
    ensures { result ≡ trail_of work.now }
{
    Labels::read_within(work, TRAIL)
}

// Path and trail: what a condition and whatever is stored have in their sets besides their own.
pub fn path_and_trail(work: &[u8], path: Labels) -> Labels
    requires { 65536 ≤ length work.now }
    ensures { result ≡ path ∪ trail_of work.now }
{
    path.union(trail(work))
}

pub fn join_trail(work: &mut [u8], set: Labels)
    requires { 65536 ≤ length work.old }
    ensures { Becomes work.old work.new (trailed set) (λ ns. ns) }
{
    labels::join_within(work, TRAIL, set);
}

// ---- Names: where a definition stands, and which are built-in types

// 0 where the name has no definition.
pub fn definition_at(work: &[u8], name: u16) -> u16
    requires { (65536 ≤ length work.now) × (name < 1024) }
    ensures { result ≡ definition_of work.now name }
{
    wire::two_in(work, NAMES + NAME_SIZE * name as usize + NAME_DEFINITION)
}

pub fn set_definition(work: &mut [u8], name: u16, place: u16)
    requires { (65536 ≤ length work.old) × (name < 1024) }
    ensures { Becomes work.old work.new (λ st. st) (with_definition name place) }
{
    wire::put_two(
        work,
        NAMES + NAME_SIZE * name as usize + NAME_DEFINITION,
        place,
    );
}

pub fn built_in(work: &[u8], name: u16) -> bool
    requires { (65536 ≤ length work.now) × (name < 1024) }
    ensures { result ≡ built_in_of work.now name }
{
    wire::byte_in(work, NAMES + NAME_SIZE * name as usize + NAME_BUILT_IN) != 0
}

pub fn set_built_in(work: &mut [u8], name: u16, yes: bool)
    requires { (65536 ≤ length work.old) × (name < 1024) }
    ensures { Becomes work.old work.new (λ st. st) (with_built_in name yes) }
{
    wire::put_byte(
        work,
        NAMES + NAME_SIZE * name as usize + NAME_BUILT_IN,
        yes as u8,
    );
}

// ---- The number of the string "title": the first of the words, one more than it, or 0 where there is none

pub fn title(work: &[u8]) -> Option<u16>
    requires { 65536 ≤ length work.now }
    ensures { title_found result ≡ title_of work.now }
{
    match wire::two_in(work, TITLE) {
        t @ 1..=1024 => Some(t - 1),
        _ => None,
    }
}

pub fn set_title(work: &mut [u8], name: u16)
    requires { (65536 ≤ length work.old) × (name < 1024) }
    ensures { TitleSet work.old work.new name }
{
    wire::put_two(work, TITLE, name + 1);
}

// ---- The other words: which constants are struck out, and which attribute is asked about

// The constants with this label, one before this place, are struck out.
pub const STRIKE_LABEL: usize = 1;

pub const STRIKE_END: usize = 2;

// The attribute asked about: one more than its resource's type, or 0 for none; title, name, and the label.
pub const ASKED_TYPE: usize = 3;

pub const ASKED_TITLE: usize = 4;

pub const ASKED_NAME: usize = 5;

pub const ASKED_LABEL: usize = 6;

// What was found out about it.
pub const NOTE: usize = 7;

pub fn word(work: &[u8], i: usize) -> u16
    requires { (65536 ≤ length work.now) × (i < 15) }
    ensures { result ≡ word_of work.now i }
{
    wire::two_in(work, WORDS + 2 * i)
}

pub fn set_word(work: &mut [u8], i: usize, value: u16)
    requires { (65536 ≤ length work.old) × (i < 15) }
    ensures { WordSet work.old work.new i value }
{
    wire::put_two(work, WORDS + 2 * i, value);
}

// Whether a constant with this label at this place is struck out.
pub fn is_struck_out(work: &[u8], label: u8, place: usize) -> bool
    requires { 65536 ≤ length work.now }
    ensures { (result ≡ struck_at work.now label place) × (result ≡ true → place ≤ 65535) }
{
    let end = word(work, STRIKE_END);
    if place < end as usize {
        return label as u16 == word(work, STRIKE_LABEL);
    }
    false
}

// Whether no constant is struck out, as in a compile.
pub fn none_struck_out(work: &[u8]) -> bool
    requires { 65536 ≤ length work.now }
    ensures { result ≡ eqb (word_of work.now strike_end) 0 }
{
    word(work, STRIKE_END) == 0
}

// ---- Classes

fn class_state(base_is_node: bool) -> u8
    ensures { result ≡ class_state base_is_node }
{
    if base_is_node { 2 } else { 1 }
}

pub fn declare_class(work: &mut [u8], name: u16, parent: u16, base_is_node: bool)
    requires { (65536 ≤ length work.old) × (name < 1024) }
    ensures { Becomes work.old work.new (mark_declared name (placed parent base_is_node)) (λ ns. ns) }
{
    let record = NAMES + NAME_SIZE * name as usize;
    wire::put_byte(work, record + NAME_CLASS, class_state(base_is_node));
    wire::put_two(work, record + NAME_PARENT, parent);
}

pub fn is_declared(work: &[u8], name: u16) -> bool
    requires { (65536 ≤ length work.now) × (name < 1024) }
    ensures { (es : List Entry) (n r : ℕ) → result ≡ is_declared name (state_of work.now es n r) }
{
    wire::byte_in(work, NAMES + NAME_SIZE * name as usize + NAME_CLASS) != 0
}

// Whether the base of a declared class is node.
pub fn base_of(work: &[u8], name: u16) -> bool
    requires { (65536 ≤ length work.now) × (name < 1024) }
    ensures { result ≡ at_node (classes_of work.now name) }
{
    wire::byte_in(work, NAMES + NAME_SIZE * name as usize + NAME_CLASS) == 2
}

// The parent of a scope, for code whose base is node or top.
pub fn parent_of(work: &[u8], base_is_node: bool, scope: u16) -> Option<u16>
    requires { 65536 ≤ length work.now }
    ensures { scope_above result ≡ parent_of (classes_of work.now) (base_for base_is_node) (scope_of scope) }
{
    if scope == 0 {
        return None;
    }
    if scope == 1 {
        return Some(0);
    }
    if 1026 <= scope {
        return Some(u16::from(base_is_node));
    }
    let record = NAMES + NAME_SIZE * (scope as usize - 2);
    if wire::byte_in(work, record + NAME_CLASS) == 0 {
        return None;
    }
    Some(wire::two_in(work, record + NAME_PARENT))
}
