// The cells of the working memory: 512 slots in lent bytes. Contracts speak of the definition's state, which the bytes stand for (specs/Memory.antt).
#![tactic(auto)]

ghost use Rattle.std.specs.Prelude.{◌≡◌, true, false, ◌+◌, ◌≤◌, ◌<◌, length};
ghost use Rattle.labels.specs.Sets.{◌∪◌};
ghost use Rattle.labels.specs.Bytes.{set_at};
ghost use Rattle.wire.specs.Numbers.{high_bytes};
ghost use Rattle.wire.specs.Runs.{over};
ghost use Rattle.rules.specs.State.{free, is_some};
ghost use Rattle.rules.specs.State as state;
ghost use Rattle.cells.specs.Chains.{reference, counted};
ghost use Rattle.cells.specs.Layout.{body_at, body_mark, slots_of, content_in, beside_slots, chain_of, chain_in, place_at, next_in, LastAbove};
ghost use Rattle.cells.specs.Scopes.{scope_of};
ghost use Rattle.cells.specs.Slots.{is_reached, state_byte, is_for, of_scope, value_in, taken_out, put_in, renewed, claimed, filled, marked, freed_slot, StoresAt, slot_in, slot_for, Open, FindsOpen, Claims, Obtains};
ghost use Rattle.cells.specs.Memory.{Fine, Becomes, Answers, mark_one};

use crate::layout::{
    BODIES, BODY_MARK, BODY_SIZE, CHAINS, HINT, KEY_NAME, KEY_SIZE, KEYS, LINK_SIZE, LINKS,
    NAME_SIZE, NAMES, SLOTS,
};
use labels::Labels;
use values::{Labelled, Value};

pub mod layout; // layout.rt: where everything stands

// The states of a slot, as its first byte keeps them; that of one never used is 0.
#[derive(Clone, Copy)]
enum SlotState {
    Used = 1,
    Freed = 5,
}

// How a store ends: done, or refused since the variable has a value, or since a 513th cell would be needed.
#[derive(Clone, Copy)]
pub enum NotStored {
    HasValue,
    NoRoom,
}

// ---- Chains of slots, by falling numbers. A link is one more than a slot's number, or 0

// The chain of a key: a read that tries a name in one scope after the other meets each cell at most once.
fn chain_of(scope: u16, name: u16) -> usize
    ensures { (result ≡ chain_of scope name) × (result < 1024) }
{
    (scope as usize + name as usize) % CHAINS
}

fn chain_at(work: &[u8], i: usize) -> usize
    requires { (i < 512) × (65536 ≤ length work.now) }
    ensures { (result ≡ chain_in work.now i) × (result < 1024) }
{
    let scope = wire::two_in(work, KEYS + KEY_SIZE * i);
    let name = wire::two_in(work, KEYS + KEY_SIZE * i + KEY_NAME);
    chain_of(scope, name)
}

// The slot that a link at slot p leads to, if it counts: one that does not fall, or leads to another chain, is none.
fn counted_link(work: &[u8], chain: usize, p: usize, link: u16) -> Option<usize>
    requires { (p ≤ 512) × (65536 ≤ length work.now) }
    ensures { reference result ≡ counted (chain_in work.now) chain p link }
{
    if link == 0 {
        return None;
    }
    let i = link as usize - 1;
    if p <= i {
        return None;
    }
    if chain_at(work, i) != chain {
        return None;
    }
    Some(i)
}

// The place of the link of slot p in a chain; at 512, of the chain's head.
fn link_place(chain: usize, p: usize) -> usize
    requires { (p ≤ 512) × (chain < 1024) }
    ensures { (result ≡ place_at chain p) × (result + 2 ≤ 65536) }
{
    if p < SLOTS {
        return LINKS + LINK_SIZE * p;
    }
    NAMES + NAME_SIZE * chain
}

// What follows slot p in a chain; at 512, the first of the chain.
fn next_of(work: &[u8], chain: usize, p: usize) -> Option<usize>
    requires { (p ≤ 512) × ((chain < 1024) × (65536 ≤ length work.now)) }
    ensures { reference result ≡ next_in work.now chain p }
{
    let link = wire::two_in(work, link_place(chain, p));
    counted_link(work, chain, p, link)
}

fn put_link(work: &mut [u8], chain: usize, p: usize, next: Option<usize>)
    requires { (p ≤ 512) × ((chain < 1024) × (reference next ≤ 512)) }
    ensures { work.new ≡ over work.old (place_at chain p) (high_bytes 2 (reference next)) }
{
    let link = match next {
        Some(i) => (i + 1) as u16,
        None => 0,
    };
    wire::put_two(work, link_place(chain, p), link);
}

// The place in a chain where slot j stands, or would: after the slot answered.
fn last_above(work: &[u8], chain: usize, j: usize) -> usize
    requires { (j < 512) × ((chain < 1024) × (65536 ≤ length work.now)) }
    ensures { LastAbove work.now chain j result }
{
    let mut p = SLOTS;
    while let Some(i) = next_of(work, chain, p) {
        if i <= j {
            return p;
        }
        p = i;
    }
    p
}

// ---- Searches

fn is_for(work: &[u8], i: usize, scope: u16, name: u16, state: SlotState) -> bool
    requires { (i < 512) × (65536 ≤ length work.now) }
    ensures { result ≡ is_for (state_byte state) scope name (slots_of work.now i) }
{
    if wire::two_in(work, KEYS + KEY_SIZE * i) != scope {
        return false;
    }
    if wire::two_in(work, KEYS + KEY_SIZE * i + KEY_NAME) != name {
        return false;
    }
    work[i] == state as u8
}

// The slot of a key that is in use, or one that was freed.
fn find(work: &[u8], scope: u16, name: u16, state: SlotState) -> Option<usize>
    requires { 65536 ≤ length work.now }
    ensures { result ≡ slot_in (state_byte state) (slots_of work.now) scope name }
{
    let chain = chain_of(scope, name);
    let mut p = SLOTS;
    let mut link = wire::two_in(work, NAMES + NAME_SIZE * chain);
    while let Some(i) = counted_link(work, chain, p, link) {
        if is_for(work, i, scope, name, state) {
            return Some(i);
        }
        p = i;
        link = wire::two_in(work, LINKS + LINK_SIZE * p);
    }
    None
}

// Whether slot i is the first that was never used.
fn is_next(work: &[u8], i: usize) -> bool
    requires { 65536 ≤ length work.now }
    ensures { result ≡ true → Open (slots_of work.now) i }
{
    if SLOTS <= i {
        return false;
    }
    if work[i] != 0 {
        return false;
    }
    if i == 0 {
        return true;
    }
    work[i - 1] != 0
}

fn find_free(work: &[u8]) -> Option<usize>
    requires { 65536 ≤ length work.now }
    ensures { FindsOpen (slots_of work.now) result }
{
    work[..SLOTS]
        .iter()
        .position(|state| *state != SlotState::Used as u8)
}

// The hint spares the walk as long as there are slots that were never used.
fn find_open(work: &[u8]) -> Option<usize>
    requires { 65536 ≤ length work.now }
    ensures { FindsOpen (slots_of work.now) result }
{
    let hint = wire::two_in(work, HINT) as usize;
    if is_next(work, hint) {
        return Some(hint);
    }
    find_free(work)
}

// ---- Reads: the slot of a key, and what it holds in pieces

// The slot in use for a scope and a name.
pub fn slot_for(work: &[u8], scope: u16, name: u16) -> Option<usize>
    requires { 65536 ≤ length work.now }
    ensures { result ≡ slot_for (slots_of work.now) scope name }
{
    find(work, scope, name, SlotState::Used)
}

pub fn has_value(work: &[u8], i: usize) -> bool
    requires { (i < 512) × (65536 ≤ length work.now) }
    ensures { result ≡ is_some (value_in (slots_of work.now i)) }
{
    !records::is_empty(work, BODIES + BODY_SIZE * i)
}

// The value of a slot that has one, and the set of that value.
pub fn value_at(work: &[u8], i: usize) -> Value
    requires { (i < 512) × (65536 ≤ length work.now) }
    ensures { result ≡ (content_in work.now i).value }
{
    records::value_in(work, BODIES + BODY_SIZE * i)
}

pub fn labels_at(work: &[u8], i: usize) -> Labels
    requires { (i < 512) × (65536 ≤ length work.now) }
    ensures { result ≡ (content_in work.now i).labels }
{
    records::labels_in(work, BODIES + BODY_SIZE * i)
}

pub fn mark_at(work: &[u8], i: usize) -> Labels
    requires { (i < 512) × (65536 ≤ length work.now) }
    ensures { result ≡ set_at work.now (body_at i + body_mark) }
{
    Labels::read_within(work, BODIES + BODY_SIZE * i + BODY_MARK)
}

// ---- Stores at a slot

// A slot that was freed is still in the chain of its old key.
fn take_out(work: &mut [u8], j: usize)
    requires { (j < 512) × (65536 ≤ length work.old) }
    ensures { StoresAt j taken_out work.old work.new }
{
    let chain = chain_at(work, j);
    let p = last_above(work, chain, j);
    if next_of(work, chain, p) != Some(j) {
        return;
    }
    let next = next_of(work, chain, j);
    put_link(work, chain, p, next);
}

fn put_in(work: &mut [u8], j: usize, scope: u16, name: u16)
    requires { (j < 512) × ((65536 ≤ length work.old) × (is_reached (slots_of work.old j) ≡ false)) }
    ensures { StoresAt j (put_in scope name) work.old work.new }
{
    let chain = chain_of(scope, name);
    let p = last_above(work, chain, j);
    let next = next_of(work, chain, p);
    put_link(work, chain, j, next);
    wire::put_two(work, KEYS + KEY_SIZE * j, scope);
    wire::put_two(work, KEYS + KEY_SIZE * j + KEY_NAME, name);
    put_link(work, chain, p, Some(j));
}

// A slot that holds nothing is in use.
fn renew(work: &mut [u8], j: usize)
    requires { (j < 512) × (65536 ≤ length work.old) }
    ensures { StoresAt j renewed work.old work.new }
{
    wire::put_byte(work, j, SlotState::Used as u8);
    records::empty_record(work, BODIES + BODY_SIZE * j);
    Labels::EMPTY.write_within(work, BODIES + BODY_SIZE * j + BODY_MARK);
}

fn claim(work: &mut [u8], j: usize, scope: u16, name: u16)
    requires { (j < 512) × (65536 ≤ length work.old) }
    ensures { StoresAt j (claimed scope name) work.old work.new }
{
    take_out(work, j);
    renew(work, j);
    put_in(work, j, scope, name);
}

fn put_value(work: &mut [u8], i: usize, x: Labelled)
    requires { (i < 512) × (65536 ≤ length work.old) }
    ensures { StoresAt i (filled x) work.old work.new }
{
    records::put_record(work, BODIES + BODY_SIZE * i, x);
}

// Joins a set to the mark of a slot, in place.
fn join_at(work: &mut [u8], i: usize, set: Labels)
    requires { (i < 512) × (65536 ≤ length work.old) }
    ensures { StoresAt i (marked (set ∪ set_at work.old (body_at i + body_mark))) work.old work.new }
{
    labels::join_within(work, BODIES + BODY_SIZE * i + BODY_MARK, set);
}

// Claims a slot for a key that none is in use for: one that was freed stands in its chain already. None where all are in use.
fn claim_open(work: &mut [u8], scope: u16, name: u16) -> Option<usize>
    requires { 65536 ≤ length work.old }
    ensures { (Claims (slots_of work.old) scope name result (slots_of work.new)) × (beside_slots work.new ≡ beside_slots work.old) }
{
    if let Some(i) = find(work, scope, name, SlotState::Freed) {
        renew(work, i);
        return Some(i);
    }
    let j = find_open(work)?;
    claim(work, j, scope, name);
    wire::put_two(work, HINT, (j + 1) as u16);
    Some(j)
}

// The slot of a key, claimed if there is none; None where all are in use.
fn obtain(work: &mut [u8], scope: u16, name: u16) -> Option<usize>
    requires { 65536 ≤ length work.old }
    ensures { (Obtains (slots_of work.old) scope name result (slots_of work.new)) × (beside_slots work.new ≡ beside_slots work.old) }
{
    if let Some(i) = find(work, scope, name, SlotState::Used) {
        return Some(i);
    }
    claim_open(work, scope, name)
}

// ---- Cells

// Gives a variable its value.
pub fn assign(work: &mut [u8], scope: u16, name: u16, x: Labelled) -> Result<(), NotStored>
    requires { (65536 ≤ length work.old) × (name < 1024) }
    ensures { Answers work.old work.new result (λ p. state.assign p (scope_of scope) name x) }
{
    let i = obtain(work, scope, name).ok_or(NotStored::NoRoom)?;
    if has_value(work, i) {
        return Err(NotStored::HasValue);
    }
    put_value(work, i, x);
    Ok(())
}

// Joins a set to the mark of a variable.
pub fn join_mark(work: &mut [u8], scope: u16, name: u16, set: Labels) -> Result<(), NotStored>
    requires { (65536 ≤ length work.old) × (name < 1024) }
    ensures { Answers work.old work.new result (λ p. mark_one p (scope_of scope) name set) }
{
    let i = obtain(work, scope, name).ok_or(NotStored::NoRoom)?;
    join_at(work, i, set);
    Ok(())
}

// ---- Freeing a scope

// The low byte of the scope first: most slots fail there.
fn in_scope(work: &[u8], i: usize, scope: u16) -> bool
    requires { (i < 512) × (65536 ≤ length work.now) }
    ensures { result ≡ of_scope scope (slots_of work.now i) }
{
    let low = KEYS + KEY_SIZE * i + 1;
    if work[low] != (scope % 256) as u8 {
        return false;
    }
    if work[i] != SlotState::Used as u8 {
        return false;
    }
    wire::two_in(work, KEYS + KEY_SIZE * i) == scope
}

fn free_at(work: &mut [u8], i: usize, scope: u16)
    requires { (i < 512) × (65536 ≤ length work.old) }
    ensures { StoresAt i (freed_slot scope) work.old work.new }
{
    if in_scope(work, i, scope) {
        wire::put_byte(work, i, SlotState::Freed as u8);
    }
}

// Frees the cells of a scope; their slots are used again.
pub fn free_scope(work: &mut [u8], scope: u16)
    requires { (65536 ≤ length work.old) × Fine work.old }
    ensures { Becomes work.old work.new (free (scope_of scope)) (λ ns. ns) }
{
    for i in 0..SLOTS {
        if work[i] == 0 {
            return;
        }
        free_at(work, i, scope);
    }
}
