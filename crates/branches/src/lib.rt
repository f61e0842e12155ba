// What the branches of a condition hold, taken or not: read in place from the manifest's bytes, where they stand soundly. One walk collects the names that
// they assign, and tells whether they declare; then the condition's set joins the mark of each name once.
#![tactic(auto)]

ghost use Rattle.std.specs.Prelude.{◌≡◌, ◌≤◌, ◌<◌, length};
ghost use Rattle.wire.specs.Bytes.{end_of, fields_in};
ghost use Rattle.rules.specs.declared.Kind.TheVariants.{Statement, Block, Branch};
ghost use Rattle.places.specs.At.{statement_at, block_at, statements_at, branches_at, StandsAs, Siblings};
ghost use Rattle.cells.specs.Scopes.{scope_of};
ghost use Rattle.branches.specs.Names.{contains, in_word, four_from, holds_none};
ghost use Rattle.branches.specs.Texts.{named, both, text_of, text_in, text_any, Small, held, Collects};
ghost use Rattle.branches.specs.Marks.{Marks};

use cells::{NotStored, join_mark};
pub use collected::Collected;
use labels::Labels;
use wire::{byte_in, end_in, two_in};

mod collected; // collected.rt: the struct

// ---- What a text holds

impl Collected {
    // One name more.
    fn insert(&mut self, name: u16)
        requires { name < 1024 }
        ensures { Collects self.old self.new (named name) }
    {
        self.names[(name / 64) as usize] |= 1u64 << (name % 64);
    }

    // All that another text holds.
    pub fn join(&mut self, more: &Collected)
        ensures { Collects self.old self.new (held more.now) }
    {
        for (i, word) in self.names.iter_mut().enumerate() {
            *word |= more.names[i];
        }
        self.declares |= more.declares;
    }
}

// ---- The walk: what a text holds joins what was collected before

// The statement at `p`.
#[cycle(collect_any_collect_at_collect_both_collect_in_collect_statements)]
pub fn collect_at(m: &[u8], depth: u8, p: usize, collected: &mut Collected)
    requires { (length m.now ≤ 65535) × (StandsAs m.now depth Statement p × Small (text_of (statement_at m.now depth p))) }
    ensures { Collects collected.old collected.new (text_of (statement_at m.now depth p)) }
{
    match byte_in(m, p) {
        0x21 => collected.insert(two_in(m, p + 3)),
        0x22 => collect_both(m, depth - 1, end_in(m, p + 3), collected),
        0x23 => collect_any(m, depth - 1, end_in(m, p + 3), end_in(m, p), collected),
        0x27 | 0x28 | 0x29 => collected.declares = true,
        _ => {}
    }
}

// The statements from `from` to `end`.
#[cycle(collect_any_collect_at_collect_both_collect_in_collect_statements)]
fn collect_statements(m: &[u8], depth: u8, from: usize, end: usize, collected: &mut Collected)
    requires { (length m.now ≤ 65535) × (Siblings m.now depth Statement from end × Small (text_in (statements_at m.now depth (fields_in m.now from end)))) }
    ensures { Collects collected.old collected.new (text_in (statements_at m.now depth (fields_in m.now from end))) }
{
    let mut q = from;
    while q < end {
        collect_at(m, depth, q, collected);
        q = end_in(m, q);
    }
}

// The block at `p`, which ends at `end`. An empty one costs no call, once this is merged into its callers.
#[cycle(collect_any_collect_at_collect_both_collect_in_collect_statements)]
fn collect_in(m: &[u8], depth: u8, p: usize, end: usize, collected: &mut Collected)
    requires { (length m.now ≤ 65535) × ((StandsAs m.now depth Block p × Small (text_in (block_at m.now depth p))) × (end ≡ end_of m.now p)) }
    ensures { Collects collected.old collected.new (text_in (block_at m.now depth p)) }
{
    if p + 3 < end {
        collect_statements(m, depth - 1, p + 3, end, collected);
    }
}

// The block at `p` and the one after it: the branches of an if.
#[cycle(collect_any_collect_at_collect_both_collect_in_collect_statements)]
fn collect_both(m: &[u8], depth: u8, p: usize, collected: &mut Collected)
    requires { (length m.now ≤ 65535) × ((StandsAs m.now depth Block p × StandsAs m.now depth Block (end_of m.now p)) × Small (both (text_in (block_at m.now depth p)) (text_in (block_at m.now depth (end_of m.now p))))) }
    ensures { Collects collected.old collected.new (both (text_in (block_at m.now depth p)) (text_in (block_at m.now depth (end_of m.now p)))) }
{
    let second = end_in(m, p);
    collect_in(m, depth, p, second, collected);
    collect_in(m, depth, second, end_in(m, second), collected);
}

// The 24s from `from` to `end`: the branches of a case.
#[cycle(collect_any_collect_at_collect_both_collect_in_collect_statements)]
fn collect_any(m: &[u8], depth: u8, from: usize, end: usize, collected: &mut Collected)
    requires { (length m.now ≤ 65535) × (Siblings m.now depth Branch from end × Small (text_any (branches_at m.now depth (fields_in m.now from end)))) }
    ensures { Collects collected.old collected.new (text_any (branches_at m.now depth (fields_in m.now from end))) }
{
    let mut q = from;
    while q < end {
        let block = end_in(m, q + 3);
        let next = end_in(m, q);
        collect_in(m, depth - 1, block, next, collected);
        q = next;
    }
}

// ---- Marks: a set joined to the mark of each name collected, in rising order

// The names in word i.
fn mark_word(work: &mut [u8], scope: u16, i: u16, word: u64, k: Labels) -> Result<(), NotStored>
    requires { (65536 ≤ length work.old) × (i < 16) }
    ensures { Marks work.old work.new result (scope_of scope) (in_word i word) k }
{
    let mut at = i * 64;
    let mut rest = word;
    while rest != 0 {
        let zeros = u64::trailing_zeros(rest);
        let name = at + zeros as u16;
        join_mark(work, scope, name, k)?;
        rest = (rest >> zeros) >> 1u32;
        at = name + 1;
    }
    Ok(())
}

// Four words joined, from word i on.
fn join_four(names: &[u64; 16], i: usize) -> u64
    requires { i < 13 }
    ensures { result ≡ four_from names.now i }
{
    names[i] | names[i + 1] | names[i + 2] | names[i + 3]
}

// Whether the set holds no name. Straight: with a loop of sixteen tests, short conditions take up to a tenth longer.
fn is_empty(names: &[u64; 16]) -> bool
    ensures { result ≡ holds_none names.now }
{
    (join_four(names, 0) | join_four(names, 4) | join_four(names, 8) | join_four(names, 12)) == 0
}

// All of them, up to the first that no cell is left for.
pub fn mark_names(
    work: &mut [u8],
    scope: u16,
    names: &[u64; 16],
    k: Labels,
) -> Result<(), NotStored>
    requires { 65536 ≤ length work.old }
    ensures { Marks work.old work.new result (scope_of scope) (contains names.now) k }
{
    if is_empty(names) {
        return Ok(());
    }
    for (i, word) in names.iter().enumerate() {
        mark_word(work, scope, i as u16, *word, k)?;
    }
    Ok(())
}
