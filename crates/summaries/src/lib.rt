// Summaries of conditions. The walk over the text of a condition notes in the working memory what the long conditions nested in it assign and declare, and
// the tests of those take it from there, so that a text is not walked again for each condition around it.
#![tactic(auto)]

ghost use Rattle.std.specs.Prelude.{◌≡◌, true, false, ◌+◌, ◌≤◌, ◌<◌, length};
ghost use Rattle.wire.specs.Bytes.{end_of, fields_in};
ghost use Rattle.wire.specs.Runs.{over};
ghost use Rattle.rules.specs.declared.Kind.TheVariants.{Statement, Block, Branch};
ghost use Rattle.places.specs.At.{statement_at, block_at, statements_at, branches_at, StandsAs, Siblings};
ghost use Rattle.cells.specs.Layout.{summary_at};
ghost use Rattle.branches.specs.Texts.{both, text_of, text_in as text_inside, text_any, Small, held, Collects};
ghost use Rattle.summaries.specs.Lines.{number_bytes, Fit, line_of, text_in, line_bytes};
ghost use Rattle.summaries.specs.Summaries.{IsFor, Summarized, Notes, Walking, Summarizes};

use branches::{Collected, collect_at};
use cells::layout::{SUMMARIES, SUMMARY_DECLARES, SUMMARY_DEPTH, SUMMARY_NAMES, SUMMARY_SIZE};
use wire::{byte_in, end_in, two_in};

// A shorter condition is walked sooner than its summary is written and read.
const LONG: usize = 256;

// ---- Lines

// The line of the conditions with so many levels left: those nested in one another differ by two levels or more.
fn line_for(depth: u8) -> usize
    ensures { result < 16 }
{
    (depth / 2 % 16) as usize
}

// Whether a line is for the statement at `p` with `depth` levels left.
fn is_for(work: &[u8], line: usize, depth: u8, p: usize) -> bool
    requires { ((65536 ≤ length work.now) × (line < 16)) × (p < 65535) }
    ensures { result ≡ true → IsFor (line_of work.now line) depth p }
{
    let at = SUMMARIES + SUMMARY_SIZE * line;
    if two_in(work, at) as usize != p + 1 {
        return false;
    }
    byte_in(work, at + SUMMARY_DEPTH) == depth
}

// Takes what a text holds from its line.
fn recall(work: &[u8], line: usize, collected: &mut Collected)
    requires { (65536 ≤ length work.now) × (line < 16) }
    ensures { Collects collected.old collected.new (text_in (line_of work.now line)) }
{
    let at = SUMMARIES + SUMMARY_SIZE * line;
    for (i, word) in collected.names.iter_mut().enumerate() {
        *word |= wire::number_in(work, at + SUMMARY_NAMES + 8 * i);
    }
    collected.declares |= byte_in(work, at + SUMMARY_DECLARES) == 1;
}

// Stores the sixteen numbers of a set of names from `at` on.
fn put_names(work: &mut [u8], at: usize, names: &[u64; 16])
    requires { at + 128 ≤ length work.old }
    ensures { (work.new ≡ over work.old at (number_bytes names.now)) × Fit names.now }
{
    for (i, word) in names.iter().enumerate() {
        wire::put_eight(work, at + 8 * i, *word);
    }
}

fn write(work: &mut [u8], line: usize, depth: u8, p: usize, collected: &Collected)
    requires { ((65536 ≤ length work.old) × (line < 16)) × (p < 65535) }
    ensures { (work.new ≡ over work.old (summary_at line) (line_bytes p depth collected.now.declares collected.now.names)) × Fit collected.now.names }
{
    let at = SUMMARIES + SUMMARY_SIZE * line;
    wire::put_two(work, at, (p + 1) as u16);
    wire::put_byte(work, at + SUMMARY_DEPTH, depth);
    wire::put_byte(work, at + SUMMARY_DECLARES, collected.declares as u8);
    put_names(work, at + SUMMARY_NAMES, &collected.names);
}

// Whether a line is for a condition after `root` and up to `p` that is no shorter than the one at `p`.
fn has_longer(m: &[u8], work: &[u8], line: usize, root: usize, p: usize) -> bool
    requires { (65536 ≤ length work.now) × (line < 16) }
{
    let kept = two_in(work, SUMMARIES + SUMMARY_SIZE * line) as usize;
    let Some(old) = kept.checked_sub(1) else {
        return false;
    };
    if old <= root {
        return false;
    }
    if p < old {
        return false;
    }
    wire::length_at(m, p) <= wire::length_at(m, old)
}

// Keeps the summary of the condition at `p`, which the walk over the text at `root` has come to. Of several for one line the longest is kept, so that a text
// that is walked again is at most half as long.
fn keep(m: &[u8], root: usize, depth: u8, p: usize, work: &mut [u8], collected: &Collected)
    requires { ((65536 ≤ length work.old) × (p < 65535)) × (Summarized m.now work.old × (held collected.now ≡ text_of (statement_at m.now depth p))) }
    ensures { Notes m.now work.old work.new }
{
    let line = line_for(depth);
    if has_longer(m, work, line, root, p) {
        return;
    }
    write(work, line, depth, p, collected);
}

// ---- The walk. What a text holds joins what was collected before; `root` is the place of the condition whose test walks.

// The statement at `p`: from its line, or by its branches.
#[cycle(walk_any_walk_both_walk_condition_walk_in_walk_long_walk_nested_walk_statements)]
fn walk_condition(
    m: &[u8],
    root: usize,
    depth: u8,
    p: usize,
    work: &mut [u8],
    collected: &mut Collected,
)
    requires { Walking m.now work.old × (StandsAs m.now depth Statement p × Small (text_of (statement_at m.now depth p))) }
    ensures { Summarizes m.now work.old work.new collected.old collected.new (text_of (statement_at m.now depth p)) }
{
    let line = line_for(depth);
    if is_for(work, line, depth, p) {
        recall(work, line, collected);
        return;
    }
    match byte_in(m, p) {
        0x22 => walk_both(m, root, depth - 1, end_in(m, p + 3), work, collected),
        0x23 => walk_any(
            m,
            root,
            depth - 1,
            end_in(m, p + 3),
            end_in(m, p),
            work,
            collected,
        ),
        _ => collect_at(m, depth, p, collected),
    }
}

// The same, and its line is written.
#[cycle(walk_any_walk_both_walk_condition_walk_in_walk_long_walk_nested_walk_statements)]
fn walk_nested(
    m: &[u8],
    root: usize,
    depth: u8,
    p: usize,
    work: &mut [u8],
    collected: &mut Collected,
)
    requires { Walking m.now work.old × (StandsAs m.now depth Statement p × Small (text_of (statement_at m.now depth p))) }
    ensures { Summarizes m.now work.old work.new collected.old collected.new (text_of (statement_at m.now depth p)) }
{
    let mut own = Collected::NOTHING;
    walk_condition(m, root, depth, p, work, &mut own);
    keep(m, root, depth, p, work, &own);
    collected.join(&own);
}

// The long statement at `p`.
#[cycle(walk_any_walk_both_walk_condition_walk_in_walk_long_walk_nested_walk_statements)]
fn walk_long(m: &[u8], root: usize, depth: u8, p: usize, work: &mut [u8], collected: &mut Collected)
    requires { Walking m.now work.old × (StandsAs m.now depth Statement p × Small (text_of (statement_at m.now depth p))) }
    ensures { Summarizes m.now work.old work.new collected.old collected.new (text_of (statement_at m.now depth p)) }
{
    match byte_in(m, p) {
        0x22 | 0x23 => walk_nested(m, root, depth, p, work, collected),
        _ => collect_at(m, depth, p, collected),
    }
}

// The statements from `from` to `end`.
#[cycle(walk_any_walk_both_walk_condition_walk_in_walk_long_walk_nested_walk_statements)]
fn walk_statements(
    m: &[u8],
    root: usize,
    depth: u8,
    from: usize,
    end: usize,
    work: &mut [u8],
    collected: &mut Collected,
)
    requires { Walking m.now work.old × (Siblings m.now depth Statement from end × Small (text_inside (statements_at m.now depth (fields_in m.now from end)))) }
    ensures { Summarizes m.now work.old work.new collected.old collected.new (text_inside (statements_at m.now depth (fields_in m.now from end))) }
{
    let mut q = from;
    while q < end {
        let next = end_in(m, q);
        if next - q < LONG {
            collect_at(m, depth, q, collected);
            q = next;
            continue;
        }
        walk_long(m, root, depth, q, work, collected);
        q = next;
    }
}

// The block at `p`, which ends at `end`. An empty one costs no call, once this is merged into its callers.
#[cycle(walk_any_walk_both_walk_condition_walk_in_walk_long_walk_nested_walk_statements)]
fn walk_in(
    m: &[u8],
    root: usize,
    depth: u8,
    p: usize,
    end: usize,
    work: &mut [u8],
    collected: &mut Collected,
)
    requires { Walking m.now work.old × ((StandsAs m.now depth Block p × Small (text_inside (block_at m.now depth p))) × (end ≡ end_of m.now p)) }
    ensures { Summarizes m.now work.old work.new collected.old collected.new (text_inside (block_at m.now depth p)) }
{
    if p + 3 < end {
        walk_statements(m, root, depth - 1, p + 3, end, work, collected);
    }
}

// The block at `p` and the one after it: the branches of an if.
#[cycle(walk_any_walk_both_walk_condition_walk_in_walk_long_walk_nested_walk_statements)]
fn walk_both(m: &[u8], root: usize, depth: u8, p: usize, work: &mut [u8], collected: &mut Collected)
    requires { Walking m.now work.old × ((StandsAs m.now depth Block p × StandsAs m.now depth Block (end_of m.now p)) × Small (both (text_inside (block_at m.now depth p)) (text_inside (block_at m.now depth (end_of m.now p))))) }
    ensures { Summarizes m.now work.old work.new collected.old collected.new (both (text_inside (block_at m.now depth p)) (text_inside (block_at m.now depth (end_of m.now p)))) }
{
    let second = end_in(m, p);
    walk_in(m, root, depth, p, second, work, collected);
    walk_in(m, root, depth, second, end_in(m, second), work, collected);
}

// The 24s from `from` to `end`: the branches of a case.
#[cycle(walk_any_walk_both_walk_condition_walk_in_walk_long_walk_nested_walk_statements)]
fn walk_any(
    m: &[u8],
    root: usize,
    depth: u8,
    from: usize,
    end: usize,
    work: &mut [u8],
    collected: &mut Collected,
)
    requires { Walking m.now work.old × (Siblings m.now depth Branch from end × Small (text_any (branches_at m.now depth (fields_in m.now from end)))) }
    ensures { Summarizes m.now work.old work.new collected.old collected.new (text_any (branches_at m.now depth (fields_in m.now from end))) }
{
    let mut q = from;
    while q < end {
        let block = end_in(m, q + 3);
        let next = end_in(m, q);
        walk_in(m, root, depth - 1, block, next, work, collected);
        q = next;
    }
}

// The statement at `p` with `depth` levels left, for the test of a condition. The summaries of the long conditions nested in it are kept.
pub fn summarize(m: &[u8], depth: u8, p: usize, work: &mut [u8], collected: &mut Collected)
    requires { Walking m.now work.old × (StandsAs m.now depth Statement p × Small (text_of (statement_at m.now depth p))) }
    ensures { Summarizes m.now work.old work.new collected.old collected.new (text_of (statement_at m.now depth p)) }
{
    if end_in(m, p) - p < LONG {
        collect_at(m, depth, p, collected);
        return;
    }
    walk_condition(m, p, depth, p, work, collected);
}
