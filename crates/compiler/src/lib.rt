// A whole compile: from a manifest and a device name to the device's catalog.
#![tactic(auto)]

ghost use Rattle.std.specs.Prelude.{◌≡◌, List, [], ◌∷◌, ℕ, ◌≤◌, length, Bool};
ghost use Rattle.wire.specs.Runs.{zeros};
ghost use Rattle.rules.specs.Check.{check};
ghost use Rattle.rules.specs.Types.{Types, the_eight, lent, check_types};
ghost use Rattle.type_list.specs.Listed.{chosen};
ghost use Rattle.syntax.specs.Before.{before};
ghost use Rattle.syntax.specs.Nodes.{item_places};
ghost use Rattle.catalog.specs.Making.{cleared_from};
ghost use Rattle.execution.specs.Executed.{Able};
ghost use Rattle.definitions.specs.Defined.{ItemStands};
ghost use Rattle.compiler.specs.Compiled.{Leaves, Compiles};
ghost use Rattle.compiler.specs.Running.{chosen_of, is_chosen, RunsTo, RunsManifest};
ghost use Rattle.rules.specs.Tree.{Constant};
ghost use Rattle.rules.specs.Compile.{none_struck_out};
ghost use Rattle.definitions.specs.Prepared.{Prepares};
ghost use Rattle.provenance.specs.Notes.{Question, nothing_asked, Noted};
ghost use Rattle.rules.specs.Verdicts.{no_fault};
ghost use Rattle.values.specs.Answers.{refused_for};

use labels::Labels;
use memory::Context;
use values::{Answer, Compiled, Reason, Refusal};

// ---- Items

// Whether the node at p is the one that runs.
fn is_chosen(node: Option<u16>, p: usize) -> bool
    ensures { result ≡ is_chosen (chosen_of node) p }
{
    match node {
        Some(q) => p == q as usize,
        None => false,
    }
}

// The item at p, if it runs. A definition does nothing where it stands.
fn run_item(
    m: &[u8],
    node: Option<u16>,
    p: usize,
    work: &mut [u8],
    out: &mut [u8],
    fill: usize,
    left: &mut u16,
) -> Result<usize, Refusal>
    requires { Able m.now work.old out.old fill × ItemStands m.now p }
    ensures { (ps : List ℕ) → RunsTo m.now work.old work.new out.old out.new fill left.old left.new (chosen_of node) (p ∷ ps) ps result }
{
    match wire::byte_at(m, p) {
        0x30 => {
            if !is_chosen(node, p) {
                return Ok(fill);
            }
            let block = definitions::node_block(m, p);
            let here = Context {
                scope: memory::NODE,
                path: Labels::EMPTY,
            };
            execution::run_block(m, 31, block, work, out, fill, left, 17, here)
        }
        0x32 | 0x34 => Ok(fill),
        _ => {
            let here = Context {
                scope: memory::TOP,
                path: Labels::EMPTY,
            };
            execution::run_statement(m, 32, p, work, out, fill, left, 17, here)
        }
    }
}

// "Items run in order."
fn run_items(
    m: &[u8],
    node: Option<u16>,
    work: &mut [u8],
    out: &mut [u8],
    left: &mut u16,
) -> Result<usize, Refusal>
    requires { Able m.now work.old out.old 0 × (check m.now ≡ no_fault) }
    ensures { RunsTo m.now work.old work.new out.old out.new 0 left.old left.new (chosen_of node) (item_places m.now) [] result }
{
    let mut filled: usize = 0;
    for p in wire::fields_in(m, wire::end_of(m, 0), m.len()) {
        filled = run_item(m, node, p, work, out, filled, left)?;
    }
    Ok(filled)
}

// A sound manifest, the memory prepared for it: its definitions, then its items.
pub fn run_prepared(
    m: &[u8],
    device: &[u8],
    out: &mut [u8],
    work: &mut [u8],
    left: &mut u16,
) -> Result<usize, Refusal>
    requires { ((check m.now ≡ no_fault) × (length m.now ≤ 65535)) × Able m.now work.old out.old 0 }
    ensures { (types : Types) (s : Constant → Bool) (ask : Question) → Prepares types m.now work.old s → Noted work.old ask [] → RunsManifest types s ask m.now device.now work.new out.old out.new left.old left.new result }
{
    definitions::gather(m, work)?;
    let node = definitions::choose_node(m, device);
    run_items(m, node, work, out, left)
}

// A sound manifest, whatever the memory holds.
fn run_manifest(
    types: &[u8],
    m: &[u8],
    device: &[u8],
    out: &mut [u8],
    work: &mut [u8],
    left: &mut u16,
) -> Result<usize, Refusal>
    requires { ((check_types (chosen types.now) ≡ no_fault) × ((check m.now ≡ no_fault) × (length m.now ≤ 65535))) × (65536 ≤ length work.old) }
    ensures { RunsManifest (chosen types.now) none_struck_out nothing_asked m.now device.now work.new out.old out.new left.old left.new result }
{
    definitions::prepare(types, m, work);
    run_prepared(m, device, out, work, left)
}

// ---- The whole

// A refusal: "after a refusal the output and the working memory are zero throughout".
fn refuse(refusal: Refusal, out: &mut [u8], work: &mut [u8]) -> Answer
    ensures { (result ≡ refused_for refusal.reason refusal.place) × ((out.new ≡ cleared_from 0 out.old) × (work.new ≡ zeros (length work.old))) }
{
    memory::clear(work);
    catalog::clear_rest(out, 0);
    Err(refusal)
}

// A sound manifest, and the bytes lent cleared after it.
fn run_checked(
    types: &[u8],
    m: &[u8],
    device: &[u8],
    limit: u16,
    out: &mut [u8],
    work: &mut [u8],
) -> Answer
    requires { (65536 ≤ length work.old) × ((check_types (chosen types.now) ≡ no_fault) × (before m.now ≡ no_fault)) }
    ensures { Leaves (chosen types.now) m.now device.now limit out.old out.new work.old work.new result }
{
    let mut left = limit;
    match run_manifest(types, m, device, out, work, &mut left) {
        Err(refusal) => refuse(refusal, out, work),
        Ok(filled) => {
            memory::clear(work);
            catalog::clear_rest(out, filled);
            Ok(Compiled {
                length: filled as u16,
                steps: limit - left,
            })
        }
    }
}

// Memory that is long enough, and types without fault: an empty list means the eight.
fn compile_chosen(
    types: &[u8],
    manifest: &[u8],
    device: &[u8],
    limit: u16,
    out: &mut [u8],
    work: &mut [u8],
) -> Answer
    requires { (65536 ≤ length work.old) × (check_types (chosen types.now) ≡ no_fault) }
    ensures { Compiles (chosen types.now) manifest.now device.now limit out.old out.new work.old work.new result }
{
    match syntax::check_all(manifest) {
        Err(fault) => refuse(Refusal::from(fault), out, work),
        Ok(()) => run_checked(types, manifest, device, limit, out, work),
    }
}

// The catalog of a device, or the first refusal; the eight types are built in. Every byte of `out` and `work` is determined: the catalog and then zeros, or zeros
// throughout; the memory is zero.
pub fn compile(
    manifest: &[u8],
    device: &[u8],
    limit: u16,
    out: &mut [u8],
    work: &mut [u8],
) -> Answer
    ensures { Compiles the_eight manifest.now device.now limit out.old out.new work.old work.new result }
{
    if work.len() < 65536 {
        return refuse(Refusal::at(Reason::MemoryTooShort, 0), out, work);
    }
    compile_chosen(b"", manifest, device, limit, out, work)
}

// The same with a list of types, which replaces the eight.
pub fn compile_with_types(
    types: &[u8],
    manifest: &[u8],
    device: &[u8],
    limit: u16,
    out: &mut [u8],
    work: &mut [u8],
) -> Answer
    ensures { Compiles (lent types.now) manifest.now device.now limit out.old out.new work.old work.new result }
{
    if work.len() < 65536 {
        return refuse(Refusal::at(Reason::MemoryTooShort, 0), out, work);
    }
    match type_list::check_types(types) {
        Err(fault) => refuse(Refusal::from(fault), out, work),
        Ok(()) => compile_chosen(types, manifest, device, limit, out, work),
    }
}
