// Blocks, statements and declarations, which call one another. What falls with each call joins the steps left, the levels left and the depth left. What an answer means is in specs/.
#![tactic(auto)]

ghost use Rattle.std.specs.Prelude.{◌≡◌, false, List, [], ℕ, ◌+◌, ◌-◌, ◌≤◌, ◌<◌, leb, Ok, Err};
ghost use Rattle.values.specs.declared.Reason.TheVariants.{DeclaredAgain};
ghost use Rattle.values.specs.Refusals.{refusal_at};
ghost use Rattle.wire.specs.Bytes.{pick, byte, two, end_of, fields_in};
ghost use Rattle.rules.specs.Tree.{include};
ghost use Rattle.rules.specs.Run.{Given, run, run_block, of_type, in_branch, in_body, declaration, parent_first};
ghost use Rattle.rules.specs.Compile.{room_in};
ghost use Rattle.rules.specs.declared.Kind.TheVariants.{Statement, Block};
ghost use Rattle.places.specs.At.{statement_at, block_at, parent_at, StandsAs};
ghost use Rattle.memory.specs.Contexts.{context_of};
ghost use Rattle.attributes.specs.Names.{Alike};
ghost use Rattle.attributes.specs.Table.{Gives};
ghost use Rattle.declarations.specs.Standing.{NamesKnown};
ghost use Rattle.declarations.specs.Classes.{ClassStands};
ghost use Rattle.execution.specs.Executed.{Able, GivenFrom, FreshFor, Executes, Enters, begun, body_run, asked};

use attributes::{SMALL_NAMES, SMALL_TABLE, Span, TABLE, evaluate_attributes};
use declarations::Request;
use labels::Labels;
use memory::{Context, Scope};
use values::{Labelled, Reason, Refusal};

// What a 29 or a 35 gives to the class that it declares.
const NONE_GIVEN: Span = Span { first: 0, end: 0 };

// ---- Blocks and statements

// The block at p, with `depth` levels of fields left for it.
#[cycle(declare_class_declare_parent_declare_type_enter_class_gather_gather_class_gather_type_run_begun_run_block_run_body_run_case_run_class_run_given_run_if_run_include_run_statement_run_type)]
pub fn run_block(
    m: &[u8],
    depth: u8,
    p: usize,
    work: &mut [u8],
    out: &mut [u8],
    fill: usize,
    left: &mut u16,
    levels: u8,
    here: Context,
) -> Result<usize, Refusal>
    requires { Able m.now work.old out.old fill × (StandsAs m.now depth Block p × NamesKnown m.now p) }
    ensures { Executes m.now work.old work.new out.old out.new fill left.old left.new (context_of here) result (λ k. run_block k (declaration k levels) (block_at m.now depth p)) }
{
    let end = wire::end_of(m, p);
    let mut q = p + 3;
    let mut filled = fill;
    while q < end {
        filled = run_statement(m, depth - 1, q, work, out, filled, left, levels, here)?;
        q = wire::end_of(m, q);
    }
    Ok(filled)
}

// The statement at p: "each statement begun counts one".
#[cycle(declare_class_declare_parent_declare_type_enter_class_gather_gather_class_gather_type_run_begun_run_block_run_body_run_case_run_class_run_given_run_if_run_include_run_statement_run_type)]
pub fn run_statement(
    m: &[u8],
    depth: u8,
    p: usize,
    work: &mut [u8],
    out: &mut [u8],
    fill: usize,
    left: &mut u16,
    levels: u8,
    here: Context,
) -> Result<usize, Refusal>
    requires { Able m.now work.old out.old fill × (StandsAs m.now depth Statement p × NamesKnown m.now p) }
    ensures { Executes m.now work.old work.new out.old out.new fill left.old left.new (context_of here) result (begun levels p (statement_at m.now depth p)) }
{
    let steps = *left;
    if steps == 0 {
        return Err(Refusal::at(Reason::StepLimit, p));
    }
    *left = steps - 1;
    run_begun(m, depth, p, work, out, fill, left, levels, here)
}

// A statement after its step, by its tag.
#[cycle(declare_class_declare_parent_declare_type_enter_class_gather_gather_class_gather_type_run_begun_run_block_run_body_run_case_run_class_run_given_run_if_run_include_run_statement_run_type)]
fn run_begun(
    m: &[u8],
    depth: u8,
    p: usize,
    work: &mut [u8],
    out: &mut [u8],
    fill: usize,
    left: &mut u16,
    levels: u8,
    here: Context,
) -> Result<usize, Refusal>
    requires { Able m.now work.old out.old fill × (StandsAs m.now depth Statement p × NamesKnown m.now p) }
    ensures { Executes m.now work.old work.new out.old out.new fill left.old left.new (context_of here) result (λ k. run k (declaration k levels) (statement_at m.now depth p)) }
{
    match wire::byte_at(m, p) {
        0x21 => run_assignment(m, depth, p, work, out, fill, here),
        0x22 => run_if(m, depth, p, work, out, fill, left, levels, here),
        0x23 => run_case(m, depth, p, work, out, fill, left, levels, here),
        0x25 => run_resource(m, depth, p, work, out, fill, here),
        0x27 => run_type(m, depth, p, work, out, fill, left, levels, here),
        0x28 => run_class(m, depth, p, work, out, fill, left, levels, here),
        _ => run_include(m, p, work, out, fill, left, levels, here),
    }
}

// ---- Statements that run no other

// The 21 at p.
fn run_assignment(
    m: &[u8],
    depth: u8,
    p: usize,
    work: &mut [u8],
    out: &[u8],
    fill: usize,
    here: Context,
) -> Result<usize, Refusal>
    requires { (Able m.now work.old out.now fill × (StandsAs m.now depth Statement p × NamesKnown m.now p)) × (byte m.now p ≡ 0x21) }
    ensures { (n levels : ℕ) → Executes m.now work.old work.new out.now out.now fill n n (context_of here) result (λ k. run k (declaration k levels) (statement_at m.now depth p)) }
{
    statements::assign(m, depth, p, work, out, fill, here)?;
    Ok(fill)
}

// How many bytes entries may take in all.
fn room_in(length: usize) -> usize
    ensures { result ≡ room_in length }
{
    if length <= 65535 { length } else { 65535 }
}

// The 25 at p. Its entry, if it gets one, goes into the index too, and what is asked about is noted.
fn run_resource(
    m: &[u8],
    depth: u8,
    p: usize,
    work: &mut [u8],
    out: &mut [u8],
    fill: usize,
    here: Context,
) -> Result<usize, Refusal>
    requires { (Able m.now work.old out.old fill × (StandsAs m.now depth Statement p × NamesKnown m.now p)) × (byte m.now p ≡ 0x25) }
    ensures { (n levels : ℕ) → Executes m.now work.old work.new out.old out.new fill n n (context_of here) result (λ k. run k (declaration k levels) (statement_at m.now depth p)) }
{
    provenance::note_resource(m, depth, p, work, out, fill, here);
    let built_in = memory::built_in(work, wire::two_at(m, p + 3));
    let room = room_in(out.len()) - fill;
    let more = resources::add_resource(m, depth, p, work, out, fill, room, here, built_in)?;
    catalog_index::index_entry(work, out, fill, more);
    Ok(more)
}

// ---- Conditions

// The block of the if at p that runs.
fn chosen_block(m: &[u8], p: usize, yes: bool) -> usize
    requires { (p ≤ 65535) × (end_of m.now (p + 3) ≤ 65535) }
    ensures { result ≡ pick yes (end_of m.now (p + 3)) (end_of m.now (end_of m.now (p + 3))) }
{
    let first = wire::end_of(m, p + 3);
    if yes { first } else { wire::end_of(m, first) }
}

// Whether the block at p has no statement: it then does nothing.
fn is_empty_block(m: &[u8], p: usize) -> bool
    requires { p ≤ 65535 }
    ensures { result ≡ leb (end_of m.now p) (p + 3) }
{
    wire::end_of(m, p) <= p + 3
}

// Where the block of a condition runs: its set is added to the path.
fn branch_context(here: Context, set: Labels) -> Context
    ensures { context_of result ≡ in_branch set (context_of here) }
{
    Context {
        scope: here.scope,
        path: set.union(here.path),
    }
}

// The 22 at p.
#[cycle(declare_class_declare_parent_declare_type_enter_class_gather_gather_class_gather_type_run_begun_run_block_run_body_run_case_run_class_run_given_run_if_run_include_run_statement_run_type)]
fn run_if(
    m: &[u8],
    depth: u8,
    p: usize,
    work: &mut [u8],
    out: &mut [u8],
    fill: usize,
    left: &mut u16,
    levels: u8,
    here: Context,
) -> Result<usize, Refusal>
    requires { (Able m.now work.old out.old fill × (StandsAs m.now depth Statement p × NamesKnown m.now p)) × (byte m.now p ≡ 0x22) }
    ensures { Executes m.now work.old work.new out.old out.new fill left.old left.new (context_of here) result (λ k. run k (declaration k levels) (statement_at m.now depth p)) }
{
    let branch = statements::test_if(m, depth, p, work, out, fill, here)?;
    let block = chosen_block(m, p, branch.yes);
    if is_empty_block(m, block) {
        return Ok(fill);
    }
    let inside = branch_context(here, branch.set);
    run_block(m, depth - 1, block, work, out, fill, left, levels, inside)
}

// The 23 at p: "A case without a match does nothing."
#[cycle(declare_class_declare_parent_declare_type_enter_class_gather_gather_class_gather_type_run_begun_run_block_run_body_run_case_run_class_run_given_run_if_run_include_run_statement_run_type)]
fn run_case(
    m: &[u8],
    depth: u8,
    p: usize,
    work: &mut [u8],
    out: &mut [u8],
    fill: usize,
    left: &mut u16,
    levels: u8,
    here: Context,
) -> Result<usize, Refusal>
    requires { (Able m.now work.old out.old fill × (StandsAs m.now depth Statement p × NamesKnown m.now p)) × (byte m.now p ≡ 0x23) }
    ensures { Executes m.now work.old work.new out.old out.new fill left.old left.new (context_of here) result (λ k. run k (declaration k levels) (statement_at m.now depth p)) }
{
    let branch = statements::test_case(m, depth, p, work, out, fill, here)?;
    let Some(block) = branch.block else {
        return Ok(fill);
    };
    if is_empty_block(m, block) {
        return Ok(fill);
    }
    let inside = branch_context(here, branch.set);
    run_block(m, depth - 2, block, work, out, fill, left, levels, inside)
}

// ---- Declarations

// The 27 at p. Where nothing is given no table is made.
#[cycle(declare_class_declare_parent_declare_type_enter_class_gather_gather_class_gather_type_run_begun_run_block_run_body_run_case_run_class_run_given_run_if_run_include_run_statement_run_type)]
fn run_type(
    m: &[u8],
    depth: u8,
    p: usize,
    work: &mut [u8],
    out: &mut [u8],
    fill: usize,
    left: &mut u16,
    levels: u8,
    here: Context,
) -> Result<usize, Refusal>
    requires { (Able m.now work.old out.old fill × (StandsAs m.now depth Statement p × NamesKnown m.now p)) × (byte m.now p ≡ 0x27) }
    ensures { Executes m.now work.old work.new out.old out.new fill left.old left.new (context_of here) result (λ k. run k (declaration k levels) (statement_at m.now depth p)) }
{
    let first = wire::end_of(m, p + 5);
    if wire::end_of(m, p) <= first {
        let mut none = [0u8; 1];
        return gather_type(m, depth, p, work, out, fill, left, levels, here, &mut none);
    }
    run_given(m, depth, p, first, work, out, fill, left, levels, here)
}

// The 28 at p, likewise.
#[cycle(declare_class_declare_parent_declare_type_enter_class_gather_gather_class_gather_type_run_begun_run_block_run_body_run_case_run_class_run_given_run_if_run_include_run_statement_run_type)]
fn run_class(
    m: &[u8],
    depth: u8,
    p: usize,
    work: &mut [u8],
    out: &mut [u8],
    fill: usize,
    left: &mut u16,
    levels: u8,
    here: Context,
) -> Result<usize, Refusal>
    requires { (Able m.now work.old out.old fill × (StandsAs m.now depth Statement p × NamesKnown m.now p)) × (byte m.now p ≡ 0x28) }
    ensures { Executes m.now work.old work.new out.old out.new fill left.old left.new (context_of here) result (λ k. run k (declaration k levels) (statement_at m.now depth p)) }
{
    let first = p + 5;
    if wire::end_of(m, p) <= first {
        let mut none = [0u8; 1];
        return gather_class(m, depth, p, work, out, fill, left, levels, here, &mut none);
    }
    run_given(m, depth, p, first, work, out, fill, left, levels, here)
}

// The 27 or 28 at p, whose attributes begin at `first`, with a table that has a row for each of their names.
// It is called from two places, and so it is not merged into its callers in the compiled code: a frame of a nested condition or of a declaration that gives
// nothing has no table of 49 KB, and does not touch its pages.
#[cycle(declare_class_declare_parent_declare_type_enter_class_gather_gather_class_gather_type_run_begun_run_block_run_body_run_case_run_class_run_given_run_if_run_include_run_statement_run_type)]
fn run_given(
    m: &[u8],
    depth: u8,
    p: usize,
    first: usize,
    work: &mut [u8],
    out: &mut [u8],
    fill: usize,
    left: &mut u16,
    levels: u8,
    here: Context,
) -> Result<usize, Refusal>
    requires { (Able m.now work.old out.old fill × (StandsAs m.now depth Statement p × NamesKnown m.now p)) × GivenFrom m.now p first }
    ensures { Executes m.now work.old work.new out.old out.new fill left.old left.new (context_of here) result (λ k. run k (declaration k levels) (statement_at m.now depth p)) }
{
    let end = wire::end_of(m, p);
    if attributes::has_name_from(m, first, end, SMALL_NAMES) {
        let mut table = [0u8; TABLE];
        return gather(m, depth, p, work, out, fill, left, levels, here, &mut table);
    }
    let mut table = [0u8; SMALL_TABLE];
    gather(m, depth, p, work, out, fill, left, levels, here, &mut table)
}

// The same, with the table: the attributes are gathered in it, and then the type or the class is declared.
#[cycle(declare_class_declare_parent_declare_type_enter_class_gather_gather_class_gather_type_run_begun_run_block_run_body_run_case_run_class_run_given_run_if_run_include_run_statement_run_type)]
fn gather(
    m: &[u8],
    depth: u8,
    p: usize,
    work: &mut [u8],
    out: &mut [u8],
    fill: usize,
    left: &mut u16,
    levels: u8,
    here: Context,
    table: &mut [u8],
) -> Result<usize, Refusal>
    requires { (Able m.now work.old out.old fill × (StandsAs m.now depth Statement p × NamesKnown m.now p)) × FreshFor m.now table.old p }
    ensures { Executes m.now work.old work.new out.old out.new fill left.old left.new (context_of here) result (λ k. run k (declaration k levels) (statement_at m.now depth p)) }
{
    if wire::byte_at(m, p) == 0x28 {
        return gather_class(m, depth, p, work, out, fill, left, levels, here, table);
    }
    gather_type(m, depth, p, work, out, fill, left, levels, here, table)
}

// ---- Types

// The 27 at p: its title is evaluated, its attributes are gathered in the table, and then its type is declared.
#[cycle(declare_class_declare_parent_declare_type_enter_class_gather_gather_class_gather_type_run_begun_run_block_run_body_run_case_run_class_run_given_run_if_run_include_run_statement_run_type)]
fn gather_type(
    m: &[u8],
    depth: u8,
    p: usize,
    work: &mut [u8],
    out: &mut [u8],
    fill: usize,
    left: &mut u16,
    levels: u8,
    here: Context,
    table: &mut [u8],
) -> Result<usize, Refusal>
    requires { (Able m.now work.old out.old fill × (StandsAs m.now depth Statement p × NamesKnown m.now p)) × ((byte m.now p ≡ 0x27) × FreshFor m.now table.old p) }
    ensures { Executes m.now work.old work.new out.old out.new fill left.old left.new (context_of here) result (λ k. run k (declaration k levels) (statement_at m.now depth p)) }
{
    let x = attributes::evaluate_titled(m, depth, p, work, out, fill, here.scope, table)?;
    declare_type(m, p, table, x, work, out, fill, left, levels, here)
}

// Where the body of a type runs, with `levels` levels left for what it declares: in a scope of its own, on the base and the path of its declarer.
fn body_context(here: Context, levels: u8) -> Context
    ensures { context_of result ≡ in_body levels (context_of here) }
{
    let scope = Scope {
        number: 1026 + levels as u16,
        base_is_node: here.scope.base_is_node,
    };
    Context {
        scope,
        path: here.path,
    }
}

// The declaration of a type by the 27 at p, whose title is x and whose attributes are in the table.
#[cycle(declare_class_declare_parent_declare_type_enter_class_gather_gather_class_gather_type_run_begun_run_block_run_body_run_case_run_class_run_given_run_if_run_include_run_statement_run_type)]
fn declare_type(
    m: &[u8],
    p: usize,
    table: &[u8],
    x: Labelled,
    work: &mut [u8],
    out: &mut [u8],
    fill: usize,
    left: &mut u16,
    levels: u8,
    here: Context,
) -> Result<usize, Refusal>
    requires { Able m.now work.old out.old fill × (((p ≤ 65535) × (end_of m.now p ≤ 65535)) × (two m.now (p + 3) < 1024)) }
    ensures { (gs : List Given) → Gives table.now gs → Alike m.now gs (fields_in m.now (end_of m.now (p + 5)) (end_of m.now p)) → Executes m.now work.old work.new out.old out.new fill left.old left.new (context_of here) result (λ k. declaration k levels (of_type p (two m.now (p + 3)) x gs)) }
{
    if levels < 1 {
        return Err(Refusal::at(Reason::LevelLimit, p));
    }
    let below = levels - 1;
    let given = Span {
        first: wire::end_of(m, p + 5),
        end: wire::end_of(m, p),
    };
    let inside = body_context(here, below);
    let block = declarations::start_type(m, p, given, table, x, work, inside)?;
    run_body(m, block, work, out, fill, left, below, inside)
}

// The body of a type, whose block is at p, and whose scope is freed after it.
#[cycle(declare_class_declare_parent_declare_type_enter_class_gather_gather_class_gather_type_run_begun_run_block_run_body_run_case_run_class_run_given_run_if_run_include_run_statement_run_type)]
fn run_body(
    m: &[u8],
    p: usize,
    work: &mut [u8],
    out: &mut [u8],
    fill: usize,
    left: &mut u16,
    levels: u8,
    here: Context,
) -> Result<usize, Refusal>
    requires { Able m.now work.old out.old fill × (StandsAs m.now 31 Block p × NamesKnown m.now p) }
    ensures { Executes m.now work.old work.new out.old out.new fill left.old left.new (context_of here) result (body_run levels (block_at m.now 31 p)) }
{
    let filled = run_block(m, 31, p, work, out, fill, left, levels, here)?;
    cells::free_scope(work, here.scope.number);
    Ok(filled)
}

// ---- Classes

// The 28 at p: its attributes are gathered in the table, and then its class is declared.
#[cycle(declare_class_declare_parent_declare_type_enter_class_gather_gather_class_gather_type_run_begun_run_block_run_body_run_case_run_class_run_given_run_if_run_include_run_statement_run_type)]
fn gather_class(
    m: &[u8],
    depth: u8,
    p: usize,
    work: &mut [u8],
    out: &mut [u8],
    fill: usize,
    left: &mut u16,
    levels: u8,
    here: Context,
    table: &mut [u8],
) -> Result<usize, Refusal>
    requires { (Able m.now work.old out.old fill × (StandsAs m.now depth Statement p × NamesKnown m.now p)) × ((byte m.now p ≡ 0x28) × FreshFor m.now table.old p) }
    ensures { Executes m.now work.old work.new out.old out.new fill left.old left.new (context_of here) result (λ k. run k (declaration k levels) (statement_at m.now depth p)) }
{
    let first = p + 5;
    let end = wire::end_of(m, p);
    let given = Span { first, end };
    evaluate_attributes(m, depth - 1, given, work, out, fill, here.scope, table)?;
    let request = Request {
        place: p,
        name: wire::two_at(m, p + 3),
        again: true,
        given,
    };
    declare_class(m, request, table, work, out, fill, left, levels, here)
}

// The 29 at p: "Include of a declared class does nothing past its step."
#[cycle(declare_class_declare_parent_declare_type_enter_class_gather_gather_class_gather_type_run_begun_run_block_run_body_run_case_run_class_run_given_run_if_run_include_run_statement_run_type)]
fn run_include(
    m: &[u8],
    p: usize,
    work: &mut [u8],
    out: &mut [u8],
    fill: usize,
    left: &mut u16,
    levels: u8,
    here: Context,
) -> Result<usize, Refusal>
    requires { Able m.now work.old out.old fill × ((p + 5 ≤ 65535) × (two m.now (p + 3) < 1024)) }
    ensures { Executes m.now work.old work.new out.old out.new fill left.old left.new (context_of here) result (λ k. run k (declaration k levels) (include p (two m.now (p + 3)))) }
{
    let name = wire::two_at(m, p + 3);
    if memory::is_declared(work, name) {
        return Ok(fill);
    }
    let request = Request {
        place: p,
        name,
        again: false,
        given: NONE_GIVEN,
    };
    declare_class(m, request, &m[0..0], work, out, fill, left, levels, here)
}

// The declaration of a class, whose attributes are in the table.
#[cycle(declare_class_declare_parent_declare_type_enter_class_gather_gather_class_gather_type_run_begun_run_block_run_body_run_case_run_class_run_given_run_if_run_include_run_statement_run_type)]
fn declare_class(
    m: &[u8],
    request: Request,
    table: &[u8],
    work: &mut [u8],
    out: &mut [u8],
    fill: usize,
    left: &mut u16,
    levels: u8,
    here: Context,
) -> Result<usize, Refusal>
    requires { Able m.now work.old out.old fill × (((request.place ≤ 65535) × (request.given.end ≤ 65535)) × (request.name < 1024)) }
    ensures { (gs : List Given) → Gives table.now gs → Alike m.now gs (fields_in m.now request.given.first request.given.end) → (request.again ≡ false → gs ≡ []) → Executes m.now work.old work.new out.old out.new fill left.old left.new (context_of here) result (λ k. declaration k levels (asked request.again request.place request.name gs)) }
{
    if levels == 0 {
        return Err(Refusal::at(Reason::LevelLimit, request.place));
    }
    let d = declarations::check_class(m, request, table, work)?;
    let filled = declare_parent(m, d, work, out, fill, left, levels - 1, here)?;
    if memory::is_declared(work, request.name) {
        return declared_meanwhile(request.again, request.place, filled);
    }
    enter_class(m, d, table, work, out, filled, left, levels - 1, here)
}

// The second look: "an include or a parent's declaration does nothing more and 28 is refused".
fn declared_meanwhile(again: bool, p: usize, fill: usize) -> Result<usize, Refusal>
    requires { p ≤ 65535 }
    ensures { result ≡ pick again (Err (refusal_at DeclaredAgain p)) (Ok fill) }
{
    if again {
        Err(Refusal::at(Reason::DeclaredAgain, p))
    } else {
        Ok(fill)
    }
}

// The parent of the class at d, if it has one that is not declared: "each declaration of a parent counts one".
#[cycle(declare_class_declare_parent_declare_type_enter_class_gather_gather_class_gather_type_run_begun_run_block_run_body_run_case_run_class_run_given_run_if_run_include_run_statement_run_type)]
fn declare_parent(
    m: &[u8],
    d: usize,
    work: &mut [u8],
    out: &mut [u8],
    fill: usize,
    left: &mut u16,
    levels: u8,
    here: Context,
) -> Result<usize, Refusal>
    requires { Able m.now work.old out.old fill × ClassStands m.now d }
    ensures { Executes m.now work.old work.new out.old out.new fill left.old left.new (context_of here) result (λ k. parent_first k (declaration k levels) (parent_at m.now (d + 5))) }
{
    let q = d + 5;
    if wire::byte_at(m, q) != 0x35 {
        return Ok(fill);
    }
    let name = wire::two_at(m, q + 3);
    if memory::is_declared(work, name) {
        return Ok(fill);
    }
    let remaining = *left;
    if remaining == 0 {
        return Err(Refusal::at(Reason::StepLimit, q));
    }
    *left = remaining - 1;
    let request = Request {
        place: q,
        name,
        again: false,
        given: NONE_GIVEN,
    };
    declare_class(m, request, &m[0..0], work, out, fill, left, levels, here)
}

// The class at d, whose values are in the table, marked declared; then its body.
#[cycle(declare_class_declare_parent_declare_type_enter_class_gather_gather_class_gather_type_run_begun_run_block_run_body_run_case_run_class_run_given_run_if_run_include_run_statement_run_type)]
fn enter_class(
    m: &[u8],
    d: usize,
    table: &[u8],
    work: &mut [u8],
    out: &mut [u8],
    fill: usize,
    left: &mut u16,
    levels: u8,
    here: Context,
) -> Result<usize, Refusal>
    requires { Able m.now work.old out.old fill × ClassStands m.now d }
    ensures { Enters m.now table.now work.old work.new out.old out.new fill left.old left.new levels d (context_of here) result }
{
    let body = declarations::start_class(m, d, table, work, here)?;
    run_block(m, 31, body.block, work, out, fill, left, levels, body.here)
}
