// What statements without declarations do after their step and before any block runs, over the manifest's bytes in place. What an answer means is in specs/.
#![tactic(auto)]

ghost use Rattle.std.specs.Prelude.{◌≡◌, ◌+◌, ◌-◌, ◌≤◌, ◌<◌, length};
ghost use Rattle.labels.specs.Sets.{◌∪◌};
ghost use Rattle.labels.specs.Words.{labels_in};
ghost use Rattle.wire.specs.Bytes.{byte, two, end_of};
ghost use Rattle.rules.specs.State.{State};
ghost use Rattle.rules.specs.Run as rules;
ghost use Rattle.rules.specs.declared.Kind.TheVariants.{Statement};
ghost use Rattle.places.specs.At.{statement_at, block_at, StandsAs};
ghost use Rattle.cells.specs.Layout.{trail_of};
ghost use Rattle.cells.specs.Memory.{outcome};
ghost use Rattle.evaluator.specs.Known.{Sized};
ghost use Rattle.branches.specs.Names.{contains};
ghost use Rattle.branches.specs.Texts.{text_of};
ghost use Rattle.statements.specs.Cases.{branches_of, decide_case, try_case, test_case_at, case_as, block_stands};
ghost use Rattle.statements.specs.Tests.{after_text, decide_if, test_if_at, tested_as, Testable, Comes, Decides, Tests};
ghost use Rattle.statements.specs.Answers.{ran_as, Does, Runs};

use branches::{Collected, mark_names};
use cells::NotStored;
use evaluator::evaluate;
use labels::Labels;
use memory::Context;
use values::{Labelled, Reason, Refusal, Value};

// Which block of an if runs, and the condition's set.
#[derive(Clone, Copy)]
pub struct Branch {
    pub yes: bool,
    pub set: Labels,
}

// The place of the block of a case that runs, or none, and the condition's set.
#[derive(Clone, Copy)]
pub struct CaseBranch {
    pub block: Option<usize>,
    pub set: Labels,
}

// What a store answers, for a statement at p.
fn store_answer(stored: Result<(), NotStored>, p: usize) -> Result<(), Refusal>
    requires { p ≤ 65535 }
    ensures { (st : State) → ran_as result st ≡ outcome stored p st }
{
    match stored {
        Ok(()) => Ok(()),
        Err(NotStored::HasValue) => Err(Refusal::at(Reason::AssignedAgain, p)),
        Err(NotStored::NoRoom) => Err(Refusal::at(Reason::CellLimit, p)),
    }
}

// The set of a condition, its own given.
fn condition_set(work: &[u8], own: Labels, path: Labels) -> Labels
    requires { 65536 ≤ length work.now }
    ensures { result ≡ (path ∪ trail_of work.now) ∪ own }
{
    memory::path_and_trail(work, path).union(own)
}

// The marks and the trail after the test of the condition at p, by what was collected of its branches.
fn enter(
    work: &mut [u8],
    p: usize,
    here: Context,
    set: Labels,
    branches: &Collected,
) -> Result<(), Refusal>
    requires { (65536 ≤ length work.old) × (p ≤ 65535) }
    ensures { Does work.old work.new here (ran_as result) (λ c st. rules.after_test p c (contains branches.now.names) branches.now.declares set st) }
{
    store_answer(mark_names(work, here.scope.number, &branches.names, set), p)?;
    if branches.declares {
        memory::join_trail(work, set);
    }
    Ok(())
}

// The marks and the trail after the test of the condition at p, with `depth` levels left for it.
fn enter_condition(
    m: &[u8],
    depth: u8,
    p: usize,
    work: &mut [u8],
    here: Context,
    set: Labels,
) -> Result<(), Refusal>
    requires { Testable m.now work.old depth p }
    ensures { Decides m.now work.old work.new here (ran_as result) (after_text p (text_of (statement_at m.now depth p)) set) }
{
    let mut branches = Collected::NOTHING;
    summaries::summarize(m, depth, p, work, &mut branches);
    enter(work, p, here, set, &branches)
}

// ---- Assignments

// Gives a variable the value x, for a statement at p.
pub fn store(
    work: &mut [u8],
    p: usize,
    here: Context,
    name: u16,
    x: Labelled,
) -> Result<(), Refusal>
    requires { (65536 ≤ length work.old) × ((name < 1024) × (p ≤ 65535)) }
    ensures { Does work.old work.new here (ran_as result) (λ c. rules.store c p name x) }
{
    let set = memory::path_and_trail(work, here.path);
    store_answer(
        cells::assign(work, here.scope.number, name, x.under(set)),
        p,
    )
}

// The 21 at p, with `depth` levels left for it.
pub fn assign(
    m: &[u8],
    depth: u8,
    p: usize,
    work: &mut [u8],
    out: &[u8],
    fill: usize,
    here: Context,
) -> Result<(), Refusal>
    requires { (Sized m.now work.old out.now fill p × StandsAs m.now depth Statement p) × ((byte m.now p ≡ 0x21) × (two m.now (p + 3) < 1024)) }
    ensures { Runs m.now work.old work.new out.now fill here result (statement_at m.now depth p) }
{
    let mut set = [0u64; 4];
    let value = evaluate(m, depth - 1, p + 5, work, out, fill, here.scope, &mut set)?;
    let labels = Labels::in_words(&set);
    store(
        work,
        p,
        here,
        wire::two_at(m, p + 3),
        Labelled { value, labels },
    )
}

// ---- The test of an if

// The if at p, whose condition is x.
fn decide_if(
    m: &[u8],
    depth: u8,
    p: usize,
    work: &mut [u8],
    here: Context,
    x: Labelled,
) -> Result<Branch, Refusal>
    requires { Testable m.now work.old depth p × (byte m.now p ≡ 0x22) }
    ensures { Decides m.now work.old work.new here (tested_as result) (decide_if p (p + 3) (block_at m.now (depth - 1) (end_of m.now (p + 3))) (block_at m.now (depth - 1) (end_of m.now (end_of m.now (p + 3)))) x) }
{
    let Value::Boolean(yes) = x.value else {
        return Err(Refusal::at(Reason::WrongKind, p + 3));
    };
    let set = condition_set(work, x.labels, here.path);
    enter_condition(m, depth, p, work, here, set)?;
    Ok(Branch { yes, set })
}

// The test of the 22 at p, with `depth` levels left for it.
pub fn test_if(
    m: &[u8],
    depth: u8,
    p: usize,
    work: &mut [u8],
    out: &[u8],
    fill: usize,
    here: Context,
) -> Result<Branch, Refusal>
    requires { (Sized m.now work.old out.now fill p × Testable m.now work.old depth p) × (byte m.now p ≡ 0x22) }
    ensures { Tests m.now work.old work.new out.now fill here (tested_as result) (test_if_at m.now (depth - 1) p) }
{
    let mut set = [0u64; 4];
    let value = evaluate(m, depth - 1, p + 3, work, out, fill, here.scope, &mut set)?;
    let labels = Labels::in_words(&set);
    decide_if(m, depth, p, work, here, Labelled { value, labels })
}

// ---- The test of a case

// The case at p, of whose value the labels are in the set that is lent.
fn decide_case(
    m: &[u8],
    depth: u8,
    p: usize,
    work: &mut [u8],
    here: Context,
    value: Value,
    own: &mut [u64; 4],
) -> Result<CaseBranch, Refusal>
    requires { Testable m.now work.old depth p × (byte m.now p ≡ 0x23) }
    ensures { Decides m.now work.old work.new here (case_as m.now (depth - 1 - 1) result) (decide_case p (branches_of m.now (depth - 1) p) (record { value = value; labels = labels_in own.old })) × block_stands m.now (depth - 1 - 1) p result }
{
    let from = wire::end_of(m, p + 3);
    let end = wire::end_of(m, p);
    let block = patterns::try_patterns(m, from, end, value, own);
    let set = condition_set(work, Labels::in_words(own), here.path);
    enter_condition(m, depth, p, work, here, set)?;
    Ok(CaseBranch { block, set })
}

// The same, unless one of the patterns tried is struck out.
fn try_case(
    m: &[u8],
    depth: u8,
    p: usize,
    work: &mut [u8],
    here: Context,
    value: Value,
    own: &mut [u64; 4],
) -> Result<CaseBranch, Refusal>
    requires { Testable m.now work.old depth p × (byte m.now p ≡ 0x23) }
    ensures { Comes m.now work.old work.new here (case_as m.now (depth - 1 - 1) result) (try_case p (branches_of m.now (depth - 1) p) (record { value = value; labels = labels_in own.old })) × block_stands m.now (depth - 1 - 1) p result }
{
    let from = wire::end_of(m, p + 3);
    let end = wire::end_of(m, p);
    if let Some(q) = patterns::struck_pattern(m, from, end, value, work) {
        return Err(Refusal::at(Reason::Malformed, q));
    }
    decide_case(m, depth, p, work, here, value, own)
}

// The test of the 23 at p, with `depth` levels left for it.
pub fn test_case(
    m: &[u8],
    depth: u8,
    p: usize,
    work: &mut [u8],
    out: &[u8],
    fill: usize,
    here: Context,
) -> Result<CaseBranch, Refusal>
    requires { (Sized m.now work.old out.now fill p × Testable m.now work.old depth p) × (byte m.now p ≡ 0x23) }
    ensures { Tests m.now work.old work.new out.now fill here (case_as m.now (depth - 1 - 1) result) (test_case_at m.now (depth - 1) p) × block_stands m.now (depth - 1 - 1) p result }
{
    let mut set = [0u64; 4];
    let value = evaluate(m, depth - 1, p + 3, work, out, fill, here.scope, &mut set)?;
    try_case(m, depth, p, work, here, value, &mut set)
}
