// Declarations up to the body that runs: the definition looked up, what is given checked, title and parameters assigned. Bodies and parents run in the crate `execution`.
#![tactic(auto)]

ghost use Rattle.std.specs.Prelude.{◌≡◌, ◌&&◌, List, ℕ, ◌+◌, ◌≤◌, ◌<◌, length};
ghost use Rattle.wire.specs.Bytes.{two, fields_in};
ghost use Rattle.rules.specs.State.{Entry, is_declared};
ghost use Rattle.rules.specs.Run.{store_title};
ghost use Rattle.rules.specs.declared.Kind.TheVariants.{Parameter};
ghost use Rattle.places.specs.At.{parent_at, after_parent_at, Siblings};
ghost use Rattle.cells.specs.Scopes.{scope_of};
ghost use Rattle.cells.specs.Memory.{base_for, classes_of, state_of};
ghost use Rattle.memory.specs.Names.{title_of};
ghost use Rattle.statements.specs.Answers.{ran_as, Does};
ghost use Rattle.parameters.specs.Checked.{SmallNames};
ghost use Rattle.declarations.specs.Standing.{Set, definition_with};
ghost use Rattle.declarations.specs.Types.{Fills, StartsType};
ghost use Rattle.declarations.specs.Classes.{ClassStands, ChecksClass, ParentSmall, scope_under, base_with, StartsClass};

use attributes::Span;
use memory::{Context, Scope};
use values::{Labelled, Reason, Refusal};

// What a declaration of a class asks for: the class `name`, by the 28, 29 or 35 at `place`. A 28 refuses a declared class (`again`) and gives attributes;
// the others give none.
#[derive(Clone, Copy)]
pub struct Request {
    pub place: usize,
    pub name: u16,
    pub again: bool,
    pub given: Span,
}

// A class's body that is ready to run, and where it runs.
#[derive(Clone, Copy)]
pub struct ClassBody {
    pub block: usize,
    pub here: Context,
}

// ---- Definitions

// Where the definition of a name is, if it has this tag.
fn find_definition(m: &[u8], work: &[u8], name: u16, tag: u8) -> Option<u16>
    requires { (65536 ≤ length work.now) × (name < 1024) }
    ensures { result ≡ definition_with m.now work.now name tag }
{
    let d = memory::definition_at(work, name);
    if d == 0 {
        return None;
    }
    if wire::byte_at(m, d as usize) != tag {
        return None;
    }
    Some(d)
}

// ---- Types

// The title goes to the variable "title", if the table has that string.
fn store_title(work: &mut [u8], p: usize, here: Context, x: Labelled) -> Result<(), Refusal>
    requires { (65536 ≤ length work.old) × (p ≤ 65535) }
    ensures { Does work.old work.new here (ran_as result) (λ c. store_title (title_of work.old) c p x) }
{
    let Some(name) = memory::title(work) else {
        return Ok(());
    };
    statements::store(work, p, here, name, x)
}

// Title and parameters in the context of a body.
fn fill_scope(
    m: &[u8],
    p: usize,
    parameters: Span,
    table: &[u8],
    x: Labelled,
    work: &mut [u8],
    here: Context,
) -> Result<(), Refusal>
    requires { ((p ≤ 65535) × (parameters.end ≤ 65535)) × (((65536 ≤ length work.old) × (length m.now ≤ 65535)) × (Siblings m.now 31 Parameter parameters.first parameters.end × SmallNames m.now (fields_in m.now parameters.first parameters.end))) }
    ensures { Fills m.now table.now work.old work.new p parameters.first parameters.end x here result }
{
    store_title(work, p, here, x)?;
    parameters::assign_parameters(m, parameters, table, work, here)
}

// The 27 at p, whose title is x and whose attributes are in the table: `here` is where its body runs.
pub fn start_type(
    m: &[u8],
    p: usize,
    given: Span,
    table: &[u8],
    x: Labelled,
    work: &mut [u8],
    here: Context,
) -> Result<usize, Refusal>
    requires { Set m.now work.old × (((p ≤ 65535) × (given.end ≤ 65535)) × (two m.now (p + 3) < 1024)) }
    ensures { StartsType m.now table.now work.old work.new p given.first given.end x here result }
{
    let Some(d) = find_definition(m, work, wire::two_at(m, p + 3), 0x32) else {
        return Err(Refusal::at(Reason::Unknown, p));
    };
    let first = d as usize + 5;
    let end = parameters::end_of_parameters(m, first);
    parameters::check_parameters(m, given, Span { first, end }, table)?;
    fill_scope(m, p, Span { first, end }, table, x, work, here)?;
    Ok(end)
}

// ---- Classes

// Where the parameters of the class at d begin.
fn first_parameter(m: &[u8], d: usize) -> usize
    requires { d ≤ 65535 }
    ensures { result ≡ after_parent_at m.now (d + 5) }
{
    let q = d + 5;
    if wire::byte_at(m, q) == 0x35 {
        wire::end_of(m, q)
    } else {
        q
    }
}

// Whether the class is declared, where that is asked.
fn is_again(work: &[u8], name: u16, asked: bool) -> bool
    requires { (65536 ≤ length work.now) × (name < 1024) }
    ensures { (es : List Entry) (n r : ℕ) → result ≡ («asked» && is_declared name (state_of work.now es n r)) }
{
    if asked {
        return memory::is_declared(work, name);
    }
    false
}

// The class that is asked for, its attributes' values in the table.
pub fn check_class(m: &[u8], request: Request, table: &[u8], work: &[u8]) -> Result<usize, Refusal>
    requires { Set m.now work.now × (((request.place ≤ 65535) × (request.given.end ≤ 65535)) × (request.name < 1024)) }
    ensures { ChecksClass m.now table.now work.now request.again request.place request.name request.given.first request.given.end result }
{
    let Some(d) = find_definition(m, work, request.name, 0x34) else {
        return Err(Refusal::at(Reason::Unknown, request.place));
    };
    if is_again(work, request.name, request.again) {
        return Err(Refusal::at(Reason::DeclaredAgain, request.place));
    }
    let first = first_parameter(m, d as usize);
    let end = parameters::end_of_parameters(m, first);
    parameters::check_parameters(m, request.given, Span { first, end }, table)?;
    Ok(d as usize)
}

// The scope number of the parent of the class at d.
fn parent_scope(m: &[u8], d: usize, base_is_node: bool) -> u16
    requires { (d ≤ 65535) × ParentSmall m.now (d + 5) }
    ensures { scope_of result ≡ scope_under (parent_at m.now (d + 5)) (base_for base_is_node) }
{
    let q = d + 5;
    if wire::byte_at(m, q) == 0x35 {
        2 + wire::two_at(m, q + 3)
    } else {
        base_is_node as u16
    }
}

// The base of the class at d: its parent's, or else that of the place that declares it.
fn class_base(m: &[u8], d: usize, work: &[u8], base_is_node: bool) -> bool
    requires { ((65536 ≤ length work.now) × (d ≤ 65535)) × ParentSmall m.now (d + 5) }
    ensures { base_for result ≡ base_with (parent_at m.now (d + 5)) (base_for base_is_node) (classes_of work.now) }
{
    let q = d + 5;
    if wire::byte_at(m, q) != 0x35 {
        return base_is_node;
    }
    let parent = wire::two_at(m, q + 3);
    if memory::is_declared(work, parent) {
        memory::base_of(work, parent)
    } else {
        base_is_node
    }
}

// The class at d, its values in the table, declared from `here`: marked declared, its parameters assigned.
pub fn start_class(
    m: &[u8],
    d: usize,
    table: &[u8],
    work: &mut [u8],
    here: Context,
) -> Result<ClassBody, Refusal>
    requires { Set m.now work.old × ClassStands m.now d }
    ensures { StartsClass m.now table.now work.old work.new d here result }
{
    let name = wire::two_at(m, d + 3);
    let base_is_node = class_base(m, d, work, here.scope.base_is_node);
    let parent = parent_scope(m, d, here.scope.base_is_node);
    memory::declare_class(work, name, parent, base_is_node);
    let first = first_parameter(m, d);
    let block = parameters::end_of_parameters(m, first);
    let scope = Scope {
        number: 2 + name,
        base_is_node,
    };
    let inside = Context {
        scope,
        path: here.path,
    };
    parameters::assign_parameters(m, Span { first, end: block }, table, work, inside)?;
    Ok(ClassBody {
        block,
        here: inside,
    })
}
