// What the names of a manifest mean before anything runs: built-in types, the title, and all definitions; and the node that runs for a device.
#![tactic(auto)]

ghost use Rattle.std.specs.Prelude.{◌≡◌, List, [], ◌∷◌, ℕ, ◌+◌, ◌≤◌, ◌<◌, length};
ghost use Rattle.wire.specs.Bytes.{byte, two};
ghost use Rattle.rules.specs.Check.{string_places, check};
ghost use Rattle.rules.specs.Types.{check_types};
ghost use Rattle.rules.specs.State.{Known};
ghost use Rattle.rules.specs.Run.{is_taken};
ghost use Rattle.syntax.specs.Strings.{found_of};
ghost use Rattle.syntax.specs.Nodes.{node_for, item_places};
ghost use Rattle.type_list.specs.Listed.{chosen, Listed};
ghost use Rattle.cells.specs.Memory.{Becomes};
ghost use Rattle.evaluator.specs.Known.{KnownIn};
ghost use Rattle.declarations.specs.Standing.{Set};
ghost use Rattle.definitions.specs.Prepared.{mark_string, mark_strings, Prepares, Blank, is_device_at, NodeBlock};
ghost use Rattle.definitions.specs.Defined.{ItemStands, IsDefinition, Defines, GathersTo};
ghost use Rattle.rules.specs.Compile.{none_struck_out};
ghost use Rattle.rules.specs.Verdicts.{no_fault};

use values::{Reason, Refusal};

// ---- Before the first item

// Marks the string n, at q, if it names a built-in type.
fn mark_string(types: &[u8], index: &[u8], count: u16, m: &[u8], q: usize, work: &mut [u8], n: u16)
    requires { Listed types.now index.now count × ((65536 ≤ length work.old) × (n < 1024)) }
    ensures { Becomes work.old work.new (λ st. st) (mark_string (chosen types.now) m.now n q) }
{
    let name = syntax::strings::text_of(m, q);
    if type_list::is_type(types, index, count, name) {
        memory::set_built_in(work, n, true);
    }
}

// Marks the strings that name built-in types: whether a type is one is looked up once, for each string.
fn mark_built_ins(types: &[u8], index: &[u8], count: u16, m: &[u8], work: &mut [u8])
    requires { Listed types.now index.now count × ((65536 ≤ length work.old) × (length (string_places m.now) ≤ 1024)) }
    ensures { Becomes work.old work.new (λ st. st) (mark_strings (chosen types.now) m.now 0 (string_places m.now)) }
{
    let end = wire::end_of(m, 0);
    for (n, q) in wire::fields_in(m, 3, end).enumerate() {
        mark_string(types, index, count, m, q, work, n as u16);
    }
}

// The same, the list of types not being indexed yet.
fn mark_types(types: &[u8], m: &[u8], work: &mut [u8])
    requires { (check_types (chosen types.now) ≡ no_fault) × ((65536 ≤ length work.old) × (length (string_places m.now) ≤ 1024)) }
    ensures { Becomes work.old work.new (λ st. st) (mark_strings (chosen types.now) m.now 0 (string_places m.now)) }
{
    let mut index = [0u8; type_list::INDEX];
    let count = type_list::index_types(types, &mut index);
    mark_built_ins(types, &index, count, m, work);
}

// The state before the first item and the names of a manifest, whatever the memory holds. An empty list of types means the eight.
pub fn prepare(types: &[u8], m: &[u8], work: &mut [u8])
    requires { ((check_types (chosen types.now) ≡ no_fault) × ((check m.now ≡ no_fault) × (length m.now ≤ 65535))) × (65536 ≤ length work.old) }
    ensures { Prepares (chosen types.now) m.now work.new none_struck_out × Blank work.new }
{
    memory::begin(work);
    mark_types(types, m, work);
    if let Some(n) = syntax::strings::title_number(m) {
        memory::set_title(work, n);
    }
}

// ---- The node that runs

// The place of the node that runs for the device.
pub fn choose_node(m: &[u8], device: &[u8]) -> Option<u16>
    requires { (check m.now ≡ no_fault) × (length m.now ≤ 65535) }
    ensures { result ≡ found_of (node_for m.now device.now) }
{
    let mut index = [0u8; 2048];
    let strings = syntax::strings::index_strings(m, &mut index);
    syntax::nodes::node_place(m, device, &index, strings)
}

// Whether the field at q is one that begins a node: a device's name or a default.
fn is_device(m: &[u8], q: usize) -> bool
    ensures { result ≡ is_device_at m.now q }
{
    let tag = wire::byte_at(m, q);
    tag == 0x31 || tag == 0x1b
}

// The block of the node at p.
pub fn node_block(m: &[u8], p: usize) -> usize
    requires { (ItemStands m.now p × (byte m.now p ≡ 0x30)) × (length m.now ≤ 65535) }
    ensures { NodeBlock m.now p result }
{
    let mut q = p + 3;
    while is_device(m, q) {
        q = wire::end_of(m, q);
    }
    q
}

// ---- Definitions

// Whether the name of the definition at p is taken (8).
fn is_taken(m: &[u8], p: usize, work: &[u8]) -> bool
    requires { Set m.now work.now × (ItemStands m.now p × IsDefinition m.now p) }
    ensures { (k : Known) → KnownIn m.now work.now k → result ≡ is_taken k.built_in k.definitions (two m.now (p + 3)) }
{
    let name = wire::two_at(m, p + 3);
    memory::built_in(work, name) || memory::definition_at(work, name) != 0
}

// The definition at p becomes known.
fn define(m: &[u8], p: usize, work: &mut [u8])
    requires { Set m.now work.old × (ItemStands m.now p × IsDefinition m.now p) }
    ensures { Defines m.now p work.old work.new }
{
    memory::set_definition(work, wire::two_at(m, p + 3), p as u16);
}

// The definition at p becomes known, unless its name is taken.
fn gather_definition(m: &[u8], p: usize, work: &mut [u8]) -> Result<(), Refusal>
    requires { Set m.now work.old × (ItemStands m.now p × IsDefinition m.now p) }
    ensures { (ps : List ℕ) → GathersTo m.now work.old work.new (p ∷ ps) ps result }
{
    if is_taken(m, p, work) {
        return Err(Refusal::at(Reason::DefinedAgain, p));
    }
    define(m, p, work);
    Ok(())
}

// The item at p, if it is a definition.
fn gather_item(m: &[u8], p: usize, work: &mut [u8]) -> Result<(), Refusal>
    requires { Set m.now work.old × ItemStands m.now p }
    ensures { (ps : List ℕ) → GathersTo m.now work.old work.new (p ∷ ps) ps result }
{
    match wire::byte_at(m, p) {
        0x32 | 0x34 => gather_definition(m, p, work),
        _ => Ok(()),
    }
}

// "All definitions are gathered first": those of all items become known, up to the first whose name is taken.
pub fn gather(m: &[u8], work: &mut [u8]) -> Result<(), Refusal>
    requires { Set m.now work.old × (check m.now ≡ no_fault) }
    ensures { GathersTo m.now work.old work.new (item_places m.now) [] result }
{
    for p in wire::fields_in(m, wire::end_of(m, 0), m.len()) {
        gather_item(m, p, work)?;
    }
    Ok(())
}
