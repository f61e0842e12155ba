// The index over the catalog, in the working memory: entries are chained by their titles, and attributes by the places of their entries and their names. A search
// sees one chain, and each place in it is tested in the output. Whatever catalog the output and the index stand for, the answer is right for that one.
#![tactic(auto)]

ghost use Rattle.std.specs.Prelude.{◌≡◌, List, [], ◌∷◌, ◌++◌, ℕ, ◌+◌, ◌≤◌, ◌<◌, length, Some, None};
ghost use Rattle.std.proofs.Math.Option.{some};
ghost use Rattle.wire.specs.Bytes.{end_of};
ghost use Rattle.rules.specs.State.{Entry};
ghost use Rattle.rules.specs.Evaluate.{any, first_with, is_entry};
ghost use Rattle.rules.specs.Catalog.{catalog_bytes};
ghost use Rattle.catalog.specs.Finding.{Written, entry_place, attribute_place, Below, look_up, found_in};
ghost use Rattle.cells.specs.Layout.{most_chains};
ghost use Rattle.catalog_index.specs.Chains.{last_with};
ghost use Rattle.catalog_index.specs.Index.{entry_bucket, attribute_chains, attribute_bucket, chain_in, Indexed, Recorded, Extended, sought_at};

use catalog::layout::{ATTRIBUTE_NAME, ENTRY_ATTRIBUTES, ENTRY_TITLE, ENTRY_TYPE};
use cells::layout::{COUNT, HEAD_SIZE, HEADS, MOST_RECORDS, RECORD_LINK, RECORD_SIZE, RECORDS};
use values::Labelled;

// The first chains are for entries, by their titles.
const TITLE_CHAINS: usize = 256;

// The others are for attributes, one for each attribute that a catalog has room for.
const ATTRIBUTE_CHAINS: usize = 1600;

// What an attribute takes in the catalog: with a boolean, and with an integer.
const SHORTEST_ATTRIBUTE: usize = 41;

const LONGEST_ATTRIBUTE: usize = 48;

// What a search looks for: the entry of a type and title, or the attribute of a name between two places.
#[derive(Clone, Copy)]
pub enum Sought {
    Entry { kind: u16, title: u16 },
    Attribute { name: u16, from: usize, end: usize },
}

// ---- Chains

fn entry_bucket(title: u16) -> usize
    ensures { (result ≡ entry_bucket title) × (result < most_chains) }
{
    title as usize % TITLE_CHAINS
}

// How many chains the entry between two places has for its attributes: about as many as it has attributes.
fn attribute_chains(entry: usize, end: usize) -> usize
    requires { entry ≤ 65535 }
    ensures { (result ≡ attribute_chains entry end) × (0 < result) }
{
    if end < entry + ENTRY_ATTRIBUTES + LONGEST_ATTRIBUTE {
        return 1;
    }
    (end - entry - ENTRY_ATTRIBUTES) / LONGEST_ATTRIBUTE
}

// No two entries share a chain, and an entry has no name twice: so a chain has at most 35 records, whatever a manifest does.
fn attribute_bucket(entry: usize, end: usize, name: u16) -> usize
    requires { entry ≤ 65535 }
    ensures { (result ≡ attribute_bucket entry end name) × (result < most_chains) }
{
    let own = name as usize % attribute_chains(entry, end);
    TITLE_CHAINS + (entry / SHORTEST_ATTRIBUTE + own) % ATTRIBUTE_CHAINS
}

// ---- Searching

fn is_sought(out: &[u8], fill: usize, p: usize, sought: Sought) -> bool
    requires { (fill ≤ length out.now) × (p ≤ 65535) }
    ensures { result ≡ sought_at out.now fill sought p }
{
    if fill < p + ENTRY_ATTRIBUTES {
        return false;
    }
    match sought {
        Sought::Entry { kind, title } => {
            if wire::byte_in(out, p) != 0x40 {
                return false;
            }
            if wire::two_in(out, p + ENTRY_TYPE) != kind {
                return false;
            }
            wire::two_in(out, p + ENTRY_TITLE) == title
        }
        Sought::Attribute { name, from, end } => {
            if p < from {
                return false;
            }
            if end <= p {
                return false;
            }
            wire::two_in(out, p + ATTRIBUTE_NAME) == name
        }
    }
}

// The last place in a chain that is sought: of the places written, the first.
fn find(work: &[u8], out: &[u8], fill: usize, bucket: usize, sought: Sought) -> Option<usize>
    requires { (65536 ≤ length work.now) × ((fill ≤ length out.now) × (bucket < most_chains)) }
    ensures { (result ≡ last_with (sought_at out.now fill sought) None (chain_in work.now bucket)) × Below 65536 result }
{
    let mut found = None;
    let mut below = MOST_RECORDS;
    let mut r = wire::two_in(work, HEADS + HEAD_SIZE * bucket);
    while 0 < r {
        if below < r {
            return found;
        }
        below = r - 1;
        let at = RECORDS + RECORD_SIZE * below as usize;
        let p = wire::two_in(work, at) as usize;
        if is_sought(out, fill, p, sought) {
            found = Some(p);
        }
        r = wire::two_in(work, at + RECORD_LINK);
    }
    found
}

// The place of the first entry of this type and title.
fn find_entry(work: &[u8], out: &[u8], fill: usize, kind: u16, title: u16) -> Option<usize>
    requires { (65536 ≤ length work.now) × ((fill ≤ length out.now) × (fill ≤ 65535)) }
    ensures { ((es : List Entry) → Written out.now fill es → Indexed work.now es → result ≡ entry_place kind title es) × Below 65536 result }
{
    let bucket = entry_bucket(title);
    find(work, out, fill, bucket, Sought::Entry { kind, title })
}

// The place of the first attribute of this name in the entry at a place, which is the first of its type and title.
fn find_attribute(work: &[u8], out: &[u8], fill: usize, at: usize, name: u16) -> Option<usize>
    requires { (65536 ≤ length work.now) × ((fill ≤ length out.now) × ((fill ≤ 65535) × (at ≤ 65535))) }
    ensures { ((es : List Entry) (kind title : ℕ) (e : Entry) → Written out.now fill es → Indexed work.now es → entry_place kind title es ≡ Some at → first_with (is_entry kind title) es ≡ some e → result ≡ attribute_place name e at) × Below 65536 result }
{
    let from = at + ENTRY_ATTRIBUTES;
    let end = wire::end_of(out, at);
    let bucket = attribute_bucket(at, end, name);
    find(
        work,
        out,
        fill,
        bucket,
        Sought::Attribute { name, from, end },
    )
}

// What the catalog so far has under this type, title and attribute name.
pub fn read(
    work: &[u8],
    out: &[u8],
    fill: usize,
    kind: u16,
    title: u16,
    name: u16,
) -> Option<Labelled>
    requires { (65536 ≤ length work.now) × ((fill ≤ length out.now) × (fill ≤ 65535)) }
    ensures { (es : List Entry) → Written out.now fill es → Indexed work.now es → result ≡ found_in (look_up kind title name es) }
{
    let entry = find_entry(work, out, fill, kind, title)?;
    let at = find_attribute(work, out, fill, entry, name)?;
    Some(catalog::read_attribute(out, at))
}

// Whether the catalog so far has an entry of this type and title.
pub fn has_entry(work: &[u8], out: &[u8], fill: usize, kind: u16, title: u16) -> bool
    requires { (65536 ≤ length work.now) × ((fill ≤ length out.now) × (fill ≤ 65535)) }
    ensures { (es : List Entry) → Written out.now fill es → Indexed work.now es → result ≡ any (is_entry kind title) es }
{
    find_entry(work, out, fill, kind, title).is_some()
}

// ---- Storing

// One record more, the first of its chain.
fn add_record(work: &mut [u8], bucket: usize, place: u16)
    requires { (65536 ≤ length work.old) × (bucket < most_chains) }
    ensures { Recorded work.old work.new bucket place }
{
    let n = wire::two_in(work, COUNT);
    if MOST_RECORDS <= n {
        return;
    }
    let head = HEADS + HEAD_SIZE * bucket;
    let next = wire::two_in(work, head);
    let at = RECORDS + RECORD_SIZE * n as usize;
    wire::put_two(work, at, place);
    wire::put_two(work, at + RECORD_LINK, next);
    wire::put_two(work, head, n + 1);
    wire::put_two(work, COUNT, n + 1);
}

// The entry between two places, which the catalog so far has after all others, and its attributes.
pub fn index_entry(work: &mut [u8], out: &[u8], entry: usize, end: usize)
    requires { (65536 ≤ length work.old) × ((end ≤ length out.now) × ((end ≤ 65535) × (entry ≤ 65535))) }
    ensures { Extended out.now entry end work.old work.new }
{
    let title = wire::two_at(out, entry + ENTRY_TITLE);
    add_record(work, entry_bucket(title), entry as u16);
    for q in wire::fields_in(out, entry + ENTRY_ATTRIBUTES, end) {
        let name = wire::two_at(out, q + ATTRIBUTE_NAME);
        add_record(work, attribute_bucket(entry, end, name), q as u16);
    }
}
