// The log of a text's reading: eight bytes for each token that inserted bytes into the tree in the making.
ghost use Rattle.std.specs.Prelude.{◌≡◌, ◌+◌, ◌*◌, ◌≤◌, ◌<◌, eqb, length};
ghost use Rattle.parse_table.specs.Codes.{symbol_of};
ghost use Rattle.text_places.specs.Log.{followed, is_operator, sort, inserted_at, noted_by, log_in, Notable, Noted};

use lexer::Token;
use notation::kinds::{OR_WORD, PLUS_SIGN, QUESTION};
use parse_table::symbols::{A_NAME, PARENT};
use tree_builder::Building;

// ---- Writing

// ?, or one of + - / > == = and or
fn is_operator(kind: u8) -> bool
    ensures { result ≡ is_operator kind }
{
    (kind == QUESTION) | ((PLUS_SIGN <= kind) & (kind <= OR_WORD))
}

// A name of a field, or a parent, comes before the field's parts.
fn is_before_parts(symbol: u8) -> bool
    ensures { result ≡ eqb (sort (symbol_of symbol)) 1 }
{
    (symbol == A_NAME) | (symbol == PARENT)
}

// Where a token inserted bytes, by the symbol that was on top.
fn inserted_at(symbol: u8, kind: u8, before: Building, behind: Building) -> usize
    ensures { result ≡ inserted_at (eqb (sort (symbol_of symbol)) 1) (is_operator kind) before.body behind.start before.fill }
{
    if is_before_parts(symbol) {
        return before.body;
    }
    if is_operator(kind) {
        return behind.start;
    }
    before.fill
}

// Notes what a token did, by the symbol that was on top and the state before it and behind it: the number of entries. One that has no room in the log is
// counted.
pub fn note(
    log: &mut [u8],
    entries: usize,
    symbol: u8,
    token: Token,
    before: Building,
    behind: Building,
) -> usize
    requires { Notable entries token.start before behind }
    ensures { Noted log.old log.new entries result (noted_by symbol token.kind token.start before behind) }
{
    if behind.fill <= before.fill {
        return entries;
    }
    let from = inserted_at(symbol, token.kind, before, behind);
    let size = behind.fill - before.fill;
    let entry = from * 1099511627776 + (size * 65536 + token.start);
    wire::put_eight(log, 8 * entries, entry as u64);
    entries + 1
}

// ---- Reading

// The place of the token that brought the byte at `offset`, by the first `entries` of the log: from the last one on, the offset is led back to what it was
// before the token.
pub fn follow(log: &[u8], entries: usize, offset: usize) -> usize
    requires { 8 * entries ≤ length log.now }
    ensures { (result ≡ followed (log_in log.now entries) offset) × (result < 65536) }
{
    let mut at = offset;
    for n in (0..entries).rev() {
        let entry = wire::number_in(log, 8 * n);
        let from = (entry / 1099511627776) as usize;
        let size = (entry / 65536 % 16777216) as usize;
        if from + size <= at {
            at -= size;
        } else if from <= at {
            return (entry % 65536) as usize;
        }
    }
    0
}
