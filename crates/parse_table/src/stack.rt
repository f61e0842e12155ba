// The stack of symbols: a byte for each, the one on top last.
ghost use Rattle.std.specs.Prelude.{◌+◌, ◌≤◌, ◌<◌, length};
ghost use Rattle.parse_table.specs.Stack.{Pushed};

// The symbols of a manifest, items and the end of the text: they take the place of the one symbol of a new stack.
pub const MANIFEST: u64 = 0x2c_05;

// At most 461 symbols are on the stack (proofs/Bound.antt), and `push` asks for 7 bytes more.
pub const STACK_SIZE: usize = 468;

// The symbols of a row in the place of the one on top: the new number of symbols.
pub fn push(stack: &mut [u8], top: usize, symbols: u64) -> usize
    requires { (0 < top) × (top + 7 ≤ length stack.old) }
    ensures { Pushed stack.old stack.new top symbols result }
{
    let mut next = top - 1;
    let mut left = symbols;
    while left != 0 {
        stack[next] = (left % 256) as u8;
        left = left / 256;
        next = next + 1;
    }
    next
}
