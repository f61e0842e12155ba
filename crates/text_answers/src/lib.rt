// How a call of a text tool ends: its answer, and what becomes of every byte lent to it.
#![tactic(auto)]

ghost use Rattle.std.specs.Prelude.{◌≤◌, length, take};
ghost use Rattle.rules.specs.Outcome.{refused, done};
ghost use Rattle.text_answers.specs.Leaving.{Leaves, Clears};

use notation::Answer;
use values::{Reason, Refusal};

// The output from a place on, and the whole memory, become zero.
fn clear_from(from: usize, out: &mut [u8], work: &mut [u8])
    requires { from ≤ length out.old }
    ensures { Clears from out.old out.new work.old work.new }
{
    let end = out.len();
    wire::clear(out, from, end);
    let last = work.len();
    wire::clear(work, 0, last);
}

// A refusal: all bytes lent become zero.
pub fn refuse(reason: Reason, place: u16, out: &mut [u8], work: &mut [u8]) -> Answer
    ensures { Leaves (refused reason place) out.old out.new work.old work.new result }
{
    clear_from(0, out, work);
    Err(Refusal::at(reason, place as usize))
}

// What is written stays; all other bytes lent become zero.
pub fn accept(size: u16, out: &mut [u8], work: &mut [u8]) -> Answer
    requires { size ≤ length out.old }
    ensures { Leaves (done (take size out.old)) out.old out.new work.old work.new result }
{
    clear_from(size as usize, out, work);
    Ok(size)
}
