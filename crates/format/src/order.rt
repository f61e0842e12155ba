// Which fields may come next, where some parts of a body are still to come. Parts that are done are dropped.
ghost use Rattle.std.specs.Prelude.{◌≡◌, ◌/◌};
ghost use Rattle.format.specs.Numbers.{line_number, how_many, parts_from};
ghost use Rattle.format.specs.Coming.{comes, complete, taken_from, then_from};

use crate::kinds::DEVICE;
use crate::lines::allows;
use crate::parts::{COUNT, MANY, NAMES, ONE, SECOND, UP_TO};

// What the first of the parts makes of a field: it takes the field, and these parts may come then; or it leaves the field to the others; or it refuses it.
#[derive(Clone, Copy)]
pub enum Taking {
    Parts(u64),
    Passes,
    Refuses,
}

const DEVICES: u64 = MANY + DEVICE;

// How many fields the first part takes: `ONE`, `UP_TO`, `MANY` or `NAMES`.
fn how_many(parts: u64) -> u64
    ensures { result ≡ how_many parts }
{
    parts / 16 % 8 * 16
}

// What the names of a node make of a field with this tag.
fn takes_name(parts: u64, tag: u8) -> Taking
    requires { how_many parts ≡ 64 }
    ensures { taken_from result (comes (parts_from (parts / 2097152)) tag) ≡ comes (parts_from parts) tag }
{
    match tag {
        0x31 => Taking::Parts(parts / SECOND * SECOND + DEVICES),
        0x1b => Taking::Parts(parts / SECOND),
        _ => Taking::Refuses,
    }
}

// What the first part makes of a field with this tag and line.
fn takes(parts: u64, tag: u8, line: u64) -> Taking
    requires { line ≡ line_number tag }
    ensures { taken_from result (comes (parts_from (parts / 2097152)) tag) ≡ comes (parts_from parts) tag }
{
    let many = how_many(parts);
    if many == NAMES {
        return takes_name(parts, tag);
    }
    if !allows(line, parts % 16) {
        if many == ONE {
            return Taking::Refuses;
        }
        return Taking::Passes;
    }
    match many {
        ONE => Taking::Parts(parts / SECOND),
        MANY => Taking::Parts(parts),
        UP_TO => {
            if parts % SECOND < COUNT {
                Taking::Passes
            } else {
                Taking::Parts(parts - COUNT)
            }
        }
        _ => Taking::Passes,
    }
}

// What may come after a field with this tag and line, where these parts may come.
pub fn follows(parts: u64, tag: u8, line: u64) -> Option<u64>
    requires { line ≡ line_number tag }
    ensures { then_from result ≡ comes (parts_from parts) tag }
{
    let mut left = parts;
    while left != 0 {
        match takes(left, tag, line) {
            Taking::Parts(then) => return Some(then),
            Taking::Refuses => return None,
            Taking::Passes => {}
        }
        left = left / SECOND;
    }
    None
}

// Whether a body may end where these parts may still come.
pub fn may_end(parts: u64) -> bool
    ensures { result ≡ complete (parts_from parts) }
{
    let mut left = parts;
    while left != 0 {
        match how_many(left) {
            ONE => return false,
            NAMES => return false,
            _ => {}
        }
        left = left / SECOND;
    }
    true
}
