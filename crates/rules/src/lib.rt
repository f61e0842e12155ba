// The types of document 01's list of fields, and a fault. What they mean, and the rules themselves, stand in specs/; but for the making of a fault nothing runs here.
#![tactic(auto)]

ghost use Rattle.std.specs.Prelude.{◌≡◌, ◌≤◌, Err};
ghost use Rattle.rules.specs.Verdicts.{fault_at};

use values::{Reason, Refusal};

// What may stand at a position of a manifest.
#[derive(Clone, Copy)]
pub enum Kind {
    Table,
    Text,
    Constant,
    Expression,
    Pattern,
    Arm,
    Statement,
    Block,
    Branch,
    Attribute,
    Parameter,
    Parent,
    Item,
    Device,
}

// A part of a body: one field of a kind, at most so many, any number of them, or the names of a node (one 1B, or 31s).
// `Over` is a part that is done.
#[derive(Clone, Copy)]
pub enum Part {
    Over,
    One(Kind),
    UpTo { most: u16, kind: Kind },
    Many(Kind),
    Names,
}

// The parts that may still come, in order.
#[derive(Clone, Copy)]
pub struct Parts {
    pub first: Part,
    pub second: Part,
    pub third: Part,
}

// What a body begins with.
#[derive(Clone, Copy)]
pub enum Piece {
    Nothing,
    Label,
    Integer,
    Boolean,
    Operator,
    Name,
}

// What follows the pieces: nothing, any bytes up to 255 in all, or fields.
#[derive(Clone, Copy)]
pub enum Rest {
    Only,
    Text,
    Fields(Parts),
}

// A line of the list of fields: at most two pieces, and what follows them.
#[derive(Clone, Copy)]
pub struct Form {
    pub one: Piece,
    pub two: Piece,
    pub rest: Rest,
}

// What a part makes of the next field.
#[derive(Clone, Copy)]
pub enum Took {
    Takes(Part),
    Passes,
    Refuses,
}

// What may come after a field, if it may stand here.
#[derive(Clone, Copy)]
pub enum Next {
    Go(Parts),
    Wrong,
}

// The first fault that the check before running finds, with its place.
#[derive(Clone, Copy)]
pub struct Fault {
    pub reason: Reason,
    pub place: usize,
}

impl Fault {
    // The fault of this kind at a place.
    pub fn at(reason: Reason, place: usize) -> Self
        ensures { Err result ≡ fault_at reason place }
    {
        Self { reason, place }
    }
}

// The refusal of a manifest, or of a list of types, with this fault: its place is one that a refusal can name.
impl From<Fault> for Refusal {
    ghost from_gives = { λ f r. (r.reason ≡ f.reason) × (f.place ≤ 65535 → r.place ≡ f.place) };

    fn from(fault: Fault) -> Refusal {
        Refusal::at(fault.reason, values::place(fault.place))
    }
}

// What that check finds: no fault, or the first one.
pub type Verdict = Result<(), Fault>;
