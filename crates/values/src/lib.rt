// What a manifest's expressions yield, why a compile refuses, and what it answers.
#![tactic(auto)]

ghost use Rattle.std.specs.Prelude.{◌≡◌, ◌≤◌};
ghost use Rattle.values.specs.Integers.{same_value};
ghost use Rattle.values.specs.Labelled.{under};
ghost use Rattle.values.specs.Numbers.{number_of, part_number};
ghost use Rattle.values.specs.Refusals.{refusal_at};

use labels::Labels;

// Decimal text of numbers.
pub mod decimal;
// Arithmetic on signed 64-bit integers.
pub mod integers;

// A value of document 01: an integer, a string (its number in the table), or a boolean.
#[derive(Clone, Copy, PartialEq, Eq)]
pub enum Value {
    Integer(i64),
    String(u16),
    Boolean(bool),
}

// A value with the set of the labels that decide it.
#[derive(Clone, Copy)]
pub struct Labelled {
    pub value: Value,
    pub labels: Labels,
}

impl Labelled {
    // The same value, with labels added to its set: no other function adds any.
    pub fn under(self, set: Labels) -> Labelled
        ensures { result ≡ under set self }
    {
        Labelled {
            labels: set.union(self.labels),
            ..self
        }
    }
}

// The papers' reasons for refusing: document 01's, 1 to 23, in its order, then those of the text tools, of the why tool and of a list of types.
#[derive(Clone, Copy)]
pub enum Reason {
    MemoryTooShort,
    ManifestLength,
    Malformed,
    TooDeep,
    StringOrder,
    StepLimit,
    LevelLimit,
    DefinedAgain,
    Unknown,
    DeclaredAgain,
    UnknownParameter,
    MissingParameter,
    NoValue,
    AssignedAgain,
    WrongKind,
    Overflow,
    DivisionByZero,
    NoMatch,
    NotInCatalog,
    ResourceAgain,
    AttributeAgain,
    CellLimit,
    OutputFull,
    OutsideNotation,
    PastLine255,
    Unprintable,
    NoSuchAttribute,
    TypeList,
}

// Why a compile refuses, and the place of the field concerned.
#[derive(Clone, Copy)]
pub struct Refusal {
    pub reason: Reason,
    pub place: u16,
}

// What a compile has made: the catalog's length, and the steps taken.
#[derive(Clone, Copy)]
pub struct Compiled {
    pub length: u16,
    pub steps: u16,
}

// What a compile answers.
pub type Answer = Result<Compiled, Refusal>;

// The parts of an attribute's set, in the order in which a label is looked for in them.
#[derive(Clone, Copy)]
pub enum SetPart {
    Title,
    Path,
    Trail,
    Marks,
    Value,
}

// The first part of an attribute's set that holds a label, and the place of a constant with it.
#[derive(Clone, Copy)]
pub struct Among {
    pub part: SetPart,
    pub place: u16,
}

// Why a label counts for an attribute, or that its set lacks it.
pub type Explanation = Result<Option<Among>, Refusal>;

// What an operation on integers answers.
#[derive(Clone, Copy)]
pub enum ArithmeticError {
    Overflow,
    DivisionByZero,
}

impl Refusal {
    // The refusal at the place p.
    pub fn at(reason: Reason, p: usize) -> Self
        requires { p ≤ 65535 }
        ensures { result ≡ refusal_at reason p }
    {
        Self {
            reason,
            place: p as u16,
        }
    }
}

// A place that a refusal can name: others do not occur.
pub fn place(q: usize) -> usize
    ensures { (result ≤ 65535) × (q ≤ 65535 → result ≡ q) }
{
    q.min(65535)
}

// "= takes any two values, unequal if of unlike kinds".
pub fn same_value(a: Value, b: Value) -> bool
    ensures { result ≡ same_value a b }
{
    a == b
}

// The papers' number for a reason.
#[tactic(auto, unfolding(crate::specs::Numbers::number_of))]
pub fn number_of(reason: Reason) -> u8
    ensures { result ≡ number_of reason }
{
    match reason {
        Reason::MemoryTooShort => 1,
        Reason::ManifestLength => 2,
        Reason::Malformed => 3,
        Reason::TooDeep => 4,
        Reason::StringOrder => 5,
        Reason::StepLimit => 6,
        Reason::LevelLimit => 7,
        Reason::DefinedAgain => 8,
        Reason::Unknown => 9,
        Reason::DeclaredAgain => 10,
        Reason::UnknownParameter => 11,
        Reason::MissingParameter => 12,
        Reason::NoValue => 13,
        Reason::AssignedAgain => 14,
        Reason::WrongKind => 15,
        Reason::Overflow => 16,
        Reason::DivisionByZero => 17,
        Reason::NoMatch => 18,
        Reason::NotInCatalog => 19,
        Reason::ResourceAgain => 20,
        Reason::AttributeAgain => 21,
        Reason::CellLimit => 22,
        Reason::OutputFull => 23,
        Reason::OutsideNotation => 24,
        Reason::PastLine255 => 25,
        Reason::Unprintable => 26,
        Reason::NoSuchAttribute => 27,
        Reason::TypeList => 28,
    }
}

// The number of a part, by its place in document 02's list.
#[tactic(auto, unfolding(crate::specs::Numbers::part_number))]
pub fn part_number(part: SetPart) -> u8
    ensures { result ≡ part_number part }
{
    match part {
        SetPart::Title => 1,
        SetPart::Path => 2,
        SetPart::Trail => 3,
        SetPart::Marks => 4,
        SetPart::Value => 5,
    }
}
