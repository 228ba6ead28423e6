// The order form of document 01: the structs of a body, by value, the kinds of its records, and why something is
// refused. No function but those that are derived, a reason's number and a refusal's text: the reader is the crate
// reader, the writer the crate writer. What each record means, and what is answered, is in specs/.
#![tactic(auto)]

use std::fmt;

// Why something is refused, each case with its number in the table of refusals.
#[derive(Clone, Copy, Debug, PartialEq, Eq)]
pub enum Fault {
    CutShort = 10,
    WrongLength = 11,
    UnknownKind = 12,
    Misplaced = 13,
    OverLimit = 14,
    BadField = 15,
    LowTarget = 16,
    NoBlock = 17,
    BadEnd = 18,
    FarTarget = 19,
    NoCount = 20,
    Crowded = 40,
    OverBudget = 41,
    ShortRoom = 42,
    NoRoute = 43,
    ShortTable = 44,
}

impl From<Fault> for u64 {
    ghost use Rattle.std.specs.Prelude.{◌≡◌};
    ghost use Rattle.form.specs.Said.{number_of};

    ghost from_gives = { λ fault number. number ≡ number_of fault };

    fn from(fault: Fault) -> u64 {
        fault as u64
    }
}

// A refusal: why, and the place that the table of refusals returns with it.
#[derive(Clone, Copy, Debug, PartialEq, Eq)]
pub struct Refusal {
    pub fault: Fault,
    pub place: usize,
}

impl fmt::Display for Refusal {
    ghost use Rattle.std.specs.Prelude.{Some};
    ghost use Rattle.form.specs.Said.{refusal_text};

    ghost output = { λ refusal. Some (refusal_text refusal) };

    fn fmt<W: fmt::Write>(&self, f: &mut fmt::Formatter<W>) -> fmt::Result {
        write!(f, "refused {} at {}", u64::from(self.fault), self.place)
    }
}

// What a record is, as the table of kinds has it.
#[derive(Clone, Copy, Debug, PartialEq, Eq)]
pub enum Kind {
    Unknown,
    Counter,
    Block,
    Effect,
}

// (a) Relations, endings and an effect's `how` are numbers here: the writer takes bodies whose numbers are out of range
// too, and refuses them with 15.

// The counter: what a kind 1 record holds.
#[derive(Clone, Copy, Default)]
pub struct Counter {
    pub initial: i32,
    pub step: i32,
    pub relation: u8,
    pub limit: i32,
}

// A block: what a kind 2 record holds, and the number of effect records that follow it.
#[derive(Clone, Copy, Default)]
pub struct Block {
    pub cost: u32,
    pub ending: u8,
    pub jump: u8,
    pub fall: u8,
    pub variable: u8,
    pub relation: u8,
    pub constant: i32,
    pub effects: usize,
}

// An effect: what a kind 3 record holds.
#[derive(Clone, Copy, Default)]
pub struct Effect {
    pub variable: u8,
    pub how: u8,
    pub constant: i32,
}

// The most blocks and effects that a body may have.
pub const MOST_BLOCKS: usize = 64;

pub const MOST_EFFECTS: usize = 256;

// A loop body: the counter, `count` blocks, and the `total` effects of all blocks in order. What stands past the counts
// is no part of the body.
#[derive(Clone, Copy)]
pub struct Body {
    pub counter: Counter,
    pub count: usize,
    pub blocks: [Block; 64],
    pub total: usize,
    pub effects: [Effect; 256],
}
