// The entries of the sweep's rows, in the order of their keys, and one put in where its key belongs. (a) A row and how
// many it holds stand apart: `Grown`, on which the sweep's promise rests, speaks of both, and a row is C's entries.
#![tactic(auto)]

ghost use Rattle.std.specs.Prelude.{◌≡◌, ◌≤◌, length, IfOk, IfErr};
ghost use Rattle.laws.specs.Terms.{preferred};
ghost use Rattle.entries.specs.Entries.{entries_from, better_of, keep_both, inserted, HeldAt, MissingAt, Grown};
ghost use Rattle.entries.specs.Structs.{choice_of, key_of, words_in, tuple_of};

use std::cmp::Ordering;

// Which tails of a block are looked for: the heaviest, or the lightest.
#[derive(Clone, Copy, Debug, PartialEq, Eq)]
pub enum Choice {
    Heaviest,
    Lightest,
}

impl Choice {
    // Whether the first weight is preferred to the second: of the heaviest the heavier, of the lightest the lighter.
    pub fn prefers(self, one: u64, other: u64) -> bool
        ensures { result ≡ preferred (choice_of self) one other }
    {
        match self {
            Choice::Heaviest => other < one,
            Choice::Lightest => one < other,
        }
    }

    // Whether the first tail is better: of the preferred weight, or of the same and first. The lowest block in which
    // their 'left by jump' sets differ tells which is first.
    fn is_better(self, one: Way, other: Way) -> bool
        ensures { result ≡ better_of (choice_of self) (words_in one) (words_in other) }
    {
        if one.weight != other.weight {
            return self.prefers(one.weight, other.weight);
        }
        let first_apart = (one.jumped ^ other.jumped).trailing_zeros();
        words::has(one.jumped, first_apart as usize)
    }
}

// A way to the end of a body as words: its weight, the blocks left by jump or go, the blocks left by fall.
#[repr(C)]
#[derive(Clone, Copy, Default)]
pub struct Way {
    pub weight: u64,
    pub jumped: u64,
    pub fallen: u64,
}

// The open edges of tails: the blocks of those by jump or go, of those by fall. In the order of the jump sets, then of
// the fall sets.
#[derive(Clone, Copy, Debug, PartialEq, Eq, PartialOrd, Ord)]
struct Key {
    jumps: u64,
    falls: u64,
}

// For one pair of sets of open edges, the jump set and the fall set: of the tails with just these the first of the
// heaviest, and the first of the lightest.
#[repr(C)]
#[derive(Clone, Copy, Default)]
pub struct Entry {
    pub jumps: u64,
    pub falls: u64,
    pub heaviest: Way,
    pub lightest: Way,
}

impl Entry {
    fn key(&self) -> Key
        ensures { key_of result ≡ (tuple_of self.now).0 }
    {
        Key {
            jumps: self.jumps,
            falls: self.falls,
        }
    }

    // Of this entry and another of its key, the better way of each choice.
    fn keep_better(&mut self, other: Entry)
        ensures { tuple_of self.new ≡ ((tuple_of self.old).0, keep_both (tuple_of other).1 (tuple_of self.old).1) }
    {
        if Choice::Heaviest.is_better(other.heaviest, self.heaviest) {
            self.heaviest = other.heaviest;
        }
        if Choice::Lightest.is_better(other.lightest, self.lightest) {
            self.lightest = other.lightest;
        }
    }
}

// Where the key is held, or where it belongs.
fn place_of(row: &[Entry; 64], held: usize, key: Key) -> Result<usize, usize>
    requires { held ≤ 64 }
    ensures held { IfOk result (HeldAt row.now held (key_of key)) }
    ensures missing { IfErr result (MissingAt row.now held (key_of key)) }
{
    for (p, entry) in row[..held].iter().enumerate() {
        match entry.key().cmp(&key) {
            Ordering::Less => {}
            Ordering::Equal => return Ok(p),
            Ordering::Greater => return Err(p),
        }
    }
    Err(held)
}

// One entry more in an ascending row, one for each key, the better of each choice; how many are held then. The 65th key
// is counted, and not put in. The answer is a count, 65 with the 65th key, and no Option: (d) the loops of rows::build
// count on with it, are left by a label when the 65th appears (document 01), and what document 01 counts are the sets.
pub fn insert(row: &mut [Entry; 64], held: usize, entry: Entry) -> usize
    requires { held ≤ 64 }
    ensures { Grown (inserted (tuple_of entry) (entries_from row.old 0 held)) row.old
        row.new result }
{
    match place_of(row, held, entry.key()) {
        Ok(p) => {
            row[p].keep_better(entry);
            held
        }
        Err(p) if held < 64 => {
            row.copy_within(p..held, p + 1);
            row[p] = entry;
            held + 1
        }
        Err(_) => 65,
    }
}
