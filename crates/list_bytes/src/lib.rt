// The conflict list's bytes, and its number of entries, from the firsts of each edge (sets' Found). What bytes these
// are is in specs/Laying.antt and specs/Listing.antt.
#![tactic(auto)]

ghost use Rattle.std.specs.Prelude.{◌≡◌, ◌+◌, ◌≤◌, ◌<◌, true, length};
ghost use Rattle.lent.specs.Adding.{Adds};
ghost use Rattle.lent.specs.Filled.{HasRoom, Grows};
ghost use Rattle.list_bytes.specs.Laying.{entry_bytes};
ghost use Rattle.list_bytes.specs.Growing.{assignments, edges, pairs};
ghost use Rattle.list_bytes.specs.Listing.{firsts_bits, row_bits, found_bytes};
ghost use Rattle.path_sets.specs.Parts.{way_number};

use lent::Filled;
use path_sets::Outcome;
use sets::{Firsts, Found};

// What the first of a pair is, with its number as an entry's kind.
#[derive(Clone, Copy)]
enum Kind {
    Assignment = 1,
    Edge = 2,
}

// The second of a pair: an edge, by its block and the way that it is left, and the variable of its test. (d) The block
// is a usize, below 256 in the clauses: it numbers rows too, and as a byte it would be cast at each.
#[derive(Clone, Copy)]
struct Second {
    block: usize,
    outcome: Outcome,
    variable: u8,
}

impl Second {
    // The entry with an assignment in a block as first.
    fn after_assignment(self, first: usize) -> [u8; 5]
        requires { (first < 256) × (self.block < 256) }
        ensures { result ≡ entry_bytes true 1 first self.variable self.block (way_number self.outcome) }
    {
        [
            Kind::Assignment as u8,
            first as u8,
            self.variable,
            self.block as u8,
            self.outcome as u8,
        ]
    }

    // The entry with a block's edge by a way as first.
    fn after_edge(self, first: usize, way: Outcome) -> [u8; 5]
        requires { (first < 256) × (self.block < 256) }
        ensures { result ≡ entry_bytes true 2 first (way_number way) self.block (way_number self.outcome) }
    {
        [
            Kind::Edge as u8,
            first as u8,
            way as u8,
            self.block as u8,
            self.outcome as u8,
        ]
    }

    // The entries whose first is an assignment, by the first block.
    fn add_assignments(self, out: &mut Filled, assigned: u64)
        requires { (self.block < 256) × HasRoom out.old (assignments self assigned) }
        ensures { Grows out.old out.new (assignments self assigned) }
    {
        // (d) By number and `has`, as in add_edges: both loops have the turns of turn_bytes, by which the list's bytes
        // are defined (specs/Laying); `members` would need a second definition beside it.
        for first in 0..64 {
            if words::has(assigned, first) {
                out.add(&self.after_assignment(first));
            }
        }
    }

    // Those whose first is an edge, by the first block, and there by its jump and by its fall.
    fn add_edges(self, out: &mut Filled, jump: u64, fall: u64)
        requires { (self.block < 256) × HasRoom out.old (edges self jump fall) }
        ensures { Grows out.old out.new (edges self jump fall) }
    {
        // By number and `has`, not over one word's bits: a block's entries by its jump and by its fall stand side by
        // side, so that a turn reads both words.
        for first in 0..64 {
            if words::has(jump, first) {
                out.add(&self.after_edge(first, Outcome::Jump));
            }
            if words::has(fall, first) {
                out.add(&self.after_edge(first, Outcome::Fall));
            }
        }
    }

    // All entries with this second.
    fn add_pairs(self, out: &mut Filled, firsts: &Firsts)
        requires { (self.block < 64) × HasRoom out.old (pairs self firsts.now) }
        ensures { Grows out.old out.new (pairs self firsts.now) }
    {
        self.add_assignments(out, firsts.assigned[self.block]);
        self.add_edges(out, firsts.jump[self.block], firsts.fall[self.block]);
    }
}

// How many bits the words of a row have.
fn ones(row: &[u64; 64]) -> usize
    ensures { (result ≡ row_bits row.now) × (result ≤ 4096) }
{
    row.iter().map(|word| word.count_ones() as usize).sum()
}

// How many entries the edges by one way have.
fn firsts_number(firsts: &Firsts) -> usize
    ensures { (result ≡ firsts_bits firsts.now) × (result ≤ 12288) }
{
    ones(&firsts.assigned) + ones(&firsts.jump) + ones(&firsts.fall)
}

// How many entries the list has.
pub fn found_number(found: &Found) -> usize
    ensures { (result ≡ firsts_bits found.now.jumped + firsts_bits found.now.fallen) × (result ≤ 24576) }
{
    firsts_number(&found.jumped) + firsts_number(&found.fallen)
}

// The whole list, block by block, at the front of the lent bytes; how many bytes it has.
pub fn found_entries(out: &mut [u8], found: &Found) -> usize
    requires { 0 + length (found_bytes found.now) ≤ length out.old }
    ensures { Adds out.old 0 out.new result (found_bytes found.now) }
{
    let mut list = Filled::new(out);
    for block in 0..64 {
        let variable = found.variable[block];
        let jump = Second {
            block,
            outcome: Outcome::Jump,
            variable,
        };
        let fall = Second {
            block,
            outcome: Outcome::Fall,
            variable,
        };
        jump.add_pairs(&mut list, &found.jumped);
        fall.add_pairs(&mut list, &found.fallen);
    }
    list.end
}
