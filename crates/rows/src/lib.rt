// The sweep's rows: a step in front of a tail, the row of the last block, and the row of a block made of its targets'
// rows.
#![tactic(auto)]

ghost use Rattle.std.specs.Prelude.{◌≡◌, ◌+◌, ◌^◌, ◌<◌, ◌≤◌};
ghost use Rattle.plan_words.specs.Exits.{code};
ghost use Rattle.entries.specs.Entries.{entries_from, Grown};
ghost use Rattle.entries.specs.Structs.{words_in, tuple_of};
ghost use Rattle.rows.specs.Steps.{half_of, hits_of, opened_of, step_words, IsStep};
ghost use Rattle.rows.specs.Rows.{pushed, tails_by, Ready, left_from};
ghost use Rattle.rows.specs.Begun.{Holds, begun_with};

use entries::{Entry, Way};
use plan_words::Exit;

// One half of a step in front of tails, which leaves a block by a way: of the jump edges, or of the fall edges, those
// that it conflicts with, those that the block's effects deny, its own where the block tests, those that stay open; and
// its block, where it is left by this half's way.
#[derive(Clone, Copy)]
struct Half {
    against: u64,
    denied: u64,
    own: u64,
    live: u64,
    left: u64,
}

impl Half {
    // The half of the edges by `side`, of the step that leaves block b by the way.
    #[tactic(auto, using(crate::proofs::Ways::same_code), unfolding(crate::specs::Steps::half_of))]
    fn of(plan: &[u64; 1024], b: usize, way: Exit, side: Exit) -> Half
        requires { b < 64 }
        ensures { result ≡ half_of plan.now b (code way) (code side) }
    {
        let test = plan_words::test(plan, b);
        let listed = plan_words::listed(plan, b, side);
        let touched = plan_words::touched(plan, b);
        let (own, left) = if way == side {
            (test << b, 1 << b)
        } else {
            (0, 0)
        };
        Half {
            against: plan_words::against(plan, b, way, side),
            denied: plan_words::denied(plan, b, side),
            own,
            live: listed & !touched,
            left,
        }
    }

    // The edges of a tail, and the step's own, that the step conflicts with.
    fn hits(&self, edges: u64) -> u64
        ensures { result ≡ hits_of self.now edges }
    {
        (edges & self.against) | ((edges | self.own) & self.denied)
    }

    // The edges that are open with the step in front.
    fn opened(&self, edges: u64) -> u64
        ensures { result ≡ opened_of self.now edges }
    {
        (edges | self.own) & self.live
    }
}

// A step in front of tails: both halves, and what it costs.
#[derive(Clone, Copy)]
struct Step {
    jumps: Half,
    falls: Half,
    cost: u64,
}

impl Step {
    // The step that leaves block b by the way.
    fn of(plan: &[u64; 1024], b: usize, way: Exit) -> Step
        requires { b < 64 }
        ensures { IsStep plan.now b (code way) result }
    {
        let jumps = Half::of(plan, b, way, Exit::Jump);
        let falls = Half::of(plan, b, way, Exit::Fall);
        let cost = plan_words::cost(plan, b, way);
        Step { jumps, falls, cost }
    }

    // A way with the step in front.
    fn longer(&self, way: Way) -> Way
        requires { self.now.cost + way.weight < 2 ^ 64 }
        ensures { words_in result ≡ step_words self.now.jumps self.now.falls self.now.cost (words_in way) }
    {
        Way {
            weight: self.cost + way.weight,
            jumped: way.jumped | self.jumps.left,
            fallen: way.fallen | self.falls.left,
        }
    }

    // A tail of each choice with the step in front into the row, where the step does not conflict; how many are held
    // then.
    fn add_tail(&self, tail: Entry, row: &mut [Entry; 64], held: usize) -> usize
        requires held { held ≤ 64 }
        requires heaviest_fits { self.now.cost + tail.heaviest.weight < 2 ^ 64 }
        requires lightest_fits { self.now.cost + tail.lightest.weight < 2 ^ 64 }
        ensures { Grown
            (pushed self.now.jumps self.now.falls self.now.cost (tuple_of tail) (entries_from row.old 0 held))
            row.old row.new result }
    {
        if self.jumps.hits(tail.jumps) | self.falls.hits(tail.falls) != 0 {
            return held;
        }
        let heaviest = self.longer(tail.heaviest);
        let lightest = self.longer(tail.lightest);
        let entry = Entry {
            jumps: self.jumps.opened(tail.jumps),
            falls: self.falls.opened(tail.falls),
            heaviest,
            lightest,
        };
        entries::insert(row, held, entry)
    }
}

// The tails of b into its row, by each way those of the target's row, until the 65th set appears; how many are held
// then, 65 with the 65th: a count and no Option, see entries::insert. (d) The plan and two rows of tails are told apart.
pub fn build(
    plan: &[u64; 1024],
    b: usize,
    jumps: &[Entry],
    falls: &[Entry],
    row: &mut [Entry; 64],
    begun: usize,
) -> usize
    requires ready { Ready plan.now b jumps.now falls.now }
    requires begun { begun ≤ 64 }
    ensures { Grown
        (left_from plan.now b (tails_by jumps.now falls.now) 1
        (entries_from row.old 0 begun)) row.old row.new result }
{
    let mut held = begun;
    'ways: for (way, tails) in [(Exit::Jump, jumps), (Exit::Fall, falls)] {
        let step = Step::of(plan, b, way);
        for tail in tails {
            held = step.add_tail(*tail, row, held);
            if held > 64 {
                break 'ways;
            }
        }
    }
    held
}

// The row begins empty, but for the last block's, which has its own entry: no edge, its cost and no block that is left
// ((d) each zero says one of these). How many are held.
pub fn begin(plan: &[u64; 1024], b: usize, count: usize, row: &mut [Entry; 64]) -> usize
    requires { b < 64 }
    ensures { Holds (begun_with plan.now count b) row.new result }
{
    row.fill(Entry::default());
    if b + 1 == count {
        let way = Way {
            weight: plan_words::cost(plan, b, Exit::End),
            jumped: 0,
            fallen: 0,
        };
        row[0] = Entry {
            jumps: 0,
            falls: 0,
            heaviest: way,
            lightest: way,
        };
        return 1;
    }
    0
}
