// The sweep's steps over rows of entries, and what the sweep owes (specs/Answer.antt): whether there is room for it, a
// block's row made of its targets' rows, what is known of the rows that are complete, and the answer from row 0. Crate
// sweep puts these steps together over the lent table.
#![tactic(auto)]

ghost use Rattle.std.specs.Prelude.{◌≡◌, min, ◌*◌, ◌<◌, ◌≤◌, length, get_or, OnOk, OnErr, IfErr};
ghost use Rattle.laws.specs.Terms.{Choice};
ghost use Rattle.theory.specs.Plan.{target_at, cost_limit};
ghost use Rattle.rows.specs.Rows.{Ready, tails_by, left_from};
ghost use Rattle.rows.specs.Begun.{begun_with};
ghost use Rattle.sweep_steps.specs.Turn.{place_in, MadeOf};
ghost use Rattle.sweep_steps.specs.Drive.{crowd_at, rows_with};
ghost use Rattle.sweep_steps.specs.Ends.{room_for, first_weight, answer_of};

use entries::Entry;
use form::{Fault, Refusal};
use plan::{Prepared, Totals};
use plan_words::Exit;
use std::ops::Range;

// Whether there is room for both routes' bytes, and for the rows of so many blocks.
pub fn check_room(count: usize, bytes: usize, entries: usize) -> Result<(), Refusal>
    requires { count ≤ 64 }
    ensures { result ≡ room_for count bytes entries }
{
    if bytes < 2 * count {
        return Err(Refusal {
            fault: Fault::ShortRoom,
            place: 2 * count,
        });
    }
    if entries < 64 * count {
        return Err(Refusal {
            fault: Fault::ShortTable,
            place: 64 * count,
        });
    }
    Ok(())
}

// (a) std's `min`, by a name that docs/PROMISES.md has always had; nothing here asks it.
pub fn lesser(a: usize, b: usize) -> usize
    ensures { result ≡ min a b }
{
    if a < b { a } else { b }
}

// The row of block b from the entries of its targets' rows, in the place of whatever was made before; how many entries
// it has, or 65 where it is crowded: a count and no Option, see entries::insert. Plan and count stand apart and are no
// `&Prepared`: (c) tried; with it the fact that the plan's words fit is named in the goals only by names that change.
pub fn make(
    plan: &[u64; 1024],
    count: usize,
    b: usize,
    jumps: &[Entry],
    falls: &[Entry],
    made: &mut [Entry; 64],
) -> usize
    requires { Ready plan.now b jumps.now falls.now }
    ensures { MadeOf
        (left_from plan.now b (tails_by jumps.now falls.now) 1 (begun_with plan.now count b)) made.new result }
{
    let begun = rows::begin(plan, b, count, made);
    rows::build(plan, b, jumps, falls, made, begun)
}

// The rows that are complete: how many entries each has, and how many the longest has. The lengths stand beside the
// table: (a) a zero entry may be a real one, and the table's entries are C's.
#[derive(Clone, Copy)]
pub struct Rows {
    pub lengths: [u8; 64],
    pub kept: usize,
}

impl Rows {
    // Where the entries of row t stand in the table; a row that there is none of has none.
    fn place(&self, t: usize) -> Range<usize>
        ensures { result ≡ place_in self.now.lengths t }
    {
        if t < self.lengths.len() {
            64 * t..64 * t + usize::from(self.lengths[t])
        } else {
            0..0
        }
    }

    // Where the entries of the rows of the targets of block b stand in the table, by jump or go and by fall.
    pub fn sources(&self, plan: &[u64; 1024], b: usize) -> (Range<usize>, Range<usize>)
        requires { b < 64 }
        ensures jump { result.0 ≡ place_in self.now.lengths (target_at plan.now b 1) }
        ensures fall { result.1 ≡ place_in self.now.lengths (target_at plan.now b 2) }
    {
        let jump = plan_words::target(plan, b, Exit::Jump);
        let fall = plan_words::target(plan, b, Exit::Fall);
        (self.place(jump as usize), self.place(fall as usize))
    }

    // Row b has so many entries, and is complete; with a 65th, block b is crowded.
    pub fn add(&mut self, b: usize, held: usize) -> Result<(), Refusal>
        requires { b < 64 }
        ensures complete { OnOk result ((held ≤ 64) × (self.new ≡ rows_with self.old b held)) }
        ensures crowded { OnErr result ((64 < held) × (self.new ≡ self.old)) }
        ensures refusal { IfErr result (λ refusal. refusal ≡ crowd_at b) }
    {
        if held > 64 {
            let crowded = Refusal {
                fault: Fault::Crowded,
                place: b,
            };
            return Err(crowded);
        }
        self.lengths[b] = held as u8;
        self.kept = self.kept.max(held);
        Ok(())
    }
}

// The sweep's answer where there are routes: what both ways answer, and how many entries the longest row has.
#[derive(Clone, Copy, Debug, PartialEq, Eq)]
pub struct Routed {
    pub totals: Totals,
    pub kept: u64,
}

// The answer from all rows and row 0's entry, and both routes' bytes. With no entry in row 0 there is no route. (d) Row
// 0's length, at hand, says whether there is an entry; an Option of it would say so twice.
pub fn answer(
    ready: &Prepared,
    rows: &Rows,
    first: Entry,
    route: &mut [u8],
) -> Result<Routed, Refusal>
    requires count_in_bounds { (2 * ready.now.count ≤ length route.old) × (ready.now.iterations < 4294967296) }
    requires row_bound { 0 < get_or rows.now.lengths 0 0 → (choice : Choice) → first_weight choice first ≤ cost_limit }
    ensures { (result, route.new) ≡ answer_of ready.now.count ready.now.iterations rows.now first route.old }
{
    if rows.lengths[0] == 0 {
        return Err(Refusal {
            fault: Fault::NoRoute,
            place: 0,
        });
    }
    let (heaviest, lightest) = (first.heaviest, first.lightest);
    plan::route::write_routes(route, ready.count, heaviest.into(), lightest.into());
    Ok(Routed {
        totals: Totals::of(ready.iterations, heaviest.weight, lightest.weight),
        kept: rows.kept as u64,
    })
}
