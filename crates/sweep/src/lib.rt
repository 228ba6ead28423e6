// The sweep: over the plan of a body, from the last block down, row by row, into a lent table of entries, which is its
// memory: row b stands from entry 64 b on. Here is all that reads or writes the table. The steps, and what is owed, are
// in crate sweep_steps.
#![tactic(auto)]

ghost use Rattle.std.specs.Prelude.{◌*◌, ◌≤◌, length};
ghost use Rattle.theory.specs.Plan.{PlanOf};
ghost use Rattle.sweep_steps.specs.Answer.{outcome_of, SweepOwed, OwnTableOwed};
ghost use Rattle.sweep_steps.specs.Ends.{Rowed};

use entries::Entry;
use form::Refusal;
use sweep_steps::{Routed, Rows};

// All rows, from the last block down, until one is crowded. Plan and count stand apart, and are no `&Prepared`: (c) as
// in sweep_steps::make.
fn sweep_rows(plan: &[u64; 1024], count: usize, table: &mut [Entry]) -> Result<Rows, Refusal>
    requires { PlanOf plan.now count × (64 * count ≤ length table.old) }
    ensures { Rowed plan.now count table.old table.new result }
{
    // (d) By hand: Default is derived for arrays of at most 32.
    let mut rows = Rows {
        lengths: [0; 64],
        kept: 0,
    };
    let mut made = [Entry::default(); 64];
    for b in (0..count).rev() {
        let (jump, fall) = rows.sources(plan, b);
        let jumps = &table[jump];
        let falls = &table[fall];
        let held = sweep_steps::make(plan, count, b, jumps, falls, &mut made);
        rows.add(b, held)?;
        table[64 * b..64 * b + 64].copy_from_slice(&made);
    }
    Ok(rows)
}

// The sweep, for any bytes: the loop count, the first heaviest and the first lightest conflict-free route with their
// bytes, count times each weight, and the longest row, with all rows in the table; or a refusal.
pub fn sweep(form: &[u8], table: &mut [Entry], route: &mut [u8]) -> Result<Routed, Refusal>
    ensures { SweepOwed form.now route.old table.old
        (outcome_of result route.new table.new) }
{
    let ready = plan::prepare(form)?;
    sweep_steps::check_room(ready.count, route.len(), table.len())?;
    let rows = sweep_rows(&ready.plan, ready.count, table)?;
    let first = table[0];
    sweep_steps::answer(&ready, &rows, first, route)
}

// The same over a table of its own, as large as the report program's: 1,024 entries.
pub fn sweep_own(form: &[u8], route: &mut [u8]) -> Result<Routed, Refusal>
    ensures { OwnTableOwed form.now route.old result route.new }
{
    let mut table = [Entry::default(); 1024];
    sweep(form, &mut table, route)
}
