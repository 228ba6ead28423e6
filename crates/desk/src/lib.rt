// The calls of the training tool, which is written in C: the static library. Thin: each call hands its bytes to the
// layers below and returns their numbers by value (crate numbers), so that a refusal writes to no lent memory. A part
// of no bytes may have any pointer. (a) Numbers throughout: the C interface.
#![tactic(auto)]

ghost use Rattle.std.specs.Prelude.{◌≡◌, length};
ghost use Rattle.laws.specs.Terms.{digit};
ghost use Rattle.form.specs.Form.{judge, body_of};
ghost use Rattle.form.specs.Conflict.{conflict_bytes};
ghost use Rattle.pair.specs.Pair.{conflicting};
ghost use Rattle.listing.specs.Answer.{listing, held_after};
ghost use Rattle.counter.specs.Answer.{Owed};
ghost use Rattle.walk.specs.Answer.{WalkOwed};
ghost use Rattle.sweep_steps.specs.Answer.{SweepOwed};
ghost use Rattle.numbers.specs.Answer.{verdict_answer, rewrite_answer, rewrite_held, list_numbers};
ghost use Rattle.numbers.specs.Answer.{count_values, walk_values, swept_outcome, OwnSweepOwed};

use entries::Entry;
use numbers::{CountAnswer, FormAnswer, ListNumbers, SweepNumbers, WalkNumbers};

// The count of a loop, asked with four numbers: number 0 and the count, or 15 or 20 at place 0.
#[unsafe(no_mangle)]
pub extern "C" fn somniaret_count(initial: i32, step: i32, relation: u8, limit: i32) -> CountAnswer
    ensures { Owed initial step relation limit (count_values result) }
{
    counter::count(initial, step, relation, limit).into()
}

// The reader's verdict on any bytes: 10 to 19 with its place, or 0.
#[unsafe(no_mangle)]
pub extern "C" fn somniaret_verdict(bytes: &[u8]) -> FormAnswer
    ensures { result ≡ verdict_answer (judge bytes.now) }
{
    verdict::judge(bytes).into()
}

// A form read and its body written back: the bytes written as the place, or the reader's or the writer's refusal.
#[unsafe(no_mangle)]
pub extern "C" fn somniaret_rewrite(bytes: &[u8], out: &mut [u8]) -> FormAnswer
    ensures { (result ≡ rewrite_answer bytes.now (length out.old)) ×
        (out.new ≡ rewrite_held bytes.now out.old) }
{
    match reader::read(bytes) {
        Ok(body) => writer::write(body, out).into(),
        Err(refusal) => refusal.into(),
    }
}

// Whether two conditions on one variable conflict: 1, or 0 where some whole number meets both.
#[unsafe(no_mangle)]
pub extern "C" fn somniaret_pair(relation1: u8, constant1: i32, relation2: u8, constant2: i32) -> u8
    ensures { result ≡ digit (conflicting relation1 constant1 relation2 constant2) }
{
    u8::from(pair::conflicting(relation1, constant1, relation2, constant2))
}

// The conflict list of a form, 5 bytes an entry, in the lent bytes; or a refusal, which changes none.
#[unsafe(no_mangle)]
pub extern "C" fn somniaret_conflicts(bytes: &[u8], out: &mut [u8]) -> ListNumbers
    ensures { (result ≡ list_numbers (listing bytes.now (length out.old))) ×
        (out.new ≡ held_after (listing bytes.now (length out.old))
        (conflict_bytes (body_of bytes.now)) out.old) }
{
    listing::conflicts(bytes, out).into()
}

// The full walk of a form with a budget: its numbers, and both routes' bytes in the lent ones; or a refusal, which
// changes none.
#[unsafe(no_mangle)]
pub extern "C" fn somniaret_walk(bytes: &[u8], budget: u32, route: &mut [u8]) -> WalkNumbers
    ensures { WalkOwed bytes.now budget route.old (walk_values result, route.new) }
{
    walk::walk(bytes, budget, route).into()
}

// The sweep of a form over a lent table of entries: its numbers, the rows in the table, and both routes' bytes in the
// lent ones.
#[unsafe(no_mangle)]
pub extern "C" fn somniaret_sweep_table(
    bytes: &[u8],
    table: &mut [Entry],
    route: &mut [u8],
) -> SweepNumbers
    ensures { SweepOwed bytes.now route.old table.old
        (swept_outcome result route.new table.new) }
{
    sweep::sweep(bytes, table, route).into()
}

// The same over a table of its own, as large as the report program's: 1,024 entries.
#[unsafe(no_mangle)]
pub extern "C" fn somniaret_sweep(bytes: &[u8], route: &mut [u8]) -> SweepNumbers
    ensures { OwnSweepOwed bytes.now route.old result route.new }
{
    sweep::sweep_own(bytes, route).into()
}
