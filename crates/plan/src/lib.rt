// What both ways start from, and the numbers that both answer. The plan of a body: what the walks need of each block,
// 16 words a block (theory's Plan), from the body's costs and the sets of its conflicts.
#![tactic(auto)]

ghost use Rattle.std.specs.Prelude.{◌≡◌, ◌<◌, ◌≤◌};
ghost use Rattle.form.specs.Conflict.{Sound};
ghost use Rattle.theory.specs.Plan.{Planned, cost_limit};
ghost use Rattle.theory.specs.Route.{step_cost};
ghost use Rattle.plan.specs.Prepared.{PreparedOf};
ghost use Rattle.plan.specs.Totals.{totals_of};

use form::{Body, Refusal};

pub mod route;

// The plan of a body that the reader accepted, in lent words. The sets are found once, and not for each block. A
// block's ending is a number, 3 a test: (a) form::Block has it so.
pub fn plan_of(body: &Body, plan: &mut [u64; 1024])
    requires { Sound body.now }
    ensures { Planned body.now (step_cost body.now) plan.new }
{
    let sets = path_sets::sets_of(&local_sets::local_of(*body));
    for (b, block) in body.blocks.iter().enumerate() {
        plan[16 * b..16 * b + 16].copy_from_slice(&[
            u64::from(block.ending == 3),
            sets.targets.jump[b] as u64,
            sets.targets.fall[b] as u64,
            sets.touched[b],
            sets.denied.jump[b],
            sets.denied.fall[b],
            sets.jumping.jump[b],
            sets.jumping.fall[b],
            sets.falling.jump[b],
            sets.falling.fall[b],
            sets.listed.jump[b],
            sets.listed.fall[b],
            u64::from(block.cost),
            0,
            0,
            0,
        ]);
    }
}

// The plan of a form's body, with the number of its blocks and its loop count.
#[derive(Clone, Copy)]
pub struct Prepared {
    pub count: usize,
    pub iterations: u64,
    pub plan: [u64; 1024],
}

// What both ways start from, for any bytes: the reader's refusal, or 20 where there is no loop count, or the plan.
pub fn prepare(form: &[u8]) -> Result<Prepared, Refusal>
    ensures { PreparedOf form.now result }
{
    let body = reader::read(form)?;
    let iterations = counter::count_of(body.counter)?;
    let mut start = Prepared {
        count: body.count,
        iterations,
        plan: [0; 1024],
    };
    plan_of(&body, &mut start.plan);
    Ok(start)
}

// What both ways answer where there are routes: the loop count, the weight of the first heaviest route and count times
// it, the weight of the first lightest route and count times it.
#[derive(Clone, Copy, Debug, PartialEq, Eq)]
pub struct Totals {
    pub iterations: u64,
    pub weight: u64,
    pub bound: u64,
    pub least: u64,
    pub least_total: u64,
}

impl Totals {
    // Of a loop count and of weights within the limit, so that count times each of them fits a word.
    pub fn of(iterations: u64, weight: u64, least: u64) -> Totals
        requires count { iterations < 4294967296 }
        requires weights { (weight ≤ cost_limit) × (least ≤ cost_limit) }
        ensures { result ≡ totals_of iterations weight least }
    {
        let bound = iterations * weight;
        let least_total = iterations * least;
        Totals {
            iterations,
            weight,
            bound,
            least,
            least_total,
        }
    }
}
