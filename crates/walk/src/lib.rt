// The full walk, for any bytes: from the plan, by the search over its words (crate search), to the answer. What is owed
// is in specs/Answer.antt.
#![tactic(auto)]

ghost use Rattle.walk.specs.Answer.{said, WalkOwed};

use form::{Fault, Refusal};
use plan::{Totals, route};

// The full walk's answer: what both ways answer, and the number of conflict-free beginnings. (d) The sweep's is a struct
// of its own: only the totals are shared, the last number means another thing.
#[derive(Clone, Copy, Debug, PartialEq, Eq)]
pub struct Walked {
    pub totals: Totals,
    pub walked: u64,
}

// The full walk, for any bytes: the loop count, the first heaviest and the first lightest conflict-free route with
// their bytes, count times each weight, and walked; or a refusal, which changes no lent byte.
pub fn walk(form: &[u8], budget: u32, route: &mut [u8]) -> Result<Walked, Refusal>
    ensures { WalkOwed form.now budget route.old (said result, route.new) }
{
    let start = plan::prepare(form)?;
    let room = 2 * start.count;
    if route.len() < room {
        return Err(Refusal {
            fault: Fault::ShortRoom,
            place: room,
        });
    }
    let budget = u64::from(budget);
    let found = search::search(&start.plan, start.count, budget);
    if budget < found.walked {
        return Err(Refusal {
            fault: Fault::OverBudget,
            place: budget as usize,
        });
    }
    let Some(best) = found.best else {
        return Err(Refusal {
            fault: Fault::NoRoute,
            place: 0,
        });
    };
    let first = best.heaviest.into();
    let second = best.lightest.into();
    route::write_routes(route, start.count, first, second);
    let weight = best.heaviest.weight;
    let least = best.lightest.weight;
    Ok(Walked {
        totals: Totals::of(start.iterations, weight, least),
        walked: found.walked,
    })
}
