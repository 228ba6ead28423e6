// The counter of document 01: how often the body of a counted loop runs, in closed form. Numbers of 32 bits are worked
// on at 64, where a difference of two, a negation and one more step still fit.
#![tactic(auto)]

ghost use Rattle.std.specs.Prelude.{◌≡◌, ◌/◌, ◌<◌, MatchResult};
ghost use Rattle.laws.specs.Whole.{up, dn};
ghost use Rattle.form.specs.Relation.{meets};
ghost use Rattle.lower_laws.specs.Relations.{mirrored};
ghost use Rattle.lower_laws.specs.Steps.{first, within};
ghost use Rattle.lower_laws.specs.Loops.{count_of};
ghost use Rattle.counter.specs.Relations.{code, nonzero, IsNoRelation};
ghost use Rattle.counter.specs.Answer.{Owed, said};

use form::{Counter, Fault, Refusal};

// The six relations, in the order of their numbers.
#[derive(Clone, Copy, Debug, PartialEq, Eq)]
pub enum Relation {
    Equal,
    Unequal,
    Less,
    AtLeast,
    Greater,
    AtMost,
}

impl TryFrom<u8> for Relation {
    type Error = Refusal;

    ghost try_from_gives = { λ number r. MatchResult r (λ relation. code relation ≡ number)
        (IsNoRelation number) };

    fn try_from(number: u8) -> Result<Relation, Refusal> {
        match number {
            0 => Ok(Relation::Equal),
            1 => Ok(Relation::Unequal),
            2 => Ok(Relation::Less),
            3 => Ok(Relation::AtLeast),
            4 => Ok(Relation::Greater),
            5 => Ok(Relation::AtMost),
            _ => Err(Refusal {
                fault: Fault::BadField,
                place: 0,
            }),
        }
    }
}

impl Relation {
    // Whether the value meets the relation to the constant.
    fn meets(self, value: i64, constant: i64) -> bool
        ensures { result ≡ meets (code self) value constant }
    {
        match self {
            Relation::Equal => value == constant,
            Relation::Unequal => value != constant,
            Relation::Less => value < constant,
            Relation::AtLeast => value >= constant,
            Relation::Greater => value > constant,
            Relation::AtMost => value <= constant,
        }
    }

    // The relation of -a to -b where a has this relation to b.
    fn mirrored(self) -> Relation
        ensures { code result ≡ mirrored (code self) }
    {
        match self {
            Relation::Equal | Relation::Unequal => self,
            Relation::Less => Relation::Greater,
            Relation::AtLeast => Relation::AtMost,
            Relation::Greater => Relation::Less,
            Relation::AtMost => Relation::AtLeast,
        }
    }
}

// Whether the value meets the relation with this number to the constant: nothing meets a number above 5. (a) A number:
// a `Relation` would ask more of callers.
pub fn meets(relation: u8, value: i64, constant: i64) -> bool
    ensures { result ≡ meets relation value constant }
{
    match Relation::try_from(relation) {
        Ok(relation) => relation.meets(value, constant),
        Err(_) => false,
    }
}

// How often b goes into a, where a is not negative and b is positive. (d) One expression, with a contract, for three
// places.
fn quotient(a: i64, b: i64) -> u64
    requires { (dn a ≡ 0) × (0 < up b) }
    ensures { result ≡ up a / up b }
{
    (a / b) as u64
}

// The first step up from 0 after which the relation to the gap fails.
#[tactic(auto, unfolding(lower_laws::specs::Steps::first, lower_laws::specs::Steps::later))]
fn first(step: i64, relation: Relation, gap: i64) -> Option<u64>
    requires { 0 < up step }
    ensures { result ≡ nonzero (first (up step) (code relation) gap) }
{
    if !relation.meets(step, gap) {
        return Some(1);
    }
    match relation {
        Relation::Equal => Some(2),
        Relation::Unequal => (gap > 0 && gap % step == 0).then(|| quotient(gap, step)),
        Relation::Less => Some(quotient(gap - 1, step) + 1),
        Relation::AtMost => Some(quotient(gap, step) + 1),
        Relation::AtLeast | Relation::Greater => None,
    }
}

// The same where so many steps stay within the room.
#[tactic(auto, unfolding(lower_laws::specs::Steps::within))]
fn within(step: i64, relation: Relation, gap: i64, room: i64) -> Option<u64>
    requires { (0 < up step) × (dn room ≡ 0) }
    ensures { result ≡ nonzero (within (up step) (code relation) gap (up room)) }
{
    first(step, relation, gap).filter(|&k| k <= quotient(room, step))
}

// The count of a counter with this relation: with a step up the room ends at the greatest i32, with a step down, which
// is one up in the mirror, at the least.
#[tactic(auto, unfolding(lower_laws::specs::Loops::count_of))]
fn passes(counter: Counter, relation: Relation) -> Option<u64>
    ensures { result ≡ nonzero (count_of counter.initial counter.step (code relation) counter.limit) }
{
    let initial = i64::from(counter.initial);
    let step = i64::from(counter.step);
    let limit = i64::from(counter.limit);
    if step > 0 {
        within(
            step,
            relation,
            limit - initial,
            i64::from(i32::MAX) - initial,
        )
    } else if step < 0 {
        within(
            -step,
            relation.mirrored(),
            initial - limit,
            initial - i64::from(i32::MIN),
        )
    } else if relation.meets(initial, limit) {
        None
    } else {
        Some(1)
    }
}

// The count of a body's counter.
pub fn count_of(counter: Counter) -> Result<u64, Refusal>
    ensures { Owed counter.initial counter.step counter.relation counter.limit (said result) }
{
    let relation = Relation::try_from(counter.relation)?;
    passes(counter, relation).ok_or(Refusal {
        fault: Fault::NoCount,
        place: 0,
    })
}

// The count of a loop, asked with four numbers.
pub fn count(initial: i32, step: i32, relation: u8, limit: i32) -> Result<u64, Refusal>
    ensures { Owed initial step relation limit (said result) }
{
    count_of(Counter {
        initial,
        step,
        relation,
        limit,
    })
}
