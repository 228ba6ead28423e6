// What both ways work on: the plan's words of a block, each by its name (theory's Plan). The plan itself is made by the
// crate plan. It is 1,024 words and no array of structs: (a) theory's Planned and PlanOf, on which plan_of's clause and
// the promises of both ways rest, speak of a list of words, and each word has its name here alone. So, too, `test`
// answers 1 or 0, and `target` 64 where there is none: (a) theory's words of the plan.
// (d) Plan and block stand apart, with `b < 64` in the clauses: theory's words take both, and a struct of them would be
// made for one word and taken apart again.
#![tactic(auto)]

ghost use Rattle.std.specs.Prelude.{◌≡◌, ◌<◌};
ghost use Rattle.theory.specs.Plan.{test_at, target_at, touched_at, denied_at, against_at, listed_at, cost_at};
ghost use Rattle.plan_words.specs.Exits.{code};

// How a block is left, and a side of a set of edges: not, since the path ends in it; by jump or go; by fall. The plan
// has their words in this order. `End` may be asked for wherever a number below 3 might (a): `cost` alone has a word
// for it, and the other functions answer another word of the block.
#[derive(Clone, Copy, Debug, PartialEq, Eq)]
pub enum Exit {
    End = 0,
    Jump = 1,
    Fall = 2,
}

// 1 where the block is a test, else 0.
pub fn test(plan: &[u64; 1024], b: usize) -> u64
    requires { b < 64 }
    ensures { result ≡ test_at plan.now b }
{
    plan[16 * b]
}

// Where the way leads, by jump or fall; 64 where there is no such way. Of `End`: the word `test`.
pub fn target(plan: &[u64; 1024], b: usize, way: Exit) -> u64
    requires { b < 64 }
    ensures { result ≡ target_at plan.now b (code way) }
{
    plan[16 * b + way as usize]
}

// The tests whose variable the block has an effect on.
pub fn touched(plan: &[u64; 1024], b: usize) -> u64
    requires { b < 64 }
    ensures { result ≡ touched_at plan.now b }
{
    plan[16 * b + 3]
}

// The edges by the side that the block's last effect on their variable denies. Of `End`: the word `touched`.
pub fn denied(plan: &[u64; 1024], b: usize, side: Exit) -> u64
    requires { b < 64 }
    ensures { result ≡ denied_at plan.now b (code side) }
{
    plan[16 * b + (3 + side as usize)]
}

// The edges by the side that the block's edge by the way conflicts with. Of an `End`: another word of the block.
pub fn against(plan: &[u64; 1024], b: usize, way: Exit, side: Exit) -> u64
    requires { b < 64 }
    ensures { result ≡ against_at plan.now b (code way) (code side) }
{
    plan[16 * b + (3 + 2 * way as usize + side as usize)]
}

// The edges by the side that the conflict list pairs, as second, with a first in a block below. Of `End`: the last word
// of `against`.
pub fn listed(plan: &[u64; 1024], b: usize, side: Exit) -> u64
    requires { b < 64 }
    ensures { result ≡ listed_at plan.now b (code side) }
{
    plan[16 * b + (9 + side as usize)]
}

// What it costs to run the block and leave it by the way, or end in it.
pub fn cost(plan: &[u64; 1024], b: usize, way: Exit) -> u64
    requires { b < 64 }
    ensures { result ≡ cost_at plan.now b (code way) }
{
    plan[16 * b + 12]
}
