// The full walk over a plan's words (theory's Plan): by recursion from block to block, jump before fall; an edge that
// makes a conflict is not taken. What its turns mean is in specs/Terms.antt.
#![tactic(auto)]

ghost use Rattle.std.specs.Prelude.{◌≡◌, ◌+◌, ◌^◌, ◌<◌};
ghost use Rattle.std.proofs.Math.Option.{some};
ghost use Rattle.laws.specs.Terms as laws;
ghost use Rattle.laws.specs.Terms.{bit, preferred};
ghost use Rattle.theory.specs.Walk.{keep_first};
ghost use Rattle.theory.specs.Plan.{target_at, PlanOf};
ghost use Rattle.entries.specs.Structs.{choice_of, words_in};
ghost use Rattle.plan_words.specs.Exits.{code};
ghost use Rattle.search.specs.Terms.{banned_at, left_at, marked, kept_in, Standing, Entered, Barring, open_target};
ghost use Rattle.search.specs.Terms.{Walks, Searched};

use entries::{Choice, Way};
use plan_words::Exit;

// The banned edges: those by jump or go, those by fall. (d) A pair with methods of its own.
#[derive(Clone, Copy, Default)]
struct Banned {
    jumps: u64,
    falls: u64,
}

impl Banned {
    // After the effects of block b: what they overwrite is no longer banned, what they deny is.
    fn entered(self, plan: &[u64; 1024], b: usize) -> Banned
        requires { b < 64 }
        ensures { Entered plan.now b (banned_at self) (banned_at result) }
    {
        let touched = plan_words::touched(plan, b);
        Banned {
            jumps: words::renewed(self.jumps, touched, plan_words::denied(plan, b, Exit::Jump)),
            falls: words::renewed(self.falls, touched, plan_words::denied(plan, b, Exit::Fall)),
        }
    }

    // After block b is left by an exit: what its edge conflicts with is banned.
    fn barred(self, plan: &[u64; 1024], b: usize, exit: Exit) -> Banned
        requires { b < 64 }
        ensures { Barring plan.now b (code exit) (banned_at self) (banned_at result) }
    {
        Banned {
            jumps: words::either(self.jumps, plan_words::against(plan, b, exit, Exit::Jump)),
            falls: words::either(self.falls, plan_words::against(plan, b, exit, Exit::Fall)),
        }
    }
}

// The blocks left so far: those by jump or go, those by fall. (d) plan::route::Route has the same two sets: it stands
// above this crate, and is written as bytes where this one grows by exits.
#[derive(Clone, Copy, Default)]
struct Left {
    jumped: u64,
    fallen: u64,
}

impl Left {
    // With block b, left by an exit.
    fn with(self, b: usize, exit: Exit) -> Left
        requires { b < 64 }
        ensures { left_at result ≡ marked (b, code exit) (left_at self) }
    {
        match exit {
            Exit::End => self,
            Exit::Jump => Left {
                jumped: words::put(self.jumped, b, true),
                ..self
            },
            Exit::Fall => Left {
                fallen: words::put(self.fallen, b, true),
                ..self
            },
        }
    }
}

// Of the routes found, the first heaviest and the first lightest.
#[derive(Clone, Copy)]
pub struct Best {
    pub heaviest: Way,
    pub lightest: Way,
}

// What is found: how many beginnings are walked, and the best of the routes among them, where there is one.
#[derive(Clone, Copy, Default)]
pub struct Found {
    pub walked: u64,
    pub best: Option<Best>,
}

impl Found {
    // A whole route more.
    fn keep(&mut self, way: Way)
        ensures count { self.new.walked ≡ self.old.walked }
        ensures best { (choice : laws.Choice) → kept_in choice self.new.best
            ≡ keep_first (preferred choice) (kept_in choice self.old.best) (words_in way) }
    {
        self.best = Some(match self.best {
            None => Best {
                heaviest: way,
                lightest: way,
            },
            Some(best) => Best {
                heaviest: kept(Choice::Heaviest, best.heaviest, way),
                lightest: kept(Choice::Lightest, best.lightest, way),
            },
        });
    }
}

// Of the route held and this one, the first of the weight preferred by the choice.
fn kept(choice: Choice, held: Way, way: Way) -> Way
    ensures { some (words_in result) ≡ keep_first (preferred (choice_of choice)) (some (words_in held)) (words_in way) }
{
    if choice.prefers(way.weight, held.weight) {
        way
    } else {
        held
    }
}

// What is walked: a plan, the number of its blocks, and how many beginnings may be counted, which stay the same from
// block to block.
#[derive(Clone, Copy)]
struct Walk<'a> {
    plan: &'a [u64; 1024],
    count: usize,
    budget: u64,
}

impl Walk<'_> {
    // Where an exit of block b leads, where it may be taken: it is there (the plan has 64 for none), its edge is not
    // banned, and the budget is not passed.
    fn target(&self, b: usize, exit: Exit, banned: u64, walked: u64) -> Option<usize>
        requires { b < 64 }
        ensures { result ≡ open_target (target_at self.now.plan.now b (code exit)) (bit banned b) walked
            self.now.budget }
    {
        let target = plan_words::target(self.plan, b, exit);
        if target < 64 && !words::has(banned, b) && walked <= self.budget {
            Some(target as usize)
        } else {
            None
        }
    }

    // All that is found from block b on, where these edges are banned, and the way so far has this weight and left
    // these blocks. The way so far is passed in two parts and is no `Way`: (b) a struct of three words is passed in
    // memory, and a walk then took 1.98 times as long as in plain Rust; in two parts it takes 1.17.
    fn visit(&self, b: usize, banned: Banned, weight: u64, left: Left, found: &mut Found)
        requires { Standing self.now.plan.now self.now.count self.now.budget b weight found.old.walked }
        ensures { (choice : laws.Choice) → Walks choice self.now.plan.now self.now.count self.now.budget b
            (banned_at banned) (weight, left_at left) found.old found.new }
    {
        found.walked += 1;
        if b + 1 == self.count {
            let weight = weight + plan_words::cost(self.plan, b, Exit::End);
            found.keep(Way {
                weight,
                jumped: left.jumped,
                fallen: left.fallen,
            });
            return;
        }
        let here = banned.entered(self.plan, b);
        // Each exit by itself, jump before fall: in a loop over both a walk took a tenth longer.
        if let Some(target) = self.target(b, Exit::Jump, here.jumps, found.walked) {
            let next = here.barred(self.plan, b, Exit::Jump);
            let weight = weight + plan_words::cost(self.plan, b, Exit::Jump);
            self.visit(target, next, weight, left.with(b, Exit::Jump), found);
        }
        if let Some(target) = self.target(b, Exit::Fall, here.falls, found.walked) {
            let next = here.barred(self.plan, b, Exit::Fall);
            let weight = weight + plan_words::cost(self.plan, b, Exit::Fall);
            self.visit(target, next, weight, left.with(b, Exit::Fall), found);
        }
    }
}

// All that is found from block 0 on.
pub fn search(plan: &[u64; 1024], count: usize, budget: u64) -> Found
    requires { PlanOf plan.now count × (budget < 4294967296) }
    ensures { (choice : laws.Choice) → Searched choice plan.now count budget result }
{
    let walk = Walk {
        plan,
        count,
        budget,
    };
    let mut found = Found::default();
    walk.visit(0, Banned::default(), 0, Left::default(), &mut found);
    found
}
