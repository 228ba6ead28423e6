// What paths join of a body: from what its blocks say by themselves (sets' Local) the sets of edges that the walks
// need, and for each edge the firsts that the conflict list pairs with it. Clean paths to all tests are found at once,
// a word for each block. The meaning is in sets' Found and in form's Conflict.
#![tactic(auto)]

ghost use Rattle.std.specs.Prelude.{◌≡◌, ℕ, ◌<◌, get_or};
ghost use Rattle.laws.specs.Terms.{bit};
ghost use Rattle.words.specs.Filled.{Told};
ghost use Rattle.sets.specs.Local.{Worded};
ghost use Rattle.sets.specs.Found.{SetsFrom, FoundFrom};
ghost use Rattle.path_sets.specs.Parts.{by, Ways, LeadsOf, pairs, ListedAt, PutAt, BothAt, FirstsOf, SetsBy};

use sets::{Edges, Firsts, Found, Local, Sets, Targets};

// For each block, the tests to which a clean path leads from where its jump leads, and from where its fall leads; and
// both together with its own. Blocks that are no tests stand among them: no edge of theirs is ever denied or opposed.
// (d) Three rows, and no array of a struct for each block: `blocks_by` takes whole rows.
#[derive(Clone, Copy)]
struct Leads {
    jump: [u64; 64],
    fall: [u64; 64],
    ahead: [u64; 64],
}

// A way by which a block is left: with its number, an edge's outcome in the conflict list. (d) An edge has no end as
// plan_words::Exit has: `by` would need a case that nobody asks for.
#[derive(Clone, Copy, Debug, PartialEq, Eq)]
pub enum Outcome {
    Jump = 1,
    Fall = 2,
}

// For each block, those of its set that are edges by one way. (d) The clauses below say it of three sets: three words of
// one way, which a struct of borrowed rows would say no plainer.
fn by(way: Outcome, edges: &Edges) -> &[u64; 64]
    ensures { result.now ≡ by way edges.now }
{
    match way {
        Outcome::Jump => &edges.jump,
        Outcome::Fall => &edges.fall,
    }
}

// The word at place k; past the last, none. (d) One expression of std, with a contract, for both ways.
fn word_at(words: &[u64; 64], k: usize) -> u64
    ensures { result ≡ get_or words.now k 0 }
{
    words.get(k).copied().unwrap_or(0)
}

// From the last block down. A path is clean for a test where no block of it touches the test.
fn leads_of(to: &Targets, touched: &[u64; 64]) -> Leads
    requires { Ways to.now.jump to.now.fall }
    ensures { LeadsOf to.now.jump to.now.fall touched.now result }
{
    let mut clean = [0; 64];
    let mut jump = [0; 64];
    let mut fall = [0; 64];
    let mut ahead = [0; 64];
    for b in (0..64).rev() {
        let j = word_at(&clean, to.jump[b]);
        let f = word_at(&clean, to.fall[b]);
        let led = words::either(j, f);
        let here = words::put(led, b, true);
        jump[b] = j;
        fall[b] = f;
        ahead[b] = here;
        clean[b] = words::less(here, touched[b]);
    }
    Leads { jump, fall, ahead }
}

// b put into the words at the numbers of a set.
fn put_at(rows: &mut [u64; 64], set: u64, b: usize)
    requires { b < 64 }
    ensures { PutAt rows.old set b rows.new }
{
    for s in words::members(set) {
        rows[s] = words::put(rows[s], b, true);
    }
}

// For each s, the blocks whose words have s, in both rows.
fn blocks_by(one: &[u64; 64], two: &[u64; 64]) -> [u64; 64]
    ensures { Told 0 (BothAt one.now two.now) 64 64 result }
{
    let mut r = [0; 64];
    for b in 0..64 {
        put_at(&mut r, words::both(one[b], two[b]), b);
    }
    r
}

impl Leads {
    // The edges by one way that the conflict list pairs with block b as first: those that its effects deny, and those
    // that its edge by jump and its edge by fall oppose, as far as clean paths lead to them.
    fn seconds_of(&self, local: &Local, way: Outcome, b: usize) -> u64
        requires { b < 64 }
        ensures { (s : ℕ) → bit result s
            ≡ pairs self.now (by way local.now.denied) (by way local.now.jumping) (by way local.now.falling) b s }
    {
        let denied = by(way, &local.denied);
        let jumping = by(way, &local.jumping);
        let falling = by(way, &local.falling);
        let assigned = words::both(denied[b], self.ahead[b]);
        let jump = words::both(jumping[b], self.jump[b]);
        let fall = words::both(falling[b], self.fall[b]);
        words::either(assigned, words::either(jump, fall))
    }

    // For each b, the edges by one way that have a first below b.
    fn listed_by(&self, local: &Local, way: Outcome) -> [u64; 64]
        ensures { Told 0 (ListedAt self.now (by way local.now.denied) (by way local.now.jumping)
            (by way local.now.falling)) 64 64 result }
    {
        let mut r = [0; 64];
        let mut all = 0;
        for b in 0..64 {
            r[b] = all;
            let here = self.seconds_of(local, way, b);
            all = words::either(all, here);
        }
        r
    }

    // The firsts of the edges by one way.
    fn firsts_by(&self, local: &Local, way: Outcome) -> Firsts
        ensures { FirstsOf self.now (by way local.now.denied) (by way local.now.jumping)
            (by way local.now.falling) result }
    {
        let assigned = blocks_by(by(way, &local.denied), &self.ahead);
        let jump = blocks_by(by(way, &local.jumping), &self.jump);
        let fall = blocks_by(by(way, &local.falling), &self.fall);
        Firsts {
            assigned,
            jump,
            fall,
        }
    }

    // The sets that the walks need of a body whose paths lead there.
    fn sets_of(&self, local: &Local) -> Sets
        ensures { SetsBy local.now self.now result }
    {
        let jump = self.listed_by(local, Outcome::Jump);
        let fall = self.listed_by(local, Outcome::Fall);
        let listed = Edges { jump, fall };
        Sets {
            targets: local.targets,
            touched: local.touched,
            denied: local.denied,
            jumping: local.jumping,
            falling: local.falling,
            listed,
        }
    }
}

// The sets that the walks need of a body.
pub fn sets_of(local: &Local) -> Sets
    requires { Worded local.now }
    ensures { SetsFrom local.now result }
{
    let leads = leads_of(&local.targets, &local.touched);
    leads.sets_of(local)
}

// All that is found of a body, from what its blocks say by themselves: the crate listing reads the conflict list off
// it.
pub fn find(local: &Local) -> Found
    requires { Worded local.now }
    ensures { FoundFrom local.now result }
{
    let leads = leads_of(&local.targets, &local.touched);
    let sets = leads.sets_of(local);
    let jumped = leads.firsts_by(local, Outcome::Jump);
    let fallen = leads.firsts_by(local, Outcome::Fall);
    Found {
        sets,
        variable: local.variable,
        jumped,
        fallen,
    }
}
