// What a body's blocks, effects and edges say by themselves, as sets of edges in words: the part of its conflicts
// that looks at no path. The meaning is in sets' Local and in form's Conflict. (a) Endings, relations and kinds
// of effects are numbers here: `local_of` promises for any body, with numbers out of range too.
#![tactic(auto)]

ghost use Rattle.std.specs.Prelude.{◌≡◌, ◌≤◌, [], ◌∷◌, length, take};
ghost use Rattle.form.specs.Relation.{opposite};
ghost use Rattle.sets.specs.Local.{local_of};
ghost use Rattle.local_sets.specs.Parts.{WaysOf, conflict, asked, TestsOf, ConflictsIn, Follows, HitsFrom};

// What there is by each of the two ways of leaving a block.
// (a) sets' Targets and Edges stay beside it: its definitions (edge_rows, local_of) name these types.
#[derive(Clone, Copy, Default)]
struct ByWay<T> {
    jump: T,
    fall: T,
}

// What an edge of a test asks of the test's variable.
#[derive(Clone, Copy, Default)]
struct Condition {
    relation: u8,
    constant: i32,
}

impl Condition {
    // Whether no whole number meets both.
    fn conflicts_with(self, other: Condition) -> bool
        ensures { result ≡ conflict self other }
    {
        pair::conflicting(self.relation, self.constant, other.relation, other.constant)
    }
}

// The tests that effects touch, and those whose edge the last effect on their variable denies.
#[derive(Clone, Copy, Default)]
struct Hits {
    touched: u64,
    denied: ByWay<u64>,
}

impl Hits {
    // Those of some effects, and then of later ones.
    fn then(self, later: Hits) -> Hits
        ensures { Follows self later result }
    {
        let jump = words::renewed(self.denied.jump, later.touched, later.denied.jump);
        let fall = words::renewed(self.denied.fall, later.touched, later.denied.fall);
        Hits {
            touched: words::either(self.touched, later.touched),
            denied: ByWay { jump, fall },
        }
    }
}

// For each block, the tests that it touches and the edges that its effects deny.
#[derive(Clone, Copy)]
struct EffectRows {
    touched: [u64; 64],
    denied: sets::Edges,
}

// For each block, the edges that its edge by jump, and that by fall, conflicts with: (a) the two rows that sets::Local
// has, by their names there.
#[derive(Clone, Copy)]
struct EdgeRows {
    jumping: sets::Edges,
    falling: sets::Edges,
}

// The blocks of a body: what stands past its count is no part of it.
fn blocks_of(body: &form::Body) -> &[form::Block]
    ensures own { result.now ≡ take body.now.count body.now.blocks }
    ensures few { length result.now ≤ 64 }
{
    let blocks: &[form::Block] = &body.blocks;
    &blocks[..body.count.min(blocks.len())]
}

// Where a block's ways lead; (a) 64 where it has no such way, as in sets::Targets.
fn ways_of(block: form::Block) -> ByWay<usize>
    ensures { WaysOf block result }
{
    let jump = usize::from(block.jump);
    let fall = usize::from(block.fall);
    match block.ending {
        1 => ByWay { jump, fall: 64 },
        2 | 3 => ByWay { jump, fall },
        _ => ByWay { jump: 64, fall: 64 },
    }
}

fn targets_of(body: &form::Body) -> sets::Targets
    ensures { result ≡ (local_of body.now).targets }
{
    // (d) Zeros and 64s by hand, here and below: Default is derived for arrays of at most 32.
    let mut targets = sets::Targets {
        jump: [64; 64],
        fall: [64; 64],
    };
    for (b, block) in blocks_of(body).iter().enumerate() {
        let ways = ways_of(*block);
        targets.jump[b] = ways.jump;
        targets.fall[b] = ways.fall;
    }
    targets
}

fn variables_of(body: &form::Body) -> [u8; 64]
    ensures { result ≡ (local_of body.now).variable }
{
    let mut variables = [0; 64];
    for (b, block) in blocks_of(body).iter().enumerate() {
        variables[b] = block.variable;
    }
    variables
}

// The relation that holds exactly where this one fails. (d) counter's mirrored relation is another table: one function
// of six numbers would be no plainer.
fn opposite(relation: u8) -> u8
    ensures { result ≡ opposite relation }
{
    match relation {
        0 => 1,
        1 => 0,
        2 => 3,
        3 => 2,
        4 => 5,
        5 => 4,
        _ => relation,
    }
}

// What the edges of a test ask.
fn asked(test: form::Block) -> ByWay<Condition>
    ensures { result ≡ asked test }
{
    let constant = test.constant;
    let jump = Condition {
        relation: test.relation,
        constant,
    };
    let fall = Condition {
        relation: opposite(test.relation),
        constant,
    };
    ByWay { jump, fall }
}

// The tests of a body: those on each variable, and what the edges of each ask.
#[derive(Clone, Copy)]
struct Tests {
    on: [u64; 256],
    edges: [ByWay<Condition>; 64],
}

impl Tests {
    fn of(body: &form::Body) -> Tests
        ensures { TestsOf body.now result }
    {
        let mut on = [0; 256];
        let mut edges = [ByWay::default(); 64];
        for (k, block) in blocks_of(body).iter().enumerate() {
            let variable = usize::from(block.variable);
            on[variable] = words::put(on[variable], k, block.ending == 3);
            edges[k] = asked(*block);
        }
        Tests { on, edges }
    }

    // Of a set of tests, the edges that conflict with a condition on their variable.
    fn conflicts(&self, set: u64, condition: Condition) -> ByWay<u64>
        ensures { ConflictsIn self.now.edges set condition result }
    {
        let mut jump = 0;
        let mut fall = 0;
        for k in words::members(set) {
            let edges = self.edges[k];
            jump = words::put(jump, k, condition.conflicts_with(edges.jump));
            fall = words::put(fall, k, condition.conflicts_with(edges.fall));
        }
        ByWay { jump, fall }
    }

    // What an effect by itself does to the tests: a constant denies the edges that it does not meet.
    fn hit(&self, effect: form::Effect) -> Hits
        ensures { HitsFrom self.now (effect ∷ []) result }
    {
        let alike = self.on[usize::from(effect.variable)];
        let set = words::only(effect.how == 1, alike);
        let equal = Condition {
            relation: 0,
            constant: effect.constant,
        };
        let denied = self.conflicts(set, equal);
        Hits {
            touched: alike,
            denied,
        }
    }

    // What effects do to the tests, one after another.
    fn hits(&self, effects: &[form::Effect]) -> Hits
        ensures { HitsFrom self.now effects.now result }
    {
        let mut hits = Hits::default();
        for effect in effects {
            hits = hits.then(self.hit(*effect));
        }
        hits
    }

    // What the effects do to the tests, block by block.
    fn effect_rows(&self, body: &form::Body) -> EffectRows
        requires { TestsOf body.now self.now }
        ensures touched { result.touched ≡ (local_of body.now).touched }
        ensures denied { result.denied ≡ (local_of body.now).denied }
    {
        let mut touched = [0; 64];
        let mut denied = sets::Edges {
            jump: [0; 64],
            fall: [0; 64],
        };
        let mut left: &[form::Effect] = &body.effects;
        for (b, block) in blocks_of(body).iter().enumerate() {
            let (own, others) = left.split_at(block.effects.min(left.len()));
            let hits = self.hits(own);
            touched[b] = hits.touched;
            denied.jump[b] = hits.denied.jump;
            denied.fall[b] = hits.denied.fall;
            left = others;
        }
        EffectRows { touched, denied }
    }

    // The edges that each test's edges conflict with.
    fn edge_rows(&self, body: &form::Body) -> EdgeRows
        requires { TestsOf body.now self.now }
        ensures jumping { result.jumping ≡ (local_of body.now).jumping }
        ensures falling { result.falling ≡ (local_of body.now).falling }
    {
        let mut jumping = sets::Edges {
            jump: [0; 64],
            fall: [0; 64],
        };
        let mut falling = jumping;
        for (b, block) in blocks_of(body).iter().enumerate() {
            let on = self.on[usize::from(block.variable)];
            let alike = words::only(block.ending == 3, on);
            let edges = self.edges[b];
            let by_jump = self.conflicts(alike, edges.jump);
            jumping.jump[b] = by_jump.jump;
            jumping.fall[b] = by_jump.fall;
            let by_fall = self.conflicts(alike, edges.fall);
            falling.jump[b] = by_fall.jump;
            falling.fall[b] = by_fall.fall;
        }
        EdgeRows { jumping, falling }
    }
}

// (a) By value, since document 01's scope passes a body so.
pub fn local_of(body: form::Body) -> sets::Local
    ensures { result ≡ local_of body }
{
    let targets = targets_of(&body);
    let variable = variables_of(&body);
    let tests = Tests::of(&body);
    let EffectRows { touched, denied } = tests.effect_rows(&body);
    let EdgeRows { jumping, falling } = tests.edge_rows(&body);
    sets::Local {
        targets,
        touched,
        denied,
        jumping,
        falling,
        variable,
    }
}
