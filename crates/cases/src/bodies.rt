// Bodies put together block by block. A block is told how many effects follow it; the writer sees whether they add up.
// What finds no place is left out, which the writer sees too.
// A block's ending is 1, 2 or 3, 0 the end, and an effect's `how` 1 or 0: (a) form::Block's and form::Effect's numbers.
use counter::Relation;
use form::{Block, Body, Counter, Effect};

// A relation's sign. (d) No Display: Relation is the counter's, which prints nothing.
pub(crate) fn sign(relation: Relation) -> &'static str {
    match relation {
        Relation::Equal => "=",
        Relation::Unequal => "!=",
        Relation::Less => "<",
        Relation::AtLeast => ">=",
        Relation::Greater => ">",
        Relation::AtMost => "<=",
    }
}

// What a test asks: a variable's relation to a constant.
#[derive(Clone, Copy)]
pub(crate) struct Condition {
    pub variable: u8,
    pub relation: Relation,
    pub constant: i32,
}

// A body with its counter and nothing else.
pub(crate) fn counted(initial: i32, step: i32, relation: Relation, limit: i32) -> Body {
    Body {
        counter: Counter {
            initial,
            step,
            relation: relation as u8,
            limit,
        },
        count: 0,
        blocks: [Block::default(); 64],
        total: 0,
        effects: [Effect::default(); 256],
    }
}

// A body with one block or one effect more. (d) Numbers one by one, as a case tells them.
pub(crate) trait Build {
    fn with_block(self, block: Block) -> Body;

    fn with_effect(self, effect: Effect) -> Body;

    // The body with other counts than it was put together with.
    fn with_counts(self, count: usize, total: usize) -> Body;

    // The last block.
    fn end(self, cost: u32) -> Body;

    fn go(self, cost: u32, effects: usize, jump: u8) -> Body;

    // An open branch.
    fn open(self, cost: u32, effects: usize, jump: u8, fall: u8) -> Body;

    fn test(self, cost: u32, effects: usize, condition: Condition, jump: u8, fall: u8) -> Body;

    // An effect: the variable is this constant.
    fn set(self, variable: u8, constant: i32) -> Body;

    // An effect: the variable's value is unknown.
    fn unknown(self, variable: u8) -> Body;
}

impl Build for Body {
    fn with_block(mut self, block: Block) -> Body {
        if self.count < 64 {
            self.blocks[self.count] = block;
            self.count += 1;
        }
        self
    }

    fn with_effect(mut self, effect: Effect) -> Body {
        if self.total < 256 {
            self.effects[self.total] = effect;
            self.total += 1;
        }
        self
    }

    fn with_counts(mut self, count: usize, total: usize) -> Body {
        self.count = count;
        self.total = total;
        self
    }

    fn end(self, cost: u32) -> Body {
        self.with_block(Block {
            cost,
            ..Block::default()
        })
    }

    fn go(self, cost: u32, effects: usize, jump: u8) -> Body {
        self.with_block(Block {
            cost,
            ending: 1,
            jump,
            effects,
            ..Block::default()
        })
    }

    fn open(self, cost: u32, effects: usize, jump: u8, fall: u8) -> Body {
        self.with_block(Block {
            cost,
            ending: 2,
            jump,
            fall,
            effects,
            ..Block::default()
        })
    }

    fn test(self, cost: u32, effects: usize, condition: Condition, jump: u8, fall: u8) -> Body {
        self.with_block(Block {
            cost,
            ending: 3,
            jump,
            fall,
            variable: condition.variable,
            relation: condition.relation as u8,
            constant: condition.constant,
            effects,
        })
    }

    fn set(self, variable: u8, constant: i32) -> Body {
        self.with_effect(Effect {
            variable,
            how: 1,
            constant,
        })
    }

    fn unknown(self, variable: u8) -> Body {
        self.with_effect(Effect {
            variable,
            ..Effect::default()
        })
    }
}
