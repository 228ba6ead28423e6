// The sets of edges and blocks that stand for a body's conflicts, as rows of words: the structs, and in specs/ what
// they are of a body. No function: the crate local_sets finds what blocks say by themselves (Local), the crate
// path_sets what paths join (Found, and its Sets). (a) They stay rows, and no array of a struct for each block, and
// Sets repeats fields of Local, since the definitions local_of, sets_of and found_of (specs/) name these fields.
#![tactic(auto)]

// Where each block's jump and fall lead; (a) 64 where it has no such way, and no Option, since local_of (specs/) says
// so.
#[derive(Clone, Copy)]
pub struct Targets {
    pub jump: [usize; 64],
    pub fall: [usize; 64],
}

// For each block a set of edges: those by jump and those by fall.
#[derive(Clone, Copy)]
pub struct Edges {
    pub jump: [u64; 64],
    pub fall: [u64; 64],
}

// What a body's blocks, effects and edges say by themselves, with no path looked at: where
// each block's ways lead; the tests that it touches; the edges that its effects deny; the edges that its edge by
// jump, and that by fall, conflicts with; and its variable.
#[derive(Clone, Copy)]
pub struct Local {
    pub targets: Targets,
    pub touched: [u64; 64],
    pub denied: Edges,
    pub jumping: Edges,
    pub falling: Edges,
    pub variable: [u8; 64],
}

// What the walks need of a body: where each block's ways lead; the tests that it touches; the edges that its effects
// deny; the edges that its edge by jump, and that by fall, conflicts with; and those that the conflict list pairs
// with a first below it.
#[derive(Clone, Copy)]
pub struct Sets {
    pub targets: Targets,
    pub touched: [u64; 64],
    pub denied: Edges,
    pub jumping: Edges,
    pub falling: Edges,
    pub listed: Edges,
}

// For each block's edge by one way, the blocks that the conflict list pairs with it as firsts: by assignment, by
// their jump edge and by their fall edge.
#[derive(Clone, Copy)]
pub struct Firsts {
    pub assigned: [u64; 64],
    pub jump: [u64; 64],
    pub fall: [u64; 64],
}

// All that is found of a body: the sets, and for the conflict list each block's variable and the firsts of its edges
// by jump and by fall.
#[derive(Clone, Copy)]
pub struct Found {
    pub sets: Sets,
    pub variable: [u8; 64],
    pub jumped: Firsts,
    pub fallen: Firsts,
}
