// The trainer's cases of document 01 that are not marked, and 'Where trainees go wrong', a case each in which the wrong
// answer would be printed otherwise; likewise the cheapest iteration of request A1. A line for each answer, with all
// its numbers; last the writer's refusals, one by one and in their order. The marked cases are proved (crate marked).
#![tactic(auto)]

mod bodies;
mod output;
mod show;

use bodies::{Build, Condition};
use counter::Relation;
use form::Body;
use output::Output;
use std::io;

// A counter from 0 by 1 while it is below 10.
fn ten() -> Body {
    bodies::counted(0, 1, Relation::Less, 10)
}

// A condition on variable 0.
fn v0(relation: Relation, constant: i32) -> Condition {
    Condition {
        variable: 0,
        relation,
        constant,
    }
}

// ---- the trainer's body

fn trainers(start: Body) -> Body {
    let last = Condition {
        variable: 1,
        relation: Relation::Equal,
        constant: 0,
    };
    start
        .test(7, 0, v0(Relation::AtLeast, 40), 2, 1)
        .go(3, 1, 3)
        .set(1, 0)
        .go(11, 1, 3)
        .set(1, 1)
        .test(2, 0, v0(Relation::Less, 20), 4, 5)
        .go(25, 0, 5)
        .test(4, 0, last, 7, 6)
        .go(18, 0, 7)
        .end(1)
}

fn trainers_cases(rt: &impl Print) -> io::Result<()> {
    show::say(rt, "the trainer's body")?;
    let mut form = [0u8; 3665];
    let n = show::form(rt, trainers(ten()), &mut form)?;
    show::list(rt, &form[..n])?;
    show::sweep(rt, &form[..n])?;
    show::walk(rt, &form[..n], 13)?;
    show::walk(rt, &form[..n], 12)?;
    show::say(rt, "block 1's target made 1")?;
    form[43] = 1;
    show::list(rt, &form[..n])?;
    show::sweep(rt, &form[..n])?;
    show::walk(rt, &form[..n], 13)
}

fn counts(rt: &impl Print) -> io::Result<()> {
    show::count(rt, i32::MIN, 1, Relation::Less, i32::MAX)?;
    show::body(
        rt,
        "the trainer's body, so many iterations",
        trainers(bodies::counted(i32::MIN, 1, Relation::Less, i32::MAX)),
    )
}

// ---- the table of 1,024 entries

// Blocks of cost 1, each of which goes to the next.
fn chain(blocks: u8) -> Body {
    let mut body = ten();
    for next in 1..blocks {
        body = body.go(1, 0, next);
    }
    body.end(1)
}

fn tables(rt: &impl Print) -> io::Result<()> {
    show::body(rt, "17 blocks", chain(17))?;
    show::body(rt, "16 blocks", chain(16))
}

// ---- a conflict-free route need not be runnable

// The dear block 3 is reached by all three tests alone.
fn three_conditions() -> Body {
    ten()
        .test(1, 0, v0(Relation::AtLeast, 2), 1, 4)
        .test(1, 0, v0(Relation::AtMost, 2), 2, 4)
        .test(1, 0, v0(Relation::Unequal, 2), 3, 4)
        .go(100, 0, 4)
        .end(1)
}

fn not_runnable(rt: &impl Print) -> io::Result<()> {
    show::pair(rt, v0(Relation::AtLeast, 2), v0(Relation::AtMost, 2))?;
    show::pair(rt, v0(Relation::AtLeast, 2), v0(Relation::Unequal, 2))?;
    show::pair(rt, v0(Relation::AtMost, 2), v0(Relation::Unequal, 2))?;
    show::body(
        rt,
        "x >= 2, x <= 2 and x != 2 clash only as three: not struck out",
        three_conditions(),
    )
}

// ---- forgetting an unknown effect between two tests, or an effect in the second test's own block

// Block 0 tests v0 >= 40, block 2 tests v0 < 20, and the dear block 3 is reached by both.
fn two_tests(unknown_between: bool, unknown_in_its_own: bool) -> Body {
    let mut body = ten()
        .test(1, 0, v0(Relation::AtLeast, 40), 1, 4)
        .go(1, usize::from(unknown_between), 2);
    if unknown_between {
        body = body.unknown(0);
    }
    body = body.test(
        1,
        usize::from(unknown_in_its_own),
        v0(Relation::Less, 20),
        3,
        4,
    );
    if unknown_in_its_own {
        body = body.unknown(0);
    }
    body.go(100, 0, 4).end(1)
}

// The same with a constant in the second test's own block, that its fall edge does not meet.
fn own_constant() -> Body {
    ten()
        .test(1, 0, v0(Relation::AtLeast, 40), 1, 3)
        .test(1, 1, v0(Relation::Less, 20), 2, 3)
        .set(0, 10)
        .go(100, 0, 3)
        .end(1)
}

fn forgotten_effects(rt: &impl Print) -> io::Result<()> {
    show::body(
        rt,
        "v0 >= 40 and v0 < 20, no effect between",
        two_tests(false, false),
    )?;
    show::body(
        rt,
        "v0 >= 40 and v0 < 20, v0 unknown in a block between",
        two_tests(true, false),
    )?;
    show::body(
        rt,
        "v0 >= 40 and v0 < 20, v0 unknown in the second test's own block",
        two_tests(false, true),
    )?;
    show::body(
        rt,
        "v0 >= 40 and v0 < 20, v0 := 10 in the second test's own block",
        own_constant(),
    )
}

// ---- judging over the reals

// The dear block 2 is reached by v0 > 2 and v0 < limit.
fn whole_numbers(limit: i32) -> Body {
    ten()
        .test(1, 0, v0(Relation::Greater, 2), 1, 3)
        .test(1, 0, v0(Relation::Less, limit), 2, 3)
        .go(100, 0, 3)
        .end(1)
}

fn reals(rt: &impl Print) -> io::Result<()> {
    show::pair(rt, v0(Relation::Greater, 2), v0(Relation::Less, 3))?;
    show::pair(rt, v0(Relation::Greater, 2), v0(Relation::Less, 4))?;
    show::body(rt, "v0 > 2 and v0 < 3", whole_numbers(3))?;
    show::body(rt, "v0 > 2 and v0 < 4", whole_numbers(4))
}

// ---- taking 'some clean path exists' for 'every path is clean'

// From block 0 to block 3 lead a clean path, by block 1's fall, and one by block 2, that sets v0 anew.
fn some_clean_path() -> Body {
    ten()
        .test(1, 0, v0(Relation::AtLeast, 40), 1, 5)
        .open(1, 0, 2, 3)
        .go(1, 1, 3)
        .unknown(0)
        .test(1, 0, v0(Relation::Less, 20), 4, 5)
        .go(100, 0, 5)
        .end(1)
}

// ---- keeping the heaviest tail alone

// The heaviest tail of block 1 conflicts with block 0.
fn second_heaviest() -> Body {
    ten()
        .go(1, 1, 1)
        .set(0, 1)
        .test(1, 0, v0(Relation::Equal, 0), 2, 3)
        .go(100, 0, 3)
        .end(1)
}

// Both tails of block 2 weigh the same; the fall has no open edge, the jump has one, and comes first.
fn tie() -> Body {
    ten()
        .open(1, 0, 2, 1)
        .go(0, 1, 2)
        .set(0, 0)
        .test(1, 0, v0(Relation::Equal, 1), 3, 4)
        .go(5, 0, 5)
        .go(5, 0, 5)
        .end(1)
}

fn tails(rt: &impl Print) -> io::Result<()> {
    show::body(
        rt,
        "some clean path exists, and a route with a new value: listed, and not struck out",
        some_clean_path(),
    )?;
    show::body(
        rt,
        "the heaviest tail conflicts, the next one does not",
        second_heaviest(),
    )?;
    show::body(
        rt,
        "a tail with no open edge, and one as heavy that comes first",
        tie(),
    )
}

// ---- the cheapest iteration

// Of three routes the first is the heaviest, and the other two are the lightest.
fn two_lightest() -> Body {
    ten()
        .open(1, 0, 1, 2)
        .go(9, 0, 5)
        .open(1, 0, 3, 4)
        .go(2, 0, 5)
        .go(2, 0, 5)
        .end(1)
}

// Both tails of block 2 weigh the same, and less than the way by block 5; the fall has no open edge, the jump has one,
// and comes first.
fn lightest_tie() -> Body {
    ten()
        .open(1, 0, 2, 1)
        .go(3, 1, 2)
        .set(0, 0)
        .test(1, 0, v0(Relation::Equal, 1), 3, 4)
        .go(5, 0, 6)
        .open(5, 0, 6, 5)
        .go(7, 0, 6)
        .end(1)
}

// The lightest way, by block 1's jump, conflicts with block 0.
fn lightest_struck_out() -> Body {
    ten()
        .go(1, 1, 1)
        .set(0, 1)
        .test(1, 0, v0(Relation::Equal, 0), 4, 2)
        .open(10, 0, 3, 4)
        .go(100, 0, 4)
        .end(1)
}

// Every route costs nothing.
fn costless() -> Body {
    ten().open(0, 0, 1, 2).go(0, 0, 3).go(0, 0, 3).end(0)
}

fn cheapest(rt: &impl Print) -> io::Result<()> {
    show::body(
        rt,
        "two lightest routes, neither of them the first route",
        two_lightest(),
    )?;
    show::body(
        rt,
        "a lightest tail with no open edge, and one as light that comes first",
        lightest_tie(),
    )?;
    show::body(
        rt,
        "the lightest way has a conflict: struck out",
        lightest_struck_out(),
    )?;
    show::body(rt, "nothing costs anything", costless())?;
    show::short(
        rt,
        "the trainer's body, 15 bytes lent for two routes of 8",
        trainers(ten()),
    )
}

// ---- letting the counter wrap

fn wraps(rt: &impl Print) -> io::Result<()> {
    show::count(rt, 2147483646, 1, Relation::AtMost, i32::MAX)?;
    show::count(rt, i32::MAX, 1, Relation::Less, 0)?;
    show::count(rt, i32::MIN, -1, Relation::Greater, 0)?;
    show::count(rt, 0, i32::MAX, Relation::Unequal, 0)?;
    show::body(
        rt,
        "the trainer's body, a counter that would wrap",
        trainers(bodies::counted(2147483646, 1, Relation::AtMost, i32::MAX)),
    )
}

// ---- the writer's refusals, and their order

// Two blocks: the first goes to the target.
fn two(start: Body, cost: u32, target: u8) -> Body {
    start.go(cost, 0, target).end(1)
}

// A counter whose relation is none.
fn relation_above_five() -> Body {
    let mut body = ten();
    body.counter.relation = 6;
    body
}

// The trainer's body, told with another number of effects.
fn effects_told(total: usize) -> Body {
    trainers(ten()).with_counts(8, total)
}

fn many_effects() -> Body {
    ten().go(1, 257, 1).end(1).with_counts(2, 257)
}

fn high_variable() -> Body {
    ten().go(1, 1, 1).set(16, 0).end(1)
}

// A target beyond the last block, which does not end.
fn beyond_and_no_end() -> Body {
    ten().go(1, 0, 2).go(1, 0, 2)
}

fn refused_counts(rt: &impl Print) -> io::Result<()> {
    show::written(rt, "writing 65 blocks", chain(64).with_counts(65, 0))?;
    show::written(rt, "writing 257 effects", many_effects())?;
    show::written(
        rt,
        "writing more effects than the blocks say",
        effects_told(3),
    )?;
    show::written(
        rt,
        "writing fewer effects than the blocks say",
        effects_told(1),
    )
}

fn refused_fields(rt: &impl Print) -> io::Result<()> {
    show::written(
        rt,
        "writing a relation above 5",
        two(relation_above_five(), 1, 1),
    )?;
    show::written(rt, "writing a cost above 1,000,000", two(ten(), 1000001, 1))?;
    show::written(rt, "writing a variable above 15", high_variable())?;
    show::written(rt, "writing a target not above its block", two(ten(), 1, 0))
}

fn refused_ends(rt: &impl Print) -> io::Result<()> {
    show::written(rt, "writing no block", ten())?;
    show::written(rt, "writing two blocks that end", ten().end(1).end(1))?;
    show::written(
        rt,
        "writing a last block that does not end",
        ten().go(1, 0, 1),
    )?;
    show::written(
        rt,
        "writing a target beyond the last block",
        two(ten(), 1, 2),
    )
}

fn refused_in_order(rt: &impl Print) -> io::Result<()> {
    show::written(
        rt,
        "writing 65 blocks, and a relation above 5: 14 first",
        relation_above_five().with_counts(65, 0),
    )?;
    show::written(
        rt,
        "writing a block with a bad cost and a bad target: 15 first",
        two(ten(), 1000001, 0),
    )?;
    show::written(
        rt,
        "writing a target beyond, and a last block that does not end: block by block",
        beyond_and_no_end(),
    )
}

fn refused_room(rt: &impl Print) -> io::Result<()> {
    show::written_short(
        rt,
        "writing a bad target into 172 bytes: 16 before 42",
        two(ten(), 1, 0),
    )?;
    show::written_short(
        rt,
        "writing the trainer's body into 172 bytes",
        trainers(ten()),
    )
}

// Every case, up to the first that cannot be printed; to `Output` each can.
fn all(rt: &impl Print) -> io::Result<()> {
    counts(rt)?;
    trainers_cases(rt)?;
    tables(rt)?;
    not_runnable(rt)?;
    forgotten_effects(rt)?;
    reals(rt)?;
    tails(rt)?;
    cheapest(rt)?;
    wraps(rt)?;
    refused_counts(rt)?;
    refused_fields(rt)?;
    refused_ends(rt)?;
    refused_in_order(rt)?;
    refused_room(rt)
}

fn main() {
    let _printed = all(&Output);
}
