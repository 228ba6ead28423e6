// What is printed of a case: every number of every answer, so that a wrong one changes the text.
ghost use Rattle.std.specs.Prelude.{OnOk, IfOk};
ghost use Rattle.io.specs.Counts.{IsPrefixLen};

use crate::bodies::{Condition, sign};
use counter::Relation;
use form::{Body, Refusal};
use plan::Totals;
use std::io;
use sweep_steps::Routed;
use walk::Walked;

pub(crate) fn say(rt: &impl Print, text: &str) -> io::Result<()> {
    println!(rt; "{text}")
}

// The conflict list's bytes as numbers, its entries of five apart.
fn entries(rt: &impl Print, bytes: &[u8]) -> io::Result<()> {
    for (i, entry) in bytes.chunks(5).enumerate() {
        if i > 0 {
            print!(rt; ";")?;
        }
        for byte in entry {
            print!(rt; " {byte}")?;
        }
    }
    println!(rt; "")
}

// A route's bytes, up to its last block, whose byte is 3.
fn route(rt: &impl Print, bytes: &[u8]) -> io::Result<()> {
    for way in bytes {
        print!(rt; " {way}")?;
        if *way == 3 {
            break;
        }
    }
    Ok(())
}

// Both routes' bytes, the second behind the last block of the first.
fn routes(rt: &impl Print, bytes: &[u8; 128]) -> io::Result<()> {
    print!(rt; ", routes")?;
    route(rt, bytes)?;
    print!(rt; " and")?;
    if let Some(last) = bytes.iter().position(|way| *way == 3) {
        route(rt, &bytes[last + 1..])?;
    }
    println!(rt; "")
}

pub(crate) fn count(
    rt: &impl Print,
    initial: i32,
    step: i32,
    relation: Relation,
    limit: i32,
) -> io::Result<()> {
    print!(rt; "count {initial}, {step}, {}, {limit}: ", sign(relation))?;
    match counter::count(initial, step, relation as u8, limit) {
        Ok(iterations) => println!(rt; "{iterations}"),
        Err(refusal) => println!(rt; "{refusal}"),
    }
}

// Two conditions on one variable x.
pub(crate) fn pair(rt: &impl Print, one: Condition, other: Condition) -> io::Result<()> {
    let conflict = pair::conflicting(
        one.relation as u8,
        one.constant,
        other.relation as u8,
        other.constant,
    );
    let says = if conflict { "conflict" } else { "no conflict" };
    println!(rt;
        "x {} {} with x {} {}: {says}",
        sign(one.relation),
        one.constant,
        sign(other.relation),
        other.constant
    )
}

pub(crate) fn list(rt: &impl Print, form: &[u8]) -> io::Result<()> {
    let mut out = [0u8; 64];
    print!(rt; "  list:")?;
    match listing::conflicts(form, &mut out) {
        Ok(n) => entries(rt, &out[..n]),
        Err(refusal) => println!(rt; " {refusal}"),
    }
}

// The numbers that both ways answer, one of a way's own by its name, and both routes.
fn found(
    rt: &impl Print,
    totals: Totals,
    name: &str,
    own: u64,
    bytes: &[u8; 128],
) -> io::Result<()> {
    print!(rt;
        "iterations {}, weight {}, bound {}, least {}, least total {}, {name} {own}",
        totals.iterations, totals.weight, totals.bound, totals.least, totals.least_total
    )?;
    routes(rt, bytes)
}

fn swept(rt: &impl Print, answer: Result<Routed, Refusal>, bytes: &[u8; 128]) -> io::Result<()> {
    print!(rt; "  sweep: ")?;
    match answer {
        Ok(routed) => found(rt, routed.totals, "kept", routed.kept, bytes),
        Err(refusal) => println!(rt; "{refusal}"),
    }
}

fn walked(
    rt: &impl Print,
    budget: u32,
    answer: Result<Walked, Refusal>,
    bytes: &[u8; 128],
) -> io::Result<()> {
    print!(rt; "  walk, budget {budget}: ")?;
    match answer {
        Ok(walked) => found(rt, walked.totals, "walked", walked.walked, bytes),
        Err(refusal) => println!(rt; "{refusal}"),
    }
}

pub(crate) fn sweep(rt: &impl Print, form: &[u8]) -> io::Result<()> {
    let mut bytes = [0u8; 128];
    let answer = sweep::sweep_own(form, &mut bytes);
    swept(rt, answer, &bytes)
}

pub(crate) fn walk(rt: &impl Print, form: &[u8], budget: u32) -> io::Result<()> {
    let mut bytes = [0u8; 128];
    let answer = walk::walk(form, budget, &mut bytes);
    walked(rt, budget, answer, &bytes)
}

// The body's form, laid out in the lent bytes; how many bytes it has. (d) 0 where the writer refuses:
// the empty form is then read, and refused, like any other.
pub(crate) fn form(rt: &impl Print, body: Body, out: &mut [u8]) -> io::Result<usize>
    ensures { IfOk result (λ n. IsPrefixLen n out.new) }
{
    match writer::write(body, out) {
        Ok(n) => {
            println!(rt; "  form: {n} bytes")?;
            Ok(n)
        }
        Err(refusal) => {
            println!(rt; "  form: {refusal}")?;
            Ok(0)
        }
    }
}

fn written_in(rt: &impl Print, name: &str, body: Body, out: &mut [u8]) -> io::Result<()> {
    say(rt, name)?;
    form(rt, body, out)?;
    Ok(())
}

// A case of the writer, lent enough bytes.
pub(crate) fn written(rt: &impl Print, name: &str, body: Body) -> io::Result<()> {
    written_in(rt, name, body, &mut [0; 3665])
}

// A case of the writer, lent 172 bytes. (d) Each of the two is one line that names its room.
pub(crate) fn written_short(rt: &impl Print, name: &str, body: Body) -> io::Result<()> {
    written_in(rt, name, body, &mut [0; 172])
}

// A case: what is said of it, its form, list, sweep and walk.
pub(crate) fn body(rt: &impl Print, name: &str, body: Body) -> io::Result<()> {
    say(rt, name)?;
    let mut out = [0u8; 3665];
    let n = form(rt, body, &mut out)?;
    list(rt, &out[..n])?;
    sweep(rt, &out[..n])?;
    walk(rt, &out[..n], 100000)
}

// A case of both ways, lent 15 bytes for the routes.
pub(crate) fn short(rt: &impl Print, name: &str, body: Body) -> io::Result<()> {
    say(rt, name)?;
    let mut out = [0u8; 3665];
    let n = form(rt, body, &mut out)?;
    let mut bytes = [0u8; 128];
    let answer = sweep::sweep_own(&out[..n], &mut bytes[..15]);
    swept(rt, answer, &bytes)?;
    let mut bytes = [0u8; 128];
    let answer = walk::walk(&out[..n], 13, &mut bytes[..15]);
    walked(rt, 13, answer, &bytes)
}
