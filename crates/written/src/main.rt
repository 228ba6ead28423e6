// Asks the writer for the comparison: bodies on standard input, answers on standard output. The input is how many
// bodies come (4 bytes, little-endian as all numbers here) and then each in 2,913 bytes, right or wrong:
//     0  how many bytes are lent (at most 4,096), 4 bytes
//     4  counter: initial, step, limit, 4 bytes each; relation, 1
//    17  count and total, 8 bytes each
//    33  64 blocks, 21 bytes each: cost, constant, 4 bytes each; ending, jump, fall, variable, relation, 1 each;
//        number of effects, 8
//  1377  256 effects, 6 bytes each: constant, 4 bytes; variable, how, 1 each
// A signed number is told with 2,147,483,648 added. The answer to each has 24 + 4,096 bytes: number, place and bytes
// written, 8 bytes each, and the lent bytes, each of which was 165 before, followed by as many more that were not lent.
// (a) Number 0 is no refusal: compare/ reads it so.
#![tactic(auto)]

ghost use Rattle.std.specs.Prelude.{◌≡◌, ◌+◌, ◌≤◌, length};

use form::{Block, Body, Counter, Effect, Refusal};

fn number_at(q: &[u8], i: usize) -> u32
    requires { i + 4 ≤ length q.now }
{
    u32::from_le_bytes([q[i], q[i + 1], q[i + 2], q[i + 3]])
}

fn wide_at(q: &[u8], i: usize) -> usize
    requires { i + 8 ≤ length q.now }
{
    let low = number_at(q, i) as usize;
    let high = number_at(q, i + 4) as usize;
    high << 32 | low
}

// The signed number that was told with 2,147,483,648 added.
fn signed_at(q: &[u8], i: usize) -> i32
    requires { i + 4 ≤ length q.now }
{
    number_at(q, i).wrapping_sub(2147483648).cast_signed()
}

fn counter_of(q: &[u8; 2913]) -> Counter {
    Counter {
        initial: signed_at(q, 4),
        step: signed_at(q, 8),
        relation: q[16],
        limit: signed_at(q, 12),
    }
}

fn block_at(q: &[u8; 2913], at: usize) -> Block
    requires { at + 21 ≤ 2913 }
{
    Block {
        cost: number_at(q, at),
        ending: q[at + 8],
        jump: q[at + 9],
        fall: q[at + 10],
        variable: q[at + 11],
        relation: q[at + 12],
        constant: signed_at(q, at + 4),
        effects: wide_at(q, at + 13),
    }
}

fn effect_at(q: &[u8; 2913], at: usize) -> Effect
    requires { at + 6 ≤ 2913 }
{
    Effect {
        variable: q[at + 4],
        how: q[at + 5],
        constant: signed_at(q, at),
    }
}

fn body_of(q: &[u8; 2913]) -> Body {
    Body {
        counter: counter_of(q),
        count: wide_at(q, 17),
        blocks: std::array::from_fn(|k| block_at(q, 33 + 21 * k)),
        total: wide_at(q, 25),
        effects: std::array::from_fn(|k| effect_at(q, 1377 + 6 * k)),
    }
}

// An answer: number, place and bytes written.
fn say(number: u64, place: u64, bytes: u64) {
    for n in [number, place, bytes] {
        io::write_all(1, &n.to_le_bytes());
    }
}

fn say_written(answer: Result<usize, Refusal>) {
    match answer {
        Ok(bytes) => say(0, 0, bytes as u64),
        Err(Refusal { fault, place }) => say(fault as u64, place as u64, 0),
    }
}

fn ask_one() {
    let mut q = [0u8; 2913];
    io::read_full(0, &mut q);
    let room = (number_at(&q, 0) as usize).min(4096);
    let mut out = [165u8; 4096];
    say_written(writer::write(body_of(&q), &mut out[..room]));
    io::write_all(1, &out);
}

fn main() {
    let mut head = [0u8; 4];
    io::read_full(0, &mut head);
    for _ in 0..u32::from_le_bytes(head) {
        ask_one();
    }
}
