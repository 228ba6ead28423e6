// A body laid out: its records, one after the other, in lent bytes. Offsets of fields stand here and where a record is
// decoded (crate records), and nowhere else. What bytes a body is laid out as is in form's Form.
#![tactic(auto)]

ghost use Rattle.std.specs.Prelude.{◌≡◌, true, ◌++◌, ◌+◌, ◌*◌, ◌≤◌, length, take};
ghost use Rattle.form.specs.Form.{counter_bytes, block_bytes, effect_bytes, lay_effects, lay_blocks, lay};
ghost use Rattle.form.specs.Form.{counts_fit, sum_own};
ghost use Rattle.lent.specs.Filled.{Grows};

use form::{Block, Body, Counter, Effect, MOST_BLOCKS, MOST_EFFECTS};
use lent::Filled;

// Whether a body's counts are within the limits and its blocks' own effects add up.
pub fn counts_fit(body: &Body) -> bool
    ensures { result ≡ counts_fit body.now }
{
    if MOST_BLOCKS < body.count || MOST_EFFECTS < body.total {
        return false;
    }
    let mut left = body.total;
    for block in &body.blocks[..body.count] {
        if left < block.effects {
            return false;
        }
        left -= block.effects;
    }
    left == 0
}

fn lay_counter(out: &mut Filled, counter: Counter)
    requires { out.old.end + 17 ≤ length out.old.bytes.now }
    ensures { Grows out.old out.new (counter_bytes counter) }
{
    // length 17, kind 1
    out.add(&[17, 0, 1, 0]);
    out.add(&counter.initial.to_le_bytes());
    out.add(&counter.step.to_le_bytes());
    out.add(&[counter.relation]);
    out.add(&counter.limit.to_le_bytes());
}

// A block and its own effects.
fn lay_block(out: &mut Filled, block: Block, effects: &[Effect])
    requires { out.old.end + (17 + 10 * length effects.now) ≤ length out.old.bytes.now }
    ensures grows { Grows out.old out.new (block_bytes block ++ lay_effects effects.now) }
    ensures end { out.new.end ≡ out.old.end + (17 + 10 * length effects.now) }
{
    // length 17, kind 2
    out.add(&[17, 0, 2, 0]);
    out.add(&block.cost.to_le_bytes());
    out.add(&[
        block.ending,
        block.jump,
        block.fall,
        block.variable,
        block.relation,
    ]);
    out.add(&block.constant.to_le_bytes());
    for effect in effects {
        lay_effect(out, *effect);
    }
}

fn lay_effect(out: &mut Filled, effect: Effect)
    requires { out.old.end + 10 ≤ length out.old.bytes.now }
    ensures { Grows out.old out.new (effect_bytes effect) }
{
    // length 10, kind 3
    out.add(&[10, 0, 3, 0]);
    out.add(&[effect.variable, effect.how]);
    out.add(&effect.constant.to_le_bytes());
}

// The blocks, each followed by its own of the effects.
fn lay_blocks(out: &mut Filled, blocks: &[Block], effects: &[Effect])
    requires enough { sum_own blocks.now ≤ length effects.now }
    requires room { out.old.end + (17 * length blocks.now + 10 * sum_own blocks.now)
        ≤ length out.old.bytes.now }
    ensures grows { Grows out.old out.new (lay_blocks blocks.now effects.now) }
    ensures end { out.new.end ≡ out.old.end + (17 * length blocks.now + 10 * sum_own blocks.now) }
{
    let mut rest = effects;
    for block in blocks {
        let (own, after) = rest.split_at(block.effects);
        lay_block(out, *block, own);
        rest = after;
    }
}

// A body laid out from the buffer's start on; how many bytes that takes.
pub fn lay(buf: &mut [u8], body: &Body) -> usize
    requires { (counts_fit body.now ≡ true) × (3665 ≤ length buf.old) }
    ensures { (result ≡ length (lay body.now)) × ((result ≤ 3665) × (take result buf.new ≡ lay body.now)) }
{
    let mut out = Filled::new(buf);
    lay_counter(&mut out, body.counter);
    lay_blocks(&mut out, &body.blocks[..body.count], &body.effects);
    out.end
}
