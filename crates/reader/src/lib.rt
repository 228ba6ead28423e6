// The reader of the order form: the verdict on any bytes (crate verdict), and the body of an accepted form. What each
// function means is in form's Form and Answer.
#![tactic(auto)]

ghost use Rattle.std.specs.Prelude.{◌≡◌};
ghost use Rattle.form.specs.Form.{records_from, own_effects, body_of};
ghost use Rattle.form.specs.Answer.{reading_of, ReadAs};

use form::{Block, Body, Effect, Kind, MOST_BLOCKS, MOST_EFFECTS, Refusal};
use records::{Record, Records};

// How many effects stand first of these records, before the next block or the end. (c) A loop, since a chain of
// `take_while` and `count` was tried, and the check leaves all of its result to prove.
fn own_effects(after: Records) -> usize
    ensures { result ≡ own_effects after.entry.form.now (records_from after.entry.form.now after.entry.at) }
{
    let mut n = 0;
    for record in after {
        match record.kind() {
            Kind::Effect => n += 1,
            _ => return n,
        }
    }
    n
}

// The body of an accepted form. (Arrays with a count beside them, since document 01's scope names a body so.)
fn body_of(s: &[u8]) -> Body
    ensures { result ≡ body_of s.now }
{
    let first = Record { form: s, at: 0 };
    let counter = first.counter();
    let mut blocks = [Block::default(); 64];
    let mut count = 0;
    let mut effects = [Effect::default(); 256];
    let mut total = 0;
    for record in records::of(s) {
        match record.kind() {
            Kind::Block => {
                if count < MOST_BLOCKS {
                    blocks[count] = record.block(own_effects(record.after()));
                }
                count += 1;
            }
            Kind::Effect => {
                if total < MOST_EFFECTS {
                    effects[total] = record.effect();
                }
                total += 1;
            }
            _ => {}
        }
    }
    Body {
        counter,
        count,
        blocks,
        total,
        effects,
    }
}

// The reader, for any bytes: the body of an accepted form, else why it is none.
pub fn read(s: &[u8]) -> Result<Body, Refusal>
    ensures { ReadAs s.now (reading_of result) }
{
    verdict::judge(s)?;
    Ok(body_of(s))
}
