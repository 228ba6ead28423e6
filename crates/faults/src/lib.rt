// What can be wrong with a decoded record by itself: refusals 15, 16, 18 and 19, of a counter, a block or an effect,
// whatever bytes it was read from. What each function means is in form's Form. (a) Endings, relations and hows are
// form's numbers: whether they are in range is what is judged here.
#![tactic(auto)]

ghost use Rattle.std.specs.Prelude.{◌≡◌, ◌+◌, ◌<◌, ◌^◌};
ghost use Rattle.form.specs.Form.{stray, some_target, bad_counter, bad_block, bad_effect};
ghost use Rattle.form.specs.Form.{low_target, bad_end, far_target};

use form::{Block, Counter, Effect};

// A field that endings (or hows) below `first` do not use, and that is not zero there.
fn is_stray(first: u8, ending: u8, zero: bool) -> bool
    ensures { result ≡ stray first ending zero }
{
    ending < first && !zero
}

// A used target for which the test holds.
fn some_target(ending: u8, jump: bool, fall: bool) -> bool
    ensures { result ≡ some_target ending jump fall }
{
    0 < ending && jump || 1 < ending && fall
}

// 15: a field out of range, or unused and not zero.
pub fn bad_counter(c: Counter) -> bool
    ensures { result ≡ bad_counter c }
{
    5 < c.relation
}

pub fn bad_block(k: Block) -> bool
    ensures { result ≡ bad_block k }
{
    let out_of_range = 1000000 < k.cost || 3 < k.ending || 15 < k.variable || 5 < k.relation;
    out_of_range
        || is_stray(1, k.ending, k.jump == 0)
        || is_stray(2, k.ending, k.fall == 0)
        || is_stray(3, k.ending, k.variable == 0)
        || is_stray(3, k.ending, k.relation == 0)
        || is_stray(3, k.ending, k.constant == 0)
}

pub fn bad_effect(e: Effect) -> bool
    ensures { result ≡ bad_effect e }
{
    15 < e.variable || 1 < e.how || is_stray(1, e.how, e.constant == 0)
}

// 16: a used target not above its block, number b.
pub fn low_target(k: Block, b: usize) -> bool
    ensures { result ≡ low_target k b }
{
    some_target(k.ending, usize::from(k.jump) <= b, usize::from(k.fall) <= b)
}

// 18: block b of n ends and is not the last, or is the last and does not end.
pub fn bad_end(k: Block, n: usize, b: usize) -> bool
    requires { b + 1 < 2 ^ 64 }
    ensures { result ≡ bad_end k n b }
{
    let is_last = n <= b + 1;
    is_last != (k.ending == 0)
}

// 19: a used target beyond the last block of n.
pub fn far_target(k: Block, n: usize) -> bool
    ensures { result ≡ far_target k n }
{
    some_target(k.ending, n <= usize::from(k.jump), n <= usize::from(k.fall))
}
