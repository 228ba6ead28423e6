// Sets of small numbers as words of 64 bits, bit k for the number k: the operations that the crates above compute
// with. Each says what every bit of its result is (`bit` of the laws), those past 63 included. (a) A set is a u64: C's
// entries are made of such words.
#![tactic(auto)]

ghost use Rattle.std.specs.Prelude.{◌≡◌, ◌&&◌, ◌||◌, not, ℕ, ◌<◌, eqb};
ghost use Rattle.std.specs.Int.Count.{count_trailing_zeros};
ghost use Rattle.std.specs.Iterator.{at_most};
ghost use Rattle.laws.specs.Terms.{bit};
ghost use Rattle.words.specs.Tabled.{least, TakesLeast};

use std::marker::Model;

// Whether k is in x.
#[tactic(auto, using(crate::proofs::Past::past), unfolding(laws::specs::Terms::bit))]
pub fn has(x: u64, k: usize) -> bool
    ensures { result ≡ bit x k }
{
    k < 64 && (x >> k) % 2 == 1
}

// x, with k where the test holds. The test's digit is shifted, and no word is chosen by it: the compiler would choose
// once for each part of a test.
pub fn put(x: u64, k: usize, test: bool) -> u64
    requires { k < 64 }
    ensures { (j : ℕ) → bit result j ≡ bit x j || (test && eqb j k) }
{
    x | (u64::from(test) << k)
}

// x where the test holds, else nothing.
pub fn only(test: bool, x: u64) -> u64
    ensures { (j : ℕ) → bit result j ≡ test && bit x j }
{
    if test { x } else { 0 }
}

// What is in both.
pub fn both(a: u64, b: u64) -> u64
    ensures { (j : ℕ) → bit result j ≡ bit a j && bit b j }
{
    a & b
}

// What is in either.
pub fn either(a: u64, b: u64) -> u64
    ensures { (j : ℕ) → bit result j ≡ bit a j || bit b j }
{
    a | b
}

// What is in a and not in b.
pub fn less(a: u64, b: u64) -> u64
    ensures { (j : ℕ) → bit result j ≡ bit a j && not (bit b j) }
{
    a & !b
}

// What is in a and not in b, and what is in c.
pub fn renewed(a: u64, b: u64, c: u64) -> u64
    ensures { (j : ℕ) → bit result j ≡ (bit a j && not (bit b j)) || bit c j }
{
    either(less(a, b), c)
}

// The least number in x; (a) 0 where there is none, as its promise says (`least`).
pub fn lowest(x: u64) -> usize
    ensures { (result < 64) × (result ≡ least x) }
{
    if x == 0 {
        0
    } else {
        x.trailing_zeros() as usize
    }
}

// x without its least.
pub fn rest(x: u64) -> u64
    ensures { ((j : ℕ) → bit result j ≡ bit x j && not (eqb j (count_trailing_zeros 64 x))) × (0 < x → result < x) }
{
    if x == 0 { 0 } else { x & (x - 1) }
}

// The numbers in a word, least first: what is left of it.
#[derive(Clone, Copy)]
pub struct MemberIter {
    left: u64,
}

impl Model for MemberIter {
    ghost Value = { ℕ };

    ghost view = { λ m. m.left };

    ghost inverse = { λ n. record { left = n } };
}

impl Iterator for MemberIter {
    type Item = usize;

    ghost next_gives = { TakesLeast };

    ghost remaining = { at_most };

    fn next(&mut self) -> Option<usize> {
        if self.left == 0 {
            return None;
        }
        let least = lowest(self.left);
        self.left = rest(self.left);
        Some(least)
    }
}

// The numbers in x, least first.
pub fn members(x: u64) -> MemberIter
    ensures { result ≡ x }
{
    MemberIter { left: x }
}
