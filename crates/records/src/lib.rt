// The records of an order form, one after the other, and each decoded: its kind, and the record read as a counter, a
// block or an effect. Offsets of fields stand here and where a record is laid out (crate layout), and nowhere else.
// What each function means is in form's Form.
#![tactic(auto)]

ghost use Rattle.std.specs.Prelude.{◌≡◌, ◌+◌, ◌<◌, ◌≤◌, ◌^◌};
ghost use Rattle.form.specs.Said.{row_of};
ghost use Rattle.form.specs.Form.{byte_at, number2, number4, signed4, length_at, kind_of, kind_at};
ghost use Rattle.form.specs.Form.{counter_at, block_at, effect_at};

use form::{Block, Counter, Effect, Kind};

// The kind of a number, by the table of kinds. (d) A function of this crate, as the offsets are, and no From in form.
#[tactic(auto, unfolding(form::specs::Form::kind_of))]
fn kind_of(number: u16) -> Kind
    ensures { row_of result ≡ kind_of number }
{
    match number {
        1 => Kind::Counter,
        2 => Kind::Block,
        3 => Kind::Effect,
        _ => Kind::Unknown,
    }
}

// A record: the form, and the place where it starts.
#[derive(Clone, Copy)]
pub struct Record<'a> {
    pub form: &'a [u8],
    pub at: usize,
}

impl<'a> Record<'a> {
    ghost use Rattle.form.specs.Records.{next};

    // Its byte at i, 0 past the form's end. (b) What is left is compared, and not a sum cut at the last usize, as an
    // expression of std has it: with that the verdict took 1.4 times as long. One function for all fields.
    fn byte(&self, i: usize) -> u8
        ensures { result ≡ byte_at self.now.form.now (self.now.at + i) }
    {
        let left = self.form.len().saturating_sub(self.at);
        if i < left { self.form[self.at + i] } else { 0 }
    }

    // Its two bytes from i on as a number. (d) This and the next two ask i < 28 each: all calls are literals.
    fn short(&self, i: usize) -> u16
        requires { i < 28 }
        ensures { result ≡ number2 self.now.form.now (self.now.at + i) }
    {
        u16::from_le_bytes([self.byte(i), self.byte(i + 1)])
    }

    // Its four bytes from i on as a number.
    fn long(&self, i: usize) -> u32
        requires { i < 28 }
        ensures { result ≡ number4 self.now.form.now (self.now.at + i) }
    {
        u32::from_le_bytes([
            self.byte(i),
            self.byte(i + 1),
            self.byte(i + 2),
            self.byte(i + 3),
        ])
    }

    // Its four bytes from i on as a signed number.
    fn signed(&self, i: usize) -> i32
        requires { i < 28 }
        ensures { result ≡ signed4 self.now.form.now (self.now.at + i) }
    {
        self.long(i).cast_signed()
    }

    // The length that it states.
    pub fn stated_length(&self) -> usize
        ensures { (result ≡ length_at self.now.form.now self.now.at) × (result < 65536) }
    {
        usize::from(self.short(0))
    }

    pub fn kind(&self) -> Kind
        ensures { row_of result ≡ kind_at self.now.form.now self.now.at }
    {
        kind_of(self.short(2))
    }

    // The length of its kind; of what is no kind, that of a head.
    pub fn length(&self) -> usize
        ensures { (result ≡ (kind_at self.now.form.now self.now.at).length) × ((0 < result) × (result ≤ 17)) }
    {
        match self.kind() {
            Kind::Unknown => 4,
            Kind::Counter => 17,
            Kind::Block => 17,
            Kind::Effect => 10,
        }
    }

    // The records after it. It asks that 17 bytes more still fit a usize, which holds the next one's place.
    pub fn after(&self) -> Records<'a>
        requires { self.now.at + 17 < 2 ^ 64 }
        ensures form { result.form.now ≡ self.now.form.now }
        ensures at { result.at ≡ next self.now.form.now self.now.at }
        ensures on { self.now.at < result.at }
    {
        Records {
            form: self.form,
            at: self.at + self.length(),
        }
    }

    // The record read as a counter, as a block with this number of effects, as an effect.
    pub fn counter(&self) -> Counter
        ensures { result ≡ counter_at self.now.form.now self.now.at }
    {
        Counter {
            initial: self.signed(4),
            step: self.signed(8),
            relation: self.byte(12),
            limit: self.signed(13),
        }
    }

    pub fn block(&self, own: usize) -> Block
        ensures { result ≡ block_at self.now.form.now self.now.at own }
    {
        Block {
            cost: self.long(4),
            ending: self.byte(8),
            jump: self.byte(9),
            fall: self.byte(10),
            variable: self.byte(11),
            relation: self.byte(12),
            constant: self.signed(13),
            effects: own,
        }
    }

    pub fn effect(&self) -> Effect
        ensures { result ≡ effect_at self.now.form.now self.now.at }
    {
        Effect {
            variable: self.byte(4),
            how: self.byte(5),
            constant: self.signed(6),
        }
    }
}

// The records of a form from a place on, one after the other: each starts where the one before it ends. (d) A type of
// its own beside Record: one would be the iterator and its own item.
#[derive(Clone, Copy)]
pub struct Records<'a> {
    pub form: &'a [u8],
    pub at: usize,
}

// The records of the whole form.
pub fn of(form: &[u8]) -> Records<'_>
    ensures form { result.form.now ≡ form.now }
    ensures at { result.at ≡ 0 }
{
    Records { form, at: 0 }
}

impl<'a> Iterator for Records<'a> {
    ghost use Rattle.std.specs.Iterator.{at_most};
    ghost use Rattle.records.specs.Steps.{left, Steps};

    type Item = Record<'a>;

    ghost next_gives = { Steps };

    ghost remaining = { λ records. at_most (left records) };

    fn next(&mut self) -> Option<Record<'a>> {
        if self.form.len() <= self.at {
            return None;
        }
        let record = Record {
            form: self.form,
            at: self.at,
        };
        *self = record.after();
        Some(record)
    }
}
