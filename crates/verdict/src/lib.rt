// What the reader says of any bytes: a form, or why it is none, 10 to 19, and its place. The records are decoded in
// crate records, and judged by themselves in crate faults; here is their order, and what is judged of the whole form.
// What each function means is in form's Form and Answer.
#![tactic(auto)]

ghost use Rattle.std.specs.Prelude.{◌≡◌, ◌+◌, ◌<◌, ◌^◌, length, Err};
ghost use Rattle.form.specs.Said.{Accepted, verdict_of};
ghost use Rattle.form.specs.Form.{records_from, bad_field, bad_target, out_of_place, over_limit, payload_fault};
ghost use Rattle.form.specs.Form.{record_fault, end_fault, judged, judge_ends};
ghost use Rattle.form.specs.Answer.{Judged};

use form::{Fault, Kind, MOST_BLOCKS, MOST_EFFECTS, Refusal};
use records::Record;

// The blocks and the effects before a record.
#[derive(Clone, Copy, Default)]
struct Passed {
    blocks: usize,
    effects: usize,
}

// Refused for this reason, with this place.
fn refused(fault: Fault, place: usize) -> Result<(), Refusal>
    ensures { result ≡ Err (record { fault = fault; place = place }) }
{
    Err(Refusal { fault, place })
}

// 15 of the record, whatever it is. A block's number of effects plays no part in judging: it is told as 0.
#[tactic(auto, unfolding(form::specs::Form::bad_field))]
fn bad_field(here: &Record) -> bool
    ensures { result ≡ bad_field here.now.form.now here.now.at }
{
    match here.kind() {
        Kind::Unknown => false,
        Kind::Counter => faults::bad_counter(here.counter()),
        Kind::Block => faults::bad_block(here.block(0)),
        Kind::Effect => faults::bad_effect(here.effect()),
    }
}

// 16 of the record, with b blocks before it.
#[tactic(auto, unfolding(form::specs::Form::bad_target))]
fn bad_target(here: &Record, b: usize) -> bool
    ensures { result ≡ bad_target here.now.form.now here.now.at b }
{
    here.kind() == Kind::Block && faults::low_target(here.block(0), b)
}

// 13: the first record no counter, a later counter, or an effect before any block.
#[tactic(auto, unfolding(form::specs::Form::out_of_place))]
fn out_of_place(here: &Record, b: usize) -> bool
    ensures { result ≡ out_of_place here.now.form.now here.now.at b }
{
    let kind = here.kind();
    (here.at == 0) != (kind == Kind::Counter) || kind == Kind::Effect && b == 0
}

// 14: the 65th block or the 257th effect.
#[tactic(auto, unfolding(form::specs::Form::over_limit))]
fn over_limit(here: &Record, passed: Passed) -> bool
    ensures { result ≡ over_limit here.now.form.now here.now.at passed.blocks passed.effects }
{
    match here.kind() {
        Kind::Block => MOST_BLOCKS <= passed.blocks,
        Kind::Effect => MOST_EFFECTS <= passed.effects,
        _ => false,
    }
}

// 13 to 16 of the record.
#[tactic(auto, unfolding(form::specs::Form::payload_fault))]
fn judge_payload(here: &Record, passed: Passed) -> Result<(), Refusal>
    ensures { verdict_of result
        ≡ judged (payload_fault here.now.form.now here.now.at passed.blocks passed.effects) here.now.at Accepted }
{
    if out_of_place(here, passed.blocks) {
        return refused(Fault::Misplaced, here.at);
    }
    if over_limit(here, passed) {
        return refused(Fault::OverLimit, here.at);
    }
    if bad_field(here) {
        return refused(Fault::BadField, here.at);
    }
    if bad_target(here, passed.blocks) {
        return refused(Fault::LowTarget, here.at);
    }
    Ok(())
}

// 10 to 16 of the record.
#[tactic(auto, unfolding(form::specs::Form::record_fault))]
fn judge_record(here: &Record, passed: Passed) -> Result<(), Refusal>
    requires { here.now.at < length here.now.form.now }
    ensures { verdict_of result
        ≡ judged (record_fault here.now.form.now here.now.at passed.blocks passed.effects) here.now.at Accepted }
{
    let left = here.form.len() - here.at;
    if left < 4 {
        return refused(Fault::CutShort, here.at);
    }
    if here.kind() == Kind::Unknown {
        return refused(Fault::UnknownKind, here.at);
    }
    if here.stated_length() != here.length() {
        return refused(Fault::WrongLength, here.at);
    }
    if left < here.stated_length() {
        return refused(Fault::CutShort, here.at);
    }
    judge_payload(here, passed)
}

// 18 and 19 of the record, where it is a block, number k of n.
#[tactic(auto, unfolding(form::specs::Form::end_fault))]
fn judge_end(here: &Record, n: usize, k: usize) -> Result<(), Refusal>
    requires { k + 1 < 2 ^ 64 }
    ensures { verdict_of result ≡ judged (end_fault here.now.form.now here.now.at n k) here.now.at Accepted }
{
    if here.kind() != Kind::Block {
        return Ok(());
    }
    let block = here.block(0);
    if faults::bad_end(block, n, k) {
        return refused(Fault::BadEnd, here.at);
    }
    if faults::far_target(block, n) {
        return refused(Fault::FarTarget, here.at);
    }
    Ok(())
}

// 18 and 19, block by block of the n.
fn judge_ends(s: &[u8], n: usize) -> Result<(), Refusal>
    ensures { verdict_of result ≡ judge_ends s.now n (records_from s.now 0) 0 }
{
    let mut k = 0;
    for record in records::of(s) {
        judge_end(&record, n, k)?;
        k += usize::from(record.kind() == Kind::Block);
    }
    Ok(())
}

// Whether any bytes are a form; if not, why, 10 to 19, with its place.
#[tactic(auto, unfolding(form::specs::Form::judge))]
pub fn judge(s: &[u8]) -> Result<(), Refusal>
    ensures { Judged s.now (verdict_of result) }
{
    let mut passed = Passed::default();
    for record in records::of(s) {
        judge_record(&record, passed)?;
        passed.blocks += usize::from(record.kind() == Kind::Block);
        passed.effects += usize::from(record.kind() == Kind::Effect);
    }
    if passed.blocks == 0 {
        return refused(Fault::NoBlock, s.len());
    }
    judge_ends(s, passed.blocks)
}
