// The same answers where a refusal is told by its number, be it in the table of refusals or not. What each says is in
// specs/Told.antt.
ghost use Rattle.std.specs.Prelude.{◌≡◌};
ghost use Rattle.form.specs.Said.{number_of};
ghost use Rattle.numbers.specs.Answer.{form_answer, verdict_answer, written_answer, list_numbers};
ghost use Rattle.numbers.specs.Answer.{count_values, walk_values, sweep_values};
ghost use Rattle.numbers.specs.Told.{verdict_told, written_told, counted_told, listed_told, walk_told, sweep_told};

use crate::{CountAnswer, FormAnswer, ListNumbers, SweepNumbers, WalkNumbers};
use form::Refusal;
use sweep_steps::Routed;
use walk::Walked;

// A refusal's number and place.
#[derive(Clone, Copy, Debug, PartialEq, Eq)]
pub struct Told {
    pub number: u32,
    pub place: usize,
}

impl From<Refusal> for Told {
    ghost from_gives = { λ refusal told. (told.number ≡ number_of refusal.fault) × (told.place ≡ refusal.place) };

    fn from(refusal: Refusal) -> Told {
        Told {
            number: refusal.fault as u32,
            place: refusal.place,
        }
    }
}

impl From<Told> for FormAnswer {
    ghost from_gives = { λ told answer. answer ≡ form_answer told.number told.place };

    fn from(told: Told) -> FormAnswer {
        FormAnswer {
            number: u64::from(told.number),
            place: told.place as u64,
        }
    }
}

pub fn of_verdict(verdict: Result<(), Told>) -> FormAnswer
    ensures { result ≡ verdict_answer (verdict_told verdict) }
{
    match verdict {
        Ok(()) => FormAnswer::default(),
        Err(told) => told.into(),
    }
}

pub fn of_written(written: Result<usize, Told>) -> FormAnswer
    ensures { result ≡ written_answer (written_told written) }
{
    match written {
        Ok(bytes) => Ok::<usize, Refusal>(bytes).into(),
        Err(told) => told.into(),
    }
}

pub fn of_counted(counted: Result<u64, Told>) -> CountAnswer
    ensures { count_values result ≡ counted_told counted }
{
    match counted {
        Ok(count) => Ok::<u64, Refusal>(count).into(),
        Err(told) => CountAnswer {
            number: u64::from(told.number),
            place: told.place as u64,
            ..CountAnswer::default()
        },
    }
}

pub fn of_listed(listed: Result<usize, Told>) -> ListNumbers
    ensures { result ≡ list_numbers (listed_told listed) }
{
    match listed {
        Ok(bytes) => Ok::<usize, Refusal>(bytes).into(),
        Err(told) => ListNumbers {
            number: u64::from(told.number),
            place: told.place as u64,
            ..ListNumbers::default()
        },
    }
}

pub fn of_walk(walk: Result<Walked, Told>) -> WalkNumbers
    ensures { walk_values result ≡ walk_told walk }
{
    match walk {
        Ok(walked) => Ok::<Walked, Refusal>(walked).into(),
        Err(told) => WalkNumbers {
            number: u64::from(told.number),
            place: told.place as u64,
            ..WalkNumbers::default()
        },
    }
}

pub fn of_sweep(sweep: Result<Routed, Told>) -> SweepNumbers
    ensures { sweep_values result ≡ sweep_told sweep }
{
    match sweep {
        Ok(routed) => Ok::<Routed, Refusal>(routed).into(),
        Err(told) => SweepNumbers {
            number: u64::from(told.number),
            place: told.place as u64,
            ..SweepNumbers::default()
        },
    }
}
