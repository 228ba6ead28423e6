// What the calls for C answer with: the structs of numbers, and each made of the answer of the layer below. What each
// number says is in specs/Answer.antt. (a) 0 as number is no refusal, as C reads it, and each struct has its own number
// and place: C reads it flat and in order.
#![tactic(auto)]

ghost use Rattle.std.specs.Prelude.{◌≡◌};
ghost use Rattle.form.specs.Said.{number_of, verdict_of, written_of};
ghost use Rattle.listing.specs.Answer.{listed_of};
ghost use Rattle.walk.specs.Answer.{said};
ghost use Rattle.numbers.specs.Answer.{form_answer, verdict_answer, written_answer, list_numbers};
ghost use Rattle.numbers.specs.Answer.{count_values, count_said, walk_values, sweep_values, sweep_said};

use form::Refusal;
use sweep_steps::Routed;
use walk::Walked;

pub mod numbered;

pub use numbered::{Told, of_counted, of_listed, of_sweep, of_verdict, of_walk, of_written};

// A refusal's number and place; number 0: none.
#[repr(C)]
#[derive(Clone, Copy, Default)]
pub struct FormAnswer {
    pub number: u64,
    pub place: u64,
}

// The same with a loop count; what an answer does not have is zero.
#[repr(C)]
#[derive(Clone, Copy, Default)]
pub struct CountAnswer {
    pub number: u64,
    pub place: u64,
    pub iterations: u64,
}

// The numbers of the conflict list.
#[repr(C)]
#[derive(Clone, Copy, Default)]
pub struct ListNumbers {
    pub number: u64,
    pub place: u64,
    pub entries: u64,
}

// The numbers of the full walk.
#[repr(C)]
#[derive(Clone, Copy, Default)]
pub struct WalkNumbers {
    pub number: u64,
    pub place: u64,
    pub iterations: u64,
    pub weight: u64,
    pub bound: u64,
    pub least: u64,
    pub least_total: u64,
    pub walked: u64,
}

// The numbers of the sweep.
#[repr(C)]
#[derive(Clone, Copy, Default)]
pub struct SweepNumbers {
    pub number: u64,
    pub place: u64,
    pub iterations: u64,
    pub weight: u64,
    pub bound: u64,
    pub least: u64,
    pub least_total: u64,
    pub kept: u64,
}

impl From<Refusal> for FormAnswer {
    ghost from_gives = { λ refusal answer. answer ≡ form_answer (number_of refusal.fault) refusal.place };

    fn from(refusal: Refusal) -> FormAnswer {
        FormAnswer {
            number: refusal.fault as u64,
            place: refusal.place as u64,
        }
    }
}

impl From<Result<(), Refusal>> for FormAnswer {
    ghost from_gives = { λ verdict answer. answer ≡ verdict_answer (verdict_of verdict) };

    fn from(verdict: Result<(), Refusal>) -> FormAnswer {
        match verdict {
            Ok(()) => FormAnswer::default(),
            Err(refusal) => refusal.into(),
        }
    }
}

impl From<Result<usize, Refusal>> for FormAnswer {
    ghost from_gives = { λ written answer. answer ≡ written_answer (written_of written) };

    fn from(written: Result<usize, Refusal>) -> FormAnswer {
        match written {
            Ok(bytes) => FormAnswer {
                place: bytes as u64,
                ..FormAnswer::default()
            },
            Err(refusal) => refusal.into(),
        }
    }
}

impl From<Result<u64, Refusal>> for CountAnswer {
    ghost from_gives = { λ counted answer. count_values answer ≡ count_said counted };

    fn from(counted: Result<u64, Refusal>) -> CountAnswer {
        match counted {
            Ok(count) => CountAnswer {
                iterations: count,
                ..CountAnswer::default()
            },
            Err(Refusal { fault, place }) => CountAnswer {
                number: fault as u64,
                place: place as u64,
                ..CountAnswer::default()
            },
        }
    }
}

impl From<Result<usize, Refusal>> for ListNumbers {
    ghost from_gives = { λ listed answer. answer ≡ list_numbers (listed_of listed) };

    fn from(listed: Result<usize, Refusal>) -> ListNumbers {
        match listed {
            Ok(bytes) => ListNumbers {
                entries: (bytes / 5) as u64,
                ..ListNumbers::default()
            },
            Err(Refusal { fault, place }) => ListNumbers {
                number: fault as u64,
                place: place as u64,
                ..ListNumbers::default()
            },
        }
    }
}

impl From<Result<Walked, Refusal>> for WalkNumbers {
    ghost from_gives = { λ walk answer. walk_values answer ≡ said walk };

    fn from(walk: Result<Walked, Refusal>) -> WalkNumbers {
        match walk {
            Ok(walked) => WalkNumbers {
                iterations: walked.totals.iterations,
                weight: walked.totals.weight,
                bound: walked.totals.bound,
                least: walked.totals.least,
                least_total: walked.totals.least_total,
                walked: walked.walked,
                ..WalkNumbers::default()
            },
            Err(Refusal { fault, place }) => WalkNumbers {
                number: fault as u64,
                place: place as u64,
                ..WalkNumbers::default()
            },
        }
    }
}

impl From<Result<Routed, Refusal>> for SweepNumbers {
    ghost from_gives = { λ sweep answer. sweep_values answer ≡ sweep_said sweep };

    fn from(sweep: Result<Routed, Refusal>) -> SweepNumbers {
        match sweep {
            Ok(routed) => SweepNumbers {
                iterations: routed.totals.iterations,
                weight: routed.totals.weight,
                bound: routed.totals.bound,
                least: routed.totals.least,
                least_total: routed.totals.least_total,
                kept: routed.kept,
                ..SweepNumbers::default()
            },
            Err(Refusal { fault, place }) => SweepNumbers {
                number: fault as u64,
                place: place as u64,
                ..SweepNumbers::default()
            },
        }
    }
}
