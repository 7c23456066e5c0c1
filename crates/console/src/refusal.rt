//! Why a line places no task.

ghost use Rattle.std.specs.Prelude.{◌≡◌};
ghost use Rattle.console.specs.declared.refusal.Refusal.TheVariants.{NotUnderstood, OutOfMemory};

use super::placement::MAX_JOBS;
use model::figures::Figures;
use std::alloc::AllocError;
use std::num::ParseIntError;
use thiserror::Error;

#[derive(Debug, Drop, Error)]
pub enum Refusal {
    #[error("not understood: a source is steady X, listed HEX or late L SOURCE, with at most two late")]
    NotUnderstood,
    #[error("refused: period {period} does not divide the cycle")]
    Uneven {
        period: u32,
    },
    #[error("refused: a cycle may have at most {most} jobs", most = MAX_JOBS)]
    TooManyJobs,
    #[error("refused: the source has no offset for job {job}")]
    NoOffset {
        job: u32,
    },
    #[error("refused: job {job} does not fit: offset {offset}, copying {} and computing {} pass its deadline {}", .figures.memory, .figures.compute, .figures.deadline)]
    TooLate {
        job: u32,
        offset: u32,
        figures: Figures,
    },
    #[error("out of memory")]
    OutOfMemory(AllocError),
}

/// A number that cannot be read is not understood.
impl From<ParseIntError> for Refusal {
    ghost from_gives = { λ _ refusal. refusal ≡ NotUnderstood };

    fn from(_error: ParseIntError) -> Refusal {
        Refusal::NotUnderstood
    }
}

impl From<AllocError> for Refusal {
    ghost from_gives = { λ error refusal. refusal ≡ OutOfMemory error };

    fn from(error: AllocError) -> Refusal {
        Refusal::OutOfMemory(error)
    }
}
