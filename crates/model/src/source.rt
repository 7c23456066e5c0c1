//! Where the jobs of a task are placed: offset sources.

ghost use Rattle.std.specs.Prelude.{◌≡◌, ℕ, Option};
ghost use Rattle.model.specs.Sources.{steady, listed, late};

use wire::reading::{Number, read_number};

/// A source of offsets. Its meaning gives each job number one offset, or nothing.
pub trait OffsetSource {
    ghost meaning: { Self → ℕ → Option ℕ };

    /// The offset of a job, just as the meaning has it.
    fn offset(&self, job: u32) -> Option<u32>
        ensures { result ≡ meaning self.now job };
}

/// One offset for all jobs.
#[derive(Clone, Copy, Debug)]
pub struct Steady {
    pub offset: u32,
}

impl OffsetSource for Steady {
    ghost meaning = { λ s. steady s.offset };

    fn offset(&self, _job: u32) -> Option<u32> {
        Some(self.offset)
    }
}

/// The numbers that borrowed bytes spell, one for each job, until the bytes end or a number fails.
#[derive(Clone, Copy, Debug)]
pub struct Listed<'a> {
    pub bytes: &'a [u8],
}

impl OffsetSource for Listed<'_> {
    ghost meaning = { λ s. listed s.bytes.now };

    #[tactic(auto, using(crate::proofs::Walks::listed_steps))]
    fn offset(&self, job: u32) -> Option<u32> {
        let mut rest = self.bytes;
        // Counts the numbers to pass over. No index is kept.
        for _ in 0..job {
            let Number { len, .. } = read_number(rest).ok()?;
            rest = &rest[len..];
        }
        read_number(rest).ok().map(|number| number.value)
    }
}

/// Another source with `lag` added to each of its offsets, as far as 32 bits go.
#[derive(Clone, Copy, Debug)]
pub struct Late<S> {
    pub below: S,
    pub lag: u32,
}

impl<S: OffsetSource> OffsetSource for Late<S> {
    ghost meaning = { λ s. late s.lag (S.OffsetSource.meaning s.below) };

    fn offset(&self, job: u32) -> Option<u32> {
        self.below
            .offset(job)
            .map(|offset| offset.saturating_add(self.lag))
    }
}
