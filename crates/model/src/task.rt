//! A task, and when each of its endless jobs does what.

ghost use Rattle.std.specs.Prelude.{◌↔◌, IsSome, IfSome};
ghost use Rattle.model.specs.Timelines.{row_of, Fitting, Happens};

use super::figures::Figures;

/// A task: its number, the core that it runs on, and its figures.
#[derive(Clone, Copy, Debug)]
pub struct Task {
    pub number: u32,
    pub core: u32,
    pub figures: Figures,
}

/// When things happen to one job, in ticks from the start of time.
/// It copies from `copy` up to `release` and, where nothing else runs on its core, computes from there up to `end`.
#[derive(Clone, Copy, PartialEq, Eq, Debug)]
pub struct Timeline {
    pub activation: u64,
    pub copy: u64,
    pub release: u64,
    pub end: u64,
    pub deadline: u64,
}

impl Task {
    /// The timeline of job 0, 1, 2 or any later one, of a task that is placed by the offsets of one cycle;
    /// none where there are no offsets, or the job is not in time with its own.
    pub fn timeline(&self, offsets: &[u32], job: u32) -> Option<Timeline>
        ensures fitting { IsSome result ↔ Fitting (row_of self.now offsets.now) job }
        ensures happens { IfSome result (Happens (row_of self.now offsets.now) job) }
    {
        // After a cycle the offsets repeat.
        let place = (job as usize).checked_rem(offsets.len())?;
        let offset = offsets[place];
        if !self.figures.in_time(offset) {
            return None;
        }
        let activation = u64::from(job) * u64::from(self.figures.period);
        let copy = activation + u64::from(offset);
        let release = copy + u64::from(self.figures.memory);
        let end = release + u64::from(self.figures.compute);
        let deadline = activation + u64::from(self.figures.deadline);
        Some(Timeline {
            activation,
            copy,
            release,
            end,
            deadline,
        })
    }
}
