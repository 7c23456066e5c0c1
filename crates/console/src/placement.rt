//! A task that is placed: it has an offset for each job of the cycle, and every job is in time.

ghost use Rattle.std.specs.Prelude.{◌≡◌, ◌<◌, ◌≤◌, length};
ghost use Rattle.console.specs.declared.placement.TheConstants.{MAX_JOBS};
ghost use Rattle.model.specs.Placing.{InTimeBelow};
ghost use Rattle.model.specs.Timelines.{row_of, Happens};

use super::lane::CYCLE;
use super::refusal::Refusal;
use model::placing::{Misplaced, place};
use model::source::OffsetSource;
use model::task::{Task, Timeline};

/// The most jobs that a cycle may have.
pub const MAX_JOBS: u32 = 1024;

/// The offsets are in memory that is lent, so placing allocates nothing.
#[derive(Drop)]
pub struct Placement<'a> {
    pub task: Task,
    pub offsets: &'a [u32],
    ghost some: { 0 < length offsets.now },
    ghost few: { length offsets.now ≤ MAX_JOBS },
    ghost in_time: { InTimeBelow task.figures offsets.now (length offsets.now) },
}

impl<'a> Placement<'a> {
    ghost use Rattle.console.specs.Placements.{Answers};

    /// Places the jobs of the task's cycle by a source.
    pub(crate) fn new<S: OffsetSource>(
        task: &Task,
        source: &S,
        memory: &'a mut [u32; MAX_JOBS as usize],
    ) -> Result<Placement<'a>, Refusal>
        ensures { Answers task.now (S.OffsetSource.meaning source.now) result }
    {
        let figures = task.figures;
        let jobs = figures.jobs_in(CYCLE).ok_or(Refusal::Uneven {
            period: figures.period,
        })?;
        if jobs > MAX_JOBS {
            return Err(Refusal::TooManyJobs);
        }
        let offsets = &mut memory[..jobs as usize];
        match place(&figures, jobs, source, offsets) {
            Ok(()) => Ok(Placement {
                task: *task,
                offsets,
            }),
            Err(Misplaced::NoRoom) => unreachable!(),
            Err(Misplaced::NoOffset { job }) => Err(Refusal::NoOffset { job }),
            Err(Misplaced::TooLate { job }) => Err(Refusal::TooLate {
                job,
                offset: offsets[job as usize],
                figures,
            }),
        }
    }

    /// The number of jobs of a cycle.
    pub(crate) fn jobs(&self) -> u32
        ensures { result ≡ length self.now.offsets.now }
    {
        self.offsets.len() as u32
    }

    /// The timeline of a job, by any number: after a cycle the offsets repeat.
    pub(crate) fn timeline(&self, job: u32) -> Timeline
        ensures { Happens (row_of self.now.task self.now.offsets.now) job result }
    {
        self.task.timeline(self.offsets, job).unwrap()
    }
}

#[cfg(test)]
mod tests {
    use super::*;
    use crate::TASK;
    use model::source::{Listed, Steady};

    #[test]
    fn a_steady_task_is_placed(rt: HostRuntime) -> Result<(), Refusal> {
        let mut memory = [0; MAX_JOBS as usize];
        let placement = Placement::new(&TASK, &Steady { offset: 3 }, &mut memory)?;
        assert_eq!(rt; placement.jobs(), 2);
        assert_eq!(rt; placement.timeline(1).copy, 13);
        assert_eq!(rt; placement.timeline(2).copy, 23);
        Ok(())
    }

    #[test]
    fn a_short_list_is_refused(rt: HostRuntime) {
        let mut memory = [0; MAX_JOBS as usize];
        let refusal = Placement::new(&TASK, &Listed { bytes: &[0] }, &mut memory).err();
        assert!(rt; matches!(refusal, Some(Refusal::NoOffset { job: 1 })));
    }
}
