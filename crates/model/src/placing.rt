//! Placing the jobs of a cycle by a source's offsets.

ghost use Rattle.std.specs.Prelude.{length, IfNone, IfSome};
ghost use Rattle.model.specs.Placing.{Placed, InTimeBelow, FirstLate};

use super::figures::Figures;
use super::source::OffsetSource;

/// Why a source does not place the jobs of a cycle.
#[derive(Clone, Copy, PartialEq, Eq, Debug)]
pub enum Misplaced {
    /// The memory for the offsets has fewer places than the cycle has jobs.
    NoRoom,
    /// The source has no offset for this job, the first such.
    NoOffset { job: u32 },
    /// This job, the first such, could not compute before its deadline.
    TooLate { job: u32 },
}

/// Reads the offset of each of the `jobs` of a cycle into the front of `offsets`, and answers whether
/// every job has one and is in time with it. That each has one is settled before any is looked at.
// The number of jobs stands beside the memory, since what is lent may have more places.
pub fn place<S: OffsetSource>(
    figures: &Figures,
    jobs: u32,
    source: &S,
    offsets: &mut [u32],
) -> Result<(), Misplaced>
    ensures { Placed figures.now (S.OffsetSource.meaning source.now) jobs offsets.old result offsets.new }
{
    if offsets.len() < jobs as usize {
        return Err(Misplaced::NoRoom);
    }
    // One place for each job, so that the index of a place is the number of its job.
    let offsets = &mut offsets[..jobs as usize];
    for (job, offset) in offsets.iter_mut().enumerate() {
        let job = job as u32;
        *offset = source.offset(job).ok_or(Misplaced::NoOffset { job })?;
    }
    first_late(figures, offsets).map_or(Ok(()), |job| {
        Err(Misplaced::TooLate { job: job as u32 })
    })
}

/// The first job that is not in time with its offset.
fn first_late(figures: &Figures, offsets: &[u32]) -> Option<usize>
    ensures none { IfNone result (InTimeBelow figures.now offsets.now (length offsets.now)) }
    ensures first { IfSome result (FirstLate figures.now offsets.now (length offsets.now)) }
{
    offsets.iter().position(|&offset| !figures.in_time(offset))
}
