//! The entries that wait: memory phases of the channel, and ready jobs of a core.

ghost use Rattle.std.specs.Prelude.{◌≡◌};
ghost use Rattle.queue.specs.Keys.{lexicographic, phase_key, phase_precedes, ready_key, ready_precedes};
ghost use Rattle.std.proofs.Common.{rules};

use super::order::Order;

/// A memory phase: a job of a task holds the channel for `length` ticks from `start` on.
/// Phases are compared by these numbers in turn: the first that differs decides.
#[derive(Clone, Copy, PartialEq, Eq, PartialOrd, Ord, Debug)]
pub struct Phase {
    pub start: u32,
    pub task: u32,
    pub job: u32,
    pub length: u32,
}

// An impl for each type of entries: its numbers and their order have names of their own.
impl Phase {
    /// The numbers that phases are compared by.
    fn key(&self) -> [u32; 4]
        ensures { result ≡ phase_key self.now }
    {
        [self.start, self.task, self.job, self.length]
    }
}

impl Order for Phase {
    ghost precedes = { phase_precedes };

    ghost laws = { record {
      total = Prim.search rules;
      antisymmetric = Prim.search rules;
      transitive = Prim.search rules;
    } };

    fn at_or_before(&self, other: &Phase) -> bool {
        compare(self.key(), other.key())
    }
}

/// A job that is released and not done: it has `left` ticks to run before its deadline.
/// Ready jobs are compared by these numbers in turn: the first that differs decides.
#[derive(Clone, Copy, PartialEq, Eq, PartialOrd, Ord, Debug)]
pub struct Ready {
    pub deadline: u32,
    pub task: u32,
    pub job: u32,
    pub left: u32,
}

impl Ready {
    /// The numbers that ready jobs are compared by.
    fn key(&self) -> [u32; 4]
        ensures { result ≡ ready_key self.now }
    {
        [self.deadline, self.task, self.job, self.left]
    }
}

impl Order for Ready {
    ghost precedes = { ready_precedes };

    ghost laws = { record {
      total = Prim.search rules;
      antisymmetric = Prim.search rules;
      transitive = Prim.search rules;
    } };

    fn at_or_before(&self, other: &Ready) -> bool {
        compare(self.key(), other.key())
    }
}

/// Whether the first numbers are at or before the second: at the first place where they differ, the smaller.
fn compare(these: [u32; 4], those: [u32; 4]) -> bool
    ensures { result ≡ lexicographic these those }
{
    for i in 0..4 {
        if these[i] != those[i] {
            return these[i] < those[i];
        }
    }
    true
}
