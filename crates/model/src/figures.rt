//! The four figures of a task.

ghost use Rattle.std.specs.Prelude.{◌≡◌, ℕ, ◌*◌, ◌≢◌, ◌↔◌, IsTrue, IsSome, IfSome, IfNone};
ghost use Rattle.model.specs.Rules.{SoundFigures, InTime};

/// What a task asks for in each period: channel ticks, then computation ticks at worst, done by the deadline.
#[derive(Clone, Copy, Debug)]
pub struct Figures {
    pub memory: u32,
    pub compute: u32,
    pub deadline: u32,
    pub period: u32,
    ghost sound: { SoundFigures memory compute deadline period },
}

impl Figures {
    /// The figures, where they satisfy their rule.
    pub fn new(memory: u32, compute: u32, deadline: u32, period: u32) -> Option<Figures>
        ensures sound { IsSome result ↔ SoundFigures memory compute deadline period }
        ensures figures { IfSome result (λ f. (f.memory ≡ memory) × (f.compute ≡ compute) × (f.deadline ≡ deadline) × (f.period ≡ period)) }
    {
        let busy = u64::from(memory) + u64::from(compute);
        if memory < 1 || compute < 1 || busy > u64::from(deadline) || deadline > period {
            return None;
        }
        Some(Figures {
            memory,
            compute,
            deadline,
            period,
        })
    }

    /// How many jobs a cycle has, where the period divides it.
    #[tactic(auto, using(crate::proofs::Cycles::multiple_leaves_none))]
    pub fn jobs_in(&self, cycle: u32) -> Option<u32>
        ensures none { IfNone result ((k : ℕ) → k * self.now.period ≢ cycle) }
        ensures jobs { IfSome result (λ k. k * self.now.period ≡ cycle) }
    {
        (cycle % self.period == 0).then_some(cycle / self.period)
    }

    /// Whether a job with this offset can copy and compute before its deadline.
    pub fn in_time(&self, offset: u32) -> bool
        ensures { IsTrue result ↔ InTime self.now.memory self.now.compute self.now.deadline offset }
    {
        u64::from(offset) + u64::from(self.memory) + u64::from(self.compute)
            <= u64::from(self.deadline)
    }
}
