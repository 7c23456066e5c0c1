//! The scheduling theorems: what the demand of a core says of its runs, and what its worst case says of
//! every execution. Each function here does nothing: its contract is a theorem.

ghost use Rattle.model.specs.Scheduling.{DemandCountsEveryJob, OverloadIsInfeasible, NoOverloadIsMet, FeasibleWithoutOverload, EveryExecutionRuns, EndsNoLater, EndsByDeadline, EndsAfterLast, OneRun, OneEnd, FinishesRepeat, OneToldFinish, AloneFinish};
ghost use Rattle.model.specs.Examples.{TwoFit, ThreeFill, ThreeOverload, TieGoesByNumber};

/// The demand of an interval leaves out no job whose window lies within it.
pub fn demand_counts_every_job()
    ensures { DemandCountsEveryJob }
{}

/// Where an interval is overloaded, anywhere in endless time, no run meets every deadline.
pub fn overload_is_infeasible()
    ensures { OverloadIsInfeasible }
{}

/// Where no interval from a release to a deadline within the first cycle is overloaded, earliest deadline
/// first meets every deadline, in all cycles.
pub fn no_overload_is_met()
    ensures { NoOverloadIsMet }
{}

/// Some run meets every deadline exactly where no such interval is overloaded.
pub fn feasible_without_overload()
    ensures { FeasibleWithoutOverload }
{}

/// However many ticks each job takes, there is a run by earliest deadline first.
pub fn every_execution_runs()
    ensures { EveryExecutionRuns }
{}

/// In each such run every job ends no later than at the worst case.
pub fn ends_no_later()
    ensures { EndsNoLater }
{}

/// So with no overload every job ends by its deadline.
pub fn ends_by_deadline()
    ensures { EndsByDeadline }
{}

/// A job ends at the tick after its last one.
pub fn ends_after_last()
    ensures { EndsAfterLast }
{}

/// Any two runs with the same execution are the same in every tick.
pub fn one_run()
    ensures { OneRun }
{}

/// So any two runs at the worst case end every job at the same tick.
pub fn one_end()
    ensures { OneEnd }
{}

/// At the worst case with no overload a job finishes as the same job of the first cycle does.
pub fn finishes_repeat()
    ensures { FinishesRepeat }
{}

/// So each job of a cycle has one told finish, within its deadline, and no execution ends it later in any cycle.
pub fn one_told_finish()
    ensures { OneToldFinish }
{}

/// A task that has its core to itself ends each job C ticks after its release.
pub fn alone_finish()
    ensures { AloneFinish }
{}

/// Two tasks on one core in a cycle of 20 ticks, which finish after 5, 5 and 10 ticks.
pub fn two_tasks_fit()
    ensures { TwoFit }
{}

/// With a third task of 5 ticks the interval from 2 to 15 is full, and every deadline is still met.
pub fn three_tasks_fill()
    ensures { ThreeFill }
{}

/// With one of 6 ticks it is overloaded, though no interval of the cycle that begins at 0 is; and where the
/// 6 ticks come unannounced, a deadline is missed.
pub fn three_tasks_overload()
    ensures { ThreeOverload }
{}

/// Of two jobs with equal deadlines the one with the smaller task number goes first.
pub fn tie_goes_by_number()
    ensures { TieGoesByNumber }
{}
