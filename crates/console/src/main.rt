//! The console. It places one task on a small board by each source that standard input names, a line each,
//! and shows what the task's jobs then do, or which of them does not fit and why.

#![tactic(auto)]

use model::figures::Figures;
use model::task::Task;

mod lane;
mod placement;
mod refusal;
mod request;
mod story;

/// The task that each line places.
const TASK: Task = Task {
    number: 1,
    core: 0,
    figures: Figures {
        memory: 2,
        compute: 3,
        deadline: 8,
        period: 10,
    },
};

fn main(rt: HostRuntime) -> anyhow::Result<()> {
    converse(&rt)
}

/// Answers each line of standard input in turn.
fn converse(rt: &(impl Input + Print + AllocGlobal)) -> anyhow::Result<()> {
    story::introduce(rt, &TASK)?;
    for line in rt.lines(rt.alloc()) {
        let line = line?;
        let text = line.as_str().trim();
        if !text.is_empty() && !text.starts_with('#') {
            println!(rt; "\n> {text}")?;
            story::answer(rt, rt.alloc(), &TASK, text)?;
        }
    }
    Ok(())
}
