//! What becomes of a task, in words and as a picture.

ghost use Rattle.std.specs.Prelude.{◌≡◌, ◌<◌, ◌≤◌, length};
ghost use Rattle.console.specs.Placements.{Answers, lagged};

use super::lane::{CYCLE, Lane};
use super::placement::{MAX_JOBS, Placement};
use super::refusal::Refusal;
use super::request::{Base, Request};
use model::figures::Figures;
use model::source::{Late, Listed, OffsetSource, Steady};
use model::task::{Task, Timeline};
use std::alloc::Global;
use std::io;

/// The cores of the board.
const CORES: u32 = 2;

/// Says who the task is and what it asks for.
pub(crate) fn introduce(rt: &impl Print, task: &Task) -> io::Result<()> {
    let Task {
        number,
        core,
        figures,
    } = *task;
    println!(rt; "a board with {CORES} cores and a cycle of {CYCLE} ticks")?;
    println!(rt;
        "task {number} on core {core}: copies {} ticks, computes up to {}, deadline {}, period {}",
        figures.memory, figures.compute, figures.deadline, figures.period
    )
}

/// Answers a line that names a source.
pub(crate) fn answer(rt: &impl Print, heap: Global, task: &Task, text: &str) -> io::Result<()> {
    match read_request(heap, text) {
        Ok(request) => show(rt, task, &request),
        Err(refusal) => refuse(rt, refusal),
    }
}

/// Reads what a line asks for.
fn read_request(heap: Global, text: &str) -> Result<Request, Refusal> {
    let words: Vec<&str> = text.split_whitespace().collect(heap)?;
    Request::read(heap, &words)
}

/// Places the task as asked, and tells of it.
fn show(rt: &impl Print, task: &Task, request: &Request) -> io::Result<()> {
    let mut memory = [0; MAX_JOBS as usize];
    match place_as_asked(task, request, &mut memory) {
        Ok(placement) => tell(rt, &placement),
        Err(refusal) => refuse(rt, refusal),
    }
}

/// Says why the task is not placed. Want of memory ends the program.
fn refuse(rt: &impl Print, refusal: Refusal) -> io::Result<()> {
    match refusal {
        Refusal::OutOfMemory(error) => Err(error.into()),
        refusal => println!(rt; "{refusal}"),
    }
}

/// Places the task by the source that is asked for.
fn place_as_asked<'a>(
    task: &Task,
    request: &Request,
    memory: &'a mut [u32; MAX_JOBS as usize],
) -> Result<Placement<'a>, Refusal> {
    match &request.base {
        Base::Steady(offset) => under_lags(task, &request.lags, Steady { offset: *offset }, memory),
        Base::Listed(bytes) => under_lags(task, &request.lags, Listed { bytes }, memory),
    }
}

/// Places the task by a source under some lags, the outermost first.
// A case for each number of lags: each is a layer of the source's type, and a function cannot recur over types.
fn under_lags<'a, S: OffsetSource + Copy>(
    task: &Task,
    lags: &[u32],
    base: S,
    memory: &'a mut [u32; MAX_JOBS as usize],
) -> Result<Placement<'a>, Refusal>
    ensures few { length lags.now ≤ 2 → Answers task.now (lagged lags.now (S.OffsetSource.meaning base)) result }
    ensures many { 2 < length lags.now → result ≡ Err Refusal.NotUnderstood }
{
    match *lags {
        [] => Placement::new(task, &base, memory),
        [lag] => Placement::new(task, &Late { below: base, lag }, memory),
        [outer, inner] => {
            let below = Late {
                below: base,
                lag: inner,
            };
            Placement::new(task, &Late { below, lag: outer }, memory)
        }
        _ => Err(Refusal::NotUnderstood),
    }
}

/// Tells of each job of the cycle, and draws them.
fn tell(rt: &impl Print, placement: &Placement) -> io::Result<()> {
    for job in 0..placement.jobs() {
        tell_job(rt, placement, job)?;
    }
    draw(rt, placement)
}

/// Tells of one job in words.
fn tell_job(rt: &impl Print, placement: &Placement, job: u32) -> io::Result<()> {
    let Figures {
        memory,
        compute,
        ..
    } = placement.task.figures;
    let Timeline {
        activation,
        copy,
        release,
        end,
        deadline,
    } = placement.timeline(job);
    let finish = end - activation;
    println!(rt;
        "  job {job} is activated at tick {activation}, copies {memory} ticks from {copy} on and is released at {release},"
    )?;
    println!(rt;
        "    computes {compute} ticks from there on and ends at {end}, {finish} after its activation; its deadline is {deadline}"
    )
}

/// Draws the channel and the cores over one cycle.
fn draw(rt: &impl Print, placement: &Placement) -> io::Result<()> {
    let Task { core, figures, .. } = placement.task;
    let mut activations = Lane::idle();
    let mut channel = Lane::idle();
    let mut busy = Lane::idle();
    let mut deadlines = Lane::idle();
    for job in 0..placement.jobs() {
        let timeline = placement.timeline(job);
        activations.mark(timeline.activation, 1, job);
        channel.mark(timeline.copy, figures.memory, job);
        busy.mark(timeline.release, figures.compute, job);
        deadlines.mark(timeline.deadline, 1, job);
    }
    println!(rt; "  ticks      {}", Lane::ruler())?;
    println!(rt; "  activated  {activations}")?;
    println!(rt; "  channel    {channel}")?;
    for number in 0..CORES {
        let lane = if number == core { busy } else { Lane::idle() };
        println!(rt; "  core {number}     {lane}")?;
    }
    println!(rt; "  deadline   {deadlines}")
}
