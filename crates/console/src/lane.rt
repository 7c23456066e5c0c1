//! A lane of a picture: one character for each tick of the cycle.

ghost use Rattle.std.specs.Prelude.{◌≡◌, ◌+◌, ◌%◌};
ghost use Rattle.console.specs.Lanes.{Idle, Marked, Ruled};

use std::{array, fmt};

/// The ticks of the board's cycle.
pub const CYCLE: u32 = 20;

const WIDTH: usize = CYCLE as usize;

#[derive(Clone, Copy)]
pub struct Lane {
    cells: [char; WIDTH],
}

impl Lane {
    /// A lane in which nothing happens.
    pub(crate) fn idle() -> Lane
        ensures { Idle result.cells }
    {
        Lane {
            cells: ['.'; WIDTH],
        }
    }

    /// The last digit of each tick.
    pub(crate) fn ruler() -> Lane
        ensures { Ruled result.cells }
    {
        Lane {
            cells: array::from_fn(|tick| digit(tick as u32)),
        }
    }

    /// Marks `len` ticks, the first at `from`, with the last digit of a job's number.
    // A range of ticks would have an end, which callers would first have to show to be a number of 64 bits.
    pub(crate) fn mark(&mut self, from: u64, len: u32, job: u32)
        ensures { Marked self.old.cells from len job self.new.cells }
    {
        let shown = digit(job);
        // Where the sum would pass the last number the range ends there, long after the cycle.
        let ticks = from..from.saturating_add(u64::from(len));
        for (tick, cell) in self.cells.iter_mut().enumerate() {
            if ticks.contains(&(tick as u64)) {
                *cell = shown;
            }
        }
    }
}

/// The last decimal digit of a number, as a character.
fn digit(n: u32) -> char
    ensures { result ≡ 48 + n % 10 }
{
    char::from_digit(n % 10, 10).unwrap()
}

impl fmt::Display for Lane {
    fn fmt<W: fmt::Write>(&self, f: &mut fmt::Formatter<W>) -> fmt::Result {
        // Characters in an array are no text that could be written at once.
        for cell in self.cells {
            f.write_char(cell)?;
        }
        Ok(())
    }
}
