//! The priority queue: a binary heap over a lent slice and a count.

ghost use Rattle.std.specs.Prelude.{◌≡◌, ◌≤◌, length, take};
ghost use Rattle.queue.specs.Heaps.{HeapOrdered};

use super::order::Order;

pub mod calls;
mod sifting;
pub mod sorting;

/// Entries that wait in memory that is lent, the least to be taken first.
/// They are the first `count` elements, in the order of a heap; what lies past those means nothing.
// A lent slice with a count, and no `Vec`: the memory is the user's, and a put allocates nothing.
#[derive(Drop)]
pub struct PriorityQueue<'a, E: Order + Copy> {
    memory: &'a mut [E],
    count: usize,
    ghost within: { count ≤ length memory.now },
    ghost heaped: { HeapOrdered E.Order.precedes (take count memory.now) },
}

/// Every place of the memory has an entry already.
#[derive(Clone, Copy, PartialEq, Eq, Debug)]
pub struct Full;

impl Full {
    /// The number of the question that a refused put answers with no.
    pub fn number(self) -> u32
        ensures { result ≡ 27 }
    {
        // A refusal with no variants has none to give the number to.
        27
    }
}
