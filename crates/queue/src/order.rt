//! What it is for entries to have an order.

ghost use Rattle.std.specs.Prelude.{◌≡◌, Bool};
ghost use Rattle.queue.specs.Orders.{TotalOrder};

/// A total order. Whoever implements it owes its laws.
pub trait Order {
    // of two entries, the first is at or before the second
    ghost precedes: { Self → Self → Bool };

    /// Whether this entry is at or before the other.
    fn at_or_before(&self, other: &Self) -> bool
        ensures { result ≡ precedes self.now other.now };

    ghost laws: { TotalOrder precedes };
}
