//! A priority queue over lent memory, for every type of entry with a total order.

#![tactic(auto)]

pub mod entries;
pub mod heap;
pub mod order;
#[cfg(test)]
mod tests;
