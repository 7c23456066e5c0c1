//! Numbers as bytes: how one is spelled, read and written.

#![tactic(auto)]

pub mod laws;
pub mod reading;
#[cfg(test)]
mod tests;
pub mod writing;
