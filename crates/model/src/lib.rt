//! The subject: tasks with their figures, where their jobs are placed, and when each job does what.

#![tactic(auto)]

pub mod figures;
pub mod laws;
pub mod placing;
pub mod scheduling;
pub mod source;
pub mod task;
#[cfg(test)]
mod tests;
