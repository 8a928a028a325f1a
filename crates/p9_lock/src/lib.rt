//! The locks, the Rendezes and the tags of a machine: who holds them, and who waits there. lock(2), rendezvous(2).
#![tactic(auto)]

pub mod examples;
mod holders;
mod locks;
mod meet;
mod meeting;
mod readers;
mod waits;

pub use locks::Locks;
pub use meet::Meet;
pub use p9_manual::{LockWait, Sort};

#[cfg(test)]
mod tests;
