//! The notes of a machine: the handlers of each proc, and its notes that are pending. notify(2).
#![tactic(auto)]

mod delivered;
pub mod examples;
mod handler;
mod inbox;
mod notes;

pub use delivered::Delivered;
pub use notes::Notes;

#[cfg(test)]
mod tests;
