//! How threads end in the parts of a machine: one that runs, those of a proc, or all. thread(2), notify(2).
//!
//! A thread that ends leaves the line and each queue in which it waits, in the same step. What it holds stays held.
#![tactic(auto)]

mod ending;
mod ends;

pub use ends::{end_all, end_caller, end_proc};
