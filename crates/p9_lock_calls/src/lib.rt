//! The requests on locks, Rendezes, Refs and tags, over the parts of the machine that they touch. lock(2), rendezvous(2).
//!
//! [`reserve`] takes the memory that a request needs, and [`call`] serves it, over the threads and the locks.
#![tactic(auto)]

mod asks;
mod attempts;
mod calls;
mod claims;
mod meet;
mod memory;
mod refs;
mod rendez;
mod unlocks;
mod wakes;

pub use calls::call;
pub use memory::{Spare, reserve};
