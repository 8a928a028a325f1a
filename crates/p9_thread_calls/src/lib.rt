//! The requests on threads, procs, groups, names and words, but for those that end threads. thread(2).
//!
//! [`reserve`] takes the memory that a request needs, and [`call`] serves it, over the schedule alone.
#![tactic(auto)]

mod calls;
mod create;
mod spares;
mod values;

pub use calls::call;
pub use spares::{Spare, reserve};
