//! The requests on ioprocs, and what an ioproc does, over the threads and the ioprocs alone. ioproc(2).
//!
//! A thread's request is served by [`call`]. An ioproc takes its call by [`take`], for which [`reserve`] has taken the
//! memory, and tells what came of it by [`did`].
#![tactic(auto)]

mod events;
mod requests;
mod spare;

pub use events::{did, take};
pub use requests::call;
pub use spare::{Spare, reserve};
