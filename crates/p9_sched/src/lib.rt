//! The threads and procs of a machine: which thread runs in each proc, and which are ready, in order. thread(2).
//!
//! [`Sched`] keeps the threads by their ids in a table, and for each proc place a lane with the ready line of its
//! threads, so that each call finds what it needs by number.
#![tactic(auto)]

mod each;
mod entries;
mod lane;
mod lanes;
mod line;
mod of_proc;
mod row;
mod rows;
mod sched;
mod table;
mod turns;

pub use of_proc::OfProc;
pub use sched::Sched;
pub use turns::{Place, Ready};
