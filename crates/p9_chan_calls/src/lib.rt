//! The requests on channels, over the parts of the machine that they touch. thread(2).
#![tactic(auto)]

mod alternation;
mod calls;
mod channels;
mod memory;
mod wakes;

pub use calls::call;
pub use memory::{Spare, reserve};
