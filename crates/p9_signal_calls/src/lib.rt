//! The requests that interrupt or kill threads, and those on notes, over the parts of the machine that they touch. thread(2),
//! notify(2).
//!
//! [`reserve`] takes the memory that a request needs, and [`call`] serves it, over the threads, the alts, the locks and the notes.
#![tactic(auto)]

mod calls;
mod groups;
mod interrupts;
mod memory;
mod notes;

pub use calls::call;
pub use memory::reserve;
