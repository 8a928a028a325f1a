//! The manual's machine: its definitions, and what all its parts share, as the sets of threads that end ([`Gone`]).
//!
//! `specs/Step.antt` is the page to begin with. The types of a state's parts are declared here as plain data, so
//! that definitions and code speak of the same things. What holds of every history is in `p9_laws`.
#![tactic(auto)]

mod gone;
mod locks;
mod state;

pub use gone::{Gone, One};
pub use locks::{LockWait, LockWaiter, Sort};
pub use state::{Channel, Element, Ioproc, Party, Place, Thread, Waiter};
