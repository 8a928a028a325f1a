//! The ioprocs of a machine: what each has to do, and the memory that its call needs. ioproc(2).
//!
//! [`IoBoard`] keeps a desk for each ioproc, by its number, with the buffers for the bytes of its call, and knows how
//! many calls are begun.
#![tactic(auto)]

mod board;
mod desk;
mod desks;
mod effects;
mod io_state;
mod ioprocs;
#[cfg(test)]
mod tests;

pub use board::IoBoard;
pub use effects::Finished;
pub use io_state::IoState;
