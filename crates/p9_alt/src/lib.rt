//! The alts that wait, and what becomes of an alt that a thread makes. alt in thread(2).
#![tactic(auto)]

mod alts;
mod answers;
mod commit;
mod entries;
mod lists;
mod offer;
mod queue;
mod ready;
mod side;
mod zeros;

pub use alts::Alts;
pub use offer::{Offer, Wake};
