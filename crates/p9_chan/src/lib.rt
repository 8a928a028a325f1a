//! The channels of a machine, with the elements of those that have a buffer. thread(2).
//!
//! [`Chans`] keeps the channels by their ids, so that each call finds its channel by number. The elements of a channel
//! with a buffer lie in a ring, which they are moved into and out of.
#![tactic(auto)]

mod chans;
mod stored;

pub use chans::Chans;
pub use p9_manual::Element;
