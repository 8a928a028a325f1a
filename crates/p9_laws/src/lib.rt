//! What holds of every history of the manual's machine. No code that runs: each law is the contract of a function that does
//! nothing, so that code has the law for a call.
//!
//! The definitions that the laws speak of stand in `p9_manual`; those of the laws stand here in `specs/`, beside histories
//! that are worked out as examples.
#![tactic(auto)]

pub mod answers;
pub mod communications;
pub mod ending;
pub mod examples;
pub mod receipts;
pub mod refusals;
pub mod running;
pub mod soundness;
pub mod stuck;
