//! The words that all other crates share: messages, lists, requests, answers, events, the trail, and
//! what a run starts from.
//!
//! A thread makes a [`Request`] and gets an [`Answer`]. A request stands in an [`Event`], the machine
//! gives a [`Reply`], and both together are an [`Entry`] of the [`Trail`].
#![tactic(auto)]

mod alt;
mod answer;
mod body;
mod datum;
mod io_call;
pub mod laws;
pub mod limits;
mod memory;
mod msg;
mod numbers;
mod put;
mod request;
mod room;
mod scanner;
mod seq;
mod setup;
mod trail;
mod words;

pub use alt::{AltEntry, AltOp, Ending, Slot};
pub use answer::{Answer, IoAnswer};
pub use body::{Body, Programs};
pub use datum::Datum;
pub use io_call::{Effect, IoCall};
pub use memory::NoMemory;
pub use msg::Msg;
pub use numbers::read_number;
pub use put::{put_bytes, put_number, put_quoted};
pub use request::{ChanReq, IoReq, LockReq, Request, SignalReq, ThreadReq, Tid};
pub use room::Room;
pub use seq::Seq;
pub use setup::{ChanSetup, Setup, ThreadSetup};
pub use trail::{Entry, Event, Reply, Seat, Trail};
pub use words::{Word, WordsFault, split_words};

#[cfg(test)]
mod tests;
