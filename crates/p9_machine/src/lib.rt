//! The machine: one event at a time, exactly as the manual's machine has it, with all memory taken before.
//!
//! [`Machine::reserve`] takes the memory that an event needs, and [`Machine::apply`] does the event: it
//! gives the reply and makes the entry. What an ioproc tells needs no reserve of its own.
//!
//! Each group of requests is served by a crate of its own over the parts that it touches. This crate keeps the parts
//! together, and does what touches all of them: how a run begins, which thread runs next, what
//! becomes of a note, and how threads end.
#![tactic(auto)]

mod board;
mod copies;
mod ends;
mod entries;
mod groups;
mod halt;
mod machine;
mod messages;
mod next;
mod relinquish;
mod reserve;
mod step;

pub use machine::Machine;
