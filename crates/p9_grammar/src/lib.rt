//! The language of pipelines: what a text means, and where its first fault is.
//!
//! `specs/Reading.antt` is the page to begin with. The types of what a text declares are here as plain data, so that
//! definitions and code speak of the same things.
#![tactic(auto)]

mod ends;
mod instr;
mod kind;
pub mod limits;
mod pipeline;
mod why;

pub use ends::ChanEnds;
pub use instr::{Bytes, CodeEntry, CodeSlot, Given, Instr, Num};
pub use kind::Kind;
pub use pipeline::{
    ChanDecl, FileDecl, Job, Pipeline, ProcDecl, ProgDecl, RefDecl, RendezDecl, ThreadDecl,
};
pub use why::Why;
