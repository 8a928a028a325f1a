//! Reads the text of a pipeline, with its first fault exactly.
#![tactic(auto)]

mod alt_rows;
mod chan_rows;
mod decls;
mod draft;
mod fault;
mod finish;
mod io_rows;
mod kinds;
mod lines;
mod lock_rows;
mod names;
mod operands;
mod ports;
mod progs;
mod reader;
mod sorts;
mod statement;
mod thread_rows;
mod threads;

pub use fault::ReadFault;
pub use reader::read_text;
