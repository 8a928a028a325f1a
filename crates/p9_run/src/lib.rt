//! The top calls of p9pipe: the copy of one file by a reading and a writing thread.
#![tactic(auto)]

mod bodies;
mod command;
mod copy_files;
mod copy_programs;
mod copy_setup;
mod copy_text;
mod engine;
mod file_text;
mod io_turn;
mod machine_engine;
mod numbered;
mod proc_turn;
mod program;
mod reader;
mod report;
mod rounds;
mod run_files;
mod stage;
mod writer;

pub use program::{Outcome, pipe_main};
