//! Gives commands to the program over files in memory: it reads a script from its standard input, and prints each
//! command with what it comes to.
//!
//! A line `files` names a file that is copied and the file that it is copied to, and begins a list of files, each of
//! them a line `file` with the path and how many bytes it has; byte N of these is N modulo 251. The lines below it
//! that begin with `| ` stand in that file too, and one that begins with `+ `, without the end of its line. A line
//! `p9pipe` has the words of a command, and then, each after ` : `, what is planned to fail, the room of a file that
//! is written, or the thread whose calls are printed:
//!
//! ```text
//! files in.txt out.txt
//! file in.txt 9000
//! file copy.p9
//! | file i in 'in.txt'
//! p9pipe run copy.p9
//! p9pipe run copy.p9 : in.txt source : out.txt sink
//! p9pipe run copy.p9 : out.txt close : in.txt read 1 : out.txt write 2 : room 100 : thread 1
//! p9pipe run ''
//! ```
//!
//! Each command has files of its own, as they were before. Printed are its status, its messages, how many of the bytes of
//! the file that is copied stand in the other one, and how many bytes and failures its trail has, or `nothing ran`;
//! and what a thread asks and is told, where that is asked for. Blank lines and lines that begin with `#` count for nothing. A line that
//! isn't understood ends the program with its number and status 1.
#![tactic(auto)]

mod commands;
mod fault;
mod group;
mod lines;
mod moved;
mod outcome;
mod plans;
mod shown;

use crate::commands::runs_all;
use crate::fault::{Failure, Fault};
use std::io;
use std::process::ExitCode;
use std::sync::Wait;
use std::thread::Threads;

/// Reads the script and gives its commands.
fn run<R: Threads + Wait + Sync + Print + Input + AllocGlobal>(rt: &R) -> Result<(), Failure> {
    let alloc = rt.alloc();
    match io::read_to_string(alloc, rt.reader()) {
        Ok(script) => runs_all(rt, alloc, script.as_str()),
        Err(_) => Err(Failure {
            number: 0,
            fault: Fault::Input,
        }),
    }
}

/// Says why the commands aren't given to the last.
fn tell(rt: &impl Eprint, failure: Failure) {
    let (number, fault) = (failure.number, failure.fault);
    let _ = if number == 0 {
        eprintln!(rt; "p9_commands: {fault}")
    } else {
        eprintln!(rt; "p9_commands: line {number}: {fault}")
    };
}

fn main(rt: HostRuntime) -> ExitCode {
    match run(&rt) {
        Ok(()) => ExitCode::from(0),
        Err(failure) => {
            tell(&rt, failure);
            ExitCode::from(1)
        }
    }
}
