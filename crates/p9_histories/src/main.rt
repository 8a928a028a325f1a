//! Plays whole histories on the machine: it reads a script from its standard input, and prints each line with
//! what it comes to.
//!
//! A history begins with a line `history NAME` and the setup that it starts from. Each line below it is an event
//! of a proc or of an ioproc, `entries`, which asks how many entries the trail has, or `halt`, by which the machine is
//! halted:
//!
//! ```text
//! history hands_a_value_over threads 2 chan 0 4
//! next
//! thread 1 send 1 'v'
//! proc 1 next
//! proc 1 thread 2 recv 1 keep
//! io 1 take
//! io 1 did got 'v' failed
//! times 3 thread 2 yield
//! entries
//! ```
//!
//! An event without a seat is one of proc 1. Requests are named as in the manual, and what follows a name is what
//! the request's fields are, in order: numbers, texts between single quotes, and `null`, `keep`, `on` and `off`. Of an event
//! that happens several times the first and the last reply are printed. Blank lines and lines that begin with `#`
//! count for nothing. A history that no run can start is its first line alone, which is printed with that. A line that
//! isn't understood ends the program with its number and status 1.
#![tactic(auto)]

mod alts;
mod chan_requests;
mod crossing;
mod fault;
mod io_requests;
mod lines;
mod lock_requests;
mod play;
mod replies;
mod script;
mod setup;
mod signal_requests;
mod thread_requests;
mod words;

use crate::crossing::all_cross;
use crate::fault::{Failure, Fault};
use crate::play::plays_all;
use crate::script::rows_of;
use std::io;
use std::process::ExitCode;

/// Reads the script and plays it.
fn run(rt: &(impl Print + Input + AllocGlobal)) -> Result<(), Failure> {
    let alloc = rt.alloc();
    let Ok(script) = io::read_to_string(alloc, rt.reader()) else {
        return Err(Failure {
            number: 0,
            fault: Fault::Input,
        });
    };
    let Ok(rows) = rows_of(alloc, script.as_str()) else {
        return Err(Failure {
            number: 0,
            fault: Fault::NoMemory,
        });
    };
    plays_all(rt, alloc, &rows)
}

/// Says why the script isn't played to its end.
fn tell(rt: &impl Eprint, failure: Failure) {
    let (number, fault) = (failure.number, failure.fault);
    let _ = if number == 0 {
        eprintln!(rt; "p9_histories: {fault}")
    } else {
        eprintln!(rt; "p9_histories: line {number}: {fault}")
    };
}

fn main(rt: HostRuntime) -> ExitCode {
    all_cross();
    match run(&rt) {
        Ok(()) => ExitCode::from(0),
        Err(failure) => {
            tell(&rt, failure);
            ExitCode::from(1)
        }
    }
}
