//! A first program with the library: two threads in one proc, and a channel on which one sends a value to
//! the other. It prints all that happened, one line for each event with its reply.
//!
//! The machine never runs code of its own. It says which thread is to run, the program says what that thread
//! asks, and the machine replies. Its trail keeps both.
#![tactic(auto)]

ghost use Rattle.p9_word.specs.Setup.{IsValid};

mod in_words;
mod setup;
mod threads;

use crate::in_words::InWords;
use crate::setup::hello_setup;
use crate::threads::request_after;
use p9_machine::Machine;
use p9_word::{Event, NoMemory, Reply, Seat, Setup, Trail};
use std::alloc::Global;
use std::io;

/// The proc in which both threads run.
const PROC: Seat = Seat::Proc(1);

/// Why there is nothing to show.
#[derive(Drop, Debug)]
enum Failure {
    /// There is no memory.
    NoMemory,
    /// The output isn't taken.
    Output(io::Error),
}

impl From<NoMemory> for Failure {
    fn from(_error: NoMemory) -> Failure {
        Failure::NoMemory
    }
}

impl From<io::Error> for Failure {
    fn from(error: io::Error) -> Failure {
        Failure::Output(error)
    }
}

/// One event. All memory for it is taken first, so that what is replied stands.
fn happens(machine: &mut Machine, event: Event) -> Result<Reply, NoMemory> {
    machine.reserve(PROC, &event)?;
    Ok(machine.apply(PROC, event))
}

/// Lets the threads run by turns, until none is to run any more.
fn run_threads(alloc: Global, machine: &mut Machine) -> Result<(), NoMemory> {
    for _ in 0..u64::MAX {
        let turn = happens(machine, Event::Next)?;
        let Some((thread, request)) = request_after(alloc, &turn)? else {
            break;
        };
        // What these threads ask is answered at their next turn, or ends them.
        happens(machine, Event::Call(thread, request))?;
    }
    Ok(())
}

/// A whole run from this setup: all that happened.
fn run(alloc: Global, setup: &Setup) -> Result<Trail, NoMemory>
    requires { IsValid setup.now }
{
    let mut machine = Machine::new(alloc, setup)?;
    run_threads(alloc, &mut machine)?;
    Ok(machine.into_trail())
}

/// Prints each entry of the trail after its place, by which later ones name it.
fn show(rt: &impl Print, trail: &Trail) -> io::Result<()> {
    for (place, entry) in trail.entries.as_slice().iter().enumerate() {
        let words = InWords(entry);
        println!(rt; "{place}: {words}")?;
    }
    Ok(())
}

fn main(rt: HostRuntime) -> Result<(), Failure> {
    let alloc = rt.alloc();
    let setup = hello_setup(alloc)?;
    let trail = run(alloc, &setup)?;
    show(&rt, &trail)?;
    Ok(())
}
