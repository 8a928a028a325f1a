//! A ping-pong through the machine, to be timed: `p9_pingpong ROUNDS WAITING`.
//!
//! Two threads pass a number to and fro over two channels, each of which hands a value over, for so many
//! rounds, while so many other threads wait on a third channel. All stand in one proc. It prints how many
//! entries the trail has at the end: two for each of the four requests of a round, and two for each thread
//! that waits elsewhere.
#![tactic(auto)]

ghost use Rattle.std.specs.Prelude.{◌≤◌, ◌+◌, IfOk, IfSome};
ghost use Rattle.p9_word.specs.Setup.{IsValid};

mod events;
mod players;
mod setup;

use crate::events::plays;
use crate::setup::setup_of;
use p9_machine::Machine;
use p9_word::limits::MOST_THREADS;
use p9_word::{NoMemory, Setup};
use std::alloc::Global;
use std::process::ExitCode;
use std::rt::Env;
use std::{env, io};

/// How large a run is.
#[derive(Clone, Copy)]
struct Size {
    /// How often the number goes to and fro.
    rounds: u32,
    /// How many threads wait elsewhere, 0 to 65,534.
    waiting: u32,
}

/// The number that a word says.
fn number(word: Option<String>) -> Option<u32> {
    match word {
        Some(word) => word.as_str().parse::<u32>().ok(),
        None => None,
    }
}

/// A size that can be run.
fn size_of(rounds: Option<u32>, waiting: Option<u32>) -> Option<Size>
    ensures { IfSome result (λ size. size.waiting + 2 ≤ MOST_THREADS) }
{
    match (rounds, waiting) {
        (Some(rounds), Some(waiting)) if waiting as usize + 2 <= MOST_THREADS => {
            Some(Size { rounds, waiting })
        }
        _ => None,
    }
}

/// The size that the two words after the program's name ask for.
fn size_asked<R: Env + AllocGlobal>(rt: &R) -> io::Result<Option<Size>>
    ensures { IfOk result (λ asked. IfSome asked (λ size. size.waiting + 2 ≤ MOST_THREADS)) }
{
    let mut words = env::args(rt)?.skip(1);
    let rounds = number(words.next());
    let waiting = number(words.next());
    Ok(size_of(rounds, waiting))
}

/// A run on a machine of its own: how many entries its trail has, or `None` where the machine replied otherwise
/// than it should.
fn run_from(alloc: Global, setup: &Setup, size: Size) -> Result<Option<usize>, NoMemory>
    requires { IsValid setup.now }
{
    match Machine::new(alloc, setup) {
        Ok(mut machine) => {
            let played = plays(&mut machine, size.rounds, size.waiting);
            let count = machine.trail().entries.as_slice().len();
            let _trail = machine.into_trail();
            counted(played, count)
        }
        Err(NoMemory) => Err(NoMemory),
    }
}

/// The count of entries of a run that was played as it should.
fn counted(played: Result<bool, NoMemory>, count: usize) -> Result<Option<usize>, NoMemory> {
    match played {
        Ok(true) => Ok(Some(count)),
        Ok(false) => Ok(None),
        Err(NoMemory) => Err(NoMemory),
    }
}

/// A whole run: how many entries its trail has, or `None` where the machine replied otherwise than it should.
fn run(alloc: Global, size: Size) -> Result<Option<usize>, NoMemory>
    requires { size.waiting + 2 ≤ MOST_THREADS }
{
    match setup_of(alloc, size.waiting) {
        Ok(setup) => run_from(alloc, &setup, size),
        Err(NoMemory) => Err(NoMemory),
    }
}

fn main(rt: HostRuntime) -> ExitCode {
    let Ok(Some(size)) = size_asked(&rt) else {
        let _ = eprintln!(rt; "usage: p9_pingpong ROUNDS WAITING, with WAITING at most 65534");
        return ExitCode::from(2);
    };
    match run(rt.alloc(), size) {
        Ok(Some(entries)) => match println!(rt; "entries {entries}") {
            Ok(()) => ExitCode::from(0),
            Err(_) => ExitCode::from(1),
        },
        Ok(None) => {
            let _ = eprintln!(rt; "p9_pingpong: a reply that is none of a ping-pong");
            ExitCode::from(1)
        }
        Err(NoMemory) => {
            let _ = eprintln!(rt; "p9_pingpong: out of memory");
            ExitCode::from(4)
        }
    }
}
