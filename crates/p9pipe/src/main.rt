//! p9pipe: runs pipelines of files.
#![tactic(auto)]

use p9_outside::{RealFiles, StdSink, StdSource};
use p9_run::{Outcome, pipe_main};
use std::io::ErrorKind;
use std::process::ExitCode;
use std::rt::Env;
use std::{env, io, mem};

/// The words after the program's name.
fn words<R: Env + AllocGlobal>(rt: &R) -> io::Result<Vec<String>> {
    Ok(env::args(rt)?.skip(1).collect(rt.alloc())?)
}

fn main(rt: HostRuntime) -> ExitCode {
    let alloc = rt.alloc();
    let words = match words(&rt) {
        Ok(words) => words,
        Err(error) if error.kind() == ErrorKind::OutOfMemory => {
            let _ = eprintln!(rt; "p9pipe: out of memory");
            return ExitCode::from(4);
        }
        // Words that are no text are no command.
        Err(_) => Vec::new(alloc),
    };
    let mut files = RealFiles::new(&rt);
    let input = StdSource::new(rt.stdin());
    let out = StdSink::new(rt.stdout());
    let mut err = StdSink::new(rt.stderr());
    let Outcome {
        status,
        trail,
        input: _,
        out: _,
    } = pipe_main(&rt, alloc, &words, &mut files, input, out, &mut err);
    // The system takes the memory of the trail back at once, where the program would let go of it piece by piece.
    mem::forget(trail);
    ExitCode::from(status)
}
