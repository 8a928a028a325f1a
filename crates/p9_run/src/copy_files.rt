ghost use Rattle.std.specs.Prelude.{◌≡◌, [], IfOk, OnOk};
ghost use Rattle.p9_outside.specs.Promised.{source_tells, sink_tells};
ghost use Rattle.p9_word.specs.Setup.{IsValid};
ghost use Rattle.p9_run.specs.CopyEnd.{IsCopyTrail};
ghost use Rattle.p9_run.specs.CopyFinish.{unopened, run_end, FinishesRun, CopyLeaves};
ghost use Rattle.p9_run.specs.CopySetup.{copy_setup};
ghost use Rattle.p9_run.specs.CountedCalls.{CountsRun};
ghost use Rattle.p9_run.specs.FaultLines.{fails_at, failed_at};
ghost use Rattle.p9_run.specs.Moves.{MovesOver};
ghost use Rattle.p9_manual.specs.Effects.{has_failed};
ghost use Rattle.p9_laws.specs.Ending.{HasEnded, is_stuck_reply, ends_stuck};

use crate::copy_programs::CopyPrograms;
use crate::copy_setup::copy_setup;
use crate::machine_engine::RunningMachine;
use crate::report::{FileFault, RunEnd};
use crate::run_files::{Ran, run_files};
use p9_laws::ending::runs_end;
use p9_machine::Machine;
use p9_outside::laws::untold_reads_are_full;
use p9_outside::{Files, FilesFault, Sink, Source};
use p9_word::{Effect, Entry, Event, NoMemory, Reply, Room, Seat, Trail};
use std::alloc::Global;
use std::sync::Wait;

/// What the run of a copy's text came to.
#[derive(Drop)]
pub(crate) struct Copied {
    /// What it tells, or that memory was wanted.
    pub(crate) end: Result<RunEnd, NoMemory>,
    /// All that happened.
    pub(crate) trail: Trail,
}

/// The trail of a run of which nothing happened.
pub(crate) fn no_trail(alloc: Global) -> Trail
    ensures trail { IsCopyTrail result }
    ensures empty { result.entries.items ≡ [] }
{
    Trail {
        procs: 0,
        start: 42,
        entries: Room::new(alloc),
    }
}

fn has_failed(effect: &Effect) -> bool
    ensures { result ≡ has_failed effect.now }
{
    match effect {
        Effect::Got { failed, .. } | Effect::Wrote { failed, .. } => *failed,
        _ => false,
    }
}

fn fails_at(entry: &Entry, k: u32) -> bool
    ensures { result ≡ fails_at k entry.now }
{
    match (&entry.seat, &entry.event) {
        (Seat::Io(j), Event::IoDid(effect)) => *j == k && has_failed(effect),
        _ => false,
    }
}

/// Whether a call on file 1 failed, and whether one on file 2 did. A trail may be long, and is gone through once.
fn failed_files(entries: &[Entry]) -> (bool, bool)
    ensures first { result.0 ≡ failed_at 1 entries.now }
    ensures second { result.1 ≡ failed_at 2 entries.now }
{
    let mut first = false;
    let mut second = false;
    for entry in entries {
        first |= fails_at(entry, 1);
        second |= fails_at(entry, 2);
    }
    (first, second)
}

fn is_stuck(reply: &Reply) -> bool
    ensures { result ≡ is_stuck_reply reply.now }
{
    matches!(reply, Reply::Stuck)
}

fn ends_stuck(entries: &[Entry]) -> bool
    ensures { result ≡ ends_stuck entries.now }
{
    match entries.last() {
        Some(entry) => is_stuck(&entry.reply),
        None => false,
    }
}

/// What a run tells where a file couldn't be opened: the in file, or else the out file.
fn unopened(fault: FilesFault, input: bool) -> Result<RunEnd, NoMemory>
    ensures { result ≡ unopened fault input }
{
    match fault {
        FilesFault::Memory => Err(NoMemory),
        FilesFault::Failed => Ok(RunEnd {
            stuck: false,
            input: if input { Some(FileFault::Open) } else { None },
            output: if input { None } else { Some(FileFault::Open) },
        }),
    }
}

/// What a run tells that went to its end.
fn run_end(entries: &[Entry], closed: Result<(), FilesFault>) -> Result<RunEnd, NoMemory>
    ensures { result ≡ run_end (ends_stuck entries.now) (failed_at 1 entries.now) (failed_at 2 entries.now) closed }
{
    let close = match closed {
        Ok(()) => None,
        Err(FilesFault::Failed) => Some(FileFault::Close),
        Err(FilesFault::Memory) => return Err(NoMemory),
    };
    let (input, output) = failed_files(entries);
    Ok(RunEnd {
        stuck: ends_stuck(entries),
        input: if input { Some(FileFault::Read) } else { None },
        output: if output {
            Some(FileFault::Write)
        } else {
            close
        },
    })
}

/// A machine that has done nothing yet, for the setup of a copy.
fn new_machine(alloc: Global) -> Result<RunningMachine, NoMemory>
    ensures setup { IfOk result (λ m. m.machine.setup ≡ copy_setup) }
    ensures valid { IfOk result (λ m. IsValid m.machine.setup) }
    ensures new { IfOk result (λ m. m.machine.entries ≡ []) }
{
    let setup = copy_setup(alloc)?;
    Ok(RunningMachine::new(Machine::new(alloc, &setup)?))
}

/// The run of a copy's two threads over its two files.
#[derive(Drop)]
struct CopyRun<S, K> {
    ran: Ran<S, K>,
    trail: Trail,
}

/// Runs a copy's two threads on a new machine, over a source and a sink.
fn run_copy<R: Wait, S: Source + Drop, K: Sink + Drop>(
    rt: &R,
    alloc: Global,
    source: S,
    sink: K,
) -> Result<CopyRun<S, K>, NoMemory>
    ensures trail { IfOk result (λ r. IsCopyTrail r.trail) }
    ensures ended { IfOk result (λ r. OnOk r.ran.outcome (HasEnded copy_setup r.trail.entries.items)) }
    ensures moves { IfOk result (λ r. MovesOver (source_tells S.left S.faults S.steady) (sink_tells K.held K.faults K.firm)
        r.trail.entries.items source r.ran.source sink r.ran.sink) }
{
    let mut machine = new_machine(alloc)?;
    let programs = CopyPrograms::new(alloc);
    let ran = run_files(rt, alloc, &mut machine, &programs, 1, source, sink);
    runs_end();
    Ok(CopyRun {
        ran,
        trail: machine.into_trail(),
    })
}

/// What a run comes to of which nothing happened.
fn not_run(alloc: Global, end: Result<RunEnd, NoMemory>) -> Copied
    ensures end { result.end ≡ end }
    ensures trail { IsCopyTrail result.trail }
    ensures empty { result.trail.entries.items ≡ [] }
{
    Copied {
        end,
        trail: no_trail(alloc),
    }
}

/// Runs the text that copies a file to another one.
pub(crate) fn copy_files<R: Wait, F: Files>(
    rt: &R,
    alloc: Global,
    files: &mut F,
    from: &[u8],
    to: &[u8],
) -> Copied
    ensures trail { IsCopyTrail result.trail }
    ensures end { CopyLeaves F.contents files.old files.new from.now to.now result }
    ensures counts { CountsRun result.end (F.faults files.old) (F.faults files.new) }
{
    untold_reads_are_full();
    let source = match files.source(alloc, from) {
        Ok(source) => source,
        Err(fault) => return not_run(alloc, unopened(fault, true)),
    };
    let sink = match files.sink(alloc, to) {
        Ok(sink) => sink,
        Err(fault) => return not_run(alloc, unopened(fault, false)),
    };
    match run_copy(rt, alloc, source, sink) {
        Ok(run) => finish(files, to, run),
        Err(NoMemory) => not_run(alloc, Err(NoMemory)),
    }
}

/// Makes what was written the contents of the out file, where the run came to its end.
fn finish<F: Files>(files: &mut F, to: &[u8], run: CopyRun<F::Src, F::Dst>) -> Copied
    ensures trail { result.trail ≡ run.trail }
    ensures end { FinishesRun F.contents F.faults files.old files.new F.Dst.held to.now run result.end }
{
    let CopyRun { ran, trail } = run;
    let Ran {
        outcome,
        source: _,
        sink,
    } = ran;
    if outcome.is_err() {
        return Copied {
            end: Err(NoMemory),
            trail,
        };
    }
    let closed = files.close(to, sink);
    Copied {
        end: run_end(trail.entries.as_slice(), closed),
        trail,
    }
}
