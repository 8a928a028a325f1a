ghost use Rattle.std.specs.Prelude.{◌≡◌, ◌⊎◌, [], map, string_bytes};
ghost use Rattle.p9_run.specs.CopyEnd.{IsCopyTrail};
ghost use Rattle.p9_run.specs.Ended.{CopyEnded, TextEnded, FileEnded, WordsEnded, EndCounted, AnswersOn};
ghost use Rattle.p9_run.specs.PipeMain.{IsCall};
ghost use Rattle.p9_run.specs.declared.report.CommandEnd.TheVariants.{Memory};

use crate::command::command;
use crate::copy_files::{Copied, copy_files, no_trail};
use crate::copy_text::CopyPaths;
use crate::file_text::{TextFault, accept, read_file};
use crate::report::{CommandEnd, FileFault, memory_line, messages, status};
use p9_outside::laws::untold_reads_are_full;
use p9_outside::{Files, Sink, Source, drain};
use p9_word::{Msg, NoMemory, Trail};
use std::alloc::Global;
use std::sync::Wait;
use std::thread::Threads;

/// What a call of the program came to.
#[derive(Drop)]
pub struct Outcome<I, O> {
    /// The exit status: 0; 1 where a file failed; 2 where the words or the text aren't accepted; 3 where
    /// the run is stuck; 4 where memory was wanted. The first of 4, 2, 3, 1 and 0 that holds.
    pub status: u8,
    /// All that happened in the run. It is empty where nothing was run.
    pub trail: Trail,
    /// Standard input, which a copy leaves as it was.
    pub input: I,
    /// Standard output, which a copy leaves as it was.
    pub out: O,
}

/// What a command came to, and its trail.
#[derive(Drop)]
struct Ended {
    end: CommandEnd,
    trail: Trail,
}

/// An end before anything was run.
fn nothing_ran(alloc: Global, end: CommandEnd) -> Ended
    ensures end { result.end ≡ end }
    ensures trail { IsCopyTrail result.trail }
    ensures empty { result.trail.entries.items ≡ [] }
{
    Ended {
        end,
        trail: no_trail(alloc),
    }
}

/// Runs the text of a copy with these paths.
fn run_copy<R: Wait, F: Files>(rt: &R, alloc: Global, files: &mut F, paths: CopyPaths) -> Ended
    ensures trail { IsCopyTrail result.trail }
    ensures came { CopyEnded F.contents files.old files.new paths.from paths.to result }
    ensures counts { EndCounted F.faults files.old files.new result }
{
    let CopyPaths { from, to } = paths;
    let Copied { end, trail } = copy_files(rt, alloc, files, from.as_slice(), to.as_slice());
    match end {
        Ok(end) => Ended {
            end: CommandEnd::Ran { end, from, to },
            trail,
        },
        Err(NoMemory) => Ended {
            end: CommandEnd::Memory,
            trail,
        },
    }
}

/// Runs a text that was read from FILE.
fn run_text<R: Wait, F: Files>(
    rt: &R,
    alloc: Global,
    files: &mut F,
    file: Msg,
    text: &[u8],
) -> Ended
    ensures trail { IsCopyTrail result.trail }
    ensures came { TextEnded F.contents files.old files.new file text.now result }
    ensures counts { EndCounted F.faults files.old files.new result }
{
    untold_reads_are_full();
    match accept(alloc, text) {
        Ok(Some(paths)) => run_copy(rt, alloc, files, paths),
        Ok(None) => nothing_ran(alloc, CommandEnd::NotYet { file }),
        Err(NoMemory) => nothing_ran(alloc, CommandEnd::Memory),
    }
}

/// Reads FILE and runs its text.
fn run_file<R: Wait, F: Files>(rt: &R, alloc: Global, files: &mut F, file: Msg) -> Ended
    ensures trail { IsCopyTrail result.trail }
    ensures came { FileEnded F.contents files.old files.new file result }
    ensures counts { EndCounted F.faults files.old files.new result }
{
    let fault = match read_file(alloc, files, file.as_slice()) {
        Ok(text) => return run_text(rt, alloc, files, file, text.as_slice()),
        Err(TextFault::Memory) => return nothing_ran(alloc, CommandEnd::Memory),
        Err(TextFault::Open) => FileFault::Open,
        Err(TextFault::Read) => FileFault::Read,
    };
    nothing_ran(alloc, CommandEnd::FileFailed { file, fault })
}

/// Does what the words ask for.
fn run_words<R: Wait, F: Files>(rt: &R, alloc: Global, words: &Vec<String>, files: &mut F) -> Ended
    ensures trail { IsCopyTrail result.trail }
    ensures came { WordsEnded F.contents files.old files.new (map string_bytes words.now.items) result }
    ensures counts { EndCounted F.faults files.old files.new result }
{
    let Some(file) = command(words) else {
        return nothing_ran(alloc, CommandEnd::Usage);
    };
    match Msg::from_slice(alloc, file.as_bytes()) {
        Ok(file) => run_file(rt, alloc, files, file),
        Err(NoMemory) => nothing_ran(alloc, CommandEnd::Memory),
    }
}

/// Tells what a command came to, and answers the status. Where there is no memory for the messages, that
/// is told in their place.
fn tell<E: Sink>(alloc: Global, end: &CommandEnd, err: &mut E) -> u8
    ensures { AnswersOn E.held E.faults err.old err.new end.now result ⊎ AnswersOn E.held E.faults err.old err.new Memory result }
{
    match messages(alloc, end) {
        Ok(text) => {
            drain(err, text.as_slice());
            status(end)
        }
        Err(NoMemory) => {
            drain(err, memory_line());
            4
        }
    }
}

/// Does what the words of the command line ask for, and tells on `err` what failed. `main` calls it with
/// the words after the program's name, and does nothing else.
///
/// `run FILE` reads the text FILE and runs it. Every other list of words is told as a fault of usage.
pub fn pipe_main<
    R: Threads + Wait + Sync,
    F: Files,
    I: Source + Send + Drop,
    O: Sink + Send + Drop,
    E: Sink,
>(
    rt: &R,
    alloc: Global,
    words: &Vec<String>,
    files: &mut F,
    input: I,
    out: O,
    err: &mut E,
) -> Outcome<I, O>
    ensures trail { IsCopyTrail result.trail }
    ensures call { IsCall (map string_bytes words.now.items) (F.contents files.old) (F.contents files.new)
        (F.faults files.old) (F.faults files.new) result.trail.entries.items
        (E.held err.old) (E.held err.new) (E.faults err.old) (E.faults err.new) result.status }
    ensures input { result.input ≡ input }
    ensures out { result.out ≡ out }
{
    let Ended { end, trail } = run_words(rt, alloc, words, files);
    let status = tell(alloc, &end, err);
    Outcome {
        status,
        trail,
        input,
        out,
    }
}
