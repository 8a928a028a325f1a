//! The pipeline of a whole text, once all its lines are read.

ghost use Rattle.std.specs.Prelude.{◌≡◌, IfOk, Ok, map};
ghost use Rattle.p9_grammar.specs.Placed.{pipeline_of, placed, placed_number, placed_prog};
ghost use Rattle.p9_grammar.specs.Reading.{lacks_thread, lone, whole};
ghost use Rattle.p9_lang.specs.Gives.{Gives, GivesAt};
ghost use Rattle.p9_lang.specs.Views.{draft_of};

use crate::draft::{Draft, Progs};
use crate::fault::{LineFault, ReadFault};
use p9_grammar::{ChanEnds, Instr, Num, Pipeline, ProgDecl, Why};
use p9_word::{Msg, NoMemory, Room, Seq};
use std::alloc::Global;
use std::mem;

/// The line of the first channel without both ends.
fn lone_chan(ends: &[ChanEnds]) -> Option<u32>
    ensures { result ≡ lone ends.now }
{
    for end in ends {
        if !(end.written && end.read) {
            return Some(end.line);
        }
    }
    None
}

/// The number of a program behind this many threads.
fn place_number(threads: usize, number: &mut Num) -> Result<(), NoMemory>
    ensures { IfOk result (λ _. number.new ≡ placed_number threads number.old) }
{
    if let Num::Fixed(prog) = *number {
        let Some(program) = prog.checked_add(threads as u64) else {
            return Err(NoMemory);
        };
        *number = Num::Fixed(program);
    }
    Ok(())
}

/// Gives an instruction that names a program its number.
fn place_instr(threads: usize, instr: &mut Instr) -> Result<(), NoMemory>
    ensures { IfOk result (λ _. instr.new ≡ placed threads instr.old) }
{
    match instr {
        Instr::ThreadCreate { program, arg: _ } => place_number(threads, program),
        Instr::ProcCreate { program, arg: _ } => place_number(threads, program),
        _ => Ok(()),
    }
}

/// Gives all instructions of a prog that name programs their numbers.
fn place_code(threads: usize, code: &mut Seq<Instr>) -> Result<(), NoMemory>
    ensures { IfOk result (λ _. code.new ≡ map (placed threads) code.old) }
{
    for i in 0..code.len() {
        if let Some(instr) = code.get_mut(i) {
            place_instr(threads, instr)?;
        }
    }
    Ok(())
}

/// The same for all progs.
fn place_progs(threads: usize, progs: &mut Seq<ProgDecl>) -> Result<(), NoMemory>
    ensures { IfOk result (λ _. progs.new ≡ map (placed_prog threads) progs.old) }
{
    for i in 0..progs.len() {
        if let Some(prog) = progs.get_mut(i) {
            place_code(threads, &mut prog.code)?;
        }
    }
    Ok(())
}

/// The names of all locks, sort by sort.
#[derive(Drop)]
struct LockNames {
    locks: Seq<Msg>,
    qlocks: Seq<Msg>,
    rwlocks: Seq<Msg>,
}

/// Takes the items of a list out.
fn take<T: Drop>(alloc: Global, room: &mut Room<T>) -> Seq<T>
    ensures { result ≡ room.old.items }
{
    mem::replace(room, Room::new(alloc)).into_seq()
}

impl Progs {
    /// Takes the progs out. `threads` is the number of programs before theirs.
    fn take(&mut self, alloc: Global, threads: usize) -> Result<Seq<ProgDecl>, NoMemory>
        ensures { IfOk result (λ progs. progs ≡ map (placed_prog threads) self.old.done.items) }
    {
        let mut progs = take(alloc, &mut self.done);
        place_progs(threads, &mut progs)?;
        Ok(progs)
    }
}

impl Draft {
    /// Whether the text has no thread, or a prog without `done`.
    fn lacks_thread(&self) -> bool
        ensures { result ≡ lacks_thread (draft_of self.now) }
    {
        self.progs.current.is_some() || self.procs.thread_names.len() == 0
    }

    fn lock_names(&self, alloc: Global) -> Result<LockNames, NoMemory>
        ensures locks { IfOk result (λ names. names.locks ≡ self.now.locks) }
        ensures qlocks { IfOk result (λ names. names.qlocks ≡ self.now.qlocks) }
        ensures rwlocks { IfOk result (λ names. names.rwlocks ≡ self.now.rwlocks) }
    {
        Ok(LockNames {
            locks: self.locks.to_seq(alloc)?,
            qlocks: self.qlocks.to_seq(alloc)?,
            rwlocks: self.rwlocks.to_seq(alloc)?,
        })
    }

    /// Takes the pipeline of all that is declared out.
    fn take_pipeline(&mut self, alloc: Global) -> Result<Pipeline, LineFault>
        ensures { Gives (λ pipeline. pipeline) result (Ok (pipeline_of (draft_of self.old))) }
    {
        self.procs.close()?;
        let names = self.lock_names(alloc)?;
        let progs = self.progs.take(alloc, self.procs.thread_names.len())?;
        Ok(Pipeline {
            files: take(alloc, &mut self.files.decls),
            chans: take(alloc, &mut self.chans.decls),
            locks: names.locks,
            qlocks: names.qlocks,
            rwlocks: names.rwlocks,
            rendezes: take(alloc, &mut self.rendezes.decls),
            refs: take(alloc, &mut self.refs.decls),
            later: self.later.unwrap_or(0),
            progs,
            procs: take(alloc, &mut self.procs.done),
        })
    }

    /// The same, unless the whole text has a fault. `last` is the number of its last line.
    #[tactic(auto, unfolding(p9_grammar::specs::Reading::whole))]
    pub(crate) fn finish(&mut self, alloc: Global, last: u32) -> Result<Pipeline, ReadFault>
        ensures { GivesAt (λ pipeline. pipeline) result (whole last (draft_of self.old)) }
    {
        if self.lacks_thread() {
            return Err(ReadFault::Text {
                line: last,
                why: Why::NoThread,
            });
        }
        if !self.procs.coded
            && let Some(line) = lone_chan(self.chans.ends.as_slice())
        {
            return Err(ReadFault::Text {
                line,
                why: Why::NoBothEnds,
            });
        }
        match self.take_pipeline(alloc) {
            Ok(pipeline) => Ok(pipeline),
            Err(_) => Err(ReadFault::Memory),
        }
    }
}
