//! thread NAME KIND ARGS from CHANS to CHANS, thread NAME code PROG, thread NAME code PROG NUMBER.

ghost use Rattle.std.specs.Prelude.{Ok};
ghost use Rattle.p9_grammar.specs.Threads.{argument, code_job, stage_job, joined_by, code_thread, stage_thread, thread_line};
ghost use Rattle.p9_lang.specs.Gives.{Gives};
ghost use Rattle.p9_lang.specs.Views.{files_of, chans_of, proc_of, procs_of, draft_of};

use crate::draft::{Chans, Draft, Files, OpenProc, Procs};
use crate::fault::LineFault;
use crate::kinds::{ins_of, outs_of};
use crate::names::Names;
use crate::ports::ports_of;
use crate::sorts::{
    add_name, first_word, is_word_at, known_place, no_more, number_of_place, number_within,
};
use p9_grammar::{Job, ThreadDecl, Why};
use p9_word::Word;
use p9_word::limits::MOST_THREADS;
use std::alloc::Global;

/// The argument of a prog, 0 where it is left out.
fn argument(words: &[Word]) -> Result<u64, LineFault>
    ensures { Gives (λ n. n) result (argument words.now) }
{
    let [word, rest @ ..] = words else {
        return Ok(0);
    };
    let n = number_within(0, u64::MAX, word)?;
    no_more(rest)?;
    Ok(n)
}

/// PROG, PROG NUMBER: what a thread does that runs a prog.
#[tactic(auto, unfolding(p9_grammar::specs::Threads::code_job))]
fn code_job(progs: &Names, words: &[Word]) -> Result<Job, LineFault>
    ensures { Gives (λ job. job) result (code_job progs.now words.now) }
{
    let (word, words) = first_word(words)?;
    let place = known_place(progs, word)?;
    let arg = argument(words)?;
    let prog = number_of_place(place)?;
    Ok(Job::Code { prog, arg })
}

/// KIND ARGS from CHANS to CHANS: what a thread does that is a stage. Its file and its channels are used from here on.
#[tactic(auto, unfolding(p9_grammar::specs::Threads::stage_job))]
fn stage_job(
    alloc: Global,
    files: &mut Files,
    chans: &mut Chans,
    word: &Word,
    words: &[Word],
) -> Result<Job, LineFault>
    ensures { Gives (λ job. (job, files_of files.new, chans_of chans.new)) result
        (stage_job word.now (files_of files.old) (chans_of chans.old) words.now) }
{
    let (kind, words) = files.kind(word, words)?;
    let ins = ins_of(&kind);
    let outs = outs_of(&kind);
    let (ins, outs) = ports_of(alloc, ins, outs, &chans.names, &mut chans.ends, words)?;
    Ok(Job::Stage { kind, ins, outs })
}

impl Procs {
    /// The last proc has this thread too. `coded` tells whether a thread runs a prog.
    fn join(
        &mut self,
        mut proc: OpenProc,
        name: &Word,
        job: Job,
        coded: bool,
    ) -> Result<(), LineFault>
        ensures { Gives (λ _. procs_of self.new) result
            (Ok (joined_by (procs_of self.old) (proc_of proc) self.old.thread_names name.now.bytes job coded)) }
    {
        let name = name.bytes.copy()?;
        proc.threads.reserve(1)?;
        proc.threads.push(ThreadDecl { name, job });
        self.current = Some(proc);
        self.coded = coded;
        Ok(())
    }
}

impl Draft {
    /// A thread that runs a prog.
    #[tactic(auto, unfolding(p9_grammar::specs::Threads::code_thread))]
    fn code_thread(&mut self, proc: OpenProc, name: &Word, words: &[Word]) -> Result<(), LineFault>
        ensures { Gives (λ _. draft_of self.new) result
            (code_thread (draft_of self.old) (proc_of proc) self.old.procs.thread_names name.now.bytes words.now) }
    {
        let job = code_job(&self.progs.names, words)?;
        self.procs.join(proc, name, job, true)
    }

    /// A thread that is a stage.
    #[tactic(auto, unfolding(p9_grammar::specs::Threads::stage_thread))]
    fn stage_thread(
        &mut self,
        alloc: Global,
        proc: OpenProc,
        name: &Word,
        word: &Word,
        words: &[Word],
    ) -> Result<(), LineFault>
        ensures { Gives (λ _. draft_of self.new) result
            (stage_thread (draft_of self.old) (proc_of proc) self.old.procs.thread_names name.now.bytes word.now words.now) }
    {
        let job = stage_job(alloc, &mut self.files, &mut self.chans, word, words)?;
        let coded = self.procs.coded;
        self.procs.join(proc, name, job, coded)
    }

    /// A thread, behind its first word. It is in the last proc, so there must be one.
    #[tactic(auto, unfolding(p9_grammar::specs::Threads::thread_line, p9_grammar::specs::Threads::code_thread, p9_grammar::specs::Threads::stage_thread))]
    pub fn thread_line(&mut self, alloc: Global, words: &[Word]) -> Result<(), LineFault>
        ensures { Gives (λ _. draft_of self.new) result (thread_line (draft_of self.old) words.now) }
    {
        let Some(proc) = self.procs.current.take() else {
            return Err(LineFault::Text(Why::NoProc));
        };
        let (name, words) = first_word(words)?;
        add_name(alloc, MOST_THREADS, &mut self.procs.thread_names, name)?;
        let (kind, words) = first_word(words)?;
        if is_word_at(kind, b"code") {
            return self.code_thread(proc, name, words);
        }
        self.stage_thread(alloc, proc, name, kind, words)
    }
}
