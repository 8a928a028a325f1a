ghost use Rattle.std.specs.Prelude.{List, OnOk};
ghost use Rattle.p9_word.specs.declared.trail.Entry.{Entry};
ghost use Rattle.p9_manual.specs.Programs.{Asks};
ghost use Rattle.p9_run.specs.Stands.{IsBetween, HasTurn};

use crate::numbered::Numbered;
use p9_word::{Answer, Body, NoMemory, Request, Tid};
use std::alloc::Global;

/// A thread in its turn: its body, and the answer that the body hasn't had yet.
#[derive(Drop)]
pub(crate) struct Running<B> {
    pub(crate) tid: Tid,
    pub(crate) body: B,
    pub(crate) last: Answer,
}

/// The bodies of the threads, and what the threads that run do next.
#[derive(Drop)]
pub(crate) struct Bodies<B> {
    /// The bodies, by the threads' numbers.
    pub(crate) by_thread: Numbered<B>,
    /// The requests that haven't been made yet, by the threads' numbers.
    pub(crate) requests: Numbered<Request>,
    /// Which thread runs in a proc, by the procs' numbers.
    pub(crate) running: Numbered<Tid>,
    /// Whether a request on ioprocs was made since their last turns. Without one none has a call to take.
    pub(crate) asks_ioprocs: bool,
}

impl<B: Body + Drop> Bodies<B> {
    /// No bodies. It takes no memory.
    pub(crate) fn new(alloc: Global) -> Bodies<B> {
        Bodies {
            by_thread: Numbered::new(alloc),
            requests: Numbered::new(alloc),
            running: Numbered::new(alloc),
            asks_ioprocs: false,
        }
    }

    /// Gives a thread its answer, and keeps the request that it makes next.
    pub(crate) fn answer(&mut self, thread: Running<B>) -> Result<(), NoMemory>
        ensures { OnOk result ((asks : Asks) (history : List Entry)
            → HasTurn asks B.plan B.stands_for history self.old thread → IsBetween asks B.plan B.stands_for history self.new) }
    {
        let Running {
            tid,
            mut body,
            last,
        } = thread;
        let request = body.next(last)?;
        self.by_thread.put(tid, body)?;
        self.requests.put(tid, request)?;
        Ok(())
    }
}
