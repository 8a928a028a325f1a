ghost use Rattle.std.specs.Prelude.{◌≡◌, IfOk};
ghost use Rattle.p9_run.specs.Stage.{call_of, exits};
ghost use Rattle.p9_run.specs.WriteStage.{receives};
ghost use Rattle.p9_run.specs.WriteSteps.{IsNext, ends_of};

use crate::stage::exits;
use p9_word::{Answer, Body, ChanReq, IoAnswer, IoCall, IoReq, NoMemory, Request};
use std::alloc::Global;

/// What a writer has asked last.
#[derive(Clone, Copy)]
pub(crate) enum Step {
    /// Nothing yet.
    Start,
    /// The ioproc.
    Making,
    /// To open the file.
    Opening,
    /// For a message.
    Receiving,
    /// To write a message.
    Writing,
    /// For a message that won't be written, since a write failed before.
    Skipping,
    /// To close the file.
    Closing,
    /// To end the ioproc.
    Freeing,
    /// To exit: with the text `stage` where it is set.
    Exiting(bool),
}

/// The body of the stage `write`: it writes the messages of a channel to a file.
#[derive(Drop)]
pub(crate) struct Writer {
    pub(crate) alloc: Global,
    pub(crate) file: u32,
    pub(crate) chan: u32,
    pub(crate) at: Step,
}

impl Writer {
    /// A body that has had no answer yet. It works on this file and this channel.
    pub(crate) fn new(alloc: Global, file: u32, chan: u32) -> Writer
        ensures ends { ends_of result ≡ record { file = file; chan = chan } }
        ensures at { result.at ≡ Step.Start }
    {
        Writer {
            alloc,
            file,
            chan,
            at: Step::Start,
        }
    }

    /// A call on the file.
    fn call(&self, call: IoCall) -> Request
        ensures { result ≡ call_of (ends_of self.now) call }
    {
        Request::Io(IoReq::IoRun { k: self.file, call })
    }

    /// Receives a message.
    fn recv(&self) -> Request
        ensures { result ≡ receives (ends_of self.now) }
    {
        Request::Chan(ChanReq::Recv {
            keep: true,
            chan: self.chan,
        })
    }

    fn exits(&self, failed: bool) -> Result<(Request, Step), NoMemory>
        ensures { IfOk result (λ r. (r.0 ≡ exits failed) × (r.1 ≡ Step.Exiting failed)) }
    {
        Ok((exits(self.alloc, failed)?, Step::Exiting(failed)))
    }

    fn from_start(&self, last: Answer) -> Result<(Request, Step), NoMemory>
        ensures { IfOk result (λ r. IsNext (ends_of self.now) Step.Start last r.0 r.1) }
    {
        match last {
            Answer::Done => Ok((Request::Io(IoReq::IoProc { k: self.file }), Step::Making)),
            _ => self.exits(true),
        }
    }

    fn from_making(&self, last: Answer) -> Result<(Request, Step), NoMemory>
        ensures { IfOk result (λ r. IsNext (ends_of self.now) Step.Making last r.0 r.1) }
    {
        match last {
            Answer::Number(_) => Ok((self.call(IoCall::IoOpen), Step::Opening)),
            _ => self.exits(true),
        }
    }

    fn from_opening(&self, last: Answer) -> Result<(Request, Step), NoMemory>
        ensures { IfOk result (λ r. IsNext (ends_of self.now) Step.Opening last r.0 r.1) }
    {
        match last {
            Answer::Io(IoAnswer::Opened) => Ok((self.recv(), Step::Receiving)),
            _ => self.exits(true),
        }
    }

    fn from_receiving(&self, last: Answer) -> Result<(Request, Step), NoMemory>
        ensures { IfOk result (λ r. IsNext (ends_of self.now) Step.Receiving last r.0 r.1) }
    {
        match last {
            Answer::Got { from: _, msg } => Ok((self.call(IoCall::IoWrite(msg)), Step::Writing)),
            Answer::Closed => Ok((self.call(IoCall::IoClose), Step::Closing)),
            _ => self.exits(true),
        }
    }

    fn from_writing(&self, last: Answer) -> Result<(Request, Step), NoMemory>
        ensures { IfOk result (λ r. IsNext (ends_of self.now) Step.Writing last r.0 r.1) }
    {
        match last {
            Answer::Io(IoAnswer::Count(_)) => Ok((self.recv(), Step::Receiving)),
            Answer::Io(IoAnswer::Fault) => Ok((self.recv(), Step::Skipping)),
            _ => self.exits(true),
        }
    }

    fn from_skipping(&self, last: Answer) -> Result<(Request, Step), NoMemory>
        ensures { IfOk result (λ r. IsNext (ends_of self.now) Step.Skipping last r.0 r.1) }
    {
        match last {
            Answer::Got { .. } => Ok((self.recv(), Step::Skipping)),
            Answer::Closed => Ok((self.call(IoCall::IoClose), Step::Closing)),
            _ => self.exits(true),
        }
    }

    fn from_closing(&self, last: Answer) -> Result<(Request, Step), NoMemory>
        ensures { IfOk result (λ r. IsNext (ends_of self.now) Step.Closing last r.0 r.1) }
    {
        match last {
            Answer::Io(IoAnswer::Shut) => Ok((
                Request::Io(IoReq::CloseIoProc { k: self.file }),
                Step::Freeing,
            )),
            _ => self.exits(true),
        }
    }

    fn from_freeing(&self, last: Answer) -> Result<(Request, Step), NoMemory>
        ensures { IfOk result (λ r. IsNext (ends_of self.now) Step.Freeing last r.0 r.1) }
    {
        match last {
            Answer::Done => self.exits(false),
            _ => self.exits(true),
        }
    }

    fn from_exiting(&self, failed: bool, last: Answer) -> Result<(Request, Step), NoMemory>
        ensures { IfOk result (λ r. IsNext (ends_of self.now) (Step.Exiting failed) last r.0 r.1) }
    {
        drop(last);
        self.exits(failed)
    }

    /// The request after an answer, and the step after it.
    fn step(&self, last: Answer) -> Result<(Request, Step), NoMemory>
        ensures { IfOk result (λ r. IsNext (ends_of self.now) self.now.at last r.0 r.1) }
    {
        match self.at {
            Step::Start => self.from_start(last),
            Step::Making => self.from_making(last),
            Step::Opening => self.from_opening(last),
            Step::Receiving => self.from_receiving(last),
            Step::Writing => self.from_writing(last),
            Step::Skipping => self.from_skipping(last),
            Step::Closing => self.from_closing(last),
            Step::Freeing => self.from_freeing(last),
            Step::Exiting(failed) => self.from_exiting(failed, last),
        }
    }
}

impl Body for Writer {
    ghost use Rattle.p9_run.specs.WriteStage.{write};
    ghost use Rattle.p9_run.specs.WriteSteps.{ends_of, StandsFor};

    ghost plan = { λ r. write (ends_of r) };

    ghost stands_for = { StandsFor };

    fn next(&mut self, last: Answer) -> Result<Request, NoMemory> {
        let (request, at) = self.step(last)?;
        self.at = at;
        Ok(request)
    }
}
