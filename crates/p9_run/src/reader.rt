ghost use Rattle.std.specs.Prelude.{◌≡◌, IfOk};
ghost use Rattle.p9_run.specs.Stage.{call_of, exits};
ghost use Rattle.p9_run.specs.ReadSteps.{IsNext, ends_of};

use crate::stage::exits;
use p9_word::limits::BLOCK_BYTES;
use p9_word::{Answer, Body, ChanReq, IoAnswer, IoCall, IoReq, Msg, NoMemory, Request};
use std::alloc::Global;

/// What a reader has asked last.
#[derive(Clone, Copy)]
pub(crate) enum Step {
    /// Nothing yet.
    Start,
    /// The ioproc.
    Making,
    /// To open the file.
    Opening,
    /// For a piece.
    Reading,
    /// To send a piece.
    Sending,
    /// For a piece that won't be sent, since the channel was closed by another thread.
    Draining,
    /// To close the file.
    Closing,
    /// To end the ioproc.
    Freeing,
    /// To close the channel, at the end.
    Ending,
    /// To close the channel, after an answer that it has no use for.
    Failing,
    /// To exit: with the text `stage` where it is set.
    Exiting(bool),
}

/// The body of the stage `read`: it sends the bytes of a file to a channel, in pieces.
#[derive(Drop)]
pub(crate) struct Reader {
    pub(crate) alloc: Global,
    pub(crate) file: u32,
    pub(crate) chan: u32,
    pub(crate) at: Step,
}

impl Reader {
    /// A body that has had no answer yet. It works on this file and this channel.
    pub(crate) fn new(alloc: Global, file: u32, chan: u32) -> Reader
        ensures ends { ends_of result ≡ record { file = file; chan = chan } }
        ensures at { result.at ≡ Step.Start }
    {
        Reader {
            alloc,
            file,
            chan,
            at: Step::Start,
        }
    }

    /// A call on the file.
    fn call(&self, call: IoCall) -> Request
        ensures { result ≡ call_of (ends_of self.now) call }
    {
        Request::Io(IoReq::IoRun { k: self.file, call })
    }

    /// Closes the channel.
    fn close(&self) -> Request
        ensures { result ≡ Request.Chan (ChanReq.ChanClose self.now.chan) }
    {
        Request::Chan(ChanReq::ChanClose { chan: self.chan })
    }

    /// Sends a piece.
    fn send(&self, piece: Msg) -> Request
        ensures { result ≡ Request.Chan (ChanReq.Send self.now.chan (Some piece)) }
    {
        Request::Chan(ChanReq::Send {
            chan: self.chan,
            value: Some(piece),
        })
    }

    fn exits(&self, failed: bool) -> Result<(Request, Step), NoMemory>
        ensures { IfOk result (λ r. (r.0 ≡ exits failed) × (r.1 ≡ Step.Exiting failed)) }
    {
        Ok((exits(self.alloc, failed)?, Step::Exiting(failed)))
    }

    fn from_start(&self, last: Answer) -> (Request, Step)
        ensures { IsNext (ends_of self.now) Step.Start last result.0 result.1 }
    {
        match last {
            Answer::Done => (Request::Io(IoReq::IoProc { k: self.file }), Step::Making),
            _ => (self.close(), Step::Failing),
        }
    }

    fn from_making(&self, last: Answer) -> (Request, Step)
        ensures { IsNext (ends_of self.now) Step.Making last result.0 result.1 }
    {
        match last {
            Answer::Number(_) => (self.call(IoCall::IoOpen), Step::Opening),
            _ => (self.close(), Step::Failing),
        }
    }

    fn from_opening(&self, last: Answer) -> (Request, Step)
        ensures { IsNext (ends_of self.now) Step.Opening last result.0 result.1 }
    {
        match last {
            Answer::Io(IoAnswer::Opened) => (
                self.call(IoCall::IoReadN(BLOCK_BYTES)),
                Step::Reading,
            ),
            _ => (self.close(), Step::Failing),
        }
    }

    fn from_reading(&self, last: Answer) -> (Request, Step)
        ensures { IsNext (ends_of self.now) Step.Reading last result.0 result.1 }
    {
        match last {
            Answer::Io(IoAnswer::Bytes(piece)) => {
                if piece.as_slice().is_empty() {
                    (self.call(IoCall::IoClose), Step::Closing)
                } else {
                    (self.send(piece), Step::Sending)
                }
            }
            Answer::Io(IoAnswer::Fault) => (self.call(IoCall::IoClose), Step::Closing),
            _ => (self.close(), Step::Failing),
        }
    }

    fn from_sending(&self, last: Answer) -> (Request, Step)
        ensures { IsNext (ends_of self.now) Step.Sending last result.0 result.1 }
    {
        match last {
            Answer::Sent => (self.call(IoCall::IoReadN(BLOCK_BYTES)), Step::Reading),
            Answer::Closed => (self.call(IoCall::IoReadN(BLOCK_BYTES)), Step::Draining),
            _ => (self.close(), Step::Failing),
        }
    }

    fn from_draining(&self, last: Answer) -> (Request, Step)
        ensures { IsNext (ends_of self.now) Step.Draining last result.0 result.1 }
    {
        match last {
            Answer::Io(IoAnswer::Bytes(piece)) => {
                if piece.as_slice().is_empty() {
                    (self.call(IoCall::IoClose), Step::Closing)
                } else {
                    (self.call(IoCall::IoReadN(BLOCK_BYTES)), Step::Draining)
                }
            }
            Answer::Io(IoAnswer::Fault) => (self.call(IoCall::IoClose), Step::Closing),
            _ => (self.close(), Step::Failing),
        }
    }

    fn from_closing(&self, last: Answer) -> (Request, Step)
        ensures { IsNext (ends_of self.now) Step.Closing last result.0 result.1 }
    {
        match last {
            Answer::Io(IoAnswer::Shut) => (
                Request::Io(IoReq::CloseIoProc { k: self.file }),
                Step::Freeing,
            ),
            _ => (self.close(), Step::Failing),
        }
    }

    fn from_freeing(&self, last: Answer) -> (Request, Step)
        ensures { IsNext (ends_of self.now) Step.Freeing last result.0 result.1 }
    {
        match last {
            Answer::Done => (self.close(), Step::Ending),
            _ => (self.close(), Step::Failing),
        }
    }

    fn from_ending(&self, last: Answer) -> Result<(Request, Step), NoMemory>
        ensures { IfOk result (λ r. IsNext (ends_of self.now) Step.Ending last r.0 r.1) }
    {
        match last {
            Answer::Number(_) => self.exits(false),
            _ => self.exits(true),
        }
    }

    fn from_failing(&self, last: Answer) -> Result<(Request, Step), NoMemory>
        ensures { IfOk result (λ r. IsNext (ends_of self.now) Step.Failing last r.0 r.1) }
    {
        drop(last);
        self.exits(true)
    }

    fn from_exiting(&self, failed: bool, last: Answer) -> Result<(Request, Step), NoMemory>
        ensures { IfOk result (λ r. IsNext (ends_of self.now) (Step.Exiting failed) last r.0 r.1) }
    {
        drop(last);
        self.exits(failed)
    }

    /// The request after an answer, and the step after it.
    fn step(&self, last: Answer) -> Result<(Request, Step), NoMemory>
        ensures { IfOk result (λ r. IsNext (ends_of self.now) self.now.at last r.0 r.1) }
    {
        match self.at {
            Step::Start => Ok(self.from_start(last)),
            Step::Making => Ok(self.from_making(last)),
            Step::Opening => Ok(self.from_opening(last)),
            Step::Reading => Ok(self.from_reading(last)),
            Step::Sending => Ok(self.from_sending(last)),
            Step::Draining => Ok(self.from_draining(last)),
            Step::Closing => Ok(self.from_closing(last)),
            Step::Freeing => Ok(self.from_freeing(last)),
            Step::Ending => self.from_ending(last),
            Step::Failing => self.from_failing(last),
            Step::Exiting(failed) => self.from_exiting(failed, last),
        }
    }
}

impl Body for Reader {
    ghost use Rattle.p9_run.specs.ReadStage.{read};
    ghost use Rattle.p9_run.specs.ReadSteps.{ends_of, StandsFor};

    ghost plan = { λ r. read (ends_of r) };

    ghost stands_for = { StandsFor };

    fn next(&mut self, last: Answer) -> Result<Request, NoMemory> {
        let (request, at) = self.step(last)?;
        self.at = at;
        Ok(request)
    }
}
