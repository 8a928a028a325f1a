use crate::{Datum, Msg, NoMemory};
use std::alloc::Global;

/// The answer of a call through an ioproc. ioproc(2).
#[derive(Drop)]
pub enum IoAnswer {
    /// The file is open.
    Opened,
    /// The file is closed.
    Shut,
    /// These bytes were read; none at the end of the file.
    Bytes(Msg),
    /// All bytes were written, so many.
    Count(u32),
    /// A read failed before any byte, or a write before all bytes.
    Fault,
    /// The file doesn't do that now.
    Refused,
}

/// The answer of a request. thread(2).
#[derive(Drop)]
pub enum Answer {
    /// What was asked for is done.
    Done,
    /// The value was sent.
    Sent,
    /// A value was received, which the call at this position of the trail sent.
    Got {
        from: u64,
        msg: Msg,
    },
    /// The entry of an alt that went on, counted from 0; `err` says that its channel is closed. Where it
    /// received a value: the position of the call that sent it, and its bytes if they are kept; else `None`
    /// and no bytes.
    Index {
        err: bool,
        i: u32,
        from: Option<u64>,
        msg: Msg,
    },
    /// Nothing could go on at once.
    NoBlock,
    /// The channel is closed.
    Closed,
    /// The wait was ended by an interrupt, a kill or a note, and what was asked for was not done. thread(2), notify(2).
    Interrupted,
    /// A number: what it counts is said at each request.
    Number(u64),
    /// There is no room for what was asked for, or no number to tell; nothing has changed.
    Minus,
    /// A text, as the name of a thread.
    Text(Msg),
    /// Another thread came with the same tag, and this value.
    Met(u64),
    /// What came of a call through an ioproc.
    Io(IoAnswer),
    /// The request names what isn't there, or asks for what can't be; nothing has changed.
    Bad,
}

impl Datum for IoAnswer {
    fn copied(&self, alloc: Global) -> Result<IoAnswer, NoMemory> {
        match self {
            IoAnswer::Opened => Ok(IoAnswer::Opened),
            IoAnswer::Shut => Ok(IoAnswer::Shut),
            IoAnswer::Bytes(bytes) => Ok(IoAnswer::Bytes(bytes.copied(alloc)?)),
            IoAnswer::Count(count) => Ok(IoAnswer::Count(*count)),
            IoAnswer::Fault => Ok(IoAnswer::Fault),
            IoAnswer::Refused => Ok(IoAnswer::Refused),
        }
    }

    fn is_same(&self, other: &IoAnswer) -> bool {
        match (self, other) {
            (IoAnswer::Opened, IoAnswer::Opened) => true,
            (IoAnswer::Shut, IoAnswer::Shut) => true,
            (IoAnswer::Bytes(a), IoAnswer::Bytes(b)) => a.is_same(b),
            (IoAnswer::Count(a), IoAnswer::Count(b)) => a == b,
            (IoAnswer::Fault, IoAnswer::Fault) => true,
            (IoAnswer::Refused, IoAnswer::Refused) => true,
            _ => false,
        }
    }
}

impl Datum for Answer {
    fn copied(&self, alloc: Global) -> Result<Answer, NoMemory> {
        match self {
            Answer::Done => Ok(Answer::Done),
            Answer::Sent => Ok(Answer::Sent),
            Answer::Got { from, msg } => Ok(Answer::Got {
                from: *from,
                msg: msg.copied(alloc)?,
            }),
            Answer::Index { err, i, from, msg } => Ok(Answer::Index {
                err: *err,
                i: *i,
                from: from.copied(alloc)?,
                msg: msg.copied(alloc)?,
            }),
            Answer::NoBlock => Ok(Answer::NoBlock),
            Answer::Closed => Ok(Answer::Closed),
            Answer::Interrupted => Ok(Answer::Interrupted),
            Answer::Number(n) => Ok(Answer::Number(*n)),
            Answer::Minus => Ok(Answer::Minus),
            Answer::Text(text) => Ok(Answer::Text(text.copied(alloc)?)),
            Answer::Met(value) => Ok(Answer::Met(*value)),
            Answer::Io(answer) => Ok(Answer::Io(answer.copied(alloc)?)),
            Answer::Bad => Ok(Answer::Bad),
        }
    }

    fn is_same(&self, other: &Answer) -> bool {
        match (self, other) {
            (Answer::Done, Answer::Done) => true,
            (Answer::Sent, Answer::Sent) => true,
            (
                Answer::Got { from, msg },
                Answer::Got {
                    from: other_from,
                    msg: other_msg,
                },
            ) => from == other_from && msg.is_same(other_msg),
            (
                Answer::Index { err, i, from, msg },
                Answer::Index {
                    err: other_err,
                    i: other_i,
                    from: other_from,
                    msg: other_msg,
                },
            ) => {
                err == other_err
                    && i == other_i
                    && from.is_same(other_from)
                    && msg.is_same(other_msg)
            }
            (Answer::NoBlock, Answer::NoBlock) => true,
            (Answer::Closed, Answer::Closed) => true,
            (Answer::Interrupted, Answer::Interrupted) => true,
            (Answer::Number(a), Answer::Number(b)) => a == b,
            (Answer::Minus, Answer::Minus) => true,
            (Answer::Text(a), Answer::Text(b)) => a.is_same(b),
            (Answer::Met(a), Answer::Met(b)) => a == b,
            (Answer::Io(a), Answer::Io(b)) => a.is_same(b),
            (Answer::Bad, Answer::Bad) => true,
            _ => false,
        }
    }
}
