ghost use Rattle.std.specs.Prelude.{◌≡◌};
ghost use Rattle.p9_manual.specs.Step.{makes_entry};
ghost use Rattle.p9_sched.specs.Messages.{IsOfCall, IsOfAnswer, IsOfIoAnswer, IsOfReply};

use p9_word::{Answer, IoAnswer, IoCall, Msg, Reply};

/// Whether a reply makes an entry.
pub(crate) fn makes_entry(reply: &Reply) -> bool
    ensures { result ≡ makes_entry reply.now }
{
    !matches!(
        reply,
        Reply::Idle | Reply::Over | Reply::Halted | Reply::Stray
    )
}

/// A copy of a call, with this copy of its message.
pub(crate) fn copy_call(call: &IoCall, message: Msg) -> IoCall
    requires { IsOfCall call.now message }
    ensures { result ≡ call.now }
{
    match call {
        IoCall::IoOpen => IoCall::IoOpen,
        IoCall::IoRead(n) => IoCall::IoRead(*n),
        IoCall::IoReadN(n) => IoCall::IoReadN(*n),
        IoCall::IoWrite(_) => IoCall::IoWrite(message),
        IoCall::IoClose => IoCall::IoClose,
        IoCall::IoOwn(code, _) => IoCall::IoOwn(*code, message),
    }
}

/// A copy of the answer of an ioproc, with this copy of its message.
fn copy_io_answer(answer: &IoAnswer, message: Msg) -> IoAnswer
    requires { IsOfIoAnswer answer.now message }
    ensures { result ≡ answer.now }
{
    match answer {
        IoAnswer::Opened => IoAnswer::Opened,
        IoAnswer::Shut => IoAnswer::Shut,
        IoAnswer::Bytes(_) => IoAnswer::Bytes(message),
        IoAnswer::Count(count) => IoAnswer::Count(*count),
        IoAnswer::Fault => IoAnswer::Fault,
        IoAnswer::Refused => IoAnswer::Refused,
    }
}

/// A copy of an answer, with this copy of its message.
pub(crate) fn copy_answer(answer: &Answer, message: Msg) -> Answer
    requires { IsOfAnswer answer.now message }
    ensures { result ≡ answer.now }
{
    match answer {
        Answer::Done => Answer::Done,
        Answer::Sent => Answer::Sent,
        Answer::Got { from, .. } => Answer::Got {
            from: *from,
            msg: message,
        },
        Answer::Index { err, i, from, .. } => Answer::Index {
            err: *err,
            i: *i,
            from: *from,
            msg: message,
        },
        Answer::NoBlock => Answer::NoBlock,
        Answer::Closed => Answer::Closed,
        Answer::Interrupted => Answer::Interrupted,
        Answer::Number(n) => Answer::Number(*n),
        Answer::Met(value) => Answer::Met(*value),
        Answer::Minus => Answer::Minus,
        Answer::Text(_) => Answer::Text(message),
        Answer::Io(answer) => Answer::Io(copy_io_answer(answer, message)),
        Answer::Bad => Answer::Bad,
    }
}

/// A copy of a reply, with this copy of its message.
pub(crate) fn copy_reply(reply: &Reply, message: Msg) -> Reply
    requires { IsOfReply reply.now message }
    ensures { result ≡ reply.now }
{
    match reply {
        Reply::Now(answer) => Reply::Now(copy_answer(answer, message)),
        Reply::Waits => Reply::Waits,
        Reply::Ended => Reply::Ended,
        Reply::Begin(t, program, arg) => Reply::Begin(*t, *program, *arg),
        Reply::Turn(t, answer) => Reply::Turn(*t, copy_answer(answer, message)),
        Reply::Caught(id) => Reply::Caught(*id),
        Reply::Died(_) => Reply::Died(message),
        Reply::Idle => Reply::Idle,
        Reply::Over => Reply::Over,
        Reply::Stuck => Reply::Stuck,
        Reply::Halted => Reply::Halted,
        Reply::Stray => Reply::Stray,
        Reply::Took(call) => Reply::Took(copy_call(call, message)),
        Reply::Noted => Reply::Noted,
    }
}
