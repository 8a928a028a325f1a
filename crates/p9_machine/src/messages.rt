ghost use Rattle.std.specs.Prelude.{◌≡◌, IfOk, length};
ghost use Rattle.p9_manual.specs.State.{by_id};
ghost use Rattle.p9_sched.specs.Messages.{IsOfAnswer, IsOfCall};
ghost use Rattle.p9_sched.specs.Schedule.{IsPlace};
ghost use Rattle.p9_sched.specs.Turns.{answer_next};
ghost use Rattle.p9_machine.specs.Copies.{IsOfNext, IsOfPosted, IsOfTurn, oldest_note};

use p9_io::IoBoard;
use p9_manual::Ioproc;
use p9_note::Notes;
use p9_sched::Sched;
use p9_word::{Answer, IoAnswer, IoCall, Msg, NoMemory};

/// A copy of the message of a call.
fn message_of_call(call: &IoCall) -> Result<Msg, NoMemory>
    ensures { IfOk result (λ m. IsOfCall call.now m) }
{
    match call {
        IoCall::IoWrite(bytes) | IoCall::IoOwn(_, bytes) => bytes.copy(),
        IoCall::IoOpen | IoCall::IoRead(_) | IoCall::IoReadN(_) | IoCall::IoClose => Ok(Msg::new()),
    }
}

/// A copy of the message of the call that is posted at ioproc k.
pub(crate) fn message_posted(io: &IoBoard, k: u32) -> Result<Msg, NoMemory>
    ensures { IfOk result (λ m. IsOfPosted (by_id io.now.ioprocs k) m) }
{
    match io.ioproc(k) {
        Some(Ioproc::Posted(_, call)) => message_of_call(call),
        _ => Ok(Msg::new()),
    }
}

/// A copy of the message of an answer.
fn message_of_answer(answer: &Answer) -> Result<Msg, NoMemory>
    ensures { IfOk result (λ m. IsOfAnswer answer.now m) }
{
    match answer {
        Answer::Got { msg, .. } | Answer::Index { msg, .. } => msg.copy(),
        Answer::Text(text) => text.copy(),
        Answer::Io(IoAnswer::Bytes(bytes)) => bytes.copy(),
        _ => Ok(Msg::new()),
    }
}

/// A copy of the message of the answer that the next thread of proc p goes on with.
fn message_of_next(sched: &Sched, p: u32) -> Result<Msg, NoMemory>
    requires { IsPlace p sched.now }
    ensures { IfOk result (λ m. IsOfNext (answer_next p sched.now) m) }
{
    match sched.next_answer(p) {
        Some(answer) => message_of_answer(answer),
        None => Ok(Msg::new()),
    }
}

/// A copy of the message of what proc p is told next: of its oldest note, where one is pending, or else of the answer that its next
/// thread goes on with.
pub(crate) fn message_of_turn(sched: &Sched, notes: &Notes, p: u32) -> Result<Msg, NoMemory>
    requires { length notes.now ≡ length sched.now.lines }
    ensures { IfOk result (λ m. IsOfTurn (oldest_note p notes.now) (answer_next p sched.now) m) }
{
    if p == 0 || sched.places() < p {
        return Ok(Msg::new());
    }
    match notes.oldest(p) {
        Some(note) => note.copy(),
        None => message_of_next(sched, p),
    }
}
