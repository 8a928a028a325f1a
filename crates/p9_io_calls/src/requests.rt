ghost use Rattle.std.specs.Prelude.{◌≡◌, true};
ghost use Rattle.p9_word.specs.declared.setup.Setup.{Setup};
ghost use Rattle.p9_manual.specs.Effects.{message_length};
ghost use Rattle.p9_manual.specs.Ioprocs.{io_call, make, post_call, interrupt_call, close_ioproc};
ghost use Rattle.p9_manual.specs.State.{State, by_id};
ghost use Rattle.p9_manual.specs.Step.{makes_entry};
ghost use Rattle.p9_sched.specs.Messages.{IsBare};
ghost use Rattle.p9_sched.specs.Turns.{place_of};
ghost use Rattle.p9_io.specs.Calls.{begun_count};
ghost use Rattle.p9_io.specs.Stands.{IoFor};
ghost use Rattle.p9_io_calls.specs.Interrupts.{told_of_none};
ghost use Rattle.p9_io_calls.specs.Serves.{AreSound, StandSound, Serves, ServesAlone};

use p9_io::{IoBoard, IoState};
use p9_manual::Ioproc;
use p9_sched::{Place, Sched};
use p9_word::{Answer, IoCall, IoReq, Reply, Tid};

/// An ioproc is made once.
fn make(io: &mut IoBoard, k: u32) -> Reply
    ensures served { (s : State) → IoFor io.old s → ServesAlone s (make k s (by_id s.ioprocs k)) result io.new }
    ensures entry { makes_entry result ≡ true }
    ensures bare { IsBare result }
    ensures rooms { io.new.rooms ≡ io.old.rooms }
    ensures calls { begun_count io.new.ioprocs ≡ begun_count io.old.ioprocs }
{
    if io.make(k) {
        Reply::Now(Answer::Number(u64::from(k)))
    } else {
        Reply::Now(Answer::Bad)
    }
}

/// The length of the message in a call.
fn message_len(call: &IoCall) -> usize
    ensures { result ≡ message_length call.now }
{
    match call {
        IoCall::IoWrite(bytes) | IoCall::IoOwn(_, bytes) => bytes.as_slice().len(),
        IoCall::IoOpen | IoCall::IoRead(_) | IoCall::IoReadN(_) | IoCall::IoClose => 0,
    }
}

/// Posts a call at an idle ioproc; the caller waits for its answer.
fn post(sched: &mut Sched, io: &mut IoBoard, t: Tid, k: u32, call: IoCall) -> Reply
    requires runs { place_of (by_id sched.old.threads t) ≡ Place.Running }
    ensures served { (setup : Setup) (s : State) → StandSound sched.old io.old setup s
        → Serves setup s (post_call t k call s (by_id s.ioprocs k)) result sched.new io.new }
    ensures entry { makes_entry result ≡ true }
    ensures bare { IsBare result }
    ensures rooms { io.new.rooms ≡ io.old.rooms }
    ensures calls { begun_count io.new.ioprocs ≡ begun_count io.old.ioprocs }
{
    match io.ioproc(k) {
        Some(Ioproc::Idle) => {
            if message_len(&call) > 4_294_967_295 {
                return Reply::Now(Answer::Bad);
            }
            io.post(k, t, call);
            sched.wait(t);
            Reply::Waits
        }
        _ => Reply::Now(Answer::Bad),
    }
}

/// What a request to interrupt is answered where no thread waits: there is none to let go, or the ioproc is not in use.
fn told_of_none(state: IoState) -> Answer
    ensures { result ≡ told_of_none state }
{
    match state {
        IoState::Unmade | IoState::Closed => Answer::Bad,
        IoState::Idle | IoState::Posted | IoState::Begun => Answer::Number(0),
    }
}

/// Lets the thread that waits at an ioproc go, which is told that it was interrupted.
fn interrupt(sched: &mut Sched, io: &mut IoBoard, k: u32) -> Reply
    requires { AreSound sched.old io.old }
    ensures served { (setup : Setup) (s : State) → StandSound sched.old io.old setup s
        → Serves setup s (interrupt_call k s (by_id s.ioprocs k)) result sched.new io.new }
    ensures entry { makes_entry result ≡ true }
    ensures bare { IsBare result }
    ensures rooms { io.new.rooms ≡ io.old.rooms }
    ensures calls { begun_count io.new.ioprocs ≡ begun_count io.old.ioprocs }
{
    match io.interrupt(k) {
        Some(t) => {
            sched.ready(t, Answer::Interrupted);
            Reply::Now(Answer::Number(1))
        }
        None => Reply::Now(told_of_none(io.state(k))),
    }
}

/// Closes an idle ioproc.
fn close(io: &mut IoBoard, k: u32) -> Reply
    ensures served { (s : State) → IoFor io.old s → ServesAlone s (close_ioproc k s (by_id s.ioprocs k)) result io.new }
    ensures entry { makes_entry result ≡ true }
    ensures bare { IsBare result }
    ensures rooms { io.new.rooms ≡ io.old.rooms }
    ensures calls { begun_count io.new.ioprocs ≡ begun_count io.old.ioprocs }
{
    match io.ioproc(k) {
        Some(Ioproc::Idle) => {
            io.close(k);
            Reply::Now(Answer::Done)
        }
        _ => Reply::Now(Answer::Bad),
    }
}

/// A request on ioprocs of thread t, which runs. It needs no memory.
#[tactic(auto, unfolding(p9_manual::specs::Ioprocs::io_call))]
pub fn call(sched: &mut Sched, io: &mut IoBoard, t: Tid, request: IoReq) -> Reply
    requires sound { AreSound sched.old io.old }
    requires runs { place_of (by_id sched.old.threads t) ≡ Place.Running }
    ensures served { (setup : Setup) (s : State) → StandSound sched.old io.old setup s
        → Serves setup s (io_call setup t request s) result sched.new io.new }
    ensures entry { makes_entry result ≡ true }
    ensures bare { IsBare result }
    ensures rooms { io.new.rooms ≡ io.old.rooms }
    ensures calls { begun_count io.new.ioprocs ≡ begun_count io.old.ioprocs }
{
    match request {
        IoReq::IoProc { k } => make(io, k),
        IoReq::IoRun { k, call } => post(sched, io, t, k, call),
        IoReq::IoInterrupt { k } => interrupt(sched, io, k),
        IoReq::CloseIoProc { k } => close(io, k),
    }
}
