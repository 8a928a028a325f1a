ghost use Rattle.std.specs.Prelude.{◌≡◌, ◌+◌, ◌-◌, Some, None, slice_get, if◌then◌else◌, true, false};
ghost use Rattle.p9_word.specs.declared.setup.Setup.{Setup};
ghost use Rattle.p9_word.specs.declared.trail.Reply.TheVariants.{Over};
ghost use Rattle.p9_manual.specs.declared.state.Ioproc.TheVariants.{Idle};
ghost use Rattle.p9_manual.specs.Ioprocs.{io_event};
ghost use Rattle.p9_manual.specs.State.{State, by_id};
ghost use Rattle.p9_manual.specs.Step.{makes_entry};
ghost use Rattle.p9_sched.specs.Stands.{Tracks};
ghost use Rattle.p9_io.specs.Calls.{begun_count};
ghost use Rattle.p9_io.specs.Desks.{with_begun, with_ioproc};
ghost use Rattle.p9_io_calls.specs.Needs.{IsSpare};
ghost use Rattle.p9_io_calls.specs.Serves.{AreSound, StandSound, Serves, IsWaiting, rooms_after, with_answer};

use crate::spare::Spare;
use p9_io::{Finished, IoBoard};
use p9_manual::Ioproc;
use p9_sched::Sched;
use p9_word::{Answer, Effect, Reply};

/// A reply that is `Over` where the run is at its end.
#[inline(always)]
fn unless_over(is_over: bool, reply: Reply) -> Reply
    ensures { result ≡ (if is_over then Over else reply) }
{
    if is_over { Reply::Over } else { reply }
}

/// Ioproc k takes the call that is posted at it, unless the run is at its end: `over` says that all threads were ended, and a
/// run in which no thread lives is at its end too. There is memory for it by [`reserve`].
///
/// [`reserve`]: crate::reserve
#[tactic(auto, unfolding(p9_manual::specs::Ioprocs::io_event))]
pub fn take(sched: &Sched, io: &mut IoBoard, k: u32, over: bool, spare: Spare) -> Reply
    requires spare { IsSpare (by_id io.old.ioprocs k) (slice_get io.old.prepared (k - 1)) spare }
    ensures served { (setup : Setup) (s : State) → s.over ≡ over → StandSound sched.now io.old setup s
        → Serves setup s (io_event k s None) result sched.now io.new }
    ensures rooms { io.new.rooms ≡ rooms_after k result io.old.rooms }
    ensures taken { makes_entry result ≡ true → io.new ≡ with_begun k (by_id io.old.ioprocs k) io.old }
    ensures more { makes_entry result ≡ true → begun_count io.new.ioprocs ≡ begun_count io.old.ioprocs + 1 }
    ensures none { makes_entry result ≡ false → io.new ≡ io.old }
{
    let is_over = over || !sched.has_living();
    match io.ioproc(k) {
        None => Reply::Stray,
        Some(Ioproc::Closed) => Reply::Over,
        Some(Ioproc::Posted(..)) => {
            if is_over {
                return Reply::Over;
            }
            let Spare::Copy(call) = spare else {
                unreachable!();
            };
            let _took = io.take(k);
            Reply::Took(call)
        }
        Some(Ioproc::Begun(..)) => unless_over(is_over, Reply::Stray),
        Some(Ioproc::Unmade) => unless_over(is_over, Reply::Idle),
        Some(Ioproc::Idle) => unless_over(is_over, Reply::Idle),
    }
}

/// Makes the thread that waits for a call ready with its answer, if there is one.
fn answer_caller(sched: &mut Sched, finished: Finished)
    requires { IsWaiting finished.caller sched.old.threads }
    ensures { Tracks (with_answer finished.caller finished.answer) sched.old sched.new }
{
    let Finished { caller, answer } = finished;
    match caller {
        Some(t) => sched.ready(t, Answer::Io(answer)),
        None => {}
    }
}

/// Ioproc k tells what its begun call came to; the thread that waits for it is woken with the answer. It needs no memory.
#[tactic(auto, unfolding(p9_manual::specs::Ioprocs::io_event))]
pub fn did(sched: &mut Sched, io: &mut IoBoard, k: u32, effect: &Effect) -> Reply
    requires { AreSound sched.old io.old }
    ensures served { (setup : Setup) (s : State) → StandSound sched.old io.old setup s
        → Serves setup s (io_event k s (Some effect.now)) result sched.new io.new }
    ensures rooms { io.new.rooms ≡ io.old.rooms }
    ensures board { makes_entry result ≡ true → io.new ≡ with_ioproc k Idle io.old }
    ensures told { makes_entry result ≡ true → result ≡ Reply.Noted }
    ensures fewer { makes_entry result ≡ true → begun_count io.new.ioprocs + 1 ≡ begun_count io.old.ioprocs }
    ensures none { makes_entry result ≡ false → (sched.new ≡ sched.old) × (io.new ≡ io.old) }
{
    match io.finish(k, effect) {
        Some(finished) => {
            answer_caller(sched, finished);
            Reply::Noted
        }
        None => Reply::Stray,
    }
}
