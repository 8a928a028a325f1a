ghost use Rattle.std.specs.Prelude.{◌≡◌, ◌≤◌, List, length};
ghost use Rattle.p9_manual.specs.Interrupt.{interrupt, kill, marked, signal_thread};
ghost use Rattle.p9_manual.specs.State.{by_id};
ghost use Rattle.p9_lock.specs.Waiting.{wait_of};
ghost use Rattle.p9_note.specs.ProcNotes.{ProcNotes};
ghost use Rattle.p9_sched.specs.Messages.{IsBare};
ghost use Rattle.p9_sched.specs.Schedule.{IsMade};
ghost use Rattle.p9_sched.specs.Stands.{Tracks};
ghost use Rattle.p9_signal_calls.specs.Affects.{Does, effect, is_meeting_wait};
ghost use Rattle.p9_signal_calls.specs.Serves.{ServesAll};

use p9_alt::Alts;
use p9_lock::{LockWait, Locks};
use p9_sched::{Place, Sched};
use p9_word::{Answer, Reply, Tid};

/// What is done to a thread. thread(2).
#[derive(Clone, Copy)]
pub(crate) enum Signal {
    /// Its wait is ended.
    Interrupt,
    /// It is marked to die, and its wait is ended.
    Kill,
}

/// Whether thread t waits in a rendezvous.
fn meets(locks: &Locks, t: Tid) -> bool
    ensures { result ≡ is_meeting_wait (wait_of t locks.now.waits) }
{
    matches!(locks.waits(t), Some(LockWait::Tag(_)))
}

/// Ends the wait of thread t, if it waits in a request on channels or in a rendezvous. How many waits that ended, 0 or 1.
pub(crate) fn interrupt(sched: &mut Sched, alts: &mut Alts, locks: &mut Locks, t: Tid) -> u32
    requires made { IsMade t sched.old }
    ensures does { Does (interrupt t) sched.old alts.old locks.old result sched.new alts.new locks.new }
    ensures few { result ≤ 1 }
    ensures made { length sched.new.threads ≡ length sched.old.threads }
{
    let Place::Waiting = sched.place(t) else {
        return 0;
    };
    if alts.withdraw(t) {
        sched.ready(t, Answer::Interrupted);
        return 1;
    }
    if !meets(locks, t) {
        return 0;
    }
    locks.leave(t);
    sched.ready_holder(t, Answer::Interrupted);
    1
}

/// Marks thread t to die, if it lives.
fn mark(sched: &mut Sched, t: Tid)
    requires { IsMade t sched.old }
    ensures stands { Tracks (marked t) sched.old sched.new }
    ensures made { length sched.new.threads ≡ length sched.old.threads }
{
    if let Place::Ended = sched.place(t) {
        return;
    }
    sched.mark(t);
}

/// Marks thread t to die, if it lives, and interrupts it. How many waits that ended, 0 or 1.
fn kill(sched: &mut Sched, alts: &mut Alts, locks: &mut Locks, t: Tid) -> u32
    requires made { IsMade t sched.old }
    ensures does { Does (kill t) sched.old alts.old locks.old result sched.new alts.new locks.new }
    ensures few { result ≤ 1 }
    ensures made { length sched.new.threads ≡ length sched.old.threads }
{
    mark(sched, t);
    interrupt(sched, alts, locks, t)
}

/// Interrupts thread t, or kills it. How many waits that ended, 0 or 1.
pub(crate) fn act_on(
    sched: &mut Sched,
    alts: &mut Alts,
    locks: &mut Locks,
    signal: Signal,
    t: Tid,
) -> u32
    requires made { IsMade t sched.old }
    ensures does { Does (effect signal t) sched.old alts.old locks.old result sched.new alts.new locks.new }
    ensures few { result ≤ 1 }
    ensures made { length sched.new.threads ≡ length sched.old.threads }
{
    match signal {
        Signal::Interrupt => interrupt(sched, alts, locks, t),
        Signal::Kill => kill(sched, alts, locks, t),
    }
}

/// Threadint and threadkill: the caller is told how many waits that ended.
pub(crate) fn signal_thread(
    sched: &mut Sched,
    alts: &mut Alts,
    locks: &mut Locks,
    signal: Signal,
    t: Tid,
) -> Reply
    ensures serves { (notes : List ProcNotes) → ServesAll (λ s. signal_thread (effect signal) t s (by_id s.threads t))
        sched.old alts.old locks.old notes result sched.new alts.new locks.new notes }
    ensures bare { IsBare result }
{
    if !sched.is_made(t) {
        return Reply::Now(Answer::Bad);
    }
    let count = act_on(sched, alts, locks, signal, t);
    Reply::Now(Answer::Number(u64::from(count)))
}
