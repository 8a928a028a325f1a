ghost use Rattle.std.specs.Prelude.{◌≡◌, true};
ghost use Rattle.p9_word.specs.declared.request.LockReq.TheVariants as ask;
ghost use Rattle.p9_manual.specs.State.{by_id};
ghost use Rattle.p9_sched.specs.Messages.{IsBare};
ghost use Rattle.p9_sched.specs.Turns.{place_of};
ghost use Rattle.p9_lock_calls.specs.Serves.{ServesRequest, Stands};
ghost use Rattle.p9_lock_calls.specs.Spares.{HasRoom};

use crate::asks::has_lock;
use crate::memory::Spare;
use crate::wakes::wake_all;
use p9_lock::{Locks, Sort};
use p9_sched::{Place, Sched};
use p9_word::{Answer, Reply, Tid};

/// Rsleep: who is granted the QLock goes on, and the caller sleeps.
pub(crate) fn sleep(sched: &mut Sched, locks: &mut Locks, t: Tid, r: u32, spare: Spare) -> Reply
    requires parts { Stands sched.old locks.old }
    requires runs { place_of (by_id sched.old.threads t) ≡ Place.Running }
    requires room { locks.old.room ≡ true }
    requires spare { HasRoom spare locks.old }
    ensures serves { ServesRequest t (ask.RSleep r) sched.old locks.old result sched.new locks.new }
    ensures bare { IsBare result }
{
    if !has_lock(locks, Sort::QLock, t, locks.qlock_of(r)) {
        return Reply::Now(Answer::Bad);
    }
    let Spare::Woken(mut woken) = spare else {
        unreachable!()
    };
    locks.rsleep(t, r, &mut woken);
    wake_all(sched, woken.as_slice());
    sched.wait(t);
    Reply::Waits
}

/// Rwakeup: the thread that has slept longest waits for the QLock from now on.
pub(crate) fn wake_first(sched: &Sched, locks: &mut Locks, t: Tid, r: u32) -> Reply
    requires { Stands sched.now locks.old }
    ensures serves { ServesRequest t (ask.RWakeup r) sched.now locks.old result sched.now locks.new }
    ensures bare { IsBare result }
{
    let _ = sched;
    if !has_lock(locks, Sort::QLock, t, locks.qlock_of(r)) {
        return Reply::Now(Answer::Bad);
    }
    Reply::Now(Answer::Number(u64::from(locks.rwakeup(r))))
}

/// Rwakeupall: all threads that sleep wait for the QLock from now on, in order.
pub(crate) fn wake_sleepers(sched: &Sched, locks: &mut Locks, t: Tid, r: u32) -> Reply
    requires { Stands sched.now locks.old }
    ensures serves { ServesRequest t (ask.RWakeupAll r) sched.now locks.old result sched.now locks.new }
    ensures bare { IsBare result }
{
    let _ = sched;
    if !has_lock(locks, Sort::QLock, t, locks.qlock_of(r)) {
        return Reply::Now(Answer::Bad);
    }
    Reply::Now(Answer::Number(u64::from(locks.rwakeupall(r))))
}
