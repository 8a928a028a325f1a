ghost use Rattle.std.specs.Prelude.{◌≡◌, ◌≢◌, ◌≤◌, ◌++◌, true, length};
ghost use Rattle.p9_manual.specs.Claims.{has_lock};
ghost use Rattle.p9_manual.specs.Unlocks.{release};
ghost use Rattle.p9_lock.specs.Locking.{granted};
ghost use Rattle.p9_sched.specs.Messages.{IsBare};
ghost use Rattle.p9_lock_calls.specs.Granted.{give_up};
ghost use Rattle.p9_lock_calls.specs.Serves.{ServesRequest, Stands};
ghost use Rattle.p9_lock_calls.specs.Spares.{HasRoom};

use crate::asks::has_lock;
use crate::memory::Spare;
use crate::wakes::{wake_all, wake_holder};
use p9_lock::{Locks, Sort};
use p9_sched::Sched;
use p9_word::{Answer, Reply, Room, Tid};

/// Thread t gives lock k of a sort up: who gets it is put last into `woken`.
fn release(locks: &mut Locks, s: Sort, t: Tid, k: u32, woken: &mut Room<Tid>)
    requires holds { has_lock s t k locks.old.holds ≡ true }
    requires spare { length locks.old.waits ≤ woken.old.spare }
    ensures after { locks.new ≡ granted (release s t k locks.old.holds locks.old.waits) locks.old }
    ensures woken { woken.new.items ≡ woken.old.items ++ (release s t k locks.old.holds locks.old.waits).granted }
{
    match s {
        Sort::Lock => locks.unlock(t, k, woken),
        Sort::QLock => locks.qunlock(t, k, woken),
        Sort::Read => locks.runlock(t, k, woken),
        Sort::Write => locks.wunlock(t, k, woken),
    }
}

/// Unlock: the thread that is granted the Lock goes on, first in the line of its proc, which it held.
pub(crate) fn unlock(sched: &mut Sched, locks: &mut Locks, t: Tid, k: u32, spare: Spare) -> Reply
    requires parts { Stands sched.old locks.old }
    requires room { HasRoom spare locks.old }
    ensures serves { ServesRequest t (give_up Sort.Lock k) sched.old locks.old result sched.new locks.new }
    ensures bare { IsBare result }
{
    if !has_lock(locks, Sort::Lock, t, k) {
        return Reply::Now(Answer::Bad);
    }
    let Spare::Woken(mut woken) = spare else {
        unreachable!()
    };
    release(locks, Sort::Lock, t, k, &mut woken);
    wake_holder(sched, woken.as_slice().first().copied());
    Reply::Now(Answer::Done)
}

/// Qunlock, runlock and wunlock: the threads that are granted the lock go on, in the order of its queue.
pub(crate) fn give_up(
    sched: &mut Sched,
    locks: &mut Locks,
    s: Sort,
    t: Tid,
    k: u32,
    spare: Spare,
) -> Reply
    requires sort { s ≢ Sort.Lock }
    requires parts { Stands sched.old locks.old }
    requires room { HasRoom spare locks.old }
    ensures serves { ServesRequest t (give_up s k) sched.old locks.old result sched.new locks.new }
    ensures bare { IsBare result }
{
    if !has_lock(locks, s, t, k) {
        return Reply::Now(Answer::Bad);
    }
    let Spare::Woken(mut woken) = spare else {
        unreachable!()
    };
    release(locks, s, t, k, &mut woken);
    wake_all(sched, woken.as_slice());
    Reply::Now(Answer::Done)
}
