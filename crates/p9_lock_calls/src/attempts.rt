ghost use Rattle.std.specs.Prelude.{◌≡◌, true};
ghost use Rattle.p9_manual.specs.Claims.{attempt, can_get};
ghost use Rattle.p9_manual.specs.State.{by_id};
ghost use Rattle.p9_lock.specs.Locking.{IsIdle, IsLock, claimed};
ghost use Rattle.p9_sched.specs.Messages.{IsBare};
ghost use Rattle.p9_sched.specs.Turns.{place_of};
ghost use Rattle.p9_lock_calls.specs.Granted.{try_for};
ghost use Rattle.p9_lock_calls.specs.Serves.{ServesRequest, Stands};

use crate::asks::is_lock;
use p9_lock::{Locks, Sort};
use p9_sched::{Place, Sched};
use p9_word::{Answer, Reply, Tid};

/// Thread t gets lock k of a sort where it can at once. Whether it got it.
fn attempt(locks: &mut Locks, s: Sort, t: Tid, k: u32) -> bool
    requires there { IsLock s k locks.old }
    requires room { locks.old.room ≡ true }
    requires idle { IsIdle t locks.old }
    ensures got { result ≡ can_get s k locks.old.holds locks.old.waits }
    ensures after { locks.new ≡ claimed (attempt s t k locks.old.holds locks.old.waits) locks.old }
{
    match s {
        Sort::Lock => locks.canlock(t, k),
        Sort::QLock => locks.canqlock(t, k),
        Sort::Read => locks.canrlock(t, k),
        Sort::Write => locks.canwlock(t, k),
    }
}

/// Canlock, canqlock, canrlock and canwlock: the caller gets the lock at once, or is told that it didn't.
pub(crate) fn try_take(sched: &Sched, locks: &mut Locks, s: Sort, t: Tid, k: u32) -> Reply
    requires parts { Stands sched.now locks.old }
    requires runs { place_of (by_id sched.now.threads t) ≡ Place.Running }
    requires room { locks.old.room ≡ true }
    ensures serves { ServesRequest t (try_for s k) sched.now locks.old result sched.now locks.new }
    ensures bare { IsBare result }
{
    let _ = sched;
    if !is_lock(locks, s, k) {
        return Reply::Now(Answer::Bad);
    }
    if attempt(locks, s, t, k) {
        Reply::Now(Answer::Number(1))
    } else {
        Reply::Now(Answer::Number(0))
    }
}
