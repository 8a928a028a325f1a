ghost use Rattle.std.specs.Prelude.{ℕ, ◌≡◌, true};
ghost use Rattle.p9_manual.specs.Claims.{can_get, claim};
ghost use Rattle.p9_manual.specs.LockCalls.{got};
ghost use Rattle.p9_manual.specs.State.{State, by_id, waiting};
ghost use Rattle.p9_word.specs.declared.request.Request.TheVariants.{Lock as LockRequest};
ghost use Rattle.p9_lock.specs.Locking.{IsIdle, IsLock, claimed};
ghost use Rattle.p9_sched.specs.Messages.{IsBare};
ghost use Rattle.p9_sched.specs.Stands.{Tracks};
ghost use Rattle.p9_sched.specs.Turns.{place_of};
ghost use Rattle.p9_lock_calls.specs.Granted.{ask_for};
ghost use Rattle.p9_lock_calls.specs.Serves.{ServesRequest, Stands};

use crate::asks::is_lock;
use p9_lock::{Locks, Sort};
use p9_sched::{Place, Sched};
use p9_word::{Answer, Reply, Tid};

/// Thread t asks for lock k of a sort. Whether it got it: else it waits.
fn claim(locks: &mut Locks, s: Sort, t: Tid, k: u32) -> bool
    requires there { IsLock s k locks.old }
    requires room { locks.old.room ≡ true }
    requires idle { IsIdle t locks.old }
    ensures got { result ≡ can_get s k locks.old.holds locks.old.waits }
    ensures after { locks.new ≡ claimed (claim s t k locks.old.holds locks.old.waits) locks.old }
{
    match s {
        Sort::Lock => locks.lock(t, k),
        Sort::QLock => locks.qlock(t, k),
        Sort::Read => locks.rlock(t, k),
        Sort::Write => locks.wlock(t, k),
    }
}

/// With a Lock the caller runs on, and with a lock of another sort it lets others run.
fn go_on(sched: &mut Sched, s: Sort, t: Tid) -> Reply
    requires { place_of (by_id sched.old.threads t) ≡ Place.Running }
    ensures told { (m : State) → result ≡ (got s t m).reply }
    ensures stands { Tracks (λ m. (got s t m).state) sched.old sched.new }
    ensures bare { IsBare result }
{
    match s {
        Sort::Lock => Reply::Now(Answer::Done),
        Sort::QLock | Sort::Read | Sort::Write => {
            sched.ready(t, Answer::Done);
            Reply::Waits
        }
    }
}

/// Who waits for a Lock holds its proc, and who waits for a lock of another sort doesn't.
fn wait(sched: &mut Sched, s: Sort, t: Tid)
    requires { place_of (by_id sched.old.threads t) ≡ Place.Running }
    ensures { (k : ℕ) → Tracks (λ m. (waiting t (LockRequest (ask_for s k)) m).state) sched.old sched.new }
{
    match s {
        Sort::Lock => sched.wait_holding(t),
        Sort::QLock | Sort::Read | Sort::Write => sched.wait(t),
    }
}

/// Lock, qlock, rlock and wlock: the caller gets the lock, or waits for it.
pub(crate) fn take(sched: &mut Sched, locks: &mut Locks, s: Sort, t: Tid, k: u32) -> Reply
    requires parts { Stands sched.old locks.old }
    requires runs { place_of (by_id sched.old.threads t) ≡ Place.Running }
    requires room { locks.old.room ≡ true }
    ensures serves { ServesRequest t (ask_for s k) sched.old locks.old result sched.new locks.new }
    ensures bare { IsBare result }
{
    if !is_lock(locks, s, k) {
        return Reply::Now(Answer::Bad);
    }
    if claim(locks, s, t, k) {
        return go_on(sched, s, t);
    }
    wait(sched, s, t);
    Reply::Waits
}
