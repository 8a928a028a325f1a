ghost use Rattle.std.specs.Prelude.{◌≡◌};
ghost use Rattle.p9_manual.specs.State.{by_id};
ghost use Rattle.p9_sched.specs.Messages.{IsBare};
ghost use Rattle.p9_sched.specs.Turns.{place_of};
ghost use Rattle.p9_lock_calls.specs.Serves.{ServesRequest, Stands};
ghost use Rattle.p9_lock_calls.specs.Spares.{IsSpare};

use crate::attempts::try_take;
use crate::claims::take;
use crate::meet::meet;
use crate::memory::Spare;
use crate::refs::{lower, raise};
use crate::rendez::{sleep, wake_first, wake_sleepers};
use crate::unlocks::{give_up, unlock};
use p9_lock::{Locks, Sort};
use p9_sched::{Place, Sched};
use p9_word::{LockReq, Reply, Tid};

/// A request of thread t on locks, which runs. `spare` is what [`reserve`](crate::reserve) gave for it.
pub fn call(sched: &mut Sched, locks: &mut Locks, t: Tid, request: LockReq, spare: Spare) -> Reply
    requires parts { Stands sched.old locks.old }
    requires runs { place_of (by_id sched.old.threads t) ≡ Place.Running }
    requires memory { IsSpare request spare locks.old }
    ensures serves { ServesRequest t request sched.old locks.old result sched.new locks.new }
    ensures bare { IsBare result }
{
    match request {
        LockReq::Rendezvous { tag, value } => meet(sched, locks, t, tag, value),
        LockReq::Lock { k } => take(sched, locks, Sort::Lock, t, k),
        LockReq::CanLock { k } => try_take(sched, locks, Sort::Lock, t, k),
        LockReq::Unlock { k } => unlock(sched, locks, t, k, spare),
        LockReq::QLock { k } => take(sched, locks, Sort::QLock, t, k),
        LockReq::CanQLock { k } => try_take(sched, locks, Sort::QLock, t, k),
        LockReq::QUnlock { k } => give_up(sched, locks, Sort::QLock, t, k, spare),
        LockReq::RLock { k } => take(sched, locks, Sort::Read, t, k),
        LockReq::CanRLock { k } => try_take(sched, locks, Sort::Read, t, k),
        LockReq::RUnlock { k } => give_up(sched, locks, Sort::Read, t, k, spare),
        LockReq::WLock { k } => take(sched, locks, Sort::Write, t, k),
        LockReq::CanWLock { k } => try_take(sched, locks, Sort::Write, t, k),
        LockReq::WUnlock { k } => give_up(sched, locks, Sort::Write, t, k, spare),
        LockReq::RSleep { k } => sleep(sched, locks, t, k, spare),
        LockReq::RWakeup { k } => wake_first(sched, locks, t, k),
        LockReq::RWakeupAll { k } => wake_sleepers(sched, locks, t, k),
        LockReq::IncRef { k } => raise(sched, locks, t, k),
        LockReq::DecRef { k } => lower(sched, locks, t, k),
    }
}
