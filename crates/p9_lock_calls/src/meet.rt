ghost use Rattle.std.specs.Prelude.{◌≡◌, true};
ghost use Rattle.p9_word.specs.declared.request.LockReq.TheVariants as ask;
ghost use Rattle.p9_manual.specs.State.{by_id};
ghost use Rattle.p9_sched.specs.Messages.{IsBare};
ghost use Rattle.p9_sched.specs.Turns.{place_of};
ghost use Rattle.p9_lock_calls.specs.Serves.{ServesRequest, Stands};

use p9_lock::{Locks, Meet};
use p9_sched::{Place, Sched};
use p9_word::{Answer, Reply, Tid};

/// Rendezvous: the caller and a thread that waits with the same tag are told each other's values, or the caller waits.
pub(crate) fn meet(sched: &mut Sched, locks: &mut Locks, t: Tid, tag: u64, value: u64) -> Reply
    requires parts { Stands sched.old locks.old }
    requires runs { place_of (by_id sched.old.threads t) ≡ Place.Running }
    requires room { locks.old.room ≡ true }
    ensures serves { ServesRequest t (ask.Rendezvous tag value) sched.old locks.old result sched.new locks.new }
    ensures bare { IsBare result }
{
    match locks.meet(t, tag, value) {
        Meet::Met(u, theirs) => {
            sched.ready_holder(u, Answer::Met(value));
            Reply::Now(Answer::Met(theirs))
        }
        Meet::Waits => {
            sched.wait_holding(t);
            Reply::Waits
        }
    }
}
