#![tactic(auto, unfolding(p9_manual::specs::Locks::lock_call))]

ghost use Rattle.std.specs.Prelude.{◌≡◌, ◌≤◌, ◌↔◌, IsTrue};
ghost use Rattle.p9_manual.specs.Refs.{greatest};
ghost use Rattle.p9_word.specs.declared.request.LockReq.TheVariants as ask;
ghost use Rattle.p9_sched.specs.Messages.{IsBare};
ghost use Rattle.p9_lock.specs.Locking.{IsRef};
ghost use Rattle.p9_lock_calls.specs.Serves.{ServesRequest};

use p9_lock::Locks;
use p9_sched::Sched;
use p9_word::{Answer, Reply, Tid};

/// Whether there is a Ref with this number.
fn is_ref(locks: &Locks, k: u32) -> bool
    ensures { IsTrue result ↔ IsRef k locks.now }
{
    1 <= k && k as usize <= locks.refs()
}

/// A number, which is no greater than the greatest value of a Ref.
fn number(value: u64) -> Reply
    ensures is { result ≡ Reply.Now (Answer.Number value) }
    ensures fits { value ≤ greatest }
{
    Reply::Now(Answer::Number(value))
}

/// Raises a Ref by 1.
pub(crate) fn raise(sched: &Sched, locks: &mut Locks, t: Tid, k: u32) -> Reply
    ensures serves { ServesRequest t (ask.IncRef k) sched.now locks.old result sched.now locks.new }
    ensures bare { IsBare result }
{
    let _ = sched;
    let _ = t;
    if !is_ref(locks, k) {
        return Reply::Now(Answer::Bad);
    }
    match locks.incref(k) {
        Some(value) => number(value),
        None => Reply::Now(Answer::Bad),
    }
}

/// Lowers a Ref by 1.
pub(crate) fn lower(sched: &Sched, locks: &mut Locks, t: Tid, k: u32) -> Reply
    ensures serves { ServesRequest t (ask.DecRef k) sched.now locks.old result sched.now locks.new }
    ensures bare { IsBare result }
{
    let _ = sched;
    let _ = t;
    if !is_ref(locks, k) {
        return Reply::Now(Answer::Bad);
    }
    match locks.decref(k) {
        Some(value) => Reply::Now(Answer::Number(value)),
        None => Reply::Now(Answer::Bad),
    }
}
