ghost use Rattle.std.specs.Prelude.{◌≡◌, ◌&&◌, is_some};
ghost use Rattle.p9_manual.specs.Offers.{alternation};
ghost use Rattle.p9_manual.specs.Places.{is_marked};
ghost use Rattle.p9_manual.specs.Relinquish.{lock_relinquishes, relinquishes, thread_relinquishes};
ghost use Rattle.p9_manual.specs.State.{by_id};
ghost use Rattle.p9_sched.specs.Schedule.{IsMade};
ghost use Rattle.p9_machine.specs.Reserved.{request_of};

use crate::groups::Asked;
use p9_sched::Sched;
use p9_word::{ChanReq, LockReq, ThreadReq, Tid};

/// Whether a request on threads relinquishes the processor.
fn thread_relinquishes(request: &ThreadReq) -> bool
    ensures { result ≡ thread_relinquishes request.now }
{
    matches!(
        request,
        ThreadReq::ProcCreate { .. } | ThreadReq::ThreadExits { .. } | ThreadReq::Yield
    )
}

/// Whether a request on channels does: whether it is an alt, as send and recv are.
fn chan_relinquishes(request: &ChanReq) -> bool
    ensures { result ≡ is_some (alternation request.now) }
{
    !matches!(
        request,
        ChanReq::ChanCreate { .. }
            | ChanReq::ChanFree { .. }
            | ChanReq::ChanClose { .. }
            | ChanReq::ChanClosing { .. }
    )
}

/// Whether a request on locks does.
fn lock_relinquishes(request: &LockReq) -> bool
    ensures { result ≡ lock_relinquishes request.now }
{
    matches!(
        request,
        LockReq::QLock { .. }
            | LockReq::RLock { .. }
            | LockReq::WLock { .. }
            | LockReq::RSleep { .. }
    )
}

/// Whether a request relinquishes the processor, by its group.
fn relinquishes(asked: &Asked) -> bool
    ensures { result ≡ relinquishes (request_of asked.now) }
{
    match asked {
        Asked::Thread(request, _) => thread_relinquishes(request),
        Asked::Signal(_) => false,
        Asked::Chan(request, _) => chan_relinquishes(request),
        Asked::Lock(request, _) => lock_relinquishes(request),
        Asked::Io(_) => false,
    }
}

/// Whether thread t, which makes this request, ends there: it is marked to die, and the request relinquishes the processor.
pub(crate) fn is_doomed(sched: &Sched, t: Tid, asked: &Asked) -> bool
    requires { IsMade t sched.now }
    ensures { result ≡ (is_marked (by_id sched.now.threads t) && relinquishes (request_of asked.now)) }
{
    sched.is_marked(t) && relinquishes(asked)
}
