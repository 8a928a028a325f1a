ghost use Rattle.std.specs.Prelude.{◌≡◌, false};
ghost use Rattle.p9_manual.specs.State.{by_id};
ghost use Rattle.p9_manual.specs.Threads.{thread_call};
ghost use Rattle.p9_sched.specs.Messages.{IsOfReply};
ghost use Rattle.p9_sched.specs.Turns.{place_of};
ghost use Rattle.p9_thread_calls.specs.Memory.{HasMemory, message_of};
ghost use Rattle.p9_thread_calls.specs.Serves.{ServesAll, ServesRequest, ends_threads};

use crate::create::{create_proc, create_thread};
use crate::spares::Spare;
use crate::values::{
    give_way, join_group, set_name, set_proc_word, set_word, tell_group, tell_id, tell_name,
    tell_proc, tell_proc_word, tell_word,
};
use p9_sched::{Place, Sched};
use p9_word::{Reply, Setup, ThreadReq, Tid};

/// Each request by its own function.
fn asked(sched: &mut Sched, setup: &Setup, t: Tid, request: ThreadReq, spare: Spare) -> Reply
    requires runs { place_of (by_id sched.old.threads t) ≡ Place.Running }
    requires ends_none { ends_threads request ≡ false }
    requires memory { HasMemory request t sched.old spare }
    ensures serves { ServesRequest setup.now t request sched.old result sched.new }
    ensures told { IsOfReply result (message_of spare) }
{
    match request {
        ThreadReq::ThreadCreate { program, arg } => create_thread(sched, setup, t, program, arg),
        ThreadReq::ProcCreate { program, arg } => create_proc(sched, setup, t, program, arg),
        ThreadReq::ThreadExits { .. } => unreachable!(),
        ThreadReq::ThreadExitsAll { .. } => unreachable!(),
        ThreadReq::Yield => give_way(sched, t),
        ThreadReq::ThreadId => tell_id(sched, t),
        ThreadReq::ThreadPid { tid } => tell_proc(sched, t, tid),
        ThreadReq::ThreadGetGrp => tell_group(sched, t),
        ThreadReq::ThreadSetGrp { group } => join_group(sched, t, group),
        ThreadReq::ThreadSetName { name } => set_name(sched, t, name),
        ThreadReq::ThreadGetName => tell_name(sched, t, spare),
        ThreadReq::ThreadWord => tell_word(sched, t),
        ThreadReq::ThreadSetWord { word } => set_word(sched, t, word),
        ThreadReq::ProcWord => tell_proc_word(sched, t),
        ThreadReq::ProcSetWord { word } => set_proc_word(sched, t, word),
    }
}

/// A request on threads of thread t, which runs. `spare` is what [`reserve`](crate::reserve) gave for it.
pub fn call(sched: &mut Sched, setup: &Setup, t: Tid, request: ThreadReq, spare: Spare) -> Reply
    requires runs { place_of (by_id sched.old.threads t) ≡ Place.Running }
    requires ends_none { ends_threads request ≡ false }
    requires memory { HasMemory request t sched.old spare }
    ensures serves { ServesAll setup.now (thread_call setup.now t request) sched.old result sched.new }
    ensures told { IsOfReply result (message_of spare) }
{
    asked(sched, setup, t, request, spare)
}
