ghost use Rattle.std.specs.Prelude.{◌≡◌, IfOk};
ghost use Rattle.p9_manual.specs.State.{by_id};
ghost use Rattle.p9_sched.specs.Schedule.{name_of};
ghost use Rattle.p9_sched.specs.Stands.{Tracks};
ghost use Rattle.p9_thread_calls.specs.Memory.{HasMemory, message_of};

use p9_sched::Sched;
use p9_word::{Msg, NoMemory, ThreadReq, Tid};
use std::alloc::Global;

/// What a request needs beside its own memory and the schedule's.
#[derive(Drop)]
pub enum Spare {
    /// Nothing.
    Nothing,
    /// A copy of the caller's name, which is told.
    Name(Msg),
}

impl Spare {
    /// A copy of the message that the request is told; without bytes where it is told none.
    pub fn message(&self) -> Result<Msg, NoMemory>
        ensures { IfOk result (λ message. message ≡ message_of self.now) }
    {
        match self {
            Spare::Nothing => Ok(Msg::new()),
            Spare::Name(name) => name.copy(),
        }
    }
}

/// A copy of the name of a thread; one that wasn't made has none.
fn name_of(sched: &Sched, t: Tid, alloc: Global) -> Result<Msg, NoMemory>
    ensures { IfOk result (λ name. name ≡ name_of (by_id sched.now.threads t)) }
{
    if sched.is_made(t) {
        Msg::from_slice(alloc, sched.name(t))
    } else {
        Ok(Msg::new())
    }
}

/// Takes the memory that a request of thread t needs: room in the schedule for what it makes or sets, or a copy of the
/// name that it is told. A refusal changes nothing.
pub fn reserve(
    sched: &mut Sched,
    t: Tid,
    request: &ThreadReq,
    alloc: Global,
) -> Result<Spare, NoMemory>
    ensures stays { sched.new ≡ record sched.old { rooms = sched.new.rooms } }
    ensures stands { Tracks (λ s. s) sched.old sched.new }
    ensures memory { IfOk result (HasMemory request.now t sched.new) }
{
    match request {
        ThreadReq::ThreadCreate { .. }
        | ThreadReq::ProcCreate { .. }
        | ThreadReq::ThreadSetGrp { .. }
        | ThreadReq::ThreadSetName { .. } => {
            sched.reserve()?;
            Ok(Spare::Nothing)
        }
        ThreadReq::ThreadGetName => Ok(Spare::Name(name_of(sched, t, alloc)?)),
        _ => Ok(Spare::Nothing),
    }
}
