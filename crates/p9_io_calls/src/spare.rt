ghost use Rattle.std.specs.Prelude.{◌≡◌, ◌-◌, slice_get, IfOk, OnOk, OnErr};
ghost use Rattle.p9_manual.specs.State.{by_id};
ghost use Rattle.p9_io.specs.Stands.{Tracks};
ghost use Rattle.p9_io_calls.specs.Needs.{IsSpare, with_memory};

use p9_io::IoBoard;
use p9_manual::Ioproc;
use p9_word::{Datum, IoCall, NoMemory};
use std::alloc::Global;

/// What an ioproc needs to take its call, beside the buffers that stand ready at its desk.
#[derive(Drop)]
pub enum Spare {
    /// Nothing: no call is posted there.
    Nothing,
    /// A copy of the call that is posted there, for the reply.
    Copy(IoCall),
}

/// Takes the memory that ioproc k needs to take its call, and of what it tells later. A refusal changes nothing. The
/// requests on ioprocs, and what an ioproc tells, need no memory.
pub fn reserve(io: &mut IoBoard, k: u32, alloc: Global) -> Result<Spare, NoMemory>
    ensures spare { IfOk result (IsSpare (by_id io.new.ioprocs k) (slice_get io.new.prepared (k - 1))) }
    ensures ok { OnOk result (io.new ≡ with_memory k (by_id io.old.ioprocs k) io.old) }
    ensures err { OnErr result (io.new ≡ io.old) }
    ensures ioprocs { io.new.ioprocs ≡ io.old.ioprocs }
    ensures rooms { io.new.rooms ≡ io.old.rooms }
    ensures stands { Tracks (λ s. s) io.old io.new }
{
    let Some(Ioproc::Posted(_, call)) = io.ioproc(k) else {
        return Ok(Spare::Nothing);
    };
    let copy = call.copied(alloc)?;
    io.prepare(k)?;
    Ok(Spare::Copy(copy))
}
