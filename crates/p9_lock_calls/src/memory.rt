ghost use Rattle.std.specs.Prelude.{◌≡◌, IfOk};
ghost use Rattle.p9_lock_calls.specs.Spares.{HasRoom, IsSpare};

use p9_lock::Locks;
use p9_word::{LockReq, NoMemory, Room, Tid};
use std::alloc::Global;

/// The memory that one request needs beside that of the locks.
#[derive(Drop)]
pub enum Spare {
    /// None.
    Nothing,
    /// Room for the threads that are woken.
    Woken(Room<Tid>),
}

/// Room for all threads that wait. Where nobody does it takes no memory.
fn for_woken(locks: &Locks, alloc: Global) -> Result<Spare, NoMemory>
    ensures { IfOk result (λ spare. HasRoom spare locks.now) }
{
    let mut woken = Room::new(alloc);
    woken.reserve(locks.len())?;
    Ok(Spare::Woken(woken))
}

/// Takes the memory of a request on locks. A refusal changes nothing.
pub fn reserve(locks: &mut Locks, request: &LockReq, alloc: Global) -> Result<Spare, NoMemory>
    ensures stays { locks.new ≡ record locks.old { room = locks.new.room } }
    ensures memory { IfOk result (λ spare. IsSpare request.now spare locks.new) }
{
    match request {
        LockReq::Rendezvous { .. }
        | LockReq::Lock { .. }
        | LockReq::CanLock { .. }
        | LockReq::QLock { .. }
        | LockReq::CanQLock { .. }
        | LockReq::RLock { .. }
        | LockReq::CanRLock { .. }
        | LockReq::WLock { .. }
        | LockReq::CanWLock { .. } => {
            locks.reserve()?;
            Ok(Spare::Nothing)
        }
        LockReq::Unlock { .. }
        | LockReq::QUnlock { .. }
        | LockReq::RUnlock { .. }
        | LockReq::WUnlock { .. } => for_woken(locks, alloc),
        LockReq::RSleep { .. } => {
            locks.reserve()?;
            for_woken(locks, alloc)
        }
        LockReq::RWakeup { .. }
        | LockReq::RWakeupAll { .. }
        | LockReq::IncRef { .. }
        | LockReq::DecRef { .. } => Ok(Spare::Nothing),
    }
}
