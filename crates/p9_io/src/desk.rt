ghost use Rattle.std.specs.Prelude.{◌≡◌, ◌≤◌, [], Some, IsSome, IfNone, IfSome, OnSome, OnOk, OnErr, true, false};
ghost use Rattle.p9_manual.specs.Ends.{let_go};
ghost use Rattle.p9_manual.specs.Effects.{message_length};
ghost use Rattle.p9_manual.specs.declared.state.Ioproc.TheVariants.{Idle, Unmade, Posted};
ghost use Rattle.p9_io.specs.Calls.{begun_call, finish_of, posted_call};
ghost use Rattle.p9_io.specs.Room.{begun, begun_room, call_length, call_room, posted_room, where_so, without_caller};

use crate::effects::{Finished, answer_of, fits};
use crate::ioprocs::{begun, let_go, room_needed, without_caller};
use p9_manual::{Gone, Ioproc};
use p9_word::{Effect, IoCall, NoMemory, Room, Tid};
use std::alloc::Global;
use std::mem;

/// An ioproc, with the buffers for the bytes of its call.
#[derive(Drop)]
pub(crate) struct Desk {
    /// The buffer of the begun call was not handed out yet.
    pub(crate) is_here: bool,
    /// There is memory for the call: the second buffer has room for it, and the first one too while it is posted.
    pub(crate) is_prepared: bool,
    /// The ioproc.
    pub(crate) ioproc: Ioproc,
    /// The buffer that is handed out for the bytes of a begun call.
    pub(crate) buffer: Room<u8>,
    /// The buffer for a copy of those bytes, if they can't be shared. It stays from call to call.
    pub(crate) second: Room<u8>,
    ghost empty: { buffer.items ≡ [] },
    ghost second_empty: { second.items ≡ [] },
    ghost here: { where_so is_here (begun_room ioproc) ≤ buffer.spare },
    ghost ready: { where_so is_prepared (posted_room ioproc) ≤ buffer.spare },
    ghost second_ready: { where_so is_prepared (call_room ioproc) ≤ second.spare },
    ghost short: { call_length ioproc ≤ 4294967295 },
}

impl Desk {
    /// The desk of an ioproc that is not made yet.
    pub(crate) fn new(alloc: Global) -> Desk
        ensures ioproc { result.ioproc ≡ Unmade }
        ensures here { result.is_here ≡ false }
        ensures prepared { result.is_prepared ≡ false }
    {
        Desk {
            is_here: false,
            is_prepared: false,
            ioproc: Ioproc::Unmade,
            buffer: Room::new(alloc),
            second: Room::new(alloc),
        }
    }

    /// Puts the ioproc where it has no call.
    pub(crate) fn rest(&mut self, ioproc: Ioproc)
        requires begun { begun_room ioproc ≡ 0 }
        requires posted { posted_room ioproc ≡ 0 }
        requires room { call_room ioproc ≡ 0 }
        requires short { call_length ioproc ≡ 0 }
        ensures ioproc { self.new.ioproc ≡ ioproc }
        ensures here { self.new.is_here ≡ self.old.is_here }
        ensures prepared { self.new.is_prepared ≡ self.old.is_prepared }
    {
        self.ioproc = ioproc;
    }

    /// Posts a call.
    pub(crate) fn post(&mut self, t: Tid, call: IoCall)
        requires { message_length call ≤ 4294967295 }
        ensures ioproc { self.new.ioproc ≡ Posted t call }
        ensures here { self.new.is_here ≡ self.old.is_here }
        ensures prepared { self.new.is_prepared ≡ false }
    {
        self.ioproc = Ioproc::Posted(t, call);
        self.is_prepared = false;
    }

    /// Takes the memory of the call, if there is one.
    pub(crate) fn prepare(&mut self) -> Result<(), NoMemory>
        ensures ioproc { self.new.ioproc ≡ self.old.ioproc }
        ensures here { self.new.is_here ≡ self.old.is_here }
        ensures ok { OnOk result (self.new.is_prepared ≡ true) }
        ensures err { OnErr result (self.new.is_prepared ≡ self.old.is_prepared) }
    {
        let room = room_needed(&self.ioproc);
        self.buffer.reserve(room)?;
        self.second.reserve(room)?;
        self.is_prepared = true;
        Ok(())
    }

    /// Begins the posted call. Its buffer is here where there was memory for it.
    pub(crate) fn take(&mut self)
        requires { IsSome (posted_call (Some self.old.ioproc)) }
        ensures ioproc { self.new.ioproc ≡ begun self.old.ioproc }
        ensures here { self.new.is_here ≡ self.old.is_prepared }
        ensures prepared { self.new.is_prepared ≡ self.old.is_prepared }
    {
        self.ioproc = begun(mem::replace(&mut self.ioproc, Ioproc::Idle));
        self.is_here = self.is_prepared;
    }

    /// Lets the thread that waits here go, if one does.
    pub(crate) fn interrupt(&mut self)
        ensures ioproc { self.new.ioproc ≡ without_caller self.old.ioproc }
        ensures here { self.new.is_here ≡ self.old.is_here }
        ensures prepared { self.new.is_prepared ≡ self.old.is_prepared }
    {
        self.ioproc = without_caller(mem::replace(&mut self.ioproc, Ioproc::Idle));
    }

    /// Ends the begun call with what it came to, if that fits.
    pub(crate) fn finish(&mut self, effect: &Effect, alloc: Global) -> Option<Finished>
        requires { IfSome (begun_call (Some self.old.ioproc)) (λ call. self.old.is_prepared ≡ true) }
        ensures finished { result ≡ finish_of effect.now (Some self.old.ioproc) }
        ensures some { OnSome result (self.new.ioproc ≡ Idle) }
        ensures none { IfNone result (self.new.ioproc ≡ self.old.ioproc) }
        ensures here { self.new.is_here ≡ self.old.is_here }
        ensures prepared { self.new.is_prepared ≡ self.old.is_prepared }
    {
        let caller = match &self.ioproc {
            Ioproc::Begun(caller, call) => {
                if !fits(call, effect) {
                    return None;
                }
                *caller
            }
            _ => return None,
        };
        let answer = answer_of(effect, &mut self.second, alloc);
        self.ioproc = Ioproc::Idle;
        Some(Finished { caller, answer })
    }

    /// Lets the threads that end go.
    pub(crate) fn let_go<E: Gone>(&mut self, ending: &E)
        ensures ioproc { self.new.ioproc ≡ let_go (E.ends ending.now) self.old.ioproc }
        ensures here { self.new.is_here ≡ self.old.is_here }
        ensures prepared { self.new.is_prepared ≡ self.old.is_prepared }
    {
        self.ioproc = let_go(mem::replace(&mut self.ioproc, Ioproc::Idle), ending);
    }

    /// Hands out the buffer of the begun call.
    pub(crate) fn lend(&mut self, alloc: Global) -> Room<u8>
        requires begun { IsSome (begun_call (Some self.old.ioproc)) }
        requires here { self.old.is_here ≡ true }
        ensures items { result.items ≡ [] }
        ensures spare { begun_room self.old.ioproc ≤ result.spare }
        ensures short { call_length self.old.ioproc ≤ 4294967295 }
        ensures ioproc { self.new.ioproc ≡ self.old.ioproc }
        ensures here { self.new.is_here ≡ false }
        ensures prepared { self.new.is_prepared ≡ self.old.is_prepared }
    {
        self.is_here = false;
        mem::replace(&mut self.buffer, Room::new(alloc))
    }
}
