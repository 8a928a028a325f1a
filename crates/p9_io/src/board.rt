ghost use Rattle.std.specs.Prelude.{◌≡◌, ◌==◌, ◌+◌, ◌-◌, ◌≤◌, ◌<◌, ◌^◌, [], Some, IsSome, IfOk, IfNone, IfSome, OnSome, OnOk, OnErr, is_some, length, slice_get, true};
ghost use Rattle.std.specs.Bool.{OnFalse, OnTrue};
ghost use Rattle.std.specs.List.{list_any};
ghost use Rattle.std.specs.Option.{option_copied};
ghost use Rattle.p9_manual.specs.Places.{has_call};
ghost use Rattle.p9_manual.specs.State.{by_id};
ghost use Rattle.p9_manual.specs.Effects.{room_for, message_length};
ghost use Rattle.p9_manual.specs.declared.state.Ioproc.TheVariants.{Idle, Closed, Posted};

use crate::desk::Desk;
use crate::desks;
use crate::effects::Finished;
use crate::io_state::IoState;
use crate::ioprocs::{call_at, caller_at, state_of};
use p9_manual::{Gone, Ioproc, One};
use p9_word::{Effect, IoCall, NoMemory, Room, Tid};
use std::alloc::Global;
use std::marker::Model;

/// The ioprocs of a run by their numbers, from 1 on, with the memory for their calls.
///
/// Contracts see the ioprocs; for each, whether the buffer of its begun call is still here, and whether there is memory
/// for its call: to begin, and for a copy of what comes of it. Only [`IoBoard::new`] and [`IoBoard::prepare`] take memory.
#[derive(Drop)]
pub struct IoBoard {
    alloc: Global,
    desks: Vec<Desk>,
    begun: usize,
}

impl Model for IoBoard {
    ghost use Rattle.p9_io.specs.Desks.{Desks};

    ghost Value = { Desks };

    ghost use Rattle.p9_io.specs.Kept.{IsKept, shown};

    ghost view = { shown };

    ghost invariant = { IsKept };
}

impl IoBoard {
    ghost use Rattle.p9_manual.specs.Ends.{ended, ended_where};
    ghost use Rattle.p9_manual.specs.Ioprocs.{with_ioproc as state_with_ioproc};
    ghost use Rattle.p9_io.specs.Calls.{begun_call, begun_count, call_at, caller_at, finish_of, is_unmade, posted_call, state_of, waits_at};
    ghost use Rattle.p9_io.specs.Desks.{begin_desks, with_ioproc, posted, prepared, with_begun, interrupted, without, lent};
    ghost use Rattle.p9_io.specs.Stands.{HasCopies, Tracks, state_begun, state_interrupted};

    /// So many ioprocs, none of which is made.
    #[tactic(auto, using(crate::proofs::Ready::copies_begin))]
    pub fn new(alloc: Global, files: u32) -> Result<IoBoard, NoMemory>
        ensures board { IfOk result (λ b. b ≡ begin_desks files) }
        ensures copies { IfOk result (λ b. HasCopies b) }
    {
        let desks = desks::new_desks(alloc, files)?;
        Ok(IoBoard {
            alloc,
            desks,
            begun: 0,
        })
    }

    /// How many ioprocs there are, made or not.
    pub fn files(&self) -> usize
        ensures ioprocs { result ≡ length self.now.ioprocs }
        ensures rooms { result ≡ length self.now.rooms }
        ensures prepared { result ≡ length self.now.prepared }
    {
        self.desks.len()
    }

    /// The ioproc with this number, or `None` where there is none.
    pub fn ioproc(&self, k: u32) -> Option<&Ioproc>
        ensures { option_copied result ≡ by_id self.now.ioprocs k }
    {
        desks::find(&self.desks, k)
    }

    /// How this ioproc stands: unmade also where there is none.
    pub fn state(&self, k: u32) -> IoState
        ensures { result ≡ state_of (by_id self.now.ioprocs k) }
    {
        state_of(self.ioproc(k))
    }

    /// The call at this ioproc, posted or begun, or `None` where it has none.
    pub fn call(&self, k: u32) -> Option<&IoCall>
        ensures { option_copied result ≡ call_at (by_id self.now.ioprocs k) }
    {
        call_at(self.ioproc(k))
    }

    /// The thread that waits at this ioproc, or `None` where none does.
    pub fn caller(&self, k: u32) -> Option<Tid>
        ensures { result ≡ caller_at (by_id self.now.ioprocs k) }
    {
        caller_at(self.ioproc(k))
    }

    /// How many calls are begun. It costs the same however many ioprocs there are.
    pub fn begun_calls(&self) -> usize
        ensures calls { result ≡ begun_count self.now.ioprocs }
        ensures bound { result < 2 ^ 63 }
    {
        desks::at_most_all(&self.desks, self.begun)
    }

    /// Whether an ioproc has a call, posted or begun.
    pub fn has_call(&self) -> bool
        ensures { result ≡ list_any has_call self.now.ioprocs }
    {
        desks::any_has_call(&self.desks)
    }

    /// Makes this ioproc. It is false exactly where there is none with this number or it was made before, and then nothing
    /// changes.
    pub fn make(&mut self, k: u32) -> bool
        ensures made { result ≡ is_unmade (by_id self.old.ioprocs k) }
        ensures board { OnTrue result (self.new ≡ with_ioproc k Idle self.old) }
        ensures none { OnFalse result (self.new ≡ self.old) }
        ensures stands { OnTrue result (Tracks (state_with_ioproc k Idle) self.old self.new) }
        ensures calls { begun_count self.new.ioprocs ≡ begun_count self.old.ioprocs }
    {
        if !matches!(self.ioproc(k), Some(Ioproc::Unmade)) {
            return false;
        }
        desks::make(&mut self.desks, k);
        true
    }

    /// Closes an idle ioproc.
    pub fn close(&mut self, k: u32)
        requires { by_id self.old.ioprocs k ≡ Some Idle }
        ensures board { self.new ≡ with_ioproc k Closed self.old }
        ensures stands { Tracks (state_with_ioproc k Closed) self.old self.new }
        ensures calls { begun_count self.new.ioprocs ≡ begun_count self.old.ioprocs }
    {
        desks::close(&mut self.desks, k);
    }

    /// Posts a call of thread t at an idle ioproc. Its message has at most 4,294,967,295 bytes.
    pub fn post(&mut self, k: u32, t: Tid, call: IoCall)
        requires idle { by_id self.old.ioprocs k ≡ Some Idle }
        requires short { message_length call < 2 ^ 32 }
        ensures board { self.new ≡ posted k t call self.old }
        ensures stands { Tracks (state_with_ioproc k (Posted t call)) self.old self.new }
        ensures calls { begun_count self.new.ioprocs ≡ begun_count self.old.ioprocs }
    {
        desks::post(&mut self.desks, k, t, call);
    }

    /// Takes the memory that the call at an ioproc needs to begin, and for a copy of what comes of it, if there is one. Buffers
    /// of an earlier call that are still here serve again. A refusal changes nothing.
    pub fn prepare(&mut self, k: u32) -> Result<(), NoMemory>
        requires { IsSome (by_id self.old.ioprocs k) }
        ensures ok { OnOk result (self.new ≡ prepared k self.old) }
        ensures there { OnOk result (slice_get self.new.prepared (k - 1) ≡ Some true) }
        ensures err { OnErr result (self.new ≡ self.old) }
        ensures stands { Tracks (λ s. s) self.old self.new }
    {
        desks::prepare(&mut self.desks, k)
    }

    /// Begins the call that is posted at an ioproc, for [`IoBoard::call`] to give; its buffer is here exactly where there was
    /// memory for it. It is false exactly where no call is posted there, and then nothing changes.
    pub fn take(&mut self, k: u32) -> bool
        ensures taken { result ≡ is_some (posted_call (by_id self.old.ioprocs k)) }
        ensures board { self.new ≡ with_begun k (by_id self.old.ioprocs k) self.old }
        ensures here { OnTrue result (slice_get self.old.prepared (k - 1) ≡ Some true → slice_get self.new.rooms (k - 1) ≡ Some true) }
        ensures none { OnFalse result (self.new ≡ self.old) }
        ensures stands { slice_get self.old.prepared (k - 1) ≡ Some true
            → Tracks (state_begun k (by_id self.old.ioprocs k)) self.old self.new }
        ensures calls { OnTrue result (begun_count self.new.ioprocs ≡ begun_count self.old.ioprocs + 1) }
    {
        if !matches!(self.ioproc(k), Some(Ioproc::Posted(..))) {
            return false;
        }
        desks::take(&mut self.desks, k);
        self.begun += 1;
        true
    }

    /// Ends the call that an ioproc has begun, and gives the thread that waited for it: `None` exactly where its answer was
    /// dropped.
    pub fn did(&mut self, k: u32) -> Option<Tid>
        requires { IsSome (begun_call (by_id self.old.ioprocs k)) }
        ensures thread { result ≡ caller_at (by_id self.old.ioprocs k) }
        ensures board { self.new ≡ with_ioproc k Idle self.old }
        ensures stands { Tracks (state_with_ioproc k Idle) self.old self.new }
        ensures calls { begun_count self.new.ioprocs + 1 ≡ begun_count self.old.ioprocs }
    {
        let caller = self.caller(k);
        desks::free(&mut self.desks, k);
        self.begun -= 1;
        caller
    }

    /// Ends the call that an ioproc has begun with what it came to, and gives its answer and whom that is for; the bytes
    /// of the answer are a copy, in the memory that was taken for the call. `None` where no call is begun there or where this
    /// doesn't fit it, and then nothing changes.
    pub fn finish(&mut self, k: u32, effect: &Effect) -> Option<Finished>
        requires { IfSome (begun_call (by_id self.old.ioprocs k)) (λ call. slice_get self.old.prepared (k - 1) ≡ Some true) }
        ensures finished { result ≡ finish_of effect.now (by_id self.old.ioprocs k) }
        ensures some { OnSome result (self.new ≡ with_ioproc k Idle self.old) }
        ensures none { IfNone result (self.new ≡ self.old) }
        ensures stands { OnSome result (Tracks (state_with_ioproc k Idle) self.old self.new) }
        ensures calls { OnSome result (begun_count self.new.ioprocs + 1 ≡ begun_count self.old.ioprocs) }
    {
        let finished = desks::finish(&mut self.desks, k, effect, self.alloc)?;
        self.begun -= 1;
        Some(finished)
    }

    /// Lets the threads that end go, in one pass: a call that one of them posted is removed, and a begun one goes on for nobody.
    pub fn let_go<E: Gone>(&mut self, ending: &E)
        ensures board { self.new ≡ without (E.ends ending.now) self.old }
        ensures stands { Tracks (ended_where (E.ends ending.now)) self.old self.new }
        ensures calls { begun_count self.new.ioprocs ≡ begun_count self.old.ioprocs }
    {
        desks::let_go(&mut self.desks, ending);
    }

    /// Lets the thread that waits at an ioproc go, and gives it: its call is removed if it was only posted, and goes on for
    /// nobody if it had begun. `None` exactly where no thread waits there, and then nothing changes.
    pub fn interrupt(&mut self, k: u32) -> Option<Tid>
        ensures thread { result ≡ caller_at (by_id self.old.ioprocs k) }
        ensures board { self.new ≡ interrupted k (by_id self.old.ioprocs k) self.old }
        ensures none { IfNone result (self.new ≡ self.old) }
        ensures stands { Tracks (state_interrupted k (by_id self.old.ioprocs k)) self.old self.new }
        ensures calls { begun_count self.new.ioprocs ≡ begun_count self.old.ioprocs }
    {
        let t = self.caller(k)?;
        desks::interrupt(&mut self.desks, k);
        Some(t)
    }

    /// Lets this thread go: a call that it posted is removed, and a begun one goes on for nobody. It is false exactly where
    /// it waits at no ioproc, and then nothing changes.
    #[tactic(auto, using(crate::proofs::Ready::none_left))]
    pub fn leave(&mut self, t: Tid) -> bool
        ensures waits { result ≡ list_any (waits_at t) self.old.ioprocs }
        ensures board { self.new ≡ without (λ u. u == t) self.old }
        ensures none { OnFalse result (self.new ≡ self.old) }
        ensures stands { Tracks (ended t) self.old self.new }
        ensures calls { begun_count self.new.ioprocs ≡ begun_count self.old.ioprocs }
    {
        let waits = desks::any_waits(&self.desks, t);
        self.let_go(&One(t));
        waits
    }

    /// Hands out the buffer of the call that an ioproc has begun, for the bytes that come of it.
    #[tactic(auto, using(crate::proofs::Ready::tracks_lent))]
    pub fn lend(&mut self, k: u32) -> Room<u8>
        requires begun { IsSome (begun_call (by_id self.old.ioprocs k)) }
        requires here { slice_get self.old.rooms (k - 1) ≡ Some true }
        ensures items { result.items ≡ [] }
        ensures spare { IfSome (begun_call (by_id self.old.ioprocs k)) (λ call. room_for call ≤ result.spare) }
        ensures short { IfSome (begun_call (by_id self.old.ioprocs k)) (λ call. message_length call < 2 ^ 32) }
        ensures board { self.new ≡ lent k self.old }
        ensures stands { Tracks (λ s. s) self.old self.new }
    {
        desks::lend(&mut self.desks, k, self.alloc)
    }
}
