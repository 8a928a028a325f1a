ghost use Rattle.std.specs.Prelude.{◌≡◌, ◌&&◌, ◌-◌, ◌≤◌, ◌<◌, ◌^◌, [], true, false, Some, None, slice_get, length, replicate, IfOk, OnOk, OnErr, IfSome, IsSome};
ghost use Rattle.p9_word.specs.Setup.{IsValid};
ghost use Rattle.p9_manual.specs.State.{changed};
ghost use Rattle.p9_manual.specs.Effects.{room_for, message_length};

use crate::board::{Board, begin_board};
use crate::entries::{enter, record};
use crate::halt::stops;
use crate::reserve::{Reserved, let_go, reserve_for};
use p9_laws::soundness::states_are_sound;
use p9_word::{Effect, Event, NoMemory, Reply, Room, Seat, Setup, Trail};
use std::alloc::Global;
use std::marker::Model;

/// For how many entries memory is taken at once, beside those of the begun calls.
const AHEAD: usize = 64;

/// The manual's machine: it does one event at a time, and keeps the trail.
///
/// Contracts see its setup, its entries, whether it was halted, the event that there is memory for, and which buffers are here.
#[derive(Drop)]
pub struct Machine {
    alloc: Global,
    board: Board,
    trail: Trail,
    halted: bool,
    reserved: Option<Reserved>,
}

impl Model for Machine {
    ghost use Rattle.p9_machine.specs.Shown.{Shown};

    ghost Value = { Shown };

    ghost use Rattle.p9_machine.specs.Kept.{IsKept, shown};

    ghost view = { shown };

    ghost invariant = { IsKept };
}

impl Machine {
    ghost use Rattle.p9_manual.specs.Halt.{stops};
    ghost use Rattle.p9_machine.specs.Shown.{reply_to, after_event, call_begun, is_told, IsReserved};
    ghost use Rattle.p9_manual.specs.History.{IsLegal, state_after};

    /// A machine that has done nothing yet.
    pub fn new(alloc: Global, setup: &Setup) -> Result<Machine, NoMemory>
        requires { IsValid setup.now }
        ensures { IfOk result
            (λ m. m ≡ record {
              setup = setup.now;
              entries = [];
              halted = false;
              reserved = None;
              rooms = replicate setup.now.files false;
            }) }
    {
        let board = begin_board(alloc, setup)?;
        let trail = Trail {
            procs: setup.procs,
            start: setup.start,
            entries: Room::new(alloc),
        };
        Ok(Machine {
            alloc,
            board,
            trail,
            halted: false,
            reserved: None,
        })
    }

    /// How many proc places there are.
    pub fn places(&self) -> u32
        ensures { result ≡ self.now.setup.places }
    {
        self.board.setup.places
    }

    /// How many files, and so ioprocs, there are. Each ioproc may have a buffer.
    pub fn files(&self) -> u32
        ensures files { result ≡ self.now.setup.files }
        ensures rooms { length self.now.rooms ≡ length (state_after self.now.setup self.now.entries).ioprocs }
    {
        let _places = self.board.io.files();
        self.board.setup.files
    }

    /// Takes all memory that an event needs, that of some later entries with it, and nothing else. For an `IoTake` that is also
    /// the memory of what the ioproc tells later.
    #[inline(always)]
    pub fn reserve(&mut self, seat: Seat, event: &Event) -> Result<(), NoMemory>
        ensures ok { OnOk result (self.new ≡ record self.old { reserved = Some (seat, event.now) }) }
        ensures err { OnErr result (self.new ≡ record self.old { reserved = None }) }
    {
        let_go(&mut self.reserved);
        let begun = self.board.io.begun_calls();
        if self.trail.entries.spare() < begun + 2 {
            self.trail.entries.reserve(begun + AHEAD)?;
        }
        reserve_for(&mut self.board, seat, event, self.alloc, &mut self.reserved)
    }

    /// Halts the machine, since memory was wanted. It makes no entry, and is for good. From then on the requests of a proc place, its
    /// `Next`, and the `IoTake` of an ioproc are told `Halted` and do nothing; what came of a call that had begun is recorded as
    /// before.
    pub fn halt(&mut self)
        ensures { self.new ≡ record self.old { halted = true } }
    {
        self.halted = true;
    }

    /// One event. There is memory for it, by the reserve before, or for what an ioproc tells since its
    /// call began.
    #[inline(always)]
    pub fn apply(&mut self, seat: Seat, event: Event) -> Reply
        requires { IsReserved seat event self.old.reserved }
        ensures reply { result ≡ reply_to self.old seat event }
        ensures machine { self.new ≡ after_event self.old seat event result }
    {
        if matches!(&event, Event::IoDid(_)) {
            self.did(seat, event)
        } else if self.halted && stops(&self.board.setup, seat, &event) {
            self.stop()
        } else {
            self.enter(seat, event)
        }
    }

    /// An event that a halted machine doesn't do: the memory that was taken for it is let go.
    #[cold]
    #[inline(never)]
    fn stop(&mut self) -> Reply
        ensures reply { result ≡ Reply.Halted }
        ensures machine { self.new ≡ record self.old { reserved = None } }
    {
        let_go(&mut self.reserved);
        Reply::Halted
    }

    #[inline(always)]
    fn enter(&mut self, seat: Seat, event: Event) -> Reply
        requires running { self.old.halted && stops self.old.setup seat event ≡ false }
        requires reserved { self.old.reserved ≡ Some (seat, event) }
        requires quiet { is_told event ≡ false }
        ensures reply { result ≡ reply_to self.old seat event }
        ensures machine { self.new ≡ after_event self.old seat event result }
    {
        states_are_sound(&self.board.setup, self.trail.entries.as_slice());
        enter(
            &mut self.board,
            &mut self.trail.entries,
            seat,
            event,
            &mut self.reserved,
        )
    }

    #[inline(never)]
    fn did(&mut self, seat: Seat, event: Event) -> Reply
        requires { is_told event ≡ true }
        ensures reply { result ≡ reply_to self.old seat event }
        ensures machine { self.new ≡ after_event self.old seat event result }
    {
        let Event::IoDid(effect) = event else {
            unreachable!();
        };
        let_go(&mut self.reserved);
        states_are_sound(&self.board.setup, self.trail.entries.as_slice());
        record(&mut self.board, &mut self.trail.entries, seat, effect)
    }

    /// Hands out the buffer of the call that ioproc k has begun, for the bytes that come of it.
    pub fn room(&mut self, k: u32) -> Room<u8>
        requires begun { IsSome (call_begun k self.old) }
        requires here { slice_get self.old.rooms (k - 1) ≡ Some true }
        ensures items { result.items ≡ [] }
        ensures spare { IfSome (call_begun k self.old) (λ call. room_for call ≤ result.spare) }
        ensures short { IfSome (call_begun k self.old) (λ call. message_length call < 2 ^ 32) }
        ensures machine { self.new ≡ record self.old { rooms = changed (λ _. false) self.old.rooms (k - 1) } }
    {
        self.board.io.lend(k)
    }

    /// All that happened.
    pub fn trail(&self) -> &Trail
        ensures entries { result.now.entries.items ≡ self.now.entries }
        ensures procs { result.now.procs ≡ self.now.setup.procs }
        ensures start { result.now.start ≡ self.now.setup.start }
        ensures legal { IsLegal self.now.setup self.now.entries }
    {
        &self.trail
    }

    /// All that happened, of a machine that is done with.
    pub fn into_trail(self) -> Trail
        ensures entries { result.entries.items ≡ self.entries }
        ensures procs { result.procs ≡ self.setup.procs }
        ensures start { result.start ≡ self.setup.start }
        ensures legal { IsLegal self.setup self.entries }
    {
        let Machine {
            alloc: _,
            board: _,
            trail,
            halted: _,
            reserved: _,
        } = self;
        trail
    }
}
