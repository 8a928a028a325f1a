ghost use Rattle.std.specs.Prelude.{◌≡◌, ◌+◌, ◌<◌, ◌≤◌, ◌∷◌, ◌++◌, [], false, map, length, replicate, IfOk, OnOk};
ghost use Rattle.p9_word.specs.Setup.{IsValid};
ghost use Rattle.p9_manual.specs.History.{begin_state, new_channel};
ghost use Rattle.p9_manual.specs.Draws.{generator_after};
ghost use Rattle.p9_alt.specs.For.{AltsFor};
ghost use Rattle.p9_io.specs.Calls.{begun_count};
ghost use Rattle.p9_io.specs.Stands.{IoFor};
ghost use Rattle.p9_lock.specs.Stands.{LocksFor};
ghost use Rattle.p9_note.specs.For.{NotesFor};
ghost use Rattle.p9_sched.specs.Schedule.{IsPlace};
ghost use Rattle.p9_sched.specs.Stands.{SchedFor};
ghost use Rattle.p9_machine.specs.Board.{Stands, calls_of};
ghost use Rattle.p9_machine.specs.Begin.{StandsFirst};

use p9_alt::Alts;
use p9_io::IoBoard;
use p9_lock::Locks;
use p9_note::Notes;
use p9_sched::Sched;
use p9_word::limits::{MOST_CHANNELS, MOST_THREADS};
use p9_word::{ChanSetup, Datum, NoMemory, Setup, ThreadSetup};
use rand_pcg::Pcg32;
use std::alloc::Global;

/// The parts of the machine.
#[derive(Drop)]
pub(crate) struct Board {
    /// What the run started from.
    pub(crate) setup: Setup,
    /// The threads and procs.
    pub(crate) sched: Sched,
    /// The threads that wait in alts, and the channels.
    pub(crate) alts: Alts,
    /// The locks.
    pub(crate) locks: Locks,
    /// The ioprocs with their buffers. Each has the thread that waits for its call.
    pub(crate) io: IoBoard,
    /// The handlers and the pending notes of the procs.
    pub(crate) notes: Notes,
    /// What makes the draws by which alts choose.
    pub(crate) generator: Pcg32,
    /// The position of the next entry of the trail.
    pub(crate) position: u64,
    /// The run is at its end.
    pub(crate) over: bool,
}

/// Makes a thread that stands at the start, last in the line.
fn add_first(sched: &mut Sched, setup: &ThreadSetup) -> Result<(), NoMemory>
    requires place { IsPlace setup.now.proc_no sched.old }
    requires few { length sched.old.threads < MOST_THREADS }
    ensures { OnOk result (StandsFirst setup.now sched.old sched.new) }
{
    let name = setup.name.copy()?;
    sched.reserve()?;
    if let Some(t) = sched.make_thread(setup.proc_no, setup.program, setup.arg, 0) {
        sched.set_name(t, name);
    }
    Ok(())
}

/// The threads and procs at the start.
fn begin_sched(alloc: Global, setup: &Setup) -> Result<Sched, NoMemory>
    requires { IsValid setup.now }
    ensures { IfOk result (λ s. SchedFor setup.now.places s (begin_state setup.now)) }
{
    let mut sched = Sched::new(alloc, setup.places, setup.opened)?;
    for thread in setup.threads.as_slice() {
        add_first(&mut sched, thread)?;
    }
    Ok(sched)
}

/// Makes a channel of the setup.
fn add_channel(alts: &mut Alts, setup: &ChanSetup) -> Result<(), NoMemory>
    requires { length alts.old.channels.chans + 1 ≤ MOST_CHANNELS }
    ensures chans { OnOk result (alts.new.channels.chans ≡ alts.old.channels.chans ++ new_channel setup.now ∷ []) }
    ensures waits { alts.new.waits ≡ alts.old.waits }
{
    let chans = alts.chans_mut();
    chans.reserve(setup.cap)?;
    let _made = chans.make(setup.cap, setup.elsize);
    Ok(())
}

/// These channels, and nobody waits.
fn begin_channels(alloc: Global, setups: &[ChanSetup]) -> Result<Alts, NoMemory>
    requires { length setups.now ≤ MOST_CHANNELS }
    ensures chans { IfOk result (λ a. a.channels.chans ≡ map new_channel setups.now) }
    ensures waits { IfOk result (λ a. a.waits ≡ []) }
{
    let mut alts = Alts::new(alloc);
    for c in setups {
        add_channel(&mut alts, c)?;
    }
    Ok(alts)
}

/// The channels at the start, and nobody waits.
fn begin_alts(alloc: Global, setup: &Setup) -> Result<Alts, NoMemory>
    requires { IsValid setup.now }
    ensures { IfOk result (λ a. AltsFor a (begin_state setup.now)) }
{
    begin_channels(alloc, setup.chans.as_slice())
}

/// The locks at the start, none of which is held.
fn begin_locks(alloc: Global, setup: &Setup) -> Result<Locks, NoMemory>
    ensures { IfOk result (λ l. LocksFor setup.now.rendezes l (begin_state setup.now)) }
{
    let (locks, qlocks, rwlocks) = (setup.locks, setup.qlocks, setup.rwlocks);
    Locks::new(alloc, locks, qlocks, rwlocks, &setup.rendezes, &setup.refs)
}

/// The ioprocs at the start, none of which is made.
#[tactic(auto, using(crate::proofs::Beginning::none_begun))]
fn begin_io(alloc: Global, setup: &Setup) -> Result<IoBoard, NoMemory>
    ensures ioprocs { IfOk result (λ d. IoFor d (begin_state setup.now)) }
    ensures rooms { IfOk result (λ d. d.rooms ≡ replicate setup.now.files false) }
    ensures calls { IfOk result (λ d. begun_count d.ioprocs ≡ 0) }
{
    IoBoard::new(alloc, setup.files)
}

/// The procs at the start, with no handler and no pending note.
#[tactic(auto, using(crate::proofs::Beginning::none_noted))]
fn begin_notes(alloc: Global, setup: &Setup) -> Result<Notes, NoMemory>
    ensures { IfOk result (λ n. NotesFor setup.now.places n (begin_state setup.now)) }
{
    Notes::new(alloc, setup.places)
}

/// What draws the words of the run, before the first one.
#[tactic(auto, using(crate::proofs::Beginning::none_drawn))]
fn begin_generator(setup: &Setup) -> Pcg32
    ensures { result ≡ generator_after setup.now.start 0 }
{
    Pcg32::new(setup.start, 54)
}

/// The board at the start, with each part as the setup says.
fn begin_parts(alloc: Global, setup: Setup) -> Result<Board, NoMemory>
    requires { IsValid setup }
    ensures board { IfOk result (λ b. Stands b (begin_state setup)) }
    ensures setup { IfOk result (λ b. b.setup ≡ setup) }
    ensures rooms { IfOk result (λ b. b.io.rooms ≡ replicate setup.files false) }
    ensures calls { IfOk result (λ b. calls_of b ≡ 0) }
{
    let sched = begin_sched(alloc, &setup)?;
    let alts = begin_alts(alloc, &setup)?;
    let locks = begin_locks(alloc, &setup)?;
    let io = begin_io(alloc, &setup)?;
    let notes = begin_notes(alloc, &setup)?;
    let generator = begin_generator(&setup);
    Ok(Board {
        setup,
        sched,
        alts,
        locks,
        io,
        notes,
        generator,
        position: 0,
        over: false,
    })
}

/// The board at the start, with a copy of the setup.
pub(crate) fn begin_board(alloc: Global, setup: &Setup) -> Result<Board, NoMemory>
    requires { IsValid setup.now }
    ensures board { IfOk result (λ b. Stands b (begin_state setup.now)) }
    ensures setup { IfOk result (λ b. b.setup ≡ setup.now) }
    ensures rooms { IfOk result (λ b. b.io.rooms ≡ replicate setup.now.files false) }
    ensures calls { IfOk result (λ b. calls_of b ≡ 0) }
{
    let copy = setup.copied(alloc)?;
    begin_parts(alloc, copy)
}
