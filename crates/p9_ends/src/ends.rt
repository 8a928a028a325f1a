ghost use Rattle.std.specs.Prelude.{◌≡◌, length};
ghost use Rattle.p9_manual.specs.Ends.{ended, off_waits, ended_where, proc_ended, all_ended};
ghost use Rattle.p9_manual.specs.NoteCalls.{with_proc};
ghost use Rattle.p9_manual.specs.State.{by_id};
ghost use Rattle.p9_alt.specs.For.{Tracks as AltTracks};
ghost use Rattle.p9_io.specs.Stands.{Tracks as IoTracks};
ghost use Rattle.p9_lock.specs.Stands.{Tracks as LockTracks};
ghost use Rattle.p9_note.specs.For.{Tracks as NoteTracks};
ghost use Rattle.p9_note.specs.ProcNotes.{IsPlace as IsNotePlace};
ghost use Rattle.p9_sched.specs.Schedule.{IsPlace};
ghost use Rattle.p9_sched.specs.Turns.{place_of};
ghost use Rattle.p9_sched.specs.declared.turns.Place.TheVariants.{Running};
ghost use Rattle.p9_ends.specs.Parts.{Ends, EndsAlone, KeepsCalls, living_quiet, quiet_if};

use crate::ending::All;
use p9_alt::Alts;
use p9_io::IoBoard;
use p9_lock::Locks;
use p9_manual::{Gone, One};
use p9_note::Notes;
use p9_sched::{OfProc, Sched};
use p9_word::Tid;

/// Ends thread t, which runs: so no alt and no lock has it among those that wait. With the last thread of its proc the notes that are
/// pending there are removed.
pub fn end_caller(sched: &mut Sched, io: &mut IoBoard, notes: &mut Notes, t: Tid)
    requires runs { place_of (by_id sched.old.threads t) ≡ Running }
    requires places { length notes.old ≡ length sched.old.lines }
    ensures ends { EndsAlone (ended t) sched.old io.old notes.old sched.new io.new notes.new }
    ensures calls { KeepsCalls io.old io.new }
{
    let p = sched.proc_of(t);
    sched.end(t);
    io.let_go(&One(t));
    clear_if(notes, p, sched.living(p) == 0);
}

/// Ends all threads of proc p, each part in one pass, and removes the notes that are pending there if one lived.
pub fn end_proc(
    sched: &mut Sched,
    alts: &mut Alts,
    locks: &mut Locks,
    io: &mut IoBoard,
    notes: &mut Notes,
    p: u32,
)
    requires place { IsPlace p sched.old }
    requires places { length notes.old ≡ length sched.old.lines }
    ensures ends { Ends (proc_ended p) sched.old alts.old locks.old io.old notes.old sched.new alts.new locks.new io.new notes.new }
    ensures calls { KeepsCalls io.old io.new }
{
    clear_if(notes, p, sched.living(p) != 0);
    let ending = OfProc {
        sched: &*sched,
        proc_no: p,
    };
    leave(alts, locks, io, &ending);
    sched.end_proc(p);
}

/// Ends all threads, and removes all notes that are pending where one lives.
pub fn end_all(
    sched: &mut Sched,
    alts: &mut Alts,
    locks: &mut Locks,
    io: &mut IoBoard,
    notes: &mut Notes,
)
    requires places { length notes.old ≡ length sched.old.lines }
    ensures ends { Ends all_ended sched.old alts.old locks.old io.old notes.old sched.new alts.new locks.new io.new notes.new }
    ensures calls { KeepsCalls io.old io.new }
{
    clear_living(sched, notes);
    leave(alts, locks, io, &All);
    sched.end_all();
}

/// The threads that end wait nowhere any more, and no ioproc keeps them.
fn leave<E: Gone>(alts: &mut Alts, locks: &mut Locks, io: &mut IoBoard, ending: &E)
    ensures alts { AltTracks (off_waits (E.ends ending.now)) alts.old alts.new }
    ensures locks { LockTracks (off_waits (E.ends ending.now)) locks.old locks.new }
    ensures io { IoTracks (ended_where (E.ends ending.now)) io.old io.new }
    ensures calls { KeepsCalls io.old io.new }
{
    alts.withdraw_where(ending);
    locks.leave_where(ending);
    io.let_go(ending);
}

/// Removes all notes that are pending in procs where a thread lives.
fn clear_living(sched: &Sched, notes: &mut Notes)
    requires places { length notes.old ≡ length sched.now.lines }
    ensures { NoteTracks (living_quiet sched.now.threads (length sched.now.lines)) notes.old notes.new }
{
    for i in 0..sched.places() {
        let p = i + 1;
        clear_if(notes, p, sched.living(p) != 0);
    }
}

/// Removes the notes that are pending in proc p, if it dies out.
fn clear_if(notes: &mut Notes, p: u32, dies: bool)
    requires { IsNotePlace p notes.old }
    ensures stands { NoteTracks (with_proc (quiet_if dies) p) notes.old notes.new }
    ensures count { length notes.new ≡ length notes.old }
{
    if dies {
        notes.clear(p);
    }
}
