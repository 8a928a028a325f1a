ghost use Rattle.std.specs.Prelude.{◌≡◌, ◌≤◌, true, false, None, length};
ghost use Rattle.p9_manual.specs.NoteCalls.{notify, post};
ghost use Rattle.p9_manual.specs.Notes.{is_no_note};
ghost use Rattle.p9_manual.specs.Places.{is_of};
ghost use Rattle.p9_manual.specs.State.{by_id};
ghost use Rattle.p9_alt.specs.Exchange.{Exchange};
ghost use Rattle.p9_lock.specs.Locking.{Locking};
ghost use Rattle.p9_lock.specs.Meetings.{meeting_of};
ghost use Rattle.p9_note.specs.ProcNotes.{IsPlace as IsNotePlace};
ghost use Rattle.p9_sched.specs.Holding.{is_held};
ghost use Rattle.p9_sched.specs.Messages.{IsBare};
ghost use Rattle.p9_sched.specs.Schedule.{IsPlace, proc_of};
ghost use Rattle.p9_sched.specs.Turns.{place_of};
ghost use Rattle.p9_signal_calls.specs.Affects.{WakesMeeting, is_alive_in};
ghost use Rattle.p9_signal_calls.specs.Memory.{HasRoom};
ghost use Rattle.p9_signal_calls.specs.Serves.{ServesAll, Stands};

use crate::interrupts::interrupt;
use p9_alt::Alts;
use p9_lock::Locks;
use p9_note::Notes;
use p9_sched::{OfProc, Place, Sched};
use p9_word::limits::MOST_NOTE_BYTES;
use p9_word::{Answer, Msg, Reply, Tid};

/// Whether the bytes are too many for a note, and for the prefix of a handler.
fn is_no_note(bytes: &Msg) -> bool
    ensures { result ≡ is_no_note bytes.now }
{
    bytes.as_slice().len() > MOST_NOTE_BYTES
}

/// Threadnotify: a handler of the caller's proc is added, or removed.
pub(crate) fn notify(
    sched: &Sched,
    notes: &mut Notes,
    t: Tid,
    on: bool,
    id: u32,
    prefix: Msg,
) -> Reply
    requires runs { place_of (by_id sched.now.threads t) ≡ Place.Running }
    requires place { IsNotePlace (proc_of (by_id sched.now.threads t)) notes.old }
    requires memory { HasRoom (proc_of (by_id sched.now.threads t)) notes.old }
    ensures serves { (alts : Exchange) (locks : Locking) → ServesAll (λ s. notify on id prefix s (by_id s.threads t))
        sched.now alts locks notes.old result sched.now alts locks notes.new }
    ensures bare { IsBare result }
{
    if is_no_note(&prefix) {
        return Reply::Now(Answer::Bad);
    }
    let done = notes.threadnotify(sched.proc_of(t), id, prefix, on);
    Reply::Now(Answer::Number(u64::from(done)))
}

/// Whether proc p is open and a thread of it lives.
fn is_alive(sched: &Sched, p: u32) -> bool
    requires { sched.now.opened ≤ length sched.now.lines }
    ensures { result ≡ is_alive_in p sched.now }
{
    if p == 0 {
        return false;
    }
    if p > sched.opened() {
        return false;
    }
    sched.living(p) > 0
}

/// The thread of proc p that waits in a rendezvous, if one does. No thread of a proc that isn't held does.
fn meeting_in(sched: &Sched, locks: &Locks, p: u32) -> Option<Tid>
    requires { IsPlace p sched.now }
    ensures held { is_held p sched.now ≡ true → result ≡ meeting_of (λ t. is_of p (by_id sched.now.threads t)) locks.now.waits }
    ensures not_held { is_held p sched.now ≡ false → result ≡ None }
{
    if !sched.is_held(p) {
        return None;
    }
    locks.meeting_of(&OfProc { sched, proc_no: p })
}

/// Interrupts the thread of proc p that waits in a rendezvous, if one does.
fn interrupt_meeting(sched: &mut Sched, alts: &mut Alts, locks: &mut Locks, p: u32)
    requires { IsPlace p sched.old }
    ensures { WakesMeeting p sched.old alts.old locks.old sched.new alts.new locks.new }
{
    let Some(t) = meeting_in(sched, locks, p) else {
        return;
    };
    interrupt(sched, alts, locks, t);
}

/// Postnote: the note is pending at proc p from now on, and the thread of it that waits in a rendezvous is interrupted.
pub(crate) fn post(
    sched: &mut Sched,
    alts: &mut Alts,
    locks: &mut Locks,
    notes: &mut Notes,
    p: u32,
    note: Msg,
) -> Reply
    requires parts { Stands sched.old alts.old locks.old notes.old }
    requires memory { HasRoom p notes.old }
    ensures serves { ServesAll (post p note) sched.old alts.old locks.old notes.old result sched.new alts.new locks.new notes.new }
    ensures bare { IsBare result }
{
    if is_no_note(&note) {
        return Reply::Now(Answer::Bad);
    }
    if !is_alive(sched, p) {
        return Reply::Now(Answer::Bad);
    }
    notes.post(p, note);
    interrupt_meeting(sched, alts, locks, p);
    Reply::Now(Answer::Done)
}
