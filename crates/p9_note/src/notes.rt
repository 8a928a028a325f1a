ghost use Rattle.std.specs.Prelude.{ℕ, ◌≡◌, ◌↔◌, ◌-◌, true, replicate, slice_get, Some, IfOk, IsTrue, OnErr, OnOk};
ghost use Rattle.std.specs.List.{list_any};
ghost use Rattle.std.specs.Option.{option_copied};
ghost use Rattle.p9_manual.specs.Ends.{with_no_note};
ghost use Rattle.p9_manual.specs.NoteCalls.{has_note, next_note, notify_in, with_note, with_pending, with_proc};
ghost use Rattle.p9_manual.specs.Notes.{Delivery};
ghost use Rattle.p9_manual.specs.State.{State, by_id, changed};
ghost use Rattle.p9_note.specs.For.{NotesFor, Tracks};
ghost use Rattle.p9_note.specs.ProcNotes.{IsPlace, no_notes, notes_of, with_room, is_done, after_notify, after_post, delivered, after_delivery, is_pending, cleared, told};

use crate::delivered::Delivered;
use crate::inbox::Inbox;
use p9_word::{Msg, NoMemory};
use std::alloc::Global;
use std::marker::Model;

/// The handlers and the pending notes of the procs, by their numbers from 1 on.
///
/// Only [`Notes::new`] and [`Notes::reserve`] take memory. Each `p` that a call takes is one of the procs.
#[derive(Drop)]
pub struct Notes {
    procs: Vec<Inbox>,
}

impl Model for Notes {
    ghost use Rattle.std.specs.Prelude.{List};
    ghost use Rattle.p9_note.specs.ProcNotes.{ProcNotes};

    ghost Value = { List ProcNotes };

    ghost view = { λ s. s.procs.items };
}

impl Notes {
    /// So many procs, with no handler and no pending note.
    pub fn new(alloc: Global, places: u32) -> Result<Notes, NoMemory>
        ensures { IfOk result (λ x. x ≡ replicate places no_notes) }
    {
        let mut procs = Vec::new(alloc);
        for _ in 0..places {
            procs.push(Inbox::new(alloc))?;
        }
        Ok(Notes { procs })
    }

    /// Whether p is one of the procs.
    pub fn is_place(&self, p: u32) -> bool
        ensures { IsTrue result ↔ IsPlace p self.now }
    {
        0 < p && p as usize <= self.procs.len()
    }

    /// Takes the memory for one more handler and one more note of proc p. A refusal changes nothing.
    pub fn reserve(&mut self, p: u32) -> Result<(), NoMemory>
        requires { IsPlace p self.old }
        ensures ok { OnOk result (self.new ≡ changed with_room self.old (p - 1)) }
        ensures err { OnErr result (self.new ≡ self.old) }
        ensures stands { Tracks (λ s. s) self.old self.new }
    {
        let inbox = &mut self.procs[p as usize - 1];
        inbox.reserve()
    }

    /// With `on`, adds a handler of proc p last, in the memory that a reserve took: it is false exactly where `p9_word`'s
    /// `MOST_HANDLERS` stand already. Else removes the first handler of proc p with this id, whatever its prefix: it is
    /// false exactly where none has it. Where it is false, nothing changes. threadnotify in notify(2).
    pub fn threadnotify(&mut self, p: u32, id: u32, prefix: Msg, on: bool) -> bool
        requires place { IsPlace p self.old }
        requires room { on ≡ true → (notes_of p self.old).room ≡ true }
        ensures done { result ≡ is_done on id prefix (notes_of p self.old) }
        ensures after { self.new ≡ changed (after_notify on id prefix) self.old (p - 1) }
        ensures stands { Tracks (λ s. (notify_in p on id prefix s (by_id s.procs p)).state) self.old self.new }
    {
        let inbox = &mut self.procs[p as usize - 1];
        inbox.notify(id, prefix, on)
    }

    /// Puts a note last among the pending ones of proc p, in the memory that a reserve took. postnote in notify(2).
    pub fn post(&mut self, p: u32, note: Msg)
        requires place { IsPlace p self.old }
        requires room { (notes_of p self.old).room ≡ true }
        ensures after { self.new ≡ changed (after_post note) self.old (p - 1) }
        ensures stands { Tracks (with_proc (with_note note) p) self.old self.new }
    {
        let inbox = &mut self.procs[p as usize - 1];
        inbox.post(note);
    }

    /// Takes the oldest pending note of proc p: the first handler whose prefix begins it catches it, or it kills. `Quiet`
    /// exactly where no note is pending, and then nothing changes. notify(2).
    pub fn deliver(&mut self, p: u32) -> Delivered
        requires { IsPlace p self.old }
        ensures told { result ≡ delivered (notes_of p self.old) }
        ensures after { self.new ≡ changed after_delivery self.old (p - 1) }
        ensures quiet { result ≡ Delivered.Quiet → self.new ≡ self.old }
        ensures told_for { (places : ℕ) (s : State) → NotesFor places self.old s → result ≡ told (next_note p s) }
        ensures stands { (places : ℕ) (s : State) (d : Delivery) → NotesFor places self.old s → next_note p s ≡ Some d
            → NotesFor places self.new (with_proc (with_pending d.pending) p s) }
    {
        let inbox = &mut self.procs[p as usize - 1];
        inbox.deliver()
    }

    /// The oldest pending note of proc p. `None` exactly where no note is pending.
    pub fn oldest(&self, p: u32) -> Option<&Msg>
        requires { IsPlace p self.now }
        ensures { option_copied result ≡ slice_get (notes_of p self.now).pending 0 }
    {
        self.procs[p as usize - 1].oldest()
    }

    /// Whether a note of proc p is pending.
    pub fn is_pending(&self, p: u32) -> bool
        requires { IsPlace p self.now }
        ensures { result ≡ is_pending (notes_of p self.now) }
    {
        self.procs[p as usize - 1].is_pending()
    }

    /// Whether a note of any proc is pending.
    pub fn any_pending(&self) -> bool
        ensures any { result ≡ list_any is_pending self.now }
        ensures stands { (places : ℕ) (s : State) → NotesFor places self.now s → result ≡ list_any has_note s.procs }
    {
        any_pending(&self.procs)
    }

    /// Removes all pending notes of proc p.
    pub fn clear(&mut self, p: u32)
        requires { IsPlace p self.old }
        ensures after { self.new ≡ changed cleared self.old (p - 1) }
        ensures stands { Tracks (with_proc with_no_note p) self.old self.new }
    {
        let inbox = &mut self.procs[p as usize - 1];
        inbox.clear();
    }
}

/// Whether a note of any of these procs is pending.
fn any_pending(procs: &[Inbox]) -> bool
    ensures { result ≡ list_any is_pending procs.now }
{
    procs.iter().any(|inbox| inbox.is_pending())
}
