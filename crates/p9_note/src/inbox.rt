ghost use Rattle.std.specs.Option.{option_copied};
ghost use Rattle.std.specs.Prelude.{◌≡◌, false, true, is_some, slice_get, OnErr, OnOk};
ghost use Rattle.p9_manual.specs.Notes.{removed, added};
ghost use Rattle.p9_note.specs.ProcNotes.{no_notes, with_room, is_done, if_done, after_notify, after_post, delivered, after_delivery, is_pending, cleared};

use crate::delivered::Delivered;
use crate::handler::{self, Handler};
use p9_word::limits::MOST_HANDLERS;
use p9_word::{Msg, NoMemory};
use std::alloc::Global;
use std::collections::VecDeque;
use std::marker::Model;

/// The handlers of one proc, in the order in which they were added, and its pending notes, the oldest first.
///
/// Only [`Inbox::reserve`] takes memory.
#[derive(Drop)]
pub(crate) struct Inbox {
    handlers: Vec<Handler>,
    pending: VecDeque<Msg>,
    room: bool,
}

impl Model for Inbox {
    ghost use Rattle.p9_note.specs.Kept.{shown, IsKept};
    ghost use Rattle.p9_note.specs.ProcNotes.{ProcNotes};

    ghost Value = { ProcNotes };

    ghost view = { shown };

    ghost invariant = { IsKept };
}

impl Inbox {
    /// No handler and no pending note. It takes no memory.
    pub fn new(alloc: Global) -> Inbox
        ensures { result ≡ no_notes }
    {
        Inbox {
            handlers: Vec::new(alloc),
            pending: VecDeque::new(alloc),
            room: false,
        }
    }

    /// Takes the memory for one more handler and one more note. A refusal changes nothing.
    pub fn reserve(&mut self) -> Result<(), NoMemory>
        ensures ok { OnOk result (self.new ≡ with_room self.old) }
        ensures err { OnErr result (self.new ≡ self.old) }
    {
        self.handlers.reserve(1)?;
        self.pending.reserve(1)?;
        self.room = true;
        Ok(())
    }

    /// Adds a handler last. It is false exactly where [`MOST_HANDLERS`] stand already, and then nothing changes.
    pub fn add(&mut self, id: u32, prefix: Msg) -> bool
        requires { self.old.room ≡ true }
        ensures done { result ≡ is_some (added id prefix self.old.handlers) }
        ensures after { self.new ≡ if_done true (added id prefix self.old.handlers) self.old }
    {
        if self.handlers.len() >= MOST_HANDLERS {
            return false;
        }
        self.handlers.push_reserved(Handler::new(id, prefix));
        self.room = false;
        true
    }

    /// Removes the first handler with this id. It is false exactly where none has it, and then nothing changes.
    pub fn remove(&mut self, id: u32) -> bool
        ensures done { result ≡ is_some (removed id self.old.handlers) }
        ensures after { self.new ≡ if_done false (removed id self.old.handlers) self.old }
    {
        match handler::place_of(&self.handlers, id) {
            Some(i) => {
                self.handlers.remove(i);
                true
            }
            None => false,
        }
    }

    /// Adds a handler, or removes one. It is false where that is refused, and then nothing changes.
    pub fn notify(&mut self, id: u32, prefix: Msg, on: bool) -> bool
        requires { on ≡ true → self.old.room ≡ true }
        ensures done { result ≡ is_done on id prefix self.old }
        ensures after { self.new ≡ after_notify on id prefix self.old }
    {
        if on {
            self.add(id, prefix)
        } else {
            self.remove(id)
        }
    }

    /// Puts a note last among the pending ones.
    pub fn post(&mut self, note: Msg)
        requires { self.old.room ≡ true }
        ensures { self.new ≡ after_post note self.old }
    {
        self.pending.push_back_reserved(note);
        self.room = false;
    }

    /// Takes the oldest pending note: the first handler whose prefix begins it catches it, or it kills. `Quiet` exactly
    /// where no note is pending.
    pub fn deliver(&mut self) -> Delivered
        ensures told { result ≡ delivered self.old }
        ensures after { self.new ≡ after_delivery self.old }
    {
        match self.pending.pop_front() {
            None => Delivered::Quiet,
            Some(note) => match handler::catcher(&self.handlers, note.as_slice()) {
                Some(id) => Delivered::Caught(id),
                None => Delivered::Died(note),
            },
        }
    }

    /// The oldest pending note. `None` exactly where no note is pending.
    pub fn oldest(&self) -> Option<&Msg>
        ensures { option_copied result ≡ slice_get self.now.pending 0 }
    {
        self.pending.front()
    }

    /// Whether a note is pending.
    pub fn is_pending(&self) -> bool
        ensures { result ≡ is_pending self.now }
    {
        !self.pending.is_empty()
    }

    /// Removes all pending notes.
    pub fn clear(&mut self)
        ensures { self.new ≡ cleared self.old }
    {
        self.pending.clear();
    }
}
