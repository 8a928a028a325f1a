ghost use Rattle.std.specs.Prelude.{◌≡◌, position};
ghost use Rattle.p9_manual.specs.Notes.{catcher, catches, has_id};

use p9_word::Msg;
use std::marker::Model;

/// A handler of notes: its id, and the prefix of the notes that it catches.
#[derive(Drop)]
pub(crate) struct Handler {
    id: u32,
    prefix: Msg,
}

impl Model for Handler {
    ghost use Rattle.std.specs.Prelude.{List, ℕ};

    ghost Value = { ℕ × List ℕ };

    ghost view = { λ h. (h.id, h.prefix) };
}

impl Handler {
    /// A handler with this id and this prefix.
    pub fn new(id: u32, prefix: Msg) -> Handler
        ensures { result ≡ (id, prefix) }
    {
        Handler { id, prefix }
    }

    /// Its id.
    pub fn id(&self) -> u32
        ensures { result ≡ self.now.0 }
    {
        self.id
    }

    /// Whether it has this id.
    pub fn has_id(&self, id: u32) -> bool
        ensures { result ≡ has_id id self.now }
    {
        self.id == id
    }

    /// Whether its prefix begins the note.
    pub fn catches(&self, note: &[u8]) -> bool
        ensures { result ≡ catches note.now self.now }
    {
        note.starts_with(self.prefix.as_slice())
    }
}

/// Where the first handler with this id stands.
pub(crate) fn place_of(handlers: &[Handler], id: u32) -> Option<usize>
    ensures { result ≡ position (has_id id) handlers.now }
{
    handlers.iter().position(|h| h.has_id(id))
}

/// The id of the first handler whose prefix begins the note.
pub(crate) fn catcher(handlers: &[Handler], note: &[u8]) -> Option<u32>
    ensures { result ≡ catcher note.now handlers.now }
{
    let handler = handlers.iter().find(|h| h.catches(note))?;
    Some(handler.id())
}
