ghost use Rattle.std.specs.Prelude.{◌≡◌, ◌==◌, ◌||◌, ◌∷◌, [], true, false, length, IfOk, OnOk};

use p9_word::{AltEntry, AltOp, NoMemory, Room, Seq, Slot};
use std::alloc::Global;
use std::marker::Model;
use std::mem;

/// Memory for one list of one entry, and maybe for another. Contracts see whether the first is there.
///
/// Where a value passes, two lists are done with: that of the caller, and that of the thread that waited.
#[derive(Drop)]
pub(crate) struct Lists {
    one: Option<Seq<AltEntry>>,
    other: Option<Seq<AltEntry>>,
    alloc: Global,
}

impl Model for Lists {
    ghost use Rattle.std.specs.Prelude.{Bool, ◌≡◌, IfSome, is_some, length};

    ghost Value = { Bool };

    ghost view = { λ l. is_some l.one };

    ghost invariant = { λ l. IfSome l.one (λ es. length es ≡ 1) × IfSome l.other (λ es. length es ≡ 1) };
}

/// A list of one entry, which is out of use.
#[inline(never)]
fn blank_list(alloc: Global) -> Result<Seq<AltEntry>, NoMemory>
    ensures { IfOk result (λ es. length es ≡ 1) }
{
    let mut room = Room::new(alloc);
    room.reserve(1)?;
    room.push(AltEntry {
        chan: 0,
        op: AltOp::Nop,
        err: true,
        slot: Slot::Null,
    });
    Ok(room.into_seq())
}

/// A list of one entry, with this one in its place.
fn list_of(mut list: Seq<AltEntry>, entry: AltEntry) -> Seq<AltEntry>
    requires { length list ≡ 1 }
    ensures { result ≡ entry ∷ [] }
{
    match list.get_mut(0) {
        Some(first) => {
            let _blank = mem::replace(first, entry);
        }
        None => unreachable!(),
    }
    list
}

impl Lists {
    /// None. It takes no memory.
    pub fn new(alloc: Global) -> Lists
        ensures { result ≡ false }
    {
        Lists {
            one: None,
            other: None,
            alloc,
        }
    }

    /// Takes the memory, if it isn't there: that of the other list, or new memory.
    #[inline(always)]
    pub fn reserve(&mut self) -> Result<(), NoMemory>
        ensures { OnOk result (self.new ≡ true) }
    {
        if self.one.is_some() {
            return Ok(());
        }
        if self.other.is_none() {
            self.other = Some(blank_list(self.alloc)?);
        }
        mem::swap(&mut self.one, &mut self.other);
        Ok(())
    }

    /// The list of this entry alone.
    pub fn take(&mut self, entry: AltEntry) -> Seq<AltEntry>
        requires { self.old ≡ true }
        ensures list { result ≡ entry ∷ [] }
        ensures taken { self.new ≡ false }
    {
        match self.one.take() {
            Some(list) => list_of(list, entry),
            None => unreachable!(),
        }
    }

    /// Keeps the memory of a list that is done with, if it has one entry and fewer than two are kept.
    pub fn keep(&mut self, list: Seq<AltEntry>)
        ensures { self.new ≡ (self.old || length list == 1) }
    {
        if list.len() != 1 {
            return;
        }
        if self.one.is_none() {
            self.one = Some(list);
        } else if self.other.is_none() {
            self.other = Some(list);
        }
    }
}
