ghost use Rattle.std.specs.Prelude.{◌≡◌, ◌≤◌, ◌+◌, ◌∷◌, ◌++◌, ◌==◌, [], None, Some, not, false, true, length, MatchOption, OnOk, OnErr};
ghost use Rattle.p9_chan.specs.Channels.{IsMade, chan_of, elements_in, cap_in, elsize_in, is_closed_in, has_room_in, is_live_in, left_in, refilled, closed, freed, emptied, with_new};

use crate::stored::Stored;
use p9_manual::Element;
use p9_word::NoMemory;
use p9_word::limits::MOST_CHANNELS;
use std::alloc::Global;
use std::marker::Model;

/// The channels of a machine, by their ids from 1 on. thread(2).
///
/// A channel with a buffer has the ring of its elements from the start, so no call but [`Chans::reserve`] takes memory.
/// Each `c` that a call takes is a channel that was made, but that of [`Chans::is_live`].
#[derive(Drop)]
pub struct Chans {
    stored: Vec<Stored>,
    /// The next channel, where a reserve took its memory.
    next: Option<Stored>,
    alloc: Global,
}

impl Model for Chans {
    ghost use Rattle.p9_chan.specs.Channels.{Channels};
    ghost use Rattle.p9_chan.specs.Kept.{shown, IsKept};

    ghost Value = { Channels };

    ghost view = { shown };

    ghost invariant = { IsKept };
}

impl Chans {
    /// No channel yet. It takes no memory.
    pub fn new(alloc: Global) -> Chans
        ensures chans { result.chans ≡ [] }
        ensures room { result.room ≡ None }
    {
        Chans {
            stored: Vec::new(alloc),
            next: None,
            alloc,
        }
    }

    /// Takes the memory of one channel of this capacity, in place of that of an earlier reserve. `Err` where there is
    /// no memory, and then nothing changes.
    pub fn reserve(&mut self, cap: u32) -> Result<(), NoMemory>
        ensures chans { self.new.chans ≡ self.old.chans }
        ensures room { OnOk result (self.new.room ≡ Some cap) }
        ensures err { OnErr result (self.new ≡ self.old) }
    {
        let next = Stored::new(self.alloc, cap)?;
        if self.stored.len() < MOST_CHANNELS {
            self.stored.reserve(1)?;
        }
        self.next = Some(next);
        Ok(())
    }

    /// Makes a channel of this capacity, whose elements have at most so many bytes, in the memory that a reserve of
    /// this capacity took. The answer is its id; ids count from 1, and none is used again. `None` exactly where
    /// [`MOST_CHANNELS`] were made, and then nothing changes. chancreate in thread(2).
    pub fn make(&mut self, cap: u32, elsize: u32) -> Option<u32>
        requires { self.old.room ≡ Some cap }
        ensures made { MatchOption result ((MOST_CHANNELS ≤ length self.old.chans) × (self.new ≡ self.old))
            (λ id. (length self.old.chans + 1 ≤ MOST_CHANNELS) × (id ≡ length self.old.chans + 1)
            × (self.new ≡ with_new cap elsize self.old)) }
    {
        if MOST_CHANNELS <= self.stored.len() {
            return None;
        }
        match self.next.take() {
            None => unreachable!(),
            Some(mut stored) => {
                stored.set_elsize(elsize);
                self.stored.push_reserved(stored);
            }
        }
        Some(self.stored.len() as u32)
    }

    /// Puts an element at the back of channel c, which is neither full nor closed. send in thread(2).
    pub fn put(&mut self, c: u32, element: Element)
        requires made { IsMade c self.old }
        requires room { has_room_in (chan_of c self.old) ≡ true }
        requires open { is_closed_in (chan_of c self.old) ≡ false }
        ensures { self.new ≡ refilled c (elements_in (chan_of c self.old) ++ element ∷ []) self.old }
    {
        let stored = &mut self.stored[c as usize - 1];
        stored.put(element);
    }

    /// Takes the element at the front of channel c, also of a closed one. `None` exactly where it has none, and then
    /// nothing changes. recv in thread(2).
    pub fn take(&mut self, c: u32) -> Option<Element>
        requires { IsMade c self.old }
        ensures taken { MatchOption result ((elements_in (chan_of c self.old) ≡ []) × (self.new ≡ self.old))
            (λ x. (elements_in (chan_of c self.old) ≡ x ∷ elements_in (chan_of c self.new))
            × (self.new ≡ refilled c (elements_in (chan_of c self.new)) self.old)) }
        ensures within { length (elements_in (chan_of c self.old)) ≤ cap_in (chan_of c self.old) }
    {
        let stored = &mut self.stored[c as usize - 1];
        stored.take()
    }

    /// Whether channel c has as many elements as its capacity says. One of capacity 0 always has. thread(2).
    pub fn is_full(&self, c: u32) -> bool
        requires { IsMade c self.now }
        ensures { result ≡ not (has_room_in (chan_of c self.now)) }
    {
        self.stored[c as usize - 1].is_full()
    }

    /// Whether channel c has no element.
    pub fn is_empty(&self, c: u32) -> bool
        requires { IsMade c self.now }
        ensures { result ≡ (length (elements_in (chan_of c self.now)) == 0) }
    {
        self.stored[c as usize - 1].is_empty()
    }

    /// The most bytes of an element of channel c.
    pub fn elsize(&self, c: u32) -> u32
        requires { IsMade c self.now }
        ensures { result ≡ elsize_in (chan_of c self.now) }
    {
        self.stored[c as usize - 1].elsize()
    }

    /// How many elements channel c holds at most. One of capacity 0 holds none and hands each value over. thread(2).
    pub fn cap(&self, c: u32) -> u32
        requires { IsMade c self.now }
        ensures { result ≡ cap_in (chan_of c self.now) }
    {
        self.stored[c as usize - 1].cap()
    }

    /// Closes channel c, and its elements stay. It is true where the channel was open, and false exactly where it was
    /// closed already, and then nothing changes.
    pub fn close(&mut self, c: u32) -> bool
        requires { IsMade c self.old }
        ensures first { result ≡ not (is_closed_in (chan_of c self.old)) }
        ensures closed { self.new ≡ closed c self.old }
    {
        let stored = &mut self.stored[c as usize - 1];
        stored.close()
    }

    /// How many elements are left on channel c, which is closed. `None` exactly where it is open.
    pub fn closing(&self, c: u32) -> Option<u64>
        requires { IsMade c self.now }
        ensures { result ≡ left_in (chan_of c self.now) }
    {
        self.stored[c as usize - 1].closing()
    }

    /// Frees channel c: it is live no more. Its elements stay until [`Chans::drop_freed`]. chanfree in thread(2).
    pub fn free(&mut self, c: u32)
        requires { IsMade c self.old }
        ensures { self.new ≡ freed c self.old }
    {
        let stored = &mut self.stored[c as usize - 1];
        stored.free();
    }

    /// Whether there is such a channel, for any number: it was made and wasn't freed. False also for 0 and for a number
    /// past the last id.
    pub fn is_live(&self, c: u32) -> bool
        ensures live { result ≡ is_live_in (chan_of c self.now) }
        ensures made { result ≡ true → IsMade c self.now }
    {
        if c == 0 || self.stored.len() < c as usize {
            return false;
        }
        !self.stored[c as usize - 1].is_freed()
    }

    /// Gives up the elements of channel c, if it is freed. One that is live keeps them.
    pub fn drop_freed(&mut self, c: u32)
        requires { IsMade c self.old }
        ensures { self.new ≡ emptied c self.old }
    {
        let stored = &mut self.stored[c as usize - 1];
        stored.drop_freed();
    }
}
