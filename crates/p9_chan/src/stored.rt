ghost use Rattle.std.specs.Prelude.{◌≡◌, ◌≤◌, ◌∷◌, ◌++◌, ◌==◌, [], Some, None, if◌then◌else◌, not, true, length, MatchOption, IfOk};
ghost use Rattle.p9_manual.specs.Chans.{empty_channel};
ghost use Rattle.p9_manual.specs.Close.{closed_chan, freed_chan};
ghost use Rattle.p9_manual.specs.Commit.{holding};
ghost use Rattle.p9_manual.specs.ReadyEntries.{has_room};
ghost use Rattle.p9_chan.specs.Channels.{emptied_chan};
ghost use Rattle.p9_chan.specs.Stored.{IsNewRing};

use circular_buffer::HeapCircularBuffer;
use p9_manual::Element;
use p9_word::NoMemory;
use std::alloc::Global;
use std::marker::Model;

/// A ring for so many elements. A channel of capacity 0 needs none.
fn new_ring(alloc: Global, cap: u32) -> Result<Option<HeapCircularBuffer<Element>>, NoMemory>
    ensures { IfOk result (IsNewRing cap) }
{
    if cap == 0 {
        return Ok(None);
    }
    let ring = HeapCircularBuffer::with_capacity(alloc, cap as usize)?;
    Ok(Some(ring))
}

/// A channel, with the ring of its elements.
///
/// Contracts see the manual's channel.
#[derive(Drop)]
pub(crate) struct Stored {
    cap: u32,
    elsize: u32,
    closed: bool,
    freed: bool,
    ring: Option<HeapCircularBuffer<Element>>,
}

impl Model for Stored {
    ghost use Rattle.p9_manual.specs.declared.state.Channel.{Channel};
    ghost use Rattle.p9_chan.specs.Stored.{channel_of, HasItsRing};

    ghost Value = { Channel };

    ghost view = { channel_of };

    ghost invariant = { HasItsRing };
}

impl Stored {
    /// An open channel without elements, with memory for as many as its capacity says.
    pub fn new(alloc: Global, cap: u32) -> Result<Stored, NoMemory>
        ensures { IfOk result (λ chan. chan ≡ empty_channel cap 0) }
    {
        let ring = new_ring(alloc, cap)?;
        Ok(Stored {
            cap,
            elsize: 0,
            closed: false,
            freed: false,
            ring,
        })
    }

    /// How many elements it holds.
    pub fn cap(&self) -> u32
        ensures { result ≡ self.now.cap }
    {
        self.cap
    }

    /// The most bytes of an element.
    pub fn elsize(&self) -> u32
        ensures { result ≡ self.now.elsize }
    {
        self.elsize
    }

    /// Sets the most bytes of an element.
    pub fn set_elsize(&mut self, elsize: u32)
        ensures { self.new ≡ record self.old { elsize = elsize } }
    {
        self.elsize = elsize;
    }

    /// Puts an element at the back. There is room for it.
    pub fn put(&mut self, element: Element)
        requires { has_room self.old ≡ true }
        ensures { self.new ≡ holding (self.old.elements ++ element ∷ []) self.old }
    {
        match &mut self.ring {
            None => unreachable!(),
            Some(ring) => match ring.try_push_back(element) {
                Ok(()) => {}
                Err(_element) => unreachable!(),
            },
        }
    }

    /// Takes the element at the front. `None` exactly where it has none, and then nothing changes.
    pub fn take(&mut self) -> Option<Element>
        ensures taken { MatchOption result ((self.old.elements ≡ []) × (self.new ≡ self.old))
            (λ x. (self.old.elements ≡ x ∷ self.new.elements) × (self.new ≡ holding self.new.elements self.old)) }
        ensures within { length self.old.elements ≤ self.old.cap }
    {
        match &mut self.ring {
            None => None,
            Some(ring) => ring.pop_front(),
        }
    }

    /// How many elements it has.
    pub fn len(&self) -> usize
        ensures { result ≡ length self.now.elements }
    {
        match &self.ring {
            None => 0,
            Some(ring) => ring.len(),
        }
    }

    /// Whether it has no element.
    pub fn is_empty(&self) -> bool
        ensures { result ≡ (length self.now.elements == 0) }
    {
        self.len() == 0
    }

    /// Whether it has as many elements as its capacity says. One of capacity 0 always has.
    pub fn is_full(&self) -> bool
        ensures { result ≡ not (has_room self.now) }
    {
        match &self.ring {
            None => true,
            Some(ring) => ring.is_full(),
        }
    }

    /// Closes it. It is false exactly where it was closed already, and then nothing changes.
    pub fn close(&mut self) -> bool
        ensures first { result ≡ not self.old.closed }
        ensures closed { self.new ≡ closed_chan self.old }
    {
        let first = !self.closed;
        self.closed = true;
        first
    }

    /// How many elements are left on it. `None` exactly where it is open.
    pub fn closing(&self) -> Option<u64>
        ensures { result ≡ (if self.now.closed then Some (length self.now.elements) else None) }
    {
        if self.closed {
            Some(self.len() as u64)
        } else {
            None
        }
    }

    /// Whether it was freed.
    pub fn is_freed(&self) -> bool
        ensures { result ≡ self.now.freed }
    {
        self.freed
    }

    /// Frees it. Its elements stay.
    pub fn free(&mut self)
        ensures { self.new ≡ freed_chan self.old }
    {
        self.freed = true;
    }

    /// Gives up its elements, if it is freed.
    pub fn drop_freed(&mut self)
        ensures { self.new ≡ emptied_chan self.old }
    {
        if !self.freed {
            return;
        }
        match &mut self.ring {
            None => {}
            // The ring keeps its block, since elements may still be put on a freed channel, and that takes no memory.
            Some(ring) => ring.clear(),
        }
    }
}
