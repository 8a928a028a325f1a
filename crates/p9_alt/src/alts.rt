ghost use Rattle.std.specs.Prelude.{◌≡◌, ◌==◌, ◌≤◌, ◌<◌, ◌∷◌, ◌++◌, [], None, not, false, true, length, map, count_by, All, OnOk};
ghost use Rattle.std.specs.List.{list_any, find};
ghost use Rattle.std.specs.Option.{option_map};
ghost use Rattle.std.specs.Borrow.{sem};
ghost use Rattle.p9_manual.specs.Alt.{unready};
ghost use Rattle.p9_manual.specs.Close.{all_failed};
ghost use Rattle.p9_manual.specs.AltEntries.{waits_on};
ghost use Rattle.p9_manual.specs.ReadyEntries.{fits, ready_entries};
ghost use Rattle.p9_chan.specs.Channels.{IsMade, chan_of, is_closed_in, emptied, freed};
ghost use Rattle.p9_alt.specs.Exchange.{others, HasMemory, NoSendOnClosed, IsIdle, AreBefore, offer_of, wake_of, chans_after, waits_after, pair_of, closed_on, shown_alt};
ghost use Rattle.p9_alt.specs.Offered.{caller, offered};
ghost use Rattle.p9_alt.specs.Passing.{AreUnmet, meets, nth_deal, IsDealt, IsLeft};
ghost use Rattle.p9_alt.specs.Withdrawn.{withdrawn, withdrawn_where};
ghost use Rattle.p9_alt.specs.For.{Tracks};
ghost use Rattle.p9_manual.specs.Ends.{off_waits};

use crate::answers::fail_all;
use crate::commit::{Done, Turn, commit};
use crate::entries::{entry_out, fits, is_closed_list};
use crate::lists::Lists;
use crate::offer::{Offer, Wake};
use crate::queue::{awaiting, is_awaited, thread_out};
use crate::ready::{most_zeros, ready_count, ready_from, ready_number, zeros_for};
use crate::side::Side;
use crate::zeros::Zeros;
use p9_chan::Chans;
use p9_manual::{Gone, Party};
use p9_word::limits::MOST_ENTRIES;
use p9_word::{AltEntry, Ending, NoMemory, Room, Seq, Tid};
use std::alloc::Global;
use std::marker::Model;

/// The threads that wait in an alt, in the order in which they came, and the channels.
///
/// send, recv and their kin are alts of one entry, whose answers have forms of their own: those are `single`.
#[derive(Drop)]
pub struct Alts {
    chans: Chans,
    waits: Vec<Party>,
    waiter: bool,
    lists: Lists,
    zeros: Zeros,
}

impl Model for Alts {
    ghost use Rattle.p9_alt.specs.Exchange.{Exchange};

    ghost Value = { Exchange };

    ghost use Rattle.p9_alt.specs.Kept.{shown, IsKept};

    ghost view = { shown };

    ghost invariant = { IsKept };
}

impl Alts {
    ghost use Rattle.p9_alt.specs.Lends.{lends_channels};

    /// No channel, and nobody waits. It takes no memory.
    pub fn new(alloc: Global) -> Alts
        ensures chans { result.channels.chans ≡ [] }
        ensures room { result.channels.room ≡ None }
        ensures waits { result.waits ≡ [] }
    {
        Alts {
            chans: Chans::new(alloc),
            waits: Vec::new(alloc),
            waiter: false,
            lists: Lists::new(alloc),
            zeros: Zeros::new(alloc),
        }
    }

    /// The channels.
    pub fn chans(&self) -> &Chans
        ensures { result.now ≡ self.now.channels }
    {
        &self.chans
    }

    /// The channels, to be made, freed or given up.
    pub fn chans_mut(&mut self) -> &mut Chans
        ensures* writes_back { sem 𝓛 (lends_channels self.entry result) }
        ensures value { result.now ≡ self.old.channels }
    {
        &mut self.chans
    }

    /// How many threads wait here.
    pub fn len(&self) -> usize
        ensures { result ≡ length self.now.waits }
    {
        self.waits.len()
    }

    /// Takes all the memory that one offer of these entries may need. A refusal changes nothing.
    pub fn reserve(&mut self, entries: &Seq<AltEntry>) -> Result<(), NoMemory>
        ensures channels { self.new.channels ≡ self.old.channels }
        ensures waits { self.new.waits ≡ self.old.waits }
        ensures memory { OnOk result (HasMemory entries.now self.new) }
    {
        let zeros = most_zeros(&self.chans, entries.as_slice());
        self.make_room(zeros)
    }

    /// Takes all the memory that an offer of this entry alone may need, and that of its list. A refusal changes nothing.
    #[inline(always)]
    pub fn reserve_one(&mut self, entry: &AltEntry) -> Result<(), NoMemory>
        ensures channels { self.new.channels ≡ self.old.channels }
        ensures waits { self.new.waits ≡ self.old.waits }
        ensures one { OnOk result (self.new.spare.one ≡ true) }
        ensures memory { OnOk result (HasMemory (entry.now ∷ []) self.new) }
    {
        self.lists.reserve()?;
        let zeros = zeros_for(&self.chans, entry);
        self.make_room(zeros)
    }

    /// Takes the memory for one more alt that waits, and for so many zeros.
    #[inline(always)]
    fn make_room(&mut self, zeros: u32) -> Result<(), NoMemory>
        ensures channels { self.new.channels ≡ self.old.channels }
        ensures waits { self.new.waits ≡ self.old.waits }
        ensures one { self.new.spare.one ≡ self.old.spare.one }
        ensures waiter { OnOk result (self.new.spare.waiter ≡ true) }
        ensures zeros { OnOk result (zeros ≤ self.new.spare.zeros) }
    {
        self.zeros.reserve(zeros)?;
        self.waits.reserve(1)?;
        self.waiter = true;
        Ok(())
    }

    /// The list of this entry alone, in the memory that a reserve took for it.
    pub fn one(&mut self, entry: AltEntry) -> Seq<AltEntry>
        requires { self.old.spare.one ≡ true }
        ensures list { result ≡ entry ∷ [] }
        ensures rest { self.new ≡ record self.old { spare = record self.old.spare { one = false } } }
    {
        self.lists.take(entry)
    }

    /// Whether these entries may be asked for: there are at most [`MOST_ENTRIES`], each slot goes with its op, and each
    /// entry in use names a channel that is live and gives no more bytes than an element has.
    pub fn fits(&self, entries: &Seq<AltEntry>) -> bool
        ensures { result ≡ fits self.now.channels.chans entries.now }
    {
        fits(&self.chans, entries.as_slice())
    }

    /// How many of these entries of a thread are ready. It is never its own partner.
    pub fn ready_count(&self, tid: Tid, entries: &Seq<AltEntry>) -> u32
        requires { fits self.now.channels.chans entries.now ≡ true }
        ensures { result ≡ length (ready_entries self.now.channels.chans (others tid self.now.waits) entries.now) }
    {
        ready_count(&self.chans, &self.waits, tid, entries.as_slice())
    }

    /// An alt of a thread, whose call has this position in the trail. Of several ready entries the draw `w` chooses one, by
    /// its remainder. The thread that is woken, if one is, is put into `woken`.
    pub fn offer(
        &mut self,
        tid: Tid,
        at: u64,
        entries: Seq<AltEntry>,
        ending: Ending,
        single: bool,
        w: u32,
        woken: &mut Option<Wake>,
    ) -> Offer
        requires fits { fits self.old.channels.chans entries ≡ true }
        requires memory { HasMemory entries self.old }
        requires idle { IsIdle tid self.old }
        requires before { AreBefore at self.old }
        requires open { NoSendOnClosed self.old }
        ensures told { result ≡ offer_of (offered w (caller tid at entries single) ending self.old) }
        ensures woken { woken.new ≡ wake_of (offered w (caller tid at entries single) ending self.old) }
        ensures chans { self.new.channels.chans ≡ chans_after
            (offered w (caller tid at entries single) ending self.old) self.old.channels.chans }
        ensures waits { self.new.waits ≡ waits_after
            (offered w (caller tid at entries single) ending self.old) (caller tid at entries single) self.old.waits }
        ensures room { self.new.channels.room ≡ self.old.channels.room }
        ensures open { NoSendOnClosed self.new }
    {
        *woken = None;
        let me = Party {
            tid,
            at,
            single,
            entries,
        };
        if is_closed_list(me.entries.as_slice()) {
            return Offer::Closed;
        }
        let (ready, from) = ready_from(&self.chans, &self.waits, me.tid, me.entries.as_slice());
        if ready == 0 {
            return self.unready(me, ending);
        }
        let done = self.go_on(me, w % ready, from);
        *woken = done.woken;
        Offer::Done(done.answer)
    }

    /// Of the caller's ready entries the one with this number goes on. They meet nobody who waits before `from`.
    fn go_on(&mut self, mut me: Party, n: u32, from: usize) -> Done
        requires idle { IsIdle me.tid self.old }
        requires fits { fits self.old.channels.chans me.entries ≡ true }
        requires zeros { HasMemory me.entries self.old }
        requires within { n < length (ready_entries self.old.channels.chans self.old.waits me.entries) }
        requires before { All (λ e. AreUnmet (meets e.op e.chan) from self.old.waits) me.entries }
        requires open { NoSendOnClosed self.old }
        ensures dealt { IsDealt (nth_deal me n self.old) result }
        ensures left { IsLeft (nth_deal me n self.old) self.old.waits self.new.channels.chans self.new.waits }
        ensures room { self.new.channels.room ≡ self.old.channels.room }
        ensures open { NoSendOnClosed self.new }
    {
        let i = ready_number(&self.chans, &self.waits, me.tid, me.entries.as_slice(), n);
        let turn = Turn {
            at: me.at,
            single: me.single,
            i: i as u32,
            from,
        };
        let entry = entry_out(&mut me.entries, i);
        self.lists.keep(me.entries);
        commit(
            &mut self.chans,
            &mut self.waits,
            &mut self.zeros,
            &mut self.lists,
            turn,
            entry,
        )
    }

    /// No entry is ready: the thread waits, unless its list doesn't block.
    fn unready(&mut self, me: Party, ending: Ending) -> Offer
        requires waiter { self.old.spare.waiter ≡ true }
        requires few { length me.entries ≤ MOST_ENTRIES }
        requires idle { IsIdle me.tid self.old }
        ensures told { result ≡ offer_of (unready ending) }
        ensures channels { self.new.channels ≡ self.old.channels }
        ensures waits { self.new.waits ≡ waits_after (unready ending) me self.old.waits }
    {
        match ending {
            Ending::NoBlk => Offer::NoBlock,
            Ending::End => {
                self.waits.push_reserved(me);
                self.waiter = false;
                Offer::Waits
            }
        }
    }

    /// Closes channel c, and puts each thread that waits on it last into `woken`, with its answer. It is false exactly
    /// where the channel was closed already, and then nothing changes.
    pub fn close(&mut self, c: u32, woken: &mut Room<Wake>) -> bool
        requires made { IsMade c self.old.channels }
        requires spare { count_by (waits_on c) self.old.waits ≤ woken.old.spare }
        ensures first { result ≡ not (is_closed_in (chan_of c self.old.channels)) }
        ensures again { result ≡ false → (self.new ≡ self.old) × (woken.new ≡ woken.old) }
        ensures closed { result ≡ true → self.new ≡ closed_on c self.old }
        ensures woken { result ≡ true → map pair_of woken.new.items ≡ map pair_of woken.old.items ++ all_failed c self.old.waits }
    {
        if self.chans.closing(c).is_some() {
            return false;
        }
        self.chans.close(c);
        fail_all(&self.waits, c, woken);
        self.waits.retain(|w| !Side::Either.is_in(c, w));
        true
    }

    /// Frees channel c. Its elements go at once, also where threads wait on it: no request can reach them any more.
    /// chanfree in thread(2).
    pub fn free(&mut self, c: u32)
        requires { IsMade c self.old.channels }
        ensures { self.new ≡ record self.old { channels = emptied c (freed c self.old.channels) } }
    {
        self.chans.free(c);
        self.chans.drop_freed(c);
    }

    /// How many threads wait on channel c.
    pub fn awaiting(&self, c: u32) -> usize
        ensures { result ≡ count_by (waits_on c) self.now.waits }
    {
        awaiting(&self.waits, Side::Either, c)
    }

    /// A thread's alt leaves the waits with all its entries, and nobody is woken. It is false exactly where the thread doesn't
    /// wait here, and then nothing changes.
    pub fn withdraw(&mut self, tid: Tid) -> bool
        ensures waited { result ≡ list_any (λ w. w.tid == tid) self.old.waits }
        ensures after { self.new ≡ withdrawn tid self.old }
        ensures stays { result ≡ false → self.new ≡ self.old }
        ensures stands { Tracks (off_waits (λ t. t == tid)) self.old self.new }
    {
        match thread_out(&mut self.waits, tid) {
            Some(w) => {
                self.lists.keep(w.entries);
                true
            }
            None => false,
        }
    }

    /// The alts of the threads that end leave the waits, in one pass, and nobody is woken.
    pub fn withdraw_where<E: Gone>(&mut self, ending: &E)
        ensures after { self.new ≡ withdrawn_where (E.ends ending.now) self.old }
        ensures stands { Tracks (off_waits (E.ends ending.now)) self.old self.new }
    {
        self.waits.retain(|w| !ending.has(w.tid));
    }

    /// Whether a thread that waits has an entry on channel c.
    pub fn is_awaited(&self, c: u32) -> bool
        ensures { result ≡ list_any (waits_on c) self.now.waits }
    {
        is_awaited(&self.waits, Side::Either, c)
    }

    /// The alt in which a thread waits: its entries, and whether it is single. `None` exactly where it doesn't wait here.
    pub fn waiting(&self, tid: Tid) -> Option<(&Seq<AltEntry>, bool)>
        ensures { option_map (λ a. (a.0.now, a.1)) result ≡ shown_alt (find (λ w. w.tid == tid) self.now.waits) }
    {
        let w = self.waits.iter().find(|w| w.tid == tid)?;
        Some((&w.entries, w.single))
    }
}
