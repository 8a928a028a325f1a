ghost use Rattle.std.specs.Prelude.{◌≡◌, ◌==◌, ◌↔◌, ◌≤◌, ◌+◌, ◌++◌, None, false, true, length, is_some, IfNone, IfOk, IfSome, IsSome, IsTrue, OnErr, OnOk};
ghost use Rattle.std.specs.Option.{option_to_list};
ghost use Rattle.p9_manual.specs.Claims.{attempt, can_get, claim, has_lock, holder_of, rw_hold, with_hold};
ghost use Rattle.p9_manual.specs.Queues.{readers_in, readers_left, waits_for, without_first};
ghost use Rattle.p9_manual.specs.Refs.{greatest, with_ref as state_with_ref};
ghost use Rattle.p9_manual.specs.Rendez.{count_woken, sleep, sleepers, wakeup, wakeup_all};
ghost use Rattle.p9_manual.specs.Rendezvous.{partner, rendezvous};
ghost use Rattle.p9_manual.specs.State.{by_id};
ghost use Rattle.p9_manual.specs.Unlocks.{first_for, release};
ghost use Rattle.p9_lock.specs.Locking.{IsIdle, IsLock, IsRef, begin_locking, claimed, granted, left_by, left_where, meet_of, passed_on, qlock_of, slept, value_in, with_ref};
ghost use Rattle.p9_lock.specs.Stands.{Tracks};
ghost use Rattle.p9_manual.specs.Ends.{off_waits};
ghost use Rattle.p9_lock.specs.Waiting.{held_so, wait_of};

use crate::holders;
use crate::meet::Meet;
use crate::readers::RwLocks;
use crate::waits::Waits;
use p9_manual::{Gone, LockWait, Sort};
use p9_word::{NoMemory, Room, Seq, Tid};
use std::alloc::Global;
use std::marker::Model;

/// The locks, the Rendezes and the Refs by their numbers from 1 on, who holds them, and the threads that wait.
///
/// Only [`Locks::new`] and [`Locks::reserve`] take memory.
#[derive(Drop)]
pub struct Locks {
    locks: Vec<Option<Tid>>,
    qlocks: Vec<Option<Tid>>,
    rwlocks: RwLocks,
    rendezes: Vec<u32>,
    refs: Vec<u64>,
    pub(crate) waits: Waits,
}

impl Model for Locks {
    ghost use Rattle.p9_lock.specs.Locking.{Locking};

    ghost Value = { Locking };

    ghost use Rattle.p9_lock.specs.Shown.{shown, IsKept};

    ghost view = { shown };

    ghost invariant = { IsKept };
}

impl Locks {
    /// So many locks of each sort, which nobody holds, a Rendez on each of these QLocks, and Refs with these values.
    pub fn new(
        alloc: Global,
        locks: u32,
        qlocks: u32,
        rwlocks: u32,
        rendezes: &Seq<u32>,
        refs: &Seq<u64>,
    ) -> Result<Locks, NoMemory>
        ensures { IfOk result (λ x. x ≡ begin_locking locks qlocks rwlocks rendezes.now refs.now) }
    {
        Ok(Locks {
            locks: holders::unheld(alloc, locks)?,
            qlocks: holders::unheld(alloc, qlocks)?,
            rwlocks: RwLocks::new(alloc, rwlocks)?,
            rendezes: rendezes.as_slice().to_vec(alloc)?,
            refs: refs.as_slice().to_vec(alloc)?,
            waits: Waits::new(alloc),
        })
    }

    /// Takes the memory for one more thread that waits and one more reader. A refusal changes nothing.
    pub fn reserve(&mut self) -> Result<(), NoMemory>
        ensures ok { OnOk result (self.new ≡ record self.old { room = true }) }
        ensures err { OnErr result (self.new ≡ self.old) }
    {
        self.rwlocks.reserve(self.waits.len() + 1)?;
        self.waits.reserve()
    }

    /// How many Refs there are.
    pub fn refs(&self) -> usize
        ensures { result ≡ length self.now.holds.refs }
    {
        self.refs.len()
    }

    /// How many threads wait here.
    pub fn len(&self) -> usize
        ensures { result ≡ length self.now.waits }
    {
        self.waits.len()
    }

    /// Whether there is a lock of this sort with number k.
    pub fn is_lock(&self, s: Sort, k: u32) -> bool
        ensures { IsTrue result ↔ IsLock s k self.now }
    {
        match s {
            Sort::Lock => holders::is_there(&self.locks, k),
            Sort::QLock => holders::is_there(&self.qlocks, k),
            Sort::Read | Sort::Write => self.rwlocks.is_there(k),
        }
    }

    /// The QLock of Rendez r, or 0 where there is no such Rendez.
    pub fn qlock_of(&self, r: u32) -> u32
        ensures { result ≡ qlock_of r self.now }
    {
        if r == 0 {
            return 0;
        }
        match self.rendezes.get(r as usize - 1) {
            Some(q) => *q,
            None => 0,
        }
    }

    /// The one thread that holds lock k. `None` exactly where nobody does or readers do.
    pub fn holder(&self, s: Sort, k: u32) -> Option<Tid>
        requires { IsLock s k self.now }
        ensures { result ≡ holder_of s k self.now.holds }
    {
        match s {
            Sort::Lock => holders::holder_at(&self.locks, k),
            Sort::QLock => holders::holder_at(&self.qlocks, k),
            Sort::Read | Sort::Write => self.rwlocks.writer(k),
        }
    }

    /// Whether thread t holds lock k so.
    pub fn holds(&self, s: Sort, t: Tid, k: u32) -> bool
        requires { IsLock s k self.now }
        ensures { result ≡ has_lock s t k self.now.holds }
    {
        match s {
            Sort::Read => self.rwlocks.has_reader(t, k),
            Sort::Lock | Sort::QLock | Sort::Write => holders::is_thread(self.holder(s, k), t),
        }
    }

    /// Where thread t waits. `None` exactly where it waits at none.
    pub fn waits(&self, t: Tid) -> Option<LockWait>
        ensures { result ≡ wait_of t self.now.waits }
    {
        self.waits.wait_of(t)
    }

    /// Whether a thread that asks for lock k gets it at once.
    fn can_get(&self, s: Sort, k: u32) -> bool
        requires { IsLock s k self.now }
        ensures { result ≡ can_get s k self.now.holds self.now.waits }
    {
        match s {
            Sort::Lock => holders::is_free(&self.locks, k),
            Sort::QLock => holders::is_free(&self.qlocks, k),
            Sort::Read => self.rwlocks.writer(k).is_none() && !self.waits.has_queue(k),
            Sort::Write => self.rwlocks.writer(k).is_none() && !self.rwlocks.has_readers(k),
        }
    }

    /// Thread t gets lock k.
    fn give(&mut self, s: Sort, t: Tid, k: u32)
        requires there { IsLock s k self.old }
        requires room { self.old.room ≡ true }
        ensures { self.new ≡ record self.old { holds = with_hold s t k self.old.holds; room = false } }
    {
        self.waits.give_room_up();
        match s {
            Sort::Lock => holders::set_holder(&mut self.locks, k, Some(t)),
            Sort::QLock => holders::set_holder(&mut self.qlocks, k, Some(t)),
            Sort::Read => self.rwlocks.add_reader(k, t),
            Sort::Write => self.rwlocks.set_writer(k, Some(t)),
        }
    }

    /// Thread t gets lock k, or waits for it behind all others. Whether it got it.
    fn claim(&mut self, s: Sort, t: Tid, k: u32) -> bool
        requires there { IsLock s k self.old }
        requires room { self.old.room ≡ true }
        ensures got { result ≡ can_get s k self.old.holds self.old.waits }
        ensures after { self.new ≡ claimed (claim s t k self.old.holds self.old.waits) self.old }
    {
        if self.can_get(s, k) {
            self.give(s, t, k);
            return true;
        }
        self.waits.join(t, LockWait::Lock(s, k), 0);
        false
    }

    /// Thread t gets lock k, or nothing happens. Whether it got it.
    fn attempt(&mut self, s: Sort, t: Tid, k: u32) -> bool
        requires there { IsLock s k self.old }
        requires room { self.old.room ≡ true }
        ensures got { result ≡ can_get s k self.old.holds self.old.waits }
        ensures after { self.new ≡ claimed (attempt s t k self.old.holds self.old.waits) self.old }
    {
        if self.can_get(s, k) {
            self.give(s, t, k);
            return true;
        }
        self.waits.give_room_up();
        false
    }

    /// Thread t asks for Lock k. Whether it got it: else it waits. lock(2).
    pub fn lock(&mut self, t: Tid, k: u32) -> bool
        requires there { IsLock Sort.Lock k self.old }
        requires room { self.old.room ≡ true }
        requires idle { IsIdle t self.old }
        ensures got { result ≡ can_get Sort.Lock k self.old.holds self.old.waits }
        ensures after { self.new ≡ claimed (claim Sort.Lock t k self.old.holds self.old.waits) self.old }
    {
        self.claim(Sort::Lock, t, k)
    }

    /// Thread t asks for QLock k. Whether it got it: else it waits. lock(2).
    pub fn qlock(&mut self, t: Tid, k: u32) -> bool
        requires there { IsLock Sort.QLock k self.old }
        requires room { self.old.room ≡ true }
        requires idle { IsIdle t self.old }
        ensures got { result ≡ can_get Sort.QLock k self.old.holds self.old.waits }
        ensures after { self.new ≡ claimed (claim Sort.QLock t k self.old.holds self.old.waits) self.old }
    {
        self.claim(Sort::QLock, t, k)
    }

    /// Thread t asks to read RWLock k. Whether it got it: else it waits. lock(2).
    pub fn rlock(&mut self, t: Tid, k: u32) -> bool
        requires there { IsLock Sort.Read k self.old }
        requires room { self.old.room ≡ true }
        requires idle { IsIdle t self.old }
        ensures got { result ≡ can_get Sort.Read k self.old.holds self.old.waits }
        ensures after { self.new ≡ claimed (claim Sort.Read t k self.old.holds self.old.waits) self.old }
    {
        self.claim(Sort::Read, t, k)
    }

    /// Thread t asks to write RWLock k. Whether it got it: else it waits. lock(2).
    pub fn wlock(&mut self, t: Tid, k: u32) -> bool
        requires there { IsLock Sort.Write k self.old }
        requires room { self.old.room ≡ true }
        requires idle { IsIdle t self.old }
        ensures got { result ≡ can_get Sort.Write k self.old.holds self.old.waits }
        ensures after { self.new ≡ claimed (claim Sort.Write t k self.old.holds self.old.waits) self.old }
    {
        self.claim(Sort::Write, t, k)
    }

    /// Thread t gets Lock k where `lock` would give it at once, and never waits. Whether it got it. lock(2).
    pub fn canlock(&mut self, t: Tid, k: u32) -> bool
        requires there { IsLock Sort.Lock k self.old }
        requires room { self.old.room ≡ true }
        requires idle { IsIdle t self.old }
        ensures got { result ≡ can_get Sort.Lock k self.old.holds self.old.waits }
        ensures after { self.new ≡ claimed (attempt Sort.Lock t k self.old.holds self.old.waits) self.old }
    {
        self.attempt(Sort::Lock, t, k)
    }

    /// Thread t gets QLock k where `qlock` would give it at once, and never waits. Whether it got it. lock(2).
    pub fn canqlock(&mut self, t: Tid, k: u32) -> bool
        requires there { IsLock Sort.QLock k self.old }
        requires room { self.old.room ≡ true }
        requires idle { IsIdle t self.old }
        ensures got { result ≡ can_get Sort.QLock k self.old.holds self.old.waits }
        ensures after { self.new ≡ claimed (attempt Sort.QLock t k self.old.holds self.old.waits) self.old }
    {
        self.attempt(Sort::QLock, t, k)
    }

    /// Thread t gets to read RWLock k where `rlock` would let it at once, and never waits. Whether it got it. lock(2).
    pub fn canrlock(&mut self, t: Tid, k: u32) -> bool
        requires there { IsLock Sort.Read k self.old }
        requires room { self.old.room ≡ true }
        requires idle { IsIdle t self.old }
        ensures got { result ≡ can_get Sort.Read k self.old.holds self.old.waits }
        ensures after { self.new ≡ claimed (attempt Sort.Read t k self.old.holds self.old.waits) self.old }
    {
        self.attempt(Sort::Read, t, k)
    }

    /// Thread t gets to write RWLock k where `wlock` would let it at once, and never waits. Whether it got it. lock(2).
    pub fn canwlock(&mut self, t: Tid, k: u32) -> bool
        requires there { IsLock Sort.Write k self.old }
        requires room { self.old.room ≡ true }
        requires idle { IsIdle t self.old }
        ensures got { result ≡ can_get Sort.Write k self.old.holds self.old.waits }
        ensures after { self.new ≡ claimed (attempt Sort.Write t k self.old.holds self.old.waits) self.old }
    {
        self.attempt(Sort::Write, t, k)
    }

    /// Thread t gives Lock k up: the head of its queue gets it, and is put last into `woken`. lock(2).
    pub fn unlock(&mut self, t: Tid, k: u32, woken: &mut Room<Tid>)
        requires holds { has_lock Sort.Lock t k self.old.holds ≡ true }
        requires spare { length self.old.waits ≤ woken.old.spare }
        ensures after { self.new ≡ granted (release Sort.Lock t k self.old.holds self.old.waits) self.old }
        ensures woken { woken.new.items ≡ woken.old.items ++ (release Sort.Lock t k self.old.holds self.old.waits).granted }
        ensures spare { woken.new.spare + length (release Sort.Lock t k self.old.holds self.old.waits).granted ≡ woken.old.spare }
    {
        let next = next_out(&mut self.waits, LockWait::Lock(Sort::Lock, k), woken);
        holders::set_holder(&mut self.locks, k, next);
    }

    /// Thread t gives QLock k up: the head of its queue gets it, and is put last into `woken`. lock(2).
    pub fn qunlock(&mut self, t: Tid, k: u32, woken: &mut Room<Tid>)
        requires holds { has_lock Sort.QLock t k self.old.holds ≡ true }
        requires spare { length self.old.waits ≤ woken.old.spare }
        ensures after { self.new ≡ granted (release Sort.QLock t k self.old.holds self.old.waits) self.old }
        ensures woken { woken.new.items ≡ woken.old.items ++ (release Sort.QLock t k self.old.holds self.old.waits).granted }
        ensures spare { woken.new.spare + length (release Sort.QLock t k self.old.holds self.old.waits).granted ≡ woken.old.spare }
    {
        let next = next_out(&mut self.waits, LockWait::Lock(Sort::QLock, k), woken);
        holders::set_holder(&mut self.qlocks, k, next);
    }

    /// Thread t gives one of its holds of RWLock k as a reader up. Those who get the lock, where that was the last hold, are put
    /// last into `woken`, in the order of the queue. lock(2).
    pub fn runlock(&mut self, t: Tid, k: u32, woken: &mut Room<Tid>)
        requires holds { has_lock Sort.Read t k self.old.holds ≡ true }
        requires spare { length self.old.waits ≤ woken.old.spare }
        ensures after { self.new ≡ granted (release Sort.Read t k self.old.holds self.old.waits) self.old }
        ensures woken { woken.new.items ≡ woken.old.items ++ (release Sort.Read t k self.old.holds self.old.waits).granted }
        ensures spare { woken.new.spare + length (release Sort.Read t k self.old.holds self.old.waits).granted ≡ woken.old.spare }
    {
        self.rwlocks.remove_reader(k, t);
        if !self.rwlocks.has_readers(k) {
            self.pass_on(k, woken);
        }
    }

    /// Thread t gives RWLock k as its writer up. Those who get it are put last into `woken`, in the order of the queue. lock(2).
    pub fn wunlock(&mut self, t: Tid, k: u32, woken: &mut Room<Tid>)
        requires holds { has_lock Sort.Write t k self.old.holds ≡ true }
        requires spare { length self.old.waits ≤ woken.old.spare }
        ensures after { self.new ≡ granted (release Sort.Write t k self.old.holds self.old.waits) self.old }
        ensures woken { woken.new.items ≡ woken.old.items ++ (release Sort.Write t k self.old.holds self.old.waits).granted }
        ensures spare { woken.new.spare + length (release Sort.Write t k self.old.holds self.old.waits).granted ≡ woken.old.spare }
    {
        self.pass_on(k, woken);
    }

    /// Thread t gives the QLock of Rendez r up, as by `qunlock`, and sleeps there. lock(2).
    pub fn rsleep(&mut self, t: Tid, r: u32, woken: &mut Room<Tid>)
        requires holds { has_lock Sort.QLock t (qlock_of r self.old) self.old.holds ≡ true }
        requires room { self.old.room ≡ true }
        requires idle { IsIdle t self.old }
        requires spare { length self.old.waits ≤ woken.old.spare }
        ensures after { self.new ≡ slept (sleep t r (qlock_of r self.old) self.old.holds self.old.waits) self.old }
        ensures woken { woken.new.items ≡ woken.old.items ++ (sleep t r (qlock_of r self.old) self.old.holds self.old.waits).granted }
        ensures spare { woken.new.spare + length (sleep t r (qlock_of r self.old) self.old.holds self.old.waits).granted ≡ woken.old.spare }
    {
        let q = self.qlock_of(r);
        self.qunlock(t, q, woken);
        self.waits.join(t, LockWait::Sleep(r), 0);
    }

    /// The thread that has slept longest at Rendez r, if one does, waits for its QLock from now on, behind all others. How many
    /// were moved. lock(2).
    pub fn rwakeup(&mut self, r: u32) -> u32
        requires { IsSome (holder_of Sort.QLock (qlock_of r self.old) self.old.holds) }
        ensures moved { result ≡ count_woken r self.old.waits }
        ensures after { self.new ≡ record self.old { waits = wakeup r (qlock_of r self.old) self.old.waits } }
    {
        let q = self.qlock_of(r);
        u32::from(self.waits.wake(r, q))
    }

    /// All threads that sleep at Rendez r wait for its QLock from now on, behind all others and in order. How many were moved.
    /// lock(2).
    pub fn rwakeupall(&mut self, r: u32) -> u32
        requires { IsSome (holder_of Sort.QLock (qlock_of r self.old) self.old.holds) }
        ensures moved { result ≡ length (sleepers r self.old.waits) }
        ensures after { self.new ≡ record self.old { waits = wakeup_all r (qlock_of r self.old) self.old.waits } }
    {
        let q = self.qlock_of(r);
        self.waits.wake_all(r, q)
    }

    /// Thread t comes with a tag and a value. It meets the first thread that waits with the same tag, which waits no more; or it
    /// waits. rendezvous(2).
    pub fn meet(&mut self, t: Tid, tag: u64, value: u64) -> Meet
        requires room { self.old.room ≡ true }
        requires idle { IsIdle t self.old }
        ensures met { result ≡ meet_of (partner tag self.old.waits) }
        ensures after { self.new ≡ record self.old { waits = rendezvous t tag value self.old.waits; room = false } }
    {
        match self.waits.first_out(LockWait::Tag(tag)) {
            Some(w) => {
                self.waits.give_room_up();
                Meet::Met(w.tid, w.value)
            }
            None => {
                self.waits.join(t, LockWait::Tag(tag), value);
                Meet::Waits
            }
        }
    }

    /// Raises a Ref by 1, and gives its new value; `None` exactly where it has the greatest value, and then nothing changes.
    #[tactic(auto, using(crate::proofs::Places::set_changed))]
    pub fn incref(&mut self, x: u32) -> Option<u64>
        requires { IsRef x self.old }
        ensures none { IfNone result (value_in (by_id self.old.holds.refs x) ≡ greatest) }
        ensures stays { IfNone result (self.new ≡ self.old) }
        ensures value { IfSome result (λ value. value ≡ value_in (by_id self.old.holds.refs x) + 1) }
        ensures locks { IfSome result (λ value. self.new ≡ with_ref x value self.old) }
        ensures stands { IfSome result (λ value. Tracks (state_with_ref x value) self.old self.new) }
    {
        let i = x as usize - 1;
        let value = self.refs[i].checked_add(1)?;
        self.refs[i] = value;
        Some(value)
    }

    /// Lowers a Ref by 1, and gives its new value; `None` exactly where its value is 0, and then nothing changes.
    #[tactic(auto, using(crate::proofs::Places::set_changed))]
    pub fn decref(&mut self, x: u32) -> Option<u64>
        requires { IsRef x self.old }
        ensures none { IfNone result (value_in (by_id self.old.holds.refs x) ≡ 0) }
        ensures stays { IfNone result (self.new ≡ self.old) }
        ensures value { IfSome result (λ value. value + 1 ≡ value_in (by_id self.old.holds.refs x)) }
        ensures locks { IfSome result (λ value. self.new ≡ with_ref x value self.old) }
        ensures stands { IfSome result (λ value. Tracks (state_with_ref x value) self.old self.new) }
    {
        let i = x as usize - 1;
        let value = self.refs[i].checked_sub(1)?;
        self.refs[i] = value;
        Some(value)
    }

    /// Thread t leaves the queue, the tag or the Rendez where it waits. Who holds the locks stays, and nobody is granted one. It is
    /// false exactly where t waits at none, and then nothing changes.
    pub fn leave(&mut self, t: Tid) -> bool
        ensures waited { result ≡ is_some (wait_of t self.old.waits) }
        ensures after { self.new ≡ left_by t self.old }
        ensures stays { result ≡ false → self.new ≡ self.old }
        ensures stands { Tracks (off_waits (λ u. u == t)) self.old self.new }
    {
        self.waits.leave(t)
    }

    /// The threads that end leave the queues, the tags and the Rendezes where they wait, in one pass. Who holds the locks stays, and
    /// nobody is granted one.
    pub fn leave_where<E: Gone>(&mut self, ending: &E)
        ensures after { self.new ≡ left_where (E.ends ending.now) self.old }
        ensures stands { Tracks (off_waits (E.ends ending.now)) self.old self.new }
    {
        self.waits.leave_where(ending);
    }

    /// RWLock k has no holder but these readers, if any: it is granted to the writer at the head of its queue, or else to all
    /// readers up to its first writer.
    fn pass_on(&mut self, k: u32, woken: &mut Room<Tid>)
        requires there { IsSome (by_id self.old.holds.rwlocks k) }
        requires spare { length self.old.waits ≤ woken.old.spare }
        ensures after { self.new ≡ granted (passed_on k self.old) self.old }
        ensures woken { woken.new.items ≡ woken.old.items ++ (passed_on k self.old).granted }
        ensures spare { woken.new.spare + length (passed_on k self.old).granted ≡ woken.old.spare }
    {
        match self.waits.writer_out(k) {
            Some(writer) => {
                self.rwlocks.set_writer(k, Some(writer));
                woken.push(writer);
            }
            None => admit(&mut self.waits, &mut self.rwlocks, k, woken),
        }
    }
}

/// The thread that waits longest for this is woken, and waits no more.
fn next_out(waits: &mut Waits, what: LockWait, woken: &mut Room<Tid>) -> Option<Tid>
    requires { length waits.old.waits ≤ woken.old.spare }
    ensures next { result ≡ first_for what waits.old.waits }
    ensures waits { waits.new.waits ≡ without_first (waits_for what) waits.old.waits }
    ensures room { waits.new.room ≡ waits.old.room }
    ensures less { length waits.new.waits ≤ length waits.old.waits }
    ensures woken { woken.new.items ≡ woken.old.items ++ option_to_list result }
    ensures spare { woken.new.spare + length (option_to_list result) ≡ woken.old.spare }
{
    match waits.first_out(what) {
        Some(w) => {
            woken.push(w.tid);
            Some(w.tid)
        }
        None => None,
    }
}

/// No writer holds RWLock k: all readers in its queue up to the first writer get it, and are woken.
fn admit(waits: &mut Waits, rwlocks: &mut RwLocks, k: u32, woken: &mut Room<Tid>)
    requires there { IsSome (by_id rwlocks.old.rwlocks k) }
    requires spare { length waits.old.waits ≤ rwlocks.old.spare }
    requires room { length waits.old.waits ≤ woken.old.spare }
    ensures waits { waits.new.waits ≡ readers_left k waits.old.waits }
    ensures waits_room { waits.new.room ≡ waits.old.room }
    ensures rwlocks { rwlocks.new.rwlocks ≡ held_so k (record {
      writer = None;
      readers = (rw_hold (by_id rwlocks.old.rwlocks k)).readers ++ readers_in k waits.old.waits;
    }) rwlocks.old.rwlocks }
    ensures memory { rwlocks.new.spare + length waits.old.waits ≡ rwlocks.old.spare + length waits.new.waits }
    ensures woken { woken.new.items ≡ woken.old.items ++ readers_in k waits.old.waits }
    ensures spare { woken.new.spare + length (readers_in k waits.old.waits) ≡ woken.old.spare }
{
    rwlocks.set_writer(k, None);
    while let Some(t) = waits.reader_out(k) {
        rwlocks.add_reader(k, t);
        woken.push(t);
    }
}
