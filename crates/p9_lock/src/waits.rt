ghost use Rattle.std.specs.Prelude.{◌≡◌, ◌≤◌, ◌<◌, ◌+◌, ◌^◌, ◌==◌, ◌++◌, [], false, true, not, length, is_some, OnOk, OnErr, OnSome, IfNone, position, vec_len, vec_capacity};
ghost use Rattle.std.specs.List.{filter, find, list_any};
ghost use Rattle.std.specs.Option.{option_copied, option_to_list};
ghost use Rattle.p9_manual.specs.Queues.{waits_for, waits_at_rw, without_first, writer_first, readers_in, readers_left, joined};
ghost use Rattle.p9_manual.specs.Rendez.{sleepers, wakeup, wakeup_all};
ghost use Rattle.p9_lock.specs.Waiting.{others, wait_of};

use p9_manual::{Gone, LockWait, LockWaiter, Sort};
use p9_word::{NoMemory, Tid};
use std::alloc::Global;
use std::marker::Model;

/// The most threads that wait.
const MOST: usize = 0xffff_ffff;

/// The threads that wait, in the order in which they came. Contracts see whether there is memory for one more.
#[derive(Drop)]
pub(crate) struct Waits {
    items: Vec<LockWaiter>,
    room: bool,
}

impl Model for Waits {
    ghost use Rattle.std.specs.Prelude.{◌≤◌, ◌<◌, ◌+◌, ◌^◌, vec_len, vec_capacity};
    ghost use Rattle.p9_lock.specs.Waiting.{Waiting};
    ghost use Rattle.p9_lock.specs.Kept.{one_if};

    ghost Value = { Waiting };

    ghost view = { λ s. record { waits = s.items.items; room = s.room } };

    ghost invariant = { λ s. (vec_len s.items + one_if s.room ≤ vec_capacity s.items) × (vec_len s.items + one_if s.room < 2 ^ 32) };
}

/// Whether a thread waits for this.
fn is_for(w: &LockWaiter, what: LockWait) -> bool
    ensures { result ≡ waits_for what w.now }
{
    w.what == what
}

/// Whether a thread waits at RWLock k.
fn is_at_rw(w: &LockWaiter, k: u32) -> bool
    ensures { result ≡ waits_at_rw k w.now }
{
    is_for(w, LockWait::Lock(Sort::Read, k)) || is_for(w, LockWait::Lock(Sort::Write, k))
}

/// Where the first that waits for this stands.
fn place_of(waits: &[LockWaiter], what: LockWait) -> Option<usize>
    ensures { result ≡ position (waits_for what) waits.now }
{
    waits.iter().position(|w| is_for(w, what))
}

/// The head of the queue of RWLock k.
fn first_at_rw(waits: &[LockWaiter], k: u32) -> Option<&LockWaiter>
    ensures { option_copied result ≡ find (waits_at_rw k) waits.now }
{
    waits.iter().find(|w| is_at_rw(w, k))
}

/// The writer at the head of the queue of RWLock k, if a writer is.
fn writer_first(waits: &[LockWaiter], k: u32) -> Option<Tid>
    ensures { result ≡ writer_first k waits.now }
{
    let head = first_at_rw(waits, k)?;
    if is_for(head, LockWait::Lock(Sort::Write, k)) {
        Some(head.tid)
    } else {
        None
    }
}

impl Waits {
    /// Nobody waits. It takes no memory.
    pub fn new(alloc: Global) -> Waits
        ensures waits { result.waits ≡ [] }
        ensures room { result.room ≡ false }
    {
        Waits {
            items: Vec::new(alloc),
            room: false,
        }
    }

    /// The threads that wait.
    pub fn as_slice(&self) -> &[LockWaiter]
        ensures { result.now ≡ self.now.waits }
    {
        self.items.as_slice()
    }

    /// How many threads wait.
    pub fn len(&self) -> usize
        ensures waits { result ≡ length self.now.waits }
        ensures few { result < 2 ^ 32 }
    {
        self.items.len()
    }

    /// Takes the memory for one more that waits. A refusal changes nothing.
    pub fn reserve(&mut self) -> Result<(), NoMemory>
        ensures waits { self.new.waits ≡ self.old.waits }
        ensures ok { OnOk result (self.new.room ≡ true) }
        ensures err { OnErr result (self.new ≡ self.old) }
    {
        if self.room {
            return Ok(());
        }
        if self.items.len() >= MOST {
            return Err(NoMemory);
        }
        self.items.reserve(1)?;
        self.room = true;
        Ok(())
    }

    /// Gives the memory for one more up.
    pub fn give_room_up(&mut self)
        ensures { self.new ≡ record self.old { room = false } }
    {
        self.room = false;
    }

    /// A thread waits, behind all others.
    pub fn join(&mut self, tid: Tid, what: LockWait, value: u64)
        requires { self.old.room ≡ true }
        ensures waits { self.new.waits ≡ joined tid what value self.old.waits }
        ensures room { self.new.room ≡ false }
    {
        self.items.push_reserved(LockWaiter { tid, what, value });
        self.room = false;
    }

    /// Whether a thread waits at RWLock k.
    pub fn has_queue(&self, k: u32) -> bool
        ensures { result ≡ list_any (waits_at_rw k) self.now.waits }
    {
        has_queue(&self.items, k)
    }

    /// What this thread waits for.
    pub fn wait_of(&self, tid: Tid) -> Option<LockWait>
        ensures { result ≡ wait_of tid self.now.waits }
    {
        let w = waiter(&self.items, tid)?;
        Some(w.what)
    }

    /// This thread waits no more. It is false exactly where it waited for nothing, and then nothing changes.
    pub fn leave(&mut self, tid: Tid) -> bool
        ensures waited { result ≡ is_some (wait_of tid self.old.waits) }
        ensures after { self.new ≡ record self.old { waits = others tid self.old.waits } }
        ensures stays { result ≡ false → self.new ≡ self.old }
        ensures less { length self.new.waits ≤ length self.old.waits }
    {
        leave(&mut self.items, tid)
    }

    /// The threads that end wait no more.
    pub fn leave_where<E: Gone>(&mut self, ending: &E)
        ensures waits { self.new.waits ≡ filter (λ w. not (E.ends ending.now w.tid)) self.old.waits }
        ensures room { self.new.room ≡ self.old.room }
        ensures less { length self.new.waits ≤ length self.old.waits }
    {
        leave_where(&mut self.items, ending);
    }

    /// The first that waits for this waits no more.
    pub fn first_out(&mut self, what: LockWait) -> Option<LockWaiter>
        ensures first { result ≡ find (waits_for what) self.old.waits }
        ensures waits { self.new.waits ≡ without_first (waits_for what) self.old.waits }
        ensures none { IfNone result (self.new ≡ self.old) }
        ensures room { self.new.room ≡ self.old.room }
        ensures less { length self.new.waits + length (option_to_list result) ≡ length self.old.waits }
    {
        first_out(&mut self.items, what)
    }

    /// The writer at the head of the queue of RWLock k waits no more, if a writer is.
    pub fn writer_out(&mut self, k: u32) -> Option<Tid>
        ensures writer { result ≡ writer_first k self.old.waits }
        ensures some { OnSome result (self.new.waits ≡ without_first (waits_for (LockWait.Lock Sort.Write k)) self.old.waits) }
        ensures none { IfNone result (self.new ≡ self.old) }
        ensures room { self.new.room ≡ self.old.room }
        ensures less { length self.new.waits + length (option_to_list result) ≡ length self.old.waits }
    {
        writer_out(&mut self.items, k)
    }

    /// The reader at the head of the queue of RWLock k waits no more, if a reader is.
    pub fn reader_out(&mut self, k: u32) -> Option<Tid>
        ensures reader { readers_in k self.old.waits ≡ option_to_list result ++ readers_in k self.new.waits }
        ensures left { readers_left k self.new.waits ≡ readers_left k self.old.waits }
        ensures none { IfNone result (self.new.waits ≡ readers_left k self.old.waits) }
        ensures done { IfNone result (readers_in k self.old.waits ≡ []) }
        ensures room { self.new.room ≡ self.old.room }
        ensures less { length self.new.waits + length (option_to_list result) ≡ length self.old.waits }
    {
        reader_out(&mut self.items, k)
    }

    /// The first that sleeps at Rendez r waits for QLock q from now on, behind all others. Whether one sleeps there.
    pub fn wake(&mut self, r: u32, q: u32) -> bool
        ensures woken { result ≡ is_some (find (waits_for (LockWait.Sleep r)) self.old.waits) }
        ensures waits { self.new.waits ≡ wakeup r q self.old.waits }
        ensures room { self.new.room ≡ self.old.room }
        ensures len { length self.new.waits ≡ length self.old.waits }
    {
        wake(&mut self.items, r, q)
    }

    /// All that sleep at Rendez r wait for QLock q from now on, behind all others and in order. How many they are.
    pub fn wake_all(&mut self, r: u32, q: u32) -> u32
        ensures count { result ≡ length (sleepers r self.old.waits) }
        ensures waits { self.new.waits ≡ wakeup_all r q self.old.waits }
        ensures room { self.new.room ≡ self.old.room }
        ensures len { length self.new.waits ≡ length self.old.waits }
    {
        wake_all(&mut self.items, r, q)
    }
}

/// Whether a thread waits at RWLock k.
fn has_queue(waits: &[LockWaiter], k: u32) -> bool
    ensures { result ≡ list_any (waits_at_rw k) waits.now }
{
    waits.iter().any(|w| is_at_rw(w, k))
}

/// This thread, where it waits.
fn waiter(waits: &[LockWaiter], tid: Tid) -> Option<&LockWaiter>
    ensures { option_copied result ≡ find (λ w. w.tid == tid) waits.now }
{
    waits.iter().find(|w| w.tid == tid)
}

/// This thread waits no more. Whether it waited.
fn leave(waits: &mut Vec<LockWaiter>, tid: Tid) -> bool
    ensures waited { result ≡ is_some (wait_of tid waits.old.items) }
    ensures waits { waits.new.items ≡ others tid waits.old.items }
    ensures stays { result ≡ false → waits.new.items ≡ waits.old.items }
    ensures less { vec_len waits.new ≤ vec_len waits.old }
    ensures capacity { vec_capacity waits.new ≡ vec_capacity waits.old }
{
    let waited = waiter(waits, tid).is_some();
    waits.retain(|w| w.tid != tid);
    waited
}

/// The threads that end wait no more.
fn leave_where<E: Gone>(waits: &mut Vec<LockWaiter>, ending: &E)
    ensures waits { waits.new.items ≡ filter (λ w. not (E.ends ending.now w.tid)) waits.old.items }
    ensures less { vec_len waits.new ≤ vec_len waits.old }
    ensures capacity { vec_capacity waits.new ≡ vec_capacity waits.old }
{
    waits.retain(|w| !ending.has(w.tid));
}

/// The first that waits for this waits no more.
fn first_out(waits: &mut Vec<LockWaiter>, what: LockWait) -> Option<LockWaiter>
    ensures first { result ≡ find (waits_for what) waits.old.items }
    ensures waits { waits.new.items ≡ without_first (waits_for what) waits.old.items }
    ensures none { IfNone result (waits.new.items ≡ waits.old.items) }
    ensures less { vec_len waits.new + length (option_to_list result) ≡ vec_len waits.old }
    ensures capacity { vec_capacity waits.new ≡ vec_capacity waits.old }
{
    match place_of(waits, what) {
        Some(i) => Some(waits.remove(i)),
        None => None,
    }
}

/// The writer at the head of the queue of RWLock k waits no more, if a writer is.
fn writer_out(waits: &mut Vec<LockWaiter>, k: u32) -> Option<Tid>
    ensures writer { result ≡ writer_first k waits.old.items }
    ensures some { OnSome result (waits.new.items ≡ without_first (waits_for (LockWait.Lock Sort.Write k)) waits.old.items) }
    ensures none { IfNone result (waits.new.items ≡ waits.old.items) }
    ensures less { vec_len waits.new + length (option_to_list result) ≡ vec_len waits.old }
    ensures capacity { vec_capacity waits.new ≡ vec_capacity waits.old }
{
    let t = writer_first(waits, k)?;
    first_out(waits, LockWait::Lock(Sort::Write, k));
    Some(t)
}

/// The reader at the head of the queue of RWLock k waits no more, if a reader is.
fn reader_out(waits: &mut Vec<LockWaiter>, k: u32) -> Option<Tid>
    ensures reader { readers_in k waits.old.items ≡ option_to_list result ++ readers_in k waits.new.items }
    ensures left { readers_left k waits.new.items ≡ readers_left k waits.old.items }
    ensures none { IfNone result (waits.new.items ≡ readers_left k waits.old.items) }
    ensures done { IfNone result (readers_in k waits.old.items ≡ []) }
    ensures less { vec_len waits.new + length (option_to_list result) ≡ vec_len waits.old }
    ensures capacity { vec_capacity waits.new ≡ vec_capacity waits.old }
{
    let first = first_at_rw(waits, k)?;
    if is_for(first, LockWait::Lock(Sort::Write, k)) {
        return None;
    }
    let reader = first_out(waits, LockWait::Lock(Sort::Read, k))?;
    Some(reader.tid)
}

/// The first that sleeps at Rendez r waits for QLock q from now on, behind all others. Whether one sleeps there.
fn wake(waits: &mut Vec<LockWaiter>, r: u32, q: u32) -> bool
    ensures woken { result ≡ is_some (find (waits_for (LockWait.Sleep r)) waits.old.items) }
    ensures waits { waits.new.items ≡ wakeup r q waits.old.items }
    ensures len { vec_len waits.new ≡ vec_len waits.old }
    ensures capacity { vec_capacity waits.new ≡ vec_capacity waits.old }
{
    match first_out(waits, LockWait::Sleep(r)) {
        Some(sleeper) => {
            waits.push_reserved(LockWaiter {
                what: LockWait::Lock(Sort::QLock, q),
                ..sleeper
            });
            true
        }
        None => false,
    }
}

/// All that sleep at Rendez r wait for QLock q from now on, behind all others and in order. How many they are.
fn wake_all(waits: &mut Vec<LockWaiter>, r: u32, q: u32) -> u32
    requires { vec_len waits.old < 2 ^ 32 }
    ensures count { result ≡ length (sleepers r waits.old.items) }
    ensures waits { waits.new.items ≡ wakeup_all r q waits.old.items }
    ensures len { vec_len waits.new ≡ vec_len waits.old }
    ensures capacity { vec_capacity waits.new ≡ vec_capacity waits.old }
{
    let mut count = 0;
    while wake(waits, r, q) {
        count += 1;
    }
    count
}
