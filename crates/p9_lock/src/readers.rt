ghost use Rattle.std.specs.Prelude.{◌≡◌, ◌↔◌, ◌≤◌, ◌+◌, ◌∷◌, ◌++◌, ◌==◌, [], None, not, IfOk, OnOk, IsSome, IsTrue, replicate, position, vec_len, vec_capacity};
ghost use Rattle.std.specs.List.{list_any};
ghost use Rattle.p9_manual.specs.Claims.{is_empty, rw_hold};
ghost use Rattle.p9_manual.specs.Queues.{without_first};
ghost use Rattle.p9_manual.specs.State.{by_id};
ghost use Rattle.p9_lock.specs.Kept.{reads};
ghost use Rattle.p9_lock.specs.Waiting.{held_so};

use crate::holders;
use p9_word::{NoMemory, Tid};
use std::alloc::Global;
use std::marker::Model;

/// One hold of a reader of an RWLock.
#[derive(Clone, Copy)]
pub(crate) struct Reader {
    /// The RWLock.
    pub lock: u32,
    /// The thread.
    pub tid: Tid,
}

/// Who holds the RWLocks. Contracts see for how many more readers there is memory.
#[derive(Drop)]
pub(crate) struct RwLocks {
    writers: Vec<Option<Tid>>,
    readers: Vec<Reader>,
    spare: usize,
}

impl Model for RwLocks {
    ghost use Rattle.std.specs.Prelude.{◌≤◌, ◌+◌, vec_len, vec_capacity};
    ghost use Rattle.p9_lock.specs.Waiting.{Reading};
    ghost use Rattle.p9_lock.specs.Kept.{rw_holds};

    ghost Value = { Reading };

    ghost view = { λ s. record { rwlocks = rw_holds 1 s.writers.items s.readers.items; spare = s.spare } };

    ghost invariant = { λ s. vec_len s.readers + s.spare ≤ vec_capacity s.readers };
}

/// Whether one reads RWLock k.
fn has_readers(readers: &[Reader], k: u32) -> bool
    ensures { result ≡ list_any (λ r. r.lock == k) readers.now }
{
    readers.iter().any(|r| r.lock == k)
}

/// Whether thread t reads RWLock k.
fn has_reader(readers: &[Reader], t: Tid, k: u32) -> bool
    ensures { result ≡ list_any (reads t k) readers.now }
{
    readers.iter().any(|r| r.lock == k && r.tid == t)
}

impl RwLocks {
    /// So many RWLocks, which nobody holds, and memory for no reader.
    pub fn new(alloc: Global, n: u32) -> Result<RwLocks, NoMemory>
        ensures { IfOk result (λ r. r.rwlocks ≡ replicate n (record { writer = None; readers = [] })) }
    {
        let writers = holders::unheld(alloc, n)?;
        Ok(RwLocks {
            writers,
            readers: Vec::new(alloc),
            spare: 0,
        })
    }

    /// Takes memory for so many more readers, and never has less than before.
    pub fn reserve(&mut self, n: usize) -> Result<(), NoMemory>
        ensures rwlocks { self.new.rwlocks ≡ self.old.rwlocks }
        ensures ok { OnOk result (n ≤ self.new.spare) }
        ensures kept { self.old.spare ≤ self.new.spare }
    {
        if self.spare < n {
            self.readers.reserve(n)?;
            self.spare = n;
        }
        Ok(())
    }

    /// Whether there is an RWLock k.
    pub fn is_there(&self, k: u32) -> bool
        ensures { IsTrue result ↔ IsSome (by_id self.now.rwlocks k) }
    {
        holders::is_there(&self.writers, k)
    }

    /// The writer that holds RWLock k.
    pub fn writer(&self, k: u32) -> Option<Tid>
        ensures { result ≡ (rw_hold (by_id self.now.rwlocks k)).writer }
    {
        holders::holder_at(&self.writers, k)
    }

    /// Whether readers hold RWLock k.
    pub fn has_readers(&self, k: u32) -> bool
        requires { IsSome (by_id self.now.rwlocks k) }
        ensures { result ≡ not (is_empty (rw_hold (by_id self.now.rwlocks k)).readers) }
    {
        has_readers(&self.readers, k)
    }

    /// Whether thread t holds RWLock k as a reader.
    pub fn has_reader(&self, t: Tid, k: u32) -> bool
        requires { IsSome (by_id self.now.rwlocks k) }
        ensures { result ≡ list_any (λ r. r == t) (rw_hold (by_id self.now.rwlocks k)).readers }
    {
        has_reader(&self.readers, t, k)
    }

    /// RWLock k gets another writer, or none.
    pub fn set_writer(&mut self, k: u32, writer: Option<Tid>)
        requires { IsSome (by_id self.old.rwlocks k) }
        ensures rwlocks { self.new.rwlocks ≡ held_so k (record (rw_hold (by_id self.old.rwlocks k)) { writer = writer }) self.old.rwlocks }
        ensures spare { self.new.spare ≡ self.old.spare }
    {
        holders::set_holder(&mut self.writers, k, writer);
    }

    /// Thread t reads RWLock k once more.
    pub fn add_reader(&mut self, k: u32, t: Tid)
        requires there { IsSome (by_id self.old.rwlocks k) }
        requires spare { 1 ≤ self.old.spare }
        ensures rwlocks { self.new.rwlocks ≡ held_so k (record (rw_hold (by_id self.old.rwlocks k)) {
          readers = (rw_hold (by_id self.old.rwlocks k)).readers ++ t ∷ [];
        }) self.old.rwlocks }
        ensures spare { self.new.spare + 1 ≡ self.old.spare }
    {
        self.readers.push_reserved(Reader { lock: k, tid: t });
        self.spare -= 1;
    }

    /// Thread t gives one of its holds of RWLock k as a reader up, if it has one.
    pub fn remove_reader(&mut self, k: u32, t: Tid)
        requires { IsSome (by_id self.old.rwlocks k) }
        ensures rwlocks { self.new.rwlocks ≡ held_so k (record (rw_hold (by_id self.old.rwlocks k)) {
          readers = without_first (λ r. r == t) (rw_hold (by_id self.old.rwlocks k)).readers;
        }) self.old.rwlocks }
        ensures spare { self.new.spare ≡ self.old.spare }
    {
        remove_first(&mut self.readers, t, k);
    }
}

/// Takes one hold of thread t as a reader of RWLock k out, if there is one.
fn remove_first(readers: &mut Vec<Reader>, t: Tid, k: u32)
    ensures readers { readers.new.items ≡ without_first (reads t k) readers.old.items }
    ensures len { vec_len readers.new ≤ vec_len readers.old }
    ensures capacity { vec_capacity readers.new ≡ vec_capacity readers.old }
{
    if let Some(i) = place_of(readers, t, k) {
        readers.remove(i);
    }
}

/// Where the first hold of thread t as a reader of RWLock k stands.
fn place_of(readers: &[Reader], t: Tid, k: u32) -> Option<usize>
    ensures { result ≡ position (reads t k) readers.now }
{
    readers.iter().position(|r| r.lock == k && r.tid == t)
}
