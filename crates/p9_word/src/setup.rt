ghost use Rattle.std.specs.Prelude.{◌↔◌, All, IsTrue};

use crate::limits::{
    MOST_CHANNELS, MOST_ELEMENT_BYTES, MOST_ELEMENTS, MOST_FILES, MOST_LOCKS, MOST_NAME_BYTES,
    MOST_PLACES, MOST_REFS, MOST_RENDEZES, MOST_THREADS,
};
use crate::{Datum, Msg, NoMemory, Seq};
use std::alloc::Global;

/// A thread that stands at the start.
#[derive(Drop)]
pub struct ThreadSetup {
    /// Its proc, from 1.
    pub proc_no: u32,
    /// Its program, from 1.
    pub program: u32,
    /// What its program is started with.
    pub arg: u64,
    /// Its name, of at most 64 bytes.
    pub name: Msg,
}

/// A channel that stands at the start.
#[derive(Clone, Copy, Debug, PartialEq, Eq)]
pub struct ChanSetup {
    /// How many elements it holds, 0 to 4,096. A channel that holds none hands each value over.
    pub cap: u32,
    /// The most bytes of an element, 1 to 65,536.
    pub elsize: u32,
}

/// What a run starts from.
#[derive(Drop)]
pub struct Setup {
    /// The proc places, 1 to 64.
    pub places: u32,
    /// The procs that are open at the start: 1 to this number.
    pub opened: u32,
    /// The threads, with the ids from 1 on.
    pub threads: Seq<ThreadSetup>,
    /// How many programs there are.
    pub programs: u32,
    /// The channels, with the ids from 1 on.
    pub chans: Seq<ChanSetup>,
    /// How many Locks there are.
    pub locks: u32,
    /// How many QLocks there are.
    pub qlocks: u32,
    /// How many RWLocks there are.
    pub rwlocks: u32,
    /// The QLock of each Rendez.
    pub rendezes: Seq<u32>,
    /// The value of each Ref.
    pub refs: Seq<u64>,
    /// How many files, and so ioprocs, there are.
    pub files: u32,
    /// The procs asked for, or 0 for those of the text.
    pub procs: u32,
    /// The number that the run's generator of words starts from.
    pub start: u64,
}

impl ThreadSetup {
    ghost use Rattle.p9_word.specs.Setup.{IsThreadOf};

    fn is_of(&self, opened: u32, programs: u32) -> bool
        ensures { IsTrue result ↔ IsThreadOf opened programs self.now }
    {
        1 <= self.proc_no
            && self.proc_no <= opened
            && 1 <= self.program
            && self.program <= programs
            && self.name.as_slice().len() <= MOST_NAME_BYTES
    }
}

impl ChanSetup {
    ghost use Rattle.p9_word.specs.Setup.{IsChan};

    fn is_chan(&self) -> bool
        ensures { IsTrue result ↔ IsChan self.now }
    {
        self.cap <= MOST_ELEMENTS && 1 <= self.elsize && self.elsize <= MOST_ELEMENT_BYTES
    }
}

impl Setup {
    ghost use Rattle.p9_word.specs.Setup.{IsBetween, IsChan, IsThreadOf, HasLimits, IsValid};

    /// Whether a run can start from it: all numbers keep their limits, and each thread, channel and
    /// Rendez names what is there.
    pub fn is_valid(&self) -> bool
        ensures { IsTrue result ↔ IsValid self.now }
    {
        1 <= self.places
            && self.places <= MOST_PLACES
            && 1 <= self.opened
            && self.opened <= self.places
            && self.has_limits()
            && self.has_threads()
            && self.has_chans()
            && self.has_rendezes()
    }

    fn has_limits(&self) -> bool
        ensures { IsTrue result ↔ HasLimits self.now }
    {
        self.threads.len() <= MOST_THREADS
            && self.chans.len() <= MOST_CHANNELS
            && self.locks <= MOST_LOCKS
            && self.qlocks <= MOST_LOCKS
            && self.rwlocks <= MOST_LOCKS
            && self.rendezes.len() <= MOST_RENDEZES
            && self.refs.len() <= MOST_REFS
            && self.files <= MOST_FILES
            && self.procs <= MOST_PLACES
    }

    fn has_threads(&self) -> bool
        ensures { IsTrue result ↔ All (IsThreadOf self.now.opened self.now.programs) self.now.threads }
    {
        let (opened, programs) = (self.opened, self.programs);
        self.threads
            .as_slice()
            .iter()
            .all(|t| t.is_of(opened, programs))
    }

    fn has_chans(&self) -> bool
        ensures { IsTrue result ↔ All IsChan self.now.chans }
    {
        self.chans.as_slice().iter().all(|c| c.is_chan())
    }

    fn has_rendezes(&self) -> bool
        ensures { IsTrue result ↔ All (IsBetween 1 self.now.qlocks) self.now.rendezes }
    {
        let qlocks = self.qlocks;
        self.rendezes
            .as_slice()
            .iter()
            .all(|q| 1 <= *q && *q <= qlocks)
    }
}

impl Datum for ThreadSetup {
    fn copied(&self, alloc: Global) -> Result<ThreadSetup, NoMemory> {
        Ok(ThreadSetup {
            proc_no: self.proc_no,
            program: self.program,
            arg: self.arg,
            name: self.name.copied(alloc)?,
        })
    }

    fn is_same(&self, other: &ThreadSetup) -> bool {
        self.proc_no == other.proc_no
            && self.program == other.program
            && self.arg == other.arg
            && self.name.is_same(&other.name)
    }
}

impl Datum for ChanSetup {
    fn copied(&self, _alloc: Global) -> Result<ChanSetup, NoMemory> {
        Ok(*self)
    }

    fn is_same(&self, other: &ChanSetup) -> bool {
        self.cap == other.cap && self.elsize == other.elsize
    }
}

impl Datum for Setup {
    fn copied(&self, alloc: Global) -> Result<Setup, NoMemory> {
        Ok(Setup {
            places: self.places,
            opened: self.opened,
            threads: self.threads.copied(alloc)?,
            programs: self.programs,
            chans: self.chans.copied(alloc)?,
            locks: self.locks,
            qlocks: self.qlocks,
            rwlocks: self.rwlocks,
            rendezes: self.rendezes.copied(alloc)?,
            refs: self.refs.copied(alloc)?,
            files: self.files,
            procs: self.procs,
            start: self.start,
        })
    }

    fn is_same(&self, other: &Setup) -> bool {
        self.places == other.places
            && self.opened == other.opened
            && self.threads.is_same(&other.threads)
            && self.programs == other.programs
            && self.chans.is_same(&other.chans)
            && self.locks == other.locks
            && self.qlocks == other.qlocks
            && self.rwlocks == other.rwlocks
            && self.rendezes.is_same(&other.rendezes)
            && self.refs.is_same(&other.refs)
            && self.files == other.files
            && self.procs == other.procs
            && self.start == other.start
    }
}
