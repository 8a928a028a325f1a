ghost use Rattle.std.specs.Prelude.{◌≡◌, ◌<◌, ◌≤◌, ◌∷◌, length, remove, true, false, Some, None, IfOk, OnOk, OnErr, MatchOption};
ghost use Rattle.p9_outside.specs.Causes.{CountsFault, is_failed};
ghost use Rattle.p9_outside.specs.Contents.{Stay, Opens, IsFresh, Puts};
ghost use Rattle.p9_outside.specs.Memory.{source_left, source_steady, sink_held, sink_firm};
ghost use Rattle.p9_outside.specs.MemoryFiles.{found, without, entry, no_files, parts_of, contents_of, bytes_at, with_plan, CannotOpen, after_failure, KeepsPlans, IsSourceOf, IsSinkOf, OpensIn, told_of};
ghost use Rattle.p9_outside.specs.Plans.{is_planned};
ghost use Rattle.p9_outside.specs.Promised.{KeepsTold};

use crate::memory::plans::{Plan, planned_numbers, spend};
use crate::{Files, FilesFault, MemSink, MemSource, PathFail};
use p9_word::limits::BLOCK_BYTES;
use p9_word::{Msg, NoMemory};
use std::alloc::Global;

/// The most bytes that one read or write of a file in memory moves.
const MOST: usize = BLOCK_BYTES as usize;

/// The room of a sink in bytes, if no other was set. This project's own.
const ROOM: usize = 1_048_576;

/// The contents of a path.
#[derive(Drop)]
pub(crate) struct Held {
    pub(crate) path: Msg,
    pub(crate) bytes: Msg,
}

/// Files in memory, with failures that can be planned.
///
/// Their sources and sinks move at most 8,192 bytes in one call. A sink has room for 1,048,576 bytes, or
/// for as many as [`MemFiles::room`] says, and takes that memory when it is opened.
#[derive(Drop)]
pub struct MemFiles {
    alloc: Global,
    held: Vec<Held>,
    plans: Vec<Plan>,
    room: usize,
    faults: u64,
}

/// The index of the path's entry.
fn index_of(held: &[Held], path: &[u8]) -> Option<usize>
    ensures without { MatchOption result (without held.now path.now ≡ held.now) (λ i. without held.now path.now ≡ remove held.now i) }
    ensures within { MatchOption result (0 ≤ 0) (λ i. i < length held.now) }
{
    for i in 0..held.len() {
        if held[i].path.as_slice() == path {
            return Some(i);
        }
    }
    None
}

/// The contents of the path.
fn find<'a>(held: &'a [Held], path: &[u8]) -> Option<&'a Msg>
    ensures { MatchOption result (found held.now path.now ≡ None) (λ m. found held.now path.now ≡ Some m.now) }
{
    for h in held {
        if h.path.as_slice() == path {
            return Some(&h.bytes);
        }
    }
    None
}

/// Makes these bytes the contents of a path, in the place of its old ones. A refusal changes nothing.
fn put(alloc: Global, held: &mut Vec<Held>, path: &[u8], bytes: Msg) -> Result<(), NoMemory>
    ensures ok { OnOk result (held.new.items ≡ entry path.now bytes ∷ without held.old.items path.now) }
    ensures err { OnErr result (held.new.items ≡ held.old.items) }
{
    let old = index_of(held.as_slice(), path);
    let path = Msg::from_slice(alloc, path)?;
    held.insert(0, Held { path, bytes })?;
    if let Some(i) = old {
        let _stale = held.remove(i + 1);
    }
    Ok(())
}

impl MemFiles {
    /// No contents, nothing planned, and room for 1,048,576 bytes in each sink. It takes no memory.
    pub fn new(alloc: Global) -> MemFiles
        ensures { parts_of result ≡ no_files }
    {
        MemFiles {
            alloc,
            held: Vec::new(alloc),
            plans: Vec::new(alloc),
            room: ROOM,
            faults: 0,
        }
    }

    /// Makes these bytes the contents of the path, in the place of its old ones. Where memory is wanted
    /// nothing changes.
    pub fn add(&mut self, path: &[u8], bytes: Msg) -> Result<(), NoMemory>
        ensures ok { OnOk result (Puts (contents_of self.old) (contents_of self.new) path.now (Some bytes)) }
        ensures kept { KeepsPlans self.old self.new }
        ensures err { OnErr result (parts_of self.new ≡ parts_of self.old) }
    {
        match put(self.alloc, &mut self.held, path, bytes) {
            Ok(()) => Ok(()),
            Err(NoMemory) => Err(NoMemory),
        }
    }

    /// The contents of the path, or `None` where it has none.
    pub fn get(&self, path: &[u8]) -> Option<&[u8]>
        ensures { MatchOption result (bytes_at self.now path.now ≡ None) (λ s. bytes_at self.now path.now ≡ Some s.now) }
    {
        match find(&self.held, path) {
            Some(bytes) => Some(bytes.as_slice()),
            None => None,
        }
    }

    /// Plans one failure of a call on the path. Where memory is wanted nothing changes.
    pub fn plan(&mut self, path: &[u8], fail: PathFail) -> Result<(), NoMemory>
        ensures ok { OnOk result (parts_of self.new ≡ with_plan (parts_of self.old) path.now fail) }
        ensures err { OnErr result (parts_of self.new ≡ parts_of self.old) }
    {
        let path = Msg::from_slice(self.alloc, path)?;
        self.plans.push(Plan { path, fail })?;
        Ok(())
    }

    /// Gives each later sink room for so many bytes.
    pub fn room(&mut self, n: usize)
        ensures { parts_of self.new ≡ record (parts_of self.old) { room = n } }
    {
        self.room = n;
    }

    fn open(&self, path: &[u8]) -> Result<Option<MemSource>, NoMemory>
        ensures { IfOk result (λ o. OpensIn (parts_of self.now) path.now o) }
    {
        let Some(bytes) = find(&self.held, path) else {
            return Ok(None);
        };
        let fails = planned_numbers(self.alloc, &self.plans, path, true)?;
        Ok(Some(MemSource::new(bytes.copy()?, MOST, fails)))
    }

    fn fresh(&self, path: &[u8]) -> Result<MemSink, NoMemory>
        ensures { IfOk result (λ s. IsSinkOf (parts_of self.now) path.now s) }
    {
        let fails = planned_numbers(self.alloc, &self.plans, path, false)?;
        MemSink::new(self.alloc, self.room, MOST, fails)
    }
}

impl Files for MemFiles {
    type Src = MemSource;

    type Dst = MemSink;

    ghost contents = { λ f. contents_of f };

    ghost faults = { λ f. (parts_of f).faults };

    ghost told = { λ f. told_of (parts_of f) };

    /// It is `Failed` exactly where that was planned or the path has no contents.
    fn source(&mut self, _alloc: Global, path: &[u8]) -> Result<MemSource, FilesFault>
        ensures contents { Stay (contents_of self.old) (contents_of self.new) }
        ensures opens { IfOk result (λ s. Opens (contents_of self.old) path.now (Some (source_left s))) }
        ensures faults { CountsFault (is_failed result) (parts_of self.old).faults (parts_of self.new).faults }
        ensures kept { KeepsTold (told_of (parts_of self.old)) (told_of (parts_of self.new)) }
        ensures sure { (told_of (parts_of self.old) path.now).found ≡ true → is_failed result ≡ false }
        ensures steady { IfOk result (λ s. source_steady s ≡ (told_of (parts_of self.old) path.now).steady) }

        ensures unplanned { OnOk result (is_planned (parts_of self.old).plans path.now PathFail.Source ≡ false) }
        ensures made { IfOk result (λ s. IsSourceOf (parts_of self.old) path.now s) }
        ensures same { OnOk result (parts_of self.new ≡ parts_of self.old) }
        ensures memory { result ≡ Err FilesFault.Memory → parts_of self.new ≡ parts_of self.old }
        ensures cause { result ≡ Err FilesFault.Failed → CannotOpen (parts_of self.old) path.now }
        ensures counts { result ≡ Err FilesFault.Failed → parts_of self.new ≡ after_failure (parts_of self.old) path.now PathFail.Source }
    {
        if !spend(&mut self.plans, path, PathFail::Source) {
            match self.open(path) {
                Ok(Some(source)) => return Ok(source),
                Ok(None) => {}
                Err(NoMemory) => return Err(FilesFault::Memory),
            }
        }
        self.faults = self.faults.saturating_add(1);
        Err(FilesFault::Failed)
    }

    /// It is `Failed` exactly where that was planned.
    fn sink(&mut self, _alloc: Global, path: &[u8]) -> Result<MemSink, FilesFault>
        ensures contents { Stay (contents_of self.old) (contents_of self.new) }
        ensures fresh { IfOk result (λ s. IsFresh (contents_of self.old) (Some (sink_held s))) }
        ensures faults { CountsFault (is_failed result) (parts_of self.old).faults (parts_of self.new).faults }
        ensures kept { KeepsTold (told_of (parts_of self.old)) (told_of (parts_of self.new)) }
        ensures sure { (told_of (parts_of self.old) path.now).made ≡ true → is_failed result ≡ false }
        ensures firm { IfOk result (λ s. sink_firm s ≡ (told_of (parts_of self.old) path.now).firm) }

        ensures unplanned { OnOk result (is_planned (parts_of self.old).plans path.now PathFail.Sink ≡ false) }
        ensures made { IfOk result (λ s. IsSinkOf (parts_of self.old) path.now s) }
        ensures same { OnOk result (parts_of self.new ≡ parts_of self.old) }
        ensures memory { result ≡ Err FilesFault.Memory → parts_of self.new ≡ parts_of self.old }
        ensures cause { result ≡ Err FilesFault.Failed → is_planned (parts_of self.old).plans path.now PathFail.Sink ≡ true }
        ensures counts { result ≡ Err FilesFault.Failed → parts_of self.new ≡ after_failure (parts_of self.old) path.now PathFail.Sink }
    {
        if spend(&mut self.plans, path, PathFail::Sink) {
            self.faults = self.faults.saturating_add(1);
            return Err(FilesFault::Failed);
        }
        match self.fresh(path) {
            Ok(sink) => Ok(sink),
            Err(NoMemory) => Err(FilesFault::Memory),
        }
    }

    /// It is `Failed` exactly where that was planned.
    fn close(&mut self, path: &[u8], dst: MemSink) -> Result<(), FilesFault>
        ensures ok { OnOk result (Puts (contents_of self.old) (contents_of self.new) path.now (Some (sink_held dst))) }
        ensures err { OnErr result (Stay (contents_of self.old) (contents_of self.new)) }
        ensures faults { CountsFault (is_failed result) (parts_of self.old).faults (parts_of self.new).faults }
        ensures kept { KeepsTold (told_of (parts_of self.old)) (told_of (parts_of self.new)) }
        ensures sure { (told_of (parts_of self.old) path.now).closes ≡ true → is_failed result ≡ false }

        ensures unplanned { OnOk result (is_planned (parts_of self.old).plans path.now PathFail.Close ≡ false) }
        ensures plans { OnOk result (KeepsPlans self.old self.new) }
        ensures memory { result ≡ Err FilesFault.Memory → parts_of self.new ≡ parts_of self.old }
        ensures cause { result ≡ Err FilesFault.Failed → is_planned (parts_of self.old).plans path.now PathFail.Close ≡ true }
        ensures counts { result ≡ Err FilesFault.Failed → parts_of self.new ≡ after_failure (parts_of self.old) path.now PathFail.Close }
    {
        if spend(&mut self.plans, path, PathFail::Close) {
            self.faults = self.faults.saturating_add(1);
            return Err(FilesFault::Failed);
        }
        match put(self.alloc, &mut self.held, path, dst.into_msg()) {
            Ok(()) => Ok(()),
            Err(NoMemory) => Err(FilesFault::Memory),
        }
    }
}
