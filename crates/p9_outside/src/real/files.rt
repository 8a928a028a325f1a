ghost use Rattle.std.specs.Prelude.{◌≡◌, ◌<◌, true, false, None, IsErr, IfOk, OnOk, OnErr, not};
ghost use Rattle.p9_outside.specs.Adapters.{real_faults, real_replaced, real_in_place, file_faults, file_in_place, file_taken, reader_faults, reader_given};
ghost use Rattle.p9_outside.specs.Causes.{CountsFault, is_failed};
ghost use Rattle.p9_outside.specs.Contents.{Stay, Opens, IsFresh, Puts};
ghost use Rattle.p9_outside.specs.Counts.{raised_if};
ghost use Rattle.p9_outside.specs.Promised.{KeepsTold, nothing_told};

use crate::real::closings::Closings;
use crate::real::in_place::InPlace;
use crate::real::opening::{open_sink, open_source};
use crate::{FileSink, Files, FilesFault, StdSource};
use std::alloc::Global;
use std::fs::File;
use std::io::ErrorKind;
use std::{io, rt};

/// The files of the system, by paths that are UTF-8. They tell no contents, but count the files that were
/// closed: those that took the place of their path's old ones apart from those that were written in place.
///
/// An output file keeps its old contents until its sink is closed, also where the run is killed, and for
/// good where a write has failed. It keeps its mode, and where that is allowed its owner and group. A link is
/// followed and stays a link. The in file and the out file may be one file. A folder can't be opened.
///
/// A file that has more than one name, or that the system doesn't let be replaced, keeps its old contents
/// until then too, and then the new ones are copied over them, so that a failure or a kill in that moment
/// leaves a part of both. Where no file can be made beside it, and where a path is no regular file, as a
/// device or a pipe, it is written in place from the first write on. A path that leads to an open
/// descriptor, as `/dev/stdout`, gets the new bytes at its end, and keeps what it has.
#[derive(Drop)]
pub struct RealFiles<'a, R> {
    rt: &'a R,
    faults: u64,
    closings: Closings,
    in_place: InPlace,
}

impl<'a, R: rt::Files<File = File>> RealFiles<'a, R> {
    /// The files of this runtime, with no fault so far, and none closed.
    pub fn new(rt: &'a R) -> RealFiles<'a, R>
        ensures faults { real_faults result ≡ 0 }
        ensures replaced { real_replaced result ≡ 0 }
        ensures in_place { real_in_place result ≡ 0 }
    {
        RealFiles {
            rt,
            faults: 0,
            closings: Closings::new(),
            in_place: InPlace::new(),
        }
    }

    /// How many calls of [`Files::close`] answered `Ok` for a file that stood under a temporary name: it was
    /// renamed then, or copied over the old one. At the greatest u64 the count stands.
    pub fn replaced(&self) -> u64
        ensures { result ≡ real_replaced self.now }
    {
        self.closings.count()
    }

    /// How many calls of [`Files::close`] answered `Ok` for a file that was written in place. At the greatest
    /// u64 the count stands.
    pub fn written_in_place(&self) -> u64
        ensures { result ≡ real_in_place self.now }
    {
        self.in_place.count()
    }

    /// What an outcome is told as. An error but want of memory is counted.
    fn told<T: Drop>(&mut self, outcome: io::Result<T>) -> Result<T, FilesFault>
        ensures value { IfOk result (λ v. outcome ≡ Ok v) }
        ensures error { OnErr result (IsErr outcome) }
        ensures replaced { real_replaced self.new ≡ real_replaced self.old }
        ensures in_place { real_in_place self.new ≡ real_in_place self.old }
        ensures faults { CountsFault (is_failed result) (real_faults self.old) (real_faults self.new) }
    {
        match outcome {
            Ok(value) => Ok(value),
            Err(error) if error.kind() == ErrorKind::OutOfMemory => Err(FilesFault::Memory),
            Err(_) => {
                self.faults = self.faults.saturating_add(1);
                Err(FilesFault::Failed)
            }
        }
    }
}

impl<'a, R: rt::Files<File = File> + Sync> Files for RealFiles<'a, R> {
    type Src = StdSource<File>;

    type Dst = FileSink<'a, R, File>;

    ghost contents = { λ f. None };

    ghost faults = { λ f. real_faults f };

    ghost told = { λ f p. nothing_told };

    fn source(&mut self, _alloc: Global, path: &[u8]) -> Result<StdSource<File>, FilesFault>
        // Nothing is told but the count, so that no other of the trait's clauses says anything.
        ensures contents { Stay None None }
        ensures opens { IfOk result (λ s. Opens None path.now None) }
        ensures faults { CountsFault (is_failed result) (real_faults self.old) (real_faults self.new) }
        ensures kept { KeepsTold (λ p. nothing_told) (λ p. nothing_told) }
        ensures sure { false ≡ true → is_failed result ≡ false }
        ensures steady { IfOk result (λ s. nothing_told.steady ≡ nothing_told.steady) }

        ensures given { IfOk result (λ s. reader_given s ≡ 0) }
        ensures whole { IfOk result (λ s. reader_faults s ≡ 0) }
        ensures replaced { real_replaced self.new ≡ real_replaced self.old }
        ensures in_place { real_in_place self.new ≡ real_in_place self.old }
    {
        let opened = open_source(self.rt, path);
        self.told(opened)
    }

    fn sink(&mut self, alloc: Global, path: &[u8]) -> Result<FileSink<'a, R, File>, FilesFault>
        // Nothing is told but the count, so that no other of the trait's clauses says anything.
        ensures contents { Stay None None }
        ensures fresh { IfOk result (λ s. IsFresh None None) }
        ensures faults { CountsFault (is_failed result) (real_faults self.old) (real_faults self.new) }
        ensures kept { KeepsTold (λ p. nothing_told) (λ p. nothing_told) }
        ensures sure { false ≡ true → is_failed result ≡ false }
        ensures firm { IfOk result (λ s. nothing_told.firm ≡ nothing_told.firm) }

        ensures taken { IfOk result (λ s. file_taken s ≡ 0) }
        ensures whole { IfOk result (λ s. file_faults s ≡ 0) }
        ensures replaced { real_replaced self.new ≡ real_replaced self.old }
        ensures in_place { real_in_place self.new ≡ real_in_place self.old }
    {
        let opened = open_sink(self.rt, alloc, path);
        self.told(opened)
    }

    /// Where the answer is `Ok` one count rises by just one, by how the file was opened: that of
    /// [`RealFiles::written_in_place`] where [`FileSink::is_in_place`] tells so, and else that of
    /// [`RealFiles::replaced`]. The other one stays, and at an error both do. A sink that met a failure is
    /// never closed well.
    fn close(&mut self, _path: &[u8], dst: FileSink<'a, R, File>) -> Result<(), FilesFault>
        // Nothing is told but the count, so that no other of the trait's clauses says anything.
        ensures ok { OnOk result (Puts None None _path.now None) }
        ensures err { OnErr result (Stay None None) }
        ensures faults { CountsFault (is_failed result) (real_faults self.old) (real_faults self.new) }
        ensures kept { KeepsTold (λ p. nothing_told) (λ p. nothing_told) }
        ensures sure { false ≡ true → is_failed result ≡ false }

        ensures whole { 0 < file_faults dst.entry → IsErr result }
        ensures replaced { OnOk result (real_replaced self.new ≡ raised_if (not (file_in_place dst.entry)) (real_replaced self.old)) }
        ensures in_place { OnOk result (real_in_place self.new ≡ raised_if (file_in_place dst.entry) (real_in_place self.old)) }
        ensures unreplaced { OnErr result (real_replaced self.new ≡ real_replaced self.old) }
        ensures unplaced { OnErr result (real_in_place self.new ≡ real_in_place self.old) }
    {
        let finished = dst.finish(&mut self.closings, &mut self.in_place);
        self.told(finished)
    }
}
