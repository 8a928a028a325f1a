ghost use Rattle.std.specs.Prelude.{◌≡◌, ◌<◌, IsErr, IfOk, OnOk, OnErr, length, not};
ghost use Rattle.std.specs.Io.{WritesAtMost};
ghost use Rattle.std.specs.Io.KnownBytes.{WriteAppends};
ghost use Rattle.p9_outside.specs.Counts.{raised, raised_if};
ghost use Rattle.p9_outside.specs.Adapters.{closed_count, in_place_count};

use crate::real::closings::Closings;
use crate::real::in_place::InPlace;
use crate::real::location::Location;
use crate::{Failed, Sink, StdSink};
use std::fs::File;
use std::io;
use std::io::{ErrorKind, Write};
use std::rt::Files;

/// A file of the system that is written, by any writer `W`. It tells the bytes that its writer tells; a
/// [`File`] tells none. Of every writer it counts the bytes that it took.
///
/// The contents of a regular file stand under a temporary name, in the folder of its path, until
/// [`crate::Files::close`] puts them in its place. Where the sink is let go before, or a write has failed,
/// the temporary file is removed, and the path has what it had. All else, as a device or a pipe, and a file
/// beside which none can be made, is written in place.
pub struct FileSink<'a, R: Files<File = File>, W: Drop> {
    rt: &'a R,
    sink: StdSink<W>,
    location: Location,
}

impl<'a, R: Files<File = File>, W: Drop> Drop for FileSink<'a, R, W> {
    fn drop(self) {
        let FileSink { rt, sink, location } = self;
        drop(sink);
        if let Location::Beside(temporary) = location {
            temporary.remove(rt);
        }
    }
}

impl<'a, R: Files<File = File>, W: Write + Drop> FileSink<'a, R, W> {
    ghost use Rattle.p9_outside.specs.Adapters.{file_taken, file_faults, file_writer, file_in_place, in_place};

    pub(crate) fn new(rt: &'a R, file: W, location: Location) -> FileSink<'a, R, W>
        ensures writer { file_writer result ≡ file }
        ensures faults { file_faults result ≡ 0 }
        ensures taken { file_taken result ≡ 0 }
        ensures location { file_in_place result ≡ in_place location }
    {
        FileSink {
            rt,
            sink: StdSink::new(file),
            location,
        }
    }

    /// How many bytes the file has taken since it was opened. At the greatest u64 the count stands.
    pub fn taken(&self) -> u64
        ensures { result ≡ file_taken self.now }
    {
        self.sink.taken()
    }

    /// Whether the file is written in place, and not under a temporary name. It is opened so for good.
    pub fn is_in_place(&self) -> bool
        ensures { result ≡ file_in_place self.now }
    {
        match &self.location {
            Location::Beside(_) => false,
            Location::Over | Location::On => true,
        }
    }
}

impl<'a, R: Files<File = File>> FileSink<'a, R, File> {
    ghost use Rattle.p9_outside.specs.Adapters.{file_faults, file_in_place};

    /// Puts a temporary file in the place of its path, and lets go of one that was written in place. A sink
    /// that met a failure is let go and the failure is answered: a temporary file is removed then.
    pub(crate) fn finish(self, closings: &mut Closings, in_place: &mut InPlace) -> io::Result<()>
        ensures whole { 0 < file_faults self.entry → IsErr result }
        ensures replaced { OnOk result
            (closed_count closings.new ≡ raised_if (not (file_in_place self.entry)) (closed_count closings.old)) }
        ensures in_place { OnOk result (in_place_count in_place.new ≡ raised_if (file_in_place self.entry) (in_place_count in_place.old)) }
        ensures unreplaced { OnErr result (closed_count closings.new ≡ closed_count closings.old) }
        ensures unplaced { OnErr result (in_place_count in_place.new ≡ in_place_count in_place.old) }
    {
        if self.sink.fault_count() > 0 {
            return Err(io::Error::from(ErrorKind::Other));
        }
        let FileSink { rt, sink, location } = self;
        let length = sink.taken();
        let file = sink.into_inner();
        match location {
            Location::Beside(temporary) => temporary.replace_target(rt, file, closings),
            Location::Over => let_go_cut(file, length, in_place),
            Location::On => {
                in_place.let_go(file);
                Ok(())
            }
        }
    }
}

/// Lets go of a file that was written over, with what it has past its new contents cut off.
fn let_go_cut(file: File, length: u64, in_place: &mut InPlace) -> io::Result<()>
    ensures finished { OnOk result (in_place_count in_place.new ≡ raised (in_place_count in_place.old) 1) }
    ensures stays { OnErr result (in_place_count in_place.new ≡ in_place_count in_place.old) }
{
    if file.metadata()?.len() > length {
        file.set_len(length)?;
    }
    in_place.let_go(file);
    Ok(())
}

impl<'a, R: Files<File = File>, W: Write + Drop> Sink for FileSink<'a, R, W> {
    ghost use Rattle.std.specs.Prelude.{◌≤◌, ◌-◌, false, is_err};
    ghost use Rattle.p9_outside.specs.Adapters.{file_faults, file_taken, file_writer};
    ghost use Rattle.p9_outside.specs.Causes.{CountsFault};
    ghost use Rattle.p9_outside.specs.Promised.{taken};

    ghost held = { λ s. W.contents (file_writer s) };

    ghost faults = { λ s. file_faults s };

    ghost firm = { λ s. 0 };

    /// [`FileSink::taken`] rises by just the bytes that were taken.
    fn write(&mut self, bytes: &[u8]) -> Result<usize, Failed>
        requires { 0 < length bytes.now }
        ensures bound { WritesAtMost result bytes.now }
        ensures some { IfOk result (λ n. 0 < n) }
        ensures bytes { WriteAppends (W.contents (file_writer self.old)) (W.contents (file_writer self.new)) result bytes.now }
        ensures faults { CountsFault (is_err result) (file_faults self.old) (file_faults self.new) }
        ensures firm { length bytes.now ≤ 0 → is_err result ≡ false }
        ensures lowered { 0 ≡ 0 - taken result }

        ensures taken { IfOk result (λ n. file_taken self.new ≡ raised (file_taken self.old) n) }
        ensures untaken { OnErr result (file_taken self.new ≡ file_taken self.old) }
    {
        self.sink.write(bytes)
    }
}
