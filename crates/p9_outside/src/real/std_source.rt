ghost use Rattle.std.specs.Prelude.{◌≡◌, IfOk, OnErr};
ghost use Rattle.std.specs.Io.{ReadsAtMost};
ghost use Rattle.std.specs.Io.KnownBytes.{ReadConsumes};

use crate::real::TRIES;
use crate::{Failed, Source};
use std::io::{ErrorKind, Read};

/// A source over any reader. It tells the bytes that its reader tells; a file, a pipe and a terminal tell
/// nothing. Of every reader it counts the bytes that it gave.
#[derive(Drop)]
pub struct StdSource<R> {
    inner: R,
    faults: u64,
    given: u64,
}

impl<R: Read> StdSource<R> {
    ghost use Rattle.p9_outside.specs.Adapters.{reader_of, reader_faults, reader_given};

    /// A source over this reader, with no fault so far, and nothing given.
    pub fn new(inner: R) -> StdSource<R>
        ensures inner { reader_of result ≡ inner }
        ensures faults { reader_faults result ≡ 0 }
        ensures given { reader_given result ≡ 0 }
    {
        StdSource {
            inner,
            faults: 0,
            given: 0,
        }
    }

    /// How many bytes the reader has given since [`StdSource::new`]. At the greatest u64 the count stands.
    pub fn given(&self) -> u64
        ensures { result ≡ reader_given self.now }
    {
        self.given
    }
}

/// Reads, and tries again where the read was interrupted.
fn read_on<R: Read>(inner: &mut R, buf: &mut [u8]) -> Result<usize, Failed>
    ensures bound { ReadsAtMost result buf.new }
    ensures bytes { ReadConsumes (R.remaining inner.old) (R.remaining inner.new) result buf.new }
{
    for _ in 0..TRIES {
        match inner.read(buf) {
            Ok(count) => return Ok(count),
            Err(error) if error.kind() == ErrorKind::Interrupted => {}
            Err(_) => return Err(Failed),
        }
    }
    Err(Failed)
}

impl<R: Read> Source for StdSource<R> {
    ghost use Rattle.std.specs.Prelude.{◌<◌, false, length, is_err};
    ghost use Rattle.p9_outside.specs.Adapters.{reader_of, reader_faults, reader_given};
    ghost use Rattle.p9_outside.specs.Causes.{CountsFault};
    ghost use Rattle.p9_outside.specs.Counts.{raised};
    ghost use Rattle.p9_outside.specs.Promised.{StaysSteady};

    ghost left = { λ s. R.remaining (reader_of s) };

    ghost faults = { λ s. reader_faults s };

    ghost steady = { λ s. false };

    /// A read that was interrupted is tried again. [`StdSource::given`] rises by just the bytes that were
    /// given.
    fn read(&mut self, buf: &mut [u8]) -> Result<usize, Failed>
        requires { 0 < length buf.old }
        ensures bound { ReadsAtMost result buf.new }
        ensures bytes { ReadConsumes (R.remaining (reader_of self.old)) (R.remaining (reader_of self.new)) result buf.new }
        ensures faults { CountsFault (is_err result) (reader_faults self.old) (reader_faults self.new) }
        ensures steady { StaysSteady (is_err result) false false }

        ensures given { IfOk result (λ n. reader_given self.new ≡ raised (reader_given self.old) n) }
        ensures ungiven { OnErr result (reader_given self.new ≡ reader_given self.old) }
    {
        let outcome = read_on(&mut self.inner, buf);
        match outcome {
            Ok(count) => self.given = self.given.saturating_add(count as u64),
            Err(Failed) => self.faults = self.faults.saturating_add(1),
        }
        outcome
    }
}
