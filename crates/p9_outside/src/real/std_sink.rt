ghost use Rattle.std.specs.Prelude.{◌≡◌, ◌<◌, IfOk, OnErr, length};
ghost use Rattle.std.specs.Io.{WritesAtMost};
ghost use Rattle.std.specs.Io.KnownBytes.{WriteAppends};

use crate::real::TRIES;
use crate::{Failed, Sink};
use std::io::{ErrorKind, Write};

/// A sink over any writer. It tells the bytes that its writer tells; a file, a pipe and a terminal tell
/// nothing. Of every writer it counts the bytes that it took. Nothing is kept back: give it a writer that
/// has no buffer.
#[derive(Drop)]
pub struct StdSink<W> {
    inner: W,
    faults: u64,
    taken: u64,
}

impl<W: Write> StdSink<W> {
    ghost use Rattle.p9_outside.specs.Adapters.{writer_of, writer_faults, writer_taken};

    /// A sink over this writer, with no fault so far, and nothing taken.
    pub fn new(inner: W) -> StdSink<W>
        ensures inner { writer_of result ≡ inner }
        ensures faults { writer_faults result ≡ 0 }
        ensures taken { writer_taken result ≡ 0 }
    {
        StdSink {
            inner,
            faults: 0,
            taken: 0,
        }
    }

    /// The writer.
    pub fn get_ref(&self) -> &W
        ensures { result.now ≡ writer_of self.now }
    {
        &self.inner
    }

    /// How many bytes the writer has taken since [`StdSink::new`]. At the greatest u64 the count stands.
    pub fn taken(&self) -> u64
        ensures { result ≡ writer_taken self.now }
    {
        self.taken
    }

    /// How often a write has failed. At the greatest u64 it stands.
    pub(crate) fn fault_count(&self) -> u64
        ensures { result ≡ writer_faults self.now }
    {
        self.faults
    }

    /// The writer, with what was written.
    pub fn into_inner(self) -> W
        ensures { result ≡ writer_of self }
    {
        let StdSink {
            inner,
            faults: _,
            taken: _,
        } = self;
        inner
    }
}

/// Writes, and tries again where the write was interrupted. A write that takes nothing has failed.
fn write_on<W: Write>(inner: &mut W, bytes: &[u8]) -> Result<usize, Failed>
    ensures bound { WritesAtMost result bytes.now }
    ensures some { IfOk result (λ n. 0 < n) }
    ensures bytes { WriteAppends (W.contents inner.old) (W.contents inner.new) result bytes.now }
{
    for _ in 0..TRIES {
        match inner.write(bytes) {
            Ok(count) if count > 0 => return Ok(count),
            Err(error) if error.kind() == ErrorKind::Interrupted => {}
            _ => return Err(Failed),
        }
    }
    Err(Failed)
}

impl<W: Write> Sink for StdSink<W> {
    ghost use Rattle.p9_outside.specs.Adapters.{writer_of, writer_faults, writer_taken};
    ghost use Rattle.std.specs.Prelude.{◌≤◌, ◌-◌, false, is_err};
    ghost use Rattle.p9_outside.specs.Causes.{CountsFault};
    ghost use Rattle.p9_outside.specs.Counts.{raised};
    ghost use Rattle.p9_outside.specs.Promised.{taken};

    ghost held = { λ s. W.contents (writer_of s) };

    ghost faults = { λ s. writer_faults s };

    ghost firm = { λ s. 0 };

    /// A write that takes nothing has failed. One that was interrupted is tried again. [`StdSink::taken`] rises by just the bytes that were taken.
    fn write(&mut self, bytes: &[u8]) -> Result<usize, Failed>
        requires { 0 < length bytes.now }
        ensures bound { WritesAtMost result bytes.now }
        ensures some { IfOk result (λ n. 0 < n) }
        ensures bytes { WriteAppends (W.contents (writer_of self.old)) (W.contents (writer_of self.new)) result bytes.now }
        ensures faults { CountsFault (is_err result) (writer_faults self.old) (writer_faults self.new) }
        ensures firm { length bytes.now ≤ 0 → is_err result ≡ false }
        ensures lowered { 0 ≡ 0 - taken result }

        ensures taken { IfOk result (λ n. writer_taken self.new ≡ raised (writer_taken self.old) n) }
        ensures untaken { OnErr result (writer_taken self.new ≡ writer_taken self.old) }
    {
        let outcome = write_on(&mut self.inner, bytes);
        match outcome {
            Ok(count) => self.taken = self.taken.saturating_add(count as u64),
            Err(Failed) => self.faults = self.faults.saturating_add(1),
        }
        outcome
    }
}
