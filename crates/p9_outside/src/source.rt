ghost use Rattle.std.specs.Prelude.{◌<◌, List, ℕ, Bool, length, Option, is_err};
ghost use Rattle.std.specs.Io.{ReadsAtMost};
ghost use Rattle.std.specs.Io.KnownBytes.{ReadConsumes};
ghost use Rattle.p9_outside.specs.Causes.{CountsFault};
ghost use Rattle.p9_outside.specs.Promised.{StaysSteady};

use thiserror::Error;

/// A read or a write has failed.
#[derive(Clone, Copy, Debug, PartialEq, Eq, Error)]
#[error("a read or a write failed")]
pub struct Failed;

/// Bytes to read, from the first to the last.
///
/// A source may tell which bytes it has left, as those in memory do, or tell nothing, as a file of the
/// system. It counts its faults: the count rises by one with each failed read, and at nothing else. It may
/// also tell that it is steady: then no read of it fails from now on.
pub trait Source {
    /// The bytes that are not read yet, where they are told.
    ghost left: { Self → Option (List ℕ) };

    /// How often a read has failed. At the greatest u64 it stands.
    ghost faults: { Self → ℕ };

    /// No later read of it fails, where this is told.
    ghost steady: { Self → Bool };

    /// Moves the next bytes to the front of `buf`, and answers how many: at most its length. 0 is the end,
    /// and where the bytes are told it comes exactly at the end.
    ///
    /// `Failed` raises the count of faults by just one, and no byte is lost then. Else the count stays.
    fn read(&mut self, buf: &mut [u8]) -> Result<usize, Failed>
        requires { 0 < length buf.old }
        ensures bound { ReadsAtMost result buf.new }
        ensures bytes { ReadConsumes (left self.old) (left self.new) result buf.new }
        ensures faults { CountsFault (is_err result) (faults self.old) (faults self.new) }
        ensures steady { StaysSteady (is_err result) (steady self.old) (steady self.new) };
}
