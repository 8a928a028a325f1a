ghost use Rattle.std.specs.Prelude.{◌≡◌, ◌<◌, ◌≤◌, ◌-◌, false, List, ℕ, length, IfOk, Option, is_err};
ghost use Rattle.std.specs.Io.{WritesAtMost};
ghost use Rattle.std.specs.Io.KnownBytes.{WriteAppends};
ghost use Rattle.p9_outside.specs.Causes.{CountsFault};
ghost use Rattle.p9_outside.specs.Promised.{taken};

use crate::Failed;

/// What takes bytes, one after the other.
///
/// A sink may tell which bytes it has taken, as those in memory do, or tell nothing, as a file of the
/// system. It counts its faults: the count rises by one with each failed write, and at nothing else. It may
/// also tell how many bytes more it takes without a failure.
pub trait Sink {
    /// The bytes that it has taken, where they are told.
    ghost held: { Self → Option (List ℕ) };

    /// How often a write has failed. At the greatest u64 it stands.
    ghost faults: { Self → ℕ };

    /// So many bytes more are taken without a failure: a write that ends within them doesn't fail. 0 tells
    /// nothing.
    ghost firm: { Self → ℕ };

    /// Takes some of the first bytes, at least one, and answers how many.
    ///
    /// `Failed` raises the count of faults by just one, and no byte was taken then. Else the count stays.
    fn write(&mut self, bytes: &[u8]) -> Result<usize, Failed>
        requires { 0 < length bytes.now }
        ensures bound { WritesAtMost result bytes.now }
        ensures some { IfOk result (λ n. 0 < n) }
        ensures bytes { WriteAppends (held self.old) (held self.new) result bytes.now }
        ensures faults { CountsFault (is_err result) (faults self.old) (faults self.new) }
        ensures firm { length bytes.now ≤ firm self.old → is_err result ≡ false }
        ensures lowered { firm self.new ≡ firm self.old - taken result };
}
