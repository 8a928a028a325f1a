ghost use Rattle.std.specs.Prelude.{◌≡◌, ℕ, List, true, false, IfOk, OnOk, OnErr};
ghost use Rattle.p9_outside.specs.Causes.{CountsFault, is_failed};
ghost use Rattle.p9_outside.specs.Contents.{Told, Stay, Opens, IsFresh, Puts};
ghost use Rattle.p9_outside.specs.Promised.{PathTold, KeepsTold};

use crate::{Sink, Source};
use std::alloc::Global;
use thiserror::Error;

/// Why a call on files did not do what was asked. No contents have changed.
#[derive(Clone, Copy, Debug, PartialEq, Eq, Error)]
pub enum FilesFault {
    /// The file can't be opened or closed, and the count of faults has risen.
    #[error("the file can't be opened or closed")]
    Failed,
    /// Memory was wanted.
    #[error("memory was wanted")]
    Memory,
}

/// Files by their paths. A path is any bytes.
///
/// A path gets new contents when a sink for it is closed, and not before. Files may tell the contents of
/// each path, as those in memory do, or tell nothing, as the system's. They count the calls that failed:
/// the count rises by one with each, and at nothing else, want of memory neither. They may also tell of a
/// path that its calls, and those of its sources and sinks, don't fail; what is told so stays told.
pub trait Files {
    /// What a path is read by.
    type Src: Source + Send + Drop;

    /// What the new contents of a path are written to.
    type Dst: Sink + Send + Drop;

    /// The contents of each path, where they are told.
    ghost contents: { Self → Told };

    /// How often a call has failed. At the greatest u64 it stands.
    ghost faults: { Self → ℕ };

    /// What is told of each path.
    ghost told: { Self → List ℕ → PathTold };

    /// A source of the path's contents. A path without contents is `Failed`. No contents change. Where the
    /// path is told found it is never `Failed`, and the source is steady just where the path is told so.
    fn source(&mut self, alloc: Global, path: &[u8]) -> Result<Self::Src, FilesFault>
        ensures contents { Stay (contents self.old) (contents self.new) }
        ensures opens { IfOk result (λ s. Opens (contents self.old) path.now (Self.Src.left s)) }
        ensures faults { CountsFault (is_failed result) (faults self.old) (faults self.new) }
        ensures kept { KeepsTold (told self.old) (told self.new) }
        ensures sure { (told self.old path.now).found ≡ true → is_failed result ≡ false }
        ensures steady { IfOk result (λ s. Self.Src.steady s ≡ (told self.old path.now).steady) };

    /// A sink for the path that has taken nothing yet. No contents change. A sink that is let go without
    /// [`Files::close`] leaves nothing behind. Where the path is told to be made it is never `Failed`, and
    /// the sink takes as many bytes without a failure as the path is told to.
    fn sink(&mut self, alloc: Global, path: &[u8]) -> Result<Self::Dst, FilesFault>
        ensures contents { Stay (contents self.old) (contents self.new) }
        ensures fresh { IfOk result (λ s. IsFresh (contents self.old) (Self.Dst.held s)) }
        ensures faults { CountsFault (is_failed result) (faults self.old) (faults self.new) }
        ensures kept { KeepsTold (told self.old) (told self.new) }
        ensures sure { (told self.old path.now).made ≡ true → is_failed result ≡ false }
        ensures firm { IfOk result (λ s. Self.Dst.firm s ≡ (told self.old path.now).firm) };

    /// Makes what the sink has taken the contents of the path. Those of every other path stay, and after
    /// an error all contents stay. Where the path is told to close it is never `Failed`.
    ///
    /// `dst` is a sink that [`Files::sink`] gave for this path.
    fn close(&mut self, path: &[u8], dst: Self::Dst) -> Result<(), FilesFault>
        ensures ok { OnOk result (Puts (contents self.old) (contents self.new) path.now (Self.Dst.held dst)) }
        ensures err { OnErr result (Stay (contents self.old) (contents self.new)) }
        ensures faults { CountsFault (is_failed result) (faults self.old) (faults self.new) }
        ensures kept { KeepsTold (told self.old) (told self.new) }
        ensures sure { (told self.old path.now).closes ≡ true → is_failed result ≡ false };
}
