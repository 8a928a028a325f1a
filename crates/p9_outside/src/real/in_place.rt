ghost use Rattle.std.specs.Prelude.{◌≡◌};
ghost use Rattle.p9_outside.specs.Counts.{raised};

use std::fs::File;

/// How many files that were written in place have been closed. At the greatest u64 the count stands.
///
/// It rises where such a file is let go, and nowhere else.
#[derive(Drop)]
pub(crate) struct InPlace {
    count: u64,
}

impl InPlace {
    ghost use Rattle.p9_outside.specs.Adapters.{in_place_count};

    /// No file so far.
    pub(crate) fn new() -> InPlace
        ensures { in_place_count result ≡ 0 }
    {
        InPlace { count: 0 }
    }

    /// How many there were.
    pub(crate) fn count(&self) -> u64
        ensures { result ≡ in_place_count self.now }
    {
        self.count
    }

    /// Lets go of a file that was written in place.
    pub(crate) fn let_go(&mut self, file: File)
        ensures { in_place_count self.new ≡ raised (in_place_count self.old) 1 }
    {
        drop(file);
        self.count = self.count.saturating_add(1);
    }
}
