ghost use Rattle.std.specs.Prelude.{◌≡◌};

use p9_word::Tid;

/// The threads that end, as a test on their ids. thread(2).
pub trait Gone {
    ghost use Rattle.p9_manual.specs.Ends.{Gone};

    /// The threads that end. No call changes them.
    ghost ends: { Self → Gone };

    /// Whether thread t is one of them.
    fn has(&self, t: Tid) -> bool
        ensures { result ≡ ends self.now t };
}

/// The one thread with this id, as a set of threads that end.
#[derive(Drop)]
pub struct One(pub Tid);

impl Gone for One {
    ghost use Rattle.std.specs.Prelude.{◌==◌};

    ghost ends = { λ x t. t == x.0 };

    fn has(&self, t: Tid) -> bool {
        t == self.0
    }
}
