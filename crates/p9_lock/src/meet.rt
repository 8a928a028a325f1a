use p9_word::Tid;

/// What becomes of a thread that comes with a tag. rendezvous(2).
#[derive(Clone, Copy, Debug, PartialEq, Eq)]
pub enum Meet {
    /// It meets this thread, which brought this value.
    Met(Tid, u64),
    /// It waits for another one.
    Waits,
}
