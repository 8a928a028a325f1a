use p9_word::{Answer, Tid};

/// A thread that is woken, with its answer.
#[derive(Drop)]
pub struct Wake {
    /// The thread.
    pub tid: Tid,
    /// Its answer.
    pub answer: Answer,
}

/// What becomes of an alt. alt in thread(2).
#[derive(Drop)]
pub enum Offer {
    /// An entry went on, with this answer.
    Done(Answer),
    /// No entry is ready, and the list doesn't block.
    NoBlock,
    /// Each entry that isn't a no-op has err set, and there is one.
    Closed,
    /// No entry is ready, and the thread waits.
    Waits,
}
