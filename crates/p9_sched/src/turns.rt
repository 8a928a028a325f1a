use p9_word::{Answer, Tid};

/// What a thread goes on with when its turn comes.
#[derive(Drop)]
pub enum Ready {
    /// This thread has not run yet: its program, from 1, and what it is started with.
    New(Tid, u32, u64),
    /// This thread has the answer of its last request.
    Old(Tid, Answer),
}

/// Where a thread is. It lives until it has ended. thread(2).
#[derive(Clone, Copy, Debug, PartialEq, Eq)]
pub enum Place {
    /// It runs in its proc.
    Running,
    /// It stands in the ready line of its proc.
    Ready,
    /// It waits for the answer of its last request.
    Waiting,
    /// It has ended.
    Ended,
}
