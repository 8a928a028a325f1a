use p9_word::Tid;

/// What a lock is asked for, or held, as. lock(2).
#[derive(Clone, Copy, Debug, PartialEq, Eq)]
pub enum Sort {
    /// A Lock.
    Lock,
    /// A QLock.
    QLock,
    /// An RWLock, by one of its readers.
    Read,
    /// An RWLock, by its writer.
    Write,
}

/// What a thread waits for. lock(2), rendezvous(2).
#[derive(Clone, Copy, Debug, PartialEq, Eq)]
pub enum LockWait {
    /// Another thread that comes with this tag.
    Tag(u64),
    /// The lock of this sort with this number.
    Lock(Sort, u32),
    /// To be woken at the Rendez with this number.
    Sleep(u32),
}

/// A thread that waits for a lock, at a Rendez or for another thread. lock(2), rendezvous(2).
#[derive(Clone, Copy, Debug, PartialEq, Eq)]
pub struct LockWaiter {
    /// The thread.
    pub tid: Tid,
    /// What it waits for.
    pub what: LockWait,
    /// The value that it brings to its tag, or 0.
    pub value: u64,
}
