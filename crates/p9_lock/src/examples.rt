//! Locks, worked out as laws of the definitions.
ghost use Rattle.p9_lock.specs.Examples.{ReadersGoTogether, ReadersWaitBehindAWriter, SleepsAndIsWoken};

/// A thread that sleeps gives the lock up, and has it again only after it is woken and the lock is given up.
pub fn a_thread_sleeps_and_is_woken()
    ensures { SleepsAndIsWoken }
{}

/// A reader waits behind a writer that waits.
pub fn readers_wait_behind_a_writer()
    ensures { ReadersWaitBehindAWriter }
{}

/// All readers up to the first writer get the lock at once.
pub fn readers_go_together()
    ensures { ReadersGoTogether }
{}
