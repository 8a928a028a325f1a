ghost use Rattle.std.specs.Prelude.{◌≡◌, true};
ghost use Rattle.p9_manual.specs.Claims.{has_lock};
ghost use Rattle.p9_manual.specs.LockCalls.{is_lock};
ghost use Rattle.p9_lock.specs.Locking.{IsLock};

use p9_lock::{Locks, Sort};
use p9_word::Tid;

/// Whether there is a lock k of a sort.
pub(crate) fn is_lock(locks: &Locks, s: Sort, k: u32) -> bool
    ensures is { result ≡ is_lock s k locks.now.holds }
    ensures there { result ≡ true → IsLock s k locks.now }
{
    locks.is_lock(s, k)
}

/// Whether thread t holds lock k of a sort, which may not be there.
pub(crate) fn has_lock(locks: &Locks, s: Sort, t: Tid, k: u32) -> bool
    ensures { result ≡ has_lock s t k locks.now.holds }
{
    locks.is_lock(s, k) && locks.holds(s, t, k)
}
