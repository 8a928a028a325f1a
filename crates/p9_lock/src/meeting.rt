ghost use Rattle.std.specs.Prelude.{◌≡◌};
ghost use Rattle.p9_lock.specs.Meetings.{is_tag, meeting_of};

use crate::locks::Locks;
use p9_manual::{Gone, LockWait, LockWaiter};
use p9_word::Tid;

/// Whether a thread waits for another one with the same tag.
fn is_meeting(w: &LockWaiter) -> bool
    ensures { result ≡ is_tag w.now.what }
{
    matches!(w.what, LockWait::Tag(_))
}

impl Locks {
    /// The first of these threads that waits in a rendezvous. `None` exactly where none of them does. rendezvous(2).
    pub fn meeting_of<E: Gone>(&self, among: &E) -> Option<Tid>
        ensures { result ≡ meeting_of (E.ends among.now) self.now.waits }
    {
        let waits = self.waits.as_slice();
        let w = waits.iter().find(|w| is_meeting(w) && among.has(w.tid))?;
        Some(w.tid)
    }
}
