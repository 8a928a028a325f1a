ghost use Rattle.std.specs.Option.{option_to_list};
ghost use Rattle.p9_lock_calls.specs.Granted.{AreWaiting, StillRuns, TracksGranted, TracksHolder};

use p9_sched::Sched;
use p9_word::{Answer, Tid};

/// Makes these threads ready, in this order. They waited, and none held its proc.
pub(crate) fn wake_all(sched: &mut Sched, woken: &[Tid])
    requires { AreWaiting sched.old.threads woken.now }
    ensures woken { TracksGranted woken.now sched.old sched.new }
    ensures runs { StillRuns sched.old.threads sched.new.threads }
{
    for u in woken {
        sched.ready(*u, Answer::Done);
    }
}

/// Makes the thread that is granted a Lock ready, if one is. Its proc was held while it waited.
pub(crate) fn wake_holder(sched: &mut Sched, next: Option<Tid>)
    requires { AreWaiting sched.old.threads (option_to_list next) }
    ensures { TracksHolder (option_to_list next) sched.old sched.new }
{
    if let Some(u) = next {
        sched.ready_holder(u, Answer::Done);
    }
}
