ghost use Rattle.std.specs.Prelude.{◌≡◌, All};
ghost use Rattle.p9_manual.specs.State.{by_id};
ghost use Rattle.p9_sched.specs.Turns.{place_of};
ghost use Rattle.p9_sched.specs.Stands.{Tracks};
ghost use Rattle.p9_chan_calls.specs.Wakes.{pairs_of, pair_in, all_readied, AreWaiting, IsFailure, told};

use p9_alt::{Offer, Wake};
use p9_sched::{Place, Sched};
use p9_word::{Answer, Msg, Tid};

/// A copy of an answer that tells that a channel is closed.
fn copy_failure(answer: &Answer) -> Answer
    requires { IsFailure answer.now }
    ensures { result ≡ answer.now }
{
    match answer {
        Answer::Index { i, .. } => Answer::Index {
            err: true,
            i: *i,
            from: None,
            msg: Msg::new(),
        },
        _ => Answer::Closed,
    }
}

/// Makes these threads ready, in this order. They waited on a channel that is closed.
pub(crate) fn wake_all(sched: &mut Sched, wakes: &[Wake])
    requires waiting { AreWaiting sched.old.threads (pairs_of wakes.now) }
    requires failed { All (λ w. IsFailure w.answer) wakes.now }
    ensures { Tracks (all_readied (pairs_of wakes.now)) sched.old sched.new }
{
    for wake in wakes {
        sched.ready(wake.tid, copy_failure(&wake.answer));
    }
}

/// Makes the thread that is woken ready, if one is.
pub(crate) fn wake_one(sched: &mut Sched, woken: Option<Wake>)
    requires { AreWaiting sched.old.threads (pair_in woken) }
    ensures { Tracks (all_readied (pair_in woken)) sched.old sched.new }
{
    if let Some(wake) = woken {
        sched.ready(wake.tid, wake.answer);
    }
}

/// Lets the caller go on with what it is told, or wait.
pub(crate) fn answer_caller(sched: &mut Sched, t: Tid, offer: Offer)
    requires { place_of (by_id sched.old.threads t) ≡ Place.Running }
    ensures { Tracks (told t offer) sched.old sched.new }
{
    match offer {
        Offer::Done(answer) => sched.ready(t, answer),
        Offer::NoBlock => sched.ready(t, Answer::NoBlock),
        Offer::Closed => sched.ready(t, Answer::Closed),
        Offer::Waits => sched.wait(t),
    }
}
