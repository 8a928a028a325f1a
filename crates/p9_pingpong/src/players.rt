use p9_word::{Answer, ChanReq, Reply, Tid};

/// The channel from the first player to the second.
const TO: u32 = 1;
/// The channel back.
const FRO: u32 = 2;
/// The channel on which all others wait.
const ELSEWHERE: u32 = 3;

/// What a player has just been told.
#[derive(Clone, Copy)]
pub(crate) enum Told {
    /// It begins.
    Begins,
    /// The number was sent.
    Sent,
    /// The number came.
    Got,
}

/// Which thread runs next, and what it is told; `None` for a reply that is none of a ping-pong.
pub(crate) fn turn_of(reply: &Reply) -> Option<(Tid, Told)> {
    match reply {
        Reply::Begin(t, _, _) => Some((*t, Told::Begins)),
        Reply::Turn(t, Answer::Sent) => Some((*t, Told::Sent)),
        Reply::Turn(t, Answer::Got { .. }) => Some((*t, Told::Got)),
        _ => None,
    }
}

/// What thread t asks. The threads after those that wait elsewhere are the first player and the second.
pub(crate) fn request_of(t: Tid, waiting: u32, told: Told) -> ChanReq {
    if t <= waiting {
        ChanReq::RecvUl { chan: ELSEWHERE }
    } else if t - waiting == 1 {
        first_asks(told)
    } else {
        second_asks(told)
    }
}

/// The first player sends the number and takes it back.
fn first_asks(told: Told) -> ChanReq {
    match told {
        Told::Begins | Told::Got => ChanReq::SendUl { chan: TO, n: 7 },
        Told::Sent => ChanReq::RecvUl { chan: FRO },
    }
}

/// The second player takes the number and sends it back.
fn second_asks(told: Told) -> ChanReq {
    match told {
        Told::Begins | Told::Sent => ChanReq::RecvUl { chan: TO },
        Told::Got => ChanReq::SendUl { chan: FRO, n: 7 },
    }
}
