use p9_word::{ChanReq, Msg, NoMemory, Reply, Request, ThreadReq, Tid};
use std::alloc::Global;

/// The program of the thread that sends.
pub(crate) const SENDS: u32 = 1;
/// The program of the thread that receives.
pub(crate) const RECEIVES: u32 = 2;

/// The channel between them.
const CHANNEL: u32 = 1;

/// Which thread runs by this reply, and what it asks; `None` where no thread runs.
///
/// Each thread makes its one request on the channel when it begins, and exits when it has the answer.
pub(crate) fn request_after(
    alloc: Global,
    turn: &Reply,
) -> Result<Option<(Tid, Request)>, NoMemory> {
    match turn {
        Reply::Begin(thread, SENDS, _) => Ok(Some((*thread, send(alloc)?))),
        Reply::Begin(thread, _, _) => Ok(Some((*thread, receive()))),
        Reply::Turn(thread, _) => Ok(Some((*thread, exit()))),
        _ => Ok(None),
    }
}

fn send(alloc: Global) -> Result<Request, NoMemory> {
    Ok(Request::Chan(ChanReq::Send {
        chan: CHANNEL,
        value: Some(Msg::from_slice(alloc, b"hello")?),
    }))
}

fn receive() -> Request {
    Request::Chan(ChanReq::Recv {
        keep: true,
        chan: CHANNEL,
    })
}

fn exit() -> Request {
    Request::Thread(ThreadReq::ThreadExits { text: Msg::new() })
}
