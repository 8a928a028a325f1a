use crate::alts::alt_request;
use crate::fault::Fault;
use crate::words::Words;
use p9_word::{ChanReq, Msg};
use std::alloc::Global;

/// A request on channels by its name, with what follows the name; `None` where no such request has the name.
pub(crate) fn chan_request(
    alloc: Global,
    name: &str,
    words: &mut Words,
) -> Result<Option<ChanReq>, Fault> {
    let request = match name {
        "chancreate" => ChanReq::ChanCreate {
            cap: words.id()?,
            elsize: words.id()?,
        },
        "chanfree" => ChanReq::ChanFree { chan: words.id()? },
        "chanclose" => ChanReq::ChanClose { chan: words.id()? },
        "chanclosing" => ChanReq::ChanClosing { chan: words.id()? },
        "alt" => alt_request(alloc, words)?,
        "send" => ChanReq::Send {
            chan: words.id()?,
            value: value(alloc, words)?,
        },
        "recv" => receive(words)?,
        "nbsend" => ChanReq::NbSend {
            chan: words.id()?,
            value: value(alloc, words)?,
        },
        "nbrecv" => try_receive(words)?,
        "sendul" => ChanReq::SendUl {
            chan: words.id()?,
            n: words.number()?,
        },
        "recvul" => ChanReq::RecvUl { chan: words.id()? },
        "nbsendul" => ChanReq::NbSendUl {
            chan: words.id()?,
            n: words.number()?,
        },
        "nbrecvul" => ChanReq::NbRecvUl { chan: words.id()? },
        "chanprint" => ChanReq::ChanPrint {
            chan: words.id()?,
            text: words.text(alloc)?,
        },
        _ => return Ok(None),
    };
    Ok(Some(request))
}

/// A value to send: a text, or `null`.
fn value(alloc: Global, words: &mut Words) -> Result<Option<Msg>, Fault> {
    if words.takes("null") {
        Ok(None)
    } else {
        Ok(Some(words.text(alloc)?))
    }
}

/// What becomes of a value that is received: `keep` or `null`.
fn keeps(words: &mut Words) -> Result<bool, Fault> {
    match words.word()? {
        "keep" => Ok(true),
        "null" => Ok(false),
        _ => Err(Fault::NotUnderstood),
    }
}

fn receive(words: &mut Words) -> Result<ChanReq, Fault> {
    let chan = words.id()?;
    let keep = keeps(words)?;
    Ok(ChanReq::Recv { keep, chan })
}

fn try_receive(words: &mut Words) -> Result<ChanReq, Fault> {
    let chan = words.id()?;
    let keep = keeps(words)?;
    Ok(ChanReq::NbRecv { keep, chan })
}
