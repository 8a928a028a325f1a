use crate::fault::Fault;
use crate::words::Words;
use p9_word::SignalReq;
use std::alloc::Global;

/// The handler that a threadnotify adds or removes: its id, its prefix, and `on` or `off`.
fn handler(alloc: Global, words: &mut Words) -> Result<SignalReq, Fault> {
    let id = words.id()?;
    let prefix = words.text(alloc)?;
    let on = match words.word()? {
        "on" => true,
        "off" => false,
        _ => return Err(Fault::NotUnderstood),
    };
    Ok(SignalReq::ThreadNotify { on, id, prefix })
}

/// A request that interrupts or kills threads, or is about notes, by its name, with what follows the name; `None` where no such
/// request has the name.
pub(crate) fn signal_request(
    alloc: Global,
    name: &str,
    words: &mut Words,
) -> Result<Option<SignalReq>, Fault> {
    let request = match name {
        "threadint" => SignalReq::ThreadInt { tid: words.id()? },
        "threadkill" => SignalReq::ThreadKill { tid: words.id()? },
        "threadintgrp" => SignalReq::ThreadIntGrp { group: words.id()? },
        "threadkillgrp" => SignalReq::ThreadKillGrp { group: words.id()? },
        "threadnotify" => handler(alloc, words)?,
        "postnote" => SignalReq::PostNote {
            proc_no: words.id()?,
            note: words.text(alloc)?,
        },
        _ => return Ok(None),
    };
    Ok(Some(request))
}
