use crate::fault::Fault;
use crate::words::Words;
use p9_word::{Effect, IoCall, IoReq};
use std::alloc::Global;

/// A request on ioprocs by its name, with what follows the name; `None` where no such request has the name.
pub(crate) fn io_request(
    alloc: Global,
    name: &str,
    words: &mut Words,
) -> Result<Option<IoReq>, Fault> {
    match name {
        "ioproc" => Ok(Some(IoReq::IoProc { k: words.id()? })),
        "iorun" => {
            let k = words.id()?;
            let call = call(alloc, words)?;
            Ok(Some(IoReq::IoRun { k, call }))
        }
        "iointerrupt" => Ok(Some(IoReq::IoInterrupt { k: words.id()? })),
        "closeioproc" => Ok(Some(IoReq::CloseIoProc { k: words.id()? })),
        _ => Ok(None),
    }
}

/// A call on a file: `open`, `read` or `readn` with a number, `write` with a text, `close`, or `own` with a number and a text.
fn call(alloc: Global, words: &mut Words) -> Result<IoCall, Fault> {
    match words.word()? {
        "open" => Ok(IoCall::IoOpen),
        "read" => Ok(IoCall::IoRead(words.id()?)),
        "readn" => Ok(IoCall::IoReadN(words.id()?)),
        "write" => Ok(IoCall::IoWrite(words.text(alloc)?)),
        "close" => Ok(IoCall::IoClose),
        "own" => {
            let code = words.id()?;
            Ok(IoCall::IoOwn(code, words.text(alloc)?))
        }
        _ => Err(Fault::NotUnderstood),
    }
}

/// What a call came to: `opened`, `shut`, `got` with a text, `wrote` with a number, or `refused`; `failed` comes
/// last.
pub(crate) fn effect(alloc: Global, words: &mut Words) -> Result<Effect, Fault> {
    match words.word()? {
        "opened" => Ok(Effect::Opened),
        "shut" => Ok(Effect::Shut),
        "got" => {
            let bytes = words.text(alloc)?;
            let failed = words.takes("failed");
            Ok(Effect::Got { failed, bytes })
        }
        "wrote" => {
            let count = words.id()?;
            let failed = words.takes("failed");
            Ok(Effect::Wrote { count, failed })
        }
        "refused" => Ok(Effect::Refused),
        _ => Err(Fault::NotUnderstood),
    }
}
