use crate::fault::Fault;
use crate::words::Words;
use p9_word::LockReq;

/// A request on locks, Rendezes, Refs and tags by its name, with what follows the name; `None` where no such request has the
/// name.
pub(crate) fn lock_request(name: &str, words: &mut Words) -> Result<Option<LockReq>, Fault> {
    let request = match name {
        "rendezvous" => LockReq::Rendezvous {
            tag: words.number()?,
            value: words.number()?,
        },
        "lock" => LockReq::Lock { k: words.id()? },
        "canlock" => LockReq::CanLock { k: words.id()? },
        "unlock" => LockReq::Unlock { k: words.id()? },
        "qlock" => LockReq::QLock { k: words.id()? },
        "canqlock" => LockReq::CanQLock { k: words.id()? },
        "qunlock" => LockReq::QUnlock { k: words.id()? },
        "rlock" => LockReq::RLock { k: words.id()? },
        "canrlock" => LockReq::CanRLock { k: words.id()? },
        "runlock" => LockReq::RUnlock { k: words.id()? },
        "wlock" => LockReq::WLock { k: words.id()? },
        "canwlock" => LockReq::CanWLock { k: words.id()? },
        "wunlock" => LockReq::WUnlock { k: words.id()? },
        "rsleep" => LockReq::RSleep { k: words.id()? },
        "rwakeup" => LockReq::RWakeup { k: words.id()? },
        "rwakeupall" => LockReq::RWakeupAll { k: words.id()? },
        "incref" => LockReq::IncRef { k: words.id()? },
        "decref" => LockReq::DecRef { k: words.id()? },
        _ => return Ok(None),
    };
    Ok(Some(request))
}
