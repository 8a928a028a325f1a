use crate::fault::Fault;
use crate::words::Words;
use p9_word::ThreadReq;
use std::alloc::Global;

/// A request on threads by its name, with what follows the name; `None` where no such request has the name.
pub(crate) fn thread_request(
    alloc: Global,
    name: &str,
    words: &mut Words,
) -> Result<Option<ThreadReq>, Fault> {
    let request = match name {
        "threadcreate" => ThreadReq::ThreadCreate {
            program: words.id()?,
            arg: words.number()?,
        },
        "proccreate" => ThreadReq::ProcCreate {
            program: words.id()?,
            arg: words.number()?,
        },
        "threadexits" => ThreadReq::ThreadExits {
            text: words.text(alloc)?,
        },
        "threadexitsall" => ThreadReq::ThreadExitsAll {
            text: words.text(alloc)?,
        },
        "yield" => ThreadReq::Yield,
        "threadid" => ThreadReq::ThreadId,
        "threadpid" => ThreadReq::ThreadPid { tid: words.id()? },
        "threadgetgrp" => ThreadReq::ThreadGetGrp,
        "threadsetgrp" => ThreadReq::ThreadSetGrp { group: words.id()? },
        "threadsetname" => ThreadReq::ThreadSetName {
            name: words.text(alloc)?,
        },
        "threadgetname" => ThreadReq::ThreadGetName,
        "threadword" => ThreadReq::ThreadWord,
        "threadsetword" => ThreadReq::ThreadSetWord {
            word: words.number()?,
        },
        "procword" => ThreadReq::ProcWord,
        "procsetword" => ThreadReq::ProcSetWord {
            word: words.number()?,
        },
        _ => return Ok(None),
    };
    Ok(Some(request))
}
