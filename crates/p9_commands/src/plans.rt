use crate::fault::Fault;
use crate::lines::{id, number, size};
use p9_outside::{MemFiles, PathFail};
use p9_word::Tid;
use std::alloc::Global;

/// Plans what one part of a command's line asks for, or gives the thread whose calls it asks for.
pub(crate) fn plan(alloc: Global, files: &mut MemFiles, part: &str) -> Result<Option<Tid>, Fault> {
    let words: Vec<&str> = part.split_whitespace().collect(alloc)?;
    let (path, fail) = match words.as_slice() {
        ["thread", t] => return Ok(Some(id(t)?)),
        ["room", len] => {
            files.room(size(len)?);
            return Ok(None);
        }
        [path, "source"] => (path, PathFail::Source),
        [path, "sink"] => (path, PathFail::Sink),
        [path, "close"] => (path, PathFail::Close),
        [path, "read", n] => (path, PathFail::Read(number(n)?)),
        [path, "write", n] => (path, PathFail::Write(number(n)?)),
        _ => return Err(Fault::NotUnderstood),
    };
    files.plan(path.as_bytes(), fail)?;
    Ok(None)
}
