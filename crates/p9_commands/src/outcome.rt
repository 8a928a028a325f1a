use crate::group::Group;
use crate::moved::through_files;
use p9_outside::MemFiles;
use p9_word::{Msg, Trail};
use std::alloc::{AllocError, Global};
use std::fmt;

/// What a command left.
#[derive(Drop)]
pub(crate) struct Left {
    pub(crate) status: u8,
    pub(crate) err: Msg,
    pub(crate) trail: Trail,
    pub(crate) files: MemFiles,
}

/// The messages of a command, as a text that one line holds.
#[derive(Clone, Copy)]
struct Messages<'a>(&'a [u8]);

impl fmt::Display for Messages<'_> {
    fn fmt<W: fmt::Write>(&self, f: &mut fmt::Formatter<W>) -> fmt::Result {
        match str::from_utf8(self.0) {
            Ok(text) => write!(f, "{text:?}"),
            Err(_) => write!(f, "no text"),
        }
    }
}

/// How the file that is copied to goes with the file that is copied.
#[derive(Clone, Copy)]
enum Out {
    /// It isn't there.
    Nothing,
    /// So many of the first bytes, of all these.
    Front(usize, usize),
    /// Something else.
    Other,
}

impl fmt::Display for Out {
    fn fmt<W: fmt::Write>(&self, f: &mut fmt::Formatter<W>) -> fmt::Result {
        match self {
            Out::Nothing => write!(f, "no out file"),
            Out::Front(len, all) => write!(f, "{len} of {all} bytes"),
            Out::Other => write!(f, "another out file"),
        }
    }
}

/// What stands in the file that is copied to.
fn copied(group: &Group, files: &MemFiles) -> Out {
    let Some(out) = files.get(group.to.as_bytes()) else {
        return Out::Nothing;
    };
    let input = files.get(group.from.as_bytes()).unwrap_or(b"");
    if input.starts_with(out) {
        Out::Front(out.len(), input.len())
    } else {
        Out::Other
    }
}

/// What went through the files of a run.
#[derive(Clone, Copy)]
struct Ran<'a>(&'a Trail);

impl fmt::Display for Ran<'_> {
    fn fmt<W: fmt::Write>(&self, f: &mut fmt::Formatter<W>) -> fmt::Result {
        if self.0.entries.as_slice().is_empty() {
            return write!(f, "nothing ran");
        }
        let moved = through_files(self.0);
        let (read, written, failures) = (moved.read, moved.written, moved.failures);
        write!(f, "read {read}, written {written}, {failures} failed")
    }
}

impl Left {
    /// What a command left, as a text.
    pub(crate) fn text(&self, alloc: Global, group: &Group) -> Result<String, AllocError> {
        let status = self.status;
        let messages = Messages(self.err.as_slice());
        let copied = copied(group, &self.files);
        let ran = Ran(&self.trail);
        format!(in alloc; "{status} {messages}, {copied}, {ran}")
    }
}
