use p9_word::NoMemory;
use std::alloc::AllocError;
use std::fmt;

/// Why a script isn't played to its end.
#[derive(Clone, Copy)]
pub(crate) enum Fault {
    /// A line isn't understood.
    NotUnderstood,
    /// A history's first line asks for more threads than any run has.
    ManyThreads,
    /// An entry of the trail of a history isn't equal to its copy.
    OtherCopy,
    /// There is no memory.
    NoMemory,
    /// The script can't be read, or is no text.
    Input,
    /// The output isn't taken.
    Output,
}

/// A script isn't played to its end.
#[derive(Clone, Copy)]
pub(crate) struct Failure {
    /// The number of the line, from 1, or 0 where no line is to blame.
    pub(crate) number: usize,
    /// Why.
    pub(crate) fault: Fault,
}

impl fmt::Display for Fault {
    fn fmt<W: fmt::Write>(&self, f: &mut fmt::Formatter<W>) -> fmt::Result {
        match self {
            Fault::NotUnderstood => write!(f, "not understood"),
            Fault::ManyThreads => write!(f, "more threads than any run has"),
            Fault::OtherCopy => write!(f, "an entry differs from its copy"),
            Fault::NoMemory => write!(f, "out of memory"),
            Fault::Input => write!(f, "the script can't be read"),
            Fault::Output => write!(f, "the output isn't taken"),
        }
    }
}

impl From<NoMemory> for Fault {
    fn from(_error: NoMemory) -> Fault {
        Fault::NoMemory
    }
}

impl From<AllocError> for Fault {
    fn from(_error: AllocError) -> Fault {
        Fault::NoMemory
    }
}
