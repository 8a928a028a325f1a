ghost use Rattle.std.specs.Prelude.{◌≡◌};
ghost use Rattle.p9_lang.specs.declared.fault.LineFault.TheVariants.{Memory};

use p9_grammar::Why;
use p9_word::NoMemory;
use std::alloc::{AllocError, AllocFailed};

/// Why a text was not read.
#[derive(Clone, Copy, Debug, PartialEq, Eq)]
pub enum ReadFault {
    /// The first faulty line, from 1, and what is wrong there.
    Text { line: u32, why: Why },
    /// Memory was wanted.
    Memory,
}

/// Why a line was not read.
#[derive(Clone, Copy, Debug, PartialEq, Eq)]
pub(crate) enum LineFault {
    /// Memory was wanted.
    Memory,
    /// What is wrong with the line.
    Text(Why),
}

impl From<NoMemory> for LineFault {
    ghost from_gives = { λ _ fault. fault ≡ Memory };

    fn from(_wanted: NoMemory) -> LineFault {
        LineFault::Memory
    }
}

impl From<AllocError> for LineFault {
    ghost from_gives = { λ _ fault. fault ≡ Memory };

    fn from(_wanted: AllocError) -> LineFault {
        LineFault::Memory
    }
}

impl<T: Drop> From<AllocFailed<T>> for LineFault {
    ghost from_gives = { λ _ fault. fault ≡ Memory };

    fn from(_wanted: AllocFailed<T>) -> LineFault {
        LineFault::Memory
    }
}
