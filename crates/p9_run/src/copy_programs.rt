use crate::reader::Reader;
use crate::writer::Writer;
use p9_word::{Answer, Body, NoMemory, Programs, Request};
use std::alloc::Global;

/// The code of one thread of a copy.
#[derive(Drop)]
pub(crate) enum CopyBody {
    /// It reads the in file.
    Read(Reader),
    /// It writes the out file.
    Write(Writer),
}

impl Body for CopyBody {
    ghost use Rattle.p9_run.specs.CopyPrograms.{plan_of, StandsFor};

    ghost plan = { plan_of };

    ghost stands_for = { StandsFor };

    fn next(&mut self, last: Answer) -> Result<Request, NoMemory> {
        match self {
            CopyBody::Read(reader) => reader.next(last),
            CopyBody::Write(writer) => writer.next(last),
        }
    }
}

/// The two programs of a copy: program 1 reads file 1 to channel 1, and program 2 writes file 2 from it.
#[derive(Drop)]
pub(crate) struct CopyPrograms {
    alloc: Global,
}

impl CopyPrograms {
    /// Their bodies take memory from this allocator.
    pub(crate) fn new(alloc: Global) -> CopyPrograms {
        CopyPrograms { alloc }
    }
}

impl Programs for CopyPrograms {
    type B = CopyBody;

    ghost use Rattle.p9_run.specs.CopyPrograms.{copy_asks};

    ghost programs = { λ _. 2 };

    ghost asks = { λ _. copy_asks };

    fn start(&self, program: u32, _arg: u64) -> Result<CopyBody, NoMemory> {
        if program == 1 {
            Ok(CopyBody::Read(Reader::new(self.alloc, 1, 1)))
        } else {
            Ok(CopyBody::Write(Writer::new(self.alloc, 2, 1)))
        }
    }
}
