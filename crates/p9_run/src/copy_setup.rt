ghost use Rattle.std.specs.Prelude.{◌≡◌, IfOk};
ghost use Rattle.p9_word.specs.Setup.{IsValid};
ghost use Rattle.p9_run.specs.CopySetup.{thread, copy_setup};

use p9_word::limits::BLOCK_BYTES;
use p9_word::{ChanSetup, Msg, NoMemory, Room, Seq, Setup, ThreadSetup};
use std::alloc::Global;

fn thread(alloc: Global, program: u32, name: &[u8]) -> Result<ThreadSetup, NoMemory>
    ensures { IfOk result (λ t. t ≡ thread program name.now) }
{
    Ok(ThreadSetup {
        proc_no: 1,
        program,
        arg: 0,
        name: Msg::from_slice(alloc, name)?,
    })
}

fn threads(alloc: Global) -> Result<Seq<ThreadSetup>, NoMemory>
    ensures { IfOk result (λ ts. ts ≡ copy_setup.threads) }
{
    let mut threads = Room::new(alloc);
    threads.reserve(2)?;
    threads.push(thread(alloc, 1, b"r")?);
    threads.push(thread(alloc, 2, b"w")?);
    Ok(threads.into_seq())
}

fn chans(alloc: Global) -> Result<Seq<ChanSetup>, NoMemory>
    ensures { IfOk result (λ cs. cs ≡ copy_setup.chans) }
{
    let mut chans = Room::new(alloc);
    chans.reserve(1)?;
    chans.push(ChanSetup {
        cap: 0,
        elsize: BLOCK_BYTES,
    });
    Ok(chans.into_seq())
}

/// What the run of a copy's text starts from: one proc with a reading and a writing thread, one channel
/// between them, and two files.
pub(crate) fn copy_setup(alloc: Global) -> Result<Setup, NoMemory>
    ensures setup { IfOk result (λ s. s ≡ copy_setup) }
    ensures valid { IfOk result (λ s. IsValid s) }
{
    Ok(Setup {
        places: 1,
        opened: 1,
        threads: threads(alloc)?,
        programs: 2,
        chans: chans(alloc)?,
        locks: 0,
        qlocks: 0,
        rwlocks: 0,
        rendezes: Seq::new(alloc),
        refs: Seq::new(alloc),
        files: 2,
        procs: 0,
        start: 42,
    })
}
