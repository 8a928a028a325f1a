ghost use Rattle.std.specs.Prelude.{◌≡◌, length, All, IfOk};
ghost use Rattle.p9_word.specs.Setup.{IsBetween, IsThreadOf, IsChan, IsValid};

use crate::threads::{RECEIVES, SENDS};
use p9_word::{ChanSetup, Msg, NoMemory, Room, Seq, Setup, ThreadSetup};
use std::alloc::Global;

/// A thread of this program in proc 1. It has no argument that counts, and no name.
fn thread(program: u32) -> ThreadSetup
    requires { IsBetween 1 2 program }
    ensures { IsThreadOf 1 2 result }
{
    ThreadSetup {
        proc_no: 1,
        program,
        arg: 0,
        name: Msg::new(),
    }
}

/// Thread 1, which sends, and thread 2, which receives.
fn threads(alloc: Global) -> Result<Seq<ThreadSetup>, NoMemory>
    ensures each { IfOk result (All (IsThreadOf 1 2)) }
    ensures two { IfOk result (λ threads. length threads ≡ 2) }
{
    let mut threads = Room::new(alloc);
    threads.reserve(2)?;
    threads.push(thread(SENDS));
    threads.push(thread(RECEIVES));
    Ok(threads.into_seq())
}

/// Channel 1, which holds nothing: it hands each value over, of at most 16 bytes.
fn channels(alloc: Global) -> Result<Seq<ChanSetup>, NoMemory>
    ensures each { IfOk result (All IsChan) }
    ensures one { IfOk result (λ channels. length channels ≡ 1) }
{
    let mut channels = Room::new(alloc);
    channels.reserve(1)?;
    channels.push(ChanSetup { cap: 0, elsize: 16 });
    Ok(channels.into_seq())
}

/// What the run starts from: one proc with the two threads, and the channel. There are no locks and no files.
pub(crate) fn hello_setup(alloc: Global) -> Result<Setup, NoMemory>
    ensures { IfOk result IsValid }
{
    Ok(Setup {
        places: 1,
        opened: 1,
        threads: threads(alloc)?,
        programs: 2,
        chans: channels(alloc)?,
        locks: 0,
        qlocks: 0,
        rwlocks: 0,
        rendezes: Seq::new(alloc),
        refs: Seq::new(alloc),
        files: 0,
        procs: 0,
        start: 1,
    })
}
