ghost use Rattle.std.specs.Prelude.{◌≡◌, ◌≤◌, ◌+◌, length, All, IfOk};
ghost use Rattle.p9_word.specs.Setup.{IsThreadOf, IsChan, IsValid};

use p9_word::limits::MOST_THREADS;
use p9_word::{ChanSetup, Msg, NoMemory, Room, Seq, Setup, ThreadSetup};
use std::alloc::Global;

/// A thread in proc 1, with the one program there is.
fn thread() -> ThreadSetup
    ensures { IsThreadOf 1 1 result }
{
    ThreadSetup {
        proc_no: 1,
        program: 1,
        arg: 0,
        name: Msg::new(),
    }
}

/// The threads: those that wait elsewhere, and after them the two that play. All stand in proc 1.
fn threads(alloc: Global, waiting: u32) -> Result<Seq<ThreadSetup>, NoMemory>
    requires { waiting + 2 ≤ MOST_THREADS }
    ensures each { IfOk result (All (IsThreadOf 1 1)) }
    ensures count { IfOk result (λ threads. length threads ≡ waiting + 2) }
{
    let count = waiting + 2;
    let mut threads = Room::new(alloc);
    for _ in 0..count {
        threads.reserve(1)?;
        threads.push(thread());
    }
    Ok(threads.into_seq())
}

/// The two channels of the number, and the one on which the others wait.
fn channels(alloc: Global) -> Result<Seq<ChanSetup>, NoMemory>
    ensures each { IfOk result (All IsChan) }
    ensures three { IfOk result (λ channels. length channels ≡ 3) }
{
    let channel = ChanSetup { cap: 0, elsize: 8 };
    let mut channels = Room::new(alloc);
    channels.reserve(3)?;
    channels.push(channel);
    channels.push(channel);
    channels.push(channel);
    Ok(channels.into_seq())
}

/// What a run with so many threads waiting elsewhere starts from.
pub(crate) fn setup_of(alloc: Global, waiting: u32) -> Result<Setup, NoMemory>
    requires { waiting + 2 ≤ MOST_THREADS }
    ensures { IfOk result IsValid }
{
    Ok(Setup {
        places: 1,
        opened: 1,
        threads: threads(alloc, waiting)?,
        programs: 1,
        chans: channels(alloc)?,
        locks: 0,
        qlocks: 0,
        rwlocks: 0,
        rendezes: Seq::new(alloc),
        refs: Seq::new(alloc),
        files: 0,
        procs: 0,
        start: 1,
    })
}
