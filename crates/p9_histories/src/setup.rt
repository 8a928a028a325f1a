use crate::fault::Fault;
use crate::words::Words;
use p9_word::limits::{MOST_CHANNELS, MOST_REFS, MOST_RENDEZES, MOST_THREADS};
use p9_word::{ChanSetup, Msg, NoMemory, Room, Seq, Setup, ThreadSetup};
use std::alloc::Global;

/// What a first line says, beside its threads, channels, Rendezes and Refs.
#[derive(Clone, Copy)]
struct Sizes {
    places: u32,
    opened: u32,
    threads: u32,
    programs: u32,
    files: u32,
    start: u32,
    locks: u32,
    qlocks: u32,
    rwlocks: u32,
}

/// What a history starts from, by its first line: `history` and a name, and then those of these that are other
/// than here, in this order: `places 1`, `opened 1`, `threads 1`, `programs 4`, `files 0`, `start 42`, `locks 0`,
/// `qlocks 0`, `rwlocks 0`, for each channel `chan` with its capacity and the size of an element, for each Rendez
/// `rendez` with its QLock, and for each Ref `ref` with its value.
pub(crate) fn read_setup(alloc: Global, text: &str) -> Result<Setup, Fault> {
    let mut words = Words::new(text);
    let sizes = read_sizes(&mut words)?;
    let setup = Setup {
        places: sizes.places,
        opened: sizes.opened,
        threads: threads(alloc, sizes.threads)?,
        programs: sizes.programs,
        chans: channels(alloc, &mut words)?,
        locks: sizes.locks,
        qlocks: sizes.qlocks,
        rwlocks: sizes.rwlocks,
        rendezes: rendezes(alloc, &mut words)?,
        refs: refs(alloc, &mut words)?,
        files: sizes.files,
        procs: 0,
        start: sizes.start as u64,
    };
    words.ends()?;
    Ok(setup)
}

/// The words of a first line up to its channels.
fn read_sizes(words: &mut Words) -> Result<Sizes, Fault> {
    let _history = words.word()?;
    let _name = words.word()?;
    Ok(Sizes {
        places: words.id_after("places", 1)?,
        opened: words.id_after("opened", 1)?,
        threads: thread_count(words)?,
        programs: words.id_after("programs", 4)?,
        files: words.id_after("files", 0)?,
        start: words.id_after("start", 42)?,
        locks: words.id_after("locks", 0)?,
        qlocks: words.id_after("qlocks", 0)?,
        rwlocks: words.id_after("rwlocks", 0)?,
    })
}

/// How many threads there are. More than a run can have are refused before memory is taken for them.
fn thread_count(words: &mut Words) -> Result<u32, Fault> {
    let count = words.id_after("threads", 1)?;
    if count as usize > MOST_THREADS {
        Err(Fault::ManyThreads)
    } else {
        Ok(count)
    }
}

/// So many threads, in proc 1. Each has the program of its own id and the argument 7.
fn threads(alloc: Global, count: u32) -> Result<Seq<ThreadSetup>, NoMemory> {
    let mut threads = Room::new(alloc);
    for id in 0..count {
        threads.reserve(1)?;
        threads.push(ThreadSetup {
            proc_no: 1,
            program: 1 + id,
            arg: 7,
            name: Msg::new(),
        });
    }
    Ok(threads.into_seq())
}

fn channels(alloc: Global, words: &mut Words) -> Result<Seq<ChanSetup>, Fault> {
    let mut channels = Room::new(alloc);
    for _ in 0..MOST_CHANNELS {
        if !words.takes("chan") {
            break;
        }
        let (cap, elsize) = (words.id()?, words.id()?);
        channels.reserve(1)?;
        channels.push(ChanSetup { cap, elsize });
    }
    Ok(channels.into_seq())
}

/// The QLock of each Rendez.
fn rendezes(alloc: Global, words: &mut Words) -> Result<Seq<u32>, Fault> {
    let mut rendezes = Room::new(alloc);
    for _ in 0..MOST_RENDEZES {
        if !words.takes("rendez") {
            break;
        }
        let qlock = words.id()?;
        rendezes.reserve(1)?;
        rendezes.push(qlock);
    }
    Ok(rendezes.into_seq())
}

fn refs(alloc: Global, words: &mut Words) -> Result<Seq<u64>, Fault> {
    let mut refs = Room::new(alloc);
    for _ in 0..MOST_REFS {
        if !words.takes("ref") {
            break;
        }
        let value = words.number()?;
        refs.reserve(1)?;
        refs.push(value);
    }
    Ok(refs.into_seq())
}
