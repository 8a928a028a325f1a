//! The limits of a run, each once: code and definitions cite them. The manual's pages, which are named here, have the
//! things that are limited and no number: each number is this project's own.

/// The most proc places of a run, and the most procs that can be asked for. thread(2).
pub const MOST_PLACES: u32 = 64;

/// The most threads that are made in a run, those that have ended too. thread(2).
pub const MOST_THREADS: usize = 65_536;

/// The most bytes of a thread's name. threadsetname in thread(2).
pub const MOST_NAME_BYTES: usize = 64;

/// The most channels that are made in a run, freed ones too. chancreate in thread(2).
pub const MOST_CHANNELS: usize = 1_024;

/// The most elements that a channel holds. chancreate in thread(2).
pub const MOST_ELEMENTS: u32 = 4_096;

/// The most bytes of an element of a channel. chancreate in thread(2).
pub const MOST_ELEMENT_BYTES: u32 = 65_536;

/// The most entries of an alt. alt in thread(2).
pub const MOST_ENTRIES: usize = 64;

/// The most locks of each sort: Locks, QLocks and RWLocks. lock(2).
pub const MOST_LOCKS: u32 = 1_024;

/// The most Rendezes. rsleep in lock(2).
pub const MOST_RENDEZES: usize = 1_024;

/// The most Refs. incref in lock(2).
pub const MOST_REFS: usize = 1_024;

/// The most handlers of notes that a proc has. notify(2).
pub const MOST_HANDLERS: usize = 32;

/// The most bytes of a note, and of the prefix of a handler. notify(2).
pub const MOST_NOTE_BYTES: usize = 127;

/// The most files of a run, and so ioprocs. ioproc(2).
pub const MOST_FILES: u32 = 64;

/// The most bytes that one call of an ioproc reads. ioreadn in ioproc(2).
pub const MOST_READ_BYTES: u32 = 65_536;

/// The most bytes of a block: what the stage `read` asks for at a time and a channel of a copy carries at once, and
/// what one call of a source gives.
pub const BLOCK_BYTES: u32 = 8_192;

/// The most bytes of the text of a pipeline.
pub const MOST_TEXT_BYTES: usize = 1_048_576;
