mod closings;
mod file_sink;
mod files;
mod folder;
mod in_place;
mod location;
mod opening;
mod std_sink;
mod std_source;
mod temporary;

pub use file_sink::FileSink;
pub use files::RealFiles;
pub use std_sink::StdSink;
pub use std_source::StdSource;

/// How often a read or a write that was interrupted is tried again before it is taken as failed.
pub(crate) const TRIES: u32 = 10_000;
