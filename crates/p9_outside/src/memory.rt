mod files;
mod front;
mod plans;
mod sink;
mod source;

pub use files::MemFiles;
pub use plans::PathFail;
pub use sink::MemSink;
pub use source::MemSource;
