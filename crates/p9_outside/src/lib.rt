//! The outside of a run: where bytes come from and go to, files by their paths, and the devices that
//! serve an ioproc's calls on a file.
//!
//! A [`Source`] is read, a [`Sink`] is written, and [`Files`] open both by path. A [`Device`] serves
//! calls: [`ReadDevice`] over a source, [`WriteDevice`] over a sink, [`FileDevice`] over either. There
//! are two forms of all this: in memory, with failures that can be planned ([`MemSource`], [`MemSink`],
//! [`MemFiles`]), and over the system ([`StdSource`], [`StdSink`], [`RealFiles`]).
#![tactic(auto)]

mod device;
mod file_device;
mod files;
pub mod laws;
mod memory;
mod reading;
mod reads;
mod real;
mod sink;
mod source;
mod writing;

pub use device::Device;
pub use file_device::FileDevice;
pub use files::{Files, FilesFault};
pub use memory::{MemFiles, MemSink, MemSource, PathFail};
pub use reading::ReadDevice;
pub use real::{FileSink, RealFiles, StdSink, StdSource};
pub use sink::Sink;
pub use source::{Failed, Source};
pub use writing::{WriteDevice, drain};

#[cfg(test)]
mod refusal_tests;
#[cfg(test)]
mod tests;
