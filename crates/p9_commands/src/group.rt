ghost use Rattle.std.specs.Prelude.{◌≡◌, IfOk};
ghost use Rattle.p9_commands.specs.Pattern.{pattern_of};

use crate::fault::Fault;
use p9_outside::MemFiles;
use p9_word::{Msg, NoMemory};
use std::alloc::{AllocError, Global};

/// A file of a group.
#[derive(Drop)]
struct Held<'a> {
    path: &'a str,
    bytes: Vec<u8>,
}

/// The files that each of the commands below finds.
#[derive(Drop)]
pub(crate) struct Group<'a> {
    /// The path of the file that is copied.
    pub(crate) from: &'a str,
    /// The path that it is copied to.
    pub(crate) to: &'a str,
    held: Vec<Held<'a>>,
}

/// So many bytes, which differ from place to place.
fn pattern(alloc: Global, len: usize) -> Result<Vec<u8>, AllocError>
    ensures { IfOk result (λ bytes. bytes.items ≡ pattern_of len) }
{
    let mut bytes = Vec::new(alloc);
    for i in 0..len {
        bytes.push((i % 251) as u8)?;
    }
    Ok(bytes)
}

impl<'a> Group<'a> {
    /// No files yet.
    pub(crate) fn new(alloc: Global, from: &'a str, to: &'a str) -> Group<'a> {
        Group {
            from,
            to,
            held: Vec::new(alloc),
        }
    }

    /// Begins a file with so many bytes.
    pub(crate) fn begin(
        &mut self,
        alloc: Global,
        path: &'a str,
        len: usize,
    ) -> Result<(), NoMemory> {
        let bytes = pattern(alloc, len)?;
        self.held.push(Held { path, bytes })?;
        Ok(())
    }

    /// Puts a text behind what the last file has.
    pub(crate) fn add(&mut self, text: &str) -> Result<(), Fault> {
        match self.held.last_mut() {
            Some(last) => Ok(last.bytes.extend_from_slice(text.as_bytes())?),
            None => Err(Fault::NotUnderstood),
        }
    }

    /// The files in memory, as none of the commands has changed them.
    pub(crate) fn files(&self, alloc: Global) -> Result<MemFiles, NoMemory> {
        let mut files = MemFiles::new(alloc);
        for held in &self.held {
            let bytes = Msg::from_slice(alloc, held.bytes.as_slice())?;
            files.add(held.path.as_bytes(), bytes)?;
        }
        Ok(files)
    }
}
