ghost use Rattle.std.specs.Prelude.{◌≡◌, OnOk, OnErr};
ghost use Rattle.p9_outside.specs.Counts.{raised};

use std::fs::{File, OpenOptions};
use std::io::{Seek, SeekFrom};
use std::rt::Files;
use std::{fs, io};

/// How many temporary files have taken the place of their targets. At the greatest u64 the count stands.
///
/// It rises in two ways alone: where the system has given a temporary file the name of its target, and where
/// a temporary file has been copied over its target.
#[derive(Drop)]
pub(crate) struct Closings {
    count: u64,
}

impl Closings {
    ghost use Rattle.p9_outside.specs.Adapters.{closed_count};

    /// No file so far.
    pub(crate) fn new() -> Closings
        ensures { closed_count result ≡ 0 }
    {
        Closings { count: 0 }
    }

    /// How many there were.
    pub(crate) fn count(&self) -> u64
        ensures { result ≡ closed_count self.now }
    {
        self.count
    }

    /// Gives a file another name. A file that has the name is replaced.
    pub(crate) fn rename<R: Files>(&mut self, rt: &R, from: &str, to: &str) -> io::Result<()>
        ensures renamed { OnOk result (closed_count self.new ≡ raised (closed_count self.old) 1) }
        ensures stays { OnErr result (closed_count self.new ≡ closed_count self.old) }
    {
        fs::rename(rt, from, to)?;
        self.count = self.count.saturating_add(1);
        Ok(())
    }

    /// Copies a whole file over the one at a path, which stays the file that it is, and is on the disk then.
    /// After an error that one may have a part of both.
    pub(crate) fn copy_over<R: Files<File = File>>(
        &mut self,
        rt: &R,
        mut from: File,
        to: &str,
    ) -> io::Result<()>
        ensures copied { OnOk result (closed_count self.new ≡ raised (closed_count self.old) 1) }
        ensures stays { OnErr result (closed_count self.new ≡ closed_count self.old) }
    {
        let mut over = OpenOptions::new().write(true).open(rt, to)?;
        from.seek(SeekFrom::Start(0))?;
        let length = io::copy(&mut from, &mut over)?;
        over.set_len(length)?;
        over.sync_all()?;
        self.count = self.count.saturating_add(1);
        Ok(())
    }
}
