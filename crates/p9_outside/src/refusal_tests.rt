use crate::{Files, RealFiles, drain};
use std::alloc::{Allocator, Global};
use std::fs::{File, Metadata, OpenOptions};
use std::io::ErrorKind;
use std::os::unix::fs::MetadataExt;
use std::path::PathBuf;
use std::test::Fail;
use std::{fs, io, rt};

/// The files of the system, but that no name is given to another file.
#[derive(Drop)]
struct NoRename<'a, R> {
    rt: &'a R,
}

impl<'a, R: rt::Files> rt::Files for NoRename<'a, R> {
    type File = R::File;

    type Dir = R::Dir;

    fn open_file(&self, how: &OpenOptions, path: &str) -> io::Result<R::File> {
        self.rt.open_file(how, path)
    }

    fn open_dir(&self, path: &str) -> io::Result<R::Dir> {
        self.rt.open_dir(path)
    }

    fn metadata(&self, path: &str) -> io::Result<Metadata> {
        self.rt.metadata(path)
    }

    fn symlink_metadata(&self, path: &str) -> io::Result<Metadata> {
        self.rt.symlink_metadata(path)
    }

    fn copy(&self, from: &str, to: &str) -> io::Result<u64> {
        self.rt.copy(from, to)
    }

    fn rename(&self, _from: &str, _to: &str) -> io::Result<()> {
        Err(io::Error::from(ErrorKind::ResourceBusy))
    }

    fn remove_file(&self, path: &str) -> io::Result<()> {
        self.rt.remove_file(path)
    }

    fn create_dir(&self, path: &str) -> io::Result<()> {
        self.rt.create_dir(path)
    }

    fn remove_dir(&self, path: &str) -> io::Result<()> {
        self.rt.remove_dir(path)
    }

    fn remove_dir_all<B: Allocator>(&self, alloc: B, path: &str) -> io::Result<()> {
        self.rt.remove_dir_all(alloc, path)
    }

    fn read_link<B: Allocator>(&self, alloc: B, path: &str) -> io::Result<PathBuf<B>> {
        self.rt.read_link(alloc, path)
    }
}

/// Writes `new` to a path, and tells whether it was closed well.
fn is_written<R: rt::Files<File = File> + Sync>(
    rt: &R,
    alloc: Global,
    path: &[u8],
) -> Result<bool, Fail> {
    let mut files = RealFiles::new(rt);
    let mut sink = files.sink(alloc, path).ok().ok_or("not opened")?;
    let _count = drain(&mut sink, b"new");
    Ok(files.close(path, sink).is_ok())
}

#[test]
fn what_stays_under_its_name_is_copied_over(rt: HostRuntime) -> Result<(), Fail> {
    let alloc = rt.alloc();
    let no_rename = NoRename { rt: &rt };
    fs::write(&rt, "busy.txt", "old, and longer")?;
    let node = fs::metadata(&rt, "busy.txt")?.ino();
    assert!(rt; is_written(&no_rename, alloc, b"busy.txt")?);
    assert_eq!(rt; fs::read_to_string(&rt, "busy.txt")?.as_str(), "new");
    assert_eq!(rt; fs::metadata(&rt, "busy.txt")?.ino(), node);
    assert!(rt; !is_written(&no_rename, alloc, b"made.txt")?);
    for path in [
        "made.txt",
        ".busy.txt.p9pipe-0.tmp",
        ".made.txt.p9pipe-0.tmp",
    ] {
        assert!(rt; !fs::exists(&rt, path)?);
    }
    fs::remove_file(&rt, "busy.txt")?;
    Ok(())
}

#[test]
fn a_failed_write_makes_the_close_fail(rt: HostRuntime) -> Result<(), Fail> {
    let alloc = rt.alloc();
    assert!(rt; is_written(&rt, alloc, b"/dev/null")?);
    assert!(rt; !is_written(&rt, alloc, b"/dev/full")?);
    Ok(())
}
