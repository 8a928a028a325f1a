use std::alloc::Global;
use std::fs::File;
use std::os::fd::AsRawFd;
use std::os::unix::fs::MetadataExt;
use std::path::Path;
use std::rt::Files;
use std::{fs, io};

/// A folder that is kept open, so that the path of its descriptor leads to it, also where it or a folder above
/// it has been renamed since.
#[derive(Drop)]
pub(crate) struct Folder {
    file: File,
}

impl Folder {
    /// Opens the folder of a file whose path isn't its name alone. It is `None` where it is, since no renaming
    /// changes what that leads to; and where the folder can't be held so: where it can't be listed, or the
    /// system has no paths of descriptors.
    pub(crate) fn of<R: Files<File = File>>(
        rt: &R,
        alloc: Global,
        folder: Path<'_>,
    ) -> io::Result<Option<Folder>> {
        if folder.as_str().is_empty() {
            return Ok(None);
        }
        let Ok(file) = fs::open(rt, folder.join(alloc, ".")?) else {
            return Ok(None);
        };
        let folder = Folder { file };
        let path = folder.path_of(alloc, "")?;
        Ok(folder.is_at(rt, path.as_str()).then_some(folder))
    }

    /// The path of the file in this folder that has this name.
    pub(crate) fn path_of(&self, alloc: Global, name: &str) -> io::Result<String> {
        let number = self.file.as_raw_fd();
        Ok(format!(in alloc; "/proc/self/fd/{number}/{name}")?)
    }

    /// Whether a path leads to this folder.
    fn is_at<R: Files<File = File>>(&self, rt: &R, path: &str) -> bool {
        match (fs::metadata(rt, path), self.file.metadata()) {
            (Ok(there), Ok(own)) => there.dev() == own.dev() && there.ino() == own.ino(),
            _ => false,
        }
    }
}
