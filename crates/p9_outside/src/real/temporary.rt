ghost use Rattle.std.specs.Prelude.{◌≡◌, OnOk, OnErr};
ghost use Rattle.p9_outside.specs.Adapters.{closed_count};
ghost use Rattle.p9_outside.specs.Counts.{raised};

use crate::real::closings::Closings;
use crate::real::folder::Folder;
use std::alloc::Global;
use std::fs::{File, Metadata, OpenOptions, Permissions};
use std::io::ErrorKind;
use std::os::unix::fs::{MetadataExt, OpenOptionsExt, PermissionsExt, fchown};
use std::path::Path;
use std::rt::Files;
use std::{fs, io};

/// The longest name that stands in the temporary name: with what is added a name has at most 255 bytes.
const LONGEST: usize = 200;

/// What is done with a temporary file when it is whole.
#[derive(Clone, Copy)]
enum End {
    /// It gets the name, which no file has yet.
    New,
    /// It gets the name of an old file, and where that is refused it is copied over it.
    Replaces,
    /// It is copied over an old file.
    Copied,
}

/// A file that has the contents that its target is to have, in the same folder.
///
/// Its name is the target's between `.` and `.p9pipe-N.tmp`, so that it is hidden, and known for what it
/// is where a run was killed. Where the folder is held, the paths of both begin with its descriptor.
#[derive(Drop)]
pub(crate) struct Temporary {
    name: String,
    target: String,
    _folder: Option<Folder>,
    end: End,
}

impl Temporary {
    /// A new file beside a target that isn't there.
    pub(crate) fn fresh<R: Files<File = File>>(
        rt: &R,
        alloc: Global,
        target: String,
    ) -> io::Result<(File, Temporary)> {
        let (folder, target) = held(rt, alloc, target)?;
        let (file, name) = made(rt, alloc, target.as_str(), 0o666)?;
        let temporary = Temporary {
            name,
            target,
            _folder: folder,
            end: End::New,
        };
        Ok((file, temporary))
    }

    /// A new file beside an old one, which it is to replace. An old file of several names stays the one
    /// that they name, and so does one whose mode the new one can't have: the new one is copied over it.
    pub(crate) fn instead<R: Files<File = File>>(
        rt: &R,
        alloc: Global,
        target: String,
        old: &Metadata,
    ) -> io::Result<(File, Temporary)> {
        let (folder, target) = held(rt, alloc, target)?;
        let (file, name) = made(rt, alloc, target.as_str(), 0o600)?;
        let replaces = old.nlink() <= 1 && copy_attributes(&file, old).is_ok();
        let temporary = Temporary {
            name,
            target,
            _folder: folder,
            end: if replaces { End::Replaces } else { End::Copied },
        };
        Ok((file, temporary))
    }

    /// Gives the target the contents of the file. Where there was an old file the new contents are on the
    /// disk first, so that a power cut loses neither. The file's name is gone then, also after an error.
    pub(crate) fn replace_target<R: Files<File = File>>(
        self,
        rt: &R,
        file: File,
        closings: &mut Closings,
    ) -> io::Result<()>
        ensures taken { OnOk result (closed_count closings.new ≡ raised (closed_count closings.old) 1) }
        ensures removed { OnErr result (closed_count closings.new ≡ closed_count closings.old) }
    {
        if let Err(error) = self.last(&file) {
            self.remove(rt);
            return Err(error);
        }
        match self.end {
            End::Copied => self.copied(rt, file, closings),
            End::Replaces => match closings.rename(rt, self.name.as_str(), self.target.as_str()) {
                Ok(()) => Ok(()),
                Err(_) => self.copied(rt, file, closings),
            },
            End::New => match closings.rename(rt, self.name.as_str(), self.target.as_str()) {
                Ok(()) => Ok(()),
                Err(error) => {
                    self.remove(rt);
                    Err(error)
                }
            },
        }
    }

    /// Where there is an old file, waits until the new contents are on the disk.
    fn last(&self, file: &File) -> io::Result<()> {
        match self.end {
            End::New => Ok(()),
            End::Replaces | End::Copied => file.sync_all(),
        }
    }

    /// Copies the file over its target, and removes it.
    fn copied<R: Files<File = File>>(
        self,
        rt: &R,
        file: File,
        closings: &mut Closings,
    ) -> io::Result<()>
        ensures copied { OnOk result (closed_count closings.new ≡ raised (closed_count closings.old) 1) }
        ensures stays { OnErr result (closed_count closings.new ≡ closed_count closings.old) }
    {
        let outcome = closings.copy_over(rt, file, self.target.as_str());
        self.remove(rt);
        outcome
    }

    /// Removes the file. Where that fails nobody is told.
    pub(crate) fn remove<R: Files<File = File>>(self, rt: &R) {
        let _ = fs::remove_file(rt, self.name.as_str());
    }
}

/// Gives a new file, which nobody else can read yet, the owner, the group and the mode of an old one.
///
/// Where the owner or the group isn't allowed, the new file runs as nobody but its caller; and where the
/// group isn't, a group and all others may do what both might.
fn copy_attributes(file: &File, old: &Metadata) -> io::Result<()> {
    let new = file.metadata()?;
    let has_owner = new.uid() == old.uid() || fchown(file, Some(old.uid()), None).is_ok();
    let has_group = new.gid() == old.gid() || fchown(file, None, Some(old.gid())).is_ok();
    let mode = old.mode()
        & if has_owner && has_group {
            0o7777
        } else {
            0o777
        };
    let both = (mode >> 3) & mode & 0o7;
    let mode = if has_group {
        mode
    } else {
        (mode & 0o700) | (both << 3) | both
    };
    file.set_permissions(Permissions::from_mode(mode))
}

/// The folder of a target, and the target's path by way of its descriptor. Where the folder can't be held
/// the path stays as it is.
fn held<R: Files<File = File>>(
    rt: &R,
    alloc: Global,
    target: String,
) -> io::Result<(Option<Folder>, String)> {
    let (folder, name) = parts(target.as_str())?;
    match Folder::of(rt, alloc, folder)? {
        Some(folder) => {
            let target = folder.path_of(alloc, name)?;
            Ok((Some(folder), target))
        }
        None => Ok((None, target)),
    }
}

/// Makes a file under the first name that isn't used yet. There is no last one.
fn made<R: Files<File = File>>(
    rt: &R,
    alloc: Global,
    target: &str,
    mode: u32,
) -> io::Result<(File, String)> {
    let (folder, name) = parts(target)?;
    let name = if name.len() > LONGEST { "" } else { name };
    for n in 0..u64::MAX {
        let name = format!(in alloc; ".{name}.p9pipe-{n}.tmp")?;
        let path = folder.join(alloc, name.as_str())?.into_string();
        match create(rt, path.as_str(), mode) {
            Ok(file) => return Ok((file, path)),
            Err(error) if error.kind() == ErrorKind::AlreadyExists => {}
            Err(error) => return Err(error),
        }
    }
    Err(io::Error::from(ErrorKind::AlreadyExists))
}

fn create<R: Files<File = File>>(rt: &R, path: &str, mode: u32) -> io::Result<File> {
    let mut how = OpenOptions::new();
    how.read(true).write(true).create_new(true);
    how.mode(mode);
    how.open(rt, path)
}

/// The folder and the name of a target. A path that ends in no name, as one that ends in a slash, is
/// refused.
fn parts(target: &str) -> io::Result<(Path<'_>, &str)> {
    let path = Path::new(target);
    let Some(name) = path.file_name() else {
        return Err(io::Error::from(ErrorKind::InvalidInput));
    };
    if !target.ends_with(name) {
        return Err(io::Error::from(ErrorKind::InvalidInput));
    }
    Ok((path.parent().unwrap_or(Path::new("")), name))
}
