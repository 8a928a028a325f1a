ghost use Rattle.std.specs.Prelude.{◌≡◌, IfOk};
ghost use Rattle.p9_outside.specs.Adapters.{file_faults, file_taken, reader_faults, reader_given};

use crate::real::location::Location;
use crate::real::temporary::Temporary;
use crate::{FileSink, StdSource};
use std::alloc::Global;
use std::fs::{File, Metadata, OpenOptions};
use std::io::ErrorKind;
use std::os::unix::fs::MetadataExt;
use std::path::Path;
use std::rt::Files;
use std::{fs, io, str};

/// How many links in a row are followed, as the system follows them.
const LINKS: u32 = 40;

fn path_text(path: &[u8]) -> io::Result<&str> {
    match str::from_utf8(path) {
        Ok(text) => Ok(text),
        Err(_) => Err(io::Error::from(ErrorKind::InvalidInput)),
    }
}

/// Opens a path to be read. A folder is refused now, and not at the first read.
pub(crate) fn open_source<R: Files<File = File>>(rt: &R, path: &[u8]) -> io::Result<StdSource<File>>
    ensures given { IfOk result (λ s. reader_given s ≡ 0) }
    ensures faults { IfOk result (λ s. reader_faults s ≡ 0) }
{
    let file = fs::open(rt, path_text(path)?)?;
    if file.metadata()?.is_dir() {
        return Err(io::Error::from(ErrorKind::IsADirectory));
    }
    Ok(StdSource::new(file))
}

/// Opens a path to be written: a regular file is replaced when the sink is finished, a file that isn't
/// there is made then, and all else is written in place.
pub(crate) fn open_sink<'a, R: Files<File = File>>(
    rt: &'a R,
    alloc: Global,
    path: &[u8],
) -> io::Result<FileSink<'a, R, File>>
    ensures taken { IfOk result (λ s. file_taken s ≡ 0) }
    ensures faults { IfOk result (λ s. file_faults s ≡ 0) }
{
    let path = path_text(path)?;
    let Some(target) = followed(rt, alloc, path)? else {
        let file = OpenOptions::new().append(true).open(rt, path)?;
        return Ok(FileSink::new(rt, file, Location::On));
    };
    match fs::metadata(rt, target.as_str()) {
        Ok(old) if old.is_file() => replacing(rt, alloc, target, &old),
        Ok(_) => {
            let file = OpenOptions::new().write(true).open(rt, target.as_str())?;
            Ok(FileSink::new(rt, file, Location::On))
        }
        Err(error) if error.kind() == ErrorKind::NotFound => making(rt, alloc, target),
        Err(error) => Err(error),
    }
}

/// A sink that gives an old file new contents. A file that can't be written is refused, though it could be
/// replaced. One that can't have another beside it is written in place.
fn replacing<'a, R: Files<File = File>>(
    rt: &'a R,
    alloc: Global,
    target: String,
    old: &Metadata,
) -> io::Result<FileSink<'a, R, File>>
    ensures taken { IfOk result (λ s. file_taken s ≡ 0) }
    ensures faults { IfOk result (λ s. file_faults s ≡ 0) }
{
    let file = OpenOptions::new().write(true).open(rt, target.as_str())?;
    match Temporary::instead(rt, alloc, target, old) {
        Ok((beside, temporary)) => Ok(FileSink::new(rt, beside, Location::Beside(temporary))),
        Err(error) if is_refusal(error.kind()) => Ok(FileSink::new(rt, file, Location::Over)),
        Err(error) => Err(error),
    }
}

/// No file can be made in this folder: it may not be written, or has no files but its own, as `/proc`, or
/// the longer name is too long. Want of room on the disk is no such reason.
fn is_refusal(kind: ErrorKind) -> bool {
    matches!(
        kind,
        ErrorKind::PermissionDenied
            | ErrorKind::ReadOnlyFilesystem
            | ErrorKind::NotFound
            | ErrorKind::InvalidFilename
            | ErrorKind::Unsupported
    )
}

/// A sink that makes a file that isn't there.
fn making<'a, R: Files<File = File>>(
    rt: &'a R,
    alloc: Global,
    target: String,
) -> io::Result<FileSink<'a, R, File>>
    ensures taken { IfOk result (λ s. file_taken s ≡ 0) }
    ensures faults { IfOk result (λ s. file_faults s ≡ 0) }
{
    let (file, temporary) = Temporary::fresh(rt, alloc, target)?;
    Ok(FileSink::new(rt, file, Location::Beside(temporary)))
}

/// The path that links end at, whether a file is there or not. A path that is no link is itself. None
/// where one of the links is an open descriptor.
fn followed<R: Files<File = File>>(
    rt: &R,
    alloc: Global,
    path: &str,
) -> io::Result<Option<String>> {
    let mut path = format!(in alloc; "{path}")?;
    for _ in 0..LINKS {
        if is_descriptor(rt, path.as_str()) {
            return Ok(None);
        }
        match rt.read_link(alloc, path.as_str()) {
            Ok(to) => path = beside_link(alloc, path.as_str(), to.as_path())?,
            Err(error) => {
                return match error.kind() {
                    ErrorKind::InvalidInput | ErrorKind::NotFound => Ok(Some(path)),
                    _ => Err(error),
                };
            }
        }
    }
    Err(io::Error::from(ErrorKind::FilesystemLoop))
}

/// A link of the system's table of processes leads to what is open there, and its text is no path that
/// could be followed. It stands where `/proc/self` stands. In a table that is mounted elsewhere it is
/// known by what no other link has: a mode that leaves some access out, and a length that isn't its text's.
fn is_descriptor<R: Files<File = File>>(rt: &R, path: &str) -> bool {
    let Ok(link) = fs::symlink_metadata(rt, path) else {
        return false;
    };
    if !link.is_symlink() {
        return false;
    }
    match fs::symlink_metadata(rt, "/proc/self") {
        Ok(own) if own.is_symlink() && own.dev() == link.dev() => true,
        _ => link.mode() & 0o777 != 0o777 && (link.len() == 0 || link.len() == 64),
    }
}

/// What a link at a path names: from the link's folder on, unless it begins at the root.
fn beside_link(alloc: Global, link: &str, to: Path<'_>) -> io::Result<String> {
    let folder = Path::new(link).parent().unwrap_or(Path::new(""));
    Ok(folder.join(alloc, to)?.into_string())
}
