ghost use Rattle.std.specs.Prelude.{◌≡◌, ◌+◌, ◌≤◌, ◌⊎◌, length, IfOk, MatchOption};
ghost use Rattle.std.specs.Io.KnownBytes.{Consumes, IsAtEnd};
ghost use Rattle.p9_outside.specs.Contents.{Stay};
ghost use Rattle.p9_run.specs.CountedCalls.{CountsText};
ghost use Rattle.p9_run.specs.FileText.{IsAccepted, IsRefused, IsReadFrom};

use crate::copy_text::{CopyPaths, read_text};
use crate::report::FileFault;
use p9_outside::{Failed, Files, FilesFault, Source};
use p9_word::limits::{BLOCK_BYTES, MOST_TEXT_BYTES};
use p9_word::{NoMemory, Room};
use std::alloc::Global;

/// How many bytes of a text are read at a time.
const PIECE: usize = BLOCK_BYTES as usize;

/// Why the text of FILE can't be had.
#[derive(Clone, Copy, Debug, PartialEq, Eq)]
pub(crate) enum TextFault {
    /// Memory was wanted.
    Memory,
    /// FILE couldn't be opened.
    Open,
    /// A read of FILE failed.
    Read,
}

impl From<NoMemory> for TextFault {
    ghost use Rattle.p9_run.specs.declared.file_text.TextFault.TheVariants.{Memory};

    ghost from_gives = { λ _ fault. fault ≡ Memory };

    fn from(_wanted: NoMemory) -> TextFault {
        TextFault::Memory
    }
}

/// The bytes of a source, to its end or to one byte past the longest text.
fn read_whole<S: Source>(alloc: Global, source: &mut S) -> Result<Room<u8>, TextFault>
    ensures most { IfOk result (λ r. length r.items ≤ MOST_TEXT_BYTES + 1) }
    ensures bytes { IfOk result (λ r. Consumes (S.left source.old) (S.left source.new) r.items) }
    ensures ends { IfOk result (λ r. (length r.items ≡ MOST_TEXT_BYTES + 1) ⊎ IsAtEnd (S.left source.new)) }
    ensures opened { result ≡ Err TextFault.Open → ⊥ }
{
    let mut text = Room::new(alloc);
    let mut buf = [0; PIECE];
    let mut len = 0;
    while len <= MOST_TEXT_BYTES {
        let want = PIECE.min(MOST_TEXT_BYTES + 1 - len);
        match source.read(&mut buf[..want]) {
            Ok(0) => return Ok(text),
            Ok(count) => {
                text.reserve(count)?;
                text.push_all(&buf[..count]);
                len += count;
            }
            Err(Failed) => return Err(TextFault::Read),
        }
    }
    Ok(text)
}

/// The text of FILE, to its end or to one byte past the longest text.
pub(crate) fn read_file<F: Files>(
    alloc: Global,
    files: &mut F,
    file: &[u8],
) -> Result<Room<u8>, TextFault>
    ensures text { IfOk result (λ r. IsReadFrom (F.contents files.old) file.now r.items) }
    ensures contents { Stay (F.contents files.old) (F.contents files.new) }
    ensures counts { CountsText result (F.faults files.old) (F.faults files.new) }
{
    let mut source = match files.source(alloc, file) {
        Ok(source) => source,
        Err(FilesFault::Failed) => return Err(TextFault::Open),
        Err(FilesFault::Memory) => return Err(TextFault::Memory),
    };
    let text = read_whole(alloc, &mut source)?;
    Ok(text)
}

/// The paths of a text that is run, or `None` where it is another text.
pub(crate) fn accept(alloc: Global, text: &[u8]) -> Result<Option<CopyPaths>, NoMemory>
    ensures { IfOk result (λ paths. MatchOption paths (IsRefused text.now) (λ p. IsAccepted text.now p.from p.to)) }
{
    if text.len() > MOST_TEXT_BYTES {
        return Ok(None);
    }
    read_text(alloc, text)
}
