ghost use Rattle.std.specs.Prelude.{◌≡◌, ◌<◌, ◌≤◌, [], false};
ghost use Rattle.p9_outside.specs.Promised.{source_tells};
ghost use Rattle.p9_outside.specs.Reading.{ReadsBy};
ghost use Rattle.p9_word.specs.declared.io_call.IoCall.TheVariants.{IoRead, IoReadN};

use crate::reads::{fill, read_piece};
use crate::{Device, Source};
use p9_word::limits::MOST_READ_BYTES;
use p9_word::{Effect, IoCall, Msg, Room};

/// A file that is read.
///
/// It begins shut. It refuses a write, a read while it is shut, a read of no bytes or of more than
/// [`MOST_READ_BYTES`], and whatever else a file doesn't do. After a failed read the source is read no more, and every later read gives no bytes.
#[derive(Drop)]
pub struct ReadDevice<S> {
    source: S,
    is_open: bool,
    has_failed: bool,
}

impl<S: Source> ReadDevice<S> {
    ghost use Rattle.p9_outside.specs.Reading.{reader_at, source_of};
    ghost use Rattle.std.specs.Prelude.{not};
    ghost use Rattle.p9_manual.specs.Files.{at_first, refuses_read};

    /// A file over this source, shut.
    pub fn new(s: S) -> ReadDevice<S>
        ensures at { reader_at result ≡ at_first }
        ensures source { source_of result ≡ s }
    {
        ReadDevice {
            source: s,
            is_open: false,
            has_failed: false,
        }
    }

    /// The source, as far as it was read.
    pub fn into_inner(self) -> S
        ensures { result ≡ source_of self }
    {
        let ReadDevice {
            source,
            is_open: _,
            has_failed: _,
        } = self;
        source
    }

    /// Whether the file is open and a read of `n` bytes is neither of none nor of too many.
    fn may_read(&self, n: u32) -> bool
        ensures { result ≡ not (refuses_read false self.now.is_open n) }
    {
        self.is_open && n != 0 && n <= MOST_READ_BYTES
    }

    /// Reads at most `n` bytes by one read, unless a read has failed before.
    fn read(&mut self, n: u32, mut room: Room<u8>) -> Effect
        requires some { 0 < n }
        requires empty { room.items ≡ [] }
        requires room { n ≤ room.spare }
        ensures { ReadsBy (source_tells S.left S.faults S.steady) self.old (IoRead n) n result self.new }
    {
        if self.has_failed {
            return Effect::Got {
                failed: false,
                bytes: Msg::new(),
            };
        }
        self.has_failed = read_piece(&mut self.source, n as usize, &mut room);
        Effect::Got {
            failed: self.has_failed,
            bytes: room.into_msg(),
        }
    }

    /// Reads `n` bytes, or all that are left, unless a read has failed before.
    fn read_n(&mut self, n: u32, mut room: Room<u8>) -> Effect
        requires empty { room.items ≡ [] }
        requires room { n ≤ room.spare }
        ensures { ReadsBy (source_tells S.left S.faults S.steady) self.old (IoReadN n) n result self.new }
    {
        if self.has_failed {
            return Effect::Got {
                failed: false,
                bytes: Msg::new(),
            };
        }
        let failed = fill(&mut self.source, n as usize, &mut room);
        self.has_failed = failed;
        Effect::Got {
            failed,
            bytes: room.into_msg(),
        }
    }
}

impl<S: Source> Device for ReadDevice<S> {
    ghost use Rattle.std.specs.Prelude.{None};
    ghost use Rattle.p9_outside.specs.Reading.{ReadServes, source_of};

    ghost serves = { λ old call effect new. ReadServes (source_tells S.left S.faults S.steady) old call effect new };

    ghost left = { λ d. S.left (source_of d) };

    ghost held = { λ d. None };

    ghost faults = { λ d. S.faults (source_of d) };

    ghost fits = { λ old call effect new done. done.file.fits };

    ghost gives = { λ old call effect new done. done.bytes };

    ghost takes = { λ old call effect new done. tt };

    ghost counts = { λ old call effect new done. done.tells };

    fn serve(&mut self, call: &IoCall, room: Room<u8>) -> Effect {
        match call {
            IoCall::IoOpen => {
                self.is_open = true;
                Effect::Opened
            }
            IoCall::IoClose => {
                self.is_open = false;
                Effect::Shut
            }
            IoCall::IoRead(n) if self.may_read(*n) => self.read(*n, room),
            IoCall::IoReadN(n) if self.may_read(*n) => self.read_n(*n, room),
            IoCall::IoRead(_) | IoCall::IoReadN(_) => Effect::Refused,
            IoCall::IoWrite(_) | IoCall::IoOwn(_, _) => Effect::Refused,
        }
    }
}
