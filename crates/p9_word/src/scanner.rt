ghost use Rattle.std.specs.Prelude.{◌≡◌, Some};
ghost use Rattle.p9_word.specs.Words.{is_blank};
ghost use Rattle.p9_word.specs.Scan.{Gives, after, ending, finished, grown, scan_state, start, words_of};

use crate::{Room, Seq, Word, WordsFault};
use std::alloc::Global;
use std::mem;

/// Where in a line a scanner is.
#[derive(Clone, Copy, Debug, PartialEq, Eq)]
pub(crate) enum Mode {
    /// Before a word.
    Between,
    /// In a word that began without a quote.
    Plain,
    /// In a word behind its first quote.
    Quoted,
    /// Behind a quote that ends the word, unless one more quote follows.
    Closed,
}

/// Takes a line byte by byte.
#[derive(Drop)]
pub(crate) struct Scanner {
    /// The words that have ended.
    words: Room<Word>,
    mode: Mode,
    /// The bytes so far of the word that has begun.
    current: Room<u8>,
}

fn is_blank_byte(byte: u8) -> bool
    ensures { result ≡ is_blank byte }
{
    byte == b' ' || byte == b'\t'
}

impl Scanner {
    fn new(alloc: Global) -> Scanner
        ensures { scan_state result ≡ start }
    {
        Scanner {
            words: Room::new(alloc),
            mode: Mode::Between,
            current: Room::new(alloc),
        }
    }

    /// Ends the word.
    fn finish(&mut self, alloc: Global, quoted: bool) -> Result<(), WordsFault>
        ensures { Gives (λ _. scan_state self.new) result (Some (finished (scan_state self.old) quoted)) }
    {
        self.words.reserve(1)?;
        let bytes = mem::replace(&mut self.current, Room::new(alloc)).into_msg();
        self.words.push(Word { bytes, quoted });
        self.mode = Mode::Between;
        Ok(())
    }

    /// Takes one more byte of the word.
    fn grow(&mut self, mode: Mode, byte: u8) -> Result<(), WordsFault>
        ensures { Gives (λ _. scan_state self.new) result (Some (grown (scan_state self.old) mode byte)) }
    {
        self.current.reserve(1)?;
        self.current.push(byte);
        self.mode = mode;
        Ok(())
    }

    /// Takes the next byte of the line.
    fn take(&mut self, alloc: Global, byte: u8) -> Result<(), WordsFault>
        ensures { Gives (λ _. scan_state self.new) result (after (scan_state self.old) byte) }
    {
        match self.mode {
            Mode::Between => {
                if is_blank_byte(byte) {
                    Ok(())
                } else if byte == b'\'' {
                    self.mode = Mode::Quoted;
                    Ok(())
                } else {
                    self.grow(Mode::Plain, byte)
                }
            }
            Mode::Plain => {
                if is_blank_byte(byte) {
                    self.finish(alloc, false)
                } else {
                    self.grow(Mode::Plain, byte)
                }
            }
            Mode::Quoted => {
                if byte == b'\'' {
                    self.mode = Mode::Closed;
                    Ok(())
                } else {
                    self.grow(Mode::Quoted, byte)
                }
            }
            Mode::Closed => {
                if byte == b'\'' {
                    self.grow(Mode::Quoted, byte)
                } else if is_blank_byte(byte) {
                    self.finish(alloc, true)
                } else {
                    Err(WordsFault::Quote)
                }
            }
        }
    }

    /// The words, at the end of the line.
    fn close(mut self, alloc: Global) -> Result<Seq<Word>, WordsFault>
        ensures { Gives (λ words. words) result (ending (scan_state self)) }
    {
        match self.mode {
            Mode::Between => Ok(self.words.into_seq()),
            Mode::Plain => {
                self.finish(alloc, false)?;
                Ok(self.words.into_seq())
            }
            Mode::Quoted => Err(WordsFault::Quote),
            Mode::Closed => {
                self.finish(alloc, true)?;
                Ok(self.words.into_seq())
            }
        }
    }
}

/// The words of a line.
pub(crate) fn scan_line(alloc: Global, line: &[u8]) -> Result<Seq<Word>, WordsFault>
    ensures { Gives (λ words. words) result (words_of line.now) }
{
    let mut scanner = Scanner::new(alloc);
    for byte in line {
        scanner.take(alloc, *byte)?;
    }
    scanner.close(alloc)
}
