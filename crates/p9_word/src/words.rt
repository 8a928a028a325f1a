//! The words of a line.

ghost use Rattle.std.specs.Prelude.{◌≡◌, IfOk, List, Err, None, Some};
ghost use Rattle.p9_word.specs.Words.{IsLine};
ghost use Rattle.p9_word.specs.Scan.{Gives, words_of};
ghost use Rattle.p9_word.specs.declared.words.Word.{Word};
ghost use Rattle.p9_word.specs.declared.words.WordsFault.TheVariants.{Quote};

use crate::scanner::scan_line;
use crate::{Msg, NoMemory, Seq};
use std::alloc::Global;

/// A word of a line.
#[derive(Drop)]
pub struct Word {
    /// What the word says. The quotes around a quoted word are no part of it, and each doubled quote in
    /// it is one.
    pub bytes: Msg,
    /// Whether it was quoted.
    pub quoted: bool,
}

/// Why a line gives no words.
#[derive(Clone, Copy, Debug, PartialEq, Eq)]
pub enum WordsFault {
    /// Memory was wanted.
    Memory,
    /// A quoted word has no end, or goes on behind its last quote.
    Quote,
}

impl From<NoMemory> for WordsFault {
    ghost use Rattle.p9_word.specs.declared.words.WordsFault.TheVariants.{Memory};

    ghost from_gives = { λ _ fault. fault ≡ Memory };

    fn from(_wanted: NoMemory) -> WordsFault {
        WordsFault::Memory
    }
}

/// The words of a line, in order. Words stand between spaces and tabs.
///
/// A word that begins with a single quote goes on to the next single quote that isn't doubled, and a
/// blank or the line's end must follow there. In any other word a quote stands for itself.
///
/// It is [`WordsFault::Quote`] exactly where no words spell the line, and [`WordsFault::Memory`] where
/// memory was wanted, which says nothing of the line.
pub fn split_words(alloc: Global, line: &[u8]) -> Result<Seq<Word>, WordsFault>
    ensures exact { Gives (λ words. words) result (words_of line.now) }
    ensures found { IfOk result (λ words. IsLine words line.now) }
    ensures only { (words : List Word) → IsLine words line.now → Gives (λ words. words) result (Some words) }
    ensures quote { result ≡ Err Quote → words_of line.now ≡ None }
{
    scan_line(alloc, line)
}
