//! Instructions on ioprocs. An ioproc is named by its file. ioproc(2).

ghost use Rattle.p9_grammar.specs.IoRows.{io_row};
ghost use Rattle.p9_lang.specs.Gives.{Gives};
ghost use Rattle.p9_lang.specs.Views.{draft_of};

use crate::draft::Draft;
use crate::fault::LineFault;
use crate::operands::{named_small, named_small_text, named_text, one_named};
use crate::sorts::is_word_at;
use p9_grammar::Instr;
use p9_word::Word;

impl Draft {
    /// An instruction on ioprocs and their calls, by its word; nothing where the word is none of theirs.
    pub fn io_row(&self, word: &Word, words: &[Word]) -> Result<Option<Instr>, LineFault>
        ensures { Gives (λ x. x) result (io_row (draft_of self.now) word.now words.now) }
    {
        if is_word_at(word, b"ioproc") {
            let k = one_named(&self.files.names, words)?;
            return Ok(Some(Instr::IoProc { k }));
        }
        if is_word_at(word, b"ioopen") {
            let k = one_named(&self.files.names, words)?;
            return Ok(Some(Instr::IoOpen { k }));
        }
        if is_word_at(word, b"ioread") {
            let (k, n) = named_small(&self.files.names, words)?;
            return Ok(Some(Instr::IoRead { k, n }));
        }
        if is_word_at(word, b"ioreadn") {
            let (k, n) = named_small(&self.files.names, words)?;
            return Ok(Some(Instr::IoReadN { k, n }));
        }
        if is_word_at(word, b"iowrite") {
            let (k, m) = named_text(&self.files.names, words)?;
            return Ok(Some(Instr::IoWrite { k, m }));
        }
        if is_word_at(word, b"ioclose") {
            let k = one_named(&self.files.names, words)?;
            return Ok(Some(Instr::IoClose { k }));
        }
        if is_word_at(word, b"iocall") {
            let (k, code, m) = named_small_text(&self.files.names, words)?;
            return Ok(Some(Instr::IoOwn { k, code, m }));
        }
        if is_word_at(word, b"iointerrupt") {
            let k = one_named(&self.files.names, words)?;
            return Ok(Some(Instr::IoInterrupt { k }));
        }
        if is_word_at(word, b"closeioproc") {
            let k = one_named(&self.files.names, words)?;
            return Ok(Some(Instr::CloseIoProc { k }));
        }
        Ok(None)
    }
}
