//! Instructions on threads and procs. thread(2), notify(2).

ghost use Rattle.p9_grammar.specs.ThreadRows.{data_row, making_row, signal_row};
ghost use Rattle.p9_lang.specs.Gives.{Gives};
ghost use Rattle.p9_lang.specs.Views.{draft_of};

use crate::draft::Draft;
use crate::fault::LineFault;
use crate::operands::{named_wide, one_small, one_text, one_wide, small_text, small_text_switch};
use crate::sorts::{is_word_at, no_more};
use p9_grammar::Instr;
use p9_word::Word;

impl Draft {
    /// An instruction that makes or ends threads, by its word; nothing where the word is none of theirs.
    pub fn making_row(&self, word: &Word, words: &[Word]) -> Result<Option<Instr>, LineFault>
        ensures { Gives (λ x. x) result (making_row (draft_of self.now) word.now words.now) }
    {
        if is_word_at(word, b"threadcreate") {
            let (program, arg) = named_wide(&self.progs.names, words)?;
            return Ok(Some(Instr::ThreadCreate { program, arg }));
        }
        if is_word_at(word, b"proccreate") {
            let (program, arg) = named_wide(&self.progs.names, words)?;
            return Ok(Some(Instr::ProcCreate { program, arg }));
        }
        if is_word_at(word, b"threadexits") {
            let text = one_text(words)?;
            return Ok(Some(Instr::ThreadExits { text }));
        }
        if is_word_at(word, b"threadexitsall") {
            let text = one_text(words)?;
            return Ok(Some(Instr::ThreadExitsAll { text }));
        }
        if is_word_at(word, b"yield") {
            no_more(words)?;
            return Ok(Some(Instr::Yield));
        }
        if is_word_at(word, b"threadid") {
            no_more(words)?;
            return Ok(Some(Instr::ThreadId));
        }
        if is_word_at(word, b"threadpid") {
            let tid = one_small(words)?;
            return Ok(Some(Instr::ThreadPid { tid }));
        }
        Ok(None)
    }

    /// An instruction on what a thread and a proc hold, by its word; nothing where the word is none of theirs.
    pub fn data_row(&self, word: &Word, words: &[Word]) -> Result<Option<Instr>, LineFault>
        ensures { Gives (λ x. x) result (data_row (draft_of self.now) word.now words.now) }
    {
        if is_word_at(word, b"threadgetgrp") {
            no_more(words)?;
            return Ok(Some(Instr::ThreadGetGrp));
        }
        if is_word_at(word, b"threadsetgrp") {
            let group = one_small(words)?;
            return Ok(Some(Instr::ThreadSetGrp { group }));
        }
        if is_word_at(word, b"threadsetname") {
            let name = one_text(words)?;
            return Ok(Some(Instr::ThreadSetName { name }));
        }
        if is_word_at(word, b"threadgetname") {
            no_more(words)?;
            return Ok(Some(Instr::ThreadGetName));
        }
        if is_word_at(word, b"threaddata") {
            no_more(words)?;
            return Ok(Some(Instr::ThreadWord));
        }
        if is_word_at(word, b"threadsetdata") {
            let word = one_wide(words)?;
            return Ok(Some(Instr::ThreadSetWord { word }));
        }
        if is_word_at(word, b"procdata") {
            no_more(words)?;
            return Ok(Some(Instr::ProcWord));
        }
        if is_word_at(word, b"procsetdata") {
            let word = one_wide(words)?;
            return Ok(Some(Instr::ProcSetWord { word }));
        }
        Ok(None)
    }

    /// An instruction on interrupts, kills and notes, by its word; nothing where the word is none of theirs.
    pub fn signal_row(&self, word: &Word, words: &[Word]) -> Result<Option<Instr>, LineFault>
        ensures { Gives (λ x. x) result (signal_row (draft_of self.now) word.now words.now) }
    {
        if is_word_at(word, b"threadint") {
            let tid = one_small(words)?;
            return Ok(Some(Instr::ThreadInt { tid }));
        }
        if is_word_at(word, b"threadkill") {
            let tid = one_small(words)?;
            return Ok(Some(Instr::ThreadKill { tid }));
        }
        if is_word_at(word, b"threadintgrp") {
            let group = one_small(words)?;
            return Ok(Some(Instr::ThreadIntGrp { group }));
        }
        if is_word_at(word, b"threadkillgrp") {
            let group = one_small(words)?;
            return Ok(Some(Instr::ThreadKillGrp { group }));
        }
        if is_word_at(word, b"threadnotify") {
            let (id, prefix, on) = small_text_switch(words)?;
            return Ok(Some(Instr::ThreadNotify { id, prefix, on }));
        }
        if is_word_at(word, b"postnote") {
            let (proc_no, note) = small_text(words)?;
            return Ok(Some(Instr::PostNote { proc_no, note }));
        }
        Ok(None)
    }
}
