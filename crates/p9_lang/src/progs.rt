//! The lines of a prog: instructions, blocks, and `done`.

ghost use Rattle.std.specs.Prelude.{[], ◌∷◌, ◌++◌, Ok};
ghost use Rattle.p9_grammar.specs.declared.limits.TheConstants.{MOST_TURNS};
ghost use Rattle.p9_grammar.specs.AltLines.{alt_row};
ghost use Rattle.p9_grammar.specs.ChanRows.{chan_row, receive_row, send_row};
ghost use Rattle.p9_grammar.specs.IoRows.{io_row};
ghost use Rattle.p9_grammar.specs.LockRows.{lock_row, rendez_row, rwlock_row};
ghost use Rattle.p9_grammar.specs.Operands.{one};
ghost use Rattle.p9_grammar.specs.Progs.{done_line, end_line, enough_depth, if_line, in_block, instr_line, loop_line, no_block, not_first, or_else, prog_line, request_line, request_row, stop_line, with_instr};
ghost use Rattle.p9_grammar.specs.Reading.{inside_line};
ghost use Rattle.p9_grammar.specs.Sorts.{number_in};
ghost use Rattle.p9_lang.specs.Gives.{Gives};
ghost use Rattle.p9_lang.specs.Views.{draft_of, prog_of, progs_of};

use crate::draft::{Draft, OpenProg, Progs};
use crate::fault::LineFault;
use crate::sorts::{add_name, first_word, is_word_at, no_more, small_within};
use p9_grammar::limits::{MOST_DEPTH, MOST_PROGS, MOST_TURNS};
use p9_grammar::{Instr, ProgDecl, Why};
use p9_word::{Room, Word};
use std::alloc::Global;

/// How many turns a loop has, and no word more.
#[tactic(auto, unfolding(p9_grammar::specs::Operands::one))]
fn turns(words: &[Word]) -> Result<u32, LineFault>
    ensures { Gives (λ n. n) result (one (number_in 1 MOST_TURNS) words.now) }
{
    let (word, words) = first_word(words)?;
    let n = small_within(1, MOST_TURNS as u32, word)?;
    no_more(words)?;
    Ok(n)
}

impl OpenProg {
    /// One instruction more.
    fn push(&mut self, instr: Instr) -> Result<(), LineFault>
        ensures { Gives (λ _. prog_of self.new) result
            (Ok (record (prog_of self.old) { code = self.old.code.items ++ instr ∷ [] })) }
    {
        self.code.reserve(1)?;
        self.code.push(instr);
        Ok(())
    }

    /// One instruction more, which may be the first of a loop: the line before begins no loop any more.
    fn push_whole(&mut self, instr: Instr) -> Result<(), LineFault>
        ensures { Gives (λ _. prog_of self.new) result (Ok (with_instr (prog_of self.old) instr)) }
    {
        self.push(instr)?;
        self.loops = false;
        Ok(())
    }

    /// The line isn't the first of a loop, which has to make a request.
    fn is_not_first(&self) -> Result<(), LineFault>
        ensures { Gives (λ _. tt) result (not_first (prog_of self.now)) }
    {
        if self.loops {
            return Err(LineFault::Text(Why::BadBlock));
        }
        Ok(())
    }

    /// One block more is one that a prog may have.
    fn has_depth(&self) -> Result<(), LineFault>
        ensures { Gives (λ _. tt) result (enough_depth (prog_of self.now)) }
    {
        if self.loops || self.depth >= MOST_DEPTH {
            return Err(LineFault::Text(Why::BadBlock));
        }
        Ok(())
    }

    /// Some block is open.
    fn is_in_block(&self) -> Result<(), LineFault>
        ensures { Gives (λ _. tt) result (in_block (prog_of self.now)) }
    {
        if self.loops || self.depth == 0 {
            return Err(LineFault::Text(Why::BadBlock));
        }
        Ok(())
    }

    /// No block is open.
    fn has_no_block(&self) -> Result<(), LineFault>
        ensures { Gives (λ _. tt) result (no_block (prog_of self.now)) }
    {
        if self.depth != 0 {
            return Err(LineFault::Text(Why::BadBlock));
        }
        Ok(())
    }

    /// `loop N`: the next line must make a request.
    #[tactic(auto, unfolding(p9_grammar::specs::Progs::loop_line))]
    fn loop_line(&mut self, words: &[Word]) -> Result<(), LineFault>
        ensures { Gives (λ _. prog_of self.new) result (loop_line (prog_of self.old) words.now) }
    {
        self.has_depth()?;
        let n = turns(words)?;
        self.push(Instr::Loop(n))?;
        self.depth += 1;
        self.loops = true;
        Ok(())
    }

    /// `ifok`, `iferr`.
    #[tactic(auto, unfolding(p9_grammar::specs::Progs::if_line))]
    fn if_line(&mut self, instr: Instr, words: &[Word]) -> Result<(), LineFault>
        ensures { Gives (λ _. prog_of self.new) result (if_line instr (prog_of self.old) words.now) }
    {
        self.has_depth()?;
        no_more(words)?;
        self.push(instr)?;
        self.depth += 1;
        Ok(())
    }

    /// `end`: the innermost block ends.
    #[tactic(auto, unfolding(p9_grammar::specs::Progs::end_line))]
    fn end_line(&mut self, words: &[Word]) -> Result<(), LineFault>
        ensures { Gives (λ _. prog_of self.new) result (end_line (prog_of self.old) words.now) }
    {
        self.is_in_block()?;
        no_more(words)?;
        self.push(Instr::End)?;
        self.depth -= 1;
        Ok(())
    }

    /// `stop`.
    #[tactic(auto, unfolding(p9_grammar::specs::Progs::stop_line))]
    fn stop_line(&mut self, words: &[Word]) -> Result<(), LineFault>
        ensures { Gives (λ _. prog_of self.new) result (stop_line (prog_of self.old) words.now) }
    {
        self.is_not_first()?;
        no_more(words)?;
        self.push_whole(Instr::Stop)
    }
}

impl Progs {
    /// `prog NAME`: instructions come from here on.
    #[tactic(auto, unfolding(p9_grammar::specs::Progs::prog_line))]
    pub fn line(&mut self, alloc: Global, words: &[Word]) -> Result<(), LineFault>
        ensures { Gives (λ _. progs_of self.new) result (prog_line (progs_of self.old) words.now) }
    {
        let (name, words) = first_word(words)?;
        add_name(alloc, MOST_PROGS, &mut self.names, name)?;
        no_more(words)?;
        let name = name.bytes.copy()?;
        self.current = Some(OpenProg {
            name,
            code: Room::new(alloc),
            depth: 0,
            loops: false,
        });
        Ok(())
    }

    /// `done`: the prog is whole.
    #[tactic(auto, unfolding(p9_grammar::specs::Progs::done_line))]
    pub fn done_line(&mut self, prog: OpenProg, words: &[Word]) -> Result<(), LineFault>
        ensures { Gives (λ _. progs_of self.new) result (done_line (progs_of self.old) (prog_of prog) words.now) }
    {
        prog.has_no_block()?;
        no_more(words)?;
        self.done.reserve(1)?;
        let OpenProg { name, code, .. } = prog;
        let code = code.into_seq();
        self.done.push(ProgDecl { name, code });
        self.current = None;
        Ok(())
    }
}

impl Draft {
    /// A request on a lock, a Rendez, a Ref or an ioproc.
    fn lock_or_io_row(&self, word: &Word, words: &[Word]) -> Result<Option<Instr>, LineFault>
        ensures { Gives (λ x. x) result
            (or_else (lock_row (draft_of self.now) word.now words.now)
            (or_else (rwlock_row (draft_of self.now) word.now words.now)
            (or_else (rendez_row (draft_of self.now) word.now words.now)
            (io_row (draft_of self.now) word.now words.now)))) }
    {
        if let Some(instr) = self.lock_row(word, words)? {
            return Ok(Some(instr));
        }
        if let Some(instr) = self.rwlock_row(word, words)? {
            return Ok(Some(instr));
        }
        if let Some(instr) = self.rendez_row(word, words)? {
            return Ok(Some(instr));
        }
        self.io_row(word, words)
    }

    /// A request on a channel, or else on anything but a thread.
    fn thing_row(
        &self,
        alloc: Global,
        word: &Word,
        words: &[Word],
    ) -> Result<Option<Instr>, LineFault>
        ensures { Gives (λ x. x) result
            (or_else (chan_row (draft_of self.now) word.now words.now)
            (or_else (send_row (draft_of self.now) word.now words.now)
            (or_else (receive_row (draft_of self.now) word.now words.now)
            (or_else (alt_row (draft_of self.now) word.now words.now)
            (or_else (lock_row (draft_of self.now) word.now words.now)
            (or_else (rwlock_row (draft_of self.now) word.now words.now)
            (or_else (rendez_row (draft_of self.now) word.now words.now)
            (io_row (draft_of self.now) word.now words.now)))))))) }
    {
        if let Some(instr) = self.chan_row(word, words)? {
            return Ok(Some(instr));
        }
        if let Some(instr) = self.send_row(word, words)? {
            return Ok(Some(instr));
        }
        if let Some(instr) = self.receive_row(word, words)? {
            return Ok(Some(instr));
        }
        if let Some(instr) = self.alt_row(alloc, word, words)? {
            return Ok(Some(instr));
        }
        self.lock_or_io_row(word, words)
    }

    /// An instruction that makes a request, by its word, if it is the word of one.
    fn request_row(
        &self,
        alloc: Global,
        word: &Word,
        words: &[Word],
    ) -> Result<Option<Instr>, LineFault>
        ensures { Gives (λ x. x) result (request_row (draft_of self.now) word.now words.now) }
    {
        if let Some(instr) = self.making_row(word, words)? {
            return Ok(Some(instr));
        }
        if let Some(instr) = self.data_row(word, words)? {
            return Ok(Some(instr));
        }
        if let Some(instr) = self.signal_row(word, words)? {
            return Ok(Some(instr));
        }
        self.thing_row(alloc, word, words)
    }

    /// An instruction that makes a request.
    #[tactic(auto, unfolding(p9_grammar::specs::Progs::request_line))]
    fn request_line(
        &self,
        alloc: Global,
        prog: &mut OpenProg,
        word: &Word,
        words: &[Word],
    ) -> Result<(), LineFault>
        ensures { Gives (λ _. prog_of prog.new) result
            (request_line (draft_of self.now) (prog_of prog.old) word.now words.now) }
    {
        match self.request_row(alloc, word, words)? {
            None => Err(LineFault::Text(Why::UnknownInstruction)),
            Some(instr) => prog.push_whole(instr),
        }
    }

    /// An instruction, by its word.
    fn instr_line(
        &self,
        alloc: Global,
        prog: &mut OpenProg,
        word: &Word,
        words: &[Word],
    ) -> Result<(), LineFault>
        ensures { Gives (λ _. prog_of prog.new) result
            (instr_line (draft_of self.now) (prog_of prog.old) word.now words.now) }
    {
        if is_word_at(word, b"loop") {
            return prog.loop_line(words);
        }
        if is_word_at(word, b"ifok") {
            return prog.if_line(Instr::IfOk, words);
        }
        if is_word_at(word, b"iferr") {
            return prog.if_line(Instr::IfErr, words);
        }
        if is_word_at(word, b"end") {
            return prog.end_line(words);
        }
        if is_word_at(word, b"stop") {
            return prog.stop_line(words);
        }
        self.request_line(alloc, prog, word, words)
    }

    /// A line in a prog, which is the current one from here on unless the line is `done`.
    #[tactic(auto, unfolding(p9_grammar::specs::Reading::inside_line))]
    pub fn inside_line(
        &mut self,
        alloc: Global,
        prog: OpenProg,
        word: &Word,
        words: &[Word],
    ) -> Result<(), LineFault>
        ensures { Gives (λ _. draft_of self.new) result
            (inside_line (draft_of self.old) (prog_of prog) word.now words.now) }
    {
        if is_word_at(word, b"done") {
            return self.progs.done_line(prog, words);
        }
        let mut prog = prog;
        self.instr_line(alloc, &mut prog, word, words)?;
        self.progs.current = Some(prog);
        Ok(())
    }
}
