//! A line's words: a statement, or an instruction of a prog.

ghost use Rattle.p9_grammar.specs.Reading.{outside_line, statement, work_line};
ghost use Rattle.p9_lang.specs.Gives.{Gives};
ghost use Rattle.p9_lang.specs.Views.{draft_of};

use crate::decls::later_places;
use crate::draft::Draft;
use crate::fault::LineFault;
use crate::sorts::is_word_at;
use p9_grammar::Why;
use p9_word::Word;
use std::alloc::Global;

impl Draft {
    /// A line of programs, procs and threads, by its first word.
    fn work(&mut self, alloc: Global, word: &Word, words: &[Word]) -> Result<(), LineFault>
        ensures { Gives (λ _. draft_of self.new) result (work_line (draft_of self.old) word.now words.now) }
    {
        if is_word_at(word, b"later") {
            self.later = Some(later_places(self.procs.names.len(), self.later, words)?);
            return Ok(());
        }
        if is_word_at(word, b"prog") {
            return self.progs.line(alloc, words);
        }
        if is_word_at(word, b"proc") {
            return self.procs.line(alloc, self.later, words);
        }
        if is_word_at(word, b"thread") {
            return self.thread_line(alloc, words);
        }
        Err(LineFault::Text(Why::UnknownStatement))
    }

    /// A line outside a prog.
    #[tactic(auto, unfolding(p9_grammar::specs::Reading::outside_line))]
    fn outside(
        &mut self,
        alloc: Global,
        line: u32,
        word: &Word,
        words: &[Word],
    ) -> Result<(), LineFault>
        ensures { Gives (λ _. draft_of self.new) result (outside_line line (draft_of self.old) word.now words.now) }
    {
        if self.thing(alloc, line, word, words)? {
            return Ok(());
        }
        self.work(alloc, word, words)
    }

    /// Reads a line's words.
    pub fn statement(&mut self, alloc: Global, line: u32, words: &[Word]) -> Result<(), LineFault>
        ensures { Gives (λ _. draft_of self.new) result (statement line (draft_of self.old) words.now) }
    {
        let [word, rest @ ..] = words else {
            return Ok(());
        };
        if let Some(prog) = self.progs.current.take() {
            return self.inside_line(alloc, prog, word, rest);
        }
        self.outside(alloc, line, word, rest)
    }
}
