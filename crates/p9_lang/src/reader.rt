//! A whole text, line by line.

ghost use Rattle.std.specs.Prelude.{◌≡◌, ◌<◌, ℕ, length, IfOk, Err};
ghost use Rattle.p9_grammar.specs.declared.why.Why.{Why};
ghost use Rattle.p9_grammar.specs.Draft.{nothing};
ghost use Rattle.p9_grammar.specs.Lines.{lines_of};
ghost use Rattle.p9_grammar.specs.Steps.{present};
ghost use Rattle.p9_grammar.specs.declared.why.Why.TheVariants.{BadQuote};
ghost use Rattle.p9_word.specs.Scan.{words_of};
ghost use Rattle.p9_grammar.specs.Reading.{IsFaulty, Means, last_line, line_of, read_lines, reading};
ghost use Rattle.p9_lang.specs.declared.fault.ReadFault.TheVariants as faults;
ghost use Rattle.p9_lang.specs.Gives.{Gives, GivesAt};
ghost use Rattle.p9_lang.specs.Views.{draft_of};

use crate::draft::Draft;
use crate::fault::{LineFault, ReadFault};
use crate::lines::{cut_line, is_bare, is_readable, is_valid};
use p9_grammar::{Pipeline, Why};
use p9_word::limits::MOST_TEXT_BYTES;
use p9_word::{Seq, Word, WordsFault, split_words};
use std::alloc::Global;

/// The words of a line.
fn words_at(alloc: Global, line: &[u8]) -> Result<Seq<Word>, LineFault>
    ensures { Gives (λ words. words) result (present BadQuote (words_of line.now)) }
{
    match split_words(alloc, line) {
        Ok(words) => Ok(words),
        Err(WordsFault::Quote) => Err(LineFault::Text(Why::BadQuote)),
        Err(WordsFault::Memory) => Err(LineFault::Memory),
    }
}

impl Draft {
    /// Reads a line.
    #[tactic(auto, unfolding(p9_grammar::specs::Reading::line_of))]
    fn read_line(&mut self, alloc: Global, number: u32, line: &[u8]) -> Result<(), LineFault>
        ensures { Gives (λ _. draft_of self.new) result (line_of number (draft_of self.old) line.now) }
    {
        if !is_valid(line) || !is_readable(line) {
            return Err(LineFault::Text(Why::BadByte));
        }
        if is_bare(line) {
            return Ok(());
        }
        let words = words_at(alloc, line)?;
        self.statement(alloc, number, words.as_slice())
    }

    /// Reads all lines of a text, and tells the number of the last one, or 1 where there is none.
    fn read_lines(&mut self, alloc: Global, text: &[u8]) -> Result<u32, ReadFault>
        requires { length text.now < 4294967295 }
        ensures read { GivesAt (λ _. draft_of self.new) result (read_lines 1 (draft_of self.old) (lines_of text.now)) }
        ensures last { IfOk result (λ last. last ≡ last_line (lines_of text.now)) }
    {
        let mut number = 1u32;
        let mut rest = text;
        while !rest.is_empty() {
            let (line, after) = cut_line(rest);
            match self.read_line(alloc, number, line) {
                Ok(()) => {}
                Err(LineFault::Memory) => return Err(ReadFault::Memory),
                Err(LineFault::Text(why)) => return Err(ReadFault::Text { line: number, why }),
            }
            number += 1;
            rest = after;
        }
        Ok(if number > 1 { number - 1 } else { 1 })
    }
}

/// Reads a text into what is empty yet.
#[tactic(auto, unfolding(p9_grammar::specs::Reading::reading))]
fn read_into(draft: &mut Draft, alloc: Global, text: &[u8]) -> Result<Pipeline, ReadFault>
    requires { draft_of draft.old ≡ nothing }
    ensures { GivesAt (λ pipeline. pipeline) result (reading text.now) }
{
    if text.len() > MOST_TEXT_BYTES {
        return Err(ReadFault::Text {
            line: 1,
            why: Why::TooLong,
        });
    }
    let last = draft.read_lines(alloc, text)?;
    draft.finish(alloc, last)
}

/// The pipeline that a text means, or the line of its first fault and what is wrong there.
pub fn read_text(alloc: Global, text: &[u8]) -> Result<Pipeline, ReadFault>
    ensures means { IfOk result (λ pipeline. Means text.now pipeline) }
    ensures faulty { (line : ℕ) (why : Why) → result ≡ Err (faults.Text line why) → IsFaulty text.now line why }
{
    let mut draft = Draft::new(alloc);
    read_into(&mut draft, alloc, text)
}
