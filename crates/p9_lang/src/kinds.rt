//! The stages: their words, their arguments, and how many channels each has.

ghost use Rattle.std.specs.Prelude.{◌≡◌, option_map};
ghost use Rattle.p9_grammar.specs.Kinds.{ins_of, outs_of, directed, file_argument, number_argument, argument_kind, bare_kind, kind_of};
ghost use Rattle.p9_lang.specs.Gives.{Gives};
ghost use Rattle.p9_lang.specs.Views.{files_of};

use crate::draft::Files;
use crate::fault::LineFault;
use crate::sorts::{first_word, is_word_at, known_place, number_of_place, small_within};
use p9_grammar::limits::{MOST_FIELD, MOST_TURNS};
use p9_grammar::{Kind, Why};
use p9_word::Word;
use p9_word::limits::MOST_ELEMENT_BYTES;

/// How many channels a stage receives on.
pub(crate) fn ins_of(kind: &Kind) -> usize
    ensures { result ≡ ins_of kind.now }
{
    match kind {
        Kind::Read(_) => 0,
        Kind::Cat | Kind::Zip | Kind::Merge => 2,
        Kind::Write(_)
        | Kind::Lines
        | Kind::Blocks(_)
        | Kind::Keep(_)
        | Kind::Drop(_)
        | Kind::Number
        | Kind::Count
        | Kind::First(_)
        | Kind::Last(_)
        | Kind::Uniq
        | Kind::Field(_)
        | Kind::Reverse
        | Kind::Sort
        | Kind::Tee
        | Kind::Deal => 1,
    }
}

/// How many channels a stage sends on.
pub(crate) fn outs_of(kind: &Kind) -> usize
    ensures { result ≡ outs_of kind.now }
{
    match kind {
        Kind::Write(_) => 0,
        Kind::Tee | Kind::Deal => 2,
        Kind::Read(_)
        | Kind::Lines
        | Kind::Blocks(_)
        | Kind::Keep(_)
        | Kind::Drop(_)
        | Kind::Number
        | Kind::Count
        | Kind::First(_)
        | Kind::Last(_)
        | Kind::Uniq
        | Kind::Field(_)
        | Kind::Reverse
        | Kind::Sort
        | Kind::Cat
        | Kind::Zip
        | Kind::Merge => 1,
    }
}

/// A file has the direction that the stage wants.
fn check_direction(out: bool, is_out: bool) -> Result<(), LineFault>
    ensures { Gives (λ _. tt) result (directed out is_out) }
{
    if out != is_out {
        return Err(LineFault::Text(Why::WrongDirection));
    }
    Ok(())
}

/// An argument that is a number from `low` to `high`, and the words left.
#[tactic(auto, unfolding(p9_grammar::specs::Kinds::number_argument))]
fn number_argument(low: u32, high: u32, words: &[Word]) -> Result<(u32, &[Word]), LineFault>
    ensures { Gives (λ x. (x.0, x.1.now)) result (number_argument low high words.now) }
{
    let (word, words) = first_word(words)?;
    let n = small_within(low, high, word)?;
    Ok((n, words))
}

/// A stage that has a number or a text, and the words left.
fn argument_kind<'a>(
    word: &Word,
    words: &'a [Word],
) -> Result<Option<(Kind, &'a [Word])>, LineFault>
    ensures { Gives (λ found. option_map (λ x. (x.0, x.1.now)) found) result (argument_kind word.now words.now) }
{
    if is_word_at(word, b"blocks") {
        let (n, words) = number_argument(1, MOST_ELEMENT_BYTES, words)?;
        return Ok(Some((Kind::Blocks(n), words)));
    }
    if is_word_at(word, b"keep") {
        let (text, words) = first_word(words)?;
        return Ok(Some((Kind::Keep(text.bytes.copy()?), words)));
    }
    if is_word_at(word, b"drop") {
        let (text, words) = first_word(words)?;
        return Ok(Some((Kind::Drop(text.bytes.copy()?), words)));
    }
    if is_word_at(word, b"first") {
        let (n, words) = number_argument(0, MOST_TURNS as u32, words)?;
        return Ok(Some((Kind::First(n), words)));
    }
    if is_word_at(word, b"last") {
        let (n, words) = number_argument(0, MOST_TURNS as u32, words)?;
        return Ok(Some((Kind::Last(n), words)));
    }
    if is_word_at(word, b"field") {
        let (n, words) = number_argument(1, MOST_FIELD as u32, words)?;
        return Ok(Some((Kind::Field(n), words)));
    }
    Ok(None)
}

/// A stage that has no argument.
fn bare_kind(word: &Word) -> Option<Kind>
    ensures { result ≡ bare_kind word.now }
{
    if is_word_at(word, b"lines") {
        return Some(Kind::Lines);
    }
    if is_word_at(word, b"number") {
        return Some(Kind::Number);
    }
    if is_word_at(word, b"count") {
        return Some(Kind::Count);
    }
    if is_word_at(word, b"uniq") {
        return Some(Kind::Uniq);
    }
    if is_word_at(word, b"reverse") {
        return Some(Kind::Reverse);
    }
    if is_word_at(word, b"sort") {
        return Some(Kind::Sort);
    }
    if is_word_at(word, b"tee") {
        return Some(Kind::Tee);
    }
    if is_word_at(word, b"cat") {
        return Some(Kind::Cat);
    }
    if is_word_at(word, b"zip") {
        return Some(Kind::Zip);
    }
    if is_word_at(word, b"deal") {
        return Some(Kind::Deal);
    }
    if is_word_at(word, b"merge") {
        return Some(Kind::Merge);
    }
    None
}

impl Files {
    /// A file of this direction that no stage uses yet: its number, and the words left. It is used from here on.
    #[tactic(auto, unfolding(p9_grammar::specs::Kinds::file_argument))]
    fn argument<'a>(&mut self, out: bool, words: &'a [Word]) -> Result<(u32, &'a [Word]), LineFault>
        ensures { Gives (λ x. (x.0, files_of self.new, x.1.now)) result (file_argument out (files_of self.old) words.now) }
    {
        let (word, words) = first_word(words)?;
        let place = known_place(&self.names, word)?;
        let Some(decl) = self.decls.as_slice().get(place) else {
            return Err(LineFault::Text(Why::NotDeclared));
        };
        check_direction(out, decl.out)?;
        if self.used.contains(&place) {
            return Err(LineFault::Text(Why::UsedTwice));
        }
        self.used.push(place)?;
        let number = number_of_place(place)?;
        Ok((number, words))
    }

    /// A stage with its argument, and the words left. Its file is used from here on.
    #[tactic(auto, unfolding(p9_grammar::specs::Kinds::kind_of))]
    pub fn kind<'a>(
        &mut self,
        word: &Word,
        words: &'a [Word],
    ) -> Result<(Kind, &'a [Word]), LineFault>
        ensures { Gives (λ x. (x.0, files_of self.new, x.1.now)) result (kind_of word.now (files_of self.old) words.now) }
    {
        if is_word_at(word, b"read") {
            let (file, words) = self.argument(false, words)?;
            return Ok((Kind::Read(file), words));
        }
        if is_word_at(word, b"write") {
            let (file, words) = self.argument(true, words)?;
            return Ok((Kind::Write(file), words));
        }
        if let Some(found) = argument_kind(word, words)? {
            return Ok(found);
        }
        match bare_kind(word) {
            None => Err(LineFault::Text(Why::UnknownStage)),
            Some(kind) => Ok((kind, words)),
        }
    }
}
