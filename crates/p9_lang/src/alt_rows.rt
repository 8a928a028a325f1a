//! The instruction alt: entries one after another, up to `end` or `noblk`.

ghost use Rattle.std.specs.Prelude.{◌≡◌, [], length};
ghost use Rattle.p9_grammar.specs.AltLines.{alt_row, entries_in};
ghost use Rattle.p9_grammar.specs.AltRows.{ending_of, enough_entries, entry_here, entry_of, err_part, nop_entry, rcv_entry, received_slot, sent_slot, snd_entry};
ghost use Rattle.p9_lang.specs.Gives.{Gives};
ghost use Rattle.p9_lang.specs.Views.{draft_of};

use crate::draft::Draft;
use crate::fault::LineFault;
use crate::names::Names;
use crate::operands::{named, text};
use crate::sorts::{first_word, is_word_at, no_more};
use p9_grammar::{CodeEntry, CodeSlot, Instr, Why};
use p9_word::limits::MOST_ENTRIES;
use p9_word::{AltOp, Ending, Room, Seq, Word};
use std::alloc::Global;

/// What an entry that sends sends: a bare `-` is zeros.
#[tactic(auto, unfolding(p9_grammar::specs::AltRows::sent_slot))]
fn sent_slot(word: &Word) -> Result<CodeSlot, LineFault>
    ensures { Gives (λ x. x) result (sent_slot word.now) }
{
    if is_word_at(word, b"-") {
        return Ok(CodeSlot::Null);
    }
    Ok(CodeSlot::Give(text(word)?))
}

/// What an entry does with what it receives, which it keeps but for a bare `-`, and the words left.
fn received_slot(words: &[Word]) -> (CodeSlot, &[Word])
    ensures { (result.0, result.1.now) ≡ received_slot words.now }
{
    let [word, rest @ ..] = words else {
        return (CodeSlot::Keep, words);
    };
    if is_word_at(word, b"-") {
        return (CodeSlot::Null, rest);
    }
    (CodeSlot::Keep, words)
}

/// Whether an entry's err is set, and the words left.
fn err_part(words: &[Word]) -> (bool, &[Word])
    ensures { (result.0, result.1.now) ≡ err_part words.now }
{
    let [word, rest @ ..] = words else {
        return (false, words);
    };
    if is_word_at(word, b"err") {
        return (true, rest);
    }
    (false, words)
}

/// `snd C TEXT`, `snd C -`, behind `snd`, and the words left.
#[tactic(auto, unfolding(p9_grammar::specs::AltRows::snd_entry))]
fn snd_entry<'a>(chans: &Names, words: &'a [Word]) -> Result<(CodeEntry, &'a [Word]), LineFault>
    ensures { Gives (λ x. (x.0, x.1.now)) result (snd_entry chans.now words.now) }
{
    let (word, words) = first_word(words)?;
    let chan = named(chans, word)?;
    let (value, words) = first_word(words)?;
    let slot = sent_slot(value)?;
    let (err, words) = err_part(words);
    let op = AltOp::Snd;
    Ok((
        CodeEntry {
            op,
            chan,
            err,
            slot,
        },
        words,
    ))
}

/// `rcv C`, `rcv C -`, behind `rcv`, and the words left.
#[tactic(auto, unfolding(p9_grammar::specs::AltRows::rcv_entry))]
fn rcv_entry<'a>(chans: &Names, words: &'a [Word]) -> Result<(CodeEntry, &'a [Word]), LineFault>
    ensures { Gives (λ x. (x.0, x.1.now)) result (rcv_entry chans.now words.now) }
{
    let (word, words) = first_word(words)?;
    let chan = named(chans, word)?;
    let (slot, words) = received_slot(words);
    let (err, words) = err_part(words);
    let op = AltOp::Rcv;
    Ok((
        CodeEntry {
            op,
            chan,
            err,
            slot,
        },
        words,
    ))
}

/// `nop C`, behind `nop`, and the words left.
#[tactic(auto, unfolding(p9_grammar::specs::AltRows::nop_entry))]
fn nop_entry<'a>(chans: &Names, words: &'a [Word]) -> Result<(CodeEntry, &'a [Word]), LineFault>
    ensures { Gives (λ x. (x.0, x.1.now)) result (nop_entry chans.now words.now) }
{
    let (word, words) = first_word(words)?;
    let chan = named(chans, word)?;
    let (err, words) = err_part(words);
    let op = AltOp::Nop;
    let slot = CodeSlot::Null;
    Ok((
        CodeEntry {
            op,
            chan,
            err,
            slot,
        },
        words,
    ))
}

/// The list's end by its word, if it is one.
fn ending_of(word: &Word) -> Option<Ending>
    ensures { result ≡ ending_of word.now }
{
    if is_word_at(word, b"end") {
        return Some(Ending::End);
    }
    if is_word_at(word, b"noblk") {
        return Some(Ending::NoBlk);
    }
    None
}

/// One entry more is one that an alt may have.
fn has_entries(done: &[CodeEntry]) -> Result<(), LineFault>
    ensures { Gives (λ _. tt) result (enough_entries done.now) }
{
    if done.len() >= MOST_ENTRIES {
        return Err(LineFault::Text(Why::TooMany));
    }
    Ok(())
}

/// An entry behind those that are done, by its first word, and the words left.
fn entry<'a>(
    done: &[CodeEntry],
    chans: &Names,
    word: &Word,
    words: &'a [Word],
) -> Result<(CodeEntry, &'a [Word]), LineFault>
    ensures { Gives (λ x. (x.0, x.1.now)) result (entry_here done.now (entry_of chans.now word.now words.now)) }
{
    if is_word_at(word, b"snd") {
        has_entries(done)?;
        return snd_entry(chans, words);
    }
    if is_word_at(word, b"rcv") {
        has_entries(done)?;
        return rcv_entry(chans, words);
    }
    if is_word_at(word, b"nop") {
        has_entries(done)?;
        return nop_entry(chans, words);
    }
    Err(LineFault::Text(Why::UnknownInstruction))
}

/// The entries up to `end` or `noblk`, and how the list ends.
#[tactic(auto, using(crate::proofs::Entries::entries_step))]
fn entries(
    alloc: Global,
    chans: &Names,
    words: &[Word],
) -> Result<(Seq<CodeEntry>, Ending), LineFault>
    ensures { Gives (λ x. (x.0, x.1)) result (entries_in (length words.now) chans.now [] words.now) }
{
    let mut done = Room::new(alloc);
    let mut rest = words;
    for _ in 0..words.len() {
        let (word, after) = first_word(rest)?;
        if let Some(ending) = ending_of(word) {
            no_more(after)?;
            return Ok((done.into_seq(), ending));
        }
        let (found, after) = entry(done.as_slice(), chans, word, after)?;
        done.reserve(1)?;
        done.push(found);
        rest = after;
    }
    Err(LineFault::Text(Why::WordCount))
}

impl Draft {
    /// `alt`, and its entries.
    pub fn alt_row(
        &self,
        alloc: Global,
        word: &Word,
        words: &[Word],
    ) -> Result<Option<Instr>, LineFault>
        ensures { Gives (λ x. x) result (alt_row (draft_of self.now) word.now words.now) }
    {
        if is_word_at(word, b"alt") {
            let (entries, ending) = entries(alloc, &self.chans.names, words)?;
            return Ok(Some(Instr::Alt { entries, ending }));
        }
        Ok(None)
    }
}
