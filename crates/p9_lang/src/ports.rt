//! The channels of a stage: the list after `from`, and the list after `to`.

ghost use Rattle.std.specs.Prelude.{[]};
ghost use Rattle.p9_grammar.specs.Ports.{reads, writes, used, inputs, outputs, counted, from_words, from_part, to_words, to_part, ports};
ghost use Rattle.p9_lang.specs.Gives.{Gives};

use crate::fault::LineFault;
use crate::names::Names;
use crate::sorts::{is_word_at, known_place, number_of_place};
use p9_grammar::{ChanEnds, Why};
use p9_word::{Room, Seq, Word};
use std::alloc::Global;

/// Uses the end of a channel that a stage receives on.
fn read_end(ends: ChanEnds) -> Result<ChanEnds, LineFault>
    ensures { Gives (λ x. x) result (reads ends) }
{
    if ends.read {
        return Err(LineFault::Text(Why::TwoReaders));
    }
    Ok(ChanEnds {
        line: ends.line,
        written: ends.written,
        read: true,
    })
}

/// Uses the end of a channel that a stage sends on.
fn written_end(ends: ChanEnds) -> Result<ChanEnds, LineFault>
    ensures { Gives (λ x. x) result (writes ends) }
{
    if ends.written {
        return Err(LineFault::Text(Why::TwoWriters));
    }
    if ends.read {
        return Err(LineFault::Text(Why::ReaderFirst));
    }
    Ok(ChanEnds {
        line: ends.line,
        written: true,
        read: ends.read,
    })
}

/// A channel that a stage receives on: its number.
#[tactic(auto, unfolding(p9_grammar::specs::Ports::used))]
fn use_input(names: &Names, ends: &mut Vec<ChanEnds>, word: &Word) -> Result<u32, LineFault>
    ensures { Gives (λ x. (x, ends.new.items)) result (used reads names.now ends.old.items word.now) }
{
    let place = known_place(names, word)?;
    match ends.get(place) {
        None => Err(LineFault::Text(Why::NotDeclared)),
        Some(&old) => {
            ends[place] = read_end(old)?;
            number_of_place(place)
        }
    }
}

/// A channel that a stage sends on: its number.
#[tactic(auto, unfolding(p9_grammar::specs::Ports::used))]
fn use_output(names: &Names, ends: &mut Vec<ChanEnds>, word: &Word) -> Result<u32, LineFault>
    ensures { Gives (λ x. (x, ends.new.items)) result (used writes names.now ends.old.items word.now) }
{
    let place = known_place(names, word)?;
    match ends.get(place) {
        None => Err(LineFault::Text(Why::NotDeclared)),
        Some(&old) => {
            ends[place] = written_end(old)?;
            number_of_place(place)
        }
    }
}

/// The channels up to the next word `to` or the line's end, and the words left.
fn input_list<'a>(
    alloc: Global,
    names: &Names,
    ends: &mut Vec<ChanEnds>,
    words: &'a [Word],
) -> Result<(Room<u32>, &'a [Word]), LineFault>
    ensures { Gives (λ x. (x.0.items, ends.new.items, x.1.now)) result (inputs names.now ends.old.items [] words.now) }
{
    let mut numbers = Room::new(alloc);
    let mut rest = words;
    while let [word, after @ ..] = rest {
        if is_word_at(word, b"to") {
            return Ok((numbers, rest));
        }
        let number = use_input(names, ends, word)?;
        numbers.reserve(1)?;
        numbers.push(number);
        rest = after;
    }
    Ok((numbers, rest))
}

/// The channels up to the line's end.
fn output_list(
    alloc: Global,
    names: &Names,
    ends: &mut Vec<ChanEnds>,
    words: &[Word],
) -> Result<Room<u32>, LineFault>
    ensures { Gives (λ x. (x.items, ends.new.items)) result (outputs names.now ends.old.items [] words.now) }
{
    let mut numbers = Room::new(alloc);
    for word in words {
        let number = use_output(names, ends, word)?;
        numbers.reserve(1)?;
        numbers.push(number);
    }
    Ok(numbers)
}

/// A part of a stage has so many channels, and is left out where it has none.
fn check_count(why: Why, written: bool, count: usize, found: usize) -> Result<(), LineFault>
    ensures { Gives (λ _. tt) result (counted why written count found) }
{
    if found != count {
        return Err(LineFault::Text(why));
    }
    if written && count == 0 {
        return Err(LineFault::Text(why));
    }
    Ok(())
}

/// The part after `from`: whether it is there, its channels, and the words left.
fn from_list<'a>(
    alloc: Global,
    names: &Names,
    ends: &mut Vec<ChanEnds>,
    words: &'a [Word],
) -> Result<(bool, Room<u32>, &'a [Word]), LineFault>
    ensures { Gives (λ x. (x.0, x.1.items, ends.new.items, x.2.now)) result (from_words names.now ends.old.items words.now) }
{
    let [word, rest @ ..] = words else {
        return Ok((false, Room::new(alloc), words));
    };
    if is_word_at(word, b"from") {
        let (numbers, rest) = input_list(alloc, names, ends, rest)?;
        return Ok((true, numbers, rest));
    }
    if is_word_at(word, b"to") {
        return Ok((false, Room::new(alloc), words));
    }
    Err(LineFault::Text(Why::WordCount))
}

/// So many inputs, and the words left.
#[tactic(auto, unfolding(p9_grammar::specs::Ports::from_part))]
fn inputs_of<'a>(
    alloc: Global,
    count: usize,
    names: &Names,
    ends: &mut Vec<ChanEnds>,
    words: &'a [Word],
) -> Result<(Seq<u32>, &'a [Word]), LineFault>
    ensures { Gives (λ x. (x.0, ends.new.items, x.1.now)) result (from_part count names.now ends.old.items words.now) }
{
    let (written, numbers, rest) = from_list(alloc, names, ends, words)?;
    check_count(Why::Inputs, written, count, numbers.as_slice().len())?;
    Ok((numbers.into_seq(), rest))
}

/// The part after `to`: whether it is there, and its channels.
fn to_list(
    alloc: Global,
    names: &Names,
    ends: &mut Vec<ChanEnds>,
    words: &[Word],
) -> Result<(bool, Room<u32>), LineFault>
    ensures { Gives (λ x. (x.0, x.1.items, ends.new.items)) result (to_words names.now ends.old.items words.now) }
{
    let [word, rest @ ..] = words else {
        return Ok((false, Room::new(alloc)));
    };
    if is_word_at(word, b"to") {
        let numbers = output_list(alloc, names, ends, rest)?;
        return Ok((true, numbers));
    }
    Err(LineFault::Text(Why::WordCount))
}

/// So many outputs.
#[tactic(auto, unfolding(p9_grammar::specs::Ports::to_part))]
fn outputs_of(
    alloc: Global,
    count: usize,
    names: &Names,
    ends: &mut Vec<ChanEnds>,
    words: &[Word],
) -> Result<Seq<u32>, LineFault>
    ensures { Gives (λ x. (x, ends.new.items)) result (to_part count names.now ends.old.items words.now) }
{
    let (written, numbers) = to_list(alloc, names, ends, words)?;
    check_count(Why::Outputs, written, count, numbers.as_slice().len())?;
    Ok(numbers.into_seq())
}

/// So many inputs and so many outputs, by their numbers.
#[tactic(auto, unfolding(p9_grammar::specs::Ports::ports))]
pub(crate) fn ports_of(
    alloc: Global,
    ins: usize,
    outs: usize,
    names: &Names,
    ends: &mut Vec<ChanEnds>,
    words: &[Word],
) -> Result<(Seq<u32>, Seq<u32>), LineFault>
    ensures { Gives (λ x. (x.0, x.1, ends.new.items)) result (ports ins outs names.now ends.old.items words.now) }
{
    let (from, rest) = inputs_of(alloc, ins, names, ends, words)?;
    let to = outputs_of(alloc, outs, names, ends, rest)?;
    Ok((from, to))
}
