//! The sorts of words that a statement is made of.

ghost use Rattle.std.specs.List.{list_all};
ghost use Rattle.std.specs.Prelude.{◌≡◌, ◌+◌, Ok};
ghost use Rattle.p9_grammar.specs.Sorts.{first, is_name_byte, is_word, known, name_of, new_name, number_in, the_end};
ghost use Rattle.p9_lang.specs.Gives.{Gives};

use crate::fault::LineFault;
use crate::names::Names;
use p9_grammar::Why;
use p9_word::limits::MOST_NAME_BYTES;
use p9_word::{Word, read_number};
use std::alloc::Global;

/// The next word, and the words after it.
pub(crate) fn first_word(words: &[Word]) -> Result<(&Word, &[Word]), LineFault>
    ensures { Gives (λ x. (x.0.now, x.1.now)) result (first words.now) }
{
    match words {
        [] => Err(LineFault::Text(Why::WordCount)),
        [word, rest @ ..] => Ok((word, rest)),
    }
}

/// No word is left over.
pub(crate) fn no_more(words: &[Word]) -> Result<(), LineFault>
    ensures { Gives (λ _. tt) result (the_end words.now) }
{
    match words {
        [] => Ok(()),
        [_, ..] => Err(LineFault::Text(Why::WordCount)),
    }
}

/// Whether the word is this one, not quoted.
pub(crate) fn is_word_at(word: &Word, text: &[u8]) -> bool
    ensures { result ≡ is_word text.now word.now }
{
    !word.quoted && word.bytes.as_slice() == text
}

fn is_name_at(b: u8) -> bool
    ensures { result ≡ is_name_byte b }
{
    (b >= b'A' && b <= b'Z')
        || (b >= b'a' && b <= b'z')
        || (b >= b'0' && b <= b'9')
        || b == b'_'
        || b == b'.'
}

fn are_name_bytes(bytes: &[u8]) -> bool
    ensures { result ≡ list_all is_name_byte bytes.now }
{
    for b in bytes {
        if !is_name_at(*b) {
            return false;
        }
    }
    true
}

/// A name.
#[tactic(auto, unfolding(p9_grammar::specs::Sorts::name_of))]
pub(crate) fn name_at(word: &Word) -> Result<&[u8], LineFault>
    ensures { Gives (λ x. x.now) result (name_of word.now) }
{
    if word.quoted {
        return Err(LineFault::Text(Why::NotAName));
    }
    let bytes = word.bytes.as_slice();
    if bytes.len() >= 1 && bytes.len() <= MOST_NAME_BYTES && are_name_bytes(bytes) {
        Ok(bytes)
    } else {
        Err(LineFault::Text(Why::NotAName))
    }
}

/// Adds a new name, of which there are fewer than `most`.
#[tactic(auto, unfolding(p9_grammar::specs::Sorts::new_name))]
pub(crate) fn add_name(
    alloc: Global,
    most: usize,
    names: &mut Names,
    word: &Word,
) -> Result<(), LineFault>
    ensures { Gives (λ _. names.new) result (new_name most names.old word.now) }
{
    let name = name_at(word)?;
    names.add(alloc, most, name)
}

/// The place of a name that is there.
#[tactic(auto, unfolding(p9_grammar::specs::Sorts::known))]
pub(crate) fn known_place(names: &Names, word: &Word) -> Result<usize, LineFault>
    ensures { Gives (λ x. x) result (known names.now word.now) }
{
    let name = name_at(word)?;
    match names.place(name) {
        None => Err(LineFault::Text(Why::NotDeclared)),
        Some(place) => Ok(place),
    }
}

/// The number of the thing at a place: things of a sort are counted from 1. No text has so many things that one has no
/// number, and if one had it would be told as want of memory.
pub(crate) fn number_of_place(place: usize) -> Result<u32, LineFault>
    ensures { Gives (λ n. n) result (Ok (place + 1)) }
{
    let Some(number) = place.checked_add(1) else {
        return Err(LineFault::Memory);
    };
    match u32::try_from(number) {
        Err(_) => Err(LineFault::Memory),
        Ok(number) => Ok(number),
    }
}

/// A number from `low` to `high`.
#[tactic(auto, unfolding(p9_grammar::specs::Sorts::number_in))]
pub(crate) fn number_within(low: u64, high: u64, word: &Word) -> Result<u64, LineFault>
    ensures { Gives (λ x. x) result (number_in low high word.now) }
{
    if word.quoted {
        return Err(LineFault::Text(Why::NotANumber));
    }
    match read_number(word.bytes.as_slice()) {
        None => Err(LineFault::Text(Why::NotANumber)),
        Some(n) => {
            if n < low || n > high {
                return Err(LineFault::Text(Why::OutOfRange));
            }
            Ok(n)
        }
    }
}

/// The same, where `high` has 32 bits.
#[tactic(auto, unfolding(p9_grammar::specs::Sorts::number_in))]
pub(crate) fn small_within(low: u32, high: u32, word: &Word) -> Result<u32, LineFault>
    ensures { Gives (λ x. x) result (number_in low high word.now) }
{
    let number = number_within(u64::from(low), u64::from(high), word)?;
    Ok(number as u32)
}
