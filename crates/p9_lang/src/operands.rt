//! What stands behind the word of an instruction. Each name, number and text may be `$` in its place.

ghost use Rattle.std.specs.Prelude.{◌≡◌};
ghost use Rattle.p9_grammar.specs.Operands.{is_dollar, named, one, small, switch, text, three, two, wide};
ghost use Rattle.p9_lang.specs.Gives.{Gives};

use crate::fault::LineFault;
use crate::names::Names;
use crate::sorts::{
    first_word, is_word_at, known_place, no_more, number_of_place, number_within, small_within,
};
use p9_grammar::{Bytes, Num, Why};
use p9_word::Word;

/// Whether the word is `$`, not quoted.
fn is_dollar(word: &Word) -> bool
    ensures { result ≡ is_dollar word.now }
{
    is_word_at(word, b"$")
}

/// A name that is one of these, or `$`. Things are counted from 1.
#[tactic(auto, unfolding(p9_grammar::specs::Operands::named))]
pub(crate) fn named(names: &Names, word: &Word) -> Result<Num, LineFault>
    ensures { Gives (λ x. x) result (named names.now word.now) }
{
    if is_dollar(word) {
        return Ok(Num::Dollar);
    }
    let place = known_place(names, word)?;
    let number = number_of_place(place)?;
    Ok(Num::Fixed(u64::from(number)))
}

/// A number that a u32 holds, or `$`.
#[tactic(auto, unfolding(p9_grammar::specs::Operands::small))]
pub(crate) fn small(word: &Word) -> Result<Num, LineFault>
    ensures { Gives (λ x. x) result (small word.now) }
{
    if is_dollar(word) {
        return Ok(Num::Dollar);
    }
    let n = small_within(0, u32::MAX, word)?;
    Ok(Num::Fixed(u64::from(n)))
}

/// A number, or `$`.
#[tactic(auto, unfolding(p9_grammar::specs::Operands::wide))]
pub(crate) fn wide(word: &Word) -> Result<Num, LineFault>
    ensures { Gives (λ x. x) result (wide word.now) }
{
    if is_dollar(word) {
        return Ok(Num::Dollar);
    }
    let n = number_within(0, u64::MAX, word)?;
    Ok(Num::Fixed(n))
}

/// A text, or `$`.
#[tactic(auto, unfolding(p9_grammar::specs::Operands::text))]
pub(crate) fn text(word: &Word) -> Result<Bytes, LineFault>
    ensures { Gives (λ x. x) result (text word.now) }
{
    if is_dollar(word) {
        return Ok(Bytes::Dollar);
    }
    Ok(Bytes::Fixed(word.bytes.copy()?))
}

/// `on` or `off`: whether it is `on`.
#[tactic(auto, unfolding(p9_grammar::specs::Operands::switch))]
pub(crate) fn switch(word: &Word) -> Result<bool, LineFault>
    ensures { Gives (λ x. x) result (switch word.now) }
{
    if is_word_at(word, b"on") {
        return Ok(true);
    }
    if is_word_at(word, b"off") {
        return Ok(false);
    }
    Err(LineFault::Text(Why::UnknownInstruction))
}

/// A name that is one of these, or `$`, and no word more.
#[tactic(auto, unfolding(p9_grammar::specs::Operands::one))]
pub(crate) fn one_named(names: &Names, words: &[Word]) -> Result<Num, LineFault>
    ensures { Gives (λ x. x) result (one (named names.now) words.now) }
{
    let (word, words) = first_word(words)?;
    let x = named(names, word)?;
    no_more(words)?;
    Ok(x)
}

/// A number that a u32 holds, or `$`, and no word more.
#[tactic(auto, unfolding(p9_grammar::specs::Operands::one))]
pub(crate) fn one_small(words: &[Word]) -> Result<Num, LineFault>
    ensures { Gives (λ x. x) result (one small words.now) }
{
    let (word, words) = first_word(words)?;
    let x = small(word)?;
    no_more(words)?;
    Ok(x)
}

/// A number, or `$`, and no word more.
#[tactic(auto, unfolding(p9_grammar::specs::Operands::one))]
pub(crate) fn one_wide(words: &[Word]) -> Result<Num, LineFault>
    ensures { Gives (λ x. x) result (one wide words.now) }
{
    let (word, words) = first_word(words)?;
    let x = wide(word)?;
    no_more(words)?;
    Ok(x)
}

/// A text, or `$`, and no word more.
#[tactic(auto, unfolding(p9_grammar::specs::Operands::one))]
pub(crate) fn one_text(words: &[Word]) -> Result<Bytes, LineFault>
    ensures { Gives (λ x. x) result (one text words.now) }
{
    let (word, words) = first_word(words)?;
    let x = text(word)?;
    no_more(words)?;
    Ok(x)
}

/// `on` or `off`, and no word more.
#[tactic(auto, unfolding(p9_grammar::specs::Operands::one))]
fn one_switch(words: &[Word]) -> Result<bool, LineFault>
    ensures { Gives (λ x. x) result (one switch words.now) }
{
    let (word, words) = first_word(words)?;
    let x = switch(word)?;
    no_more(words)?;
    Ok(x)
}

/// A name that is one of these and a number that a u32 holds, and no word more.
#[tactic(auto, unfolding(p9_grammar::specs::Operands::two))]
pub(crate) fn named_small(names: &Names, words: &[Word]) -> Result<(Num, Num), LineFault>
    ensures { Gives (λ x. (x.0, x.1)) result (two (named names.now) small words.now) }
{
    let (word, words) = first_word(words)?;
    let x = named(names, word)?;
    let y = one_small(words)?;
    Ok((x, y))
}

/// A name that is one of these and a number, and no word more.
#[tactic(auto, unfolding(p9_grammar::specs::Operands::two))]
pub(crate) fn named_wide(names: &Names, words: &[Word]) -> Result<(Num, Num), LineFault>
    ensures { Gives (λ x. (x.0, x.1)) result (two (named names.now) wide words.now) }
{
    let (word, words) = first_word(words)?;
    let x = named(names, word)?;
    let y = one_wide(words)?;
    Ok((x, y))
}

/// A name that is one of these and a text, and no word more.
#[tactic(auto, unfolding(p9_grammar::specs::Operands::two))]
pub(crate) fn named_text(names: &Names, words: &[Word]) -> Result<(Num, Bytes), LineFault>
    ensures { Gives (λ x. (x.0, x.1)) result (two (named names.now) text words.now) }
{
    let (word, words) = first_word(words)?;
    let x = named(names, word)?;
    let y = one_text(words)?;
    Ok((x, y))
}

/// Two numbers, and no word more.
#[tactic(auto, unfolding(p9_grammar::specs::Operands::two))]
pub(crate) fn wide_wide(words: &[Word]) -> Result<(Num, Num), LineFault>
    ensures { Gives (λ x. (x.0, x.1)) result (two wide wide words.now) }
{
    let (word, words) = first_word(words)?;
    let x = wide(word)?;
    let y = one_wide(words)?;
    Ok((x, y))
}

/// A number that a u32 holds and a text, and no word more.
#[tactic(auto, unfolding(p9_grammar::specs::Operands::two))]
pub(crate) fn small_text(words: &[Word]) -> Result<(Num, Bytes), LineFault>
    ensures { Gives (λ x. (x.0, x.1)) result (two small text words.now) }
{
    let (word, words) = first_word(words)?;
    let x = small(word)?;
    let y = one_text(words)?;
    Ok((x, y))
}

/// A text and `on` or `off`, and no word more.
#[tactic(auto, unfolding(p9_grammar::specs::Operands::two))]
fn text_switch(words: &[Word]) -> Result<(Bytes, bool), LineFault>
    ensures { Gives (λ x. (x.0, x.1)) result (two text switch words.now) }
{
    let (word, words) = first_word(words)?;
    let x = text(word)?;
    let y = one_switch(words)?;
    Ok((x, y))
}

/// A name that is one of these, a number that a u32 holds and a text, and no word more.
#[tactic(auto, unfolding(p9_grammar::specs::Operands::three))]
pub(crate) fn named_small_text(
    names: &Names,
    words: &[Word],
) -> Result<(Num, Num, Bytes), LineFault>
    ensures { Gives (λ x. (x.0, x.1, x.2)) result (three (named names.now) small text words.now) }
{
    let (word, words) = first_word(words)?;
    let x = named(names, word)?;
    let (y, z) = small_text(words)?;
    Ok((x, y, z))
}

/// A number that a u32 holds, a text and `on` or `off`, and no word more.
#[tactic(auto, unfolding(p9_grammar::specs::Operands::three))]
pub(crate) fn small_text_switch(words: &[Word]) -> Result<(Num, Bytes, bool), LineFault>
    ensures { Gives (λ x. (x.0, x.1, x.2)) result (three small text switch words.now) }
{
    let (word, words) = first_word(words)?;
    let x = small(word)?;
    let (y, z) = text_switch(words)?;
    Ok((x, y, z))
}
