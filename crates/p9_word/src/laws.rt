//! Laws of words and numbers: what is written is read again. No code that runs: each law is the contract of a function
//! that does nothing.

ghost use Rattle.std.specs.Prelude.{◌≡◌, ◌↔◌, ◌<◌, ◌^◌, ℕ, List, None, Some};
ghost use Rattle.std.specs.Fmt.{decimal};
ghost use Rattle.std.specs.List.{AllByRecursion};
ghost use Rattle.p9_word.specs.Numbers.{number_of};
ghost use Rattle.p9_word.specs.Words.{CanStand, IsUnspelled, joined};
ghost use Rattle.p9_word.specs.Scan.{words_of};
ghost use Rattle.p9_word.specs.declared.words.Word.{Word};

/// The digits of a number are read as that number.
pub fn numbers_again()
    ensures { (n : ℕ) → n < 2 ^ 64 → number_of (decimal n) ≡ Some n }
{}

/// Words with one space between two are read as these words, whichever bytes the quoted ones have.
pub fn joined_words_again()
    ensures { (words : List Word) → AllByRecursion CanStand words → words_of (joined words) ≡ Some words }
{}

/// Just the lines that no words spell have a bad quote.
pub fn bad_quotes_spell_nothing()
    ensures { (line : List ℕ) → (words_of line ≡ None) ↔ IsUnspelled line }
{}
