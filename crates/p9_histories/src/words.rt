use crate::fault::Fault;
use p9_word::Msg;
use std::alloc::Global;

/// What is left of a line of a script: words and numbers parted by blanks, and texts between single quotes.
#[derive(Clone, Copy)]
pub(crate) struct Words<'a> {
    rest: &'a str,
}

impl<'a> Words<'a> {
    /// A whole line.
    pub(crate) fn new(line: &'a str) -> Words<'a> {
        Words {
            rest: line.trim_start(),
        }
    }

    /// Whether nothing is left.
    pub(crate) fn is_empty(&self) -> bool {
        self.rest.is_empty()
    }

    /// The next word.
    pub(crate) fn word(&mut self) -> Result<&'a str, Fault> {
        let (word, rest) = match self.rest.split_once(' ') {
            Some(parts) => parts,
            None => (self.rest, ""),
        };
        self.rest = rest.trim_start();
        if word.is_empty() {
            Err(Fault::NotUnderstood)
        } else {
            Ok(word)
        }
    }

    /// Goes past this word, if it is the next one.
    pub(crate) fn takes(&mut self, word: &str) -> bool {
        let mut after = *self;
        let is_next = match after.word() {
            Ok(next) => next == word,
            Err(_) => false,
        };
        if is_next {
            self.rest = after.rest;
        }
        is_next
    }

    /// The next word, a number below 2^64.
    pub(crate) fn number(&mut self) -> Result<u64, Fault> {
        self.word()?
            .parse::<u64>()
            .map_err(|_| Fault::NotUnderstood)
    }

    /// The next word, a number below 2^32.
    pub(crate) fn id(&mut self) -> Result<u32, Fault> {
        self.word()?
            .parse::<u32>()
            .map_err(|_| Fault::NotUnderstood)
    }

    /// The number after this word, if it is the next one.
    pub(crate) fn id_after(&mut self, word: &str, otherwise: u32) -> Result<u32, Fault> {
        if self.takes(word) {
            self.id()
        } else {
            Ok(otherwise)
        }
    }

    /// The bytes between the next two quotes.
    pub(crate) fn text(&mut self, alloc: Global) -> Result<Msg, Fault> {
        let Some(quoted) = self.rest.strip_prefix('\'') else {
            return Err(Fault::NotUnderstood);
        };
        let Some((text, rest)) = quoted.split_once('\'') else {
            return Err(Fault::NotUnderstood);
        };
        self.rest = rest.trim_start();
        Ok(Msg::from_slice(alloc, text.as_bytes())?)
    }

    /// The line has nothing more.
    pub(crate) fn ends(&self) -> Result<(), Fault> {
        if self.is_empty() {
            Ok(())
        } else {
            Err(Fault::NotUnderstood)
        }
    }
}
