ghost use Rattle.std.specs.Prelude.{◌≡◌, ◌≤◌, length};
ghost use Rattle.std.specs.List.{list_any};
ghost use Rattle.p9_manual.specs.AltEntries.{first_number};
ghost use Rattle.p9_alt.specs.Sides.{op_test, entry_test, party_test};

use p9_manual::Party;
use p9_word::{AltEntry, AltOp};

/// What an entry of an alt does on a channel.
#[derive(Clone, Copy)]
pub(crate) enum Side {
    /// It sends there.
    Sends,
    /// It receives there.
    Receives,
    /// One of both.
    Either,
}

impl Side {
    fn has_op(self, op: &AltOp) -> bool
        ensures { result ≡ op_test self op.now }
    {
        match (self, op) {
            (Side::Sends, AltOp::Snd) => true,
            (Side::Receives, AltOp::Rcv) => true,
            (Side::Either, AltOp::Snd) => true,
            (Side::Either, AltOp::Rcv) => true,
            _ => false,
        }
    }

    /// Whether an entry does this on channel c.
    pub fn passes(self, c: u32, e: &AltEntry) -> bool
        ensures { result ≡ entry_test self c e.now }
    {
        e.chan == c && (!e.err && self.has_op(&e.op))
    }

    /// The number of the first entry that does, counted from 0, and of no entry where none does.
    pub fn first_number(self, c: u32, entries: &[AltEntry]) -> usize
        ensures number { result ≡ first_number (entry_test self c) entries.now }
        ensures within { result ≤ length entries.now }
    {
        for i in 0..entries.len() {
            if self.passes(c, &entries[i]) {
                return i;
            }
        }
        entries.len()
    }

    /// Whether one of these entries does.
    #[inline(never)]
    fn is_among(self, c: u32, entries: &[AltEntry]) -> bool
        ensures { result ≡ list_any (entry_test self c) entries.now }
    {
        entries.iter().any(|e| self.passes(c, e))
    }

    /// Whether a thread that waits has such an entry. Mostly it has one entry, which is looked at by itself.
    #[inline(always)]
    pub fn is_in(self, c: u32, w: &Party) -> bool
        ensures { result ≡ party_test self c w.now }
    {
        match w.entries.as_slice() {
            [e] => self.passes(c, e),
            entries => self.is_among(c, entries),
        }
    }
}
