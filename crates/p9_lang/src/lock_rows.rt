//! Instructions on locks, Rendezes and Refs. lock(2), rendezvous(2).

ghost use Rattle.p9_grammar.specs.LockRows.{lock_row, rendez_row, rwlock_row};
ghost use Rattle.p9_lang.specs.Gives.{Gives};
ghost use Rattle.p9_lang.specs.Views.{draft_of};

use crate::draft::Draft;
use crate::fault::LineFault;
use crate::operands::{one_named, wide_wide};
use crate::sorts::is_word_at;
use p9_grammar::Instr;
use p9_word::Word;

impl Draft {
    /// An instruction on Locks and QLocks, by its word; nothing where the word is none of theirs.
    pub fn lock_row(&self, word: &Word, words: &[Word]) -> Result<Option<Instr>, LineFault>
        ensures { Gives (λ x. x) result (lock_row (draft_of self.now) word.now words.now) }
    {
        if is_word_at(word, b"rendezvous") {
            let (tag, value) = wide_wide(words)?;
            return Ok(Some(Instr::Rendezvous { tag, value }));
        }
        if is_word_at(word, b"lock") {
            let k = one_named(&self.locks, words)?;
            return Ok(Some(Instr::Lock { k }));
        }
        if is_word_at(word, b"canlock") {
            let k = one_named(&self.locks, words)?;
            return Ok(Some(Instr::CanLock { k }));
        }
        if is_word_at(word, b"unlock") {
            let k = one_named(&self.locks, words)?;
            return Ok(Some(Instr::Unlock { k }));
        }
        if is_word_at(word, b"qlock") {
            let k = one_named(&self.qlocks, words)?;
            return Ok(Some(Instr::QLock { k }));
        }
        if is_word_at(word, b"canqlock") {
            let k = one_named(&self.qlocks, words)?;
            return Ok(Some(Instr::CanQLock { k }));
        }
        if is_word_at(word, b"qunlock") {
            let k = one_named(&self.qlocks, words)?;
            return Ok(Some(Instr::QUnlock { k }));
        }
        Ok(None)
    }

    /// An instruction on RWLocks, by its word; nothing where the word is none of theirs.
    pub fn rwlock_row(&self, word: &Word, words: &[Word]) -> Result<Option<Instr>, LineFault>
        ensures { Gives (λ x. x) result (rwlock_row (draft_of self.now) word.now words.now) }
    {
        if is_word_at(word, b"rlock") {
            let k = one_named(&self.rwlocks, words)?;
            return Ok(Some(Instr::RLock { k }));
        }
        if is_word_at(word, b"canrlock") {
            let k = one_named(&self.rwlocks, words)?;
            return Ok(Some(Instr::CanRLock { k }));
        }
        if is_word_at(word, b"runlock") {
            let k = one_named(&self.rwlocks, words)?;
            return Ok(Some(Instr::RUnlock { k }));
        }
        if is_word_at(word, b"wlock") {
            let k = one_named(&self.rwlocks, words)?;
            return Ok(Some(Instr::WLock { k }));
        }
        if is_word_at(word, b"canwlock") {
            let k = one_named(&self.rwlocks, words)?;
            return Ok(Some(Instr::CanWLock { k }));
        }
        if is_word_at(word, b"wunlock") {
            let k = one_named(&self.rwlocks, words)?;
            return Ok(Some(Instr::WUnlock { k }));
        }
        Ok(None)
    }

    /// An instruction on Rendezes and Refs, by its word; nothing where the word is none of theirs.
    pub fn rendez_row(&self, word: &Word, words: &[Word]) -> Result<Option<Instr>, LineFault>
        ensures { Gives (λ x. x) result (rendez_row (draft_of self.now) word.now words.now) }
    {
        if is_word_at(word, b"rsleep") {
            let k = one_named(&self.rendezes.names, words)?;
            return Ok(Some(Instr::RSleep { k }));
        }
        if is_word_at(word, b"rwakeup") {
            let k = one_named(&self.rendezes.names, words)?;
            return Ok(Some(Instr::RWakeup { k }));
        }
        if is_word_at(word, b"rwakeupall") {
            let k = one_named(&self.rendezes.names, words)?;
            return Ok(Some(Instr::RWakeupAll { k }));
        }
        if is_word_at(word, b"incref") {
            let k = one_named(&self.refs.names, words)?;
            return Ok(Some(Instr::IncRef { k }));
        }
        if is_word_at(word, b"decref") {
            let k = one_named(&self.refs.names, words)?;
            return Ok(Some(Instr::DecRef { k }));
        }
        Ok(None)
    }
}
