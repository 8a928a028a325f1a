//! Instructions on channels but alt.

ghost use Rattle.p9_grammar.specs.ChanRows.{chan_row, given, keeps, receive_row, received, send_row, sent};
ghost use Rattle.p9_grammar.specs.Operands.{one, small, two};
ghost use Rattle.p9_lang.specs.Gives.{Gives};
ghost use Rattle.p9_lang.specs.Views.{draft_of};

use crate::draft::Draft;
use crate::fault::LineFault;
use crate::operands::{named, named_text, named_wide, one_named, one_small, small, text};
use crate::sorts::{first_word, is_word_at, no_more};
use p9_grammar::{Given, Instr, Num, Why};
use p9_word::Word;

/// What a send sends: a bare `-` is zeros.
#[tactic(auto, unfolding(p9_grammar::specs::ChanRows::given))]
fn given(word: &Word) -> Result<Given, LineFault>
    ensures { Gives (λ x. x) result (given word.now) }
{
    if is_word_at(word, b"-") {
        return Ok(Given::Zeros);
    }
    Ok(Given::Value(text(word)?))
}

/// What a send sends, and no word more.
#[tactic(auto, unfolding(p9_grammar::specs::Operands::one))]
fn one_given(words: &[Word]) -> Result<Given, LineFault>
    ensures { Gives (λ x. x) result (one given words.now) }
{
    let (word, words) = first_word(words)?;
    let value = given(word)?;
    no_more(words)?;
    Ok(value)
}

/// Whether a receive keeps the value: it does, but for a bare `-`.
#[tactic(auto, unfolding(p9_grammar::specs::ChanRows::keeps))]
fn keeps(words: &[Word]) -> Result<bool, LineFault>
    ensures { Gives (λ x. x) result (keeps words.now) }
{
    let [word, rest @ ..] = words else {
        return Ok(true);
    };
    if is_word_at(word, b"-") {
        no_more(rest)?;
        return Ok(false);
    }
    Err(LineFault::Text(Why::UnknownInstruction))
}

/// Two numbers that a u32 holds, and no word more.
#[tactic(auto, unfolding(p9_grammar::specs::Operands::two))]
fn small_small(words: &[Word]) -> Result<(Num, Num), LineFault>
    ensures { Gives (λ x. (x.0, x.1)) result (two small small words.now) }
{
    let (word, words) = first_word(words)?;
    let x = small(word)?;
    let y = one_small(words)?;
    Ok((x, y))
}

impl Draft {
    /// A channel and what is sent on it.
    #[tactic(auto, unfolding(p9_grammar::specs::Operands::two))]
    fn sent(&self, words: &[Word]) -> Result<(Num, Given), LineFault>
        ensures { Gives (λ x. (x.0, x.1)) result (sent (draft_of self.now) words.now) }
    {
        let (word, words) = first_word(words)?;
        let chan = named(&self.chans.names, word)?;
        let value = one_given(words)?;
        Ok((chan, value))
    }

    /// A channel, and whether what is received on it is kept.
    #[tactic(auto, unfolding(p9_grammar::specs::ChanRows::received))]
    fn received(&self, words: &[Word]) -> Result<(Num, bool), LineFault>
        ensures { Gives (λ x. (x.0, x.1)) result (received (draft_of self.now) words.now) }
    {
        let (word, words) = first_word(words)?;
        let chan = named(&self.chans.names, word)?;
        let keep = keeps(words)?;
        Ok((chan, keep))
    }

    /// `chancreate N N`, `chanfree C`, `chanclose C`, `chanclosing C`.
    pub fn chan_row(&self, word: &Word, words: &[Word]) -> Result<Option<Instr>, LineFault>
        ensures { Gives (λ x. x) result (chan_row (draft_of self.now) word.now words.now) }
    {
        if is_word_at(word, b"chancreate") {
            let (cap, elsize) = small_small(words)?;
            return Ok(Some(Instr::ChanCreate { cap, elsize }));
        }
        if is_word_at(word, b"chanfree") {
            let chan = one_named(&self.chans.names, words)?;
            return Ok(Some(Instr::ChanFree { chan }));
        }
        if is_word_at(word, b"chanclose") {
            let chan = one_named(&self.chans.names, words)?;
            return Ok(Some(Instr::ChanClose { chan }));
        }
        if is_word_at(word, b"chanclosing") {
            let chan = one_named(&self.chans.names, words)?;
            return Ok(Some(Instr::ChanClosing { chan }));
        }
        Ok(None)
    }

    /// `send C TEXT`, `nbsend C TEXT`, where a bare `-` is zeros, `sendul C N`, `nbsendul C N`, `chanprint C TEXT`.
    pub fn send_row(&self, word: &Word, words: &[Word]) -> Result<Option<Instr>, LineFault>
        ensures { Gives (λ x. x) result (send_row (draft_of self.now) word.now words.now) }
    {
        if is_word_at(word, b"send") {
            let (chan, value) = self.sent(words)?;
            return Ok(Some(Instr::Send { chan, value }));
        }
        if is_word_at(word, b"nbsend") {
            let (chan, value) = self.sent(words)?;
            return Ok(Some(Instr::NbSend { chan, value }));
        }
        if is_word_at(word, b"sendul") {
            let (chan, n) = named_wide(&self.chans.names, words)?;
            return Ok(Some(Instr::SendUl { chan, n }));
        }
        if is_word_at(word, b"nbsendul") {
            let (chan, n) = named_wide(&self.chans.names, words)?;
            return Ok(Some(Instr::NbSendUl { chan, n }));
        }
        if is_word_at(word, b"chanprint") {
            let (chan, text) = named_text(&self.chans.names, words)?;
            return Ok(Some(Instr::ChanPrint { chan, text }));
        }
        Ok(None)
    }

    /// `recv C`, `nbrecv C`, which keep what they receive but for a bare `-` behind, `recvul C`, `nbrecvul C`.
    pub fn receive_row(&self, word: &Word, words: &[Word]) -> Result<Option<Instr>, LineFault>
        ensures { Gives (λ x. x) result (receive_row (draft_of self.now) word.now words.now) }
    {
        if is_word_at(word, b"recv") {
            let (chan, keep) = self.received(words)?;
            return Ok(Some(Instr::Recv { chan, keep }));
        }
        if is_word_at(word, b"nbrecv") {
            let (chan, keep) = self.received(words)?;
            return Ok(Some(Instr::NbRecv { chan, keep }));
        }
        if is_word_at(word, b"recvul") {
            let chan = one_named(&self.chans.names, words)?;
            return Ok(Some(Instr::RecvUl { chan }));
        }
        if is_word_at(word, b"nbrecvul") {
            let chan = one_named(&self.chans.names, words)?;
            return Ok(Some(Instr::NbRecvUl { chan }));
        }
        Ok(None)
    }
}
