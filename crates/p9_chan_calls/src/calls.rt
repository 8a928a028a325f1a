ghost use Rattle.std.specs.Prelude.{◌≡◌, List, ℕ, ◌∷◌, [], Some, true, false};
ghost use Rattle.p9_manual.specs.Chans.{chan_call};
ghost use Rattle.p9_manual.specs.Offers.{alternation, given};
ghost use Rattle.p9_manual.specs.State.{by_id};
ghost use Rattle.p9_alt.specs.Exchange.{Exchange};
ghost use Rattle.p9_sched.specs.Messages.{IsBare};
ghost use Rattle.p9_sched.specs.Turns.{place_of};
ghost use Rattle.p9_chan_calls.specs.For.{Stands};
ghost use Rattle.p9_chan_calls.specs.Serves.{ServesAll, asked};
ghost use Rattle.p9_chan_calls.specs.Spares.{IsSpare, IsAlone, IsAlt, entry_on};

use crate::alternation::{alternate, one};
use crate::channels::{close, closing, create, free};
use crate::memory::{Spare, taken};
use p9_alt::Alts;
use p9_sched::{Place, Sched};
use p9_word::{AltEntry, AltOp, ChanReq, Ending, Msg, Reply, Seq, Slot, Tid};
use rand_pcg::Pcg32;
use std::mem;

/// An alt of one entry.
struct Alone {
    entry: AltEntry,
    ending: Ending,
}

/// A send.
fn sends(chan: u32, slot: Slot, ending: Ending) -> Alone
    ensures { result ≡ record { entry = entry_on chan AltOp.Snd slot; ending = ending } }
{
    Alone {
        entry: AltEntry {
            chan,
            op: AltOp::Snd,
            err: false,
            slot,
        },
        ending,
    }
}

/// A receive.
fn receives(chan: u32, slot: Slot, ending: Ending) -> Alone
    ensures { result ≡ record { entry = entry_on chan AltOp.Rcv slot; ending = ending } }
{
    Alone {
        entry: AltEntry {
            chan,
            op: AltOp::Rcv,
            err: false,
            slot,
        },
        ending,
    }
}

/// The slot of a value to send.
fn given(value: Option<Msg>) -> Slot
    ensures { result ≡ given value }
{
    match value {
        Some(bytes) => Slot::Give(bytes),
        None => Slot::Null,
    }
}

/// The slot of a number to send, whose bytes these are.
fn number(spare: &mut Spare) -> Slot
    ensures { (bytes : List ℕ) → spare.old ≡ Spare.Number bytes → result ≡ Slot.Give bytes }
{
    match spare {
        Spare::Number(bytes) => Slot::Give(mem::replace(bytes, Msg::new())),
        _ => Slot::Null,
    }
}

/// The alt of one entry that a request is.
fn alone_of(request: &mut ChanReq, spare: &mut Spare) -> Alone
    requires alone { IsAlone request.old }
    requires spare { (alts : Exchange) × IsSpare request.old spare.old alts }
    ensures { alternation request.old ≡ Some (asked (result.entry ∷ []) result.ending true) }
{
    match request {
        ChanReq::Send { chan, value } => sends(*chan, given(value.take()), Ending::End),
        ChanReq::NbSend { chan, value } => sends(*chan, given(value.take()), Ending::NoBlk),
        ChanReq::Recv { keep, chan } => receives(*chan, taken(*keep), Ending::End),
        ChanReq::NbRecv { keep, chan } => receives(*chan, taken(*keep), Ending::NoBlk),
        ChanReq::SendUl { chan, .. } => sends(*chan, number(spare), Ending::End),
        ChanReq::NbSendUl { chan, .. } => sends(*chan, number(spare), Ending::NoBlk),
        ChanReq::RecvUl { chan } => receives(*chan, Slot::Keep, Ending::End),
        ChanReq::NbRecvUl { chan } => receives(*chan, Slot::Keep, Ending::NoBlk),
        ChanReq::ChanPrint { chan, text } => {
            let text = mem::replace(text, Msg::new());
            sends(*chan, Slot::Give(text), Ending::End)
        }
        _ => unreachable!(),
    }
}

/// The entries of an alt, and how their list ends. They are taken out of the request.
fn list_of(request: &mut ChanReq) -> (Seq<AltEntry>, Ending)
    requires { IsAlt request.old }
    ensures { alternation request.old ≡ Some (asked result.0 result.1 false) }
{
    match mem::replace(request, ChanReq::ChanFree { chan: 0 }) {
        ChanReq::Alt { ending, entries } => (entries, ending),
        _ => unreachable!(),
    }
}

/// A request of thread t on channels, the call with this number. There is memory for it. Its messages and entries are taken
/// out of it, and the memory out of the spare.
#[tactic(auto, unfolding(p9_manual::specs::Chans::chan_call))]
pub fn call(
    sched: &mut Sched,
    alts: &mut Alts,
    generator: &mut Pcg32,
    at: u64,
    t: Tid,
    request: &mut ChanReq,
    spare: &mut Spare,
) -> Reply
    requires stands { Stands at sched.old alts.old generator.old }
    requires runs { place_of (by_id sched.old.threads t) ≡ Place.Running }
    requires memory { IsSpare request.old spare.old alts.old }
    ensures serves { ServesAll (λ setup. chan_call setup t request.old)
        at sched.old alts.old generator.old result sched.new alts.new generator.new }
    ensures bare { IsBare result }
{
    match request {
        ChanReq::ChanCreate { cap, elsize } => create(alts, *cap, *elsize),
        ChanReq::ChanFree { chan } => free(alts, *chan),
        ChanReq::ChanClose { chan } => close(sched, alts, *chan, spare),
        ChanReq::ChanClosing { chan } => closing(alts, *chan),
        ChanReq::Alt { .. } => {
            let (entries, ending) = list_of(request);
            alternate(sched, alts, generator, at, t, entries, ending, false)
        }
        _ => {
            let Alone { entry, ending } = alone_of(request, spare);
            one(sched, alts, generator, at, t, entry, ending)
        }
    }
}
