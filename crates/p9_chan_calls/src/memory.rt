ghost use Rattle.std.specs.Prelude.{◌≡◌, ℕ, count_by, OnOk, IfOk};
ghost use Rattle.std.specs.Int.{w64, to_le_bytes};
ghost use Rattle.p9_manual.specs.AltEntries.{waits_on};
ghost use Rattle.p9_manual.specs.Offers.{given, taken};
ghost use Rattle.p9_alt.specs.Exchange.{zeros_in};
ghost use Rattle.p9_chan_calls.specs.Spares.{IsSpare, IsRoomFor, MaySend, MayReceive};

use crate::channels::is_no_size;
use p9_alt::{Alts, Wake};
use p9_word::{AltEntry, AltOp, ChanReq, Msg, NoMemory, Room, Slot};
use std::alloc::Global;

/// The memory that one request needs beside that of the alts.
#[derive(Drop)]
pub enum Spare {
    /// None.
    Nothing,
    /// The bytes of the number that is sent.
    Number(Msg),
    /// Room for the threads that wait on the channel that is closed.
    Wakes(Box<Room<Wake>>),
}

/// A slot that needs as many zeros as that of this value.
fn shape_of(value: &Option<Msg>) -> Slot
    ensures { (elsize : ℕ) → zeros_in elsize result ≡ zeros_in elsize (given value.now) }
{
    match value {
        Some(_) => Slot::Give(Msg::new()),
        None => Slot::Null,
    }
}

/// The slot of a receive.
pub(crate) fn taken(keep: bool) -> Slot
    ensures { result ≡ taken keep }
{
    if keep { Slot::Keep } else { Slot::Null }
}

/// Takes the memory of a send by such a slot.
fn for_send(alts: &mut Alts, chan: u32, slot: Slot) -> Result<(), NoMemory>
    ensures chans { alts.new.channels.chans ≡ alts.old.channels.chans }
    ensures waits { alts.new.waits ≡ alts.old.waits }
    ensures memory { OnOk result (MaySend chan slot alts.new) }
{
    alts.reserve_one(&AltEntry {
        chan,
        op: AltOp::Snd,
        err: false,
        slot,
    })
}

/// Takes the memory of a receive by such a slot.
fn for_receive(alts: &mut Alts, chan: u32, slot: Slot) -> Result<(), NoMemory>
    ensures chans { alts.new.channels.chans ≡ alts.old.channels.chans }
    ensures waits { alts.new.waits ≡ alts.old.waits }
    ensures memory { OnOk result (MayReceive chan slot alts.new) }
{
    alts.reserve_one(&AltEntry {
        chan,
        op: AltOp::Rcv,
        err: false,
        slot,
    })
}

/// The bytes of a number to send, little end first.
fn number_of(alloc: Global, n: u64) -> Result<Spare, NoMemory>
    ensures { IfOk result (λ spare. spare ≡ Spare.Number (to_le_bytes w64 n)) }
{
    let bytes = n.to_le_bytes();
    Ok(Spare::Number(Msg::from_slice(alloc, &bytes)?))
}

/// Room for the threads that wait on a channel.
fn for_close(alts: &Alts, c: u32, alloc: Global) -> Result<Spare, NoMemory>
    ensures { IfOk result (IsRoomFor (count_by (waits_on c) alts.now.waits)) }
{
    let mut wakes = Room::new(alloc);
    wakes.reserve(alts.awaiting(c))?;
    Ok(Spare::Wakes(Box::new(alloc, wakes)?))
}

/// Takes the memory of a request on channels. A refusal changes nothing.
pub fn reserve(alts: &mut Alts, request: &ChanReq, alloc: Global) -> Result<Spare, NoMemory>
    ensures chans { alts.new.channels.chans ≡ alts.old.channels.chans }
    ensures waits { alts.new.waits ≡ alts.old.waits }
    ensures memory { IfOk result (λ spare. IsSpare request.now spare alts.new) }
{
    match request {
        ChanReq::ChanCreate { cap, elsize } => {
            if !is_no_size(*cap, *elsize) {
                alts.chans_mut().reserve(*cap)?;
            }
        }
        ChanReq::ChanFree { .. } | ChanReq::ChanClosing { .. } => {}
        ChanReq::ChanClose { chan } => return for_close(alts, *chan, alloc),
        ChanReq::Alt { entries, .. } => alts.reserve(entries)?,
        ChanReq::Send { chan, value } | ChanReq::NbSend { chan, value } => {
            for_send(alts, *chan, shape_of(value))?
        }
        ChanReq::Recv { keep, chan } | ChanReq::NbRecv { keep, chan } => {
            for_receive(alts, *chan, taken(*keep))?
        }
        ChanReq::RecvUl { chan } | ChanReq::NbRecvUl { chan } => {
            for_receive(alts, *chan, Slot::Keep)?
        }
        ChanReq::ChanPrint { chan, .. } => for_send(alts, *chan, Slot::Give(Msg::new()))?,
        ChanReq::SendUl { chan, n } | ChanReq::NbSendUl { chan, n } => {
            for_send(alts, *chan, Slot::Give(Msg::new()))?;
            return number_of(alloc, *n);
        }
    }
    Ok(Spare::Nothing)
}
