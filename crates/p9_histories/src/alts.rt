use crate::fault::Fault;
use crate::words::Words;
use p9_word::{AltEntry, AltOp, ChanReq, Ending, Room, Seq, Slot};
use std::alloc::Global;

/// The most entries that a line may have: more than an alt may.
const MOST: usize = 100;

/// An alt: `end` or `noblk`, and its entries.
pub(crate) fn alt_request(alloc: Global, words: &mut Words) -> Result<ChanReq, Fault> {
    let ending = match words.word()? {
        "end" => Ending::End,
        "noblk" => Ending::NoBlk,
        _ => return Err(Fault::NotUnderstood),
    };
    let entries = entries(alloc, words)?;
    Ok(ChanReq::Alt { ending, entries })
}

fn entries(alloc: Global, words: &mut Words) -> Result<Seq<AltEntry>, Fault> {
    let mut entries = Room::new(alloc);
    for _ in 0..MOST {
        if words.is_empty() {
            break;
        }
        let entry = entry(alloc, words)?;
        entries.reserve(1)?;
        entries.push(entry);
    }
    Ok(entries.into_seq())
}

/// One entry: `err`, if it is out of use, what it is for, its channel, and its slot.
fn entry(alloc: Global, words: &mut Words) -> Result<AltEntry, Fault> {
    let err = words.takes("err");
    let op = match words.word()? {
        "snd" => AltOp::Snd,
        "rcv" => AltOp::Rcv,
        "nop" => AltOp::Nop,
        _ => return Err(Fault::NotUnderstood),
    };
    let chan = words.id()?;
    let slot = slot(alloc, words)?;
    Ok(AltEntry {
        chan,
        op,
        err,
        slot,
    })
}

/// A slot: `null`, `keep`, or a text that is sent.
fn slot(alloc: Global, words: &mut Words) -> Result<Slot, Fault> {
    if words.takes("null") {
        Ok(Slot::Null)
    } else if words.takes("keep") {
        Ok(Slot::Keep)
    } else {
        Ok(Slot::Give(words.text(alloc)?))
    }
}
