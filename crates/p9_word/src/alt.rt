use crate::{Datum, Msg, NoMemory};
use std::alloc::Global;

/// What an entry of an alt is for. thread(2).
#[derive(Drop)]
pub enum AltOp {
    /// It sends.
    Snd,
    /// It receives.
    Rcv,
    /// Nothing: it never goes on.
    Nop,
}

/// What an entry of an alt sends, or does with what it receives.
#[derive(Drop)]
pub enum Slot {
    /// Sends as many zero bytes as an element has, or discards what is received.
    Null,
    /// Sends this value.
    Give(Msg),
    /// Keeps what is received.
    Keep,
}

/// An entry of an alt.
#[derive(Drop)]
pub struct AltEntry {
    /// The channel, by its id.
    pub chan: u32,
    /// What the entry is for.
    pub op: AltOp,
    /// Whether the entry is out of use.
    pub err: bool,
    /// What it sends, or does with what it receives.
    pub slot: Slot,
}

/// How a list of entries ends.
#[derive(Drop)]
pub enum Ending {
    /// The alt waits until an entry can go on.
    End,
    /// The alt doesn't block.
    NoBlk,
}

impl Datum for AltOp {
    fn copied(&self, _alloc: Global) -> Result<AltOp, NoMemory> {
        match self {
            AltOp::Snd => Ok(AltOp::Snd),
            AltOp::Rcv => Ok(AltOp::Rcv),
            AltOp::Nop => Ok(AltOp::Nop),
        }
    }

    fn is_same(&self, other: &AltOp) -> bool {
        match (self, other) {
            (AltOp::Snd, AltOp::Snd) => true,
            (AltOp::Rcv, AltOp::Rcv) => true,
            (AltOp::Nop, AltOp::Nop) => true,
            _ => false,
        }
    }
}

impl Datum for Slot {
    fn copied(&self, alloc: Global) -> Result<Slot, NoMemory> {
        match self {
            Slot::Null => Ok(Slot::Null),
            Slot::Give(value) => Ok(Slot::Give(value.copied(alloc)?)),
            Slot::Keep => Ok(Slot::Keep),
        }
    }

    fn is_same(&self, other: &Slot) -> bool {
        match (self, other) {
            (Slot::Null, Slot::Null) => true,
            (Slot::Give(a), Slot::Give(b)) => a.is_same(b),
            (Slot::Keep, Slot::Keep) => true,
            _ => false,
        }
    }
}

impl Datum for AltEntry {
    fn copied(&self, alloc: Global) -> Result<AltEntry, NoMemory> {
        Ok(AltEntry {
            chan: self.chan,
            op: self.op.copied(alloc)?,
            err: self.err,
            slot: self.slot.copied(alloc)?,
        })
    }

    fn is_same(&self, other: &AltEntry) -> bool {
        self.chan == other.chan
            && self.op.is_same(&other.op)
            && self.err == other.err
            && self.slot.is_same(&other.slot)
    }
}

impl Datum for Ending {
    fn copied(&self, _alloc: Global) -> Result<Ending, NoMemory> {
        match self {
            Ending::End => Ok(Ending::End),
            Ending::NoBlk => Ok(Ending::NoBlk),
        }
    }

    fn is_same(&self, other: &Ending) -> bool {
        match (self, other) {
            (Ending::End, Ending::End) => true,
            (Ending::NoBlk, Ending::NoBlk) => true,
            _ => false,
        }
    }
}
