ghost use Rattle.std.specs.Prelude.{◌≡◌, ◌<◌, ◌≤◌, ◌||◌, Some, true, not, length, slice_get};
ghost use Rattle.std.specs.List.{list_any, list_all};
ghost use Rattle.p9_manual.specs.Alt.{is_closed_list};
ghost use Rattle.p9_manual.specs.Told.{kept_bytes, sent_bytes, sender_bytes};
ghost use Rattle.p9_manual.specs.AltEntries.{is_nop, sends_to, sends_on, first_slot};
ghost use Rattle.p9_manual.specs.ReadyEntries.{fits, fits_entry, goes_with, is_too_long};
ghost use Rattle.p9_alt.specs.Exchange.{zeros_in};

use crate::side::Side;
use crate::zeros::Zeros;
use p9_chan::Chans;
use p9_manual::Party;
use p9_word::limits::MOST_ENTRIES;
use p9_word::{AltEntry, AltOp, Msg, Seq, Slot};
use std::mem;

/// Whether it is a no-op.
fn is_nop(op: &AltOp) -> bool
    ensures { result ≡ is_nop op.now }
{
    match op {
        AltOp::Nop => true,
        _ => false,
    }
}

/// Whether an entry isn't a no-op.
fn has_op(entries: &[AltEntry]) -> bool
    ensures { result ≡ list_any (λ e. not (is_nop e.op)) entries.now }
{
    entries.iter().any(|e| !is_nop(&e.op))
}

/// Whether each entry that isn't a no-op has err set.
fn is_out_of_use(entries: &[AltEntry]) -> bool
    ensures { result ≡ list_all (λ e. is_nop e.op || e.err) entries.now }
{
    entries.iter().all(|e| is_nop(&e.op) || e.err)
}

/// Whether an entry isn't a no-op, and all that aren't have err set.
pub(crate) fn is_closed_list(entries: &[AltEntry]) -> bool
    ensures { result ≡ is_closed_list entries.now }
{
    has_op(entries) && is_out_of_use(entries)
}

/// Whether a slot goes with an op.
fn goes_with(op: &AltOp, slot: &Slot) -> bool
    ensures { result ≡ goes_with op.now slot.now }
{
    match (op, slot) {
        (AltOp::Snd, Slot::Keep) => false,
        (AltOp::Rcv, Slot::Give(_)) => false,
        (AltOp::Nop, Slot::Give(_)) => false,
        (AltOp::Nop, Slot::Keep) => false,
        _ => true,
    }
}

/// Whether a slot gives more bytes than an element may have.
fn is_too_long(elsize: u32, slot: &Slot) -> bool
    ensures { result ≡ is_too_long elsize slot.now }
{
    match slot {
        Slot::Give(value) => (elsize as usize) < value.as_slice().len(),
        _ => false,
    }
}

/// Whether an entry may be asked for.
fn fits_entry(chans: &Chans, e: &AltEntry) -> bool
    ensures { result ≡ fits_entry chans.now.chans e.now }
{
    if !goes_with(&e.op, &e.slot) {
        return false;
    }
    if is_nop(&e.op) || e.err {
        return true;
    }
    chans.is_live(e.chan) && !is_too_long(chans.elsize(e.chan), &e.slot)
}

/// Whether each of them may be.
fn each_fits(chans: &Chans, entries: &[AltEntry]) -> bool
    ensures { result ≡ list_all (fits_entry chans.now.chans) entries.now }
{
    entries.iter().all(|e| fits_entry(chans, e))
}

/// Whether these entries may be asked for.
pub(crate) fn fits(chans: &Chans, entries: &[AltEntry]) -> bool
    ensures { result ≡ fits chans.now.chans entries.now }
{
    entries.len() <= MOST_ENTRIES && each_fits(chans, entries)
}

/// Takes an entry out.
pub(crate) fn entry_out(entries: &mut Seq<AltEntry>, i: usize) -> AltEntry
    requires { i < length entries.old }
    ensures { slice_get entries.old i ≡ Some result }
{
    let none = AltEntry {
        chan: 0,
        op: AltOp::Nop,
        err: true,
        slot: Slot::Null,
    };
    match entries.get_mut(i) {
        Some(entry) => mem::replace(entry, none),
        None => none,
    }
}

/// How many zeros a slot needs, where an element has this many bytes.
pub(crate) fn zeros_in(elsize: u32, slot: &Slot) -> u32
    ensures { result ≡ zeros_in elsize slot.now }
{
    match slot {
        Slot::Null => elsize,
        _ => 0,
    }
}

/// What is sent by a slot.
#[inline(always)]
pub(crate) fn value_of(slot: Slot, elsize: u32, zeros: &mut Zeros) -> Msg
    requires { zeros_in elsize slot ≤ zeros.old }
    ensures { result ≡ sent_bytes elsize slot }
{
    match slot {
        Slot::Give(value) => value,
        Slot::Null => zeros.take(elsize),
        Slot::Keep => Msg::new(),
    }
}

/// What a thread that waited sends on channel c, by its first entry that does.
pub(crate) fn value_out(w: &mut Party, c: u32, elsize: u32, zeros: &mut Zeros) -> Msg
    requires sends { sends_on c w.old ≡ true }
    requires zeros { zeros_in elsize (first_slot (sends_to c) w.old.entries) ≤ zeros.old }
    ensures { result ≡ sender_bytes c elsize w.old }
{
    let i = Side::Sends.first_number(c, w.entries.as_slice());
    let entry = entry_out(&mut w.entries, i);
    value_of(entry.slot, elsize, zeros)
}

/// What a receive keeps of a value.
pub(crate) fn kept(slot: &Slot, value: Msg) -> Msg
    ensures { result ≡ kept_bytes slot.now value }
{
    match slot {
        Slot::Keep => value,
        _ => Msg::new(),
    }
}
