ghost use Rattle.std.specs.Prelude.{◌≡◌, ◌==◌, ◌<◌, ◌≤◌, All, List, true, length, slice_index, slice_get, is_some, IfSome};
ghost use Rattle.p9_word.specs.declared.alt.AltOp.TheVariants.{Snd, Rcv};
ghost use Rattle.p9_manual.specs.declared.state.Party.{Party};
ghost use Rattle.p9_manual.specs.AltEntries.{sends_on, receives_on};
ghost use Rattle.p9_manual.specs.ReadyEntries.{can_go_on, is_ready, ready_entries};
ghost use Rattle.p9_manual.specs.Standing.{times};
ghost use Rattle.p9_chan.specs.Channels.{IsMade, chan_of};
ghost use Rattle.p9_alt.specs.Exchange.{others, zeros_for};
ghost use Rattle.p9_alt.specs.Passing.{AreUnmet, meets, IsUsable};

use crate::entries::zeros_in;
use crate::queue::{first_place, is_awaited_by_other};
use crate::side::Side;
use p9_chan::Chans;
use p9_manual::Party;
use p9_word::limits::MOST_ENTRIES;
use p9_word::{AltEntry, AltOp, Tid};

/// Whether a send of a thread on channel c can go on.
fn can_send(chans: &Chans, waits: &[Party], tid: Tid, c: u32) -> bool
    requires { IsMade c chans.now }
    ensures { result ≡ can_go_on Snd c (chan_of c chans.now) (others tid waits.now) }
{
    chans.closing(c).is_some()
        || (!chans.is_full(c)
            || (chans.cap(c) == 0 && is_awaited_by_other(waits, tid, Side::Receives, c)))
}

/// Whether a receive of a thread can.
fn can_receive(chans: &Chans, waits: &[Party], tid: Tid, c: u32) -> bool
    requires { IsMade c chans.now }
    ensures { result ≡ can_go_on Rcv c (chan_of c chans.now) (others tid waits.now) }
{
    !chans.is_empty(c)
        || (chans.closing(c).is_some()
            || (chans.cap(c) == 0 && is_awaited_by_other(waits, tid, Side::Sends, c)))
}

/// From which place on among those that wait a send on channel c looks for one to meet, of a thread that doesn't wait:
/// `None` where it can't go on.
fn send_from(chans: &Chans, waits: &[Party], c: u32) -> Option<usize>
    requires { IsMade c chans.now }
    ensures ready { is_some result ≡ can_go_on Snd c (chan_of c chans.now) waits.now }
    ensures before { IfSome result (λ i. AreUnmet (receives_on c) i waits.now) }
{
    if chans.closing(c).is_some() || !chans.is_full(c) {
        return Some(0);
    }
    if chans.cap(c) > 0 {
        return None;
    }
    first_place(waits, Side::Receives, c)
}

/// The same for a receive.
fn receive_from(chans: &Chans, waits: &[Party], c: u32) -> Option<usize>
    requires { IsMade c chans.now }
    ensures ready { is_some result ≡ can_go_on Rcv c (chan_of c chans.now) waits.now }
    ensures before { IfSome result (λ i. AreUnmet (sends_on c) i waits.now) }
{
    if !chans.is_empty(c) || chans.closing(c).is_some() {
        return Some(0);
    }
    if chans.cap(c) > 0 {
        return None;
    }
    first_place(waits, Side::Sends, c)
}

/// The same for an entry: `None` where it isn't ready.
fn entry_from(chans: &Chans, waits: &[Party], e: &AltEntry) -> Option<usize>
    requires { IsUsable chans.now e.now }
    ensures ready { is_some result ≡ is_ready chans.now.chans waits.now e.now }
    ensures before { IfSome result (λ i. AreUnmet (meets e.now.op e.now.chan) i waits.now) }
{
    if e.err {
        return None;
    }
    match e.op {
        AltOp::Snd => send_from(chans, waits, e.chan),
        AltOp::Rcv => receive_from(chans, waits, e.chan),
        AltOp::Nop => None,
    }
}

/// How many entries of a thread are ready that doesn't wait, and from which place on among those that wait they look for one
/// to meet. For one entry alone those that wait are looked through once.
pub(crate) fn ready_from(
    chans: &Chans,
    waits: &[Party],
    tid: Tid,
    entries: &[AltEntry],
) -> (u32, usize)
    requires few { length entries.now ≤ MOST_ENTRIES }
    requires usable { All (IsUsable chans.now) entries.now }
    requires idle { times (λ w. w.tid == tid) waits.now ≡ 0 }
    ensures count { result.0 ≡ length (ready_entries chans.now.chans waits.now entries.now) }
    ensures before { All (λ e. AreUnmet (meets e.op e.chan) result.1 waits.now) entries.now }
{
    match entries {
        [e] => match entry_from(chans, waits, e) {
            Some(from) => (1, from),
            None => (0, 0),
        },
        _ => (idle_count(chans, waits, tid, entries), 0),
    }
}

/// Whether an entry of a thread is ready.
fn is_ready(chans: &Chans, waits: &[Party], tid: Tid, e: &AltEntry) -> bool
    requires { IsUsable chans.now e.now }
    ensures { result ≡ is_ready chans.now.chans (others tid waits.now) e.now }
{
    if e.err {
        return false;
    }
    match e.op {
        AltOp::Snd => can_send(chans, waits, tid, e.chan),
        AltOp::Rcv => can_receive(chans, waits, tid, e.chan),
        AltOp::Nop => false,
    }
}

/// How many entries of a thread are ready. It is never its own partner.
pub(crate) fn ready_count(chans: &Chans, waits: &[Party], tid: Tid, entries: &[AltEntry]) -> u32
    requires few { length entries.now ≤ MOST_ENTRIES }
    requires usable { All (IsUsable chans.now) entries.now }
    ensures { result ≡ length (ready_entries chans.now.chans (others tid waits.now) entries.now) }
{
    let mut count = 0;
    for e in entries {
        if is_ready(chans, waits, tid, e) {
            count += 1;
        }
    }
    count
}

/// The same for a thread that doesn't wait.
fn idle_count(chans: &Chans, waits: &[Party], tid: Tid, entries: &[AltEntry]) -> u32
    requires few { length entries.now ≤ MOST_ENTRIES }
    requires usable { All (IsUsable chans.now) entries.now }
    requires idle { times (λ w. w.tid == tid) waits.now ≡ 0 }
    ensures { result ≡ length (ready_entries chans.now.chans waits.now entries.now) }
{
    ready_count(chans, waits, tid, entries)
}

/// Whether an entry is ready, of a thread that doesn't wait.
fn is_idle_ready(chans: &Chans, waits: &[Party], tid: Tid, e: &AltEntry) -> bool
    requires usable { IsUsable chans.now e.now }
    requires idle { times (λ w. w.tid == tid) waits.now ≡ 0 }
    ensures { result ≡ is_ready chans.now.chans waits.now e.now }
{
    is_ready(chans, waits, tid, e)
}

/// The number of a ready entry of a thread that doesn't wait, where so many are ready before it. Of one entry alone
/// nothing is looked at.
pub(crate) fn ready_number(
    chans: &Chans,
    waits: &[Party],
    tid: Tid,
    entries: &[AltEntry],
    n: u32,
) -> usize
    requires usable { All (IsUsable chans.now) entries.now }
    requires idle { times (λ w. w.tid == tid) waits.now ≡ 0 }
    requires within { n < length (ready_entries chans.now.chans waits.now entries.now) }
    ensures number { result ≡ slice_index (ready_entries chans.now.chans waits.now entries.now) n }
    ensures within { result < length entries.now }
    ensures ready { IfSome (slice_get entries.now result) (λ e. is_ready chans.now.chans waits.now e ≡ true) }
{
    if entries.len() == 1 {
        return 0;
    }
    ready_at(chans, waits, tid, entries, n)
}

/// The number of a ready entry of a thread that doesn't wait, where so many are ready before it.
fn ready_at(chans: &Chans, waits: &[Party], tid: Tid, entries: &[AltEntry], n: u32) -> usize
    requires usable { All (IsUsable chans.now) entries.now }
    requires idle { times (λ w. w.tid == tid) waits.now ≡ 0 }
    requires within { n < length (ready_entries chans.now.chans waits.now entries.now) }
    ensures number { result ≡ slice_index (ready_entries chans.now.chans waits.now entries.now) n }
    ensures within { result < length entries.now }
    ensures ready { IfSome (slice_get entries.now result) (λ e. is_ready chans.now.chans waits.now e ≡ true) }
{
    let mut left = n;
    for i in 0..entries.len() {
        if is_idle_ready(chans, waits, tid, &entries[i]) {
            if left == 0 {
                return i;
            }
            left -= 1;
        }
    }
    unreachable!()
}

/// The most zeros that an entry may need to go on. Of a receive those who wait aren't looked at: a sender that gives no
/// value needs as many as an element has.
#[tactic(auto, using(crate::proofs::Bounds::sender_most))]
pub(crate) fn zeros_for(chans: &Chans, e: &AltEntry) -> u32
    ensures { (waits : List Party) → zeros_for chans.now.chans waits e.now ≤ result }
{
    if !chans.is_live(e.chan) {
        return 0;
    }
    let elsize = chans.elsize(e.chan);
    match e.op {
        AltOp::Snd => zeros_in(elsize, &e.slot),
        AltOp::Rcv => elsize,
        AltOp::Nop => 0,
    }
}

/// The most that one of these entries may need.
pub(crate) fn most_zeros(chans: &Chans, entries: &[AltEntry]) -> u32
    ensures { (waits : List Party) → All (λ e. zeros_for chans.now.chans waits e ≤ result) entries.now }
{
    let mut most = 0;
    for e in entries {
        let zeros = zeros_for(chans, e);
        if most < zeros {
            most = zeros;
        }
    }
    most
}
