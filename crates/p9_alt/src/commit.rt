ghost use Rattle.std.specs.Prelude.{◌≡◌, ◌≤◌, None, true, length};
ghost use Rattle.std.specs.List.{find};
ghost use Rattle.p9_word.specs.declared.alt.AltOp.TheVariants.{Snd, Rcv};
ghost use Rattle.p9_word.specs.declared.alt.Slot.TheVariants.{Give};
ghost use Rattle.p9_manual.specs.Commit.{refilled, sender_woken};
ghost use Rattle.p9_manual.specs.Told.{failed_answer};
ghost use Rattle.p9_manual.specs.AltEntries.{sends_on, receives_on};
ghost use Rattle.p9_manual.specs.ReadyEntries.{can_go_on, is_ready};
ghost use Rattle.p9_chan.specs.Channels.{IsMade, chan_of, elements_in, elsize_in, has_room_in, is_closed_in, is_live_in};
ghost use Rattle.p9_chan.specs.Channels.{refilled as refilled_on};
ghost use Rattle.p9_alt.specs.Exchange.{wake_with, zeros_of, zeros_for};
ghost use Rattle.p9_alt.specs.Kept.{IsQueue};
ghost use Rattle.p9_alt.specs.Passing.{AreUnmet, meets, without, deal_of, receiver_wake, receiver_woken, handed_answer, taken_answer, sender_gives, IsLess, passed_wake, passed_rest, IsDealt, IsLeft};

use crate::answers::{failed_answer, got_answer, receiver_answer, sender_answer, sent_answer};
use crate::entries::{kept, value_of, value_out};
use crate::lists::Lists;
use crate::offer::Wake;
use crate::queue::first_out;
use crate::side::Side;
use crate::zeros::Zeros;
use p9_chan::{Chans, Element};
use p9_manual::Party;
use p9_word::limits::MOST_ENTRIES;
use p9_word::{AltEntry, AltOp, Answer, Msg, Slot};

/// The caller's part in what goes on: the position of its call, the form of its answers, and the number of its entry. Nobody
/// who waits before `from` is met.
#[derive(Clone, Copy)]
pub(crate) struct Turn {
    pub at: u64,
    pub single: bool,
    pub i: u32,
    pub from: usize,
}

/// What came of an alt: the caller's answer, and who is woken.
#[derive(Drop)]
pub(crate) struct Done {
    pub answer: Answer,
    pub woken: Option<Wake>,
}

/// The caller's entry fails.
fn failed(turn: Turn) -> Done
    ensures answer { result.answer ≡ failed_answer turn.single turn.i }
    ensures woken { result.woken ≡ None }
{
    Done {
        answer: failed_answer(turn.single, turn.i),
        woken: None,
    }
}

/// Wakes a thread that waited to receive on channel c, with a value.
#[inline(always)]
fn wake_receiver(w: Party, lists: &mut Lists, c: u32, from: u64, value: Msg) -> Wake
    requires { length w.entries ≤ MOST_ENTRIES }
    ensures { result ≡ receiver_wake c from value w }
{
    let wake = Wake {
        tid: w.tid,
        answer: receiver_answer(&w, c, from, value),
    };
    lists.keep(w.entries);
    wake
}

/// Hands the caller's value over to the thread that waits longest to receive on channel c.
fn hand_over(waits: &mut Vec<Party>, lists: &mut Lists, turn: Turn, c: u32, value: Msg) -> Done
    requires before { AreUnmet (receives_on c) turn.from waits.old.items }
    requires queue { IsQueue waits.old.items }
    ensures answer { result.answer ≡ handed_answer turn (find (receives_on c) waits.old.items) }
    ensures woken { result.woken ≡ receiver_woken c turn.at value (find (receives_on c) waits.old.items) }
    ensures waits { waits.new.items ≡ without (find (receives_on c) waits.old.items) waits.old.items }
    ensures less { IsLess waits.old waits.new }
{
    match first_out(waits, Side::Receives, c, turn.from) {
        Some(w) => Done {
            answer: sent_answer(turn.single, turn.i),
            woken: Some(wake_receiver(w, lists, c, turn.at, value)),
        },
        None => failed(turn),
    }
}

/// Gives the front element of channel c to the thread that waits longest to receive there, if one does.
fn pass_on(
    chans: &mut Chans,
    waits: &mut Vec<Party>,
    lists: &mut Lists,
    c: u32,
    from: usize,
) -> Option<Wake>
    requires before { AreUnmet (receives_on c) from waits.old.items }
    requires made { IsMade c chans.old }
    requires filled { 1 ≤ length (elements_in (chan_of c chans.old)) }
    requires queue { IsQueue waits.old.items }
    ensures woken { result ≡ passed_wake c (find (receives_on c) waits.old.items) (elements_in (chan_of c chans.old)) }
    ensures chans { chans.new ≡ refilled_on c
        (passed_rest (find (receives_on c) waits.old.items) (elements_in (chan_of c chans.old))) chans.old }
    ensures waits { waits.new.items ≡ without (find (receives_on c) waits.old.items) waits.old.items }
    ensures less { IsLess waits.old waits.new }
{
    let w = first_out(waits, Side::Receives, c, from)?;
    match chans.take(c) {
        Some(x) => Some(wake_receiver(w, lists, c, x.from, x.msg)),
        None => unreachable!(),
    }
}

/// A send of the caller on channel c goes on.
fn send(
    chans: &mut Chans,
    waits: &mut Vec<Party>,
    lists: &mut Lists,
    turn: Turn,
    c: u32,
    value: Msg,
) -> Done
    requires made { IsMade c chans.old }
    requires ready { can_go_on Snd c (chan_of c chans.old) waits.old.items ≡ true }
    requires before { AreUnmet (receives_on c) turn.from waits.old.items }
    requires queue { IsQueue waits.old.items }
    ensures dealt { IsDealt (deal_of turn Snd (Give value) c chans.old.chans waits.old.items) result }
    ensures left { IsLeft (deal_of turn Snd (Give value) c chans.old.chans waits.old.items)
        waits.old.items chans.new.chans waits.new.items }
    ensures room { chans.new.room ≡ chans.old.room }
    ensures less { IsLess waits.old waits.new }
{
    if chans.closing(c).is_some() {
        return failed(turn);
    }
    if chans.cap(c) == 0 {
        return hand_over(waits, lists, turn, c, value);
    }
    let element = Element {
        from: turn.at,
        msg: value,
    };
    chans.put(c, element);
    let woken = pass_on(chans, waits, lists, c, turn.from);
    Done {
        answer: sent_answer(turn.single, turn.i),
        woken,
    }
}

/// Wakes the thread that waits longest to send on channel c, if one does, and takes its value.
#[inline(always)]
fn sender_out(
    waits: &mut Vec<Party>,
    zeros: &mut Zeros,
    lists: &mut Lists,
    c: u32,
    from: usize,
    elsize: u32,
) -> Option<(Wake, Element)>
    requires before { AreUnmet (sends_on c) from waits.old.items }
    requires zeros { zeros_of c elsize (find (sends_on c) waits.old.items) ≤ zeros.old }
    requires queue { IsQueue waits.old.items }
    ensures gives { result ≡ sender_gives c elsize (find (sends_on c) waits.old.items) }
    ensures waits { waits.new.items ≡ without (find (sends_on c) waits.old.items) waits.old.items }
    ensures less { IsLess waits.old waits.new }
{
    let mut w = first_out(waits, Side::Sends, c, from)?;
    let wake = Wake {
        tid: w.tid,
        answer: sender_answer(&w, c),
    };
    let at = w.at;
    let msg = value_out(&mut w, c, elsize, zeros);
    lists.keep(w.entries);
    Some((wake, Element { from: at, msg }))
}

/// Puts the value of the thread that waits longest to send on channel c, if one does.
fn refill(
    chans: &mut Chans,
    waits: &mut Vec<Party>,
    zeros: &mut Zeros,
    lists: &mut Lists,
    c: u32,
    from: usize,
) -> Option<Wake>
    requires before { AreUnmet (sends_on c) from waits.old.items }
    requires made { IsMade c chans.old }
    requires room { has_room_in (chan_of c chans.old) ≡ true }
    requires open { is_closed_in (chan_of c chans.old) ≡ true → find (sends_on c) waits.old.items ≡ None }
    requires zeros { zeros_of c (elsize_in (chan_of c chans.old)) (find (sends_on c) waits.old.items) ≤ zeros.old }
    requires queue { IsQueue waits.old.items }
    ensures woken { result ≡ wake_with (sender_woken c (find (sends_on c) waits.old.items)) }
    ensures chans { chans.new ≡ refilled_on c
        (refilled c (elsize_in (chan_of c chans.old)) (elements_in (chan_of c chans.old)) (find (sends_on c) waits.old.items)) chans.old }
    ensures waits { waits.new.items ≡ without (find (sends_on c) waits.old.items) waits.old.items }
    ensures less { IsLess waits.old waits.new }
{
    let (wake, element) = sender_out(waits, zeros, lists, c, from, chans.elsize(c))?;
    chans.put(c, element);
    Some(wake)
}

/// Takes over the value of the thread that waits longest to send on channel c.
fn take_over(
    waits: &mut Vec<Party>,
    zeros: &mut Zeros,
    lists: &mut Lists,
    turn: Turn,
    c: u32,
    elsize: u32,
    slot: Slot,
) -> Done
    requires before { AreUnmet (sends_on c) turn.from waits.old.items }
    requires zeros { zeros_of c elsize (find (sends_on c) waits.old.items) ≤ zeros.old }
    requires queue { IsQueue waits.old.items }
    ensures answer { result.answer ≡ taken_answer turn c elsize slot (find (sends_on c) waits.old.items) }
    ensures woken { result.woken ≡ wake_with (sender_woken c (find (sends_on c) waits.old.items)) }
    ensures waits { waits.new.items ≡ without (find (sends_on c) waits.old.items) waits.old.items }
    ensures less { IsLess waits.old waits.new }
{
    match sender_out(waits, zeros, lists, c, turn.from, elsize) {
        Some((wake, x)) => Done {
            answer: got_answer(turn.single, turn.i, x.from, kept(&slot, x.msg)),
            woken: Some(wake),
        },
        None => failed(turn),
    }
}

/// A receive of the caller on channel c goes on.
fn receive(
    chans: &mut Chans,
    waits: &mut Vec<Party>,
    zeros: &mut Zeros,
    lists: &mut Lists,
    turn: Turn,
    c: u32,
    slot: Slot,
) -> Done
    requires before { AreUnmet (sends_on c) turn.from waits.old.items }
    requires made { IsMade c chans.old }
    requires open { is_closed_in (chan_of c chans.old) ≡ true → find (sends_on c) waits.old.items ≡ None }
    requires zeros { zeros_of c (elsize_in (chan_of c chans.old)) (find (sends_on c) waits.old.items) ≤ zeros.old }
    requires queue { IsQueue waits.old.items }
    ensures dealt { IsDealt (deal_of turn Rcv slot c chans.old.chans waits.old.items) result }
    ensures left { IsLeft (deal_of turn Rcv slot c chans.old.chans waits.old.items) waits.old.items chans.new.chans waits.new.items }
    ensures room { chans.new.room ≡ chans.old.room }
    ensures less { IsLess waits.old waits.new }
{
    match chans.take(c) {
        Some(x) => {
            let woken = refill(chans, waits, zeros, lists, c, turn.from);
            Done {
                answer: got_answer(turn.single, turn.i, x.from, kept(&slot, x.msg)),
                woken,
            }
        }
        None => {
            if chans.closing(c).is_some() {
                failed(turn)
            } else {
                take_over(waits, zeros, lists, turn, c, chans.elsize(c), slot)
            }
        }
    }
}

/// An entry of the caller, which is ready, goes on.
pub(crate) fn commit(
    chans: &mut Chans,
    waits: &mut Vec<Party>,
    zeros: &mut Zeros,
    lists: &mut Lists,
    turn: Turn,
    entry: AltEntry,
) -> Done
    requires made { IsMade entry.chan chans.old }
    requires live { is_live_in (chan_of entry.chan chans.old) ≡ true }
    requires ready { is_ready chans.old.chans waits.old.items entry ≡ true }
    requires before { AreUnmet (meets entry.op entry.chan) turn.from waits.old.items }
    requires open { is_closed_in (chan_of entry.chan chans.old) ≡ true → find (sends_on entry.chan) waits.old.items ≡ None }
    requires zeros { zeros_for chans.old.chans waits.old.items entry ≤ zeros.old }
    requires queue { IsQueue waits.old.items }
    ensures dealt { IsDealt (deal_of turn entry.op entry.slot entry.chan chans.old.chans waits.old.items) result }
    ensures left { IsLeft (deal_of turn entry.op entry.slot entry.chan chans.old.chans waits.old.items)
        waits.old.items chans.new.chans waits.new.items }
    ensures room { chans.new.room ≡ chans.old.room }
    ensures less { IsLess waits.old waits.new }
{
    let c = entry.chan;
    match entry.op {
        AltOp::Snd => {
            let value = value_of(entry.slot, chans.elsize(c), zeros);
            send(chans, waits, lists, turn, c, value)
        }
        AltOp::Rcv => receive(chans, waits, zeros, lists, turn, c, entry.slot),
        AltOp::Nop => failed(turn),
    }
}
