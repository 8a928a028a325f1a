ghost use Rattle.std.specs.Prelude.{◌≡◌, ◌≤◌, ◌++◌, length, map, count_by, All};
ghost use Rattle.p9_manual.specs.Told.{sent_answer, got_answer, failed_answer, receiver_answer, sender_answer, kept_bytes};
ghost use Rattle.p9_manual.specs.Close.{all_failed, failed_on};
ghost use Rattle.p9_manual.specs.AltEntries.{first_slot, waits_on};
ghost use Rattle.p9_alt.specs.Exchange.{pair_of};
ghost use Rattle.p9_alt.specs.Sides.{entry_test};

use crate::entries::kept;
use crate::offer::Wake;
use crate::side::Side;
use p9_manual::Party;
use p9_word::limits::MOST_ENTRIES;
use p9_word::{AltEntry, Answer, Msg, Room};

/// A value was sent by entry i.
pub(crate) fn sent_answer(single: bool, i: u32) -> Answer
    ensures { result ≡ sent_answer single i }
{
    if single {
        return Answer::Sent;
    }
    Answer::Index {
        err: false,
        i,
        from: None,
        msg: Msg::new(),
    }
}

/// Entry i received a value, which the call at this position sent.
pub(crate) fn got_answer(single: bool, i: u32, from: u64, msg: Msg) -> Answer
    ensures { result ≡ got_answer single i from msg }
{
    if single {
        return Answer::Got { from, msg };
    }
    Answer::Index {
        err: false,
        i,
        from: Some(from),
        msg,
    }
}

/// The channel of entry i is closed.
pub(crate) fn failed_answer(single: bool, i: u32) -> Answer
    ensures { result ≡ failed_answer single i }
{
    if single {
        return Answer::Closed;
    }
    Answer::Index {
        err: true,
        i,
        from: None,
        msg: Msg::new(),
    }
}

/// What the first entry keeps of a value that does this on channel c.
fn kept_at(side: Side, c: u32, entries: &[AltEntry], value: Msg) -> Msg
    ensures { result ≡ kept_bytes (first_slot (entry_test side c) entries.now) value }
{
    match entries.get(side.first_number(c, entries)) {
        Some(e) => kept(&e.slot, value),
        None => Msg::new(),
    }
}

/// The answer of a thread that waited to receive, and is sent this value on channel c.
pub(crate) fn receiver_answer(w: &Party, c: u32, from: u64, value: Msg) -> Answer
    requires { length w.now.entries ≤ MOST_ENTRIES }
    ensures { result ≡ receiver_answer c from value w.now }
{
    let entries = w.entries.as_slice();
    let i = Side::Receives.first_number(c, entries);
    let msg = kept_at(Side::Receives, c, entries, value);
    got_answer(w.single, i as u32, from, msg)
}

/// The answer of a thread that waited to send, and whose value is taken on channel c.
pub(crate) fn sender_answer(w: &Party, c: u32) -> Answer
    requires { length w.now.entries ≤ MOST_ENTRIES }
    ensures { result ≡ sender_answer c w.now }
{
    let i = Side::Sends.first_number(c, w.entries.as_slice());
    sent_answer(w.single, i as u32)
}

/// A thread that waited on channel c, which is closed now.
fn failed_wake(w: &Party, c: u32) -> Wake
    requires { length w.now.entries ≤ MOST_ENTRIES }
    ensures { pair_of result ≡ failed_on c w.now }
{
    let i = Side::Either.first_number(c, w.entries.as_slice());
    Wake {
        tid: w.tid,
        answer: failed_answer(w.single, i as u32),
    }
}

/// Puts each thread that waits on channel c last into `woken`, with the answer that the channel is closed.
pub(crate) fn fail_all(waits: &[Party], c: u32, woken: &mut Room<Wake>)
    requires few { All (λ w. length w.entries ≤ MOST_ENTRIES) waits.now }
    requires spare { count_by (waits_on c) waits.now ≤ woken.old.spare }
    ensures { map pair_of woken.new.items ≡ map pair_of woken.old.items ++ all_failed c waits.now }
{
    for w in waits {
        if Side::Either.is_in(c, w) {
            woken.push(failed_wake(w, c));
        }
    }
}
