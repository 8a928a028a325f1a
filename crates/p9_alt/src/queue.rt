ghost use Rattle.std.specs.Prelude.{◌≡◌, ◌≤◌, length, slice_get, count_by, is_some, IfSome, IfNone, position, ◌==◌};
ghost use Rattle.std.specs.List.{list_any, find};
ghost use Rattle.p9_alt.specs.Exchange.{others};
ghost use Rattle.p9_alt.specs.Kept.{IsQueue};
ghost use Rattle.p9_alt.specs.Passing.{without, AreUnmet, IsLess};
ghost use Rattle.p9_alt.specs.Sides.{party_test};

use crate::side::Side;
use p9_manual::Party;
use p9_word::Tid;
use p9_word::limits::MOST_ENTRIES;

/// Whether a thread that waits does this on channel c.
pub(crate) fn is_awaited(waits: &[Party], side: Side, c: u32) -> bool
    ensures { result ≡ list_any (party_test side c) waits.now }
{
    waits.iter().any(|w| side.is_in(c, w))
}

/// Whether a thread that waits does this on channel c, other than this one.
pub(crate) fn is_awaited_by_other(waits: &[Party], tid: Tid, side: Side, c: u32) -> bool
    ensures { result ≡ list_any (party_test side c) (others tid waits.now) }
{
    waits
        .iter()
        .filter(|w| w.tid != tid)
        .any(|w| side.is_in(c, w))
}

/// How many threads that wait do this on channel c.
pub(crate) fn awaiting(waits: &[Party], side: Side, c: u32) -> usize
    ensures { result ≡ count_by (party_test side c) waits.now }
{
    waits.iter().filter(|w| side.is_in(c, w)).count()
}

/// Where the first of them stands among all that wait, counted from 0: behind them where there is none. It isn't before
/// `from`.
fn first_index(waits: &[Party], side: Side, c: u32, from: usize) -> usize
    requires { AreUnmet (party_test side c) from waits.now }
    ensures first { slice_get waits.now result ≡ find (party_test side c) waits.now }
    ensures before { AreUnmet (party_test side c) result waits.now }
{
    for i in from..waits.len() {
        if side.is_in(c, &waits[i]) {
            return i;
        }
    }
    waits.len()
}

/// Where the thread stands that waits longest of those that do this on channel c, counted from 0.
pub(crate) fn first_place(waits: &[Party], side: Side, c: u32) -> Option<usize>
    ensures found { is_some result ≡ list_any (party_test side c) waits.now }
    ensures before { IfSome result (λ i. AreUnmet (party_test side c) i waits.now) }
{
    let i = first_index(waits, side, c, 0);
    if i < waits.len() { Some(i) } else { None }
}

/// The thread that waits longest of those that do this on channel c. It waits no more. It doesn't stand before `from`.
pub(crate) fn first_out(waits: &mut Vec<Party>, side: Side, c: u32, from: usize) -> Option<Party>
    requires before { AreUnmet (party_test side c) from waits.old.items }
    requires queue { IsQueue waits.old.items }
    ensures first { result ≡ find (party_test side c) waits.old.items }
    ensures few { IfSome result (λ w. length w.entries ≤ MOST_ENTRIES) }
    ensures waits { waits.new.items ≡ without result waits.old.items }
    ensures less { IsLess waits.old waits.new }
{
    let i = first_index(waits, side, c, from);
    if i < waits.len() {
        Some(waits.remove(i))
    } else {
        None
    }
}

/// Where this thread stands among all that wait, counted from 0.
fn place_of(waits: &[Party], tid: Tid) -> Option<usize>
    ensures { result ≡ position (λ w. w.tid == tid) waits.now }
{
    waits.iter().position(|w| w.tid == tid)
}

/// The alt in which this thread waits. It waits no more.
pub(crate) fn thread_out(waits: &mut Vec<Party>, tid: Tid) -> Option<Party>
    requires queue { IsQueue waits.old.items }
    ensures alt { result ≡ find (λ w. w.tid == tid) waits.old.items }
    ensures waits { waits.new.items ≡ others tid waits.old.items }
    ensures none { IfNone result (waits.new.items ≡ waits.old.items) }
    ensures less { IsLess waits.old waits.new }
{
    match place_of(waits, tid) {
        Some(i) => Some(waits.remove(i)),
        None => None,
    }
}
