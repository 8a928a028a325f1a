ghost use Rattle.std.specs.Prelude.{◌≡◌, ◌^◌, ◌+◌, ◌-◌, ◌≤◌, ◌<◌, [], Some, IsSome, IfOk, IfNone, IfSome, OnSome, OnOk, OnErr, length, true};
ghost use Rattle.std.specs.Prelude.{slice_get};
ghost use Rattle.std.specs.List.{list_any};
ghost use Rattle.std.specs.Option.{option_copied};
ghost use Rattle.p9_manual.specs.Places.{has_call};
ghost use Rattle.p9_manual.specs.State.{by_id};
ghost use Rattle.p9_manual.specs.Effects.{room_for, message_length};
ghost use Rattle.p9_manual.specs.declared.state.Ioproc.TheVariants.{Idle, Closed, Unmade};
ghost use Rattle.p9_io.specs.Calls.{begun_call, begun_count, finish_of, posted_call, waits_at};
ghost use Rattle.p9_io.specs.Desks.{begin_desks, with_ioproc, posted, prepared, with_begun, interrupted, lent, without};
ghost use Rattle.p9_io.specs.Kept.{ioprocs_of, rooms_of, prepared_of, shown_of};

use crate::desk::Desk;
use crate::effects::Finished;
use crate::ioprocs::{has_call, waits_at};
use p9_manual::{Gone, Ioproc};
use p9_word::{Effect, IoCall, NoMemory, Room, Tid};
use std::alloc::Global;

/// The desks of so many ioprocs, none of which is made.
pub(crate) fn new_desks(alloc: Global, files: u32) -> Result<Vec<Desk>, NoMemory>
    ensures shown { IfOk result (λ v. shown_of v.items ≡ begin_desks files) }
    ensures calls { IfOk result (λ v. begun_count (ioprocs_of v.items) ≡ 0) }
{
    let mut desks = Vec::new(alloc);
    for _i in 0..files {
        desks.push(Desk::new(alloc))?;
    }
    Ok(desks)
}

/// The ioproc with this number, from 1.
pub(crate) fn find(desks: &Vec<Desk>, k: u32) -> Option<&Ioproc>
    ensures { option_copied result ≡ by_id (ioprocs_of desks.now.items) k }
{
    if k == 0 {
        return None;
    }
    match desks.get(k as usize - 1) {
        Some(desk) => Some(&desk.ioproc),
        None => None,
    }
}

/// The index of an ioproc that is there.
fn index_of(desks: &Vec<Desk>, k: u32) -> usize
    requires { IsSome (by_id (ioprocs_of desks.now.items) k) }
    ensures index { result ≡ k - 1 }
    ensures inside { result < length desks.now.items }
{
    prove!(k > 0 && k as usize <= desks.len());
    k as usize - 1
}

/// Makes an ioproc.
pub(crate) fn make(desks: &mut Vec<Desk>, k: u32)
    requires { by_id (ioprocs_of desks.old.items) k ≡ Some Unmade }
    ensures shown { shown_of desks.new.items ≡ with_ioproc k Idle (shown_of desks.old.items) }
    ensures calls { begun_count (ioprocs_of desks.new.items) ≡ begun_count (ioprocs_of desks.old.items) }
{
    let i = index_of(desks, k);
    let desk = &mut desks[i];
    desk.rest(Ioproc::Idle);
}

/// Closes an idle ioproc.
pub(crate) fn close(desks: &mut Vec<Desk>, k: u32)
    requires { by_id (ioprocs_of desks.old.items) k ≡ Some Idle }
    ensures shown { shown_of desks.new.items ≡ with_ioproc k Closed (shown_of desks.old.items) }
    ensures calls { begun_count (ioprocs_of desks.new.items) ≡ begun_count (ioprocs_of desks.old.items) }
{
    let i = index_of(desks, k);
    let desk = &mut desks[i];
    desk.rest(Ioproc::Closed);
}

/// Posts a call at an idle ioproc.
pub(crate) fn post(desks: &mut Vec<Desk>, k: u32, t: Tid, call: IoCall)
    requires idle { by_id (ioprocs_of desks.old.items) k ≡ Some Idle }
    requires short { message_length call ≤ 4294967295 }
    ensures shown { shown_of desks.new.items ≡ posted k t call (shown_of desks.old.items) }
    ensures calls { begun_count (ioprocs_of desks.new.items) ≡ begun_count (ioprocs_of desks.old.items) }
{
    let i = index_of(desks, k);
    let desk = &mut desks[i];
    desk.post(t, call);
}

/// Takes the memory of the call at an ioproc, if there is one.
pub(crate) fn prepare(desks: &mut Vec<Desk>, k: u32) -> Result<(), NoMemory>
    requires { IsSome (by_id (ioprocs_of desks.old.items) k) }
    ensures ok { OnOk result (shown_of desks.new.items ≡ prepared k (shown_of desks.old.items)) }
    ensures there { OnOk result (slice_get (prepared_of desks.new.items) (k - 1) ≡ Some true) }
    ensures err { OnErr result (shown_of desks.new.items ≡ shown_of desks.old.items) }
    ensures ioprocs { ioprocs_of desks.new.items ≡ ioprocs_of desks.old.items }
{
    let i = index_of(desks, k);
    let desk = &mut desks[i];
    desk.prepare()
}

/// Begins the call that is posted at an ioproc.
pub(crate) fn take(desks: &mut Vec<Desk>, k: u32)
    requires { IsSome (posted_call (by_id (ioprocs_of desks.old.items) k)) }
    ensures shown { shown_of desks.new.items ≡ with_begun k (by_id (ioprocs_of desks.old.items) k) (shown_of desks.old.items) }
    ensures here { slice_get (prepared_of desks.old.items) (k - 1) ≡ Some true
        → slice_get (rooms_of desks.new.items) (k - 1) ≡ Some true }
    ensures calls { begun_count (ioprocs_of desks.new.items) ≡ begun_count (ioprocs_of desks.old.items) + 1 }
    ensures few { begun_count (ioprocs_of desks.old.items) < length desks.old.items }
{
    let i = index_of(desks, k);
    let desk = &mut desks[i];
    desk.take();
}

/// Lets the thread that waits at an ioproc go, if one does.
pub(crate) fn interrupt(desks: &mut Vec<Desk>, k: u32)
    requires { IsSome (by_id (ioprocs_of desks.old.items) k) }
    ensures shown { shown_of desks.new.items ≡ interrupted k (by_id (ioprocs_of desks.old.items) k) (shown_of desks.old.items) }
    ensures calls { begun_count (ioprocs_of desks.new.items) ≡ begun_count (ioprocs_of desks.old.items) }
{
    let i = index_of(desks, k);
    let desk = &mut desks[i];
    desk.interrupt();
}

/// Ends the begun call of an ioproc.
pub(crate) fn free(desks: &mut Vec<Desk>, k: u32)
    requires { IsSome (begun_call (by_id (ioprocs_of desks.old.items) k)) }
    ensures shown { shown_of desks.new.items ≡ with_ioproc k Idle (shown_of desks.old.items) }
    ensures calls { begun_count (ioprocs_of desks.new.items) + 1 ≡ begun_count (ioprocs_of desks.old.items) }
{
    let i = index_of(desks, k);
    let desk = &mut desks[i];
    desk.rest(Ioproc::Idle);
}

/// Ends the begun call of an ioproc with what it came to, if that fits.
pub(crate) fn finish(
    desks: &mut Vec<Desk>,
    k: u32,
    effect: &Effect,
    alloc: Global,
) -> Option<Finished>
    requires { IfSome (begun_call (by_id (ioprocs_of desks.old.items) k))
        (λ call. slice_get (prepared_of desks.old.items) (k - 1) ≡ Some true) }
    ensures finished { result ≡ finish_of effect.now (by_id (ioprocs_of desks.old.items) k) }
    ensures some { OnSome result (shown_of desks.new.items ≡ with_ioproc k Idle (shown_of desks.old.items)) }
    ensures none { IfNone result (shown_of desks.new.items ≡ shown_of desks.old.items) }
    ensures calls { OnSome result (begun_count (ioprocs_of desks.new.items) + 1 ≡ begun_count (ioprocs_of desks.old.items)) }
{
    find(desks, k)?;
    let i = index_of(desks, k);
    let desk = &mut desks[i];
    desk.finish(effect, alloc)
}

/// Lets the threads that end go at each ioproc.
pub(crate) fn let_go<E: Gone>(desks: &mut Vec<Desk>, ending: &E)
    ensures shown { shown_of desks.new.items ≡ without (E.ends ending.now) (shown_of desks.old.items) }
    ensures calls { begun_count (ioprocs_of desks.new.items) ≡ begun_count (ioprocs_of desks.old.items) }
{
    let n = desks.len();
    for i in 0..n {
        let desk = &mut desks[i];
        desk.let_go(ending);
    }
}

/// Hands out the buffer of the call that an ioproc has begun.
pub(crate) fn lend(desks: &mut Vec<Desk>, k: u32, alloc: Global) -> Room<u8>
    requires begun { IsSome (begun_call (by_id (ioprocs_of desks.old.items) k)) }
    requires here { slice_get (rooms_of desks.old.items) (k - 1) ≡ Some true }
    ensures items { result.items ≡ [] }
    ensures spare { IfSome (begun_call (by_id (ioprocs_of desks.old.items) k)) (λ call. room_for call ≤ result.spare) }
    ensures short { IfSome (begun_call (by_id (ioprocs_of desks.old.items) k)) (λ call. message_length call ≤ 4294967295) }
    ensures shown { shown_of desks.new.items ≡ lent k (shown_of desks.old.items) }
{
    let i = index_of(desks, k);
    let desk = &mut desks[i];
    desk.lend(alloc)
}

/// How many calls are begun: no more than there are ioprocs.
pub(crate) fn at_most_all(desks: &[Desk], begun: usize) -> usize
    requires { begun ≡ begun_count (ioprocs_of desks.now) }
    ensures same { result ≡ begun }
    ensures bound { result < 2 ^ 63 }
{
    let all = desks.len();
    prove!(begun <= all);
    begun
}

fn some_has_call(desks: &[Desk]) -> bool
    ensures { result ≡ list_any (λ d. has_call d.ioproc) desks.now }
{
    desks.iter().any(|desk| has_call(&desk.ioproc))
}

/// Whether an ioproc has a call, posted or begun.
pub(crate) fn any_has_call(desks: &[Desk]) -> bool
    ensures { result ≡ list_any has_call (ioprocs_of desks.now) }
{
    some_has_call(desks)
}

fn some_waits(desks: &[Desk], t: Tid) -> bool
    ensures { result ≡ list_any (λ d. waits_at t d.ioproc) desks.now }
{
    desks.iter().any(|desk| waits_at(t, &desk.ioproc))
}

/// Whether thread t waits at an ioproc.
pub(crate) fn any_waits(desks: &[Desk], t: Tid) -> bool
    ensures { result ≡ list_any (waits_at t) (ioprocs_of desks.now) }
{
    some_waits(desks, t)
}
