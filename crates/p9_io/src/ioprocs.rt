ghost use Rattle.std.specs.Prelude.{◌≡◌, Some, IsSome};
ghost use Rattle.std.specs.Option.{option_copied};
ghost use Rattle.p9_manual.specs.Places.{has_call};
ghost use Rattle.p9_manual.specs.Ends.{let_go, kept_caller};
ghost use Rattle.p9_io.specs.Calls.{call_at, caller_at, posted_call, state_of, waits_at};
ghost use Rattle.p9_io.specs.Room.{begun, call_room, without_caller};

use crate::effects::room_for;
use crate::io_state::IoState;
use p9_manual::{Gone, Ioproc};
use p9_word::{IoCall, Tid};

/// How it stands, if it is there.
pub(crate) fn state_of(ioproc: Option<&Ioproc>) -> IoState
    ensures { result ≡ state_of (option_copied ioproc.entry) }
{
    match ioproc {
        Some(Ioproc::Unmade) | None => IoState::Unmade,
        Some(Ioproc::Idle) => IoState::Idle,
        Some(Ioproc::Posted(..)) => IoState::Posted,
        Some(Ioproc::Begun(..)) => IoState::Begun,
        Some(Ioproc::Closed) => IoState::Closed,
    }
}

/// Its call, posted or begun, if it is there and has one.
pub(crate) fn call_at(ioproc: Option<&Ioproc>) -> Option<&IoCall>
    ensures { option_copied result ≡ call_at (option_copied ioproc.entry) }
{
    match ioproc {
        Some(Ioproc::Posted(_, call)) => Some(call),
        Some(Ioproc::Begun(_, call)) => Some(call),
        _ => None,
    }
}

/// The thread that waits there, if it is there and one does.
pub(crate) fn caller_at(ioproc: Option<&Ioproc>) -> Option<Tid>
    ensures { result ≡ caller_at (option_copied ioproc.entry) }
{
    match ioproc {
        Some(Ioproc::Posted(t, _)) => Some(*t),
        Some(Ioproc::Begun(caller, _)) => *caller,
        _ => None,
    }
}

/// Whether thread t waits there.
pub(crate) fn waits_at(t: Tid, ioproc: &Ioproc) -> bool
    ensures { result ≡ waits_at t ioproc.now }
{
    match ioproc {
        Ioproc::Posted(caller, _) => *caller == t,
        Ioproc::Begun(Some(caller), _) => *caller == t,
        _ => false,
    }
}

/// The ioproc once the thread that waits there is interrupted.
pub(crate) fn without_caller(ioproc: Ioproc) -> Ioproc
    ensures { result ≡ without_caller ioproc }
{
    match ioproc {
        Ioproc::Posted(..) => Ioproc::Idle,
        Ioproc::Begun(_, call) => Ioproc::Begun(None, call),
        Ioproc::Unmade => Ioproc::Unmade,
        Ioproc::Idle => Ioproc::Idle,
        Ioproc::Closed => Ioproc::Closed,
    }
}

/// The ioproc once its posted call has begun.
pub(crate) fn begun(ioproc: Ioproc) -> Ioproc
    requires { IsSome (posted_call (Some ioproc)) }
    ensures { result ≡ begun ioproc }
{
    match ioproc {
        Ioproc::Posted(t, call) => Ioproc::Begun(Some(t), call),
        _ => unreachable!(),
    }
}

/// The ioproc without the threads that end.
pub(crate) fn let_go<E: Gone>(ioproc: Ioproc, ending: &E) -> Ioproc
    ensures { result ≡ let_go (E.ends ending.now) ioproc }
{
    match ioproc {
        Ioproc::Unmade => Ioproc::Unmade,
        Ioproc::Idle => Ioproc::Idle,
        Ioproc::Posted(t, call) => {
            if ending.has(t) {
                Ioproc::Idle
            } else {
                Ioproc::Posted(t, call)
            }
        }
        Ioproc::Begun(caller, call) => Ioproc::Begun(kept_caller(caller, ending), call),
        Ioproc::Closed => Ioproc::Closed,
    }
}

/// Whom a begun call is for, without the threads that end.
fn kept_caller<E: Gone>(caller: Option<Tid>, ending: &E) -> Option<Tid>
    ensures { result ≡ kept_caller (E.ends ending.now) caller }
{
    let t = caller?;
    if ending.has(t) { None } else { Some(t) }
}

/// The room for the bytes of its call.
pub(crate) fn room_needed(ioproc: &Ioproc) -> usize
    ensures { result ≡ call_room ioproc.now }
{
    match ioproc {
        Ioproc::Posted(_, call) => room_for(call),
        Ioproc::Begun(_, call) => room_for(call),
        _ => 0,
    }
}

/// Whether it has a call, posted or begun.
pub(crate) fn has_call(ioproc: &Ioproc) -> bool
    ensures { result ≡ has_call ioproc.now }
{
    matches!(ioproc, Ioproc::Posted(..) | Ioproc::Begun(..))
}
