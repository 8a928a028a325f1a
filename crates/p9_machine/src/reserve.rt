ghost use Rattle.std.specs.Prelude.{◌≡◌, Some, None, OnOk, OnErr};
ghost use Rattle.p9_word.specs.declared.trail.Seat.TheVariants.{Proc, Io as IoSeat};
ghost use Rattle.p9_machine.specs.Board.{HasPlaces, TakesMemory};
ghost use Rattle.p9_machine.specs.Reserved.{IsKeptFor, IsStray};

use crate::board::Board;
use crate::groups::{Asked, for_request};
use crate::messages::{message_of_turn, message_posted};
use p9_word::{Datum, Event, Msg, NoMemory, Seat, Tid};
use std::alloc::Global;

/// The event that there is memory for, with what it needs beside what the parts keep ready for it.
#[derive(Drop)]
pub(crate) enum Needs {
    /// In this proc this thread makes a request.
    Call(u32, Tid, Asked),
    /// This proc asks which thread is to run.
    Next(u32),
    /// This ioproc asks for its call.
    Take(u32, p9_io_calls::Spare),
    /// An event that comes from where none of its kind can, or tells what a call came to.
    Other(Seat, Event),
}

/// The memory of an event.
#[derive(Drop)]
pub(crate) struct Reserved {
    /// What the event needs.
    pub(crate) needs: Needs,
    /// The message of the entry's copy of its reply.
    pub(crate) told: Msg,
}

/// Nothing is reserved any more.
#[inline(always)]
pub(crate) fn clear(kept: &mut Option<Reserved>)
    ensures { kept.new ≡ None }
{
    *kept = None;
}

/// Drops what was reserved and wasn't used.
#[cold]
#[inline(never)]
fn forget(kept: &mut Option<Reserved>)
    ensures { kept.new ≡ None }
{
    clear(kept);
}

/// Nothing is reserved any more. Mostly nothing was, and then nothing is moved.
#[inline(always)]
pub(crate) fn let_go(kept: &mut Option<Reserved>)
    ensures { kept.new ≡ None }
{
    if kept.is_some() {
        forget(kept);
    }
}

/// Keeps what is reserved. Nothing was kept, which is asked again: the compiler knows it then, and reads no old memory to be
/// dropped.
#[inline(always)]
pub(crate) fn keep(kept: &mut Option<Reserved>, reserved: Reserved)
    requires { kept.old ≡ None }
    ensures { kept.new ≡ Some reserved }
{
    if kept.is_some() {
        return forget(kept);
    }
    *kept = Some(reserved);
}

/// For a proc that asks which thread is to run.
#[inline(always)]
fn for_turn(board: &Board, p: u32, kept: &mut Option<Reserved>) -> Result<(), NoMemory>
    requires places { HasPlaces board.now }
    requires none { kept.old ≡ None }
    ensures memory { OnOk result (IsKeptFor board.now (Proc p) Event.Next kept.new) }
    ensures none { OnErr result (kept.new ≡ None) }
{
    let told = message_of_turn(&board.sched, &board.notes, p)?;
    let needs = Needs::Next(p);
    keep(kept, Reserved { needs, told });
    Ok(())
}

/// For an ioproc that asks for its call; and for what it tells later.
#[inline(always)]
fn for_take(
    board: &mut Board,
    k: u32,
    alloc: Global,
    kept: &mut Option<Reserved>,
) -> Result<(), NoMemory>
    requires { kept.old ≡ None }
    ensures takes { TakesMemory board.old board.new }
    ensures memory { OnOk result (IsKeptFor board.new (IoSeat k) Event.IoTake kept.new) }
    ensures none { OnErr result (kept.new ≡ None) }
{
    let told = message_posted(&board.io, k)?;
    let spare = p9_io_calls::reserve(&mut board.io, k, alloc)?;
    let needs = Needs::Take(k, spare);
    keep(kept, Reserved { needs, told });
    Ok(())
}

/// For an event that comes from where none of its kind can, or tells what a call came to.
#[cold]
#[inline(never)]
fn for_other(
    board: &Board,
    seat: Seat,
    event: &Event,
    alloc: Global,
    kept: &mut Option<Reserved>,
) -> Result<(), NoMemory>
    requires stray { IsStray seat event.now }
    requires none { kept.old ≡ None }
    ensures memory { OnOk result (IsKeptFor board.now seat event.now kept.new) }
    ensures none { OnErr result (kept.new ≡ None) }
{
    let _ = board;
    let event = event.copied(alloc)?;
    let needs = Needs::Other(seat, event);
    let told = Msg::new();
    keep(kept, Reserved { needs, told });
    Ok(())
}

/// Takes the memory that an event needs, in the parts, and the copies, which are put in their place one kind of event by one.
/// A refusal changes nothing.
#[inline(always)]
pub(crate) fn reserve_for(
    board: &mut Board,
    seat: Seat,
    event: &Event,
    alloc: Global,
    kept: &mut Option<Reserved>,
) -> Result<(), NoMemory>
    requires places { HasPlaces board.old }
    requires none { kept.old ≡ None }
    ensures takes { TakesMemory board.old board.new }
    ensures memory { OnOk result (IsKeptFor board.new seat event.now kept.new) }
    ensures none { OnErr result (kept.new ≡ None) }
{
    match (seat, event) {
        (Seat::Proc(p), Event::Call(t, request)) => for_request(board, p, *t, request, alloc, kept),
        (Seat::Proc(p), Event::Next) => for_turn(board, p, kept),
        (Seat::Io(k), Event::IoTake) => for_take(board, k, alloc, kept),
        (Seat::Proc(_), Event::IoTake)
        | (Seat::Proc(_), Event::IoDid(_))
        | (Seat::Io(_), Event::Call(..))
        | (Seat::Io(_), Event::Next)
        | (Seat::Io(_), Event::IoDid(_)) => for_other(board, seat, event, alloc, kept),
    }
}
