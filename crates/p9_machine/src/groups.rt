ghost use Rattle.std.specs.Prelude.{◌≡◌, None, OnOk, OnErr};
ghost use Rattle.p9_word.specs.declared.trail.Event.TheVariants.{Call};
ghost use Rattle.p9_word.specs.declared.trail.Seat.TheVariants.{Proc};
ghost use Rattle.p9_word.specs.declared.request.Request.TheVariants.{Thread as ThreadRequest, Signal as SignalRequest, Chan as ChanRequest, Lock as LockRequest, Io as IoRequest};
ghost use Rattle.p9_manual.specs.Chans.{chan_call};
ghost use Rattle.p9_manual.specs.Ioprocs.{io_call};
ghost use Rattle.p9_manual.specs.Locks.{lock_call};
ghost use Rattle.p9_manual.specs.Signals.{signal_call};
ghost use Rattle.p9_manual.specs.Step.{served};
ghost use Rattle.p9_manual.specs.Threads.{thread_call};
ghost use Rattle.p9_sched.specs.Messages.{IsBare, IsOfReply};
ghost use Rattle.p9_thread_calls.specs.Memory.{HasMemory as HasThreadMemory, message_of};
ghost use Rattle.p9_signal_calls.specs.Memory.{HasMemory as HasSignalMemory};
ghost use Rattle.p9_chan_calls.specs.Spares.{IsSpare as IsChanSpare};
ghost use Rattle.p9_lock_calls.specs.Spares.{IsSpare as IsLockSpare};
ghost use Rattle.p9_machine.specs.Board.{HasPlaces, IsBoard, IsRunning, GivesAll, Stays, TakesMemory};
ghost use Rattle.p9_machine.specs.Reserved.{HasRequestMemory, IsKeptFor, message_for, request_of};

use crate::board::Board;
use crate::ends::{exit_all, exit_thread};
use crate::reserve::{Needs, Reserved, keep};
use p9_word::{
    ChanReq, Datum, IoReq, LockReq, Msg, NoMemory, Reply, Request, SignalReq, ThreadReq, Tid,
};
use std::alloc::Global;
use std::mem;

/// A request, with what it needs beside what the parts keep ready for it.
#[derive(Drop)]
pub(crate) enum Asked {
    /// On threads.
    Thread(ThreadReq, p9_thread_calls::Spare),
    /// To interrupt or kill threads, or on notes.
    Signal(SignalReq),
    /// On channels.
    Chan(ChanReq, p9_chan_calls::Spare),
    /// On locks.
    Lock(LockReq, p9_lock_calls::Spare),
    /// On ioprocs.
    Io(IoReq),
}

/// For a request on threads. It stands by itself, so that the rest is small enough to be inlined.
#[inline(never)]
fn for_threads(
    board: &mut Board,
    p: u32,
    t: Tid,
    request: &ThreadReq,
    alloc: Global,
    kept: &mut Option<Reserved>,
) -> Result<(), NoMemory>
    requires { kept.old ≡ None }
    ensures takes { TakesMemory board.old board.new }
    ensures memory { OnOk result (IsKeptFor board.new (Proc p) (Call t (ThreadRequest request.now)) kept.new) }
    ensures none { OnErr result (kept.new ≡ None) }
{
    let copy = request.copied(alloc)?;
    let spare = p9_thread_calls::reserve(&mut board.sched, t, request, alloc)?;
    let told = spare.message()?;
    let needs = Needs::Call(p, t, Asked::Thread(copy, spare));
    keep(kept, Reserved { needs, told });
    Ok(())
}

/// For a request to interrupt or kill threads, or on notes.
#[inline(never)]
fn for_signals(
    board: &mut Board,
    p: u32,
    t: Tid,
    request: &SignalReq,
    alloc: Global,
    kept: &mut Option<Reserved>,
) -> Result<(), NoMemory>
    requires { kept.old ≡ None }
    ensures takes { TakesMemory board.old board.new }
    ensures memory { OnOk result (IsKeptFor board.new (Proc p) (Call t (SignalRequest request.now)) kept.new) }
    ensures none { OnErr result (kept.new ≡ None) }
{
    p9_signal_calls::reserve(&board.sched, &mut board.notes, t, request)?;
    let copy = request.copied(alloc)?;
    let needs = Needs::Call(p, t, Asked::Signal(copy));
    let told = Msg::new();
    keep(kept, Reserved { needs, told });
    Ok(())
}

/// For a request on channels.
#[inline(always)]
fn for_chans(
    board: &mut Board,
    p: u32,
    t: Tid,
    request: &ChanReq,
    alloc: Global,
    kept: &mut Option<Reserved>,
) -> Result<(), NoMemory>
    requires { kept.old ≡ None }
    ensures takes { TakesMemory board.old board.new }
    ensures memory { OnOk result (IsKeptFor board.new (Proc p) (Call t (ChanRequest request.now)) kept.new) }
    ensures none { OnErr result (kept.new ≡ None) }
{
    let spare = p9_chan_calls::reserve(&mut board.alts, request, alloc)?;
    let copy = request.copied(alloc)?;
    let needs = Needs::Call(p, t, Asked::Chan(copy, spare));
    let told = Msg::new();
    keep(kept, Reserved { needs, told });
    Ok(())
}

/// For a request on locks.
#[inline(always)]
fn for_locks(
    board: &mut Board,
    p: u32,
    t: Tid,
    request: &LockReq,
    alloc: Global,
    kept: &mut Option<Reserved>,
) -> Result<(), NoMemory>
    requires { kept.old ≡ None }
    ensures takes { TakesMemory board.old board.new }
    ensures memory { OnOk result (IsKeptFor board.new (Proc p) (Call t (LockRequest request.now)) kept.new) }
    ensures none { OnErr result (kept.new ≡ None) }
{
    let spare = p9_lock_calls::reserve(&mut board.locks, request, alloc)?;
    let needs = Needs::Call(p, t, Asked::Lock(*request, spare));
    let told = Msg::new();
    keep(kept, Reserved { needs, told });
    Ok(())
}

/// For a request on ioprocs.
#[inline(always)]
fn for_ioprocs(
    board: &Board,
    p: u32,
    t: Tid,
    request: &IoReq,
    alloc: Global,
    kept: &mut Option<Reserved>,
) -> Result<(), NoMemory>
    requires { kept.old ≡ None }
    ensures memory { OnOk result (IsKeptFor board.now (Proc p) (Call t (IoRequest request.now)) kept.new) }
    ensures none { OnErr result (kept.new ≡ None) }
{
    let _ = board;
    let copy = request.copied(alloc)?;
    let needs = Needs::Call(p, t, Asked::Io(copy));
    let told = Msg::new();
    keep(kept, Reserved { needs, told });
    Ok(())
}

/// For a request of thread t, told by proc p.
#[inline(always)]
pub(crate) fn for_request(
    board: &mut Board,
    p: u32,
    t: Tid,
    request: &Request,
    alloc: Global,
    kept: &mut Option<Reserved>,
) -> Result<(), NoMemory>
    requires { kept.old ≡ None }
    ensures takes { TakesMemory board.old board.new }
    ensures memory { OnOk result (IsKeptFor board.new (Proc p) (Call t request.now) kept.new) }
    ensures none { OnErr result (kept.new ≡ None) }
{
    match request {
        Request::Thread(request) => for_threads(board, p, t, request, alloc, kept),
        Request::Signal(request) => for_signals(board, p, t, request, alloc, kept),
        Request::Chan(request) => for_chans(board, p, t, request, alloc, kept),
        Request::Lock(request) => for_locks(board, p, t, request, alloc, kept),
        Request::Io(request) => for_ioprocs(board, p, t, request, alloc, kept),
    }
}

/// A request of a thread on threads. How it ends concerns every part.
fn thread_call(
    board: &mut Board,
    t: Tid,
    request: ThreadReq,
    spare: p9_thread_calls::Spare,
) -> Reply
    requires places { HasPlaces board.old }
    requires runs { IsRunning t board.old.sched }
    requires memory { HasThreadMemory request t board.old.sched spare }
    ensures gives { GivesAll (thread_call board.old.setup t request) board.old result board.new }
    ensures stays { Stays board.old board.new }
    ensures told { IsOfReply result (message_of spare) }
{
    match request {
        ThreadReq::ThreadExits { .. } => exit_thread(board, t),
        ThreadReq::ThreadExitsAll { .. } => exit_all(board),
        request => p9_thread_calls::call(&mut board.sched, &board.setup, t, request, spare),
    }
}

/// A request of a thread to interrupt or kill threads, or on notes.
fn signal_call(board: &mut Board, t: Tid, request: SignalReq) -> Reply
    requires board { IsBoard board.old }
    requires runs { IsRunning t board.old.sched }
    requires memory { HasSignalMemory request t board.old.sched board.old.notes }
    ensures gives { GivesAll (signal_call t request) board.old result board.new }
    ensures stays { Stays board.old board.new }
    ensures bare { IsBare result }
{
    p9_signal_calls::call(
        &mut board.sched,
        &mut board.alts,
        &mut board.locks,
        &mut board.notes,
        t,
        request,
    )
}

/// A request of a thread on channels. Its messages are taken out of it.
fn chan_call(
    board: &mut Board,
    t: Tid,
    request: &mut ChanReq,
    spare: &mut p9_chan_calls::Spare,
) -> Reply
    requires board { IsBoard board.old }
    requires runs { IsRunning t board.old.sched }
    requires memory { IsChanSpare request.old spare.old board.old.alts }
    ensures gives { GivesAll (chan_call board.old.setup t request.old) board.old result board.new }
    ensures stays { Stays board.old board.new }
    ensures bare { IsBare result }
{
    p9_chan_calls::call(
        &mut board.sched,
        &mut board.alts,
        &mut board.generator,
        board.position,
        t,
        request,
        spare,
    )
}

/// A request of a thread on locks, Rendezes, Refs and tags.
fn lock_call(board: &mut Board, t: Tid, request: LockReq, spare: p9_lock_calls::Spare) -> Reply
    requires board { IsBoard board.old }
    requires runs { IsRunning t board.old.sched }
    requires memory { IsLockSpare request spare board.old.locks }
    ensures gives { GivesAll (lock_call board.old.setup t request) board.old result board.new }
    ensures stays { Stays board.old board.new }
    ensures bare { IsBare result }
{
    p9_lock_calls::call(&mut board.sched, &mut board.locks, t, request, spare)
}

/// A request of a thread on ioprocs.
fn io_call(board: &mut Board, t: Tid, request: IoReq) -> Reply
    requires board { IsBoard board.old }
    requires runs { IsRunning t board.old.sched }
    ensures gives { GivesAll (io_call board.old.setup t request) board.old result board.new }
    ensures stays { Stays board.old board.new }
    ensures bare { IsBare result }
{
    p9_io_calls::call(&mut board.sched, &mut board.io, t, request)
}

/// A request of a thread that runs, by its group. What it hands over is taken out of it.
#[tactic(auto, unfolding(p9_manual::specs::Step::served))]
pub(crate) fn served(board: &mut Board, t: Tid, asked: &mut Asked) -> Reply
    requires board { IsBoard board.old }
    requires runs { IsRunning t board.old.sched }
    requires memory { HasRequestMemory board.old t asked.old }
    ensures gives { GivesAll (served board.old.setup t (request_of asked.old)) board.old result board.new }
    ensures stays { Stays board.old board.new }
    ensures told { IsOfReply result (message_for asked.old) }
{
    match asked {
        Asked::Thread(request, spare) => {
            let request = mem::replace(request, ThreadReq::Yield);
            let spare = mem::replace(spare, p9_thread_calls::Spare::Nothing);
            thread_call(board, t, request, spare)
        }
        Asked::Signal(request) => {
            let request = mem::replace(request, SignalReq::ThreadInt { tid: 0 });
            signal_call(board, t, request)
        }
        Asked::Chan(request, spare) => chan_call(board, t, request, spare),
        Asked::Lock(request, spare) => {
            let spare = mem::replace(spare, p9_lock_calls::Spare::Nothing);
            lock_call(board, t, *request, spare)
        }
        Asked::Io(request) => {
            let request = mem::replace(request, IoReq::IoProc { k: 0 });
            io_call(board, t, request)
        }
    }
}
