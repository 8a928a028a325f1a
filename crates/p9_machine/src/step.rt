ghost use Rattle.std.specs.Prelude.{ℕ, ◌≡◌, ◌+◌, ◌-◌, true, false, List, Some, None, slice_get};
ghost use Rattle.p9_word.specs.declared.trail.Seat.TheVariants.{Io as IoSeat};
ghost use Rattle.p9_manual.specs.Ioprocs.{io_event};
ghost use Rattle.p9_manual.specs.Places.{runs_there};
ghost use Rattle.p9_manual.specs.State.{by_id};
ghost use Rattle.p9_manual.specs.Step.{makes_entry, called, outcome};
ghost use Rattle.p9_sched.specs.Messages.{IsOfReply};
ghost use Rattle.p9_io_calls.specs.Needs.{IsSpare as IsIoSpare};
ghost use Rattle.p9_machine.specs.Board.{IsBoard, GivesAll, Stays, Follows, calls_of};
ghost use Rattle.p9_machine.specs.Reserved.{HasRequestMemory, IsReservedFor, IsTold, request_of, seat_of, event_of, message_for};
ghost use Rattle.p9_machine.specs.Shown.{is_told};

use crate::board::Board;
use crate::ends::exit_thread;
use crate::groups::{Asked, served};
use crate::next::next_event;
use crate::relinquish::is_doomed;
use crate::reserve::Needs;
use p9_sched::{Place, Sched};
use p9_word::{Effect, Reply, Tid};
use std::mem;

/// Whether thread t runs in proc p.
fn runs_there(sched: &Sched, t: Tid, p: u32) -> bool
    ensures { result ≡ runs_there p (by_id sched.now.threads t) }
{
    sched.is_made(t) && sched.proc_of(t) == p && sched.place(t) == Place::Running
}

/// Ioproc k asks for its call.
#[inline(always)]
fn take_call(board: &mut Board, k: u32, spare: p9_io_calls::Spare) -> Reply
    requires { IsIoSpare (by_id board.old.io.ioprocs k) (slice_get board.old.io.prepared (k - 1)) spare }
    ensures gives { GivesAll (λ s. io_event k s None) board.old result board.new }
    ensures follows { Follows board.old (IoSeat k) result board.new }
{
    p9_io_calls::take(&board.sched, &mut board.io, k, board.over, spare)
}

/// What an ioproc tells that its begun call came to.
pub(crate) fn did_call(board: &mut Board, k: u32, effect: &Effect) -> Reply
    requires { IsBoard board.old }
    ensures gives { GivesAll (λ s. io_event k s (Some effect.now)) board.old result board.new }
    ensures stays { Stays board.old board.new }
    ensures told { makes_entry result ≡ true → result ≡ Reply.Noted }
    ensures fewer { makes_entry result ≡ true → calls_of board.new + 1 ≡ calls_of board.old }
{
    p9_io_calls::did(&mut board.sched, &mut board.io, k, effect)
}

/// A request that is told by proc p: it is served where its thread runs there, unless the thread ends instead.
#[tactic(auto, unfolding(p9_manual::specs::Step::called))]
#[inline(always)]
fn called(board: &mut Board, p: u32, t: Tid, asked: &mut Asked) -> Reply
    requires board { IsBoard board.old }
    requires memory { HasRequestMemory board.old t asked.old }
    ensures gives { GivesAll (called board.old.setup p t (request_of asked.old)) board.old result board.new }
    ensures stays { Stays board.old board.new }
    ensures told { IsOfReply result (message_for asked.old) }
{
    if !runs_there(&board.sched, t, p) {
        return Reply::Stray;
    }
    if is_doomed(&board.sched, t, asked) {
        return exit_thread(board, t);
    }
    served(board, t, asked)
}

/// One event that there is memory for, but for the position of the next entry. What it hands over is taken out of what it needs.
#[inline(always)]
pub(crate) fn outcome(board: &mut Board, needs: &mut Needs) -> Reply
    requires board { IsBoard board.old }
    requires memory { IsReservedFor board.old needs.old }
    requires quiet { is_told (event_of needs.old) ≡ false }
    ensures gives { GivesAll (outcome board.old.setup (seat_of needs.old) (event_of needs.old)) board.old result board.new }
    ensures follows { Follows board.old (seat_of needs.old) result board.new }
    ensures told { (m : List ℕ) → IsTold board.old needs.old m → IsOfReply result m }
{
    match needs {
        Needs::Call(p, t, asked) => called(board, *p, *t, asked),
        Needs::Next(p) => next_event(board, *p),
        Needs::Take(k, spare) => {
            let spare = mem::replace(spare, p9_io_calls::Spare::Nothing);
            take_call(board, *k, spare)
        }
        // It comes from where none of its kind can.
        Needs::Other(..) => Reply::Stray,
    }
}
