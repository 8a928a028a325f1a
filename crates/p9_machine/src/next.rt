ghost use Rattle.std.specs.Prelude.{◌≡◌, None, false};
ghost use Rattle.std.specs.List.{list_any};
ghost use Rattle.p9_manual.specs.State.{State};
ghost use Rattle.p9_manual.specs.Places.{runs_in};
ghost use Rattle.p9_manual.specs.Sound.{IsSound};
ghost use Rattle.p9_manual.specs.Stuck.{is_stuck};
ghost use Rattle.p9_manual.specs.Next.{is_place, is_over, next_of, next_event, note_first};
ghost use Rattle.p9_manual.specs.NoteCalls.{next_note};
ghost use Rattle.p9_sched.specs.Schedule.{IsPlace};
ghost use Rattle.p9_machine.specs.Board.{Stands, HasPlaces, IsBoard, GivesAll, Stays};
ghost use Rattle.p9_machine.specs.Turns.{turn_told, turn_in};

use crate::board::Board;
use crate::ends::die;
use p9_note::Delivered;
use p9_sched::Ready;
use p9_word::{Reply, Setup};

/// Whether threads live, and none of them can ever run again.
fn is_stuck(board: &Board) -> bool
    ensures { (s : State) → Stands board.now s → IsSound board.now.setup s → result ≡ is_stuck s }
{
    if !board.sched.has_living() {
        return false;
    }
    if board.sched.has_running() {
        return false;
    }
    if board.sched.has_ready() {
        return false;
    }
    if board.io.has_call() {
        return false;
    }
    !board.notes.any_pending()
}

/// Whether p is one of the proc places.
pub(crate) fn is_place(setup: &Setup, p: u32) -> bool
    ensures { result ≡ is_place setup.now p }
{
    1 <= p && p <= setup.places
}

/// Whether there will be nothing to run in proc p.
fn is_over(board: &Board, p: u32) -> bool
    requires { IsPlace p board.now.sched }
    ensures { (s : State) → Stands board.now s → result ≡ is_over p s }
{
    if board.over {
        return true;
    }
    if p <= board.sched.opened() {
        board.sched.living(p) == 0
    } else {
        !board.sched.has_living()
    }
}

/// What a turn of a thread is told as.
fn told_turn(ready: Ready) -> Reply
    ensures { result ≡ turn_told ready }
{
    match ready {
        Ready::New(t, program, arg) => Reply::Begin(t, program, arg),
        Ready::Old(t, answer) => Reply::Turn(t, answer),
    }
}

/// Where no thread of a proc is to run, the run is stuck or there is nothing to do now.
fn stuck_or_idle(board: &mut Board) -> Reply
    ensures gives { GivesAll (λ s. next_of s None) board.old result board.new }
    ensures stays { Stays board.old board.new }
{
    if is_stuck(board) {
        board.over = true;
        Reply::Stuck
    } else {
        Reply::Idle
    }
}

/// The first ready thread of proc p runs, if there is one and p isn't held.
fn run_next(board: &mut Board, p: u32) -> Reply
    requires place { IsPlace p board.old.sched }
    requires idle { list_any (runs_in p) board.old.sched.threads ≡ false }
    ensures gives { GivesAll (turn_in p) board.old result board.new }
    ensures stays { Stays board.old board.new }
{
    match board.sched.next_of(p) {
        Some(ready) => told_turn(ready),
        None => stuck_or_idle(board),
    }
}

/// The oldest note of proc p is delivered, if one is pending; else its first ready thread runs.
fn note_or_turn(board: &mut Board, p: u32) -> Reply
    requires places { HasPlaces board.old }
    requires place { IsPlace p board.old.sched }
    requires idle { list_any (runs_in p) board.old.sched.threads ≡ false }
    ensures gives { GivesAll (λ s. note_first p s (next_note p s)) board.old result board.new }
    ensures stays { Stays board.old board.new }
{
    match board.notes.deliver(p) {
        Delivered::Quiet => run_next(board, p),
        Delivered::Caught(id) => Reply::Caught(id),
        Delivered::Died(note) => die(board, p, note),
    }
}

/// What proc p runs next, or what becomes of its oldest note.
pub(crate) fn next_event(board: &mut Board, p: u32) -> Reply
    requires { IsBoard board.old }
    ensures gives { GivesAll (next_event board.old.setup p) board.old result board.new }
    ensures stays { Stays board.old board.new }
{
    if !is_place(&board.setup, p) {
        return Reply::Stray;
    }
    if is_over(board, p) {
        return Reply::Over;
    }
    if board.sched.running(p).is_some() {
        return Reply::Stray;
    }
    note_or_turn(board, p)
}
