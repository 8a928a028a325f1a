ghost use Rattle.std.specs.Prelude.{◌≡◌, ◌+◌, ◌≤◌, length, true, false, None};
ghost use Rattle.p9_word.specs.declared.trail.Event.TheVariants.{IoDid};
ghost use Rattle.p9_word.specs.declared.trail.Seat.TheVariants.{Io as IoSeat};
ghost use Rattle.p9_manual.specs.History.{with_entry};
ghost use Rattle.p9_manual.specs.Step.{makes_entry};
ghost use Rattle.p9_sched.specs.Messages.{IsOfReply};
ghost use Rattle.p9_machine.specs.Board.{IsBoard, DoesAll, Follows, calls_of};
ghost use Rattle.p9_machine.specs.Reserved.{IsKeptFor};
ghost use Rattle.p9_machine.specs.Shown.{is_told};

use crate::board::Board;
use crate::copies::{copy_reply, makes_entry};
use crate::reserve::{Reserved, clear};
use crate::step::{did_call, outcome};
use p9_word::{Effect, Entry, Event, Msg, Reply, Room, Seat};
use std::mem;

/// Makes the entry of an event with this reply, if one is made. `told` is a copy of the reply's message.
#[inline(always)]
fn put_entry(entries: &mut Room<Entry>, seat: Seat, event: Event, reply: &Reply, told: Msg)
    requires told { IsOfReply reply.now told }
    requires room { 1 ≤ entries.old.spare }
    ensures entries { entries.new.items ≡ with_entry entries.old.items seat event reply.now }
    ensures spare { entries.old.spare ≤ entries.new.spare + 1 }
{
    if makes_entry(reply) {
        let reply = copy_reply(reply, told);
        entries.push(Entry { seat, event, reply });
    }
}

/// One event that there is memory for: its reply, and its entry if one is made. The memory stays where it is, and what is
/// needed is taken out of it.
#[inline(always)]
pub(crate) fn enter(
    board: &mut Board,
    entries: &mut Room<Entry>,
    seat: Seat,
    event: Event,
    kept: &mut Option<Reserved>,
) -> Reply
    requires board { IsBoard board.old }
    requires memory { IsKeptFor board.old seat event kept.old }
    requires quiet { is_told event ≡ false }
    requires room { calls_of board.old + 2 ≤ entries.old.spare }
    requires counted { board.old.position ≡ length entries.old.items }
    ensures does { DoesAll seat event board.old result board.new }
    ensures entries { entries.new.items ≡ with_entry entries.old.items seat event result }
    ensures follows { Follows board.old seat result board.new }
    ensures spare { calls_of board.new ≤ entries.new.spare }
    ensures none { kept.new ≡ None }
{
    let Some(Reserved { needs, told }) = kept else {
        unreachable!();
    };
    let reply = outcome(board, needs);
    let told = mem::replace(told, Msg::new());
    put_entry(entries, seat, event, &reply, told);
    board.position = entries.as_slice().len() as u64;
    clear(kept);
    reply
}

/// Makes the entry of what ioproc k tells, if it is recorded.
fn put_note(entries: &mut Room<Entry>, k: u32, effect: Effect, reply: &Reply)
    requires noted { makes_entry reply.now ≡ true → reply.now ≡ Reply.Noted }
    requires room { makes_entry reply.now ≡ true → 1 ≤ entries.old.spare }
    ensures entries { entries.new.items ≡ with_entry entries.old.items (IoSeat k) (IoDid effect) reply.now }
    ensures kept { makes_entry reply.now ≡ false → entries.new ≡ entries.old }
    ensures fewer { makes_entry reply.now ≡ true → entries.new.spare + 1 ≡ entries.old.spare }
{
    if makes_entry(reply) {
        entries.push(Entry {
            seat: Seat::Io(k),
            event: Event::IoDid(effect),
            reply: Reply::Noted,
        });
    }
}

/// What ioproc k tells. Its entry has its memory since its call began.
fn record_at(board: &mut Board, entries: &mut Room<Entry>, k: u32, effect: Effect) -> Reply
    requires board { IsBoard board.old }
    requires spare { calls_of board.old ≤ entries.old.spare }
    requires counted { board.old.position ≡ length entries.old.items }
    ensures does { DoesAll (IoSeat k) (IoDid effect) board.old result board.new }
    ensures entries { entries.new.items ≡ with_entry entries.old.items (IoSeat k) (IoDid effect) result }
    ensures follows { Follows board.old (IoSeat k) result board.new }
    ensures spare { calls_of board.new ≤ entries.new.spare }
{
    let reply = did_call(board, k, &effect);
    put_note(entries, k, effect, &reply);
    board.position = entries.as_slice().len() as u64;
    reply
}

/// What an ioproc tells; a proc tells nothing.
pub(crate) fn record(
    board: &mut Board,
    entries: &mut Room<Entry>,
    seat: Seat,
    effect: Effect,
) -> Reply
    requires board { IsBoard board.old }
    requires spare { calls_of board.old ≤ entries.old.spare }
    requires counted { board.old.position ≡ length entries.old.items }
    ensures does { DoesAll seat (IoDid effect) board.old result board.new }
    ensures entries { entries.new.items ≡ with_entry entries.old.items seat (IoDid effect) result }
    ensures follows { Follows board.old seat result board.new }
    ensures spare { calls_of board.new ≤ entries.new.spare }
{
    match seat {
        Seat::Io(k) => record_at(board, entries, k, effect),
        Seat::Proc(_) => Reply::Stray,
    }
}
