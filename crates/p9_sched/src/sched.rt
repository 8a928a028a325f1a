ghost use Rattle.std.specs.Prelude.{◌≡◌, ◌≢◌, ◌≤◌, ◌⊎◌, ◌↔◌, [], false, true, None, Some, length, MatchOption, IfOk, IfSome, IsTrue, OnOk, OnErr};
ghost use Rattle.std.specs.List.{list_any};
ghost use Rattle.std.specs.Option.{option_copied};
ghost use Rattle.p9_word.specs.declared.request.Request.{Request};
ghost use Rattle.p9_manual.specs.Create.{with_thread};
ghost use Rattle.p9_manual.specs.Ends.{ended as state_ended, proc_ended as state_proc_ended, all_ended as state_all_ended};
ghost use Rattle.p9_manual.specs.Interrupt.{marked};
ghost use Rattle.p9_manual.specs.Places.{is_marked, is_of, lives, runs, runs_in, runs_there, lives_in};
ghost use Rattle.p9_manual.specs.Standing.{times};
ghost use Rattle.p9_manual.specs.State.{by_id, readied as state_readied, waiting as state_waiting, wake};
ghost use Rattle.p9_manual.specs.Threads.{with_changed, in_group, with_name, with_word, set_proc_word};
ghost use Rattle.p9_sched.specs.Made.{RefusesThread, AddsThread, RefusesProc, AddsProc};
ghost use Rattle.p9_sched.specs.Holding.{is_held, readied_first, with_held};
ghost use Rattle.p9_sched.specs.Marks.{with_mark_of};
ghost use Rattle.p9_sched.specs.Members.{NextMember, NoMember};
ghost use Rattle.p9_sched.specs.Rooms.{all_rooms};
ghost use Rattle.p9_sched.specs.Schedule.{IsMade, IsPlace, begin_schedule, readied, waiting, ended, proc_ended, all_ended, proc_of, group_of, name_of, word_of, line_of, with_group_of, with_name_of, with_word_of, with_proc_word};
ghost use Rattle.p9_sched.specs.Stands.{IsWaitBeside, IsWaitHolding, Tracks, TracksBeside, TracksHolder, TracksStanding, after_next, with_proc_in};
ghost use Rattle.p9_sched.specs.Turns.{place_of, next_in, is_ready_in, answer_next, can_run};

use crate::lanes::Lanes;
use crate::table::Table;
use crate::turns::{Place, Ready};
use p9_word::limits::MOST_THREADS;
use p9_word::{Answer, Msg, NoMemory, Tid};
use std::alloc::Global;
use std::marker::Model;

/// The threads of a run and the procs that they stand in.
///
/// Contracts see the threads by their ids from 1 on, and for each proc place its word and its line, the ready
/// threads of that proc in their order. Each `t` that a call takes is a thread that was made, and each `p` a proc
/// place, from 1 on.
#[derive(Drop)]
pub struct Sched {
    pub(crate) table: Table,
    pub(crate) lanes: Lanes,
    pub(crate) opened: u32,
}

impl Model for Sched {
    ghost use Rattle.p9_sched.specs.Schedule.{Schedule};

    ghost Value = { Schedule };

    ghost use Rattle.p9_sched.specs.Kept.{IsKept, shown};

    ghost view = { shown };

    ghost invariant = { IsKept };
}

impl Sched {
    /// No thread yet, so many proc places, and so many of them open.
    pub fn new(alloc: Global, places: u32, opened: u32) -> Result<Sched, NoMemory>
        ensures { IfOk result (λ s. s ≡ begin_schedule places opened) }
    {
        let lanes = Lanes::new(alloc, places)?;
        Ok(Sched {
            table: Table::new(alloc),
            lanes,
            opened,
        })
    }

    /// Takes the memory of one further thread, name and group. A refusal changes nothing.
    pub fn reserve(&mut self) -> Result<(), NoMemory>
        ensures ok { OnOk result (self.new ≡ record self.old { rooms = all_rooms }) }
        ensures err { OnErr result (self.new ≡ self.old) }
        ensures stands { Tracks (λ s. s) self.old self.new }
    {
        if self.table.is_roomy() {
            return Ok(());
        }
        self.lanes.reserve()?;
        self.table.reserve()
    }

    /// Makes a thread of a proc in a group: it is new and stands last in the line of its proc. The answer is
    /// its id; ids count from 1, and none is used again. `None` where [`MOST_THREADS`] were made. It needs
    /// the room of a reserve. thread(2).
    pub fn make_thread(&mut self, p: u32, program: u32, arg: u64, group: u32) -> Option<Tid>
        requires place { IsPlace p self.old }
        requires room { self.old.rooms.thread ≡ true }
        ensures made { MatchOption result (RefusesThread self.old self.new) (λ t. AddsThread t p program arg group self.old self.new) }
        ensures stands { IfSome result (λ _. TracksStanding (with_thread p program arg group) self.old self.new) }
    {
        if MOST_THREADS <= self.table.len() {
            return None;
        }
        let t = self.table.add(p, program, arg, group);
        self.lanes.join(p, t);
        Some(t)
    }

    /// Opens the next proc place with a new thread in it. `None` where no place is left or [`MOST_THREADS`] were
    /// made. It needs the room of a reserve. thread(2).
    pub fn make_proc(&mut self, program: u32, arg: u64, group: u32) -> Option<Tid>
        requires room { self.old.rooms.thread ≡ true }
        ensures made { MatchOption result (RefusesProc self.old self.new) (λ t. AddsProc t program arg group self.old self.new) }
        ensures stands { IfSome result (λ _. TracksStanding (with_proc_in program arg group) self.old self.new) }
    {
        if self.lanes.len() <= self.opened {
            return None;
        }
        let t = self.make_thread(self.opened + 1, program, arg, group)?;
        self.opened += 1;
        Some(t)
    }

    /// Makes a thread that runs or waits ready with an answer, last in the line of its proc.
    pub fn ready(&mut self, t: Tid, answer: Answer)
        requires { (place_of (by_id self.old.threads t) ≡ Place.Running) ⊎ (place_of (by_id self.old.threads t) ≡ Place.Waiting) }
        ensures ready { self.new ≡ readied t answer self.old }
        ensures place { IsPlace (proc_of (by_id self.old.threads t)) self.old }
        ensures stands { Tracks (state_readied t answer) self.old self.new }
        ensures wakes { place_of (by_id self.old.threads t) ≡ Place.Waiting → TracksBeside t (wake t answer) self.old self.new }
    {
        let p = self.table.row(t).proc_no;
        self.table.put(t, p9_manual::Place::Ready(answer));
        self.lanes.queue(p, t);
    }

    /// Makes a thread that runs or waits ready with an answer, first in the line of its proc.
    pub fn ready_first(&mut self, t: Tid, answer: Answer)
        requires { (place_of (by_id self.old.threads t) ≡ Place.Running) ⊎ (place_of (by_id self.old.threads t) ≡ Place.Waiting) }
        ensures ready { self.new ≡ readied_first t answer self.old }
        ensures place { IsPlace (proc_of (by_id self.old.threads t)) self.old }
    {
        let p = self.table.row(t).proc_no;
        self.table.put(t, p9_manual::Place::Ready(answer));
        self.lanes.queue_first(p, t);
    }

    /// Makes a thread whose wait held its proc ready with an answer, first in the line, and releases the proc. lock(2),
    /// rendezvous(2).
    pub fn ready_holder(&mut self, t: Tid, answer: Answer)
        requires { place_of (by_id self.old.threads t) ≡ Place.Waiting }
        ensures ready { self.new ≡ with_held (proc_of (by_id self.old.threads t)) false (readied_first t answer self.old) }
        ensures stands { TracksHolder t (wake t answer) self.old self.new }
    {
        let p = self.table.row(t).proc_no;
        self.ready_first(t, answer);
        self.release(p);
    }

    /// Lets a running thread wait, and other threads of its proc run.
    pub fn wait(&mut self, t: Tid)
        requires { place_of (by_id self.old.threads t) ≡ Place.Running }
        ensures waits { self.new ≡ waiting t self.old }
        ensures stands { (request : Request) → IsWaitBeside request → Tracks (λ s. (state_waiting t request s).state) self.old self.new }
    {
        let p = self.table.row(t).proc_no;
        self.table.put(t, p9_manual::Place::Waiting);
        self.lanes.stop(p, t);
    }

    /// Lets a running thread wait, and holds its proc until it goes on. lock(2), rendezvous(2).
    pub fn wait_holding(&mut self, t: Tid)
        requires { place_of (by_id self.old.threads t) ≡ Place.Running }
        ensures waits { self.new ≡ with_held (proc_of (by_id self.old.threads t)) true (waiting t self.old) }
        ensures stands { (request : Request) → IsWaitHolding request → Tracks (λ s. (state_waiting t request s).state) self.old self.new }
    {
        let p = self.table.row(t).proc_no;
        self.wait(t);
        self.hold(p);
    }

    /// Holds a proc: no thread of it has a turn until it is released.
    pub fn hold(&mut self, p: u32)
        requires { IsPlace p self.old }
        ensures { self.new ≡ with_held p true self.old }
    {
        self.lanes.set_held(p, true);
    }

    /// Releases a proc that was held.
    pub fn release(&mut self, p: u32)
        requires { IsPlace p self.old }
        ensures { self.new ≡ with_held p false self.old }
    {
        self.lanes.set_held(p, false);
    }

    /// Whether a proc is held.
    pub fn is_held(&self, p: u32) -> bool
        requires { IsPlace p self.now }
        ensures { result ≡ is_held p self.now }
    {
        self.lanes.is_held(p)
    }

    /// Ends a thread that lives: it stands in no line any more.
    pub fn end(&mut self, t: Tid)
        requires { place_of (by_id self.old.threads t) ≢ Place.Ended }
        ensures ended { self.new ≡ ended t self.old }
        ensures place { IsPlace (proc_of (by_id self.old.threads t)) self.old }
        ensures stands { place_of (by_id self.old.threads t) ≡ Place.Running → TracksStanding (state_ended t) self.old self.new }
    {
        let p = self.table.row(t).proc_no;
        self.table.put(t, p9_manual::Place::Ended);
        self.lanes.leave(p, t);
    }

    /// Ends all threads of a proc, in one pass, and releases it.
    pub fn end_proc(&mut self, p: u32)
        requires { IsPlace p self.old }
        ensures ended { self.new ≡ proc_ended p self.old }
        ensures stands { TracksStanding (state_proc_ended p) self.old self.new }
    {
        self.table.end_proc(p);
        self.lanes.clear_one(p);
    }

    /// Ends all threads.
    pub fn end_all(&mut self)
        ensures ended { self.new ≡ all_ended self.old }
        ensures stands { Tracks state_all_ended self.old self.new }
    {
        self.table.end_all();
        self.lanes.clear();
    }

    /// Gives the turn to the first ready thread of a proc in which none runs. `None` where none is ready there or the
    /// proc is held, and then nothing changes. thread(2).
    pub fn next_of(&mut self, p: u32) -> Option<Ready>
        requires place { IsPlace p self.old }
        requires idle { list_any (runs_in p) self.old.threads ≡ false }
        ensures turn { (result, self.new) ≡ next_in p self.old }
        ensures none { (result ≡ None) ↔ ((is_held p self.old ≡ true) ⊎ (line_of p self.old ≡ [])) }
        ensures stands { Tracks (after_next p) self.old self.new }
    {
        if self.lanes.is_held(p) {
            return None;
        }
        let t = self.lanes.start(p)?;
        match self.table.replace(t, p9_manual::Place::Running) {
            p9_manual::Place::Ready(answer) => Some(Ready::Old(t, answer)),
            _ => {
                let row = self.table.row(t);
                Some(Ready::New(t, row.program, row.arg))
            }
        }
    }

    /// The answer that the next thread of a proc goes on with, or `None` where none is ready there, the next one is new, or
    /// the proc is held.
    pub fn next_answer(&self, p: u32) -> Option<&Answer>
        requires { IsPlace p self.now }
        ensures { option_copied result ≡ answer_next p self.now }
    {
        if self.is_held(p) {
            return None;
        }
        let t = self.lanes.first(p)?;
        match &self.table.row(t).place {
            p9_manual::Place::Ready(answer) => Some(answer),
            _ => None,
        }
    }

    /// Whether a thread was made.
    pub fn is_made(&self, t: Tid) -> bool
        ensures { IsTrue result ↔ IsMade t self.now }
    {
        1 <= t && t <= self.made()
    }

    /// Where a thread is.
    pub fn place(&self, t: Tid) -> Place
        requires { IsMade t self.now }
        ensures { result ≡ place_of (by_id self.now.threads t) }
    {
        match &self.table.row(t).place {
            p9_manual::Place::Running => Place::Running,
            p9_manual::Place::New | p9_manual::Place::Ready(_) => Place::Ready,
            p9_manual::Place::Waiting => Place::Waiting,
            p9_manual::Place::Ended => Place::Ended,
        }
    }

    /// The proc of a thread, also where it has ended.
    pub fn proc_of(&self, t: Tid) -> u32
        requires { IsMade t self.now }
        ensures proc { result ≡ proc_of (by_id self.now.threads t) }
        ensures place { IsPlace result self.now }
    {
        self.table.row(t).proc_no
    }

    /// Whether a thread was made and is one of proc p.
    pub fn is_of(&self, t: Tid, p: u32) -> bool
        ensures { result ≡ is_of p (by_id self.now.threads t) }
    {
        self.is_made(t) && self.proc_of(t) == p
    }

    /// The thread that runs in a proc, or `None` where none runs there.
    pub fn running(&self, p: u32) -> Option<Tid>
        requires { IsPlace p self.now }
        ensures { MatchOption result (list_any (runs_in p) self.now.threads ≡ false) (λ t. runs_there p (by_id self.now.threads t) ≡ true) }
    {
        self.lanes.running(p)
    }

    /// How many threads of a proc live.
    pub fn living(&self, p: u32) -> u32
        requires { IsPlace p self.now }
        ensures { result ≡ times (lives_in p) self.now.threads }
    {
        self.lanes.living(p)
    }

    /// How many threads of a proc are ready.
    pub fn ready_in(&self, p: u32) -> u32
        requires { IsPlace p self.now }
        ensures line { result ≡ length (line_of p self.now) }
        ensures threads { result ≡ times (is_ready_in p) self.now.threads }
    {
        self.lanes.ready(p) as u32
    }

    /// How many proc places there are: 1 to this number.
    pub fn places(&self) -> u32
        ensures { result ≡ length self.now.lines }
    {
        self.lanes.len()
    }

    /// Whether a thread lives.
    pub fn has_living(&self) -> bool
        ensures { result ≡ list_any lives self.now.threads }
    {
        self.lanes.any_living()
    }

    /// Whether a thread runs.
    pub fn has_running(&self) -> bool
        ensures { result ≡ list_any runs self.now.threads }
    {
        self.lanes.any_running()
    }

    /// Whether a thread is ready in a proc that isn't held.
    pub fn has_ready(&self) -> bool
        ensures { result ≡ list_any (can_run self.now) self.now.threads }
    {
        self.lanes.any_ready()
    }

    /// How many procs are open: 1 to this number.
    pub fn opened(&self) -> u32
        ensures { result ≡ self.now.opened }
    {
        self.opened
    }

    /// How many threads were made: those with the ids from 1 to this number.
    pub fn made(&self) -> u32
        ensures made { result ≡ length self.now.threads }
        ensures bound { result ≤ MOST_THREADS }
    {
        self.table.len() as u32
    }

    /// The group of a thread; 0 at first where its maker said none. thread(2).
    pub fn group(&self, t: Tid) -> u32
        requires { IsMade t self.now }
        ensures { result ≡ group_of (by_id self.now.threads t) }
    {
        self.table.group(t)
    }

    /// Puts a thread into a group. It needs the room of a reserve.
    pub fn set_group(&mut self, t: Tid, group: u32)
        requires made { IsMade t self.old }
        requires room { self.old.rooms.group ≡ true }
        ensures group { self.new ≡ with_group_of t group self.old }
        ensures stands { Tracks (with_changed (in_group group) t) self.old self.new }
    {
        self.table.set_group(t, group);
    }

    /// The first thread above `t` that lives and is of this group; `t` may be 0. `None` where there is none.
    pub fn member_after(&self, group: u32, t: Tid) -> Option<Tid>
        ensures { MatchOption result (NoMember group t self.now.threads) (NextMember group t self.now.threads) }
    {
        self.table.member_after(group, t)
    }

    /// Marks a thread to die. thread(2).
    pub fn mark(&mut self, t: Tid)
        requires { IsMade t self.old }
        ensures mark { self.new ≡ with_mark_of t self.old }
        ensures stands { place_of (by_id self.old.threads t) ≢ Place.Ended → Tracks (marked t) self.old self.new }
    {
        self.table.mark(t);
    }

    /// Whether a thread is marked to die. A new one isn't.
    pub fn is_marked(&self, t: Tid) -> bool
        requires { IsMade t self.now }
        ensures { result ≡ is_marked (by_id self.now.threads t) }
    {
        self.table.row(t).marked
    }

    /// The name of a thread; at first it has no bytes. thread(2).
    pub fn name(&self, t: Tid) -> &[u8]
        requires { IsMade t self.now }
        ensures { result.now ≡ name_of (by_id self.now.threads t) }
    {
        self.table.name(t)
    }

    /// Gives a thread a name. It needs the room of a reserve.
    pub fn set_name(&mut self, t: Tid, name: Msg)
        requires made { IsMade t self.old }
        requires room { self.old.rooms.name ≡ true }
        ensures name { self.new ≡ with_name_of t name self.old }
        ensures stands { Tracks (with_changed (with_name name) t) self.old self.new }
    {
        self.table.set_name(t, name);
    }

    /// The word of a thread, 0 at first.
    pub fn word(&self, t: Tid) -> u64
        requires { IsMade t self.now }
        ensures { result ≡ word_of (by_id self.now.threads t) }
    {
        self.table.row(t).word
    }

    /// Sets the word of a thread.
    pub fn set_word(&mut self, t: Tid, word: u64)
        requires { IsMade t self.old }
        ensures word { self.new ≡ with_word_of t word self.old }
        ensures stands { Tracks (with_changed (with_word word) t) self.old self.new }
    {
        self.table.set_word(t, word);
    }

    /// The word of a proc, 0 at first.
    pub fn proc_word(&self, p: u32) -> u64
        requires { IsPlace p self.now }
        ensures { by_id self.now.words p ≡ Some result }
    {
        self.lanes.word(p)
    }

    /// Sets the word of a proc.
    pub fn set_proc_word(&mut self, p: u32, word: u64)
        requires { IsPlace p self.old }
        ensures word { self.new ≡ with_proc_word p word self.old }
        ensures stands { Tracks (λ s. (set_proc_word p word s).state) self.old self.new }
    {
        self.lanes.set_word(p, word);
    }
}
