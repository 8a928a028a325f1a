ghost use Rattle.std.specs.Prelude.{◌≡◌, ℕ, ◌-◌, ◌<◌, ◌≤◌, Some, length, map, replicate, option_map, slice_get, IfOk, IfSome, OnOk};
ghost use Rattle.std.specs.List.{list_any};
ghost use Rattle.p9_manual.specs.State.{by_id, changed};
ghost use Rattle.p9_sched.specs.Lined.{bare, no_lane, room_at, has_living, has_running, has_ready, HasSpare, RunsOffLine, joined, queued, queued_first, holding, stopped, left, cleared, started, worded, line_at};
ghost use Rattle.p9_sched.specs.Stored.{HasId};

use crate::each::{any_living, any_ready, any_running, clear_each, reserve_each};
use crate::lane::Lane;
use p9_word::limits::MOST_THREADS;
use p9_word::{NoMemory, Tid};
use std::alloc::Global;
use std::marker::Model;

/// The proc places, by their numbers from 1.
#[derive(Drop)]
pub(crate) struct Lanes {
    all: Vec<Lane>,
}

impl Model for Lanes {
    ghost use Rattle.std.specs.Prelude.{List, ◌<◌, ◌^◌, length};
    ghost use Rattle.p9_sched.specs.Lined.{Lined};

    ghost Value = { List Lined };

    ghost view = { λ s. s.all.items };

    ghost invariant = { λ s. length s.all.items < 2 ^ 32 };
}

impl Lanes {
    /// So many places with no thread.
    pub fn new(alloc: Global, places: u32) -> Result<Lanes, NoMemory>
        ensures { IfOk result (λ s. map bare s ≡ replicate places no_lane) }
    {
        let mut all = Vec::new(alloc);
        for _ in 0..places {
            all.push(Lane::new(alloc))?;
        }
        Ok(Lanes { all })
    }

    /// Makes room for one more thread in each line.
    pub fn reserve(&mut self) -> Result<(), NoMemory>
        ensures same { map bare self.new ≡ map bare self.old }
        ensures more { (p : ℕ) → room_at (by_id self.old p) ≤ room_at (by_id self.new p) }
        ensures ok { OnOk result ((p : ℕ) → IfSome (by_id self.new p) HasSpare) }
    {
        reserve_each(&mut self.all)
    }

    /// How many places there are.
    pub fn len(&self) -> u32
        ensures { result ≡ length self.now }
    {
        self.all.len() as u32
    }

    /// The word of a proc.
    pub fn word(&self, p: u32) -> u64
        requires { HasId p self.now }
        ensures { option_map (λ l. l.word) (by_id self.now p) ≡ Some result }
    {
        self.all[p as usize - 1].word()
    }

    /// Sets the word of a proc.
    pub fn set_word(&mut self, p: u32, word: u64)
        requires { HasId p self.old }
        ensures { self.new ≡ changed (worded word) self.old (p - 1) }
    {
        let lane = &mut self.all[p as usize - 1];
        lane.set_word(word);
    }

    /// How many threads of a proc live.
    pub fn living(&self, p: u32) -> u32
        requires { HasId p self.now }
        ensures { option_map (λ l. l.living) (by_id self.now p) ≡ Some result }
    {
        self.all[p as usize - 1].living()
    }

    /// The thread that runs in a proc, or `None` where none does.
    pub fn running(&self, p: u32) -> Option<Tid>
        requires { HasId p self.now }
        ensures { option_map (λ l. l.running) (by_id self.now p) ≡ Some result }
    {
        self.all[p as usize - 1].running()
    }

    /// How many threads stand in the line of a proc.
    pub fn ready(&self, p: u32) -> usize
        requires { HasId p self.now }
        ensures { result ≡ length (line_at (by_id self.now p)) }
    {
        self.all[p as usize - 1].ready()
    }

    /// The first thread in the line of a proc, or `None` where it is empty.
    pub fn first(&self, p: u32) -> Option<Tid>
        requires { HasId p self.now }
        ensures { result ≡ slice_get (line_at (by_id self.now p)) 0 }
    {
        self.all[p as usize - 1].first()
    }

    /// Whether a proc is held.
    pub fn is_held(&self, p: u32) -> bool
        requires { HasId p self.now }
        ensures { option_map (λ l. l.held) (by_id self.now p) ≡ Some result }
    {
        self.all[p as usize - 1].is_held()
    }

    /// Holds a proc, or releases it.
    pub fn set_held(&mut self, p: u32, held: bool)
        requires { HasId p self.old }
        ensures { self.new ≡ changed (holding held) self.old (p - 1) }
    {
        let lane = &mut self.all[p as usize - 1];
        lane.set_held(held);
    }

    /// Whether a thread lives in one of them.
    pub fn any_living(&self) -> bool
        ensures { result ≡ list_any has_living self.now }
    {
        any_living(&self.all)
    }

    /// Whether a thread runs in one of them.
    pub fn any_running(&self) -> bool
        ensures { result ≡ list_any has_running self.now }
    {
        any_running(&self.all)
    }

    /// Whether a thread stands in the line of one of them that isn't held.
    pub fn any_ready(&self) -> bool
        ensures { result ≡ list_any has_ready self.now }
    {
        any_ready(&self.all)
    }

    /// A new thread stands last in the line of its proc.
    pub fn join(&mut self, p: u32, t: Tid)
        requires place { HasId p self.old }
        requires room { IfSome (by_id self.old p) (λ l. length l.line < l.room) }
        requires few { IfSome (by_id self.old p) (λ l. l.living < MOST_THREADS) }
        ensures { self.new ≡ changed (joined t) self.old (p - 1) }
    {
        let lane = &mut self.all[p as usize - 1];
        lane.join(t);
    }

    /// A thread doesn't run in its proc any more.
    pub fn stop(&mut self, p: u32, t: Tid)
        requires { HasId p self.old }
        ensures { self.new ≡ changed (stopped t) self.old (p - 1) }
    {
        let lane = &mut self.all[p as usize - 1];
        lane.stop(t);
    }

    /// A thread that ran or waited stands last in the line of its proc.
    pub fn queue(&mut self, p: u32, t: Tid)
        requires place { HasId p self.old }
        requires room { IfSome (by_id self.old p) (λ l. length l.line < l.room) }
        ensures { self.new ≡ changed (queued t) self.old (p - 1) }
    {
        let lane = &mut self.all[p as usize - 1];
        lane.queue(t);
    }

    /// A thread that ran or waited stands first in the line of its proc.
    pub fn queue_first(&mut self, p: u32, t: Tid)
        requires place { HasId p self.old }
        requires room { IfSome (by_id self.old p) (λ l. length l.line < l.room) }
        ensures { self.new ≡ changed (queued_first t) self.old (p - 1) }
    {
        let lane = &mut self.all[p as usize - 1];
        lane.queue_first(t);
    }

    /// A thread of a proc has ended.
    pub fn leave(&mut self, p: u32, t: Tid)
        requires place { HasId p self.old }
        requires line { IfSome (by_id self.old p) (RunsOffLine t) }
        ensures { self.new ≡ changed (left t) self.old (p - 1) }
    {
        let lane = &mut self.all[p as usize - 1];
        lane.leave(t);
    }

    /// No thread lives any more, and no proc is held.
    pub fn clear(&mut self)
        ensures { self.new ≡ map cleared self.old }
    {
        clear_each(&mut self.all);
    }

    /// No thread of a proc lives any more, and it isn't held.
    pub fn clear_one(&mut self, p: u32)
        requires { HasId p self.old }
        ensures { self.new ≡ changed cleared self.old (p - 1) }
    {
        let lane = &mut self.all[p as usize - 1];
        lane.clear();
    }

    /// The first thread in the line of a proc runs. `None` where the line is empty, and then nothing changes.
    pub fn start(&mut self, p: u32) -> Option<Tid>
        requires { HasId p self.old }
        ensures first { result ≡ slice_get (line_at (by_id self.old p)) 0 }
        ensures lanes { self.new ≡ changed (started result) self.old (p - 1) }
    {
        let lane = &mut self.all[p as usize - 1];
        lane.start()
    }
}
