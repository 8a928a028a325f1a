ghost use Rattle.std.specs.Prelude.{◌≡◌, ◌+◌, ◌<◌, ◌≤◌, length, slice_get, OnOk};
ghost use Rattle.p9_sched.specs.Lined.{bare, no_lane, joined, queued, queued_first, holding, stopped, left, cleared, started, RunsOffLine};

use crate::line::drop_from_line;
use p9_word::limits::MOST_THREADS;
use p9_word::{NoMemory, Tid};
use std::alloc::Global;
use std::collections::VecDeque;
use std::marker::Model;

/// A proc place: its word, the line of its ready threads, how many of its threads live, the one that runs, and whether it is
/// held.
///
/// Contracts see also how many threads the line has room for.
#[derive(Drop)]
pub(crate) struct Lane {
    word: u64,
    line: VecDeque<Tid>,
    living: u32,
    running: Option<Tid>,
    held: bool,
}

impl Model for Lane {
    ghost use Rattle.std.specs.VecDeque.{deque_capacity};
    ghost use Rattle.p9_sched.specs.Lined.{Lined};

    ghost Value = { Lined };

    ghost view = { λ l. record {
      word = l.word;
      line = l.line.items;
      living = l.living;
      running = l.running;
      held = l.held;
      room = deque_capacity l.line;
    } };
}

impl Lane {
    /// A place with no thread. It takes no memory.
    pub fn new(alloc: Global) -> Lane
        ensures { bare result ≡ no_lane }
    {
        Lane {
            word: 0,
            line: VecDeque::new(alloc),
            living: 0,
            running: None,
            held: false,
        }
    }

    /// Makes room in the line for the living threads and one more.
    pub fn reserve(&mut self) -> Result<(), NoMemory>
        ensures same { bare self.new ≡ bare self.old }
        ensures more { self.old.room ≤ self.new.room }
        ensures ok { OnOk result (self.old.living + 1 ≤ self.new.room) }
    {
        let wanted = self.living as usize + 1;
        self.line.reserve(wanted.saturating_sub(self.line.len()))?;
        Ok(())
    }

    /// The word of the proc.
    pub fn word(&self) -> u64
        ensures { result ≡ self.now.word }
    {
        self.word
    }

    /// Sets the word of the proc.
    pub fn set_word(&mut self, word: u64)
        ensures { self.new ≡ record self.old { word = word } }
    {
        self.word = word;
    }

    /// How many threads live here.
    pub fn living(&self) -> u32
        ensures { result ≡ self.now.living }
    {
        self.living
    }

    /// The thread that runs here, or `None` where none does.
    pub fn running(&self) -> Option<Tid>
        ensures { result ≡ self.now.running }
    {
        self.running
    }

    /// How many threads stand in the line.
    pub fn ready(&self) -> usize
        ensures { result ≡ length self.now.line }
    {
        self.line.len()
    }

    /// The first thread in the line, or `None` where it is empty.
    pub fn first(&self) -> Option<Tid>
        ensures { result ≡ slice_get self.now.line 0 }
    {
        self.line.front().copied()
    }

    /// Whether it is held.
    pub fn is_held(&self) -> bool
        ensures { result ≡ self.now.held }
    {
        self.held
    }

    /// Holds it, or releases it.
    pub fn set_held(&mut self, held: bool)
        ensures { self.new ≡ holding held self.old }
    {
        self.held = held;
    }

    /// A new thread stands last in the line.
    pub fn join(&mut self, t: Tid)
        requires room { length self.old.line < self.old.room }
        requires few { self.old.living < MOST_THREADS }
        ensures { self.new ≡ joined t self.old }
    {
        self.living += 1;
        self.line.push_back_reserved(t);
    }

    /// A thread doesn't run here any more.
    pub fn stop(&mut self, t: Tid)
        ensures { self.new ≡ stopped t self.old }
    {
        if self.running == Some(t) {
            self.running = None;
        }
    }

    /// A thread that ran or waited stands last in the line.
    pub fn queue(&mut self, t: Tid)
        requires { length self.old.line < self.old.room }
        ensures { self.new ≡ queued t self.old }
    {
        self.stop(t);
        self.line.push_back_reserved(t);
    }

    /// A thread that ran or waited stands first in the line.
    pub fn queue_first(&mut self, t: Tid)
        requires { length self.old.line < self.old.room }
        ensures { self.new ≡ queued_first t self.old }
    {
        self.stop(t);
        self.line.push_front_reserved(t);
    }

    /// A thread has ended.
    ///
    /// One that ran costs the same however many threads are ready.
    pub fn leave(&mut self, t: Tid)
        requires { RunsOffLine t self.old }
        ensures { self.new ≡ left t self.old }
    {
        self.living = self.living.saturating_sub(1);
        if self.running != Some(t) {
            drop_from_line(&mut self.line, t);
        } else {
            self.running = None;
        }
    }

    /// No thread lives any more, and it isn't held.
    pub fn clear(&mut self)
        ensures { self.new ≡ cleared self.old }
    {
        self.living = 0;
        self.running = None;
        self.held = false;
        self.line.clear();
    }

    /// The first thread in the line runs. `None` where the line is empty, and then nothing changes.
    pub fn start(&mut self) -> Option<Tid>
        ensures first { result ≡ slice_get self.old.line 0 }
        ensures lane { self.new ≡ started result self.old }
    {
        let t = self.line.pop_front()?;
        self.running = Some(t);
        Some(t)
    }
}
