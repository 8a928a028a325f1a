ghost use Rattle.std.specs.Prelude.{◌≡◌, ◌↔◌, IsTrue, ◌+◌, ◌-◌, ◌<◌, ◌≤◌, [], Some, true, false, length, map, option_map, MatchOption, OnErr, OnOk};
ghost use Rattle.p9_manual.specs.State.{by_id, changed, placed};
ghost use Rattle.p9_manual.specs.Ends.{at_end};
ghost use Rattle.p9_manual.specs.Threads.{in_group, with_name, with_word};
ghost use Rattle.p9_manual.specs.Interrupt.{with_mark};
ghost use Rattle.p9_sched.specs.Members.{is_member, NextMember, NoMember};
ghost use Rattle.p9_sched.specs.Rooms.{all_rooms, no_rooms};
ghost use Rattle.p9_sched.specs.Schedule.{ended_in, group_of, name_of};
ghost use Rattle.p9_sched.specs.Stored.{HasId, row_of, with_fresh};

use crate::entries::{note_group, put_group, put_name};
use crate::row::Row;
use crate::rows::{end_each, end_in};
use indexmap::IndexMap;
use p9_manual::Place;
use p9_word::limits::MOST_THREADS;
use p9_word::{Msg, NoMemory, Tid};
use std::alloc::Global;
use std::marker::Model;
use std::mem;

/// All threads that were made, by their ids from 1, with the groups and names of those that were given one.
///
/// Contracts see the threads, and which memory that a reserve took is there still.
#[derive(Drop)]
pub(crate) struct Table {
    rows: Vec<Row>,
    groups: IndexMap<Tid, u32>,
    names: IndexMap<Tid, Msg>,
    thread_room: bool,
    name_room: bool,
    group_room: bool,
}

impl Model for Table {
    ghost use Rattle.p9_sched.specs.Stored.{Stored};

    ghost Value = { Stored };

    ghost use Rattle.p9_sched.specs.Table.{stored, IsStored};

    ghost view = { stored };

    ghost invariant = { IsStored };
}

impl Table {
    /// No thread. It takes no memory.
    pub fn new(alloc: Global) -> Table
        ensures { result ≡ record { threads = []; rooms = no_rooms } }
    {
        Table {
            rows: Vec::new(alloc),
            groups: IndexMap::new(alloc),
            names: IndexMap::new(alloc),
            thread_room: false,
            name_room: false,
            group_room: false,
        }
    }

    /// Takes the memory of one more thread, a name, and the group of a thread and of a new one. A refusal changes
    /// nothing.
    pub fn reserve(&mut self) -> Result<(), NoMemory>
        ensures ok { OnOk result (self.new ≡ record self.old { rooms = all_rooms }) }
        ensures err { OnErr result (self.new ≡ self.old) }
    {
        self.rows.reserve(1)?;
        self.groups.reserve(2)?;
        self.names.reserve(1)?;
        self.thread_room = true;
        self.name_room = true;
        self.group_room = true;
        Ok(())
    }

    /// Whether the memory of a reserve is all there.
    pub fn is_roomy(&self) -> bool
        ensures { IsTrue result ↔ (self.now.rooms ≡ all_rooms) }
    {
        self.thread_room && self.name_room && self.group_room
    }

    /// How many threads were made.
    pub fn len(&self) -> usize
        ensures { result ≡ length self.now.threads }
    {
        self.rows.len()
    }

    /// Makes a thread of a proc, and gives its id.
    pub fn add(&mut self, p: u32, program: u32, arg: u64, group: u32) -> Tid
        requires room { self.old.rooms.thread ≡ true }
        requires few { length self.old.threads < MOST_THREADS }
        ensures id { result ≡ length self.old.threads + 1 }
        ensures table { self.new ≡ with_fresh p program arg group self.old }
    {
        let t = self.rows.len() as u32 + 1;
        note_group(&mut self.groups, t, group);
        self.rows.push_reserved(Row {
            proc_no: p,
            program,
            arg,
            word: 0,
            marked: false,
            place: Place::New,
        });
        self.thread_room = false;
        t
    }

    /// What is kept of a thread, but for its group and name.
    pub fn row(&self, t: Tid) -> &Row
        requires { HasId t self.now.threads }
        ensures { option_map row_of (by_id self.now.threads t) ≡ Some result.now }
    {
        &self.rows[t as usize - 1]
    }

    /// Puts a thread at another place.
    pub fn put(&mut self, t: Tid, place: Place)
        requires { HasId t self.old.threads }
        ensures { self.new ≡ record self.old { threads = placed t place self.old.threads } }
    {
        self.replace(t, place);
    }

    /// Puts a thread at another place, and gives the one where it was.
    pub fn replace(&mut self, t: Tid, place: Place) -> Place
        requires { HasId t self.old.threads }
        ensures was { option_map (λ x. x.place) (by_id self.old.threads t) ≡ Some result }
        ensures table { self.new ≡ record self.old { threads = placed t place self.old.threads } }
    {
        let row = &mut self.rows[t as usize - 1];
        mem::replace(&mut row.place, place)
    }

    /// All threads of proc p have ended.
    pub fn end_proc(&mut self, p: u32)
        ensures { self.new ≡ record self.old { threads = map (ended_in p) self.old.threads } }
    {
        end_in(&mut self.rows, p);
    }

    /// All threads have ended.
    pub fn end_all(&mut self)
        ensures { self.new ≡ record self.old { threads = map at_end self.old.threads } }
    {
        end_each(&mut self.rows);
    }

    /// The group of a thread.
    pub fn group(&self, t: Tid) -> u32
        requires { HasId t self.now.threads }
        ensures { result ≡ group_of (by_id self.now.threads t) }
    {
        match self.groups.get(&t) {
            Some(group) => *group,
            None => 0,
        }
    }

    /// Puts a thread into a group.
    pub fn set_group(&mut self, t: Tid, group: u32)
        requires made { HasId t self.old.threads }
        requires room { self.old.rooms.group ≡ true }
        ensures { self.new ≡ record self.old {
          threads = changed (in_group group) self.old.threads (t - 1);
          rooms = record self.old.rooms { group = false };
        } }
    {
        put_group(&mut self.groups, t, group);
        self.group_room = false;
    }

    /// The name of a thread.
    pub fn name(&self, t: Tid) -> &[u8]
        requires { HasId t self.now.threads }
        ensures { result.now ≡ name_of (by_id self.now.threads t) }
    {
        match self.names.get(&t) {
            Some(name) => name.as_slice(),
            None => &[],
        }
    }

    /// Gives a thread a name.
    pub fn set_name(&mut self, t: Tid, name: Msg)
        requires made { HasId t self.old.threads }
        requires room { self.old.rooms.name ≡ true }
        ensures { self.new ≡ record self.old {
          threads = changed (with_name name) self.old.threads (t - 1);
          rooms = record self.old.rooms { name = false };
        } }
    {
        put_name(&mut self.names, t, name);
        self.name_room = false;
    }

    /// Sets the word of a thread.
    pub fn set_word(&mut self, t: Tid, word: u64)
        requires { HasId t self.old.threads }
        ensures { self.new ≡ record self.old { threads = changed (with_word word) self.old.threads (t - 1) } }
    {
        let row = &mut self.rows[t as usize - 1];
        row.word = word;
    }

    /// Marks a thread to die.
    pub fn mark(&mut self, t: Tid)
        requires { HasId t self.old.threads }
        ensures { self.new ≡ record self.old { threads = changed with_mark self.old.threads (t - 1) } }
    {
        let row = &mut self.rows[t as usize - 1];
        row.marked = true;
    }

    /// Whether a thread lives and is of this group.
    pub fn is_member(&self, group: u32, t: Tid) -> bool
        requires { HasId t self.now.threads }
        ensures { result ≡ is_member group (by_id self.now.threads t) }
    {
        match self.row(t).place {
            Place::Ended => false,
            _ => self.group(t) == group,
        }
    }

    /// The first thread above `t` that lives and is of this group. `None` where there is none.
    pub fn member_after(&self, group: u32, t: Tid) -> Option<Tid>
        requires { length self.now.threads ≤ MOST_THREADS }
        ensures { MatchOption result (NoMember group t self.now.threads) (NextMember group t self.now.threads) }
    {
        let made = self.rows.len() as u32;
        for u in t..made {
            if self.is_member(group, u + 1) {
                return Some(u + 1);
            }
        }
        None
    }
}
