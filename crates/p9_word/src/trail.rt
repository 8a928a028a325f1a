use crate::{Answer, Datum, Effect, IoCall, Msg, NoMemory, Request, Room, Tid};
use std::alloc::Global;

/// Who makes an event: a proc, or an ioproc, by its number from 1.
#[derive(Clone, Copy, Debug, PartialEq, Eq)]
pub enum Seat {
    /// A proc of threads.
    Proc(u32),
    /// The ioproc of a file.
    Io(u32),
}

/// One event of the machine.
#[derive(Drop)]
pub enum Event {
    /// A thread makes a request.
    Call(Tid, Request),
    /// A proc asks which thread is to run.
    Next,
    /// An ioproc asks for its call.
    IoTake,
    /// An ioproc tells what its call came to.
    IoDid(Effect),
}

/// What the machine replies to an event. `Idle`, `Over`, `Halted` and `Stray` make no entry in the trail
/// and change nothing.
#[derive(Drop)]
pub enum Reply {
    /// The answer of the request; the thread runs on.
    Now(Answer),
    /// The answer comes with a later turn.
    Waits,
    /// The thread has ended.
    Ended,
    /// This new thread runs, with this program and this argument.
    Begin(Tid, u32, u64),
    /// This thread runs on with the answer of its last request.
    Turn(Tid, Answer),
    /// The handler with this id has caught a note of the proc. notify(2).
    Caught(u32),
    /// No handler has caught this note, and all threads of the proc have ended. notify(2).
    Died(Msg),
    /// There is nothing to do now.
    Idle,
    /// There will be nothing to do any more.
    Over,
    /// Threads live, and none of them can ever run again.
    Stuck,
    /// The machine was halted, since memory was wanted.
    Halted,
    /// The event doesn't come from where it could.
    Stray,
    /// The ioproc's call has begun.
    Took(IoCall),
    /// The effect is recorded.
    Noted,
}

/// One event with its reply.
#[derive(Drop)]
pub struct Entry {
    /// Who made the event.
    pub seat: Seat,
    /// The event.
    pub event: Event,
    /// What the machine replied.
    pub reply: Reply,
}

/// All that happened in a run, in order. The position of an entry is its number, counted from 0.
#[derive(Drop)]
pub struct Trail {
    /// The procs asked for, or 0 for those of the text.
    pub procs: u32,
    /// The number that the run's generator of words starts from.
    pub start: u64,
    /// The entries.
    pub entries: Room<Entry>,
}

impl Datum for Event {
    fn copied(&self, alloc: Global) -> Result<Event, NoMemory> {
        match self {
            Event::Call(t, request) => Ok(Event::Call(*t, request.copied(alloc)?)),
            Event::Next => Ok(Event::Next),
            Event::IoTake => Ok(Event::IoTake),
            Event::IoDid(effect) => Ok(Event::IoDid(effect.copied(alloc)?)),
        }
    }

    fn is_same(&self, other: &Event) -> bool {
        match (self, other) {
            (Event::Call(t, request), Event::Call(u, other_request)) => {
                t == u && request.is_same(other_request)
            }
            (Event::Next, Event::Next) => true,
            (Event::IoTake, Event::IoTake) => true,
            (Event::IoDid(a), Event::IoDid(b)) => a.is_same(b),
            _ => false,
        }
    }
}

impl Datum for Reply {
    fn copied(&self, alloc: Global) -> Result<Reply, NoMemory> {
        match self {
            Reply::Now(answer) => Ok(Reply::Now(answer.copied(alloc)?)),
            Reply::Waits => Ok(Reply::Waits),
            Reply::Ended => Ok(Reply::Ended),
            Reply::Begin(t, program, arg) => Ok(Reply::Begin(*t, *program, *arg)),
            Reply::Turn(t, answer) => Ok(Reply::Turn(*t, answer.copied(alloc)?)),
            Reply::Caught(id) => Ok(Reply::Caught(*id)),
            Reply::Died(note) => Ok(Reply::Died(note.copied(alloc)?)),
            Reply::Idle => Ok(Reply::Idle),
            Reply::Over => Ok(Reply::Over),
            Reply::Stuck => Ok(Reply::Stuck),
            Reply::Halted => Ok(Reply::Halted),
            Reply::Stray => Ok(Reply::Stray),
            Reply::Took(call) => Ok(Reply::Took(call.copied(alloc)?)),
            Reply::Noted => Ok(Reply::Noted),
        }
    }

    fn is_same(&self, other: &Reply) -> bool {
        match (self, other) {
            (Reply::Now(a), Reply::Now(b)) => a.is_same(b),
            (Reply::Waits, Reply::Waits) => true,
            (Reply::Ended, Reply::Ended) => true,
            (Reply::Begin(t, program, arg), Reply::Begin(u, other_program, other_arg)) => {
                t == u && program == other_program && arg == other_arg
            }
            (Reply::Turn(t, answer), Reply::Turn(u, other_answer)) => {
                t == u && answer.is_same(other_answer)
            }
            (Reply::Caught(a), Reply::Caught(b)) => a == b,
            (Reply::Died(a), Reply::Died(b)) => a.is_same(b),
            (Reply::Idle, Reply::Idle) => true,
            (Reply::Over, Reply::Over) => true,
            (Reply::Stuck, Reply::Stuck) => true,
            (Reply::Halted, Reply::Halted) => true,
            (Reply::Stray, Reply::Stray) => true,
            (Reply::Took(a), Reply::Took(b)) => a.is_same(b),
            (Reply::Noted, Reply::Noted) => true,
            _ => false,
        }
    }
}

impl Datum for Entry {
    fn copied(&self, alloc: Global) -> Result<Entry, NoMemory> {
        Ok(Entry {
            seat: self.seat,
            event: self.event.copied(alloc)?,
            reply: self.reply.copied(alloc)?,
        })
    }

    fn is_same(&self, other: &Entry) -> bool {
        self.seat == other.seat
            && self.event.is_same(&other.event)
            && self.reply.is_same(&other.reply)
    }
}
