use p9_word::{AltEntry, Answer, IoCall, Msg, Request, Seq, Tid};

/// Where a thread is. It lives until it has ended. thread(2).
#[derive(Drop)]
pub enum Place {
    /// It runs in its proc.
    Running,
    /// It stands in the ready line and has not run yet.
    New,
    /// It stands in the ready line with the answer of its last request.
    Ready(Answer),
    /// It waits for the answer of its last request.
    Waiting,
    /// It has ended.
    Ended,
}

/// A thread. thread(2).
#[derive(Drop)]
pub struct Thread {
    /// Its proc, from 1.
    pub proc_no: u32,
    /// Its program, from 1.
    pub program: u32,
    /// What its program was started with.
    pub arg: u64,
    /// Its group.
    pub group: u32,
    /// Its name.
    pub name: Msg,
    /// Its word, a number that is its own to use.
    pub word: u64,
    /// It is marked to die.
    pub marked: bool,
    /// Where it is.
    pub place: Place,
}

/// A thread that waits.
#[derive(Drop)]
pub struct Waiter {
    /// The thread.
    pub tid: Tid,
    /// Its whole request.
    pub request: Request,
    /// The position of its call in the trail.
    pub at: u64,
}

/// A thread that waits in an alt, or makes one. thread(2).
#[derive(Drop)]
pub struct Party {
    /// The thread.
    pub tid: Tid,
    /// The position of its call in the trail.
    pub at: u64,
    /// Its answers have the forms of send and recv.
    pub single: bool,
    /// The entries of its alt.
    pub entries: Seq<AltEntry>,
}

/// An element of a channel.
#[derive(Drop)]
pub struct Element {
    /// The position of the call that sent it.
    pub from: u64,
    /// Its bytes.
    pub msg: Msg,
}

/// A channel. thread(2).
#[derive(Drop)]
pub struct Channel {
    /// How many elements it holds. One that holds none hands each value over.
    pub cap: u32,
    /// The most bytes of an element.
    pub elsize: u32,
    /// It is closed.
    pub closed: bool,
    /// It is freed, and no request may name it any more.
    pub freed: bool,
    /// Its elements, the first one at the front.
    pub elements: Seq<Element>,
}

/// An ioproc, which makes calls for a thread. ioproc(2).
#[derive(Drop)]
pub enum Ioproc {
    /// It is not made yet.
    Unmade,
    /// It has no call.
    Idle,
    /// It has this call of this thread, which it has not begun.
    Posted(Tid, IoCall),
    /// It has begun this call, for this thread if it still waits.
    Begun(Option<Tid>, IoCall),
    /// It is closed.
    Closed,
}
