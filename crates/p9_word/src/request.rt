use crate::{AltEntry, Datum, Ending, IoCall, Msg, NoMemory, Seq};
use std::alloc::Global;

/// The id of a thread. Ids count from 1 in the order in which threads are made, and none is used again.
pub type Tid = u32;

/// A request on threads. thread(2).
#[derive(Drop)]
pub enum ThreadReq {
    /// Makes a thread of this program in the caller's proc and group, last in the ready line: `Number` of
    /// its id, `Minus` where 65,536 threads were made, or `Bad` where there is no such program.
    ThreadCreate { program: u32, arg: u64 },
    /// Opens the next proc place with such a thread in it, in the caller's group, and lets others run:
    /// `Number` of its id, `Minus` also where no place is left, or `Bad` where there is no such program.
    ProcCreate { program: u32, arg: u64 },
    /// Ends the caller. The text is that of its proc where it is the last thread there.
    ThreadExits { text: Msg },
    /// Ends all threads, and the run.
    ThreadExitsAll { text: Msg },
    /// Lets the other ready threads run first: `Done`.
    Yield,
    /// The caller's id, a `Number`.
    ThreadId,
    /// The proc of a thread, a `Number`, also where it has ended; `Bad` where it was never made.
    ThreadPid { tid: Tid },
    /// The caller's group, a `Number`.
    ThreadGetGrp,
    /// Puts the caller into a group: `Number` of its old one.
    ThreadSetGrp { group: u32 },
    /// Gives the caller a name of 1 to 64 bytes: `Done`, or `Bad` where it has other than that many.
    ThreadSetName { name: Msg },
    /// The caller's name, a `Text`.
    ThreadGetName,
    /// The caller's word, a `Number`.
    ThreadWord,
    /// Sets the caller's word: `Done`.
    ThreadSetWord { word: u64 },
    /// The word of the caller's proc, a `Number`.
    ProcWord,
    /// Sets the word of the caller's proc: `Done`.
    ProcSetWord { word: u64 },
}

/// A request that interrupts or kills threads, or is about notes. thread(2), notify(2).
#[derive(Drop)]
pub enum SignalReq {
    /// Ends the wait of a thread that waits in a request on channels or in a rendezvous, which is told `Interrupted`; on any other
    /// thread it has no effect. `Number` of the waits that it ended, 0 or 1, or `Bad` where that thread was never made.
    ThreadInt { tid: Tid },
    /// Marks a thread that lives to die, and interrupts it as `ThreadInt` does: from then on it ends at its first request that lets
    /// others run, which has no other effect. `Number` of the waits that it ended, or `Bad` where that thread was never made.
    ThreadKill { tid: Tid },
    /// Interrupts each living thread of a group, by rising id: `Number` of the waits that it ended.
    ThreadIntGrp { group: u32 },
    /// Kills each living thread of a group, by rising id: `Number` of the waits that it ended.
    ThreadKillGrp { group: u32 },
    /// With `on`, adds a handler of notes of the caller's proc last: `Number(1)`, or `Number(0)` where it has 32. Else removes the
    /// first one with this id, whatever its prefix: `Number(1)`, or `Number(0)` where none has it. `Bad` where the prefix has more
    /// than 127 bytes.
    ThreadNotify { on: bool, id: u32, prefix: Msg },
    /// Puts a note last among the pending ones of a proc, and interrupts the thread of it that waits in a rendezvous, if one does:
    /// `Done`. At its next turn the proc's first handler whose prefix begins the note catches it, or else all threads of the proc
    /// end. `Bad` where no thread of that proc lives, or the note has more than 127 bytes.
    PostNote { proc_no: u32, note: Msg },
}

/// A request on channels, by their ids from 1: `Bad` where it names a channel that was never made or was
/// freed. thread(2).
#[derive(Drop)]
pub enum ChanReq {
    /// Makes a channel of capacity 0 to 4,096 and element size 1 to 65,536: `Number` of its id, `Minus`
    /// where 1,024 channels were made, or `Bad` where a number is out of range.
    ChanCreate {
        cap: u32,
        elsize: u32,
    },
    /// Frees a channel: `Done`. From then on each request that names it is `Bad`, and who waits there
    /// waits on.
    ChanFree {
        chan: u32,
    },
    /// Closes a channel: `Number(1)`, or `Number(0)` where it is closed already.
    ChanClose {
        chan: u32,
    },
    /// Whether a channel is closed: `Minus` where it is open, else `Number` of the elements left in it.
    ChanClosing {
        chan: u32,
    },
    /// The first entry that can go on, goes on, or one of several by the run's generator; else it waits
    /// until one can. `Index` of that entry, `Closed` where there are entries that aren't no-ops and all
    /// of them have `err` set, or `NoBlock` where none can go on and the list ends in `NoBlk`. `Bad`
    /// where there are more than 64 entries, a slot doesn't go with its op (`Snd` with `Null` or `Give`,
    /// `Rcv` with `Null` or `Keep`, `Nop` with `Null`), or an entry in use names a channel that isn't
    /// there or gives more bytes than an element has. Lets others run.
    Alt {
        ending: Ending,
        entries: Seq<AltEntry>,
    },
    /// Sends a value, or as many zero bytes as an element has where it is `None`. A buffered channel
    /// takes it at once while it has room; else it waits for a receiver. `Sent`, `Closed` where the
    /// channel is closed, or `Bad` where the value is longer than an element.
    Send {
        chan: u32,
        value: Option<Msg>,
    },
    /// Receives a value, and waits for a sender: `Got`, or `Closed` where the channel is closed and has
    /// no element left. Where `keep` isn't set the value is discarded, and the answer has no bytes.
    Recv {
        keep: bool,
        chan: u32,
    },
    /// As `Send`, but `NoBlock` where that would wait.
    NbSend {
        chan: u32,
        value: Option<Msg>,
    },
    /// As `Recv`, but `NoBlock` where that would wait.
    NbRecv {
        keep: bool,
        chan: u32,
    },
    /// Sends a number as eight bytes, little end first, as `Send` does: `Bad` where an element has fewer
    /// than eight.
    SendUl {
        chan: u32,
        n: u64,
    },
    /// As a `Recv` that keeps the value: `Got` or `Closed`.
    RecvUl {
        chan: u32,
    },
    /// As `SendUl`, but `NoBlock` where that would wait.
    NbSendUl {
        chan: u32,
        n: u64,
    },
    /// As `RecvUl`, but `NoBlock` where that would wait.
    NbRecvUl {
        chan: u32,
    },
    /// Sends the bytes of a text as one element, as `Send` does: `Bad` where they are more than an
    /// element has.
    ChanPrint {
        chan: u32,
        text: Msg,
    },
}

/// A request on locks, Rendezes, Refs and tags, each sort of lock by its numbers from 1: `Bad` where it names one that isn't
/// there. lock(2), rendezvous(2).
#[derive(Clone, Copy, PartialEq, Eq)]
pub enum LockReq {
    /// Meets the thread that has waited longest with the same tag: each is told the other's value, `Met`. Where none waits, the
    /// caller waits for one, and its whole proc is held until then.
    Rendezvous { tag: u64, value: u64 },
    /// Takes a Lock, and waits while another thread holds it: `Done`. While the caller waits its whole proc is held.
    Lock { k: u32 },
    /// Takes a Lock where `Lock` would get it at once: `Number(1)`, else `Number(0)`.
    CanLock { k: u32 },
    /// Gives a Lock up to the thread that has waited longest for it: `Done`, or `Bad` where the caller doesn't hold it.
    Unlock { k: u32 },
    /// Takes a QLock, and waits while another thread holds it: `Done`. Lets others run.
    QLock { k: u32 },
    /// Takes a QLock where `QLock` would get it at once: `Number(1)`, else `Number(0)`.
    CanQLock { k: u32 },
    /// Gives a QLock up to the thread that has waited longest for it: `Done`, or `Bad` where the caller doesn't hold it.
    QUnlock { k: u32 },
    /// Takes an RWLock as one of its readers, and waits while a writer holds it or anyone waits for it: `Done`. Lets others run.
    RLock { k: u32 },
    /// Takes an RWLock as `RLock` does where it would get it at once: `Number(1)`, else `Number(0)`.
    CanRLock { k: u32 },
    /// Gives one hold of an RWLock as a reader up: `Done`, or `Bad` where the caller has none. After the last one the writer at
    /// the head of the queue gets it, or else all readers there up to the first writer.
    RUnlock { k: u32 },
    /// Takes an RWLock as its writer, and waits while anyone holds it: `Done`. Lets others run.
    WLock { k: u32 },
    /// Takes an RWLock as `WLock` does where it would get it at once: `Number(1)`, else `Number(0)`.
    CanWLock { k: u32 },
    /// Gives an RWLock up as its writer: `Done`, or `Bad` where the caller isn't it. The lock goes on as after `RUnlock`.
    WUnlock { k: u32 },
    /// Gives the QLock of a Rendez up and sleeps there until it is woken and has got the QLock again: `Done`, or `Bad` where the
    /// caller doesn't hold that QLock. Lets others run.
    RSleep { k: u32 },
    /// Wakes the thread that has slept longest at a Rendez: from then on it waits for the QLock. `Number` of the threads woken,
    /// 0 or 1, or `Bad` where the caller doesn't hold that QLock.
    RWakeup { k: u32 },
    /// Wakes all threads that sleep at a Rendez, in order, as `RWakeup` does: `Number` of them.
    RWakeupAll { k: u32 },
    /// Raises a Ref by 1: `Number` of its new value, or `Bad` where it has the greatest value that a u64 has.
    IncRef { k: u32 },
    /// Lowers a Ref by 1: `Number` of its new value, or `Bad` where its value is 0.
    DecRef { k: u32 },
}

/// A request on ioprocs: ioproc k serves file k, from 1. ioproc(2).
#[derive(Drop)]
pub enum IoReq {
    /// Makes an ioproc: `Number(k)`, or `Bad` where it was made before.
    IoProc { k: u32 },
    /// Makes a call through an ioproc and waits for its answer, an `Io`.
    IoRun { k: u32, call: IoCall },
    /// Ends the wait for an ioproc's call: `Number(1)` where a thread waited for it, else `Number(0)`. A call that has begun
    /// goes on.
    IoInterrupt { k: u32 },
    /// Ends an ioproc that has no call: `Done`.
    CloseIoProc { k: u32 },
}

/// What a thread asks of the machine.
#[derive(Drop)]
pub enum Request {
    /// On threads.
    Thread(ThreadReq),
    /// To interrupt or kill threads, or on notes.
    Signal(SignalReq),
    /// On channels.
    Chan(ChanReq),
    /// On locks.
    Lock(LockReq),
    /// On ioprocs.
    Io(IoReq),
}

impl Datum for ThreadReq {
    fn copied(&self, alloc: Global) -> Result<ThreadReq, NoMemory> {
        match self {
            ThreadReq::ThreadCreate { program, arg } => Ok(ThreadReq::ThreadCreate {
                program: *program,
                arg: *arg,
            }),
            ThreadReq::ProcCreate { program, arg } => Ok(ThreadReq::ProcCreate {
                program: *program,
                arg: *arg,
            }),
            ThreadReq::ThreadExits { text } => Ok(ThreadReq::ThreadExits {
                text: text.copied(alloc)?,
            }),
            ThreadReq::ThreadExitsAll { text } => Ok(ThreadReq::ThreadExitsAll {
                text: text.copied(alloc)?,
            }),
            ThreadReq::Yield => Ok(ThreadReq::Yield),
            ThreadReq::ThreadId => Ok(ThreadReq::ThreadId),
            ThreadReq::ThreadPid { tid } => Ok(ThreadReq::ThreadPid { tid: *tid }),
            ThreadReq::ThreadGetGrp => Ok(ThreadReq::ThreadGetGrp),
            ThreadReq::ThreadSetGrp { group } => Ok(ThreadReq::ThreadSetGrp { group: *group }),
            ThreadReq::ThreadSetName { name } => Ok(ThreadReq::ThreadSetName {
                name: name.copied(alloc)?,
            }),
            ThreadReq::ThreadGetName => Ok(ThreadReq::ThreadGetName),
            ThreadReq::ThreadWord => Ok(ThreadReq::ThreadWord),
            ThreadReq::ThreadSetWord { word } => Ok(ThreadReq::ThreadSetWord { word: *word }),
            ThreadReq::ProcWord => Ok(ThreadReq::ProcWord),
            ThreadReq::ProcSetWord { word } => Ok(ThreadReq::ProcSetWord { word: *word }),
        }
    }

    fn is_same(&self, other: &ThreadReq) -> bool {
        match (self, other) {
            (
                ThreadReq::ThreadCreate { program, arg },
                ThreadReq::ThreadCreate {
                    program: other_program,
                    arg: other_arg,
                },
            ) => program == other_program && arg == other_arg,
            (
                ThreadReq::ProcCreate { program, arg },
                ThreadReq::ProcCreate {
                    program: other_program,
                    arg: other_arg,
                },
            ) => program == other_program && arg == other_arg,
            (ThreadReq::ThreadExits { text: a }, ThreadReq::ThreadExits { text: b }) => {
                a.is_same(b)
            }
            (ThreadReq::ThreadExitsAll { text: a }, ThreadReq::ThreadExitsAll { text: b }) => {
                a.is_same(b)
            }
            (ThreadReq::Yield, ThreadReq::Yield) => true,
            (ThreadReq::ThreadId, ThreadReq::ThreadId) => true,
            (ThreadReq::ThreadPid { tid: a }, ThreadReq::ThreadPid { tid: b }) => a == b,
            (ThreadReq::ThreadGetGrp, ThreadReq::ThreadGetGrp) => true,
            (ThreadReq::ThreadSetGrp { group: a }, ThreadReq::ThreadSetGrp { group: b }) => {
                a == b
            }
            (ThreadReq::ThreadSetName { name: a }, ThreadReq::ThreadSetName { name: b }) => {
                a.is_same(b)
            }
            (ThreadReq::ThreadGetName, ThreadReq::ThreadGetName) => true,
            (ThreadReq::ThreadWord, ThreadReq::ThreadWord) => true,
            (ThreadReq::ThreadSetWord { word: a }, ThreadReq::ThreadSetWord { word: b }) => a == b,
            (ThreadReq::ProcWord, ThreadReq::ProcWord) => true,
            (ThreadReq::ProcSetWord { word: a }, ThreadReq::ProcSetWord { word: b }) => a == b,
            _ => false,
        }
    }
}

impl Datum for SignalReq {
    fn copied(&self, alloc: Global) -> Result<SignalReq, NoMemory> {
        match self {
            SignalReq::ThreadInt { tid } => Ok(SignalReq::ThreadInt { tid: *tid }),
            SignalReq::ThreadKill { tid } => Ok(SignalReq::ThreadKill { tid: *tid }),
            SignalReq::ThreadIntGrp { group } => Ok(SignalReq::ThreadIntGrp { group: *group }),
            SignalReq::ThreadKillGrp { group } => Ok(SignalReq::ThreadKillGrp { group: *group }),
            SignalReq::ThreadNotify { on, id, prefix } => Ok(SignalReq::ThreadNotify {
                on: *on,
                id: *id,
                prefix: prefix.copied(alloc)?,
            }),
            SignalReq::PostNote { proc_no, note } => Ok(SignalReq::PostNote {
                proc_no: *proc_no,
                note: note.copied(alloc)?,
            }),
        }
    }

    fn is_same(&self, other: &SignalReq) -> bool {
        match (self, other) {
            (SignalReq::ThreadInt { tid: a }, SignalReq::ThreadInt { tid: b }) => a == b,
            (SignalReq::ThreadKill { tid: a }, SignalReq::ThreadKill { tid: b }) => a == b,
            (SignalReq::ThreadIntGrp { group: a }, SignalReq::ThreadIntGrp { group: b }) => a == b,
            (SignalReq::ThreadKillGrp { group: a }, SignalReq::ThreadKillGrp { group: b }) => {
                a == b
            }
            (
                SignalReq::ThreadNotify { on, id, prefix },
                SignalReq::ThreadNotify {
                    on: other_on,
                    id: other_id,
                    prefix: other_prefix,
                },
            ) => on == other_on && id == other_id && prefix.is_same(other_prefix),
            (
                SignalReq::PostNote { proc_no, note },
                SignalReq::PostNote {
                    proc_no: other_proc_no,
                    note: other_note,
                },
            ) => proc_no == other_proc_no && note.is_same(other_note),
            _ => false,
        }
    }
}

impl Datum for ChanReq {
    fn copied(&self, alloc: Global) -> Result<ChanReq, NoMemory> {
        match self {
            ChanReq::ChanCreate { cap, elsize } => Ok(ChanReq::ChanCreate {
                cap: *cap,
                elsize: *elsize,
            }),
            ChanReq::ChanFree { chan } => Ok(ChanReq::ChanFree { chan: *chan }),
            ChanReq::ChanClose { chan } => Ok(ChanReq::ChanClose { chan: *chan }),
            ChanReq::ChanClosing { chan } => Ok(ChanReq::ChanClosing { chan: *chan }),
            ChanReq::Alt { ending, entries } => Ok(ChanReq::Alt {
                ending: ending.copied(alloc)?,
                entries: entries.copied(alloc)?,
            }),
            ChanReq::Send { chan, value } => Ok(ChanReq::Send {
                chan: *chan,
                value: value.copied(alloc)?,
            }),
            ChanReq::Recv { keep, chan } => Ok(ChanReq::Recv {
                keep: *keep,
                chan: *chan,
            }),
            ChanReq::NbSend { chan, value } => Ok(ChanReq::NbSend {
                chan: *chan,
                value: value.copied(alloc)?,
            }),
            ChanReq::NbRecv { keep, chan } => Ok(ChanReq::NbRecv {
                keep: *keep,
                chan: *chan,
            }),
            ChanReq::SendUl { chan, n } => Ok(ChanReq::SendUl { chan: *chan, n: *n }),
            ChanReq::RecvUl { chan } => Ok(ChanReq::RecvUl { chan: *chan }),
            ChanReq::NbSendUl { chan, n } => Ok(ChanReq::NbSendUl { chan: *chan, n: *n }),
            ChanReq::NbRecvUl { chan } => Ok(ChanReq::NbRecvUl { chan: *chan }),
            ChanReq::ChanPrint { chan, text } => Ok(ChanReq::ChanPrint {
                chan: *chan,
                text: text.copied(alloc)?,
            }),
        }
    }

    fn is_same(&self, other: &ChanReq) -> bool {
        match (self, other) {
            (
                ChanReq::ChanCreate { cap, elsize },
                ChanReq::ChanCreate {
                    cap: other_cap,
                    elsize: other_elsize,
                },
            ) => cap == other_cap && elsize == other_elsize,
            (ChanReq::ChanFree { chan: a }, ChanReq::ChanFree { chan: b }) => a == b,
            (ChanReq::ChanClose { chan: a }, ChanReq::ChanClose { chan: b }) => a == b,
            (ChanReq::ChanClosing { chan: a }, ChanReq::ChanClosing { chan: b }) => a == b,
            (
                ChanReq::Alt { ending, entries },
                ChanReq::Alt {
                    ending: other_ending,
                    entries: other_entries,
                },
            ) => ending.is_same(other_ending) && entries.is_same(other_entries),
            (
                ChanReq::Send { chan, value },
                ChanReq::Send {
                    chan: other_chan,
                    value: other_value,
                },
            ) => chan == other_chan && value.is_same(other_value),
            (
                ChanReq::Recv { keep, chan },
                ChanReq::Recv {
                    keep: other_keep,
                    chan: other_chan,
                },
            ) => keep == other_keep && chan == other_chan,
            (
                ChanReq::NbSend { chan, value },
                ChanReq::NbSend {
                    chan: other_chan,
                    value: other_value,
                },
            ) => chan == other_chan && value.is_same(other_value),
            (
                ChanReq::NbRecv { keep, chan },
                ChanReq::NbRecv {
                    keep: other_keep,
                    chan: other_chan,
                },
            ) => chan == other_chan && keep == other_keep,
            (
                ChanReq::SendUl { chan, n },
                ChanReq::SendUl {
                    chan: other_chan,
                    n: other_n,
                },
            ) => chan == other_chan && n == other_n,
            (ChanReq::RecvUl { chan: a }, ChanReq::RecvUl { chan: b }) => a == b,
            (
                ChanReq::NbSendUl { chan, n },
                ChanReq::NbSendUl {
                    chan: other_chan,
                    n: other_n,
                },
            ) => chan == other_chan && n == other_n,
            (ChanReq::NbRecvUl { chan: a }, ChanReq::NbRecvUl { chan: b }) => a == b,
            (
                ChanReq::ChanPrint { chan, text },
                ChanReq::ChanPrint {
                    chan: other_chan,
                    text: other_text,
                },
            ) => chan == other_chan && text.is_same(other_text),
            _ => false,
        }
    }
}

impl Datum for LockReq {
    fn copied(&self, _alloc: Global) -> Result<LockReq, NoMemory> {
        Ok(*self)
    }

    fn is_same(&self, other: &LockReq) -> bool {
        self == other
    }
}

impl Datum for IoReq {
    fn copied(&self, alloc: Global) -> Result<IoReq, NoMemory> {
        match self {
            IoReq::IoProc { k } => Ok(IoReq::IoProc { k: *k }),
            IoReq::IoRun { k, call } => Ok(IoReq::IoRun {
                k: *k,
                call: call.copied(alloc)?,
            }),
            IoReq::IoInterrupt { k } => Ok(IoReq::IoInterrupt { k: *k }),
            IoReq::CloseIoProc { k } => Ok(IoReq::CloseIoProc { k: *k }),
        }
    }

    fn is_same(&self, other: &IoReq) -> bool {
        match (self, other) {
            (IoReq::IoProc { k: a }, IoReq::IoProc { k: b }) => a == b,
            (
                IoReq::IoRun { k, call },
                IoReq::IoRun {
                    k: other_k,
                    call: other_call,
                },
            ) => k == other_k && call.is_same(other_call),
            (IoReq::IoInterrupt { k: a }, IoReq::IoInterrupt { k: b }) => a == b,
            (IoReq::CloseIoProc { k: a }, IoReq::CloseIoProc { k: b }) => a == b,
            _ => false,
        }
    }
}

impl Datum for Request {
    fn copied(&self, alloc: Global) -> Result<Request, NoMemory> {
        match self {
            Request::Thread(request) => Ok(Request::Thread(request.copied(alloc)?)),
            Request::Signal(request) => Ok(Request::Signal(request.copied(alloc)?)),
            Request::Chan(request) => Ok(Request::Chan(request.copied(alloc)?)),
            Request::Lock(request) => Ok(Request::Lock(request.copied(alloc)?)),
            Request::Io(request) => Ok(Request::Io(request.copied(alloc)?)),
        }
    }

    fn is_same(&self, other: &Request) -> bool {
        match (self, other) {
            (Request::Thread(a), Request::Thread(b)) => a.is_same(b),
            (Request::Signal(a), Request::Signal(b)) => a.is_same(b),
            (Request::Chan(a), Request::Chan(b)) => a.is_same(b),
            (Request::Lock(a), Request::Lock(b)) => a.is_same(b),
            (Request::Io(a), Request::Io(b)) => a.is_same(b),
            _ => false,
        }
    }
}
