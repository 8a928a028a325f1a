use p9_word::{
    Answer, ChanReq, Entry, Event, IoAnswer, IoCall, IoReq, Msg, Reply, Request, ThreadReq, Tid,
};
use std::fmt;

/// Bytes between single quotes, where each is a printable character of ASCII.
#[derive(Clone, Copy)]
struct Bytes<'a>(&'a Msg);

impl fmt::Display for Bytes<'_> {
    fn fmt<W: fmt::Write>(&self, f: &mut fmt::Formatter<W>) -> fmt::Result {
        match str::from_utf8(self.0.as_slice()) {
            Ok(text) => write!(f, "'{text}'"),
            Err(_) => write!(f, "no text"),
        }
    }
}

/// A call on a file.
#[derive(Clone, Copy)]
struct Call<'a>(&'a IoCall);

impl fmt::Display for Call<'_> {
    fn fmt<W: fmt::Write>(&self, f: &mut fmt::Formatter<W>) -> fmt::Result {
        match self.0 {
            IoCall::IoOpen => write!(f, "open"),
            IoCall::IoRead(n) => write!(f, "read once {n}"),
            IoCall::IoReadN(n) => write!(f, "read {n}"),
            IoCall::IoWrite(bytes) => write!(f, "write {}", Bytes(bytes)),
            IoCall::IoClose => write!(f, "close"),
            IoCall::IoOwn(code, bytes) => write!(f, "own {code} {}", Bytes(bytes)),
        }
    }
}

/// A request that a thread of a copy makes.
#[derive(Clone, Copy)]
struct Asked<'a>(&'a Request);

impl fmt::Display for Asked<'_> {
    fn fmt<W: fmt::Write>(&self, f: &mut fmt::Formatter<W>) -> fmt::Result {
        match self.0 {
            Request::Io(IoReq::IoProc { k }) => write!(f, "ioproc {k}"),
            Request::Io(IoReq::IoRun { k, call }) => write!(f, "iorun {k} {}", Call(call)),
            Request::Io(IoReq::IoInterrupt { k }) => write!(f, "iointerrupt {k}"),
            Request::Io(IoReq::CloseIoProc { k }) => write!(f, "closeioproc {k}"),
            Request::Chan(
                ChanReq::Send {
                    chan,
                    value: Some(value),
                },
            ) => write!(f, "send {chan} {}", Bytes(value)),
            Request::Chan(ChanReq::Recv { keep: true, chan }) => write!(f, "recv {chan} keep"),
            Request::Chan(ChanReq::ChanClose { chan }) => write!(f, "chanclose {chan}"),
            Request::Thread(ThreadReq::ThreadExits { text }) => {
                write!(f, "threadexits {}", Bytes(text))
            }
            _ => write!(f, "another request"),
        }
    }
}

/// An answer that a thread of a copy gets.
#[derive(Clone, Copy)]
struct Told<'a>(&'a Answer);

impl fmt::Display for Told<'_> {
    fn fmt<W: fmt::Write>(&self, f: &mut fmt::Formatter<W>) -> fmt::Result {
        match self.0 {
            Answer::Done => write!(f, "done"),
            Answer::Sent => write!(f, "sent"),
            Answer::Got { from: _, msg } => write!(f, "got {}", Bytes(msg)),
            Answer::Closed => write!(f, "closed"),
            Answer::Number(n) => write!(f, "number {n}"),
            Answer::Io(IoAnswer::Opened) => write!(f, "opened"),
            Answer::Io(IoAnswer::Shut) => write!(f, "shut"),
            Answer::Io(IoAnswer::Bytes(bytes)) => write!(f, "bytes {}", Bytes(bytes)),
            Answer::Io(IoAnswer::Count(n)) => write!(f, "count {n}"),
            Answer::Io(IoAnswer::Fault) => write!(f, "fault"),
            _ => write!(f, "another answer"),
        }
    }
}

/// What an entry of a trail says of a thread: what it asks, and what it is told. Nothing of another thread.
#[derive(Clone, Copy)]
pub(crate) struct Seen<'a>(pub(crate) &'a Entry, pub(crate) Tid);

impl Seen<'_> {
    /// What the thread asks in this entry.
    fn asked(&self) -> Option<Asked<'_>> {
        match &self.0.event {
            Event::Call(t, request) if *t == self.1 => Some(Asked(request)),
            _ => None,
        }
    }

    /// What the thread is told in this entry.
    fn told(&self) -> Option<Told<'_>> {
        match &self.0.reply {
            Reply::Now(answer) if self.asked().is_some() => Some(Told(answer)),
            Reply::Turn(t, answer) if *t == self.1 => Some(Told(answer)),
            _ => None,
        }
    }
}

impl fmt::Display for Seen<'_> {
    fn fmt<W: fmt::Write>(&self, f: &mut fmt::Formatter<W>) -> fmt::Result {
        if let Some(asked) = self.asked() {
            write!(f, "    asks {asked}\n")?;
        }
        if let Some(told) = self.told() {
            write!(f, "    is told {told}\n")?;
        }
        Ok(())
    }
}
