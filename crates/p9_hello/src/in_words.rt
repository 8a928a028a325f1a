use p9_word::{Answer, ChanReq, Entry, Event, Msg, Reply, Request, ThreadReq};
use std::{fmt, str};

/// An entry of the trail in plain words: the event, and what the machine replied.
///
/// It has words for what this program's threads ask, and for what they can be told.
#[derive(Clone, Copy)]
pub(crate) struct InWords<'a>(pub(crate) &'a Entry);

impl fmt::Display for InWords<'_> {
    fn fmt<W: fmt::Write>(&self, f: &mut fmt::Formatter<W>) -> fmt::Result {
        write_event(f, &self.0.event)?;
        write!(f, ": ")?;
        write_reply(f, &self.0.reply)
    }
}

fn write_event<W: fmt::Write>(f: &mut fmt::Formatter<W>, event: &Event) -> fmt::Result {
    match event {
        Event::Next => write!(f, "the proc asks which thread is to run"),
        Event::Call(thread, request) => {
            write!(f, "thread {thread} asks ")?;
            write_request(f, request)
        }
        Event::IoTake | Event::IoDid(_) => write!(f, "an ioproc does its work"),
    }
}

fn write_request<W: fmt::Write>(f: &mut fmt::Formatter<W>, request: &Request) -> fmt::Result {
    match request {
        Request::Chan(
            ChanReq::Send {
                chan,
                value: Some(value),
            },
        ) => {
            let value = text(value);
            write!(f, "to send '{value}' on channel {chan}")
        }
        Request::Chan(ChanReq::Recv { keep: _, chan }) => {
            write!(f, "to receive from channel {chan}")
        }
        Request::Thread(ThreadReq::ThreadExits { text: _ }) => write!(f, "to exit"),
        _ => write!(f, "for something else"),
    }
}

fn write_reply<W: fmt::Write>(f: &mut fmt::Formatter<W>, reply: &Reply) -> fmt::Result {
    match reply {
        Reply::Begin(thread, _, _) => write!(f, "thread {thread} begins"),
        Reply::Turn(thread, answer) => {
            write!(f, "thread {thread} runs on, ")?;
            write_answer(f, answer)
        }
        Reply::Now(answer) => write_answer(f, answer),
        Reply::Waits => write!(f, "it waits for the answer"),
        Reply::Ended => write!(f, "it has ended"),
        Reply::Stuck => write!(f, "no thread can ever run again"),
        _ => write!(f, "noted"),
    }
}

fn write_answer<W: fmt::Write>(f: &mut fmt::Formatter<W>, answer: &Answer) -> fmt::Result {
    match answer {
        Answer::Sent => write!(f, "its value was sent"),
        Answer::Got { from, msg } => {
            let value = text(msg);
            write!(f, "it got '{value}', sent at {from}")
        }
        _ => write!(f, "it is told something else"),
    }
}

/// The bytes of a message as a text.
fn text(msg: &Msg) -> &str {
    str::from_utf8(msg.as_slice()).unwrap_or("no text")
}
