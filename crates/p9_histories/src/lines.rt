use crate::chan_requests::chan_request;
use crate::fault::Fault;
use crate::io_requests::{effect, io_request};
use crate::lock_requests::lock_request;
use crate::signal_requests::signal_request;
use crate::thread_requests::thread_request;
use crate::words::Words;
use p9_word::{Event, Request, Seat};
use std::alloc::Global;

/// What a line below a history's first asks for.
#[derive(Drop)]
pub(crate) enum Line {
    /// An event, so many times.
    Happens {
        times: u32,
        seat: Seat,
        event: Event,
    },
    /// The number of entries of the trail.
    Entries,
    /// That the machine is halted.
    Halt,
}

/// What a line asks for: `entries`, `halt`, or an event of proc 1 or of the proc or ioproc that is named first.
pub(crate) fn read_line(alloc: Global, text: &str) -> Result<Line, Fault> {
    let mut words = Words::new(text);
    if words.takes("entries") {
        words.ends()?;
        return Ok(Line::Entries);
    }
    if words.takes("halt") {
        words.ends()?;
        return Ok(Line::Halt);
    }
    let times = words.id_after("times", 1)?;
    if times == 0 {
        return Err(Fault::NotUnderstood);
    }
    let seat = seat(&mut words)?;
    let event = event(alloc, &mut words)?;
    words.ends()?;
    Ok(Line::Happens { times, seat, event })
}

fn seat(words: &mut Words) -> Result<Seat, Fault> {
    if words.takes("io") {
        Ok(Seat::Io(words.id()?))
    } else {
        Ok(Seat::Proc(words.id_after("proc", 1)?))
    }
}

/// An event: `next`, `thread` with its id and its request, `take`, or `did` with what came of the call.
fn event(alloc: Global, words: &mut Words) -> Result<Event, Fault> {
    match words.word()? {
        "next" => Ok(Event::Next),
        "thread" => {
            let t = words.id()?;
            let request = request(alloc, words)?;
            Ok(Event::Call(t, request))
        }
        "take" => Ok(Event::IoTake),
        "did" => Ok(Event::IoDid(effect(alloc, words)?)),
        _ => Err(Fault::NotUnderstood),
    }
}

/// A request by its name in the manual.
fn request(alloc: Global, words: &mut Words) -> Result<Request, Fault> {
    let name = words.word()?;
    if let Some(request) = thread_request(alloc, name, words)? {
        return Ok(Request::Thread(request));
    }
    if let Some(request) = signal_request(alloc, name, words)? {
        return Ok(Request::Signal(request));
    }
    if let Some(request) = chan_request(alloc, name, words)? {
        return Ok(Request::Chan(request));
    }
    if let Some(request) = lock_request(name, words)? {
        return Ok(Request::Lock(request));
    }
    if let Some(request) = io_request(alloc, name, words)? {
        return Ok(Request::Io(request));
    }
    Err(Fault::NotUnderstood)
}
