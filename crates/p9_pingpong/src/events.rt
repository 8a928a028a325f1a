use crate::players::{Told, request_of, turn_of};
use p9_machine::Machine;
use p9_word::{ChanReq, Event, NoMemory, Reply, Request, Seat, Tid};

const PROC: Seat = Seat::Proc(1);

/// One event with its memory.
fn happens(machine: &mut Machine, event: Event) -> Result<Reply, NoMemory> {
    machine.reserve(PROC, &event)?;
    Ok(machine.apply(PROC, event))
}

/// Which thread runs next, and what it is told; `None` where the reply is none of a ping-pong.
fn next_turn(machine: &mut Machine) -> Result<Option<(Tid, Told)>, NoMemory> {
    let reply = happens(machine, Event::Next)?;
    Ok(turn_of(&reply))
}

/// Thread t asks. Whether it waits then.
fn waits(machine: &mut Machine, t: Tid, request: ChanReq) -> Result<bool, NoMemory> {
    let reply = happens(machine, Event::Call(t, Request::Chan(request)))?;
    Ok(matches!(reply, Reply::Waits))
}

/// The next thread runs, and asks. It is false where the machine replies otherwise than it should.
fn turns(machine: &mut Machine, waiting: u32) -> Result<bool, NoMemory> {
    match next_turn(machine)? {
        Some((t, told)) => waits(machine, t, request_of(t, waiting, told)),
        None => Ok(false),
    }
}

/// So many turns. It is false where the machine replies otherwise than it should.
fn turns_all(machine: &mut Machine, count: u64, waiting: u32) -> Result<bool, NoMemory> {
    for _ in 0..count {
        if !turns(machine, waiting)? {
            return Ok(false);
        }
    }
    Ok(true)
}

/// A whole ping-pong: a turn for each thread that waits elsewhere, and four for each round.
pub(crate) fn plays(machine: &mut Machine, rounds: u32, waiting: u32) -> Result<bool, NoMemory> {
    turns_all(machine, 4 * rounds as u64 + waiting as u64, waiting)
}
