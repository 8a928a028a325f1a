ghost use Rattle.std.specs.Prelude.{◌≡◌};
ghost use Rattle.p9_word.specs.Setup.{IsValid};
ghost use Rattle.p9_machine.specs.Shown.{is_told};

use crate::fault::{Failure, Fault};
use crate::lines::{Line, read_line};
use crate::replies::reply_text;
use crate::script::Row;
use crate::setup::read_setup;
use p9_machine::Machine;
use p9_word::{Datum, Event, NoMemory, Reply, Seat, Setup, Trail};
use std::alloc::Global;

/// Whether an ioproc tells what its call came to.
fn is_told(event: &Event) -> bool
    ensures { result ≡ is_told event.now }
{
    match event {
        Event::IoDid(_) => true,
        _ => false,
    }
}

/// One event. For what an ioproc tells no memory is taken now.
fn happens(machine: &mut Machine, seat: Seat, event: Event) -> Result<Reply, NoMemory> {
    if is_told(&event) {
        return Ok(machine.apply(seat, event));
    }
    machine.reserve(seat, &event)?;
    Ok(machine.apply(seat, event))
}

/// The reply to an event, as a text.
fn reply_to(
    alloc: Global,
    machine: &mut Machine,
    seat: Seat,
    event: &Event,
) -> Result<String, Fault> {
    let reply = happens(machine, seat, event.copied(alloc)?)?;
    Ok(reply_text(alloc, &reply)?)
}

/// The reply to an event, or the first and the last of the replies to so many of it.
fn replies_to(
    alloc: Global,
    machine: &mut Machine,
    times: u32,
    seat: Seat,
    event: &Event,
) -> Result<String, Fault> {
    let first = reply_to(alloc, machine, seat, event)?;
    if times < 2 {
        return Ok(first);
    }
    for _ in 2..times {
        reply_to(alloc, machine, seat, event)?;
    }
    let last = reply_to(alloc, machine, seat, event)?;
    Ok(format!(in alloc; "{first} .. {last}")?)
}

/// What a line below a history's first comes to.
fn outcome(alloc: Global, machine: &mut Machine, text: &str) -> Result<String, Fault> {
    match read_line(alloc, text)? {
        Line::Entries => {
            let count = machine.trail().entries.as_slice().len();
            Ok(format!(in alloc; "{count}")?)
        }
        Line::Halt => {
            machine.halt();
            Ok(String::from_str(alloc, "done")?)
        }
        Line::Happens { times, seat, event } => replies_to(alloc, machine, times, seat, &event),
    }
}

/// Plays one line below a history's first, and prints it with what it comes to.
fn plays_row(
    rt: &impl Print,
    alloc: Global,
    machine: &mut Machine,
    row: Row<'_>,
) -> Result<(), Fault> {
    let text = row.text;
    let outcome = outcome(alloc, machine, text)?;
    println!(rt; "{text} => {outcome}").map_err(|_| Fault::Output)
}

/// Plays the rows up to the next history's first.
fn plays_rows(
    rt: &impl Print,
    alloc: Global,
    machine: &mut Machine,
    rows: &[Row],
) -> Result<(), Failure> {
    for row in rows {
        if row.is_first() {
            break;
        }
        if let Err(fault) = plays_row(rt, alloc, machine, *row) {
            return Err(row.fails(fault));
        }
    }
    Ok(())
}

/// Plays the rows of a history on its machine, and prints its first line before.
fn plays_history(
    rt: &impl Print,
    alloc: Global,
    machine: &mut Machine,
    first: Row<'_>,
    rows: &[Row],
) -> Result<(), Failure> {
    let text = first.text;
    if println!(rt; "{text}").is_err() {
        return Err(first.fails(Fault::Output));
    }
    plays_rows(rt, alloc, machine, rows)
}

/// Each entry of a trail is equal to its copy.
fn equals_its_copy(alloc: Global, trail: &Trail) -> Result<(), Fault> {
    for entry in trail.entries.as_slice() {
        if !entry.copied(alloc)?.is_same(entry) {
            return Err(Fault::OtherCopy);
        }
    }
    Ok(())
}

/// Plays the history on a machine of its own, which starts from this setup, and looks at its trail.
fn plays_from(
    rt: &impl Print,
    alloc: Global,
    setup: &Setup,
    first: Row<'_>,
    rows: &[Row],
) -> Result<(), Failure>
    requires { IsValid setup.now }
{
    match Machine::new(alloc, setup) {
        Ok(mut machine) => {
            let played = plays_history(rt, alloc, &mut machine, first, rows);
            let trail = machine.into_trail();
            played?;
            equals_its_copy(alloc, &trail).map_err(|fault| first.fails(fault))
        }
        Err(NoMemory) => Err(first.fails(Fault::NoMemory)),
    }
}

/// A history whose setup no run can start from isn't played, and says so.
fn plays_if_valid(
    rt: &impl Print,
    alloc: Global,
    setup: &Setup,
    first: Row<'_>,
    rows: &[Row],
) -> Result<(), Failure> {
    if setup.is_valid() {
        return plays_from(rt, alloc, setup, first, rows);
    }
    let text = first.text;
    println!(rt; "{text} => no run can start from this").map_err(|_| first.fails(Fault::Output))
}

/// Plays the history that begins with this row, on a machine of its own.
fn plays(rt: &impl Print, alloc: Global, first: Row<'_>, rows: &[Row]) -> Result<(), Failure> {
    match read_setup(alloc, first.text) {
        Ok(setup) => plays_if_valid(rt, alloc, &setup, first, rows),
        Err(fault) => Err(first.fails(fault)),
    }
}

/// Plays each history of a script.
pub(crate) fn plays_all(rt: &impl Print, alloc: Global, rows: &[Row]) -> Result<(), Failure> {
    if let Some(row) = rows.first()
        && !row.is_first()
    {
        return Err(row.fails(Fault::NotUnderstood));
    }
    for i in 0..rows.len() {
        if rows[i].is_first() {
            plays(rt, alloc, rows[i], &rows[i + 1..])?;
        }
    }
    Ok(())
}
