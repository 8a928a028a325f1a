ghost use Rattle.std.specs.Prelude.{◌≡◌, ◌++◌, OnOk, IfOk};
ghost use Rattle.p9_run.specs.Report.{memory_line, usage_line, stuck_line, not_yet_line, fault_text, fault_line, run_status, status, messages};

use p9_word::{Msg, NoMemory, Room};
use std::alloc::Global;

/// The first fault of a file.
#[derive(Clone, Copy, Debug, PartialEq, Eq)]
pub(crate) enum FileFault {
    /// It couldn't be opened.
    Open,
    /// A read of it failed.
    Read,
    /// A write of it failed.
    Write,
    /// It couldn't be closed.
    Close,
}

/// What the run of a text came to.
#[derive(Clone, Copy, Debug, PartialEq, Eq)]
pub(crate) struct RunEnd {
    /// Threads lived at the end, and none of them could ever run again.
    pub(crate) stuck: bool,
    /// The first fault of the in file.
    pub(crate) input: Option<FileFault>,
    /// The first fault of the out file.
    pub(crate) output: Option<FileFault>,
}

/// What a command came to.
#[derive(Drop)]
pub(crate) enum CommandEnd {
    /// Memory was wanted.
    Memory,
    /// The words are no command.
    Usage,
    /// FILE was read, and its text can't be run yet.
    NotYet { file: Msg },
    /// FILE couldn't be opened, or a read of it failed.
    FileFailed { file: Msg, fault: FileFault },
    /// The text of FILE was run, over these two paths.
    Ran { end: RunEnd, from: Msg, to: Msg },
}

/// The line that tells that memory was wanted. It takes no memory itself.
pub(crate) fn memory_line() -> &'static [u8]
    ensures { result.now ≡ memory_line }
{
    b"p9pipe: out of memory\n"
}

fn usage_line() -> &'static [u8]
    ensures { result.now ≡ usage_line }
{
    b"p9pipe: usage: run [-p N] [-s START] [-t TRAIL] FILE | bulk N | check FILE | replay FILE TRAIL\n"
}

fn stuck_line(stuck: bool) -> &'static [u8]
    ensures { result.now ≡ stuck_line stuck }
{
    if stuck { b"p9pipe: stuck\n" } else { b"" }
}

fn fault_text(fault: FileFault) -> &'static [u8]
    ensures { result.now ≡ fault_text fault }
{
    match fault {
        FileFault::Open => b": open failed\n",
        FileFault::Read => b": read failed\n",
        FileFault::Write => b": write failed\n",
        FileFault::Close => b": close failed\n",
    }
}

fn append(room: &mut Room<u8>, bytes: &[u8]) -> Result<(), NoMemory>
    ensures { OnOk result (room.new.items ≡ room.old.items ++ bytes.now) }
{
    room.reserve(bytes.len())?;
    room.push_all(bytes);
    Ok(())
}

fn append_not_yet(room: &mut Room<u8>, file: &[u8]) -> Result<(), NoMemory>
    ensures { OnOk result (room.new.items ≡ room.old.items ++ not_yet_line file.now) }
{
    append(room, b"p9pipe: ")?;
    append(room, file)?;
    append(room, b":1: not built yet\n")
}

fn append_fault(room: &mut Room<u8>, path: &[u8], fault: Option<FileFault>) -> Result<(), NoMemory>
    ensures { OnOk result (room.new.items ≡ room.old.items ++ fault_line path.now fault) }
{
    let Some(fault) = fault else {
        return Ok(());
    };
    append(room, b"p9pipe: ")?;
    append(room, path)?;
    append(room, fault_text(fault))
}

/// The messages of a command: the bytes that standard error gets.
pub(crate) fn messages(alloc: Global, end: &CommandEnd) -> Result<Room<u8>, NoMemory>
    ensures { IfOk result (λ r. r.items ≡ messages end.now) }
{
    let mut room = Room::new(alloc);
    match end {
        CommandEnd::Memory => append(&mut room, memory_line())?,
        CommandEnd::Usage => append(&mut room, usage_line())?,
        CommandEnd::NotYet { file } => append_not_yet(&mut room, file.as_slice())?,
        CommandEnd::FileFailed { file, fault } => {
            append_fault(&mut room, file.as_slice(), Some(*fault))?
        }
        CommandEnd::Ran { end, from, to } => {
            append(&mut room, stuck_line(end.stuck))?;
            append_fault(&mut room, from.as_slice(), end.input)?;
            append_fault(&mut room, to.as_slice(), end.output)?;
        }
    }
    Ok(room)
}

fn run_status(end: &RunEnd) -> u8
    ensures { result ≡ run_status end.now }
{
    if end.stuck {
        3
    } else if end.input.is_some() || end.output.is_some() {
        1
    } else {
        0
    }
}

/// The status of a command.
pub(crate) fn status(end: &CommandEnd) -> u8
    ensures { result ≡ status end.now }
{
    match end {
        CommandEnd::Memory => 4,
        CommandEnd::Usage | CommandEnd::NotYet { .. } => 2,
        CommandEnd::FileFailed { .. } => 1,
        CommandEnd::Ran { end, .. } => run_status(end),
    }
}
