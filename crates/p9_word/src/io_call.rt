use crate::{Datum, Msg, NoMemory};
use std::alloc::Global;

/// A call on a file that a thread makes through an ioproc, a proc that waits instead of it. ioproc(2).
#[derive(Drop)]
pub enum IoCall {
    /// Opens the file.
    IoOpen,
    /// Reads at most this many bytes, 1 to 65,536, by one read. None come at the end.
    IoRead(u32),
    /// Reads this many bytes, or all that are left: 1 to 65,536.
    IoReadN(u32),
    /// Writes all of these bytes.
    IoWrite(Msg),
    /// Closes the file.
    IoClose,
    /// What a device does besides: the thing with this number, asked with these bytes. A file refuses it.
    IoOwn(u32, Msg),
}

/// What a call through an ioproc came to, told by the device that served it.
#[derive(Drop)]
pub enum Effect {
    /// The file is open.
    Opened,
    /// The file is closed.
    Shut,
    /// These bytes were read. Where `failed` is set a read failed after them.
    Got { failed: bool, bytes: Msg },
    /// So many of the first bytes were written. Where `failed` is set a write failed after them.
    Wrote { count: u32, failed: bool },
    /// The device doesn't do that now, and nothing happened.
    Refused,
}

impl Datum for IoCall {
    fn copied(&self, alloc: Global) -> Result<IoCall, NoMemory> {
        match self {
            IoCall::IoOpen => Ok(IoCall::IoOpen),
            IoCall::IoRead(n) => Ok(IoCall::IoRead(*n)),
            IoCall::IoReadN(n) => Ok(IoCall::IoReadN(*n)),
            IoCall::IoWrite(bytes) => Ok(IoCall::IoWrite(bytes.copied(alloc)?)),
            IoCall::IoClose => Ok(IoCall::IoClose),
            IoCall::IoOwn(code, bytes) => Ok(IoCall::IoOwn(*code, bytes.copied(alloc)?)),
        }
    }

    fn is_same(&self, other: &IoCall) -> bool {
        match (self, other) {
            (IoCall::IoOpen, IoCall::IoOpen) => true,
            (IoCall::IoRead(a), IoCall::IoRead(b)) => a == b,
            (IoCall::IoReadN(a), IoCall::IoReadN(b)) => a == b,
            (IoCall::IoWrite(a), IoCall::IoWrite(b)) => a.is_same(b),
            (IoCall::IoClose, IoCall::IoClose) => true,
            (IoCall::IoOwn(code, bytes), IoCall::IoOwn(other_code, other_bytes)) => {
                code == other_code && bytes.is_same(other_bytes)
            }
            _ => false,
        }
    }
}

impl Datum for Effect {
    fn copied(&self, alloc: Global) -> Result<Effect, NoMemory> {
        match self {
            Effect::Opened => Ok(Effect::Opened),
            Effect::Shut => Ok(Effect::Shut),
            Effect::Got { failed, bytes } => Ok(Effect::Got {
                failed: *failed,
                bytes: bytes.copied(alloc)?,
            }),
            Effect::Wrote { count, failed } => Ok(Effect::Wrote {
                count: *count,
                failed: *failed,
            }),
            Effect::Refused => Ok(Effect::Refused),
        }
    }

    fn is_same(&self, other: &Effect) -> bool {
        match (self, other) {
            (Effect::Opened, Effect::Opened) => true,
            (Effect::Shut, Effect::Shut) => true,
            (
                Effect::Got { failed, bytes },
                Effect::Got {
                    failed: other_failed,
                    bytes: other_bytes,
                },
            ) => failed == other_failed && bytes.is_same(other_bytes),
            (
                Effect::Wrote { count, failed },
                Effect::Wrote {
                    count: other_count,
                    failed: other_failed,
                },
            ) => count == other_count && failed == other_failed,
            (Effect::Refused, Effect::Refused) => true,
            _ => false,
        }
    }
}
