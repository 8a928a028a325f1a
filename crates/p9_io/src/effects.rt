ghost use Rattle.std.specs.Prelude.{◌≡◌, ◌≤◌, [], length};
ghost use Rattle.std.specs.Bool.{OnTrue};
ghost use Rattle.p9_manual.specs.Effects.{fits, got, room_for};
ghost use Rattle.p9_manual.specs.Ioprocs.{effect_answer};

use p9_word::limits::MOST_READ_BYTES;
use p9_word::{Effect, IoAnswer, IoCall, Msg, Room, Tid};
use std::alloc::Global;
use std::mem;

/// What came of a begun call.
#[derive(Drop)]
pub struct Finished {
    /// The thread that waits for the call, if it still does.
    pub caller: Option<Tid>,
    /// The answer.
    pub answer: IoAnswer,
}

/// The room that the bytes of a call may need.
pub(crate) fn room_for(call: &IoCall) -> usize
    ensures { result ≡ room_for call.now }
{
    match call {
        IoCall::IoRead(n) | IoCall::IoReadN(n) => MOST_READ_BYTES.min(*n) as usize,
        IoCall::IoOwn(..) => MOST_READ_BYTES as usize,
        IoCall::IoOpen | IoCall::IoWrite(_) | IoCall::IoClose => 0,
    }
}

/// Whether an effect fits a call. The bytes of one that does have room.
pub(crate) fn fits(call: &IoCall, effect: &Effect) -> bool
    ensures fits { result ≡ fits call.now effect.now }
    ensures room { OnTrue result (length (got effect.now) ≤ room_for call.now) }
{
    match (call, effect) {
        (IoCall::IoOpen, Effect::Opened) => true,
        (IoCall::IoOpen, Effect::Refused) => true,
        (IoCall::IoClose, Effect::Shut) => true,
        (IoCall::IoClose, Effect::Refused) => true,
        (IoCall::IoRead(n) | IoCall::IoReadN(n), Effect::Got { bytes, .. }) => {
            let len = bytes.as_slice().len();
            len <= *n as usize && len <= MOST_READ_BYTES as usize
        }
        (IoCall::IoRead(_) | IoCall::IoReadN(_), Effect::Refused) => true,
        (IoCall::IoOwn(..), Effect::Got { bytes, .. }) => {
            bytes.as_slice().len() <= MOST_READ_BYTES as usize
        }
        (IoCall::IoOwn(..), Effect::Refused) => true,
        (IoCall::IoWrite(bytes), Effect::Wrote { count, failed }) => {
            let len = bytes.as_slice().len();
            *count as usize <= len && (*failed || *count as usize == len)
        }
        (IoCall::IoWrite(_), Effect::Refused) => true,
        _ => false,
    }
}

/// A copy of some bytes, shared if that can be, and else in this room.
fn copy_bytes(bytes: &Msg, room: &mut Room<u8>, alloc: Global) -> Msg
    requires empty { room.old.items ≡ [] }
    requires fits { length bytes.now ≤ room.old.spare }
    ensures copy { result ≡ bytes.now }
    ensures empty { room.new.items ≡ [] }
{
    if let Ok(copy) = bytes.copy() {
        return copy;
    }
    let mut filled = mem::replace(room, Room::new(alloc));
    filled.push_all(bytes.as_slice());
    filled.into_msg()
}

/// The answer of a call with this effect. Its bytes are a copy.
pub(crate) fn answer_of(effect: &Effect, room: &mut Room<u8>, alloc: Global) -> IoAnswer
    requires empty { room.old.items ≡ [] }
    requires fits { length (got effect.now) ≤ room.old.spare }
    ensures answer { result ≡ effect_answer effect.now }
    ensures empty { room.new.items ≡ [] }
{
    match effect {
        Effect::Opened => IoAnswer::Opened,
        Effect::Shut => IoAnswer::Shut,
        Effect::Got { failed, bytes } => {
            if *failed && bytes.as_slice().is_empty() {
                IoAnswer::Fault
            } else {
                IoAnswer::Bytes(copy_bytes(bytes, room, alloc))
            }
        }
        Effect::Wrote { count, failed } => {
            if *failed {
                IoAnswer::Fault
            } else {
                IoAnswer::Count(*count)
            }
        }
        Effect::Refused => IoAnswer::Refused,
    }
}
