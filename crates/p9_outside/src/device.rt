ghost use Rattle.std.specs.Prelude.{◌≡◌, ◌<◌, ◌≤◌, ◌^◌, ℕ, List, [], Option};
ghost use Rattle.std.specs.Io.KnownBytes.{Consumes, Appends};
ghost use Rattle.p9_word.specs.declared.io_call.IoCall.{IoCall};
ghost use Rattle.p9_word.specs.declared.io_call.Effect.{Effect};
ghost use Rattle.p9_manual.specs.Effects.{Fits, room_for, message_length, has_failed, got, put};
ghost use Rattle.p9_outside.specs.Causes.{CountsFault};

use p9_word::{Effect, IoCall, Room};

/// What serves the calls of an ioproc. It takes no memory.
///
/// A device may tell the bytes that it has left to give, as a file does whose source tells them, and the
/// bytes that it has taken, as a file does whose sink tells them. It counts its faults: the count rises by
/// one with each effect that failed, and at nothing else. What a list of services comes to by that is
/// [`crate::laws::devices_run`].
pub trait Device {
    /// What one service may do: the state before, the call, its effect, and the state after.
    ghost serves: { Self → IoCall → Effect → Self → Type 0 };

    /// The bytes that it has left to give, where they are told.
    ghost left: { Self → Option (List ℕ) };

    /// The bytes that it has taken, where they are told.
    ghost held: { Self → Option (List ℕ) };

    /// How often an effect has failed. At the greatest u64 it stands.
    ghost faults: { Self → ℕ };

    /// Serves one call. What a read gives stands in `room`, which is taken empty and with spare for as
    /// many bytes as the call may read.
    fn serve(&mut self, call: &IoCall, room: Room<u8>) -> Effect
        requires empty { room.items ≡ [] }
        requires room { room_for call.now ≤ room.spare }
        requires message { message_length call.now < 2 ^ 32 }
        ensures { serves self.old call.now result self.new };

    /// The effect fits the call.
    ghost fits: { (old : Self) (call : IoCall) (effect : Effect) (new : Self) → serves old call effect new → Fits call effect };

    /// The bytes that it gives are the first of those left, and else none are lost.
    ghost gives: { (old : Self) (call : IoCall) (effect : Effect) (new : Self) → serves old call effect new → Consumes (left old) (left new) (got effect) };

    /// The bytes that it takes are the first of the call's message, as many as the effect tells, and else
    /// none are added.
    ghost takes: { (old : Self) (call : IoCall) (effect : Effect) (new : Self) → serves old call effect new → Appends (held old) (held new) (put call effect) };

    /// An effect that failed raises the count of faults by just one, and every other one leaves it.
    ghost counts: { (old : Self) (call : IoCall) (effect : Effect) (new : Self) → serves old call effect new → CountsFault (has_failed effect) (faults old) (faults new) };
}
