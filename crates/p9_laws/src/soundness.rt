//! The state after every history is sound, and an event that makes no entry changes nothing.

ghost use Rattle.std.specs.Prelude.{ℕ, ◌≡◌, false};
ghost use Rattle.p9_word.specs.Setup.{IsBetween, IsValid};
ghost use Rattle.p9_word.specs.declared.trail.Reply.TheVariants.{Begin};
ghost use Rattle.p9_manual.specs.State.{State};
ghost use Rattle.p9_manual.specs.Step.{step, makes_entry};
ghost use Rattle.p9_manual.specs.History.{state_after};
ghost use Rattle.p9_manual.specs.Sound.{IsSound};

use p9_word::{Entry, Event, Seat, Setup};

/// Each event keeps a sound state sound.
pub fn steps_keep_soundness(setup: &Setup, seat: Seat, event: &Event)
    ensures { (s : State) → IsSound setup.now s → IsSound setup.now (step setup.now seat event.now s).state }
{}

/// The state after every history of a valid setup is sound, whether the history is legal or not.
pub fn states_are_sound(setup: &Setup, entries: &[Entry])
    requires { IsValid setup.now }
    ensures { IsSound setup.now (state_after setup.now entries.now) }
{}

/// An event whose reply makes no entry changes nothing, whatever the state.
pub fn no_entry_no_change(setup: &Setup, seat: Seat, event: &Event)
    ensures { (s : State) → makes_entry (step setup.now seat event.now s).reply ≡ false → (step setup.now seat event.now s).state ≡ s }
{}

/// A thread that begins has one of the setup's programs.
pub fn begins_name_programs(setup: &Setup, entries: &[Entry], seat: Seat, event: &Event)
    requires { IsValid setup.now }
    ensures { (t program arg : ℕ) → (step setup.now seat event.now (state_after setup.now entries.now)).reply ≡ Begin t program arg
        → IsBetween 1 setup.now.programs program }
{}
