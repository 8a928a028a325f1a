//! A request that is refused changes nothing.

ghost use Rattle.p9_word.specs.declared.setup.Setup.{Setup};
ghost use Rattle.p9_manual.specs.State.{State};
ghost use Rattle.p9_laws.specs.Refusals.{RefusalsLeave};

/// Where a request is answered Bad or Minus the number of entries grows by one, and nothing else changes.
pub fn refusals_change_nothing()
    ensures { (setup : Setup) (s : State) → RefusalsLeave setup s }
{}
