//! What tells the end of a run, in each legal history of a setup.

ghost use Rattle.std.specs.Prelude.{List};
ghost use Rattle.p9_word.specs.declared.setup.Setup.{Setup};
ghost use Rattle.p9_word.specs.declared.trail.Entry.{Entry};
ghost use Rattle.p9_laws.specs.Ending.{EndsOver};

/// Where the turns of each proc place are over, the last entry is Stuck or no thread lives.
pub fn runs_end()
    ensures { (setup : Setup) (entries : List Entry) → EndsOver setup entries }
{}
