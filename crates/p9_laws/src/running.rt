//! What the runner of a machine's threads and the server of its ioprocs rest on, in each legal history of a setup.

ghost use Rattle.std.specs.Prelude.{List};
ghost use Rattle.p9_word.specs.declared.setup.Setup.{Setup};
ghost use Rattle.p9_word.specs.declared.trail.Entry.{Entry};
ghost use Rattle.p9_manual.specs.History.{IsLegal};
ghost use Rattle.p9_laws.specs.RunReplies.{RunningLive, TurnReplies, TurnsRun, CallReplies, AnsweredRunOn, OverStays};
ghost use Rattle.p9_laws.specs.RunReplies.{GrownLegal, LivesGo, ProgramsGo};
ghost use Rattle.p9_laws.specs.IoReplies.{TakeReplies, DidReplies, TakenBegun, FittingNoted, TakenNoted, BegunStays};
ghost use Rattle.p9_laws.specs.IoReplies.{HasShortCalls, FitsAgree};

/// An event keeps a legal history legal, with the entry that it makes if it makes one.
pub fn events_keep_legal()
    ensures { (setup : Setup) (entries : List Entry) → GrownLegal setup entries }
{}

/// One more entry does to a thread's life what it says.
pub fn lives_go_on()
    ensures { (entries : List Entry) → LivesGo entries }
{}

/// A history that runs the programs does so with one more entry, if what it asks is what the thread's program asks.
pub fn programs_go_on()
    ensures { (entries : List Entry) → ProgramsGo entries }
{}

/// A thread that runs lives.
pub fn running_threads_live()
    ensures { (setup : Setup) (entries : List Entry) → RunningLive setup entries }
{}

/// A new thread alone begins, with one of the setup's programs, and one that lives alone goes on.
pub fn turns_go_to_living_threads()
    ensures { (setup : Setup) (entries : List Entry) → TurnReplies setup entries }
{}

/// The thread that has the turn of a proc runs there.
pub fn turns_make_run()
    ensures { (setup : Setup) (entries : List Entry) → TurnsRun setup entries }
{}

/// A call of a thread that runs is answered at once or later, or ends the thread.
pub fn running_calls_are_served()
    ensures { (setup : Setup) (entries : List Entry) → CallReplies setup entries }
{}

/// A thread whose call is answered at once runs on.
pub fn answered_threads_run_on()
    ensures { (setup : Setup) (entries : List Entry) → AnsweredRunOn setup entries }
{}

/// A proc whose turns are over stays so.
pub fn over_stays_over()
    ensures { (setup : Setup) (entries : List Entry) → OverStays setup entries }
{}

/// An ioproc that asks for its call takes the one that is posted there, or none.
pub fn posted_calls_are_taken()
    ensures { (setup : Setup) (entries : List Entry) → TakeReplies setup entries }
{}

/// An effect that is told is noted, or stray.
pub fn effects_are_noted_or_stray()
    ensures { (setup : Setup) (entries : List Entry) → DidReplies setup entries }
{}

/// A call that is taken is begun.
pub fn taken_calls_are_begun()
    ensures { (setup : Setup) (entries : List Entry) → TakenBegun setup entries }
{}

/// An effect that fits a begun call is noted.
pub fn fitting_effects_are_noted()
    ensures { (setup : Setup) (entries : List Entry) → FittingNoted setup entries }
{}

/// Right after a call is taken, an effect that fits it is noted.
pub fn effects_of_taken_calls_are_noted()
    ensures { (setup : Setup) (entries : List Entry) → TakenNoted setup entries }
{}

/// A begun call stays begun until an effect is told at its ioproc.
pub fn begun_calls_stay()
    ensures { (setup : Setup) (entries : List Entry) → BegunStays setup entries }
{}

/// The message of a call that is posted, taken or begun has less than 2 ^ 32 bytes.
pub fn calls_are_short()
    ensures { (setup : Setup) (entries : List Entry) → IsLegal setup entries → HasShortCalls setup entries }
{}

/// The test of whether an effect fits a call tells what fits.
pub fn fits_is_tested()
    ensures { FitsAgree }
{}
