//! What can happen in a state that is stuck, and in one that isn't.

ghost use Rattle.std.specs.Prelude.{List};
ghost use Rattle.p9_word.specs.declared.setup.Setup.{Setup};
ghost use Rattle.p9_word.specs.declared.trail.Entry.{Entry};
ghost use Rattle.p9_manual.specs.State.{State};
ghost use Rattle.p9_laws.specs.StuckReplies.{StuckAlone, StuckCause, StuckTold, UnstuckMoves, LinedAfter, StuckExactly, LegalMoves};

/// In a stuck state no event makes an entry but one that is told Stuck.
pub fn stuck_moves_by_stuck_alone()
    ensures { (setup : Setup) (s : State) → StuckAlone setup s }
{}

/// A proc is told Stuck only where it is one of the places, isn't over, and the state is stuck.
pub fn stuck_has_its_cause()
    ensures { (setup : Setup) (s : State) → StuckCause setup s }
{}

/// There it is told Stuck, if the line has exactly the ready threads, and no note is pending where no thread lives.
pub fn stuck_is_told()
    ensures { (setup : Setup) (s : State) → StuckTold setup s }
{}

/// Where a thread lives, the run isn't at its end and the state isn't stuck, some event makes an entry that isn't
/// Stuck, if the line has exactly the ready threads, and no note is pending where no thread lives.
pub fn unstuck_moves()
    ensures { (setup : Setup) (s : State) → UnstuckMoves setup s }
{}

/// After each legal history of a valid setup the line has exactly the ready threads, and no note is pending where no thread lives.
pub fn lines_have_the_ready()
    ensures { (setup : Setup) (entries : List Entry) → LinedAfter setup entries }
{}

/// After such a history a proc is told Stuck exactly where it is one of the places, isn't over, and the state is stuck.
pub fn stuck_is_told_exactly()
    ensures { (setup : Setup) (entries : List Entry) → StuckExactly setup entries }
{}

/// After such a history, where a thread lives, the run isn't at its end and the state isn't stuck, some event makes an
/// entry that isn't Stuck.
pub fn legal_runs_move()
    ensures { (setup : Setup) (entries : List Entry) → LegalMoves setup entries }
{}
