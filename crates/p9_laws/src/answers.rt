//! Which entry gave a thread the answer that it is told at its turn, in each legal history of a valid setup, and what may give
//! which answers.

ghost use Rattle.std.specs.Prelude.{List};
ghost use Rattle.p9_word.specs.Setup.{IsValid};
ghost use Rattle.p9_word.specs.declared.setup.Setup.{Setup};
ghost use Rattle.p9_word.specs.declared.trail.Entry.{Entry};
ghost use Rattle.p9_manual.specs.History.{IsLegal};
ghost use Rattle.p9_manual.specs.Sound.{IsSound};
ghost use Rattle.p9_manual.specs.State.{State};
ghost use Rattle.p9_laws.specs.Given.{AnswersGiven};
ghost use Rattle.p9_laws.specs.Causes.{InterruptsCaused, TurnsTellLater};
ghost use Rattle.p9_laws.specs.AltCauses.{NoBlocksExactly, NoBlocksCaused};
ghost use Rattle.p9_laws.specs.ClosedCauses.{ClosedExactly, ClosedTold};

/// Each answer that a thread is told at its turn was given by an entry since its last call: by that call itself, or by a later
/// entry until which it waited.
pub fn each_answer_was_given()
    ensures { (setup : Setup) (entries : List Entry) → IsValid setup → IsLegal setup entries → AnswersGiven setup entries }
{}

/// A thread that is told Interrupted waited until a call that can interrupt threads was answered, which gave it that answer: an
/// interrupt or a kill, of one thread or of a group, a note, or the end of a wait for an ioproc's call.
pub fn interrupts_have_their_cause()
    ensures { (setup : Setup) (entries : List Entry) → IsValid setup → IsLegal setup entries → InterruptsCaused setup entries }
{}

/// No turn tells Bad, Minus, the number 0 or a text: these come at once, as the answer of the caller's own request.
pub fn refusals_come_at_once()
    ensures { (setup : Setup) (entries : List Entry) → IsValid setup → IsLegal setup entries → TurnsTellLater entries }
{}

/// Just an alt that doesn't block and finds no entry ready gives NoBlock, to its caller.
pub fn just_an_alt_that_finds_none_is_told_so()
    ensures { (setup : Setup) (s : State) → IsSound setup s → NoBlocksExactly setup s }
{}

/// A thread that is told NoBlock at its turn was given that answer by its last call, which was such an alt.
pub fn no_blocks_have_their_cause()
    ensures { (setup : Setup) (entries : List Entry) → IsValid setup → IsLegal setup entries → NoBlocksCaused setup entries }
{}

/// Just these events give a thread Closed: its own alt, whose entries all have err set; its own send or receive on a closed
/// channel; and a close of the channel on which it waits in a send or a receive.
pub fn just_closed_channels_are_told_so()
    ensures { (setup : Setup) (s : State) → IsSound setup s → ClosedExactly setup s }
{}

/// A thread that is told Closed at its turn was given that answer by such an event.
pub fn closes_have_their_cause()
    ensures { (setup : Setup) (entries : List Entry) → IsValid setup → IsLegal setup entries → ClosedTold setup entries }
{}
