//! One sender and one receiver: what each legal history says of the values that moved on channels.

ghost use Rattle.std.specs.Prelude.{List};
ghost use Rattle.p9_word.specs.Setup.{IsValid};
ghost use Rattle.p9_word.specs.declared.setup.Setup.{Setup};
ghost use Rattle.p9_word.specs.declared.trail.Entry.{Entry};
ghost use Rattle.p9_manual.specs.History.{IsLegal};
ghost use Rattle.p9_laws.specs.Moves.{PositionsRise, MovesOnce};
ghost use Rattle.p9_laws.specs.Senders.{MovesSent};
ghost use Rattle.p9_laws.specs.Communications.{OneToOne};

/// On each channel values move in the order of the calls that sent them.
pub fn values_move_in_the_order_of_their_calls()
    ensures { (setup : Setup) (entries : List Entry) → IsValid setup → IsLegal setup entries → PositionsRise setup entries }
{}

/// No call's value moves twice.
pub fn no_value_moves_twice()
    ensures { (setup : Setup) (entries : List Entry) → IsValid setup → IsLegal setup entries → MovesOnce setup entries }
{}

/// Each value that moves was sent on that channel, with its bytes, by the call at its position.
pub fn each_value_was_sent_by_its_call()
    ensures { (setup : Setup) (entries : List Entry) → IsValid setup → IsLegal setup entries → MovesSent setup entries }
{}

/// One sender and one receiver, whole: the three laws above, and the three of `receipts` on what threads are told.
pub fn each_value_has_one_sender_and_one_receiver()
    ensures { (setup : Setup) (entries : List Entry) → IsValid setup → IsLegal setup entries → OneToOne setup entries }
{}
