//! What threads are told of the values that move on channels, in each legal history of a valid setup: each receipt is of a
//! value that moved, there is one receipt of it at most, and no value that was told sent is lost. All of it is said of the
//! entry whose number is told: of send and recv, and their kin, it is the only one.

ghost use Rattle.std.specs.Prelude.{List};
ghost use Rattle.p9_word.specs.Setup.{IsValid};
ghost use Rattle.p9_word.specs.declared.setup.Setup.{Setup};
ghost use Rattle.p9_word.specs.declared.trail.Entry.{Entry};
ghost use Rattle.p9_manual.specs.History.{IsLegal};
ghost use Rattle.p9_laws.specs.Receipts.{ReceiptsMoved, ReceiptsOnce};
ghost use Rattle.p9_laws.specs.ToldSent.{SendsKept};

/// Each receipt is of a value that moved to the thread that is told it, on the channel on which the entry that is told
/// receives; the bytes are the value's where that entry keeps them, and none where it discards them.
pub fn each_receipt_is_of_a_value_that_moved()
    ensures { (setup : Setup) (entries : List Entry) → IsValid setup → IsLegal setup entries → ReceiptsMoved setup entries }
{}

/// There are no two receipts of one value.
pub fn no_value_is_received_twice()
    ensures { (setup : Setup) (entries : List Entry) → IsValid setup → IsLegal setup entries → ReceiptsOnce setup entries }
{}

/// Where a thread is told that its value was sent, the entry that is told of its last call sends these bytes on a channel,
/// and this value has left that channel or is among that channel's elements: once, and not both.
pub fn values_told_sent_moved_or_are_held()
    ensures { (setup : Setup) (entries : List Entry) → IsValid setup → IsLegal setup entries → SendsKept setup entries }
{}
