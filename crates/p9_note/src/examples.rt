//! Notes, worked out as laws of the definitions.
ghost use Rattle.p9_note.specs.Examples.{CaughtInOrder, FirstCatches, UncaughtKills};

/// Two notes that one handler catches are caught in the order in which they were posted, each once.
pub fn notes_are_caught_in_order()
    ensures { CaughtInOrder }
{}

/// A note that begins with no handler's prefix kills.
pub fn an_uncaught_note_kills()
    ensures { UncaughtKills }
{}

/// The first handler whose prefix begins the note catches it, until it is removed.
pub fn the_first_handler_catches()
    ensures { FirstCatches }
{}
