use p9_word::Msg;

/// What became of the oldest pending note of a proc. notify(2).
#[derive(Drop)]
pub enum Delivered {
    /// No note was pending.
    Quiet,
    /// The handler with this id caught it: the first whose prefix begins the note.
    Caught(u32),
    /// The prefix of no handler begins this note: it kills the proc.
    Died(Msg),
}
