//! The limits of a text, each once, beside those of a run in `p9_word`.

/// The most further proc places.
pub const MOST_LATER: u64 = 63;

/// The most progs.
pub const MOST_PROGS: usize = 1_024;

/// The most blocks around an instruction.
pub const MOST_DEPTH: u32 = 16;

/// The most turns of a loop, and the most messages that the stages `first` and `last` keep.
pub const MOST_TURNS: u64 = 1_000_000_000;

/// The greatest number of a field.
pub const MOST_FIELD: u64 = 1_000_000;

/// The bytes of an element where a text doesn't say.
pub const USUAL_ELEMENT_BYTES: u32 = 8_192;
