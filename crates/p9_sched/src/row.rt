use p9_manual::Place;

/// What is kept of each thread, at its id.
#[derive(Drop)]
pub(crate) struct Row {
    /// Its proc, from 1.
    pub proc_no: u32,
    /// Its program, from 1.
    pub program: u32,
    /// What its program was started with.
    pub arg: u64,
    /// Its word.
    pub word: u64,
    /// It is marked to die.
    pub marked: bool,
    /// Where it is.
    pub place: Place,
}
