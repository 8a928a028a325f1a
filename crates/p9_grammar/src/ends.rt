/// Which ends of a channel are used by the stages so far.
#[derive(Clone, Copy, Debug, PartialEq, Eq)]
pub struct ChanEnds {
    /// The line that declares the channel, from 1.
    pub line: u32,
    /// Whether a stage sends on it.
    pub written: bool,
    /// Whether a stage receives on it.
    pub read: bool,
}
