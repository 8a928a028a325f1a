use crate::real::temporary::Temporary;

/// Where the bytes of a sink go.
#[derive(Drop)]
pub(crate) enum Location {
    /// To a temporary file, which has a path's contents when it is whole.
    Beside(Temporary),
    /// Over those of a regular file beside which no other can be made. What it has past them is cut off
    /// in the end.
    Over,
    /// To a device or a pipe, or to the end of what is open as a descriptor. Nothing is cut off.
    On,
}
