/// How an ioproc stands. ioproc(2).
#[derive(Clone, Copy, Debug, PartialEq, Eq)]
pub enum IoState {
    /// It is not made yet, or there is none with its number.
    Unmade,
    /// It has no call.
    Idle,
    /// It has a call that has not begun.
    Posted,
    /// Its call has begun.
    Begun,
    /// It is closed.
    Closed,
}
