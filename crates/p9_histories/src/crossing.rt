use p9_machine::Machine;
use p9_word::{Event, Reply, Setup, Trail};

/// Needs a type whose values may be sent to other threads and shared among them.
fn crosses<T: Send + Sync + Drop>() {}

/// A machine, and what goes into it and comes out of it, may cross threads; else this program isn't built.
pub(crate) fn all_cross() {
    crosses::<Machine>();
    crosses::<Setup>();
    crosses::<Event>();
    crosses::<Reply>();
    crosses::<Trail>();
}
