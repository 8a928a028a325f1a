use crate::sched::Sched;
use p9_manual::Gone;
use p9_word::Tid;

/// The threads of a proc, as a set of threads that end.
#[derive(Clone, Copy)]
pub struct OfProc<'a> {
    /// The threads and procs of the run.
    pub sched: &'a Sched,
    /// The number of the proc. One that isn't there has no threads.
    pub proc_no: u32,
}

impl<'a> Gone for OfProc<'a> {
    ghost use Rattle.p9_manual.specs.Places.{is_of};
    ghost use Rattle.p9_manual.specs.State.{by_id};

    ghost ends = { λ x t. is_of x.proc_no (by_id x.sched.now.threads t) };

    fn has(&self, t: Tid) -> bool {
        self.sched.is_of(t, self.proc_no)
    }
}
