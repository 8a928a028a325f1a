ghost use Rattle.std.specs.Prelude.{◌≡◌};
ghost use Rattle.p9_manual.specs.Signals.{signal_call};
ghost use Rattle.p9_manual.specs.State.{by_id};
ghost use Rattle.p9_sched.specs.Messages.{IsBare};
ghost use Rattle.p9_sched.specs.Turns.{place_of};
ghost use Rattle.p9_signal_calls.specs.Memory.{HasMemory};
ghost use Rattle.p9_signal_calls.specs.Serves.{ServesAll, Stands};

use crate::groups::signal_group;
use crate::interrupts::{Signal, signal_thread};
use crate::notes::{notify, post};
use p9_alt::Alts;
use p9_lock::Locks;
use p9_note::Notes;
use p9_sched::{Place, Sched};
use p9_word::{Reply, SignalReq, Tid};

/// A request of thread t, which runs. There is memory for it, by [`reserve`](crate::reserve).
pub fn call(
    sched: &mut Sched,
    alts: &mut Alts,
    locks: &mut Locks,
    notes: &mut Notes,
    t: Tid,
    request: SignalReq,
) -> Reply
    requires parts { Stands sched.old alts.old locks.old notes.old }
    requires runs { place_of (by_id sched.old.threads t) ≡ Place.Running }
    requires memory { HasMemory request t sched.old notes.old }
    ensures serves { ServesAll (signal_call t request)
        sched.old alts.old locks.old notes.old result sched.new alts.new locks.new notes.new }
    ensures bare { IsBare result }
{
    match request {
        SignalReq::ThreadInt { tid } => signal_thread(sched, alts, locks, Signal::Interrupt, tid),
        SignalReq::ThreadKill { tid } => signal_thread(sched, alts, locks, Signal::Kill, tid),
        SignalReq::ThreadIntGrp { group } => signal_group(
            sched,
            alts,
            locks,
            Signal::Interrupt,
            group,
        ),
        SignalReq::ThreadKillGrp { group } => signal_group(sched, alts, locks, Signal::Kill, group),
        SignalReq::ThreadNotify { on, id, prefix } => notify(sched, notes, t, on, id, prefix),
        SignalReq::PostNote { proc_no, note } => post(sched, alts, locks, notes, proc_no, note),
    }
}
