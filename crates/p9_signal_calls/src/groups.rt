ghost use Rattle.std.specs.Prelude.{List};
ghost use Rattle.p9_manual.specs.Interrupt.{signal_group};
ghost use Rattle.p9_note.specs.ProcNotes.{ProcNotes};
ghost use Rattle.p9_sched.specs.Messages.{IsBare};
ghost use Rattle.p9_signal_calls.specs.Affects.{effect};
ghost use Rattle.p9_signal_calls.specs.Serves.{ServesAll};

use crate::interrupts::{Signal, act_on};
use p9_alt::Alts;
use p9_lock::Locks;
use p9_sched::Sched;
use p9_word::{Answer, Reply};

/// Threadintgrp and threadkillgrp: each living thread of the group is interrupted, or killed, by rising id. The caller is told how many
/// waits that ended.
pub(crate) fn signal_group(
    sched: &mut Sched,
    alts: &mut Alts,
    locks: &mut Locks,
    signal: Signal,
    group: u32,
) -> Reply
    ensures serves { (notes : List ProcNotes) → ServesAll (signal_group (effect signal) group)
        sched.old alts.old locks.old notes result sched.new alts.new locks.new notes }
    ensures bare { IsBare result }
{
    let mut count = 0;
    let mut last = 0;
    while let Some(t) = sched.member_after(group, last) {
        count += act_on(sched, alts, locks, signal, t);
        last = t;
    }
    Reply::Now(Answer::Number(u64::from(count)))
}
