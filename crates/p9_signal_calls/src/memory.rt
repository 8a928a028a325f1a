ghost use Rattle.std.specs.Prelude.{OnOk};
ghost use Rattle.p9_note.specs.For.{Tracks};
ghost use Rattle.p9_signal_calls.specs.Memory.{HasMemory, HasRoom};

use p9_note::Notes;
use p9_sched::Sched;
use p9_word::{NoMemory, SignalReq, Tid};

/// Takes the memory for one more handler and one more note of proc p, if that is one. A refusal changes nothing.
fn room_at(notes: &mut Notes, p: u32) -> Result<(), NoMemory>
    ensures stands { Tracks (λ s. s) notes.old notes.new }
    ensures memory { OnOk result (HasRoom p notes.new) }
{
    if notes.is_place(p) {
        notes.reserve(p)
    } else {
        Ok(())
    }
}

/// Takes the memory that a request of thread t needs: room for one more handler and one more note at the proc where it comes. A refusal
/// changes nothing.
pub fn reserve(
    sched: &Sched,
    notes: &mut Notes,
    t: Tid,
    request: &SignalReq,
) -> Result<(), NoMemory>
    ensures stands { Tracks (λ s. s) notes.old notes.new }
    ensures memory { OnOk result (HasMemory request.now t sched.now notes.new) }
{
    match request {
        SignalReq::ThreadNotify { .. } if sched.is_made(t) => room_at(notes, sched.proc_of(t)),
        SignalReq::PostNote { proc_no, .. } => room_at(notes, *proc_no),
        _ => Ok(()),
    }
}
