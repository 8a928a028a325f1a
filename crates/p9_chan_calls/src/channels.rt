ghost use Rattle.std.specs.Prelude.{◌≡◌, ℕ, Some, false, count_by};
ghost use Rattle.p9_manual.specs.Chans.{create_channel, is_no_size};
ghost use Rattle.p9_manual.specs.Close.{free, closing};
ghost use Rattle.p9_manual.specs.AltEntries.{waits_on};
ghost use Rattle.p9_manual.specs.ReadyEntries.{unfreed};
ghost use Rattle.p9_manual.specs.State.{by_id};
ghost use Rattle.rand_pcg.specs.Lcg.{Lcg};
ghost use Rattle.p9_sched.specs.Messages.{IsBare};
ghost use Rattle.p9_chan_calls.specs.For.{Stands};
ghost use Rattle.p9_chan_calls.specs.Serves.{ServesAlone, ServesClose};
ghost use Rattle.p9_chan_calls.specs.Spares.{IsRoomFor};

use crate::memory::Spare;
use crate::wakes::wake_all;
use p9_alt::Alts;
use p9_sched::Sched;
use p9_word::limits::{MOST_ELEMENT_BYTES, MOST_ELEMENTS};
use p9_word::{Answer, Reply};

/// Whether a channel can't have this capacity and element size.
pub(crate) fn is_no_size(cap: u32, elsize: u32) -> bool
    ensures { result ≡ is_no_size cap elsize }
{
    cap > MOST_ELEMENTS || elsize == 0 || elsize > MOST_ELEMENT_BYTES
}

/// Makes a channel. There is memory for it.
pub(crate) fn create(alts: &mut Alts, cap: u32, elsize: u32) -> Reply
    requires { is_no_size cap elsize ≡ false → alts.old.channels.room ≡ Some cap }
    ensures serves { ServesAlone (create_channel cap elsize) result alts.old alts.new }
    ensures bare { IsBare result }
{
    if is_no_size(cap, elsize) {
        return Reply::Now(Answer::Bad);
    }
    match alts.chans_mut().make(cap, elsize) {
        None => Reply::Now(Answer::Minus),
        Some(id) => Reply::Now(Answer::Number(u64::from(id))),
    }
}

/// Frees a channel. Its elements go at once, since no request can reach them any more.
pub(crate) fn free(alts: &mut Alts, c: u32) -> Reply
    ensures serves { ServesAlone (λ s. free c s (unfreed (by_id s.chans c))) result alts.old alts.new }
    ensures bare { IsBare result }
{
    if !alts.chans().is_live(c) {
        return Reply::Now(Answer::Bad);
    }
    alts.free(c);
    Reply::Now(Answer::Done)
}

/// How many elements are left on a closed channel.
pub(crate) fn closing(alts: &Alts, c: u32) -> Reply
    ensures serves { ServesAlone (λ s. closing s (unfreed (by_id s.chans c))) result alts.now alts.now }
    ensures bare { IsBare result }
{
    if !alts.chans().is_live(c) {
        return Reply::Now(Answer::Bad);
    }
    match alts.chans().closing(c) {
        Some(left) => Reply::Now(Answer::Number(left)),
        None => Reply::Now(Answer::Minus),
    }
}

/// Closes a channel. Each thread that waits on it becomes ready. There is room for them.
pub(crate) fn close(sched: &mut Sched, alts: &mut Alts, c: u32, spare: &mut Spare) -> Reply
    requires stands { (at : ℕ) × (generator : Lcg) × Stands at sched.old alts.old generator }
    requires room { IsRoomFor (count_by (waits_on c) alts.old.waits) spare.old }
    ensures serves { ServesClose c sched.old alts.old result sched.new alts.new }
    ensures bare { IsBare result }
{
    if !alts.chans().is_live(c) {
        return Reply::Now(Answer::Bad);
    }
    let Spare::Wakes(wakes) = spare else {
        unreachable!()
    };
    if !alts.close(c, wakes) {
        return Reply::Now(Answer::Number(0));
    }
    wake_all(sched, wakes.as_slice());
    Reply::Now(Answer::Number(1))
}
