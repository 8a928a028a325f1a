ghost use Rattle.std.specs.Prelude.{◌≡◌, ◌∷◌, [], true};
ghost use Rattle.p9_manual.specs.ReadyEntries.{fits};
ghost use Rattle.p9_manual.specs.State.{by_id};
ghost use Rattle.p9_alt.specs.Exchange.{HasMemory, IsIdle};
ghost use Rattle.p9_sched.specs.Messages.{IsBare};
ghost use Rattle.p9_sched.specs.Turns.{place_of};
ghost use Rattle.p9_chan_calls.specs.For.{Stands};
ghost use Rattle.p9_chan_calls.specs.Serves.{ServesAlt, asked, draw_for};
ghost use Rattle.p9_chan_calls.specs.Spares.{HasOne};

use crate::wakes::{answer_caller, wake_one};
use p9_alt::Alts;
use p9_sched::{Place, Sched};
use p9_word::{AltEntry, Answer, Ending, Reply, Seq, Tid};
use rand_core::utils::NextWord;
use rand_pcg::Pcg32;

/// The draw by which an alt of these entries chooses, made only where there is a choice. Of one entry alone nothing is
/// looked at.
fn draw(alts: &Alts, generator: &mut Pcg32, t: Tid, entries: &Seq<AltEntry>) -> u32
    requires fits { fits alts.now.channels.chans entries.now ≡ true }
    requires idle { IsIdle t alts.now }
    ensures { (result, generator.new) ≡ draw_for alts.now.channels.chans alts.now.waits entries.now generator.old }
{
    if entries.len() < 2 || alts.ready_count(t, entries) < 2 {
        return 0;
    }
    generator.next_word()
}

/// An alt of the caller. There is memory for it.
pub(crate) fn alternate(
    sched: &mut Sched,
    alts: &mut Alts,
    generator: &mut Pcg32,
    at: u64,
    t: Tid,
    entries: Seq<AltEntry>,
    ending: Ending,
    single: bool,
) -> Reply
    requires stands { Stands at sched.old alts.old generator.old }
    requires runs { place_of (by_id sched.old.threads t) ≡ Place.Running }
    requires memory { HasMemory entries alts.old }
    ensures serves { ServesAlt t (asked entries ending single) at sched.old alts.old generator.old result sched.new alts.new generator.new }
    ensures bare { IsBare result }
{
    if !alts.fits(&entries) {
        return Reply::Now(Answer::Bad);
    }
    let drawn = draw(alts, generator, t, &entries);
    let mut woken = None;
    let offer = alts.offer(t, at, entries, ending, single, drawn, &mut woken);
    wake_one(sched, woken);
    answer_caller(sched, t, offer);
    Reply::Waits
}

/// An alt of this entry alone. There is memory for it.
pub(crate) fn one(
    sched: &mut Sched,
    alts: &mut Alts,
    generator: &mut Pcg32,
    at: u64,
    t: Tid,
    entry: AltEntry,
    ending: Ending,
) -> Reply
    requires stands { Stands at sched.old alts.old generator.old }
    requires runs { place_of (by_id sched.old.threads t) ≡ Place.Running }
    requires memory { HasOne entry alts.old }
    ensures serves { ServesAlt t (asked (entry ∷ []) ending true)
        at sched.old alts.old generator.old result sched.new alts.new generator.new }
    ensures bare { IsBare result }
{
    let entries = alts.one(entry);
    alternate(sched, alts, generator, at, t, entries, ending, true)
}
