ghost use Rattle.std.specs.Prelude.{◌≡◌, ◌++◌, ◌∷◌, [], List, IfOk, OnErr, true};
ghost use Rattle.p9_word.specs.Setup.{IsValid};
ghost use Rattle.p9_word.specs.declared.setup.Setup.{Setup};
ghost use Rattle.p9_word.specs.declared.trail.Entry.{Entry};
ghost use Rattle.p9_word.specs.declared.trail.Event.TheVariants.{Next, Call};
ghost use Rattle.p9_word.specs.declared.trail.Seat.TheVariants.{Proc};
ghost use Rattle.p9_manual.specs.History.{with_entry};
ghost use Rattle.p9_laws.specs.IoReplies.{ioproc_after};
ghost use Rattle.p9_manual.specs.Programs.{life};
ghost use Rattle.p9_manual.specs.Step.{makes_entry};
ghost use Rattle.p9_laws.specs.RunReplies.{reply_at, IsLiving, IsNextReply};
ghost use Rattle.p9_run.specs.Over.{StaysOver};
ghost use Rattle.p9_run.specs.Takes.{TakesAt, MayTell, noted};

use p9_word::{Effect, IoCall, NoMemory, Reply, Request, Room, Tid};

/// A machine, as the rounds see it: what it started from, and all that happened. Where memory is wanted
/// nothing has happened.
pub(crate) trait Engine {
    /// What it started from. No event changes it.
    ghost setup: { Self → Setup };

    /// All that happened, in order.
    ghost entries: { Self → List Entry };

    /// Proc `p` asks which thread is to run.
    fn next(&mut self, p: u32) -> Result<Reply, NoMemory>
        requires valid { IsValid (setup self.old) }
        ensures setup { setup self.new ≡ setup self.old }
        ensures reply { IfOk result (λ r. r ≡ reply_at (setup self.old) (entries self.old) (Proc p) Next) }
        ensures entries { IfOk result (λ r. entries self.new ≡ with_entry (entries self.old) (Proc p) Next r) }
        ensures refused { OnErr result (entries self.new ≡ entries self.old) }
        ensures may { IfOk result (λ r. IsNextReply (λ t. life t (entries self.old)) (setup self.old).programs r) }
        ensures over { StaysOver (reply_at (setup self.old) (entries self.old)) (reply_at (setup self.new) (entries self.new)) };

    /// Thread `t` makes a request in proc `p`. Nothing happens where it doesn't run there.
    fn call(&mut self, p: u32, t: Tid, request: Request) -> Result<Reply, NoMemory>
        ensures setup { setup self.new ≡ setup self.old }
        ensures entries { IfOk result (λ r. entries self.new ≡ with_entry (entries self.old) (Proc p) (Call t request) r) }
        ensures refused { OnErr result (entries self.new ≡ entries self.old) }
        ensures living { IfOk result (λ r. makes_entry r ≡ true → IsLiving (life t (entries self.old))) }
        ensures over { StaysOver (reply_at (setup self.old) (entries self.old)) (reply_at (setup self.new) (entries self.new)) };

    /// Ioproc `k` asks for its call, and gets room for what a read gives. It is `None` where no call is
    /// posted there, or the run is at its end.
    fn take(&mut self, k: u32) -> Result<Option<(IoCall, Room<u8>)>, NoMemory>
        ensures setup { setup self.new ≡ setup self.old }
        ensures call { IfOk result (λ o. TakesAt (setup self.new) k (entries self.old) o (entries self.new)) }
        ensures refused { OnErr result (entries self.new ≡ entries self.old) };

    /// Ioproc `k` tells what its call came to. All memory for it was taken with the call.
    fn did(&mut self, k: u32, effect: Effect)
        requires { MayTell (ioproc_after (setup self.old) (entries self.old) k) effect }
        ensures setup { setup self.new ≡ setup self.old }
        ensures entries { entries self.new ≡ entries self.old ++ noted k effect ∷ [] };
}
