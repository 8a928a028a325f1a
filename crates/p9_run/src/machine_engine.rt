ghost use Rattle.std.specs.Prelude.{◌≡◌, false, IfOk, OnErr};
ghost use Rattle.p9_manual.specs.History.{IsLegal, with_entry};
ghost use Rattle.p9_laws.specs.RunReplies.{reply_at};
ghost use Rattle.p9_run.specs.Over.{StaysOver};
ghost use Rattle.p9_machine.specs.Shown.{rooms_after};

use crate::engine::Engine;
use p9_laws::running::{
    fitting_effects_are_noted, over_stays_over, posted_calls_are_taken, running_threads_live,
    taken_calls_are_begun, turns_go_to_living_threads,
};
use p9_machine::Machine;
use p9_word::{Effect, Event, IoCall, NoMemory, Reply, Request, Room, Seat, Tid, Trail};

/// A machine that was not halted.
#[derive(Drop)]
pub(crate) struct RunningMachine {
    machine: Machine,
    ghost running: { machine.halted ≡ false },
}

impl RunningMachine {
    ghost use Rattle.p9_manual.specs.History.{IsLegal};

    /// A machine that is run by rounds. They never halt it.
    pub(crate) fn new(machine: Machine) -> RunningMachine
        requires { machine.halted ≡ false }
        ensures { result.machine ≡ machine }
    {
        RunningMachine { machine }
    }

    /// All that happened, of a machine that is done with.
    pub(crate) fn into_trail(self) -> Trail
        ensures entries { result.entries.items ≡ self.machine.entries }
        ensures procs { result.procs ≡ self.machine.setup.procs }
        ensures start { result.start ≡ self.machine.setup.start }
        ensures legal { IsLegal self.machine.setup self.machine.entries }
    {
        let RunningMachine { machine } = self;
        machine.into_trail()
    }
}

/// One event, for which memory is taken first. It is inlined so that each kind of event is compiled by itself: the hint is dropped
/// where the steps that are inlined here grow large, and then an event costs half as much again.
#[inline(always)]
fn one_event(machine: &mut Machine, seat: Seat, event: Event) -> Result<Reply, NoMemory>
    requires running { machine.old.halted ≡ false }
    ensures running { machine.new.halted ≡ false }
    ensures setup { machine.new.setup ≡ machine.old.setup }
    ensures legal { IsLegal machine.old.setup machine.old.entries }
    ensures reply { IfOk result (λ r. r ≡ reply_at machine.old.setup machine.old.entries seat event) }
    ensures entries { IfOk result (λ r. machine.new.entries ≡ with_entry machine.old.entries seat event r) }
    ensures rooms { IfOk result (λ r. machine.new.rooms ≡ rooms_after seat r machine.old.rooms) }
    ensures refused { OnErr result (machine.new.entries ≡ machine.old.entries) }
    ensures over { StaysOver (reply_at machine.old.setup machine.old.entries) (reply_at machine.new.setup machine.new.entries) }
{
    over_stays_over();
    machine.trail();
    machine.reserve(seat, &event)?;
    Ok(machine.apply(seat, event))
}

impl Engine for RunningMachine {
    ghost setup = { λ m. m.machine.setup };

    ghost entries = { λ m. m.machine.entries };

    fn next(&mut self, p: u32) -> Result<Reply, NoMemory> {
        turns_go_to_living_threads();
        one_event(&mut self.machine, Seat::Proc(p), Event::Next)
    }

    fn call(&mut self, p: u32, t: Tid, request: Request) -> Result<Reply, NoMemory> {
        running_threads_live();
        one_event(&mut self.machine, Seat::Proc(p), Event::Call(t, request))
    }

    fn take(&mut self, k: u32) -> Result<Option<(IoCall, Room<u8>)>, NoMemory> {
        posted_calls_are_taken();
        taken_calls_are_begun();
        self.machine.files();
        match one_event(&mut self.machine, Seat::Io(k), Event::IoTake)? {
            Reply::Took(call) => {
                let room = self.machine.room(k);
                Ok(Some((call, room)))
            }
            _ => Ok(None),
        }
    }

    fn did(&mut self, k: u32, effect: Effect) {
        fitting_effects_are_noted();
        self.machine.apply(Seat::Io(k), Event::IoDid(effect));
    }
}
