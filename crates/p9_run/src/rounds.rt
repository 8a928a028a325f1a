ghost use Rattle.std.specs.Prelude.{◌≡◌, ◌<◌, ◌^◌, ◌+◌, length, OnOk, OnErr, Ok, true};
ghost use Rattle.p9_manual.specs.Programs.{RunsPrograms};
ghost use Rattle.p9_word.specs.Setup.{IsValid};
ghost use Rattle.p9_laws.specs.RunReplies.{reply_at};
ghost use Rattle.p9_run.specs.Over.{AllOver};
ghost use Rattle.p9_run.specs.Services.{AllServeOn};
ghost use Rattle.p9_run.specs.Stands.{IsBetween};
ghost use Rattle.p9_run.specs.Untouched.{TouchesNoFile, TouchesNoThread};

use crate::bodies::Bodies;
use crate::engine::Engine;
use crate::io_turn::io_turn;
use crate::proc_turn::proc_turn;
use p9_outside::Device;
use p9_word::{NoMemory, Programs};
use std::mem;
use std::sync::Wait;

/// One turn of each ioproc, if they may have a call. The first device serves ioproc 1, and the others those after it.
fn io_turns<E: Engine, D: Device>(
    engine: &mut E,
    devices: &mut [D],
    may_have_calls: bool,
) -> Result<(), NoMemory>
    requires { length devices.old + 1 < 2 ^ 32 }
    ensures setup { E.setup engine.new ≡ E.setup engine.old }
    ensures threads { TouchesNoThread (E.entries engine.old) (E.entries engine.new) }
    ensures devices { AllServeOn D.serves (E.entries engine.old) devices.old (E.entries engine.new) devices.new }
{
    if !may_have_calls {
        return Ok(());
    }
    let mut k = 1;
    for device in devices.iter_mut() {
        io_turn(engine, k, device)?;
        k += 1;
    }
    Ok(())
}

/// One turn of each proc, from 1 to `procs`. It tells whether all of them are over.
fn proc_turns<E: Engine, P: Programs>(
    engine: &mut E,
    programs: &P,
    bodies: &mut Bodies<P::B>,
    procs: u32,
) -> Result<bool, NoMemory>
    requires valid { IsValid (E.setup engine.old) }
    requires programs { P.programs programs.now ≡ (E.setup engine.old).programs }
    requires between { IsBetween (P.asks programs.now) P.B.plan P.B.stands_for (E.entries engine.old) bodies.old }
    ensures setup { E.setup engine.new ≡ E.setup engine.old }
    ensures ok { OnOk result (IsBetween (P.asks programs.now) P.B.plan P.B.stands_for (E.entries engine.new) bodies.new) }
    ensures refused { OnErr result (RunsPrograms (P.asks programs.now) (E.entries engine.new)) }
    ensures all_over { result ≡ Ok true → AllOver procs (reply_at (E.setup engine.new) (E.entries engine.new)) }
    ensures files { TouchesNoFile (E.entries engine.old) (E.entries engine.new) }
{
    let mut all_over = true;
    for i in 0..procs {
        let is_over = proc_turn(engine, programs, bodies, i + 1)?;
        all_over &= is_over;
    }
    Ok(all_over)
}

/// Gives each proc and then each ioproc that may have a call a turn, round after round, until all procs are over.
///
/// Where memory is wanted it stops. Then too the calls are those of the programs, each device has served
/// the calls taken at its ioproc, and no call is left begun.
pub(crate) fn run_rounds<R: Wait, E: Engine, P: Programs, D: Device>(
    rt: &R,
    engine: &mut E,
    programs: &P,
    bodies: &mut Bodies<P::B>,
    devices: &mut [D],
    procs: u32,
) -> Result<(), NoMemory>
    requires valid { IsValid (E.setup engine.old) }
    requires programs { P.programs programs.now ≡ (E.setup engine.old).programs }
    requires between { IsBetween (P.asks programs.now) P.B.plan P.B.stands_for (E.entries engine.old) bodies.old }
    requires devices { length devices.old + 1 < 2 ^ 32 }
    ensures setup { E.setup engine.new ≡ E.setup engine.old }
    ensures all_over { OnOk result (AllOver procs (reply_at (E.setup engine.new) (E.entries engine.new))) }
    ensures runs { RunsPrograms (P.asks programs.now) (E.entries engine.new) }
    ensures devices { AllServeOn D.serves (E.entries engine.old) devices.old (E.entries engine.new) devices.new }
{
    for _ in rt.forever() {
        let all_over = proc_turns(engine, programs, bodies, procs)?;
        if all_over {
            return Ok(());
        }
        let may_have_calls = mem::replace(&mut bodies.asks_ioprocs, false);
        io_turns(engine, devices, may_have_calls)?;
    }
    unreachable!()
}
