ghost use Rattle.std.specs.Prelude.{◌≡◌};
ghost use Rattle.p9_run.specs.Services.{TouchesOnly, ServesOn};

use crate::engine::Engine;
use p9_outside::Device;
use p9_outside::laws::services_lead_on;
use p9_word::NoMemory;

/// One turn of ioproc `k`: takes the call that is posted there, if there is one, lets the device serve it
/// and records the effect. A refusal comes before the call is taken.
pub(crate) fn io_turn<E: Engine, D: Device>(
    engine: &mut E,
    k: u32,
    device: &mut D,
) -> Result<(), NoMemory>
    ensures setup { E.setup engine.new ≡ E.setup engine.old }
    ensures only { TouchesOnly k (E.entries engine.old) (E.entries engine.new) }
    ensures serves { ServesOn D.serves k (E.entries engine.old) device.old (E.entries engine.new) device.new }
{
    let Some((call, room)) = engine.take(k)? else {
        return Ok(());
    };
    let effect = device.serve(&call, room);
    engine.did(k, effect);
    services_lead_on::<D>();
    Ok(())
}
