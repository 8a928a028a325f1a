ghost use Rattle.std.specs.Prelude.{◌≡◌, ℕ, ◌≤◌, map, slice_get, IfSome, OnOk};
ghost use Rattle.std.specs.List.{list_any};
ghost use Rattle.p9_sched.specs.Lined.{bare, cleared, room_at, has_living, has_running, has_ready, HasSpare};

use crate::lane::Lane;
use p9_word::NoMemory;

/// Makes room for one more thread in each line.
pub(crate) fn reserve_each(lanes: &mut [Lane]) -> Result<(), NoMemory>
    ensures same { map bare lanes.new ≡ map bare lanes.old }
    ensures more { (i : ℕ) → room_at (slice_get lanes.old i) ≤ room_at (slice_get lanes.new i) }
    ensures ok { OnOk result ((i : ℕ) → IfSome (slice_get lanes.new i) HasSpare) }
{
    for lane in lanes.iter_mut() {
        lane.reserve()?;
    }
    Ok(())
}

/// No thread lives any more, and no proc is held.
pub(crate) fn clear_each(lanes: &mut [Lane])
    ensures { lanes.new ≡ map cleared lanes.old }
{
    for lane in lanes.iter_mut() {
        lane.clear();
    }
}

/// Whether a thread lives in one of them.
pub(crate) fn any_living(lanes: &[Lane]) -> bool
    ensures { result ≡ list_any has_living lanes.now }
{
    lanes.iter().any(|lane| lane.living() > 0)
}

/// Whether a thread runs in one of them.
pub(crate) fn any_running(lanes: &[Lane]) -> bool
    ensures { result ≡ list_any has_running lanes.now }
{
    lanes.iter().any(|lane| lane.running().is_some())
}

/// Whether a thread stands in the line of one of them that isn't held.
pub(crate) fn any_ready(lanes: &[Lane]) -> bool
    ensures { result ≡ list_any has_ready lanes.now }
{
    lanes.iter().any(|lane| lane.ready() > 0 && !lane.is_held())
}
