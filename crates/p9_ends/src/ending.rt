use p9_manual::Gone;
use p9_word::Tid;

/// All threads.
#[derive(Drop)]
pub(crate) struct All;

impl Gone for All {
    ghost use Rattle.std.specs.Prelude.{true};

    ghost ends = { λ _ _. true };

    fn has(&self, _t: Tid) -> bool {
        true
    }
}
