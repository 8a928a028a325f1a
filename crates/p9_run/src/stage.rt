ghost use Rattle.std.specs.Prelude.{◌≡◌, IfOk};
ghost use Rattle.p9_run.specs.Stage.{exits};

use p9_word::{Msg, NoMemory, Request, ThreadReq};
use std::alloc::Global;

/// The request that ends a stage: with the text `stage` where it got an answer that it has no use for,
/// else with no text.
pub(crate) fn exits(alloc: Global, failed: bool) -> Result<Request, NoMemory>
    ensures { IfOk result (λ r. r ≡ exits failed) }
{
    let text = if failed {
        Msg::from_slice(alloc, b"stage")?
    } else {
        Msg::new()
    };
    Ok(Request::Thread(ThreadReq::ThreadExits { text }))
}
