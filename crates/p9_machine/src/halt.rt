ghost use Rattle.std.specs.Prelude.{◌≡◌};
ghost use Rattle.p9_manual.specs.Halt.{is_file, stops};

use crate::next::is_place;
use p9_word::{Event, Seat, Setup};

/// Whether k is one of the setup's files.
fn is_file(setup: &Setup, k: u32) -> bool
    ensures { result ≡ is_file setup.now k }
{
    1 <= k && k <= setup.files
}

/// Whether it is an event that a halted machine doesn't do.
pub(crate) fn stops(setup: &Setup, seat: Seat, event: &Event) -> bool
    ensures { result ≡ stops setup.now seat event.now }
{
    match (seat, event) {
        (Seat::Proc(p), Event::Call(..) | Event::Next) => is_place(setup, p),
        (Seat::Io(k), Event::IoTake) => is_file(setup, k),
        (Seat::Proc(_), Event::IoTake | Event::IoDid(_))
        | (Seat::Io(_), Event::Call(..) | Event::Next | Event::IoDid(_)) => false,
    }
}
