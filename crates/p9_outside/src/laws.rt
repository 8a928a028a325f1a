//! What holds of the services of devices. Each law is the contract of a function that does nothing, so a caller has it for a
//! call.

ghost use Rattle.std.specs.Prelude.{ℕ, List, [], Option};
ghost use Rattle.std.specs.Io.KnownBytes.{Consumes, Appends};
ghost use Rattle.p9_outside.specs.DeviceRuns.{DevicesRun};
ghost use Rattle.p9_outside.specs.FileRuns.{FilesRun, UntoldAreFull};
ghost use Rattle.p9_outside.specs.Promised.{source_tells, sink_tells};
ghost use Rattle.p9_outside.specs.Reached.{LeadOn};

use crate::{Device, Sink, Source};

/// One service more leads on from the state that a device had reached.
pub fn services_lead_on<D: Device>()
    ensures { LeadOn D.serves }
{}

/// What the services of any device come to, one after the other.
pub fn devices_run<D: Device>()
    ensures { DevicesRun D.serves D.left D.held D.faults }
{}

/// What the services of a file come to, one after the other.
pub fn files_run<S: Source, K: Sink>()
    ensures { FilesRun (source_tells S.left S.faults S.steady) (sink_tells K.held K.faults K.firm) }
{}

/// Where the bytes left aren't told, nothing is said of whether reads are full.
pub fn untold_reads_are_full()
    ensures { UntoldAreFull }
{}

/// No bytes take nothing from what is left, and add nothing to what is held.
pub fn no_bytes_move_nothing()
    ensures { (bytes : Option (List ℕ)) → Consumes bytes bytes [] × Appends bytes bytes [] }
{}
