ghost use Rattle.std.specs.Prelude.{◌≡◌, [], OnOk};
ghost use Rattle.p9_run.specs.Directions.{in_of, out_of};
ghost use Rattle.p9_run.specs.Moves.{RunsOnFiles, MovesOver};
ghost use Rattle.p9_outside.specs.Promised.{source_tells, sink_tells};
ghost use Rattle.p9_word.specs.Setup.{IsValid};
ghost use Rattle.p9_laws.specs.RunReplies.{reply_at};
ghost use Rattle.p9_run.specs.Over.{AllOver};

use crate::bodies::Bodies;
use crate::engine::Engine;
use crate::rounds::run_rounds;
use p9_outside::laws::{files_run, no_bytes_move_nothing};
use p9_outside::{FileDevice, ReadDevice, Sink, Source, WriteDevice};
use p9_word::{NoMemory, Programs};
use std::alloc::Global;
use std::sync::Wait;

/// The two files after a run, and whether memory was wanted.
#[derive(Drop)]
pub(crate) struct Ran<S, K> {
    /// `Ok` where the run came to its end.
    pub(crate) outcome: Result<(), NoMemory>,
    /// The file that was read.
    pub(crate) source: S,
    /// The file that was written.
    pub(crate) sink: K,
}

fn in_of<S: Drop, K: Drop>(device: Option<FileDevice<S, K>>) -> Option<ReadDevice<S>>
    ensures { result ≡ in_of device }
{
    match device {
        Some(FileDevice::In(reader)) => Some(reader),
        _ => None,
    }
}

fn out_of<S: Drop, K: Drop>(device: Option<FileDevice<S, K>>) -> Option<WriteDevice<K>>
    ensures { result ≡ out_of device }
{
    match device {
        Some(FileDevice::Out(writer)) => Some(writer),
        _ => None,
    }
}

/// Runs the programs over file 1, which is read from `source`, and file 2, which is written to `sink`, in
/// `procs` procs.
///
/// Where memory is wanted the run stops short of its end, and what the history says holds of it too.
pub(crate) fn run_files<R: Wait, E: Engine, P: Programs, S: Source + Drop, K: Sink + Drop>(
    rt: &R,
    alloc: Global,
    engine: &mut E,
    programs: &P,
    procs: u32,
    source: S,
    sink: K,
) -> Ran<S, K>
    requires start { E.entries engine.old ≡ [] }
    requires valid { IsValid (E.setup engine.old) }
    requires programs { P.programs programs.now ≡ (E.setup engine.old).programs }
    ensures setup { E.setup engine.new ≡ E.setup engine.old }
    ensures all_over { OnOk result.outcome (AllOver procs (reply_at (E.setup engine.new) (E.entries engine.new))) }
    ensures history { RunsOnFiles (P.asks programs.now) (E.entries engine.new) }
    ensures moves { MovesOver (source_tells S.left S.faults S.steady) (sink_tells K.held K.faults K.firm)
        (E.entries engine.new) source result.source sink result.sink }
{
    files_run::<S, K>();
    no_bytes_move_nothing();
    let mut devices = match Vec::with_capacity(alloc, 2) {
        Ok(devices) => devices,
        Err(_) => {
            return Ran {
                outcome: Err(NoMemory),
                source,
                sink,
            };
        }
    };
    devices.push_reserved(FileDevice::In(ReadDevice::new(source)));
    devices.push_reserved(FileDevice::Out(WriteDevice::new(sink)));
    let mut bodies = Bodies::new(alloc);
    let outcome = run_rounds(
        rt,
        engine,
        programs,
        &mut bodies,
        devices.as_mut_slice(),
        procs,
    );
    let Some(writer) = out_of(devices.pop()) else {
        unreachable!()
    };
    let Some(reader) = in_of(devices.pop()) else {
        unreachable!()
    };
    Ran {
        outcome,
        source: reader.into_inner(),
        sink: writer.into_inner(),
    }
}
