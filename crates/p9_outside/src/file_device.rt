use crate::{Device, ReadDevice, Sink, Source, WriteDevice};
use p9_word::{Effect, IoCall, Room};

/// A file of either direction.
#[derive(Drop)]
pub enum FileDevice<S, K> {
    /// A file that is read.
    In(ReadDevice<S>),
    /// A file that is written.
    Out(WriteDevice<K>),
}

impl<S: Source, K: Sink> Device for FileDevice<S, K> {
    ghost use Rattle.p9_outside.specs.FileServices.{FileServes, file_left, file_held, fault_count};
    ghost use Rattle.p9_outside.specs.Promised.{source_tells, sink_tells};
    ghost use Rattle.p9_outside.specs.FileServices.{file_fits, file_gives, file_takes, file_counts};

    ghost serves = { λ old call effect new. FileServes (source_tells S.left S.faults S.steady) (sink_tells K.held K.faults K.firm) old call effect new };

    ghost left = { λ d. file_left S.left d };

    ghost held = { λ d. file_held K.held d };

    ghost faults = { λ d. fault_count S.faults K.faults d };

    ghost fits = { λ old call effect new done. file_fits (source_tells S.left S.faults S.steady) (sink_tells K.held K.faults K.firm) old call effect new done };

    ghost gives = { λ old call effect new done. file_gives (source_tells S.left S.faults S.steady) (sink_tells K.held K.faults K.firm) old call effect new done };

    ghost takes = { λ old call effect new done. file_takes (source_tells S.left S.faults S.steady) (sink_tells K.held K.faults K.firm) old call effect new done };

    ghost counts = { λ old call effect new done. file_counts (source_tells S.left S.faults S.steady) (sink_tells K.held K.faults K.firm) old call effect new done };

    fn serve(&mut self, call: &IoCall, room: Room<u8>) -> Effect {
        match self {
            FileDevice::In(device) => device.serve(call, room),
            FileDevice::Out(device) => device.serve(call, room),
        }
    }
}
