ghost use Rattle.std.specs.Prelude.{◌≡◌, ◌≤◌, ◌-◌, length, take, nat_lt};
ghost use Rattle.std.specs.Io.KnownBytes.{Appends};
ghost use Rattle.p9_outside.specs.Causes.{CountsFault};
ghost use Rattle.p9_outside.specs.Promised.{sink_tells};

use crate::{Device, Failed, Sink};
use p9_word::{Effect, IoCall, Room};

/// A file that is written.
///
/// It begins shut. It refuses a read, a write while it is shut, and whatever else a file doesn't do. A message of no bytes makes no write.
#[derive(Drop)]
pub struct WriteDevice<K> {
    sink: K,
    is_open: bool,
}

/// Writes until all is taken or a write failed, and answers how many of the first bytes were taken. Where
/// that isn't all of them, one write failed, and else none.
pub fn drain<K: Sink>(sink: &mut K, bytes: &[u8]) -> usize
    ensures most { result ≤ length bytes.now }
    ensures bytes { Appends (K.held sink.old) (K.held sink.new) (take result bytes.now) }
    ensures faults { CountsFault (nat_lt result (length bytes.now)) (K.faults sink.old) (K.faults sink.new) }
    ensures firm { length bytes.now ≤ K.firm sink.old → result ≡ length bytes.now }
    ensures lowered { K.firm sink.new ≡ K.firm sink.old - result }
{
    let mut done = 0;
    while done < bytes.len() {
        match sink.write(&bytes[done..]) {
            Ok(count) => done += count,
            Err(Failed) => return done,
        }
    }
    done
}

impl<K: Sink> WriteDevice<K> {
    ghost use Rattle.p9_outside.specs.Writing.{writer_at, sink_of};
    ghost use Rattle.p9_manual.specs.Files.{at_first};

    /// A file over this sink, shut.
    pub fn new(k: K) -> WriteDevice<K>
        ensures at { writer_at result ≡ at_first }
        ensures sink { sink_of result ≡ k }
    {
        WriteDevice {
            sink: k,
            is_open: false,
        }
    }

    /// The sink, with what was written.
    pub fn into_inner(self) -> K
        ensures { result ≡ sink_of self }
    {
        let WriteDevice { sink, is_open: _ } = self;
        sink
    }
}

impl<K: Sink> Device for WriteDevice<K> {
    ghost use Rattle.std.specs.Prelude.{None};
    ghost use Rattle.p9_outside.specs.Writing.{WriteServes, sink_of};

    ghost serves = { λ old call effect new. WriteServes (sink_tells K.held K.faults K.firm) old call effect new };

    ghost left = { λ d. None };

    ghost held = { λ d. K.held (sink_of d) };

    ghost faults = { λ d. K.faults (sink_of d) };

    ghost fits = { λ old call effect new done. done.file.fits };

    ghost gives = { λ old call effect new done. tt };

    ghost takes = { λ old call effect new done. done.bytes };

    ghost counts = { λ old call effect new done. done.tells };

    fn serve(&mut self, call: &IoCall, _room: Room<u8>) -> Effect {
        match call {
            IoCall::IoOpen => {
                self.is_open = true;
                Effect::Opened
            }
            IoCall::IoClose => {
                self.is_open = false;
                Effect::Shut
            }
            IoCall::IoWrite(message) if self.is_open => {
                let bytes = message.as_slice();
                let count = drain(&mut self.sink, bytes);
                Effect::Wrote {
                    count: count as u32,
                    failed: count < bytes.len(),
                }
            }
            IoCall::IoRead(_) | IoCall::IoReadN(_) => Effect::Refused,
            IoCall::IoWrite(_) | IoCall::IoOwn(_, _) => Effect::Refused,
        }
    }
}
