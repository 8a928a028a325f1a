ghost use Rattle.std.specs.Prelude.{◌≡◌, ◌+◌, ◌≤◌, [], IfOk, length};

use crate::{Failed, Sink};
use p9_word::{Msg, NoMemory, Room, Seq};
use std::alloc::Global;

/// A sink in memory, with room for so many bytes. Some of its writes can be planned to fail.
#[derive(Drop)]
pub struct MemSink {
    bytes: Room<u8>,
    room: usize,
    most: usize,
    fails: Seq<u64>,
    calls: u64,
    faults: u64,
    ghost some: { 1 ≤ most },
    ghost within: { length bytes.items ≤ room },
    ghost taken: { room ≤ length bytes.items + bytes.spare },
}

impl MemSink {
    ghost use Rattle.p9_outside.specs.Memory.{sink_held, sink_room, sink_most, sink_fails, sink_calls, sink_faults};
    ghost use Rattle.p9_outside.specs.Counts.{raised};

    /// A sink that takes at most `room` bytes in all, and at most `most` of them in one write. The writes
    /// whose numbers, from 1, are in `fails` fail, and so does each write when the room is full. All memory
    /// is taken now.
    pub fn new(
        alloc: Global,
        room: usize,
        most: usize,
        fails: Seq<u64>,
    ) -> Result<MemSink, NoMemory>
        requires { 1 ≤ most }
        ensures held { IfOk result (λ s. sink_held s ≡ []) }
        ensures room { IfOk result (λ s. sink_room s ≡ room) }
        ensures most { IfOk result (λ s. sink_most s ≡ most) }
        ensures fails { IfOk result (λ s. sink_fails s ≡ fails) }
        ensures calls { IfOk result (λ s. sink_calls s ≡ 0) }
        ensures faults { IfOk result (λ s. sink_faults s ≡ 0) }
    {
        let mut bytes = Room::new(alloc);
        bytes.reserve(room)?;
        Ok(MemSink {
            bytes,
            room,
            most,
            fails,
            calls: 0,
            faults: 0,
        })
    }

    /// The bytes that it has taken.
    pub fn as_slice(&self) -> &[u8]
        ensures { result.now ≡ sink_held self.now }
    {
        self.bytes.as_slice()
    }

    /// Counts a write that failed.
    fn count_fault(&mut self)
        ensures { self.new ≡ record self.old { faults = raised self.old.faults 1 } }
    {
        self.faults = self.faults.saturating_add(1);
    }

    /// The message of the bytes that it has taken, which are not copied. It takes no memory.
    pub fn into_msg(self) -> Msg
        ensures { result ≡ sink_held self }
    {
        let MemSink {
            bytes,
            room: _,
            most: _,
            fails,
            calls: _,
            faults: _,
        } = self;
        drop(fails);
        bytes.into_msg()
    }
}

impl Sink for MemSink {
    ghost use Rattle.std.specs.Prelude.{◌<◌, ◌-◌, ◌↔◌, false, Some, IsErr, is_err};
    ghost use Rattle.std.specs.Io.{WritesAtMost};
    ghost use Rattle.std.specs.Io.KnownBytes.{WriteAppends};
    ghost use Rattle.p9_outside.specs.Causes.{CountsFault};
    ghost use Rattle.p9_outside.specs.Promised.{taken};
    ghost use Rattle.p9_outside.specs.Memory.{sink_held, sink_faults, sink_firm, WriteFails, WritesOn, write_count};

    ghost held = { λ s. Some (sink_held s) };

    ghost faults = { λ s. sink_faults s };

    ghost firm = { λ s. sink_firm s };

    /// It fails exactly where this write was planned to, or the room is full.
    fn write(&mut self, bytes: &[u8]) -> Result<usize, Failed>
        requires { 0 < length bytes.now }
        ensures bound { WritesAtMost result bytes.now }
        ensures some { IfOk result (λ n. 0 < n) }
        ensures bytes { WriteAppends (Some (sink_held self.old)) (Some (sink_held self.new)) result bytes.now }
        ensures faults { CountsFault (is_err result) (sink_faults self.old) (sink_faults self.new) }
        ensures firm { length bytes.now ≤ sink_firm self.old → is_err result ≡ false }
        ensures lowered { sink_firm self.new ≡ sink_firm self.old - taken result }
        ensures count { IfOk result (λ n. n ≡ write_count self.old (length bytes.now)) }
        ensures planned { IsErr result ↔ WriteFails self.old }
        ensures on { WritesOn self.old self.new }
    {
        self.calls = self.calls.saturating_add(1);
        let free = self.room - self.bytes.as_slice().len();
        if free == 0 {
            self.count_fault();
            return Err(Failed);
        }
        if self.fails.as_slice().contains(&self.calls) {
            self.count_fault();
            return Err(Failed);
        }
        let count = bytes.len().min(free).min(self.most);
        self.bytes.push_all(&bytes[..count]);
        Ok(count)
    }
}
