ghost use Rattle.std.specs.Prelude.{◌≡◌, ◌≤◌, length};

use crate::memory::front::copy_front;
use crate::{Failed, Source};
use p9_word::{Msg, Seq};

/// A source in memory. Some of its reads can be planned to fail.
#[derive(Drop)]
pub struct MemSource {
    bytes: Msg,
    at: usize,
    most: usize,
    fails: Seq<u64>,
    calls: u64,
    faults: u64,
    ghost some: { 1 ≤ most },
    ghost within: { at ≤ length bytes },
}

impl MemSource {
    ghost use Rattle.p9_outside.specs.Memory.{source_left, source_most, source_fails, source_calls, source_faults};

    /// A source of these bytes that gives at most `most` of them in one read. The reads whose numbers,
    /// from 1, are in `fails` fail.
    pub fn new(bytes: Msg, most: usize, fails: Seq<u64>) -> MemSource
        requires { 1 ≤ most }
        ensures left { source_left result ≡ bytes }
        ensures most { source_most result ≡ most }
        ensures fails { source_fails result ≡ fails }
        ensures calls { source_calls result ≡ 0 }
        ensures faults { source_faults result ≡ 0 }
    {
        MemSource {
            bytes,
            at: 0,
            most,
            fails,
            calls: 0,
            faults: 0,
        }
    }
}

impl Source for MemSource {
    ghost use Rattle.std.specs.Prelude.{◌<◌, ◌↔◌, Some, IfOk, IsErr, Contains, is_err};
    ghost use Rattle.std.specs.Io.{ReadsAtMost};
    ghost use Rattle.std.specs.Io.KnownBytes.{ReadConsumes};
    ghost use Rattle.p9_outside.specs.Causes.{CountsFault};
    ghost use Rattle.p9_outside.specs.Promised.{StaysSteady};
    ghost use Rattle.p9_outside.specs.Memory.{source_left, source_fails, source_calls, source_faults, source_steady, counted, ReadsOn, read_count};

    ghost left = { λ s. Some (source_left s) };

    ghost faults = { λ s. source_faults s };

    ghost steady = { λ s. source_steady s };

    /// It fails exactly where this read was planned to.
    #[tactic(auto, using(crate::proofs::Fronts::front_and_rest))]
    fn read(&mut self, buf: &mut [u8]) -> Result<usize, Failed>
        requires { 0 < length buf.old }
        ensures bound { ReadsAtMost result buf.new }
        ensures bytes { ReadConsumes (Some (source_left self.old)) (Some (source_left self.new)) result buf.new }
        ensures faults { CountsFault (is_err result) (source_faults self.old) (source_faults self.new) }
        ensures steady { StaysSteady (is_err result) (source_steady self.old) (source_steady self.new) }
        ensures count { IfOk result (λ n. n ≡ read_count self.old (length buf.old)) }
        ensures planned { IsErr result ↔ Contains (source_fails self.old) (counted (source_calls self.old)) }
        ensures on { ReadsOn self.old self.new }
    {
        self.calls = self.calls.saturating_add(1);
        if self.fails.as_slice().contains(&self.calls) {
            self.faults = self.faults.saturating_add(1);
            return Err(Failed);
        }
        let left = &self.bytes.as_slice()[self.at..];
        let count = left.len().min(buf.len()).min(self.most);
        copy_front(buf, left, count);
        self.at += count;
        Ok(count)
    }
}
