ghost use Rattle.std.specs.Prelude.{◌≡◌, ◌⊎◌, ◌<◌, ◌≤◌, [], length, true, false};
ghost use Rattle.std.specs.Io.KnownBytes.{Consumes, IsAtEnd};
ghost use Rattle.p9_outside.specs.Causes.{CountsFault};
ghost use Rattle.p9_outside.specs.Promised.{StaysSteady};

use crate::{Failed, Source};
use p9_word::Room;
use p9_word::limits::BLOCK_BYTES;

/// The most bytes that one read asks for: a block is read by one read.
const PIECE: usize = BLOCK_BYTES as usize;

/// Reads until there are `n` bytes, the end came or a read failed, and tells whether one failed.
pub(crate) fn fill<S: Source>(source: &mut S, n: usize, room: &mut Room<u8>) -> bool
    requires empty { room.old.items ≡ [] }
    requires room { n ≤ room.old.spare }
    ensures most { length room.new.items ≤ n }
    ensures bytes { Consumes (S.left source.old) (S.left source.new) room.new.items }
    ensures full { result ≡ false → (length room.new.items ≡ n) ⊎ IsAtEnd (S.left source.new) }
    ensures faults { CountsFault result (S.faults source.old) (S.faults source.new) }
    ensures steady { StaysSteady result (S.steady source.old) (S.steady source.new) }
{
    let mut buf = [0; PIECE];
    let mut len = 0;
    while len < n {
        let want = PIECE.min(n - len);
        match source.read(&mut buf[..want]) {
            Ok(0) => return false,
            Ok(count) => {
                room.push_all(&buf[..count]);
                len += count;
            }
            Err(Failed) => return true,
        }
    }
    false
}

/// Reads once, at most `n` bytes and at most a piece, and tells whether the read failed.
pub(crate) fn read_piece<S: Source>(source: &mut S, n: usize, room: &mut Room<u8>) -> bool
    requires some { 0 < n }
    requires empty { room.old.items ≡ [] }
    requires room { n ≤ room.old.spare }
    ensures most { length room.new.items ≤ n }
    ensures bytes { Consumes (S.left source.old) (S.left source.new) room.new.items }
    ensures once { result ≡ true → room.new.items ≡ [] }
    ensures full { result ≡ false → (0 < length room.new.items) ⊎ IsAtEnd (S.left source.new) }
    ensures faults { CountsFault result (S.faults source.old) (S.faults source.new) }
    ensures steady { StaysSteady result (S.steady source.old) (S.steady source.new) }
{
    let mut buf = [0; PIECE];
    let want = PIECE.min(n);
    match source.read(&mut buf[..want]) {
        Ok(count) => {
            room.push_all(&buf[..count]);
            false
        }
        Err(Failed) => true,
    }
}
