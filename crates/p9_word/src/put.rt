//! Puts bytes, numbers and quoted words behind what a room has.

ghost use Rattle.std.specs.Prelude.{◌≡◌, ◌==◌, ◌+◌, ◌≤◌, ◌++◌, length, count_by, OnErr, OnOk};
ghost use Rattle.std.specs.Fmt.{decimal};
ghost use Rattle.p9_word.specs.Words.{doubled, quote};

use crate::{NoMemory, Room};
use itoa::Buffer;

/// Puts these bytes last. `NoMemory` where the room has no spare for them and gets none: nothing has changed then.
pub fn put_bytes(out: &mut Room<u8>, bytes: &[u8]) -> Result<(), NoMemory>
    ensures written { OnOk result (out.new.items ≡ out.old.items ++ bytes.now) }
    ensures kept { OnErr result (out.new ≡ out.old) }
{
    out.reserve(bytes.len())?;
    out.push_all(bytes);
    Ok(())
}

/// Puts the digits of a number last, without leading zeros. `NoMemory` where the room has no spare for them and gets
/// none: nothing has changed then.
pub fn put_number(out: &mut Room<u8>, n: u64) -> Result<(), NoMemory>
    ensures written { OnOk result (out.new.items ≡ out.old.items ++ decimal n) }
    ensures kept { OnErr result (out.new ≡ out.old) }
{
    let mut buffer = Buffer::new();
    put_bytes(out, buffer.format(n).as_bytes())
}

/// Puts these bytes last with a quote on each side, and each quote in them doubled. `NoMemory` where the room has no
/// spare for them and gets none: nothing has changed then.
#[tactic(auto, using(crate::proofs::Quotes::length_doubled))]
pub fn put_quoted(out: &mut Room<u8>, bytes: &[u8]) -> Result<(), NoMemory>
    ensures written { OnOk result (out.new.items ≡ out.old.items ++ quote bytes.now) }
    ensures kept { OnErr result (out.new ≡ out.old) }
{
    let doubled = bytes.len() + quotes_in(bytes);
    let quoted = doubled.checked_add(2).ok_or(NoMemory)?;
    out.reserve(quoted)?;
    out.push(b'\'');
    push_doubled(out, bytes);
    out.push(b'\'');
    Ok(())
}

/// How many of the bytes are quotes.
fn quotes_in(bytes: &[u8]) -> usize
    ensures { result ≡ count_by (λ b. b == 39) bytes.now }
{
    bytes.iter().filter(|b| **b == b'\'').count()
}

/// Puts these bytes last, each quote twice, in spare that was taken before.
fn push_doubled(out: &mut Room<u8>, bytes: &[u8])
    requires { length (doubled bytes.now) ≤ out.old.spare }
    ensures items { out.new.items ≡ out.old.items ++ doubled bytes.now }
    ensures spare { out.new.spare + length (doubled bytes.now) ≡ out.old.spare }
{
    for b in bytes {
        if *b == b'\'' {
            out.push(b'\'');
        }
        out.push(*b);
    }
}
