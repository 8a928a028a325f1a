ghost use Rattle.std.specs.Prelude.{◌≡◌, ◌≢◌, ◌↔◌, ◌++◌, [], IsTrue, ℕ, List, MatchOption, IfOk, take, drop};
ghost use Rattle.std.specs.List.{prefix_len};
ghost use Rattle.p9_run.specs.CopyText.{is_path_byte, copy_end, IsCopyText, IsNoCopyText};

use p9_word::{Msg, NoMemory};
use std::alloc::Global;

/// The paths of a copy's text.
#[derive(Drop)]
pub(crate) struct CopyPaths {
    /// The file that is read.
    pub(crate) from: Msg,
    /// The file that is written.
    pub(crate) to: Msg,
}

/// Whether a path may have this byte: an ASCII letter or digit, `.`, `/` or `_`.
fn is_path_byte(byte: u8) -> bool
    ensures { result ≡ is_path_byte byte }
{
    matches!(byte, b'A'..=b'Z' | b'a'..=b'z' | b'0'..=b'9' | b'.' | b'/' | b'_')
}

/// The bytes up to the first one that no path has, and what follows them.
fn split_path(text: &[u8]) -> (&[u8], &[u8])
    ensures path { result.0.now ≡ take (prefix_len is_path_byte text.now) text.now }
    ensures rest { result.1.now ≡ drop (prefix_len is_path_byte text.now) text.now }
{
    let mut len = 0;
    while len < text.len() && is_path_byte(text[len]) {
        len += 1;
    }
    text.split_at(len)
}

/// What follows `front` in a text that begins with it, else `None`.
fn after<'a>(text: &'a [u8], front: &[u8]) -> Option<&'a [u8]>
    ensures { MatchOption result ((rest : List ℕ) → text.now ≢ front.now ++ rest) (λ rest. text.now ≡ front.now ++ rest.now) }
{
    text.strip_prefix(front)
}

/// Whether a text ends as that of a copy does after its second path, and there are two paths that differ.
fn is_end(from: &[u8], to: &[u8], rest: &[u8]) -> bool
    ensures { IsTrue result ↔ ((rest.now ≡ copy_end) × (from.now ≢ []) × (to.now ≢ []) × (from.now ≢ to.now)) }
{
    rest == b"'\nchan a 0\nproc p\nthread r read i to a\nthread w write o from a\n".as_slice()
        && !from.is_empty()
        && !to.is_empty()
        && from != to
}

/// The two paths of a text that has a copy's lines, else `None`.
fn find_paths(text: &[u8]) -> Option<(&[u8], &[u8])>
    ensures { MatchOption result (IsNoCopyText text.now) (λ p. IsCopyText text.now p.0.now p.1.now) }
{
    let Some(rest) = after(text, b"file i in '") else {
        return None;
    };
    let (from, rest) = split_path(rest);
    let Some(rest) = after(rest, b"'\nfile o out '") else {
        return None;
    };
    let (to, rest) = split_path(rest);
    if is_end(from, to, rest) {
        Some((from, to))
    } else {
        None
    }
}

/// The paths of a text that copies one file to another, or `None` where it is no such text.
pub(crate) fn read_text(alloc: Global, text: &[u8]) -> Result<Option<CopyPaths>, NoMemory>
    ensures { IfOk result (λ paths. MatchOption paths (IsNoCopyText text.now) (λ p. IsCopyText text.now p.from p.to)) }
{
    match find_paths(text) {
        Some((from, to)) => Ok(Some(CopyPaths {
            from: Msg::from_slice(alloc, from)?,
            to: Msg::from_slice(alloc, to)?,
        })),
        None => Ok(None),
    }
}
