ghost use Rattle.std.specs.Prelude.{◌≡◌, ◌<◌, ◌≤◌, [], ◌∷◌, true, false, length, remove, IfOk, MatchOption};
ghost use Rattle.p9_outside.specs.Plans.{same_fail, is_plan, is_planned, spent, number_of, numbers};

use p9_word::{Msg, NoMemory, Room, Seq};
use std::alloc::Global;

/// A call on a path that is to fail.
#[derive(Clone, Copy, Debug, PartialEq, Eq)]
pub enum PathFail {
    /// The first time that the path is opened to be read. It is used up then.
    Source,
    /// The first time that the path is opened to be written. It is used up then.
    Sink,
    /// The first time that a sink of the path is closed. It is used up then.
    Close,
    /// The read with this number, from 1, of each source of the path.
    Read(u64),
    /// The write with this number, from 1, of each sink of the path.
    Write(u64),
}

/// A failure that is planned for a path.
#[derive(Drop)]
pub(crate) struct Plan {
    pub(crate) path: Msg,
    pub(crate) fail: PathFail,
}

impl PathFail {
    fn is(self, other: PathFail) -> bool
        ensures { result ≡ same_fail self other }
    {
        match (self, other) {
            (PathFail::Source, PathFail::Source) => true,
            (PathFail::Sink, PathFail::Sink) => true,
            (PathFail::Close, PathFail::Close) => true,
            (PathFail::Read(m), PathFail::Read(n)) => m == n,
            (PathFail::Write(m), PathFail::Write(n)) => m == n,
            _ => false,
        }
    }
}

/// Whether a plan is for this path and this failure.
fn is_for(plan: &Plan, path: &[u8], fail: PathFail) -> bool
    ensures { result ≡ is_plan plan.now path.now fail }
{
    plan.path.as_slice() == path && plan.fail.is(fail)
}

/// The index of the first plan of this path and this failure.
fn index_of(plans: &[Plan], path: &[u8], fail: PathFail) -> Option<usize>
    ensures planned { MatchOption result (is_planned plans.now path.now fail ≡ false) (λ i. is_planned plans.now path.now fail ≡ true) }
    ensures spent { let left = spent plans.now path.now fail in MatchOption result (left ≡ plans.now) (λ i. left ≡ remove plans.now i) }
    ensures within { MatchOption result (0 ≤ 0) (λ i. i < length plans.now) }
{
    for i in 0..plans.len() {
        if is_for(&plans[i], path, fail) {
            return Some(i);
        }
    }
    None
}

/// Tells whether this call on the path was planned to fail, and uses that plan up.
pub(crate) fn spend(plans: &mut Vec<Plan>, path: &[u8], fail: PathFail) -> bool
    ensures planned { result ≡ is_planned plans.old.items path.now fail }
    ensures spent { plans.new.items ≡ spent plans.old.items path.now fail }
    ensures kept { result ≡ false → plans.new.items ≡ plans.old.items }
{
    match index_of(plans.as_slice(), path, fail) {
        Some(i) => {
            let _spent = plans.remove(i);
            true
        }
        None => false,
    }
}

/// The number of the read, or else of the write, that is to fail.
fn number(fail: PathFail, reads: bool) -> Option<u64>
    ensures { MatchOption result (number_of reads fail ≡ []) (λ n. number_of reads fail ≡ n ∷ []) }
{
    match fail {
        PathFail::Read(n) if reads => Some(n),
        PathFail::Write(n) if !reads => Some(n),
        _ => None,
    }
}

/// The numbers of the reads, or else of the writes, that are to fail on the path.
pub(crate) fn planned_numbers(
    alloc: Global,
    plans: &[Plan],
    path: &[u8],
    reads: bool,
) -> Result<Seq<u64>, NoMemory>
    ensures { IfOk result (λ ns. ns ≡ numbers reads plans.now path.now) }
{
    let mut room = Room::new(alloc);
    room.reserve(plans.len())?;
    for i in 0..plans.len() {
        if plans[i].path.as_slice() == path
            && let Some(n) = number(plans[i].fail, reads)
        {
            room.push(n);
        }
    }
    Ok(room.into_seq())
}
