ghost use Rattle.std.specs.Prelude.{◌≡◌};
ghost use Rattle.std.specs.VecDeque.{deque_capacity};
ghost use Rattle.p9_sched.specs.Schedule.{without};

use p9_word::Tid;
use std::collections::VecDeque;

/// Takes a thread out of a line.
pub(crate) fn drop_from_line(line: &mut VecDeque<Tid>, t: Tid)
    ensures items { line.new.items ≡ without t line.old.items }
    ensures capacity { deque_capacity line.new ≡ deque_capacity line.old }
{
    line.retain(|u| *u != t);
}
