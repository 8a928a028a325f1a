ghost use Rattle.std.specs.Prelude.{◌≡◌, map};
ghost use Rattle.p9_sched.specs.Stored.{row_ended, row_ended_in};

use crate::row::Row;
use p9_manual::Place;

/// Each thread has ended.
pub(crate) fn end_each(rows: &mut [Row])
    ensures { rows.new ≡ map row_ended rows.old }
{
    for row in rows.iter_mut() {
        row.place = Place::Ended;
    }
}

/// Each thread of proc p has ended.
pub(crate) fn end_in(rows: &mut [Row], p: u32)
    ensures { rows.new ≡ map (row_ended_in p) rows.old }
{
    for row in rows.iter_mut() {
        end_if_in(row, p);
    }
}

/// A thread has ended, if it is one of proc p.
fn end_if_in(row: &mut Row, p: u32)
    ensures { row.new ≡ row_ended_in p row.old }
{
    if row.proc_no == p {
        row.place = Place::Ended;
    }
}
