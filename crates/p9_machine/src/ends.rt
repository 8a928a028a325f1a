ghost use Rattle.p9_word.specs.declared.trail.Reply.TheVariants.{Ended, Died};
ghost use Rattle.p9_manual.specs.Ends.{ended, proc_ended, all_ended};
ghost use Rattle.p9_manual.specs.State.{replied};
ghost use Rattle.p9_sched.specs.Messages.{IsBare};
ghost use Rattle.p9_sched.specs.Schedule.{IsPlace};
ghost use Rattle.p9_machine.specs.Board.{HasPlaces, IsRunning, GivesAll, Stays};

use crate::board::Board;
use p9_ends::{end_all, end_caller, end_proc};
use p9_word::{Msg, Reply, Tid};

/// Ends the caller in each part. It runs, so no alt and no lock has it among those that wait. What it holds stays held.
pub(crate) fn exit_thread(board: &mut Board, t: Tid) -> Reply
    requires places { HasPlaces board.old }
    requires runs { IsRunning t board.old.sched }
    ensures gives { GivesAll (λ s. replied Ended (ended t s)) board.old result board.new }
    ensures stays { Stays board.old board.new }
    ensures bare { IsBare result }
{
    end_caller(&mut board.sched, &mut board.io, &mut board.notes, t);
    Reply::Ended
}

/// Ends all threads in each part, and the run.
pub(crate) fn exit_all(board: &mut Board) -> Reply
    requires { HasPlaces board.old }
    ensures gives { GivesAll (λ s. replied Ended (all_ended s)) board.old result board.new }
    ensures stays { Stays board.old board.new }
    ensures bare { IsBare result }
{
    end_all(
        &mut board.sched,
        &mut board.alts,
        &mut board.locks,
        &mut board.io,
        &mut board.notes,
    );
    board.over = true;
    Reply::Ended
}

/// Ends all threads of proc p in each part: this note kills it.
pub(crate) fn die(board: &mut Board, p: u32, note: Msg) -> Reply
    requires places { HasPlaces board.old }
    requires place { IsPlace p board.old.sched }
    ensures gives { GivesAll (λ s. replied (Died note) (proc_ended p s)) board.old result board.new }
    ensures stays { Stays board.old board.new }
{
    end_proc(
        &mut board.sched,
        &mut board.alts,
        &mut board.locks,
        &mut board.io,
        &mut board.notes,
        p,
    );
    Reply::Died(note)
}
