#![tactic(auto, unfolding(p9_manual::specs::Threads::asked))]

ghost use Rattle.std.specs.Prelude.{◌≡◌, true};
ghost use Rattle.p9_word.specs.declared.request.ThreadReq.TheVariants as ask;
ghost use Rattle.p9_manual.specs.Create.{is_no_program};
ghost use Rattle.p9_manual.specs.State.{by_id};
ghost use Rattle.p9_sched.specs.Messages.{IsBare};
ghost use Rattle.p9_sched.specs.Turns.{place_of};
ghost use Rattle.p9_thread_calls.specs.Serves.{ServesRequest};

use p9_sched::{Place, Sched};
use p9_word::{Answer, Reply, Setup, Tid};

/// Whether the setup has no such program.
fn is_no_program(setup: &Setup, program: u32) -> bool
    ensures { result ≡ is_no_program setup.now program }
{
    program == 0 || program > setup.programs
}

/// Makes a thread in the caller's proc and group.
pub(crate) fn create_thread(
    sched: &mut Sched,
    setup: &Setup,
    t: Tid,
    program: u32,
    arg: u64,
) -> Reply
    requires runs { place_of (by_id sched.old.threads t) ≡ Place.Running }
    requires room { sched.old.rooms.thread ≡ true }
    ensures serves { ServesRequest setup.now t (ask.ThreadCreate program arg) sched.old result sched.new }
    ensures bare { IsBare result }
{
    if is_no_program(setup, program) {
        return Reply::Now(Answer::Bad);
    }
    match sched.make_thread(sched.proc_of(t), program, arg, sched.group(t)) {
        Some(made) => Reply::Now(Answer::Number(u64::from(made))),
        None => Reply::Now(Answer::Minus),
    }
}

/// Opens the next proc place with a thread in the caller's group. The caller stands behind it.
pub(crate) fn create_proc(sched: &mut Sched, setup: &Setup, t: Tid, program: u32, arg: u64) -> Reply
    requires runs { place_of (by_id sched.old.threads t) ≡ Place.Running }
    requires room { sched.old.rooms.thread ≡ true }
    ensures serves { ServesRequest setup.now t (ask.ProcCreate program arg) sched.old result sched.new }
    ensures bare { IsBare result }
{
    if is_no_program(setup, program) {
        return Reply::Now(Answer::Bad);
    }
    match sched.make_proc(program, arg, sched.group(t)) {
        Some(made) => {
            sched.ready(t, Answer::Number(u64::from(made)));
            Reply::Waits
        }
        None => Reply::Now(Answer::Minus),
    }
}
