ghost use Rattle.std.specs.Prelude.{◌≡◌, OnOk, OnErr, Ok, true};
ghost use Rattle.p9_word.specs.declared.trail.Seat.TheVariants.{Proc};
ghost use Rattle.p9_word.specs.declared.trail.Event.TheVariants.{Next};
ghost use Rattle.p9_word.specs.declared.trail.Reply.TheVariants.{Over};
ghost use Rattle.p9_manual.specs.Programs.{Asks, RunsPrograms};
ghost use Rattle.p9_word.specs.Setup.{IsValid};
ghost use Rattle.p9_laws.specs.RunReplies.{reply_at};
ghost use Rattle.p9_run.specs.Over.{StaysOver};
ghost use Rattle.p9_run.specs.Stands.{IsBetween};
ghost use Rattle.p9_run.specs.Untouched.{TouchesNoFile};
ghost use Rattle.p9_run.specs.declared.proc_turn.Chosen.TheVariants.{Over as ProcOver};

use crate::bodies::{Bodies, Running};
use crate::engine::Engine;
use p9_word::{Answer, Body, NoMemory, Programs, Reply, Request, Tid};

/// What a proc does next.
#[derive(Clone, Copy)]
enum Chosen {
    /// It runs this thread.
    Thread(Tid),
    /// None of its threads is ready.
    Idle,
    /// It is over.
    Over,
}

/// Asks which thread is to run in proc `p`, and gives that thread its answer.
fn choose_thread<E: Engine, P: Programs>(
    engine: &mut E,
    programs: &P,
    bodies: &mut Bodies<P::B>,
    p: u32,
) -> Result<Chosen, NoMemory>
    requires valid { IsValid (E.setup engine.old) }
    requires programs { P.programs programs.now ≡ (E.setup engine.old).programs }
    requires between { IsBetween (P.asks programs.now) P.B.plan P.B.stands_for (E.entries engine.old) bodies.old }
    ensures setup { E.setup engine.new ≡ E.setup engine.old }
    ensures ok { OnOk result (IsBetween (P.asks programs.now) P.B.plan P.B.stands_for (E.entries engine.new) bodies.new) }
    ensures refused { OnErr result (RunsPrograms (P.asks programs.now) (E.entries engine.new)) }
    ensures is_over { result ≡ Ok ProcOver → reply_at (E.setup engine.new) (E.entries engine.new) (Proc p) Next ≡ Over }
    ensures over { StaysOver (reply_at (E.setup engine.old) (E.entries engine.old)) (reply_at (E.setup engine.new) (E.entries engine.new)) }
    ensures files { TouchesNoFile (E.entries engine.old) (E.entries engine.new) }
{
    match engine.next(p)? {
        Reply::Begin(tid, program, arg) => {
            let body = programs.start(program, arg)?;
            let last = Answer::Done;
            bodies.answer(Running { tid, body, last })?;
            Ok(Chosen::Thread(tid))
        }
        Reply::Turn(tid, last) => {
            let Some(body) = bodies.by_thread.take(tid) else {
                unreachable!()
            };
            bodies.answer(Running { tid, body, last })?;
            Ok(Chosen::Thread(tid))
        }
        Reply::Over => Ok(Chosen::Over),
        _ => Ok(Chosen::Idle),
    }
}

/// Makes the request of thread `tid`, which runs in proc `p`. It tells whether the thread runs on: it doesn't where it
/// waits or has ended, nor where another proc has ended all threads.
fn make_request<E: Engine, B: Body + Drop>(
    engine: &mut E,
    bodies: &mut Bodies<B>,
    p: u32,
    tid: Tid,
) -> Result<bool, NoMemory>
    requires between { (asks : Asks) × IsBetween asks B.plan B.stands_for (E.entries engine.old) bodies.old }
    ensures setup { E.setup engine.new ≡ E.setup engine.old }
    ensures ok { (asks : Asks) → IsBetween asks B.plan B.stands_for (E.entries engine.old) bodies.old
        → OnOk result (IsBetween asks B.plan B.stands_for (E.entries engine.new) bodies.new) }
    ensures refused { (asks : Asks) → IsBetween asks B.plan B.stands_for (E.entries engine.old) bodies.old
        → OnErr result (RunsPrograms asks (E.entries engine.new)) }
    ensures over { StaysOver (reply_at (E.setup engine.old) (E.entries engine.old)) (reply_at (E.setup engine.new) (E.entries engine.new)) }
    ensures files { TouchesNoFile (E.entries engine.old) (E.entries engine.new) }
{
    let Some(request) = bodies.requests.take(tid) else {
        return Ok(false);
    };
    bodies.asks_ioprocs |= matches!(&request, Request::Io(_));
    match engine.call(p, tid, request)? {
        Reply::Now(last) => {
            let Some(body) = bodies.by_thread.take(tid) else {
                unreachable!()
            };
            bodies.answer(Running { tid, body, last })?;
            Ok(true)
        }
        Reply::Ended => {
            bodies.by_thread.take(tid);
            Ok(false)
        }
        _ => Ok(false),
    }
}

/// One turn of proc `p`: its thread makes one request. Where none runs it is asked first which one is to run. It tells
/// whether the proc is over.
///
/// A thread that runs on makes its next request in the next turn, after the turns of all others.
pub(crate) fn proc_turn<E: Engine, P: Programs>(
    engine: &mut E,
    programs: &P,
    bodies: &mut Bodies<P::B>,
    p: u32,
) -> Result<bool, NoMemory>
    requires valid { IsValid (E.setup engine.old) }
    requires programs { P.programs programs.now ≡ (E.setup engine.old).programs }
    requires between { IsBetween (P.asks programs.now) P.B.plan P.B.stands_for (E.entries engine.old) bodies.old }
    ensures setup { E.setup engine.new ≡ E.setup engine.old }
    ensures ok { OnOk result (IsBetween (P.asks programs.now) P.B.plan P.B.stands_for (E.entries engine.new) bodies.new) }
    ensures refused { OnErr result (RunsPrograms (P.asks programs.now) (E.entries engine.new)) }
    ensures is_over { result ≡ Ok true → reply_at (E.setup engine.new) (E.entries engine.new) (Proc p) Next ≡ Over }
    ensures over { StaysOver (reply_at (E.setup engine.old) (E.entries engine.old)) (reply_at (E.setup engine.new) (E.entries engine.new)) }
    ensures files { TouchesNoFile (E.entries engine.old) (E.entries engine.new) }
{
    let tid = match bodies.running.take(p) {
        Some(tid) => tid,
        None => match choose_thread(engine, programs, bodies, p)? {
            Chosen::Thread(tid) => tid,
            Chosen::Idle => return Ok(false),
            Chosen::Over => return Ok(true),
        },
    };
    if make_request(engine, bodies, p, tid)? {
        bodies.running.put(p, tid)?;
    }
    Ok(false)
}
