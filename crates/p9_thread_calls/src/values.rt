#![tactic(auto, unfolding(p9_manual::specs::Threads::asked))]

ghost use Rattle.std.specs.Prelude.{◌≡◌, true};
ghost use Rattle.p9_word.specs.declared.request.ThreadReq.TheVariants as ask;
ghost use Rattle.p9_word.specs.declared.setup.Setup.{Setup};
ghost use Rattle.p9_manual.specs.State.{by_id};
ghost use Rattle.p9_manual.specs.Threads.{is_no_name};
ghost use Rattle.p9_sched.specs.Messages.{IsBare, IsOfReply};
ghost use Rattle.p9_sched.specs.Schedule.{IsMade, name_of};
ghost use Rattle.p9_sched.specs.Turns.{place_of};
ghost use Rattle.p9_thread_calls.specs.Memory.{message_of};
ghost use Rattle.p9_thread_calls.specs.Serves.{ServesRequest};

use crate::spares::Spare;
use p9_sched::{Place, Sched};
use p9_word::limits::MOST_NAME_BYTES;
use p9_word::{Answer, Msg, Reply, Tid};

/// Lets the other ready threads run first.
pub(crate) fn give_way(sched: &mut Sched, t: Tid) -> Reply
    requires { place_of (by_id sched.old.threads t) ≡ Place.Running }
    ensures serves { (setup : Setup) → ServesRequest setup t ask.Yield sched.old result sched.new }
    ensures bare { IsBare result }
{
    sched.ready(t, Answer::Done);
    Reply::Waits
}

/// The caller's id.
pub(crate) fn tell_id(sched: &Sched, t: Tid) -> Reply
    ensures serves { (setup : Setup) → ServesRequest setup t ask.ThreadId sched.now result sched.now }
    ensures bare { IsBare result }
{
    let _ = sched;
    Reply::Now(Answer::Number(u64::from(t)))
}

/// The proc of a thread, also of one that has ended.
pub(crate) fn tell_proc(sched: &Sched, t: Tid, u: Tid) -> Reply
    ensures serves { (setup : Setup) → ServesRequest setup t (ask.ThreadPid u) sched.now result sched.now }
    ensures bare { IsBare result }
{
    let _ = t;
    if sched.is_made(u) {
        Reply::Now(Answer::Number(u64::from(sched.proc_of(u))))
    } else {
        Reply::Now(Answer::Bad)
    }
}

/// The caller's group.
pub(crate) fn tell_group(sched: &Sched, t: Tid) -> Reply
    requires { IsMade t sched.now }
    ensures serves { (setup : Setup) → ServesRequest setup t ask.ThreadGetGrp sched.now result sched.now }
    ensures bare { IsBare result }
{
    Reply::Now(Answer::Number(u64::from(sched.group(t))))
}

/// Puts the caller into a group, and tells its old one.
pub(crate) fn join_group(sched: &mut Sched, t: Tid, group: u32) -> Reply
    requires made { IsMade t sched.old }
    requires room { sched.old.rooms.group ≡ true }
    ensures serves { (setup : Setup) → ServesRequest setup t (ask.ThreadSetGrp group) sched.old result sched.new }
    ensures bare { IsBare result }
{
    let old = sched.group(t);
    sched.set_group(t, group);
    Reply::Now(Answer::Number(u64::from(old)))
}

/// Whether a name has no bytes or too many.
fn is_no_name(name: &Msg) -> bool
    ensures { result ≡ is_no_name name.now }
{
    let len = name.as_slice().len();
    len == 0 || len > MOST_NAME_BYTES
}

/// Gives the caller a name.
pub(crate) fn set_name(sched: &mut Sched, t: Tid, name: Msg) -> Reply
    requires made { IsMade t sched.old }
    requires room { sched.old.rooms.name ≡ true }
    ensures serves { (setup : Setup) → ServesRequest setup t (ask.ThreadSetName name) sched.old result sched.new }
    ensures bare { IsBare result }
{
    if is_no_name(&name) {
        return Reply::Now(Answer::Bad);
    }
    sched.set_name(t, name);
    Reply::Now(Answer::Done)
}

/// The caller's name, of which this is a copy.
pub(crate) fn tell_name(sched: &Sched, t: Tid, spare: Spare) -> Reply
    requires { spare ≡ Spare.Name (name_of (by_id sched.now.threads t)) }
    ensures serves { (setup : Setup) → ServesRequest setup t ask.ThreadGetName sched.now result sched.now }
    ensures told { IsOfReply result (message_of spare) }
{
    let _ = sched;
    let _ = t;
    match spare {
        Spare::Name(name) => Reply::Now(Answer::Text(name)),
        Spare::Nothing => unreachable!(),
    }
}

/// The caller's word.
pub(crate) fn tell_word(sched: &Sched, t: Tid) -> Reply
    requires { IsMade t sched.now }
    ensures serves { (setup : Setup) → ServesRequest setup t ask.ThreadWord sched.now result sched.now }
    ensures bare { IsBare result }
{
    Reply::Now(Answer::Number(sched.word(t)))
}

/// Sets the caller's word.
pub(crate) fn set_word(sched: &mut Sched, t: Tid, word: u64) -> Reply
    requires { IsMade t sched.old }
    ensures serves { (setup : Setup) → ServesRequest setup t (ask.ThreadSetWord word) sched.old result sched.new }
    ensures bare { IsBare result }
{
    sched.set_word(t, word);
    Reply::Now(Answer::Done)
}

/// The word of the caller's proc.
pub(crate) fn tell_proc_word(sched: &Sched, t: Tid) -> Reply
    requires { IsMade t sched.now }
    ensures serves { (setup : Setup) → ServesRequest setup t ask.ProcWord sched.now result sched.now }
    ensures bare { IsBare result }
{
    Reply::Now(Answer::Number(sched.proc_word(sched.proc_of(t))))
}

/// Sets the word of the caller's proc.
pub(crate) fn set_proc_word(sched: &mut Sched, t: Tid, word: u64) -> Reply
    requires { IsMade t sched.old }
    ensures serves { (setup : Setup) → ServesRequest setup t (ask.ProcSetWord word) sched.old result sched.new }
    ensures bare { IsBare result }
{
    sched.set_proc_word(sched.proc_of(t), word);
    Reply::Now(Answer::Done)
}
