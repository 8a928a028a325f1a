use super::*;
use p9_word::{Effect, IoAnswer, IoCall, Msg, Tid};
use std::marker::{Send, Sync};
use std::process::Abort;
use std::test::Fail;

/// Makes ioproc k, and posts a call of thread t there that reads at most 4 bytes, if it is idle then.
fn post(io: &mut IoBoard, k: u32, t: Tid) -> bool {
    let made = io.make(k);
    if !matches!(io.ioproc(k), Some(p9_manual::Ioproc::Idle)) {
        return false;
    }
    io.post(k, t, IoCall::IoRead(4));
    made
}

/// Whom the call that ioproc k has begun was for, if it has begun one.
fn did(io: &mut IoBoard, k: u32) -> Option<Option<Tid>> {
    if !matches!(io.ioproc(k), Some(p9_manual::Ioproc::Begun(..))) {
        return None;
    }
    Some(io.did(k))
}

/// Whether a call reads at most 4 bytes.
fn reads_four(call: Option<&IoCall>) -> bool {
    matches!(call, Some(IoCall::IoRead(4)))
}

#[test]
fn a_call_is_posted_taken_and_done(rt: HostRuntime) -> Result<(), Fail> {
    let mut io = IoBoard::new(rt.alloc(), 2)?;
    assert!(rt; io.state(1) == IoState::Unmade && io.state(3) == IoState::Unmade);
    assert!(rt; !io.make(0) && !io.make(3));
    assert!(rt; io.make(1));
    assert!(rt; !io.make(1));
    assert!(rt; io.state(1) == IoState::Idle);
    assert!(rt; !io.take(1));
    assert!(rt; post(&mut io, 2, 7));
    assert!(rt; io.state(2) == IoState::Posted);
    assert!(rt; io.caller(2) == Some(7) && reads_four(io.call(2)));
    assert!(rt; io.take(2));
    assert!(rt; !io.take(2));
    assert!(rt; io.state(2) == IoState::Begun);
    assert!(rt; io.begun_calls() == 1 && reads_four(io.call(2)));
    assert!(rt; did(&mut io, 2) == Some(Some(7)));
    assert!(rt; did(&mut io, 2).is_none());
    assert!(rt; io.state(2) == IoState::Idle && io.call(2).is_none());
    assert!(rt; io.begun_calls() == 0);
    Ok(())
}

#[test]
fn a_thread_is_interrupted(rt: HostRuntime) -> Result<(), Fail> {
    let mut io = IoBoard::new(rt.alloc(), 2)?;
    assert!(rt; post(&mut io, 1, 3));
    assert!(rt; post(&mut io, 2, 4));
    assert!(rt; io.take(2));
    assert!(rt; io.interrupt(1) == Some(3));
    assert!(rt; io.state(1) == IoState::Idle);
    assert!(rt; io.interrupt(1).is_none() && io.interrupt(9).is_none());
    assert!(rt; io.interrupt(2) == Some(4));
    assert!(rt; io.state(2) == IoState::Begun && io.caller(2).is_none());
    assert!(rt; io.interrupt(2).is_none());
    assert!(rt; did(&mut io, 2) == Some(None));
    Ok(())
}

#[test]
fn a_thread_leaves(rt: HostRuntime) -> Result<(), Fail> {
    let mut io = IoBoard::new(rt.alloc(), 2)?;
    assert!(rt; post(&mut io, 1, 3));
    assert!(rt; post(&mut io, 2, 4));
    assert!(rt; io.take(2));
    assert!(rt; !io.leave(5));
    assert!(rt; io.leave(3));
    assert!(rt; !io.leave(3));
    assert!(rt; io.state(1) == IoState::Idle);
    assert!(rt; io.leave(4));
    assert!(rt; io.state(2) == IoState::Begun && io.caller(2).is_none());
    Ok(())
}

/// What ioproc k answers for bytes that were read, if there is memory for its call.
fn finish(io: &mut IoBoard, k: u32, bytes: Msg) -> Option<Finished> {
    io.ioproc(k)?;
    io.prepare(k).ok()?;
    let failed = false;
    io.finish(k, &Effect::Got { failed, bytes })
}

#[test]
fn bytes_are_answered(rt: HostRuntime) -> Result<(), Fail> {
    let mut io = IoBoard::new(rt.alloc(), 1)?;
    assert!(rt; post(&mut io, 1, 3));
    assert!(rt; io.take(1));
    let Some(Finished { caller, answer }) = finish(&mut io, 1, Msg::from_slice(rt.alloc(), b"abc")?)
    else {
        return Err(Fail::new("nothing was finished"));
    };
    assert!(rt; caller == Some(3));
    assert!(rt; matches!(&answer, IoAnswer::Bytes(bytes) if bytes.as_slice() == b"abc".as_slice()));
    Ok(())
}

/// Takes what may move into a thread and be seen from several.
fn moves_into_a_thread<T: Send + Sync + Drop>(_moved: T) {}

#[test]
fn ioprocs_move_into_a_thread(rt: HostRuntime) -> Result<(), Fail> {
    moves_into_a_thread(IoBoard::new(rt.alloc(), 1)?);
    Ok(())
}
