use super::*;
use p9_word::Msg;
use std::marker::{Send, Sync};
use std::process::Abort;
use std::test::Fail;

/// Whether it has died of this note.
fn has_died(delivered: Delivered, note: &[u8]) -> bool {
    match delivered {
        Delivered::Died(died) => died.as_slice() == note,
        Delivered::Quiet | Delivered::Caught(_) => false,
    }
}

#[test]
fn notes_are_caught_or_kill(rt: HostRuntime) -> Result<(), Fail> {
    let mut notes = Notes::new(rt.alloc(), 1)?;
    let (prefix, caught) = (
        Msg::from_slice(rt.alloc(), b"al")?,
        Msg::from_slice(rt.alloc(), b"alarm")?,
    );
    let kills = Msg::from_slice(rt.alloc(), b"hangup")?;
    notes.reserve(1)?;
    assert!(rt; notes.threadnotify(1, 7, prefix, true));
    assert!(rt; !notes.is_pending(1));
    notes.reserve(1)?;
    notes.post(1, caught);
    notes.reserve(1)?;
    notes.post(1, kills);
    assert!(rt; notes.is_pending(1));
    assert!(rt; matches!(notes.deliver(1), Delivered::Caught(7)));
    assert!(rt; has_died(notes.deliver(1), b"hangup"));
    assert!(rt; matches!(notes.deliver(1), Delivered::Quiet));
    Ok(())
}

/// Takes what may move into a thread and be seen from several.
fn moves_into_a_thread<T: Send + Sync + Drop>(_moved: T) {}

#[test]
fn notes_move_into_a_thread(rt: HostRuntime) -> Result<(), Fail> {
    moves_into_a_thread(Notes::new(rt.alloc(), 1)?);
    Ok(())
}
