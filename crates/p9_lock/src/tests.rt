use super::*;
use p9_word::{NoMemory, Room, Seq, Tid};
use std::alloc::Global;
use std::marker::{Send, Sync};
use std::process::Abort;
use std::test::Fail;

/// A list of these numbers.
fn list<T: Copy>(alloc: Global, items: &[T]) -> Result<Seq<T>, NoMemory> {
    let mut room = Room::new(alloc);
    for item in items {
        room.reserve(1)?;
        room.push(*item);
    }
    Ok(room.into_seq())
}

/// One lock of each sort, a Rendez on the QLock, and Refs with the values 0 and 7.
fn one_of_each(alloc: Global) -> Result<Locks, NoMemory> {
    Locks::new(alloc, 1, 1, 1, &list(alloc, &[1])?, &list(alloc, &[0, 7])?)
}

/// Whether thread t gets lock 1 of this sort, if it may ask for it.
fn ask(locks: &mut Locks, s: Sort, t: Tid) -> Option<bool> {
    locks.reserve().ok()?;
    if !locks.is_lock(s, 1) || locks.waits(t).is_some() {
        return None;
    }
    Some(match s {
        Sort::Lock => locks.lock(t, 1),
        Sort::QLock => locks.qlock(t, 1),
        Sort::Read => locks.rlock(t, 1),
        Sort::Write => locks.wlock(t, 1),
    })
}

/// Whether it gets it without waiting.
fn try_for(locks: &mut Locks, s: Sort, t: Tid) -> Option<bool> {
    locks.reserve().ok()?;
    if !locks.is_lock(s, 1) || locks.waits(t).is_some() {
        return None;
    }
    Some(match s {
        Sort::Lock => locks.canlock(t, 1),
        Sort::QLock => locks.canqlock(t, 1),
        Sort::Read => locks.canrlock(t, 1),
        Sort::Write => locks.canwlock(t, 1),
    })
}

/// Thread t gives lock 1 of this sort up, if it holds it.
fn give_up(locks: &mut Locks, s: Sort, t: Tid, woken: &mut Room<Tid>) -> Option<()> {
    woken.reserve(locks.len()).ok()?;
    if !locks.is_lock(s, 1) || !locks.holds(s, t, 1) {
        return None;
    }
    match s {
        Sort::Lock => locks.unlock(t, 1, woken),
        Sort::QLock => locks.qunlock(t, 1, woken),
        Sort::Read => locks.runlock(t, 1, woken),
        Sort::Write => locks.wunlock(t, 1, woken),
    }
    Some(())
}

/// Thread t sleeps at Rendez 1, if it holds its QLock.
fn sleep(locks: &mut Locks, t: Tid, woken: &mut Room<Tid>) -> Option<()> {
    woken.reserve(locks.len()).ok()?;
    locks.reserve().ok()?;
    let q = locks.qlock_of(1);
    if !locks.is_lock(Sort::QLock, q)
        || !locks.holds(Sort::QLock, t, q)
        || locks.waits(t).is_some()
    {
        return None;
    }
    locks.rsleep(t, 1, woken);
    Some(())
}

/// How many are moved by a wakeup at Rendez 1, of one thread or of all, if its QLock is held.
fn wake(locks: &mut Locks, all: bool) -> Option<u32> {
    let q = locks.qlock_of(1);
    if !locks.is_lock(Sort::QLock, q) {
        return None;
    }
    locks.holder(Sort::QLock, q)?;
    Some(if all {
        locks.rwakeupall(1)
    } else {
        locks.rwakeup(1)
    })
}

/// Thread t comes with a tag and a value, if it doesn't wait.
fn meet(locks: &mut Locks, t: Tid, tag: u64, value: u64) -> Option<Meet> {
    locks.reserve().ok()?;
    if locks.waits(t).is_some() {
        return None;
    }
    Some(locks.meet(t, tag, value))
}

#[test]
fn a_lock_goes_to_those_who_wait_in_order(rt: HostRuntime) -> Result<(), Fail> {
    let mut locks = one_of_each(rt.alloc())?;
    let mut woken = Room::new(rt.alloc());
    assert!(rt; ask(&mut locks, Sort::Lock, 1) == Some(true));
    assert!(rt; ask(&mut locks, Sort::Lock, 2) == Some(false));
    assert!(rt; ask(&mut locks, Sort::Lock, 3) == Some(false));
    assert!(rt; try_for(&mut locks, Sort::Lock, 4) == Some(false));
    assert!(rt; locks.len() == 2);
    assert!(rt; give_up(&mut locks, Sort::Lock, 1, &mut woken).is_some());
    assert!(rt; give_up(&mut locks, Sort::Lock, 1, &mut woken).is_none());
    assert!(rt; give_up(&mut locks, Sort::Lock, 2, &mut woken).is_some());
    assert!(rt; give_up(&mut locks, Sort::Lock, 3, &mut woken).is_some());
    assert!(rt; try_for(&mut locks, Sort::Lock, 4) == Some(true));
    assert_eq!(rt; woken.as_slice(), [2, 3].as_slice());
    Ok(())
}

#[test]
fn readers_and_writers_take_turns(rt: HostRuntime) -> Result<(), Fail> {
    let mut locks = one_of_each(rt.alloc())?;
    let mut woken = Room::new(rt.alloc());
    assert!(rt; ask(&mut locks, Sort::Read, 1) == Some(true));
    assert!(rt; ask(&mut locks, Sort::Read, 1) == Some(true));
    assert!(rt; ask(&mut locks, Sort::Write, 2) == Some(false));
    assert!(rt; ask(&mut locks, Sort::Read, 3) == Some(false));
    assert!(rt; ask(&mut locks, Sort::Read, 4) == Some(false));
    assert!(rt; ask(&mut locks, Sort::Write, 5) == Some(false));
    assert!(rt; try_for(&mut locks, Sort::Read, 6) == Some(false));
    assert!(rt; give_up(&mut locks, Sort::Read, 1, &mut woken).is_some());
    assert!(rt; woken.as_slice().is_empty());
    assert!(rt; give_up(&mut locks, Sort::Read, 1, &mut woken).is_some());
    assert_eq!(rt; woken.as_slice(), [2].as_slice());
    assert!(rt; try_for(&mut locks, Sort::Write, 6) == Some(false));
    assert!(rt; give_up(&mut locks, Sort::Write, 2, &mut woken).is_some());
    assert_eq!(rt; woken.as_slice(), [2, 3, 4].as_slice());
    assert!(rt; give_up(&mut locks, Sort::Read, 4, &mut woken).is_some());
    assert!(rt; give_up(&mut locks, Sort::Read, 3, &mut woken).is_some());
    assert_eq!(rt; woken.as_slice(), [2, 3, 4, 5].as_slice());
    Ok(())
}

#[test]
fn sleepers_wait_for_the_lock_once_they_are_woken(rt: HostRuntime) -> Result<(), Fail> {
    let mut locks = one_of_each(rt.alloc())?;
    let mut woken = Room::new(rt.alloc());
    for t in 1..4 {
        assert!(rt; ask(&mut locks, Sort::QLock, t) == Some(true));
        assert!(rt; sleep(&mut locks, t, &mut woken).is_some());
    }
    assert!(rt; ask(&mut locks, Sort::QLock, 4) == Some(true));
    assert!(rt; wake(&mut locks, false) == Some(1));
    assert!(rt; ask(&mut locks, Sort::QLock, 5) == Some(false));
    assert!(rt; wake(&mut locks, true) == Some(2));
    assert!(rt; wake(&mut locks, true) == Some(0));
    assert!(rt; woken.as_slice().is_empty());
    for t in [4, 1, 5, 2, 3] {
        assert!(rt; give_up(&mut locks, Sort::QLock, t, &mut woken).is_some());
    }
    assert_eq!(rt; woken.as_slice(), [1, 5, 2, 3].as_slice());
    assert!(rt; locks.len() == 0);
    Ok(())
}

#[test]
fn threads_with_one_tag_meet(rt: HostRuntime) -> Result<(), Fail> {
    let mut locks = one_of_each(rt.alloc())?;
    assert!(rt; meet(&mut locks, 1, 7, 100) == Some(Meet::Waits));
    assert!(rt; meet(&mut locks, 2, 8, 150) == Some(Meet::Waits));
    assert!(rt; locks.waits(1) == Some(LockWait::Tag(7)));
    assert!(rt; meet(&mut locks, 3, 7, 200) == Some(Meet::Met(1, 100)));
    assert!(rt; locks.waits(1).is_none());
    assert!(rt; meet(&mut locks, 1, 8, 300) == Some(Meet::Met(2, 150)));
    Ok(())
}

/// What it gives to raise the Ref with this number, or to lower it, if it is there.
fn count(locks: &mut Locks, up: bool, x: u32) -> Option<u64> {
    if x == 0 || x as usize > locks.refs() {
        return None;
    }
    if up { locks.incref(x) } else { locks.decref(x) }
}

#[test]
fn refs_count_and_keep_their_ends(rt: HostRuntime) -> Result<(), Fail> {
    let mut locks = one_of_each(rt.alloc())?;
    assert!(rt; locks.refs() == 2);
    assert!(rt; count(&mut locks, true, 2) == Some(8));
    assert!(rt; count(&mut locks, false, 2) == Some(7));
    assert!(rt; count(&mut locks, false, 1).is_none());
    assert!(rt; count(&mut locks, true, 1) == Some(1));
    Ok(())
}

/// Takes what may move into a thread and be seen from several.
fn moves_into_a_thread<T: Send + Sync + Drop>(_moved: T) {}

#[test]
fn locks_move_into_a_thread(rt: HostRuntime) -> Result<(), Fail> {
    moves_into_a_thread(one_of_each(rt.alloc())?);
    Ok(())
}
