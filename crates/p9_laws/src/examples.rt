//! Worked examples, proved by computing.

ghost use Rattle.p9_manual.specs.History.{IsLegal};
ghost use Rattle.p9_laws.specs.CopySetup.{copy_setup};
ghost use Rattle.p9_laws.specs.CopyExample.{copied_hi, ShowsTheCopy};
ghost use Rattle.p9_laws.specs.WrongExample.{swapped, IsWrongAt};
ghost use Rattle.p9_laws.specs.ThreadExamples.{turns_setup, by_turns, ShowsTheTurns};
ghost use Rattle.p9_laws.specs.ChannelExamples.{channel_setup, by_a_channel, ShowsTheChannel};
ghost use Rattle.p9_laws.specs.AltExamples.{ready_setup, one_ready, ShowsNoChoice, choice_setup, two_ready, ShowsTheChoice};
ghost use Rattle.p9_laws.specs.ClosingExample.{closing_setup, closed_under, ShowsTheClosing};
ghost use Rattle.p9_laws.specs.LockExamples.{rendez_setup, slept_and_woken, ShowsTheSleep};
ghost use Rattle.p9_laws.specs.LockExamples.{meeting_setup, met, ShowsTheMeeting, alone_setup, never_met, ShowsTheHeldProc};
ghost use Rattle.p9_laws.specs.SignalExamples.{interrupt_setup, interrupted_once, ShowsTheInterrupt};
ghost use Rattle.p9_laws.specs.SignalExamples.{kill_setup, killed_with_a_lock, ShowsTheKill};
ghost use Rattle.p9_laws.specs.IoExamples.{write_setup, interrupted_write, ShowsTheWrite};
ghost use Rattle.p9_laws.specs.SignalExamples.{note_setup, killed_by_a_note, caught_note, ShowsTheNote};

/// The copy of a file of the two bytes `hi` is a legal history of a copy's setup.
pub fn copying_two_bytes_is_legal()
    ensures { IsLegal copy_setup copied_hi }
{}

/// After it the proc's turns are over, and the second file took the bytes that the first one gave.
pub fn copying_two_bytes_copies_them()
    ensures { ShowsTheCopy }
{}

/// Where a sender finds a waiting receiver, the receiver runs first: the history in which the sender does is legal up
/// to that turn, its entry 18, and wrong there.
pub fn sender_before_receiver_is_not_legal()
    ensures { IsWrongAt copy_setup swapped 18 }
{}

/// Threads of two procs that run by turns, until one of them ends them all, are a legal history.
pub fn taking_turns_is_legal()
    ensures { IsLegal turns_setup by_turns }
{}

/// A proc makes no request of a thread that runs in another one, and once all threads are ended its turns are over.
pub fn taking_turns_shows_the_turns()
    ensures { ShowsTheTurns }
{}

/// A channel for one element that a thread makes, fills, closes, empties and frees is a legal history.
pub fn using_a_channel_is_legal()
    ensures { IsLegal channel_setup by_a_channel }
{}

/// Once it is freed no request names it, and the next channel has another id.
pub fn using_a_channel_frees_it()
    ensures { ShowsTheChannel }
{}

/// An alt on three channels takes the element of the only one that has one, and then doesn't block.
pub fn taking_the_ready_entry_is_legal()
    ensures { IsLegal ready_setup one_ready }
{}

/// It makes no draw, since there is no choice.
pub fn taking_the_ready_entry_draws_nothing()
    ensures { ShowsNoChoice }
{}

/// Two threads that each send or receive on a channel meet, and a draw says which of them sends.
pub fn choosing_an_entry_is_legal()
    ensures { IsLegal choice_setup two_ready }
{}

/// One draw is made, nobody waits any more, and the thread that waited runs first.
pub fn choosing_an_entry_makes_a_draw()
    ensures { ShowsTheChoice }
{}

/// Three threads wait on a channel that is closed, and each is told so once, in the order of their calls.
pub fn closing_a_channel_is_legal()
    ensures { IsLegal closing_setup closed_under }
{}

/// Nobody waits on it any more, and the three threads are ready.
pub fn closing_a_channel_wakes_all()
    ensures { ShowsTheClosing }
{}

/// A thread that sleeps at a Rendez and is woken gets the QLock again once it is given up: a legal history.
pub fn sleeping_and_waking_is_legal()
    ensures { IsLegal rendez_setup slept_and_woken }
{}

/// Once it is woken it waits for the QLock, and at the end it has it.
pub fn sleeping_and_waking_gives_the_lock_back()
    ensures { ShowsTheSleep }
{}

/// Two threads of two procs that come with one tag are told each other's value.
pub fn meeting_is_legal()
    ensures { IsLegal meeting_setup met }
{}

/// The proc of the one that came first is held until the other one comes.
pub fn meeting_holds_a_proc()
    ensures { ShowsTheMeeting }
{}

/// Two threads of one proc never meet: the run is stuck.
pub fn meeting_in_one_proc_is_stuck()
    ensures { IsLegal alone_setup never_met }
{}

/// It is so though the second thread is ready, since its proc is held.
pub fn meeting_in_one_proc_leaves_a_thread_ready()
    ensures { ShowsTheHeldProc }
{}

/// A thread that waits in an alt is interrupted, is told so at its turn, and waits again: a legal history.
pub fn interrupting_a_thread_is_legal()
    ensures { IsLegal interrupt_setup interrupted_once }
{}

/// Its wait is ended once, and nothing of the interrupt ends its next one.
pub fn interrupting_a_thread_ends_one_wait()
    ensures { ShowsTheInterrupt }
{}

/// A thread that holds a QLock is killed with its group, has its turn, ends at its next request that lets others run, and so
/// the run is stuck: a legal history.
pub fn killing_a_group_is_legal()
    ensures { IsLegal kill_setup killed_with_a_lock }
{}

/// It holds the QLock still, and another thread waits for it.
pub fn killing_a_group_frees_no_lock()
    ensures { ShowsTheKill }
{}

/// A note that no handler catches ends all threads of its proc: a legal history.
pub fn dying_by_a_note_is_legal()
    ensures { IsLegal note_setup killed_by_a_note }
{}

/// The proc's turns are over then.
pub fn dying_by_a_note_ends_the_turns()
    ensures { ShowsTheNote }
{}

/// A note that a handler catches is told at a turn, and the thread goes on at the next one: a legal history.
pub fn catching_a_note_is_legal()
    ensures { IsLegal note_setup caught_note }
{}

/// A thread waits for a write that its ioproc has begun, and another thread interrupts its wait, which has an effect only
/// once: a legal history.
pub fn interrupting_a_call_is_legal()
    ensures { IsLegal write_setup interrupted_write }
{}

/// The call goes on for nobody, and its bytes are written. Then the ioproc is idle.
pub fn interrupting_a_call_leaves_it_begun()
    ensures { ShowsTheWrite }
{}
