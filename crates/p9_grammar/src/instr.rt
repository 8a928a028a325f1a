use p9_word::{AltOp, Ending, Msg, Seq};

/// A number: one that the text has, or `$`.
#[derive(Clone, Copy, Debug, PartialEq, Eq)]
pub enum Num {
    /// This number; a name stands as the number of what it names.
    Fixed(u64),
    /// `$`: the number that the program holds.
    Dollar,
}

/// Bytes: those that the text has, or `$`.
#[derive(Drop)]
pub enum Bytes {
    /// These bytes.
    Fixed(Msg),
    /// `$`: the message that the program holds.
    Dollar,
}

/// What is sent.
#[derive(Drop)]
pub enum Given {
    /// `-`: as many zero bytes as an element has.
    Zeros,
    /// This value.
    Value(Bytes),
}

/// What an entry of an alt sends, or does with what it receives.
#[derive(Drop)]
pub enum CodeSlot {
    /// Sends zero bytes, or discards what is received.
    Null,
    /// Sends this value.
    Give(Bytes),
    /// Keeps what is received.
    Keep,
}

/// An entry of an alt.
#[derive(Drop)]
pub struct CodeEntry {
    /// What it is for.
    pub op: AltOp,
    /// The channel.
    pub chan: Num,
    /// Whether it is out of use.
    pub err: bool,
    /// What it sends, or does with what it receives.
    pub slot: CodeSlot,
}

/// An instruction of a prog. A name in it stands as the number of what it names: a program's is that of its program in
/// the setup, where the threads of the text come first. thread(2), lock(2), rendezvous(2), ioproc(2), notify(2).
#[derive(Drop)]
pub enum Instr {
    /// `threadcreate`: makes a thread of a program.
    ThreadCreate {
        program: Num,
        arg: Num,
    },
    /// `proccreate`: makes a proc with a thread of a program.
    ProcCreate {
        program: Num,
        arg: Num,
    },
    /// `threadexits`: ends the thread.
    ThreadExits {
        text: Bytes,
    },
    /// `threadexitsall`: ends all threads.
    ThreadExitsAll {
        text: Bytes,
    },
    /// `yield`: lets others run.
    Yield,
    /// `threadid`: the thread's id.
    ThreadId,
    /// `threadpid`: the proc of a thread.
    ThreadPid {
        tid: Num,
    },
    /// `threadgetgrp`: the thread's group.
    ThreadGetGrp,
    /// `threadsetgrp`: sets the thread's group.
    ThreadSetGrp {
        group: Num,
    },
    /// `threadsetname`: sets the thread's name.
    ThreadSetName {
        name: Bytes,
    },
    /// `threadgetname`: the thread's name.
    ThreadGetName,
    /// `threaddata`: the thread's word.
    ThreadWord,
    /// `threadsetdata`: sets the thread's word.
    ThreadSetWord {
        word: Num,
    },
    /// `procdata`: the proc's word.
    ProcWord,
    /// `procsetdata`: sets the proc's word.
    ProcSetWord {
        word: Num,
    },
    /// `threadint`: interrupts a thread.
    ThreadInt {
        tid: Num,
    },
    /// `threadkill`: kills a thread.
    ThreadKill {
        tid: Num,
    },
    /// `threadintgrp`: interrupts a group.
    ThreadIntGrp {
        group: Num,
    },
    /// `threadkillgrp`: kills a group.
    ThreadKillGrp {
        group: Num,
    },
    /// `threadnotify`: adds or removes a handler of notes.
    ThreadNotify {
        id: Num,
        prefix: Bytes,
        on: bool,
    },
    /// `postnote`: posts a note to a proc.
    PostNote {
        proc_no: Num,
        note: Bytes,
    },
    /// `chancreate`: makes a channel.
    ChanCreate {
        cap: Num,
        elsize: Num,
    },
    /// `chanfree`: gives a channel up.
    ChanFree {
        chan: Num,
    },
    /// `chanclose`: closes a channel.
    ChanClose {
        chan: Num,
    },
    /// `chanclosing`: the elements left in a closed channel.
    ChanClosing {
        chan: Num,
    },
    /// `alt`: one of several sends and receives.
    Alt {
        entries: Seq<CodeEntry>,
        ending: Ending,
    },
    /// `send`: sends a value.
    Send {
        chan: Num,
        value: Given,
    },
    /// `recv`: receives a value.
    Recv {
        chan: Num,
        keep: bool,
    },
    /// `nbsend`: sends without waiting.
    NbSend {
        chan: Num,
        value: Given,
    },
    /// `nbrecv`: receives without waiting.
    NbRecv {
        chan: Num,
        keep: bool,
    },
    /// `sendul`: sends a number.
    SendUl {
        chan: Num,
        n: Num,
    },
    /// `recvul`: receives a number.
    RecvUl {
        chan: Num,
    },
    /// `nbsendul`: sends a number without waiting.
    NbSendUl {
        chan: Num,
        n: Num,
    },
    /// `nbrecvul`: receives a number without waiting.
    NbRecvUl {
        chan: Num,
    },
    /// `chanprint`: sends a text.
    ChanPrint {
        chan: Num,
        text: Bytes,
    },
    /// `rendezvous`: meets another thread.
    Rendezvous {
        tag: Num,
        value: Num,
    },
    /// `lock`: takes a Lock.
    Lock {
        k: Num,
    },
    /// `canlock`: takes a Lock if it is free.
    CanLock {
        k: Num,
    },
    /// `unlock`: gives a Lock back.
    Unlock {
        k: Num,
    },
    /// `qlock`: takes a QLock.
    QLock {
        k: Num,
    },
    /// `canqlock`: takes a QLock if it is free.
    CanQLock {
        k: Num,
    },
    /// `qunlock`: gives a QLock back.
    QUnlock {
        k: Num,
    },
    /// `rlock`: takes an RWLock as a reader.
    RLock {
        k: Num,
    },
    /// `canrlock`: takes an RWLock as a reader if that doesn't wait.
    CanRLock {
        k: Num,
    },
    /// `runlock`: gives an RWLock back as a reader.
    RUnlock {
        k: Num,
    },
    /// `wlock`: takes an RWLock as its writer.
    WLock {
        k: Num,
    },
    /// `canwlock`: takes an RWLock as its writer if it is free.
    CanWLock {
        k: Num,
    },
    /// `wunlock`: gives an RWLock back as its writer.
    WUnlock {
        k: Num,
    },
    /// `rsleep`: sleeps at a Rendez.
    RSleep {
        k: Num,
    },
    /// `rwakeup`: wakes one sleeper.
    RWakeup {
        k: Num,
    },
    /// `rwakeupall`: wakes all sleepers.
    RWakeupAll {
        k: Num,
    },
    /// `incref`: adds one to a Ref.
    IncRef {
        k: Num,
    },
    /// `decref`: takes one from a Ref.
    DecRef {
        k: Num,
    },
    /// `ioproc`: makes the ioproc of a file.
    IoProc {
        k: Num,
    },
    /// `ioopen`: opens the file.
    IoOpen {
        k: Num,
    },
    /// `ioread`: reads at most so many bytes.
    IoRead {
        k: Num,
        n: Num,
    },
    /// `ioreadn`: reads so many bytes.
    IoReadN {
        k: Num,
        n: Num,
    },
    /// `iowrite`: writes bytes.
    IoWrite {
        k: Num,
        m: Bytes,
    },
    /// `ioclose`: closes the file.
    IoClose {
        k: Num,
    },
    /// `iocall`: asks the device for something of its own.
    IoOwn {
        k: Num,
        code: Num,
        m: Bytes,
    },
    /// `iointerrupt`: interrupts who waits for the ioproc.
    IoInterrupt {
        k: Num,
    },
    /// `closeioproc`: ends the ioproc.
    CloseIoProc {
        k: Num,
    },
    /// `loop`: the lines up to its end, this many times, 1 to 1,000,000,000.
    Loop(u32),
    /// `ifok`: the lines up to its end where ok is true.
    IfOk,
    /// `iferr`: the lines up to its end where ok is false.
    IfErr,
    /// `end`: ends the innermost block.
    End,
    /// `stop`: ends the program.
    Stop,
}
