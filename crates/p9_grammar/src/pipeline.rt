use crate::{Instr, Kind};
use p9_word::{Msg, Seq};

/// A file.
#[derive(Drop)]
pub struct FileDecl {
    pub name: Msg,
    /// Whether it is written.
    pub out: bool,
    /// Where it lies. `-` is standard input, or standard output.
    pub path: Msg,
}

/// A channel.
#[derive(Drop)]
pub struct ChanDecl {
    pub name: Msg,
    /// How many elements it holds, 0 to 4,096.
    pub cap: u32,
    /// The most bytes of an element, 1 to 65,536.
    pub elsize: u32,
}

/// A Rendez.
#[derive(Drop)]
pub struct RendezDecl {
    pub name: Msg,
    /// Its QLock, by its number.
    pub qlock: u32,
}

/// A Ref.
#[derive(Drop)]
pub struct RefDecl {
    pub name: Msg,
    /// Its value at the start.
    pub value: u64,
}

/// A program of instructions.
#[derive(Drop)]
pub struct ProgDecl {
    pub name: Msg,
    pub code: Seq<Instr>,
}

/// What a thread does.
#[derive(Drop)]
pub enum Job {
    /// A stage, with its channels by their numbers.
    Stage {
        kind: Kind,
        ins: Seq<u32>,
        outs: Seq<u32>,
    },
    /// A prog, by its number, with what it is started with.
    Code {
        prog: u32,
        arg: u64,
    },
}

/// A thread.
#[derive(Drop)]
pub struct ThreadDecl {
    pub name: Msg,
    pub job: Job,
}

/// A proc and its threads.
#[derive(Drop)]
pub struct ProcDecl {
    pub name: Msg,
    pub threads: Seq<ThreadDecl>,
}

/// What a text declares, each sort in the order of its lines. A name that is used stands as its number: things of
/// a sort are counted from 1, in that order.
#[derive(Drop)]
pub struct Pipeline {
    pub files: Seq<FileDecl>,
    pub chans: Seq<ChanDecl>,
    pub locks: Seq<Msg>,
    pub qlocks: Seq<Msg>,
    pub rwlocks: Seq<Msg>,
    pub rendezes: Seq<RendezDecl>,
    pub refs: Seq<RefDecl>,
    /// The further proc places, 0 to 63.
    pub later: u32,
    pub progs: Seq<ProgDecl>,
    pub procs: Seq<ProcDecl>,
}
