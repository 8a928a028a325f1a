//! What the lines so far declare, sort by sort.

ghost use Rattle.std.specs.Prelude.{◌≡◌};
ghost use Rattle.p9_grammar.specs.Draft.{nothing};
ghost use Rattle.p9_lang.specs.Views.{draft_of};

use crate::names::Names;
use p9_grammar::{
    ChanDecl, ChanEnds, FileDecl, Instr, ProcDecl, ProgDecl, RefDecl, RendezDecl, ThreadDecl,
};
use p9_word::{Msg, Room};
use std::alloc::Global;

/// Files, and the places of those that a stage uses.
#[derive(Drop)]
pub(crate) struct Files {
    pub names: Names,
    pub decls: Room<FileDecl>,
    pub used: Vec<usize>,
}

/// Channels, and which of their ends stages use.
#[derive(Drop)]
pub(crate) struct Chans {
    pub names: Names,
    pub decls: Room<ChanDecl>,
    pub ends: Vec<ChanEnds>,
}

/// Rendezes.
#[derive(Drop)]
pub(crate) struct Rendezes {
    pub names: Names,
    pub decls: Room<RendezDecl>,
}

/// Refs.
#[derive(Drop)]
pub(crate) struct Refs {
    pub names: Names,
    pub decls: Room<RefDecl>,
}

/// A prog whose `done` hasn't come.
#[derive(Drop)]
pub(crate) struct OpenProg {
    pub name: Msg,
    pub code: Room<Instr>,
    /// How many blocks are open.
    pub depth: u32,
    /// Whether the line before began a loop.
    pub loops: bool,
}

/// Progs.
#[derive(Drop)]
pub(crate) struct Progs {
    pub names: Names,
    pub done: Room<ProgDecl>,
    pub current: Option<OpenProg>,
}

/// The last proc, which threads still join.
#[derive(Drop)]
pub(crate) struct OpenProc {
    pub name: Msg,
    pub threads: Room<ThreadDecl>,
}

/// Procs and their threads.
#[derive(Drop)]
pub(crate) struct Procs {
    pub names: Names,
    pub done: Room<ProcDecl>,
    pub current: Option<OpenProc>,
    pub thread_names: Names,
    /// Whether a thread runs a prog.
    pub coded: bool,
}

/// All of them.
#[derive(Drop)]
pub(crate) struct Draft {
    pub files: Files,
    pub chans: Chans,
    pub locks: Names,
    pub qlocks: Names,
    pub rwlocks: Names,
    pub rendezes: Rendezes,
    pub refs: Refs,
    pub later: Option<u32>,
    pub progs: Progs,
    pub procs: Procs,
}

impl Draft {
    /// Nothing is declared yet. It takes no memory.
    pub fn new(alloc: Global) -> Draft
        ensures { draft_of result ≡ nothing }
    {
        Draft {
            files: Files {
                names: Names::new(alloc),
                decls: Room::new(alloc),
                used: Vec::new(alloc),
            },
            chans: Chans {
                names: Names::new(alloc),
                decls: Room::new(alloc),
                ends: Vec::new(alloc),
            },
            locks: Names::new(alloc),
            qlocks: Names::new(alloc),
            rwlocks: Names::new(alloc),
            rendezes: Rendezes {
                names: Names::new(alloc),
                decls: Room::new(alloc),
            },
            refs: Refs {
                names: Names::new(alloc),
                decls: Room::new(alloc),
            },
            later: None,
            progs: Progs {
                names: Names::new(alloc),
                done: Room::new(alloc),
                current: None,
            },
            procs: Procs {
                names: Names::new(alloc),
                done: Room::new(alloc),
                current: None,
                thread_names: Names::new(alloc),
                coded: false,
            },
        }
    }
}
