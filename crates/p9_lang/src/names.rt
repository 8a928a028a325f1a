//! Names of a sort, in the order in which they were declared.

ghost use Rattle.std.specs.Prelude.{◌≡◌, [], ◌∷◌, ◌++◌, IfOk, Ok, bytes_eq, false, length, map};
ghost use Rattle.std.specs.List.{list_any};
ghost use Rattle.p9_grammar.specs.Sorts.{place_of, with_name};
ghost use Rattle.p9_lang.specs.Gives.{Gives};

use crate::fault::LineFault;
use indexmap::IndexSet;
use p9_grammar::Why;
use p9_word::{Msg, NoMemory, Room, Seq};
use std::alloc::Global;
use std::marker::Model;

/// Names, each of them once. Contracts see the list.
#[derive(Drop)]
pub(crate) struct Names {
    set: IndexSet<Vec<u8>>,
}

impl Model for Names {
    ghost use Rattle.std.specs.Prelude.{List, ℕ, map};

    ghost Value = { List (List ℕ) };

    ghost view = { λ n. map (λ v. v.items) n.set.keys };
}

impl Names {
    pub fn new(alloc: Global) -> Names
        ensures { result ≡ [] }
    {
        Names {
            set: IndexSet::new(alloc),
        }
    }

    pub fn len(&self) -> usize
        ensures { result ≡ length self.now }
    {
        self.set.len()
    }

    /// Where a name stands, counted from 0.
    pub fn place(&self, name: &[u8]) -> Option<usize>
        ensures { result ≡ place_of name.now self.now }
    {
        self.set.get_index_of(name)
    }

    /// Whether the name is there.
    fn has(&self, name: &[u8]) -> bool
        ensures { result ≡ list_any (λ n. bytes_eq name.now n) self.now }
    {
        self.set.contains(name)
    }

    /// Puts a name last, unless it is there or there are `most`.
    pub fn add(&mut self, alloc: Global, most: usize, name: &[u8]) -> Result<(), LineFault>
        ensures { Gives (λ _. self.new) result (with_name most self.old name.now) }
    {
        if self.has(name) {
            return Err(LineFault::Text(Why::Twice));
        }
        if self.len() >= most {
            return Err(LineFault::Text(Why::TooMany));
        }
        self.push(alloc, name)
    }

    /// Puts a name last that isn't there.
    fn push(&mut self, alloc: Global, name: &[u8]) -> Result<(), LineFault>
        requires { list_any (λ n. bytes_eq name.now n) self.old ≡ false }
        ensures { Gives (λ _. self.new) result (Ok (self.old ++ name.now ∷ [])) }
    {
        let name = Vec::from_slice(alloc, name)?;
        put_name(&mut self.set, name)
    }

    /// The names, in their order.
    pub fn to_seq(&self, alloc: Global) -> Result<Seq<Msg>, NoMemory>
        ensures { IfOk result (λ names. names ≡ self.now) }
    {
        msgs_of(alloc, self.set.as_slice())
    }
}

/// Puts a name last that isn't there.
fn put_name(set: &mut IndexSet<Vec<u8>>, name: Vec<u8>) -> Result<(), LineFault>
    requires { list_any (λ v. bytes_eq name.items v.items) set.old.keys ≡ false }
    ensures { Gives (λ _. map (λ v. v.items) set.new.keys) result (Ok (map (λ v. v.items) set.old.keys ++ name.items ∷ [])) }
{
    set.insert(name)?;
    Ok(())
}

/// Messages of the same bytes.
fn msgs_of(alloc: Global, names: &[Vec<u8>]) -> Result<Seq<Msg>, NoMemory>
    ensures { IfOk result (λ msgs. msgs ≡ map (λ v. v.items) names.now) }
{
    let mut msgs = Room::new(alloc);
    msgs.reserve(names.len())?;
    for name in names {
        msgs.push(Msg::from_slice(alloc, name.as_slice())?);
    }
    Ok(msgs.into_seq())
}
