ghost use Rattle.std.specs.Prelude.{◌≡◌, ◌+◌, ◌≤◌, [], ◌∷◌, ◌++◌, length, OnErr, OnOk};

use crate::msg::SHORT;
use crate::{Msg, NoMemory, Seq};
use std::alloc::Global;
use std::marker::Model;
use std::sync::Arc;

/// A list that grows. Contracts see its items and its spare: how many more it takes without memory.
///
/// Memory is taken by [`Room::reserve`] alone, so that what follows it can't fail half-way.
#[derive(Drop)]
pub struct Room<T> {
    items: Vec<T>,
    spare: usize,
    cells: Option<Cells>,
}

/// What a message that is not short needs beside its bytes.
#[derive(Drop)]
struct Cells {
    shared: Arc<Vec<u8>>,
    sole: Box<Vec<u8>>,
}

impl<T> Model for Room<T> {
    ghost use Rattle.std.specs.Prelude.{◌≤◌, ◌+◌, vec_len, vec_capacity, IsNone};
    ghost use Rattle.p9_word.specs.Filled.{Filled, filled_code};

    ghost Value = { Filled T };

    ghost coded = { filled_code T.code };

    ghost view = { λ r. record { items = r.items.items; spare = r.spare } };

    ghost invariant = { λ r. (vec_len r.items + r.spare ≤ vec_capacity r.items) × (IsNone r.cells → vec_len r.items + r.spare ≤ 14) };
}

impl<T> Room<T> {
    /// A list of no items, with spare 0. It takes no memory.
    pub fn new(alloc: Global) -> Room<T>
        ensures items { result.items ≡ [] }
        ensures spare { result.spare ≡ 0 }
    {
        Room {
            items: Vec::new(alloc),
            spare: 0,
            cells: None,
        }
    }

    /// Makes the spare at least `n`, and never less than it was. A refusal changes nothing.
    pub fn reserve(&mut self, n: usize) -> Result<(), NoMemory>
        ensures items { self.new.items ≡ self.old.items }
        ensures ok { OnOk result (n ≤ self.new.spare) }
        ensures kept { self.old.spare ≤ self.new.spare }
        ensures err { OnErr result (self.new ≡ self.old) }
    {
        if n <= self.spare {
            return Ok(());
        }
        if self.cells.is_none() && SHORT - self.items.len() < n {
            let alloc = *self.items.allocator();
            let sole = Box::new(alloc, Vec::new(alloc))?;
            let shared = Arc::new(alloc, Vec::new(alloc))?;
            self.cells = Some(Cells { shared, sole });
        }
        self.items.reserve(n)?;
        self.spare = n;
        Ok(())
    }

    /// How many more items it takes without memory.
    pub fn spare(&self) -> usize
        ensures { result ≡ self.now.spare }
    {
        self.spare
    }

    /// Puts an item last, in spare that was taken before.
    pub fn push(&mut self, item: T)
        requires { 1 ≤ self.old.spare }
        ensures items { self.new.items ≡ self.old.items ++ item ∷ [] }
        ensures spare { self.new.spare + 1 ≡ self.old.spare }
    {
        self.items.push_reserved(item);
        self.spare -= 1;
    }

    /// The items.
    pub fn as_slice(&self) -> &[T]
        ensures { result.now ≡ self.now.items }
    {
        self.items.as_slice()
    }

    /// The list of these items. It takes no memory.
    pub fn into_seq(self) -> Seq<T>
        ensures { result ≡ self.items }
    {
        let Room {
            items,
            spare: _,
            cells: _,
        } = self;
        Seq::from_vec(items)
    }
}

impl<T: Copy> Room<T> {
    /// Puts all of these last, in spare that was taken before.
    pub fn push_all(&mut self, items: &[T])
        requires { length items.now ≤ self.old.spare }
        ensures items { self.new.items ≡ self.old.items ++ items.now }
        ensures spare { self.new.spare + length items.now ≡ self.old.spare }
    {
        self.items.extend_from_slice(items).unwrap();
        self.spare -= items.len();
    }
}

impl Room<u8> {
    /// The message of these bytes, which are not copied. It takes no memory.
    pub fn into_msg(self) -> Msg
        ensures { result ≡ self.items }
    {
        let Room {
            items,
            spare: _,
            cells,
        } = self;
        if items.len() <= SHORT {
            return Msg::short(items.as_slice());
        }
        let Some(
            Cells {
                mut shared,
                mut sole,
            },
        ) = cells
        else {
            unreachable!()
        };
        match Arc::get_mut(&mut shared) {
            Some(cell) => {
                *cell = items;
                Msg::shared(shared)
            }
            // No other owner was ever made, so this is never reached.
            None => {
                *sole = items;
                Msg::sole(sole)
            }
        }
    }
}
