ghost use Rattle.std.specs.Prelude.{◌≡◌, [], ◌∷◌, ◌++◌, ◌≤◌, length, slice_get, ◌↔◌, IsNone, MatchOption};
ghost use Rattle.std.specs.Option.{option_copied, option_copied_mut};
ghost use Rattle.std.specs.Borrow.{sem};

use std::alloc::Global;
use std::marker::Model;

/// A list of items that stays as long as it is, or loses its last ones. Contracts see a list.
///
/// It is made empty, or from a [`crate::Room`].
#[derive(Drop)]
pub struct Seq<T> {
    items: Vec<T>,
}

impl<T> Model for Seq<T> {
    ghost use Rattle.std.specs.Prelude.{List};
    ghost use Rattle.std.specs.Coded.{coded_list};

    ghost Value = { List T };

    ghost coded = { coded_list T.code };

    ghost view = { λ s. s.items.items };
}

impl<T> Seq<T> {
    ghost use Rattle.p9_word.specs.Lends.{lends_item};

    /// A list of no items. It takes no memory.
    pub fn new(alloc: Global) -> Seq<T>
        ensures { result ≡ [] }
    {
        Seq {
            items: Vec::new(alloc),
        }
    }

    pub(crate) fn from_vec(items: Vec<T>) -> Seq<T>
        ensures { result ≡ items.items }
    {
        Seq { items }
    }

    /// The number of items.
    pub fn len(&self) -> usize
        ensures { result ≡ length self.now }
    {
        self.items.len()
    }

    /// The items.
    pub fn as_slice(&self) -> &[T]
        ensures { result.now ≡ self.now }
    {
        self.items.as_slice()
    }

    /// The item with this number, counted from 0, or `None` exactly where the number is past the end.
    pub fn get(&self, i: usize) -> Option<&T>
        ensures value { option_copied result ≡ slice_get self.now i }
        ensures past { IsNone result ↔ (length self.now ≤ i) }
    {
        self.items.get(i)
    }

    /// The same, to be changed: what is written through it stands in the list, and all else stays.
    pub fn get_mut(&mut self, i: usize) -> Option<&mut T>
        ensures* writes_back { sem 𝓛 (lends_item T.row self.entry i result) }
        ensures value { option_copied_mut result ≡ slice_get self.old i }
        ensures past { IsNone result ↔ (length self.old ≤ i) }
    {
        self.items.get_mut(i)
    }

    /// Takes the last item out. It is `None` exactly where there is none.
    pub fn pop(&mut self) -> Option<T>
        ensures { MatchOption result ((self.old ≡ []) × (self.new ≡ [])) (λ last. self.old ≡ self.new ++ last ∷ []) }
    {
        self.items.pop()
    }
}
