ghost use Rattle.std.specs.Prelude.{◌≡◌, ◌↔◌, IfOk, IsTrue};

use crate::{Msg, NoMemory, Room, Seq};
use std::alloc::Global;

/// Plain data: it can be copied, where memory lasts, and compared.
pub trait Datum: Drop {
    /// Another value that is equal to this one. Messages in it are shared with the copy.
    fn copied(&self, alloc: Global) -> Result<Self, NoMemory>
    where
        Self: Sized,
        ensures { IfOk result (λ c. c ≡ self.now) };

    /// Whether both are equal.
    fn is_same(&self, other: &Self) -> bool
        ensures { IsTrue result ↔ (self.now ≡ other.now) };
}

impl Datum for u32 {
    fn copied(&self, _alloc: Global) -> Result<u32, NoMemory> {
        Ok(*self)
    }

    fn is_same(&self, other: &u32) -> bool {
        *self == *other
    }
}

impl Datum for u64 {
    fn copied(&self, _alloc: Global) -> Result<u64, NoMemory> {
        Ok(*self)
    }

    fn is_same(&self, other: &u64) -> bool {
        *self == *other
    }
}

impl Datum for Msg {
    fn copied(&self, _alloc: Global) -> Result<Msg, NoMemory> {
        self.copy()
    }

    fn is_same(&self, other: &Msg) -> bool {
        self.as_slice() == other.as_slice()
    }
}

impl<T: Datum> Datum for Option<T> {
    fn copied(&self, alloc: Global) -> Result<Option<T>, NoMemory> {
        match self {
            Some(item) => Ok(Some(item.copied(alloc)?)),
            None => Ok(None),
        }
    }

    fn is_same(&self, other: &Option<T>) -> bool {
        match (self, other) {
            (Some(a), Some(b)) => a.is_same(b),
            (None, None) => true,
            _ => false,
        }
    }
}

impl<T: Datum> Datum for Seq<T> {
    fn copied(&self, alloc: Global) -> Result<Seq<T>, NoMemory> {
        let mut room = Room::new(alloc);
        room.reserve(self.len())?;
        for item in self.as_slice() {
            room.push(item.copied(alloc)?);
        }
        Ok(room.into_seq())
    }

    fn is_same(&self, other: &Seq<T>) -> bool {
        let (a, b) = (self.as_slice(), other.as_slice());
        if a.len() != b.len() {
            return false;
        }
        for i in 0..a.len() {
            if !a[i].is_same(&b[i]) {
                return false;
            }
        }
        true
    }
}
