ghost use Rattle.std.specs.Prelude.{◌≡◌, ◌≤◌, replicate, OnOk};

use p9_word::{Msg, NoMemory, Room};
use std::alloc::Global;
use std::marker::Model;
use std::mem;

/// Memory for one message of zeros. Contracts see for how many.
#[derive(Drop)]
pub(crate) struct Zeros {
    room: Room<u8>,
    alloc: Global,
}

impl Model for Zeros {
    ghost use Rattle.std.specs.Prelude.{ℕ, ◌≡◌, []};

    ghost Value = { ℕ };

    ghost view = { λ z. z.room.spare };

    ghost invariant = { λ z. z.room.items ≡ [] };
}

impl Zeros {
    /// For none. It takes no memory.
    pub fn new(alloc: Global) -> Zeros
        ensures { result ≡ 0 }
    {
        Zeros {
            room: Room::new(alloc),
            alloc,
        }
    }

    /// Takes memory for so many.
    #[inline(always)]
    pub fn reserve(&mut self, n: u32) -> Result<(), NoMemory>
        ensures { OnOk result (n ≤ self.new) }
    {
        self.room.reserve(n as usize)
    }

    /// A message of so many zeros.
    #[inline(never)]
    pub fn take(&mut self, n: u32) -> Msg
        requires { n ≤ self.old }
        ensures { result ≡ replicate n 0 }
    {
        let mut room = mem::replace(&mut self.room, Room::new(self.alloc));
        for _ in 0..n {
            room.push(0);
        }
        room.into_msg()
    }
}
