ghost use Rattle.std.specs.Prelude.{◌≡◌, ◌<◌, ◌==◌, ℕ, length, OnOk, Some, None, if◌then◌else◌};
ghost use Rattle.p9_run.specs.ByNumber.{value_at};

use p9_word::NoMemory;
use std::alloc::Global;
use std::mem;

/// Values by their numbers, as those of threads by the threads' numbers. Some numbers have none.
#[derive(Drop)]
pub(crate) struct Numbered<T> {
    values: Vec<Option<T>>,
}

impl<T: Drop> Numbered<T> {
    /// No values. It takes no memory.
    pub(crate) fn new(alloc: Global) -> Numbered<T>
        ensures { (u : ℕ) → value_at result.values.items u ≡ None }
    {
        Numbered {
            values: Vec::new(alloc),
        }
    }

    /// Takes the memory for a value at `n`. All values stay.
    fn reserve(&mut self, n: u32) -> Result<(), NoMemory>
        ensures room { OnOk result (n < length self.new.values.items) }
        ensures values { (u : ℕ) → value_at self.new.values.items u ≡ value_at self.old.values.items u }
    {
        while self.values.len() <= n as usize {
            self.values.push(None)?;
        }
        Ok(())
    }

    /// Makes this the value at `n`. The others stay.
    pub(crate) fn put(&mut self, n: u32, value: T) -> Result<(), NoMemory>
        ensures { OnOk result
            ((u : ℕ) → value_at self.new.values.items u ≡ (if u == n then Some value else value_at self.old.values.items u)) }
    {
        self.reserve(n)?;
        self.values[n as usize] = Some(value);
        Ok(())
    }

    /// Takes the value at `n` out, if there is one. The others stay.
    pub(crate) fn take(&mut self, n: u32) -> Option<T>
        ensures value { result ≡ value_at self.old.values.items n }
        ensures others { (u : ℕ) → value_at self.new.values.items u ≡ (if u == n then None else value_at self.old.values.items u) }
    {
        let i = n as usize;
        if i < self.values.len() {
            mem::take(&mut self.values[i])
        } else {
            None
        }
    }
}
