ghost use Rattle.std.specs.Prelude.{◌≡◌, ◌↔◌, ◌-◌, None, IfOk, IsSome, IsTrue, replicate};
ghost use Rattle.p9_manual.specs.Claims.{holder_in, is_free, is_thread};
ghost use Rattle.p9_manual.specs.State.{by_id, changed};

use p9_word::{NoMemory, Tid};
use std::alloc::Global;

/// So many locks, which nobody holds.
pub(crate) fn unheld(alloc: Global, n: u32) -> Result<Vec<Option<Tid>>, NoMemory>
    ensures { IfOk result (λ v. v.items ≡ replicate n None) }
{
    let mut holders = Vec::new(alloc);
    holders.resize(n as usize, None)?;
    Ok(holders)
}

/// Whether there is a lock k.
pub(crate) fn is_there(holders: &[Option<Tid>], k: u32) -> bool
    ensures { IsTrue result ↔ IsSome (by_id holders.now k) }
{
    k > 0 && k as usize <= holders.len()
}

/// Who holds lock k.
pub(crate) fn holder_at(holders: &[Option<Tid>], k: u32) -> Option<Tid>
    ensures { result ≡ holder_in (by_id holders.now k) }
{
    if k == 0 {
        return None;
    }
    match holders.get(k as usize - 1) {
        Some(holder) => *holder,
        None => None,
    }
}

/// Whether this is thread t.
pub(crate) fn is_thread(holder: Option<Tid>, t: Tid) -> bool
    ensures { result ≡ is_thread t holder }
{
    match holder {
        Some(u) => u == t,
        None => false,
    }
}

/// Whether nobody holds lock k, which is there.
pub(crate) fn is_free(holders: &[Option<Tid>], k: u32) -> bool
    requires { IsSome (by_id holders.now k) }
    ensures { result ≡ is_free (by_id holders.now k) }
{
    holder_at(holders, k).is_none()
}

/// Lock k, which is there, gets another holder, or none.
pub(crate) fn set_holder(holders: &mut Vec<Option<Tid>>, k: u32, holder: Option<Tid>)
    requires { IsSome (by_id holders.old.items k) }
    ensures { holders.new.items ≡ changed (λ _. holder) holders.old.items (k - 1) }
{
    prove!(k > 0 && k as usize <= holders.len());
    holders[k as usize - 1] = holder;
}
