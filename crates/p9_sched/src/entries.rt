ghost use Rattle.std.specs.Prelude.{◌≡◌, ◌≢◌, ℕ, ◌+◌, ◌<◌, ◌≤◌, None, Some, unwrap_or, nat_eq};
ghost use Rattle.indexmap.specs.IndexMap.{get, spare};

use indexmap::IndexMap;
use p9_word::{Msg, Tid};

/// Notes the group of a new thread. One in group 0 has no entry.
pub(crate) fn note_group(groups: &mut IndexMap<Tid, u32>, t: Tid, group: u32)
    requires new { get nat_eq groups.old t ≡ None }
    requires spare { 0 < spare groups.old }
    ensures group { unwrap_or (get nat_eq groups.new t) 0 ≡ group }
    ensures others { (u : ℕ) → u ≢ t → get nat_eq groups.new u ≡ get nat_eq groups.old u }
    ensures spare { spare groups.old ≤ spare groups.new + 1 }
{
    if group != 0 {
        put_group(groups, t, group);
    }
}

/// Puts a thread into a group.
pub(crate) fn put_group(groups: &mut IndexMap<Tid, u32>, t: Tid, group: u32)
    requires { 0 < spare groups.old }
    ensures group { get nat_eq groups.new t ≡ Some group }
    ensures others { (u : ℕ) → u ≢ t → get nat_eq groups.new u ≡ get nat_eq groups.old u }
    ensures spare { spare groups.old ≤ spare groups.new + 1 }
{
    groups.insert(t, group).unwrap();
}

/// Gives a thread a name.
pub(crate) fn put_name(names: &mut IndexMap<Tid, Msg>, t: Tid, name: Msg)
    requires { 0 < spare names.old }
    ensures name { get nat_eq names.new t ≡ Some name }
    ensures others { (u : ℕ) → u ≢ t → get nat_eq names.new u ≡ get nat_eq names.old u }
{
    names.insert(t, name).unwrap();
}
