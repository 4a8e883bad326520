//! For each return how many references of it are listed.
ghost use Rattle.std.specs.Prelude.{◌≡◌, ◌+◌, ◌<◌, ◌≤◌, ◌^◌, if◌then◌else◌};
ghost use Rattle.indexmap.specs.IndexMap.{spare};
ghost use Rattle.object_ids.specs.declared.ids.Uid.{Uid};
ghost use Rattle.object_ids.specs.Same.{same_uid};
ghost use Rattle.dgc_server.specs.HolderIndex.{one_if};
ghost use Rattle.export_table.specs.WaitIndex.{returned_at};

use indexmap::IndexMap;
use object_ids::Uid;

/// The number of listed references of each return.
pub type Returns = IndexMap<Uid, u32>;

/// The number of listed references of a return, by the counts.
pub fn count_of(returns: &Returns, uid: &Uid) -> u32
    ensures { result ≡ returned_at returns.now uid.now }
{
    returns.get(uid).copied().unwrap_or(0)
}

/// Counts one reference more of a return, for which there is room.
pub fn raise(returns: &mut Returns, uid: &Uid)
    requires room { 0 < spare returns.old }
    requires few { returned_at returns.old uid.now < 2 ^ 31 }
    ensures counts { (u : Uid)
        → returned_at returns.new u ≡ returned_at returns.old u + one_if (same_uid uid.now u) }
    ensures room { spare returns.old ≤ spare returns.new + 1 }
{
    let count = count_of(returns, uid);
    match returns.insert(*uid, count + 1) {
        Ok(_was) => {}
        Err(_refused) => {}
    }
}

/// Counts one reference fewer of a return. It takes no memory.
pub fn lower(returns: &mut Returns, uid: &Uid)
    requires { 1 ≤ returned_at returns.old uid.now }
    ensures counts { (u : Uid)
        → returned_at returns.new u + one_if (same_uid uid.now u) ≡ returned_at returns.old u }
    ensures room { spare returns.old ≤ spare returns.new }
{
    let count = count_of(returns, uid);
    if count > 1 {
        set(returns, uid, count - 1);
    } else {
        forget(returns, uid);
    }
}

/// Sets the count of a return that has one. It takes no memory.
fn set(returns: &mut Returns, uid: &Uid, count: u32)
    requires { 1 ≤ returned_at returns.old uid.now }
    ensures counts { (u : Uid)
        → returned_at returns.new u
        ≡ (if same_uid uid.now u then count else returned_at returns.old u) }
    ensures room { spare returns.old ≤ spare returns.new }
{
    if let Some(slot) = returns.get_mut(uid) {
        *slot = count;
    }
}

/// Forgets the count of a return. It takes no memory.
fn forget(returns: &mut Returns, uid: &Uid)
    ensures counts { (u : Uid)
        → returned_at returns.new u
        ≡ (if same_uid uid.now u then 0 else returned_at returns.old u) }
    ensures room { spare returns.old ≤ spare returns.new }
{
    returns.swap_remove(uid);
}
