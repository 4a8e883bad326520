//! The references in a map in which each is quickly found. One that is dropped leaves a gap, so that no other has to move.
ghost use Rattle.std.specs.Prelude.{◌≡◌, ℕ, ◌+◌, ◌-◌, ◌++◌, ◌∷◌, [], None, not, length, filter, find, map, is_some, true, false, IfOk, OnOk, OnErr};
ghost use Rattle.object_ids.specs.declared.ids.ObjId.{ObjId};
ghost use Rattle.dgc_client.specs.RefMap.{ref_at, shown, refs_in, has_id, new_ref, changed, changed_among, lapsed, rests, AreSettled};

use crate::client_ref::{ClientRef, RefList};
use indexmap::IndexMap;
use object_ids::ObjId;
use std::alloc::{AllocError, Global};

/// The entry of a reference.
#[derive(Clone, Copy, Debug)]
pub struct Kept {
    /// The number that was the next one when the reference was registered.
    pub since: i64,
    /// True where it is sure.
    pub sure: bool,
    /// True where it is strong.
    pub strong: bool,
    /// True where the reference was dropped, so that this is a gap.
    pub gone: bool,
}

/// A change to a reference.
#[derive(Clone, Copy)]
pub enum Change {
    /// It is sure, if it was registered before the dirty call of this number was sent.
    Confirm { number: i64 },
    /// It is strong.
    Strengthen,
}

/// The entry of each object's reference, in the order of registration.
pub type RefMap = IndexMap<ObjId, Kept>;

/// The reference of an object of which this is kept, if it is no gap.
fn shown(object: &ObjId, kept: &Kept) -> Option<ClientRef>
    ensures { result ≡ shown object.now kept.now }
{
    if kept.gone {
        return None;
    }
    Some(ClientRef {
        id: *object,
        since: kept.since,
        sure: kept.sure,
        strong: kept.strong,
    })
}

/// The reference of an object.
pub fn find(refs: &RefMap, object: &ObjId) -> Option<ClientRef>
    ensures { result ≡ find (has_id object.now) (refs_in refs.now.entries) }
{
    let _count = refs.len();
    match refs.get(object) {
        Some(kept) => shown(object, kept),
        None => None,
    }
}

/// Appends a new reference of an object that has none. After a refusal the references are as they were.
pub fn append(refs: &mut RefMap, object: &ObjId, since: &i64) -> Result<(), AllocError>
    requires { find (has_id object.now) (refs_in refs.old.entries) ≡ None }
    ensures ok { OnOk result (refs_in refs.new.entries
        ≡ refs_in refs.old.entries ++ new_ref object.now since.now ∷ []) }
    ensures err { OnErr result (refs_in refs.new.entries ≡ refs_in refs.old.entries) }
    ensures settled { (n : ℕ) → AreSettled n refs.old.entries
        → AreSettled (n - 1) refs.new.entries }
{
    refs.shift_remove(object);
    refs.insert(*object, new_kept(since))?;
    Ok(())
}

/// Returns the entry of a new reference.
fn new_kept(since: &i64) -> Kept
    ensures { result ≡ record { since = since.now; sure = false; strong = false; gone = false } }
{
    Kept {
        since: *since,
        sure: false,
        strong: false,
        gone: false,
    }
}

/// Makes the reference of an object a gap. It takes no memory.
pub fn remove(refs: &mut RefMap, object: &ObjId)
    ensures refs { refs_in refs.new.entries
        ≡ filter (λ r. not (has_id object.now r)) (refs_in refs.old.entries) }
    ensures count { is_some (find (has_id object.now) (refs_in refs.old.entries)) ≡ true →
        length (refs_in refs.new.entries) + 1 ≡ length (refs_in refs.old.entries) }
    ensures settled { (n : ℕ) → AreSettled n refs.old.entries → AreSettled n refs.new.entries }
{
    if let Some(kept) = refs.get_mut(object) {
        *kept = gap(kept);
    }
}

/// The gap that a reference leaves.
fn gap(kept: &Kept) -> Kept
    ensures { result ≡ record kept.now { gone = true } }
{
    Kept {
        since: kept.since,
        sure: kept.sure,
        strong: kept.strong,
        gone: true,
    }
}

/// Makes a change to the references of these objects, each as often as it is named. It takes no memory.
pub fn change_each(refs: &mut RefMap, objects: &[ObjId], change: &Change)
    ensures refs { refs_in refs.new.entries
        ≡ map (changed_among objects.now change.now) (refs_in refs.old.entries) }
    ensures settled { (n : ℕ) → AreSettled n refs.old.entries → AreSettled n refs.new.entries }
{
    for object in objects {
        change_one(refs, object, change);
    }
}

/// Makes a change to the reference of an object, if it has one.
fn change_one(refs: &mut RefMap, object: &ObjId, change: &Change)
    ensures refs { refs_in refs.new.entries
        ≡ map (changed_among (object.now ∷ []) change.now) (refs_in refs.old.entries) }
    ensures settled { (n : ℕ) → AreSettled n refs.old.entries → AreSettled n refs.new.entries }
{
    if let Some(kept) = refs.get_mut(object) {
        *kept = with_change(kept, change);
    }
}

/// Returns the entry of a reference once a change was made to it.
fn with_change(kept: &Kept, change: &Change) -> Kept
    ensures gone { result.gone ≡ kept.now.gone }
    ensures value { (o : ObjId) → ref_at o result ≡ changed change.now (ref_at o kept.now) }
{
    match change {
        Change::Confirm { number } => Kept {
            since: kept.since,
            sure: kept.since <= *number || kept.sure,
            strong: kept.strong,
            gone: kept.gone,
        },
        Change::Strengthen => Kept {
            since: kept.since,
            sure: kept.sure,
            strong: true,
            gone: kept.gone,
        },
    }
}

/// Makes no reference sure, and sweeps out the gaps. It takes no memory.
pub fn lapse(refs: &mut RefMap)
    ensures { refs_in refs.new.entries ≡ map lapsed (refs_in refs.old.entries) }
{
    refs.retain(
        |_object: &ObjId, kept: &mut Kept| -> bool
            ensures { (result ≡ not kept.old.gone)
                × (kept.new ≡ record kept.old { sure = false }) }
        {
            kept.sure = false;
            !kept.gone
        },
    );
}

/// Sweeps out the gaps. It takes no memory.
pub fn sweep(refs: &mut RefMap)
    ensures { refs_in refs.new.entries ≡ refs_in refs.old.entries }
{
    refs.retain(
        |_object: &ObjId, kept: &mut Kept| -> bool
            ensures { (result ≡ not kept.old.gone) × (kept.new ≡ kept.old) }
        { !kept.gone },
    );
}

/// Returns whether an entry wants no call while the client's time lasts: it is a gap, or sure.
fn rests(kept: &Kept) -> bool
    ensures { result ≡ rests kept.now }
{
    kept.gone || kept.sure
}

/// The number of the first entries that want no call while the client's time lasts. At least so many are known to want none.
pub fn settle(refs: &RefMap, settled: usize) -> usize
    requires { AreSettled settled refs.now.entries }
    ensures { AreSettled result refs.now.entries }
{
    let entries = refs.as_slice();
    let mut count = settled;
    while let Some((_object, kept)) = entries.get_index(count) {
        if !rests(kept) {
            return count;
        }
        count += 1;
    }
    count
}

/// The references, in order.
pub fn list(alloc: Global, refs: &RefMap) -> Result<RefList, AllocError>
    ensures { IfOk result (λ list. list ≡ refs_in refs.now.entries) }
{
    let mut list = RefList::new(alloc);
    for (object, kept) in refs.iter() {
        put_shown(&mut list, object, kept)?;
    }
    Ok(list)
}

/// Appends the reference of an object of which this is kept, if it is no gap.
fn put_shown(list: &mut RefList, object: &ObjId, kept: &Kept) -> Result<(), AllocError>
    ensures { OnOk result (list.new ≡ list.old ++ refs_in ((object.now, kept.now) ∷ [])) }
{
    match shown(object, kept) {
        Some(reference) => list.push(reference),
        None => Ok(()),
    }
}
