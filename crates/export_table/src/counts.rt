//! For each object how many references to it are listed, and which references are listed.
ghost use Rattle.std.specs.Prelude.{◌≡◌, ◌+◌, ◌<◌, ◌≤◌, ◌^◌, ◌||◌, false, if◌then◌else◌};
ghost use Rattle.indexmap.specs.IndexMap.{spare};
ghost use Rattle.indexmap.specs.IndexSet.{spare as places};
ghost use Rattle.object_ids.specs.declared.ids.ObjId.{ObjId};
ghost use Rattle.object_ids.specs.declared.ids.Uid.{Uid};
ghost use Rattle.object_ids.specs.Same.{same_id};
ghost use Rattle.dgc_server.specs.HolderIndex.{one_if};
ghost use Rattle.export_table.specs.WaitIndex.{count_at, has_reference, is_reference};

use indexmap::{IndexMap, IndexSet};
use object_ids::{ObjId, Uid};

/// The number of listed references to each object.
pub type Counts = IndexMap<ObjId, u32>;

/// The listed references.
pub type References = IndexSet<Reference>;

/// A reference to an object in a return.
#[derive(Clone, Copy, PartialEq, Eq, Hash)]
pub struct Reference {
    /// The object.
    pub object: ObjId,
    /// The identifier of the return.
    pub uid: Uid,
}

/// The number of listed references to an object, by the counts.
pub fn count_of(counts: &Counts, object: &ObjId) -> u32
    ensures { result ≡ count_at counts.now object.now }
{
    counts.get(object).copied().unwrap_or(0)
}

/// Counts one reference more to an object, for which there is room.
pub fn raise(counts: &mut Counts, object: &ObjId)
    requires room { 0 < spare counts.old }
    requires few { count_at counts.old object.now < 2 ^ 31 }
    ensures counts { (o : ObjId)
        → count_at counts.new o ≡ count_at counts.old o + one_if (same_id object.now o) }
    ensures room { spare counts.old ≤ spare counts.new + 1 }
{
    let count = count_of(counts, object);
    match counts.insert(*object, count + 1) {
        Ok(_was) => {}
        Err(_refused) => {}
    }
}

/// Counts one reference fewer to an object. It takes no memory.
pub fn lower(counts: &mut Counts, object: &ObjId)
    requires { 1 ≤ count_at counts.old object.now }
    ensures counts { (o : ObjId)
        → count_at counts.new o + one_if (same_id object.now o) ≡ count_at counts.old o }
    ensures room { spare counts.old ≤ spare counts.new }
{
    let count = count_of(counts, object);
    if count > 1 {
        set(counts, object, count - 1);
    } else {
        forget(counts, object);
    }
}

/// Sets the count of an object that has one. It takes no memory.
fn set(counts: &mut Counts, object: &ObjId, count: u32)
    requires { 1 ≤ count_at counts.old object.now }
    ensures counts { (o : ObjId)
        → count_at counts.new o ≡ (if same_id object.now o then count else count_at counts.old o) }
    ensures room { spare counts.old ≤ spare counts.new }
{
    if let Some(slot) = counts.get_mut(object) {
        *slot = count;
    }
}

/// Forgets the count of an object. It takes no memory.
fn forget(counts: &mut Counts, object: &ObjId)
    ensures counts { (o : ObjId)
        → count_at counts.new o ≡ (if same_id object.now o then 0 else count_at counts.old o) }
    ensures room { spare counts.old ≤ spare counts.new }
{
    counts.swap_remove(object);
}

/// True where a reference is listed.
pub fn has(references: &References, object: &ObjId, uid: &Uid) -> bool
    ensures { result ≡ has_reference references.now object.now uid.now }
{
    references.contains(&Reference {
        object: *object,
        uid: *uid,
    })
}

/// Notes that a reference is listed. There is room for it.
pub fn note(references: &mut References, object: &ObjId, uid: &Uid)
    requires { 0 < places references.old }
    ensures references { (o : ObjId) (u : Uid)
        → has_reference references.new o u
        ≡ (is_reference object.now uid.now o u || has_reference references.old o u) }
    ensures room { places references.old ≤ places references.new + 1 }
{
    let reference = Reference {
        object: *object,
        uid: *uid,
    };
    match references.insert(reference) {
        Ok(_new) => {}
        Err(_refused) => {}
    }
}

/// Notes that a reference is listed no more. It takes no memory.
pub fn unnote(references: &mut References, object: &ObjId, uid: &Uid)
    ensures references { (o : ObjId) (u : Uid)
        → has_reference references.new o u
        ≡ (if is_reference object.now uid.now o u then false else has_reference references.old o
        u) }
    ensures room { places references.old ≤ places references.new }
{
    references.swap_remove(&Reference {
        object: *object,
        uid: *uid,
    });
}
