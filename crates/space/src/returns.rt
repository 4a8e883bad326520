//! The references that an ask returns.
ghost use Rattle.std.specs.Prelude.{◌≡◌, ◌+◌, ◌<◌, ◌≤◌, ◌++◌, ◌&&◌, length, filter, not, nat_lt, option_to_list, cond, true, false, IfOk, OnOk};
ghost use Rattle.std.specs.List.{list_any};
ghost use Rattle.indexmap.specs.IndexSet.{contains};
ghost use Rattle.history.specs.declared.limits.TheConstants.{MAX_AWAITING, END_OF_OBJECT_COUNT};
ghost use Rattle.history.specs.Lists.{distinct};
ghost use Rattle.object_ids.specs.declared.ids.ObjId.{ObjId};
ghost use Rattle.object_ids.specs.Same.{same_id, same_key};
ghost use Rattle.export_table.specs.ExportRows.{is_exported};
ghost use Rattle.export_table.specs.Waits.{is_waiting};
ghost use Rattle.space.specs.Acts.{Agrees, await_refusal, awaiting_after, new_ids, opens, return_refusal, returned_by};

use crate::calls::live_among;
use crate::doubts::extend;
use crate::prepared::Admitted;
use crate::tables::Tables;
use export_table::Exports;
use history::limits::MAX_AWAITING;
use history::places::id_at;
use history::{Ask, Refused};
use indexmap::IndexSet;
use object_ids::{FullKind, ObjId, ObjIds, Uid};
use sequence::Same;
use std::alloc::{AllocError, Global};

/// So many objects are counted without memory.
const FEW: usize = 16;

/// The objects to which an admitted ask returns references. It is refused where these references would pass the limit
/// of those that await at a moment.
pub(crate) fn returned_objects(
    tables: &Tables,
    admitted: Admitted,
    now: u64,
    ask: &Ask,
) -> Result<Vec<ObjId>, Refused>
    requires { tables.now.added + opens admitted.effective ask.now < END_OF_OBJECT_COUNT }
    ensures objects { IfOk result (λ objects. objects.items
        ≡ returned_by tables.now.config.uid tables.now.added tables.now.exports.rows
        admitted.stood admitted.effective ask.now) }
    ensures refusal { Agrees
        (await_refusal now tables.now.exports.rows tables.now.exports.waits admitted.stood
        admitted.effective ask.now) result }
{
    match ask {
        Ask::Finish {
            object: _,
            made,
            listed,
            uid,
        } => {
            if admitted.effective {
                of_return(tables, now, made.as_slice(), listed, uid)
            } else {
                Ok(Vec::new(tables.alloc))
            }
        }
        Ask::Lookup { name: _, uid } => of_lookup(tables, admitted.stood, now, uid),
        _ => Ok(Vec::new(tables.alloc)),
    }
}

/// The object for which a name stands, if it stands for one.
fn of_lookup(
    tables: &Tables,
    stood: Option<ObjId>,
    now: u64,
    uid: &Uid,
) -> Result<Vec<ObjId>, Refused>
    ensures objects { IfOk result (λ objects. objects.items ≡ option_to_list stood) }
    ensures refusal { Agrees
        (return_refusal now uid.now 0 (option_to_list stood) tables.now.exports.waits) result }
{
    let found = list_of(tables.alloc, stood)?;
    if is_past(tables, now, uid, 0, &found) {
        return Err(Refused::Full(FullKind::Awaiting));
    }
    Ok(found)
}

/// Returns the list of an object, or of none.
pub(crate) fn list_of(alloc: Global, object: Option<ObjId>) -> Result<Vec<ObjId>, AllocError>
    ensures { IfOk result (λ objects. objects.items ≡ option_to_list object) }
{
    let mut objects = Vec::new(alloc);
    if let Some(object) = object {
        objects.push(object)?;
    }
    Ok(objects)
}

/// The objects to which a call that returns these makes references: objects of these kinds, and the listed ones that are exported.
fn of_return(
    tables: &Tables,
    now: u64,
    made: &[u32],
    listed: &ObjIds,
    uid: &Uid,
) -> Result<Vec<ObjId>, Refused>
    requires { tables.now.added + length made.now < END_OF_OBJECT_COUNT }
    ensures objects { IfOk result (λ objects. objects.items
        ≡ new_ids tables.now.config.uid tables.now.added made.now
        ++ filter (is_exported tables.now.exports.rows) listed.now) }
    ensures refusal { let live = filter (is_exported tables.now.exports.rows) listed.now in
        Agrees (return_refusal now uid.now (length made.now) live tables.now.exports.waits)
        result }
{
    let live = live_among(tables.alloc, &tables.exports, listed)?;
    if is_past(tables, now, uid, made.len(), live.as_slice()) {
        return Err(Refused::Full(FullKind::Awaiting));
    }
    let space = tables.config.uid;
    Ok(new_and(tables.alloc, space, tables.added, made, live.as_slice())?)
}

/// The identifiers of objects of these kinds, the first of them as the space's k-th, and after them those of
/// other objects.
fn new_and(
    alloc: Global,
    space: Uid,
    k: u64,
    made: &[u32],
    others: &[ObjId],
) -> Result<Vec<ObjId>, AllocError>
    requires { k + length made.now < END_OF_OBJECT_COUNT }
    ensures { IfOk result (λ objects. objects.items ≡ new_ids space k made.now ++ others.now) }
{
    let mut objects = new_ids(alloc, space, k, made)?;
    extend(&mut objects, others)?;
    Ok(objects)
}

/// The identifiers of objects of these kinds, the first of them as the space's k-th.
pub(crate) fn new_ids(
    alloc: Global,
    space: Uid,
    k: u64,
    made: &[u32],
) -> Result<Vec<ObjId>, AllocError>
    requires { k + length made.now < END_OF_OBJECT_COUNT }
    ensures { IfOk result (λ ids. ids.items ≡ new_ids space k made.now) }
{
    let mut ids = Vec::with_capacity(alloc, made.len())?;
    for i in 0..made.len() {
        ids.push(id_at(space, k + i as u64))?;
    }
    Ok(ids)
}

/// Returns whether a return would pass the limit of the references that await at a moment. It refers to so many new
/// objects and to these exported ones.
fn is_past(tables: &Tables, now: u64, uid: &Uid, made: usize, live: &[ObjId]) -> bool
    ensures { result ≡ nat_lt MAX_AWAITING
        (awaiting_after now uid.now made live.now tables.now.exports.waits) }
{
    let waiting = u128::from(tables.exports.waiting_count(now)) + made as u128;
    let most = u128::from(MAX_AWAITING);
    most < waiting + live.len() as u128
        && most < waiting + new_waits(tables.alloc, &tables.exports, now, uid, live) as u128
}

/// Returns the number of these objects, each counted once, that do not wait at a moment as listed in a return. It
/// counts many with memory. Where there is none, it counts them one by one.
fn new_waits(alloc: Global, exports: &Exports, now: u64, uid: &Uid, live: &[ObjId]) -> usize
    ensures value { result ≡ length
        (filter (λ o. not (is_waiting now o uid.now exports.now.waits))
        (distinct same_id live.now)) }
    ensures bound { result ≤ length live.now }
{
    if live.len() > FEW {
        match counted_with_memory(alloc, exports, now, uid, live) {
            Ok(count) => count,
            Err(_refused) => counted_one_by_one(exports, now, uid, live),
        }
    } else {
        counted_one_by_one(exports, now, uid, live)
    }
}

/// Returns the number of these objects, each counted once, that do not wait at a moment as listed in a return. It
/// compares each with all that follow.
fn counted_one_by_one(exports: &Exports, now: u64, uid: &Uid, live: &[ObjId]) -> usize
    ensures value { result ≡ length
        (filter (λ o. not (is_waiting now o uid.now exports.now.waits))
        (distinct same_id live.now)) }
    ensures bound { result ≤ length live.now }
{
    let mut count = 0;
    for i in 0..live.len() {
        if is_new_wait(exports, now, uid, &live[i], &live[i + 1..]) {
            count += 1;
        }
    }
    count
}

/// Returns the number of these objects, each counted once, that do not wait at a moment as listed in a return. It
/// keeps a list of those that it has met.
fn counted_with_memory(
    alloc: Global,
    exports: &Exports,
    now: u64,
    uid: &Uid,
    live: &[ObjId],
) -> Result<usize, AllocError>
    ensures value { IfOk result (λ count. count ≡ length
        (filter (λ o. not (is_waiting now o uid.now exports.now.waits))
        (distinct same_id live.now))) }
    ensures bound { IfOk result (λ count. count ≤ length live.now) }
{
    let mut seen = IndexSet::new(alloc);
    counted_from_last(&mut seen, exports, now, uid, live)
}

/// Returns the number of these objects, each counted once, that do not wait at a moment as listed in a return. It
/// counts from the last to the first. None was seen before.
fn counted_from_last(
    seen: &mut IndexSet<ObjId>,
    exports: &Exports,
    now: u64,
    uid: &Uid,
    live: &[ObjId],
) -> Result<usize, AllocError>
    requires { (o : ObjId) → contains same_key seen.old o ≡ false }
    ensures value { IfOk result (λ count. count ≡ length
        (filter (λ o. not (is_waiting now o uid.now exports.now.waits))
        (distinct same_id live.now))) }
    ensures bound { IfOk result (λ count. count ≤ length live.now) }
{
    let mut count = 0;
    let mut i = live.len();
    while i > 0 {
        i -= 1;
        if is_first_new_wait(seen, exports, now, uid, &live[i])? {
            count += 1;
        }
    }
    Ok(count)
}

/// Notes that an object was seen, and says whether it was not before and does not wait at a moment as listed in a return.
fn is_first_new_wait(
    seen: &mut IndexSet<ObjId>,
    exports: &Exports,
    now: u64,
    uid: &Uid,
    object: &ObjId,
) -> Result<bool, AllocError>
    ensures value { IfOk result (λ first. first
        ≡ (not (contains same_key seen.old object.now)
        && not (is_waiting now object.now uid.now exports.now.waits))) }
    ensures seen { OnOk result
        ((o : ObjId)
        → contains same_key seen.new o
        ≡ cond (same_key object.now o) true (contains same_key seen.old o)) }
{
    let is_new = seen.insert(*object)?;
    Ok(is_new && !exports.is_waiting(*object, *uid, now))
}

/// Returns whether an object does not wait at a moment as listed in a return, and is none of the others.
fn is_new_wait(exports: &Exports, now: u64, uid: &Uid, object: &ObjId, others: &[ObjId]) -> bool
    ensures { result
        ≡ (not (list_any (same_id object.now) others.now)
        && not (is_waiting now object.now uid.now exports.now.waits)) }
{
    !is_among(object, others) && !exports.is_waiting(*object, *uid, now)
}

fn is_among(object: &ObjId, objects: &[ObjId]) -> bool
    ensures { result ≡ list_any (same_id object.now) objects.now }
{
    objects.iter().any(|other| is_object(object, other))
}

fn is_object(object: &ObjId, other: &ObjId) -> bool
    ensures { result ≡ same_id object.now other.now }
{
    object.is_same(other)
}
