//! The objects for which dirty calls under way ask.
ghost use Rattle.std.specs.Prelude.{◌≡◌, ◌&&◌, ◌||◌, ℤ, List, int_le, IfOk, OnOk, not, filter, ◌++◌, ◌∷◌, [], if◌then◌else◌};
ghost use Rattle.std.specs.List.{list_any};
ghost use Rattle.object_ids.specs.declared.ids.ObjId.{ObjId};
ghost use Rattle.object_ids.specs.Same.{same_id};
ghost use Rattle.dgc_client.specs.Log.{asks_for, Dirty};
ghost use Rattle.dgc_client.specs.SentMap.{dirties_in, is_asked};
ghost use Rattle.dgc_client.specs.RefMap.{refs_in, AreSettled};
ghost use Rattle.dgc_client.specs.StandsForLog.{wants, ids_of};

use crate::ref_map::{Kept, RefMap};
use crate::sent_map::SentMap;
use indexmap::IndexMap;
use indexmap::map::Slice;
use object_ids::{ObjId, ObjIds};
use std::alloc::{AllocError, Global};

/// For each object the greatest number of a dirty call under way that names it.
pub type Asked = IndexMap<ObjId, i64>;

/// The objects for which these dirty calls ask.
pub fn asked_of(alloc: Global, sent: &SentMap) -> Result<Asked, AllocError>
    ensures { IfOk result (λ asked. (o : ObjId) (since : ℤ) →
        is_asked asked o since ≡ list_any (asks_for o since) (dirties_in sent.now.entries)) }
{
    let mut asked = Asked::new(alloc);
    for (number, call) in sent.iter() {
        note_all(&mut asked, call.objects.as_slice(), number)?;
    }
    Ok(asked)
}

/// Notes that the dirty call of a number names these objects.
fn note_all(asked: &mut Asked, objects: &[ObjId], number: &i64) -> Result<(), AllocError>
    ensures { OnOk result ((o : ObjId) (since : ℤ) → is_asked asked.new o since
        ≡ ((list_any (λ x. same_id x o) objects.now && int_le since number.now)
        || is_asked asked.old o since)) }
{
    for object in objects {
        note(asked, object, number)?;
    }
    Ok(())
}

/// Notes that the dirty call of a number names an object.
fn note(asked: &mut Asked, object: &ObjId, number: &i64) -> Result<(), AllocError>
    ensures { OnOk result ((o : ObjId) (since : ℤ) → is_asked asked.new o since
        ≡ ((same_id object.now o && int_le since number.now) || is_asked asked.old o since)) }
{
    let greatest = greatest_of(asked, object, number);
    asked.insert(*object, greatest)?;
    Ok(())
}

/// The greatest of a number and the one that is noted of an object, if there is one.
fn greatest_of(asked: &Asked, object: &ObjId, number: &i64) -> i64
    ensures { (since : ℤ) → int_le since result
        ≡ (int_le since number.now || is_asked asked.now object.now since) }
{
    match asked.get(object) {
        Some(noted) => larger(noted, number),
        None => *number,
    }
}

/// The larger of two numbers.
fn larger(a: &i64, b: &i64) -> i64
    ensures { (since : ℤ) → int_le since result ≡ (int_le since b.now || int_le since a.now) }
{
    if *a < *b { *b } else { *a }
}

/// Returns whether a dirty call asks for an object, with a number of at least this one.
pub fn is_asked(asked: &Asked, object: &ObjId, since: &i64) -> bool
    ensures { result ≡ is_asked asked.now object.now since.now }
{
    match asked.get(object) {
        Some(number) => *since <= *number,
        None => false,
    }
}

/// Returns whether a reference of which this is kept has to be named, where the client's time is over or not.
fn is_wanting(over: bool, asked: &Asked, object: &ObjId, kept: &Kept) -> bool
    ensures { result ≡ (not kept.now.gone && not (not over && kept.now.sure)
        && not (is_asked asked.now object.now kept.now.since)) }
{
    !kept.gone && !(!over && kept.sure) && !is_asked(asked, object, &kept.since)
}

/// Returns the entries that may want a call: all where the client's time is over, and otherwise those behind the settled ones.
fn open_entries(over: bool, refs: &RefMap, settled: usize) -> Slice<'_, ObjId, Kept>
    requires { AreSettled settled refs.now.entries }
    ensures { (ys : List Dirty) → filter (wants over ys) (refs_in result)
        ≡ filter (wants over ys) (refs_in refs.now.entries) }
{
    let entries = refs.as_slice();
    if over {
        return entries;
    }
    let (_settled, rest) = entries.split_at(settled);
    rest
}

/// The objects that a dirty call has to name, where the client's time is over or not, and these are asked for already. It looks at no settled entry
/// while the client's time lasts.
pub fn objects_to_name(
    alloc: Global,
    over: bool,
    refs: &RefMap,
    settled: usize,
    asked: &Asked,
) -> Result<ObjIds, AllocError>
    requires { AreSettled settled refs.now.entries }
    ensures { IfOk result (λ ids. (ys : List Dirty) →
        ((o : ObjId) (since : ℤ) → is_asked asked.now o since
        ≡ list_any (asks_for o since) ys) →
        ids ≡ ids_of (filter (wants over ys) (refs_in refs.now.entries))) }
{
    let mut ids = ObjIds::new(alloc);
    for (object, kept) in open_entries(over, refs, settled).iter() {
        let wanted = is_wanting(over, asked, object, kept);
        put_if(&mut ids, object, wanted)?;
    }
    Ok(ids)
}

/// Appends an object, if it is wanted.
fn put_if(ids: &mut ObjIds, object: &ObjId, wanted: bool) -> Result<(), AllocError>
    ensures { OnOk result (ids.new ≡ ids.old ++ (if wanted then object.now ∷ [] else [])) }
{
    if wanted { ids.push(*object) } else { Ok(()) }
}
