//! Many objects with their numbers, in a map in which each is quickly found.
ghost use Rattle.std.specs.Prelude.{◌≡◌, ◌<◌, ◌≤◌, ◌+◌, [], length, filter, not, true, false, is_some, IsTrue, OnOk, IfOk, unwrap_or};
ghost use Rattle.std.specs.Option.{option_copied};
ghost use Rattle.indexmap.specs.IndexMap.{spare, values, insert_entry};
ghost use Rattle.object_ids.specs.Same.{same_id, same_key};
ghost use Rattle.dgc_server.specs.Numbers.{no_numbers, strong_part, is_remembered};
ghost use Rattle.dgc_server.specs.Entry.{object_entries, numbers_of, has_object, with_numbers, tenure_forgotten};
ghost use Rattle.dgc_server.specs.StandsForCalls.{each_once};
ghost use Rattle.dgc_server.specs.HolderIndex.{is_named};

use crate::few_marks::Mark;
use crate::holders::{self, Counts};
use crate::numbers::Numbers;
use crate::packed::Packed;
use indexmap::IndexMap;
use object_ids::ObjId;
use std::alloc::{AllocError, Global};

/// The numbers of each object.
pub type MarkMap = IndexMap<ObjId, Packed>;

/// The numbers of an object, none where it is not there.
pub fn numbers_in(marks: &MarkMap, object: &ObjId) -> Numbers
    ensures { result ≡ numbers_of (object_entries marks.now.entries) object.now }
{
    numbers_or_none(marks.get(object))
}

/// The numbers that were found, or none.
fn numbers_or_none(found: Option<&Packed>) -> Numbers
    ensures { result ≡ unwrap_or (option_copied found.entry) no_numbers }
{
    match found {
        Some(packed) => packed.numbers(),
        None => Numbers::none(),
    }
}

/// True where numbers of an object are kept.
pub fn is_there(marks: &MarkMap, object: &ObjId) -> bool
    ensures { result ≡ has_object (object_entries marks.now.entries) object.now }
{
    marks.contains_key(object)
}

/// The number of objects that make a remembered pair without time left.
pub fn remembered_for_good(marks: &MarkMap) -> usize
    ensures { result ≡ length (filter (is_remembered false) (values marks.now)) }
{
    marks
        .values()
        .filter(|numbers| numbers.is_remembered(false))
        .count()
}

/// Makes room for so many more objects, and for few beyond: at most an eighth of those that are kept.
pub fn make_room(marks: &mut MarkMap, more: usize) -> Result<(), AllocError>
    ensures entries { marks.new.entries ≡ marks.old.entries }
    ensures room { OnOk result (more ≤ spare marks.new) }
{
    let long = marks.len();
    if more <= marks.capacity() - long {
        return Ok(());
    }
    marks.reserve(more)?;
    let room = marks.capacity();
    let least = long + more;
    let few = (room - least).min(long / 8);
    marks.shrink_to(least + few);
    Ok(())
}

/// A map of these objects, with room for so many more.
pub fn map_of(alloc: Global, marks: &[Mark], more: usize) -> Result<MarkMap, AllocError>
    requires { IsTrue (each_once (object_entries marks.now)) }
    ensures entries { IfOk result (λ map. map.entries ≡ marks.now) }
    ensures room { IfOk result (λ map. more ≤ spare map) }
{
    let Some(room) = marks.len().checked_add(more) else {
        return Err(AllocError);
    };
    let mut map = IndexMap::new(alloc);
    make_room(&mut map, room)?;
    append(&mut map, marks);
    Ok(map)
}

/// Puts these objects into an empty map that has room for them.
fn append(map: &mut MarkMap, marks: &[Mark])
    requires empty { map.old.entries ≡ [] }
    requires room { length marks.now ≤ spare map.old }
    requires once { IsTrue (each_once (object_entries marks.now)) }
    ensures entries { map.new.entries ≡ marks.now }
    ensures room { spare map.old ≤ spare map.new + length marks.now }
{
    for mark in marks {
        put(map, &mark.0, mark.1.copy());
    }
}

/// Sets the numbers of an object, for which there is room.
pub fn put(marks: &mut MarkMap, object: &ObjId, numbers: Packed)
    requires { 0 < spare marks.old }
    ensures entries { marks.new.entries
        ≡ insert_entry same_key marks.old.entries object.now numbers }
    ensures objects { object_entries marks.new.entries
        ≡ with_numbers object.now numbers (object_entries marks.old.entries) }
    ensures room { spare marks.old ≤ spare marks.new + 1 }
{
    match marks.insert(*object, numbers) {
        Ok(_was) => {}
        Err(_refused) => {}
    }
}

/// Sets the numbers of an object that is there. It takes no room.
pub fn replace(marks: &mut MarkMap, object: &ObjId, numbers: Packed)
    requires { has_object (object_entries marks.old.entries) object.now ≡ true }
    ensures objects { object_entries marks.new.entries
        ≡ with_numbers object.now numbers (object_entries marks.old.entries) }
    ensures room { spare marks.old ≤ spare marks.new }
{
    if let Some(kept) = marks.get_mut(object) {
        *kept = numbers;
    }
}

/// Forgets the numbers of a tenure, and the objects that have no others.
pub fn forget_tenure(marks: &mut MarkMap)
    ensures objects { object_entries marks.new.entries
        ≡ tenure_forgotten (object_entries marks.old.entries) }
    ensures room { spare marks.old ≤ spare marks.new }
{
    marks.retain(
        |_object: &ObjId, numbers: &mut Packed| -> bool
            ensures { (result ≡ is_some numbers.old.strong)
                × (numbers.new ≡ strong_part numbers.old) }
        { numbers.end_tenure() },
    );
}

/// Forgets the numbers of an object, which is looked up. Those behind it move to the front by one place, and the map's table notes the new
/// place of each where it keeps the old one: none of them is looked up.
pub fn forget_object(marks: &mut MarkMap, object: &ObjId)
    ensures { object_entries marks.new.entries
        ≡ filter (λ x. not (same_id x.object object.now)) (object_entries marks.old.entries) }
{
    marks.shift_remove(object);
}

/// Keeps the objects that some client names, as the counts say.
pub fn keep_named(marks: &mut MarkMap, counts: &Counts)
    ensures { object_entries marks.new.entries
        ≡ filter (λ x. is_named counts.now x.object) (object_entries marks.old.entries) }
{
    marks.retain(
        |object: &ObjId, numbers: &mut Packed| -> bool
            ensures { (result ≡ is_named counts.entry.now object.now)
                × (numbers.new ≡ numbers.old) }
        { holders::is_named(counts, object) },
    );
}
