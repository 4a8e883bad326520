//! Few objects with their numbers, in a list that is searched from front to back.
ghost use Rattle.std.specs.Prelude.{◌≡◌, ◌<◌, ◌≤◌, ◌+◌, ◌-◌, length, filter, not, true, false, vec_capacity, is_some};
ghost use Rattle.std.specs.List.{position_or_len};
ghost use Rattle.object_ids.specs.Same.{same_id};
ghost use Rattle.dgc_server.specs.Numbers.{strong_part, is_remembered};
ghost use Rattle.dgc_server.specs.Entry.{object_entries, numbers_of, has_object, with_numbers, tenure_forgotten};
ghost use Rattle.dgc_server.specs.HolderIndex.{is_named};

use crate::holders::{self, Counts};
use crate::numbers::Numbers;
use crate::packed::Packed;
use object_ids::ObjId;
use sequence::Same;

/// An object that a client named, with its numbers.
pub type Mark = (ObjId, Packed);

/// The numbers of an object, none where it is not there.
pub fn numbers_in(marks: &[Mark], object: &ObjId) -> Numbers
    ensures { result ≡ numbers_of (object_entries marks.now) object.now }
{
    let place = place_of(marks, object);
    if place < marks.len() {
        marks[place].1.numbers()
    } else {
        Numbers::none()
    }
}

/// The place of an object, and where it is not there the length.
fn place_of(marks: &[Mark], object: &ObjId) -> usize
    ensures { result ≡ position_or_len (λ m. same_id m.0 object.now) marks.now }
{
    let mut place = 0;
    while place < marks.len() && !equal(&marks[place].0, object) {
        place += 1;
    }
    place
}

/// True where numbers of an object are kept.
pub fn is_there(marks: &[Mark], object: &ObjId) -> bool
    ensures { result ≡ has_object (object_entries marks.now) object.now }
{
    place_of(marks, object) < marks.len()
}

/// The number of objects that make a remembered pair without time left.
pub fn remembered_for_good(marks: &[Mark]) -> usize
    ensures { result ≡ length (filter (λ m. is_remembered false m.1) marks.now) }
{
    marks
        .iter()
        .filter(|mark| mark.1.is_remembered(false))
        .count()
}

/// Sets the numbers of an object that is there. It takes no room.
pub fn replace(marks: &mut Vec<Mark>, object: &ObjId, numbers: Packed)
    requires { has_object (object_entries marks.old.items) object.now ≡ true }
    ensures objects { object_entries marks.new.items
        ≡ with_numbers object.now numbers (object_entries marks.old.items) }
    ensures room { vec_capacity marks.old - length marks.old.items
        ≤ vec_capacity marks.new - length marks.new.items }
{
    let place = place_of(marks, object);
    marks[place] = (*object, numbers);
}

/// Adds an object that is not there, and for which there is room, with its numbers.
pub fn add(marks: &mut Vec<Mark>, object: &ObjId, numbers: Packed)
    requires absent { has_object (object_entries marks.old.items) object.now ≡ false }
    requires room { length marks.old.items < vec_capacity marks.old }
    ensures objects { object_entries marks.new.items
        ≡ with_numbers object.now numbers (object_entries marks.old.items) }
    ensures room { vec_capacity marks.old - length marks.old.items
        ≤ vec_capacity marks.new - length marks.new.items + 1 }
{
    marks.push_reserved((*object, numbers));
}

/// Forgets the numbers of a tenure, and the objects that have no others.
pub fn forget_tenure(marks: &mut Vec<Mark>)
    ensures objects { object_entries marks.new.items
        ≡ tenure_forgotten (object_entries marks.old.items) }
    ensures room { vec_capacity marks.old - length marks.old.items
        ≤ vec_capacity marks.new - length marks.new.items }
{
    marks.retain_mut(
        |mark: &mut Mark| -> bool
            ensures { (result ≡ is_some mark.old.1.strong)
                × (mark.new ≡ (mark.old.0, strong_part mark.old.1)) }
        { mark.1.end_tenure() },
    );
}

/// Keeps the objects but this one.
pub fn keep_others(marks: &mut Vec<Mark>, object: &ObjId)
    ensures { object_entries marks.new.items
        ≡ filter (λ x. not (same_id x.object object.now)) (object_entries marks.old.items) }
{
    marks.retain(
        |mark: &Mark| -> bool
            ensures { result ≡ not (same_id mark.now.0 object.entry.now) }
        { !equal(&mark.0, object) },
    );
}

/// Keeps the objects that some client names, as the counts say.
pub fn keep_named(marks: &mut Vec<Mark>, counts: &Counts)
    ensures { object_entries marks.new.items
        ≡ filter (λ x. is_named counts.now x.object) (object_entries marks.old.items) }
{
    marks.retain(
        |mark: &Mark| -> bool
            ensures { result ≡ is_named counts.entry.now mark.now.0 }
        { holders::is_named(counts, &mark.0) },
    );
}

/// True where two objects are the same.
pub fn equal(a: &ObjId, b: &ObjId) -> bool
    ensures { result ≡ same_id a.now b.now }
{
    a.is_same(b)
}
