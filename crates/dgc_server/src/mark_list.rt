//! The objects that a client named, in the order in which they came: few in a list, many in a map.
ghost use Rattle.std.specs.Prelude.{◌≡◌, ◌<◌, ◌≤◌, ◌+◌, [], length, filter, not, true, false, IsTrue, IsOk, OnOk};
ghost use Rattle.std.specs.Iterator.{at_most};
ghost use Rattle.std.specs.Map.Iter.{TakesFirst, deref_pair};
ghost use Rattle.object_ids.specs.Same.{same_id};
ghost use Rattle.dgc_server.specs.Numbers.{is_remembered};
ghost use Rattle.dgc_server.specs.Entry.{object_entries, numbers_of, has_object, with_numbers, tenure_forgotten, is_empty};
ghost use Rattle.dgc_server.specs.StandsForCalls.{each_once};
ghost use Rattle.dgc_server.specs.HolderIndex.{is_named};

use crate::few_marks::{self, Mark};
use crate::holders::Counts;
use crate::many_marks::{self, MarkMap};
use crate::numbers::Numbers;
use crate::packed::Packed;
use indexmap::map;
use object_ids::ObjId;
use std::alloc::{AllocError, Global};
use std::marker::Model;
use std::slice;

/// The most objects that a list keeps. The table of a map is made for nine or more.
const MAX_LIST_LEN: usize = 8;

/// For each object that a client named the numbers of the calls that count for it. Contracts see it as a `MarkList`.
pub struct Marks {
    held: Held,
}

/// The objects in a list, or in a map, in which more are quickly found.
enum Held {
    Few(Vec<Mark>),
    Many(MarkMap),
}

// Written out, so that whoever owns one has one call at each exit, and not the drop of each field.
impl Drop for Marks {
    fn drop(self) {
        let Marks { held } = self;
        drop(held);
    }
}

impl Drop for Held {
    fn drop(self) {
        match self {
            Held::Few(list) => drop(list),
            Held::Many(map) => drop(map),
        }
    }
}

impl Model for Marks {
    ghost use Rattle.dgc_server.specs.Marks.{MarkList, marks_of};

    ghost Value = { MarkList };

    ghost view = { λ m. marks_of m.held };
}

impl Marks {
    /// No objects. It takes no memory.
    pub fn new(alloc: Global) -> Marks
        ensures { result.entries ≡ [] }
    {
        Marks {
            held: Held::Few(Vec::new(alloc)),
        }
    }

    /// The number of objects.
    pub fn len(&self) -> usize
        ensures { result ≡ length self.now.entries }
    {
        match &self.held {
            Held::Few(list) => list.len(),
            Held::Many(map) => map.len(),
        }
    }

    /// True where there are no objects.
    pub fn is_empty(&self) -> bool
        ensures { result ≡ is_empty (object_entries self.now.entries) }
    {
        self.len() == 0
    }

    /// The numbers of an object, none where it is not there.
    pub fn numbers_of(&self, object: &ObjId) -> Numbers
        ensures { result ≡ numbers_of (object_entries self.now.entries) object.now }
    {
        match &self.held {
            Held::Few(list) => few_marks::numbers_in(list, object),
            Held::Many(map) => many_marks::numbers_in(map, object),
        }
    }

    /// True where numbers of an object are kept.
    pub fn names(&self, object: &ObjId) -> bool
        ensures { result ≡ has_object (object_entries self.now.entries) object.now }
    {
        match &self.held {
            Held::Few(list) => few_marks::is_there(list, object),
            Held::Many(map) => many_marks::is_there(map, object),
        }
    }

    /// The number of objects that make a remembered pair without time left.
    pub fn remembered_for_good(&self) -> usize
        ensures { result
            ≡ length (filter (λ x. is_remembered false x.numbers)
            (object_entries self.now.entries)) }
    {
        match &self.held {
            Held::Few(list) => few_marks::remembered_for_good(list),
            Held::Many(map) => many_marks::remembered_for_good(map),
        }
    }

    /// The objects with their numbers.
    pub fn iter(&self) -> MarkIter<'_>
        ensures { result ≡ self.now.entries }
    {
        match &self.held {
            Held::Few(list) => MarkIter {
                walk: Walk::OverFew(list.iter()),
            },
            Held::Many(map) => MarkIter {
                walk: Walk::OverMany(map.iter()),
            },
        }
    }

    /// For how many more objects there is room.
    pub fn room(&self) -> usize
        ensures { result ≡ self.now.room }
    {
        match &self.held {
            Held::Few(list) => list.capacity() - list.len(),
            Held::Many(map) => map.capacity() - map.len(),
        }
    }

    /// Makes room for so many more objects, and where there are many, for few beyond: at most an eighth of those that are kept. Where there is room, all
    /// stays as it is. It is refused only for want of memory, and then all is as it was.
    pub fn make_room(&mut self, more: usize) -> Result<(), AllocError>
        requires { IsTrue (each_once (object_entries self.old.entries)) }
        ensures entries { self.new.entries ≡ self.old.entries }
        ensures room { OnOk result (more ≤ self.new.room) }
        ensures fits { more ≤ self.old.room → IsOk result }
        ensures same { more ≤ self.old.room → self.new ≡ self.old }
    {
        if more <= self.room() {
            return Ok(());
        }
        match &mut self.held {
            Held::Few(list) if fits_list(list.len(), more) => list.reserve_exact(more),
            Held::Few(list) => {
                let map = many_marks::map_of(*list.allocator(), list, more)?;
                self.held = Held::Many(map);
                Ok(())
            }
            Held::Many(map) => many_marks::make_room(map, more),
        }
    }

    /// Sets the numbers of an object that is there. It takes no room.
    pub fn replace(&mut self, object: &ObjId, numbers: &Numbers)
        requires { has_object (object_entries self.old.entries) object.now ≡ true }
        ensures objects { object_entries self.new.entries
            ≡ with_numbers object.now numbers.now (object_entries self.old.entries) }
        ensures room { self.old.room ≤ self.new.room }
    {
        let packed = Packed::of(numbers);
        match &mut self.held {
            Held::Few(list) => few_marks::replace(list, object, packed),
            Held::Many(map) => many_marks::replace(map, object, packed),
        }
    }

    /// Adds an object that is not there, and for which there is room, with its numbers.
    pub fn add(&mut self, object: &ObjId, numbers: &Numbers)
        requires absent { has_object (object_entries self.old.entries) object.now ≡ false }
        requires room { 0 < self.old.room }
        ensures objects { object_entries self.new.entries
            ≡ with_numbers object.now numbers.now (object_entries self.old.entries) }
        ensures room { self.old.room ≤ self.new.room + 1 }
    {
        let packed = Packed::of(numbers);
        match &mut self.held {
            Held::Few(list) => few_marks::add(list, object, packed),
            Held::Many(map) => many_marks::put(map, object, packed),
        }
    }

    /// Forgets the numbers of a tenure, and the objects that have no others. It takes no memory.
    pub fn forget_tenure(&mut self)
        ensures objects { object_entries self.new.entries
            ≡ tenure_forgotten (object_entries self.old.entries) }
        ensures room { self.old.room ≤ self.new.room }
    {
        match &mut self.held {
            Held::Few(list) => few_marks::forget_tenure(list),
            Held::Many(map) => many_marks::forget_tenure(map),
        }
    }

    /// Forgets the numbers of an object. It takes no memory.
    pub fn forget_object(&mut self, object: &ObjId)
        ensures { object_entries self.new.entries
            ≡ filter (λ x. not (same_id x.object object.now)) (object_entries self.old.entries) }
    {
        match &mut self.held {
            Held::Few(list) => few_marks::keep_others(list, object),
            Held::Many(map) => many_marks::forget_object(map, object),
        }
    }

    /// Keeps the objects that some client names, as the counts say. It takes no memory.
    pub fn keep_named(&mut self, counts: &Counts)
        ensures { object_entries self.new.entries
            ≡ filter (λ x. is_named counts.now x.object) (object_entries self.old.entries) }
    {
        match &mut self.held {
            Held::Few(list) => few_marks::keep_named(list, counts),
            Held::Many(map) => many_marks::keep_named(map, counts),
        }
    }
}

/// Returns whether a list of so many objects may take so many more.
fn fits_list(len: usize, more: usize) -> bool {
    more <= MAX_LIST_LEN && len <= MAX_LIST_LEN - more
}

/// A walk over the objects with their numbers, seen as the list of those that are left.
#[derive(Drop)]
pub struct MarkIter<'a> {
    walk: Walk<'a>,
}

/// A walk over a list, or over a map.
#[derive(Drop)]
enum Walk<'a> {
    OverFew(slice::Iter<'a, Mark>),
    OverMany(map::Iter<'a, ObjId, Packed>),
}

impl<'a> Model for MarkIter<'a> {
    ghost use Rattle.std.specs.Prelude.{List};
    ghost use Rattle.object_ids.specs.declared.ids.ObjId.{ObjId};
    ghost use Rattle.dgc_server.specs.declared.numbers.Numbers.{Numbers};
    ghost use Rattle.dgc_server.specs.Marks.{marks_left};

    ghost Value = { List (ObjId × Numbers) };

    ghost view = { λ m. marks_left m.walk };
}

impl<'a> Iterator for MarkIter<'a> {
    type Item = (&'a ObjId, &'a Packed);

    ghost next_gives = { TakesFirst deref_pair };

    ghost remaining = { λ s. at_most (length s) };

    fn next(&mut self) -> Option<(&'a ObjId, &'a Packed)> {
        match &mut self.walk {
            Walk::OverFew(marks) => match marks.next() {
                Some(mark) => Some((&mark.0, &mark.1)),
                None => None,
            },
            Walk::OverMany(marks) => marks.next(),
        }
    }
}
