//! The numbers that count for each object that a client named.
ghost use Rattle.std.specs.Prelude.{◌≡◌, ◌+◌, ◌<◌, ◌≤◌, ◌^◌, length, filter, not, ◌&&◌, cond, true, false, IsTrue, IsOk, OnOk, IfOk, if◌then◌else◌};
ghost use Rattle.indexmap.specs.IndexSet.{contains};
ghost use Rattle.object_ids.specs.declared.ids.ObjId.{ObjId};
ghost use Rattle.object_ids.specs.Same.{same_key};
ghost use Rattle.dgc_server.specs.Numbers.{is_remembered};
ghost use Rattle.dgc_server.specs.Entry.{object_entries, each_has_number, numbers_of, is_in, has_object, fresh_in, absent_in, room_for, object_noted, objects_noted, objects_after, with_numbers, tenure_forgotten, call_counts};
ghost use Rattle.dgc_server.specs.StandsForCalls.{each_once};
ghost use Rattle.dgc_server.specs.HolderIndex.{Way, counted_at, has_count, one_if, counts_in, is_named};

use crate::few_marks::equal;
use crate::holders::{self, ClientHint, Counts, Share};
pub use crate::mark_list::Marks;
use crate::numbers::Numbers;
use history::CallKind;
use indexmap::IndexSet;
use object_ids::ObjId;
use std::alloc::{AllocError, Global};

/// The most objects that are counted without memory.
const MAX_COUNTED_WITHOUT_MEMORY: usize = 16;

/// The number of objects that make a remembered pair, where the client has time left or has not: if it has, all.
pub fn remembered_in(objects: &Marks, left: bool) -> usize
    requires { IsTrue (each_has_number (object_entries objects.now.entries)) }
    ensures { result
        ≡ length (filter (λ x. is_remembered left x.numbers) (object_entries objects.now.entries)) }
{
    if left {
        objects.len()
    } else {
        objects.remembered_for_good()
    }
}

/// The number of named objects that make no remembered pair, each counted once. Many are counted with memory, and where there is
/// none, one by one.
pub fn fresh_count(alloc: Global, objects: &Marks, named: &[ObjId], left: bool) -> usize
    ensures { result ≡ fresh_in left (object_entries objects.now.entries) named.now }
{
    if named.len() > MAX_COUNTED_WITHOUT_MEMORY {
        match fresh_with_memory(alloc, objects, named, left) {
            Ok(count) => count,
            Err(_refused) => fresh_one_by_one(objects, named, left),
        }
    } else {
        fresh_one_by_one(objects, named, left)
    }
}

/// Returns the number of the named objects that make no remembered pair, each counted once.
fn fresh_one_by_one(objects: &Marks, named: &[ObjId], left: bool) -> usize
    ensures { result ≡ fresh_in left (object_entries objects.now.entries) named.now }
{
    let mut count = 0;
    for (i, object) in named.iter().enumerate() {
        if is_fresh(objects, object, &named[i + 1..], left) {
            count += 1;
        }
    }
    count
}

/// Returns whether an object makes no remembered pair, and is not among those that follow it.
fn is_fresh(objects: &Marks, object: &ObjId, following: &[ObjId], left: bool) -> bool
    ensures { let numbers = numbers_of (object_entries objects.now.entries) object.now in
        result ≡ (not (is_in object.now following.now) && not (is_remembered left numbers)) }
{
    !is_among(following, object) && !objects.numbers_of(object).is_remembered(left)
}

/// Returns whether an object is among these.
fn is_among(objects: &[ObjId], object: &ObjId) -> bool
    ensures { result ≡ is_in object.now objects.now }
{
    objects.iter().any(|other| equal(other, object))
}

/// Returns the number of the named objects that make no remembered pair, each counted once. It counts from the last
/// to the first.
fn fresh_with_memory(
    alloc: Global,
    objects: &Marks,
    named: &[ObjId],
    left: bool,
) -> Result<usize, AllocError>
    ensures { IfOk result
        (λ count. count ≡ fresh_in left (object_entries objects.now.entries) named.now) }
{
    let mut seen = IndexSet::new(alloc);
    let mut count = 0;
    let mut i = named.len();
    while i > 0 {
        i -= 1;
        if is_first(&mut seen, objects, &named[i], left)? {
            count += 1;
        }
    }
    Ok(count)
}

/// Notes that an object was seen, and says whether it was not before and makes no remembered pair.
fn is_first(
    seen: &mut IndexSet<ObjId>,
    objects: &Marks,
    object: &ObjId,
    left: bool,
) -> Result<bool, AllocError>
    ensures value { let numbers = numbers_of (object_entries objects.now.entries) object.now in
        IfOk result (λ first. first
        ≡ (not (contains same_key seen.old object.now) && not (is_remembered left numbers))) }
    ensures seen { OnOk result
        ((o : ObjId) → contains same_key seen.new o
        ≡ cond (same_key object.now o) true (contains same_key seen.old o)) }
{
    let is_new = seen.insert(*object)?;
    Ok(is_new && !objects.numbers_of(object).is_remembered(left))
}

/// Forgets the numbers of a tenure that is over, if this is so. It takes no memory.
pub fn lapse(objects: &mut Marks, is_over: bool)
    ensures { object_entries objects.new.entries
        ≡ (if is_over then tenure_forgotten (object_entries objects.old.entries)
        else object_entries objects.old.entries) }
{
    if is_over {
        objects.forget_tenure();
    }
}

/// Keeps the objects that some client names, as the counts say, and answers how many went. It takes no memory.
pub fn keep_named(objects: &mut Marks, counts: &Counts) -> usize
    ensures objects { object_entries objects.new.entries
        ≡ filter (λ x. is_named counts.now x.object) (object_entries objects.old.entries) }
    ensures gone { result + length (object_entries objects.new.entries)
        ≡ length (object_entries objects.old.entries) }
{
    let before = objects.len();
    objects.keep_named(counts);
    before - objects.len()
}

/// Makes room for a call that names these objects: for those that are not there, and where the client has no time left for all, since those
/// that are there may go before the call is noted. Where there is room, all stays as it is. It is refused only for want of memory, and then
/// all is as it was.
pub fn make_room(objects: &mut Marks, named: &[ObjId], left: bool) -> Result<(), AllocError>
    requires { IsTrue (each_once (object_entries objects.old.entries)) }
    ensures entries { objects.new.entries ≡ objects.old.entries }
    ensures room { OnOk result
        (room_for left (object_entries objects.new.entries) named.now ≤ objects.new.room) }
    ensures fits { room_for left (object_entries objects.old.entries) named.now ≤ objects.old.room
        → IsOk result }
    ensures same { room_for left (object_entries objects.old.entries) named.now ≤ objects.old.room
        → objects.new ≡ objects.old }
{
    if named.len() <= objects.room() {
        return Ok(());
    }
    let more = room_wanted(objects, named, left);
    objects.make_room(more)
}

/// For how many objects a call that names these wants room, where the client has time left or has not.
fn room_wanted(objects: &Marks, named: &[ObjId], left: bool) -> usize
    ensures { result ≡ room_for left (object_entries objects.now.entries) named.now }
{
    if left {
        absent_count(objects, named)
    } else {
        named.len()
    }
}

/// Returns the number of these objects that are not there. It counts each as often as it is named.
fn absent_count(objects: &Marks, named: &[ObjId]) -> usize
    ensures { result ≡ absent_in (object_entries objects.now.entries) named.now }
{
    named.iter().filter(|object| !objects.names(object)).count()
}

/// Notes a call of this kind and number that names these objects, for which `make_room` made room. Where `left` is false, the client has no
/// time left, and its tenure is forgotten first. The counts change with what the client holds and names: what it held before the call counts if
/// `held` says so. They note its place in the list of clients.
pub fn note(
    objects: &mut Marks,
    counts: &mut Counts,
    named: &[ObjId],
    kind: CallKind,
    number: &i64,
    left: bool,
    held: bool,
    hint: ClientHint,
)
    requires room { room_for left (object_entries objects.old.entries) named.now
        ≤ objects.old.room }
    requires once { IsTrue (each_once (object_entries objects.old.entries)) }
    requires has { (o : ObjId) → is_in o named.now ≡ true → has_count counts.old o ≡ true }
    requires enough { (w : Way) (o : ObjId)
        → one_if (counts_in w held (object_entries objects.old.entries) o)
        ≤ counted_at w counts.old o }
    requires few { (w : Way) (o : ObjId) → counted_at w counts.old o + 1 < 2 ^ 31 }
    requires leased { left ≡ true → held ≡ true }
    ensures objects { object_entries objects.new.entries
        ≡ objects_after left kind number.now named.now (object_entries objects.old.entries) }
    ensures counts { (w : Way) (o : ObjId)
        → counted_at w counts.new o
        + one_if (counts_in w held (object_entries objects.old.entries) o)
        ≡ counted_at w counts.old o
        + one_if (counts_in w true (object_entries objects.new.entries) o) }
{
    settle(objects, counts, left, held);
    if counts_for(kind, left) {
        note_all(objects, counts, named, kind, number, hint);
    }
}

/// True where a call of this kind counts, where its client has time left or has not: a weak clean without
/// time left is forgotten.
pub fn counts_for(kind: CallKind, left: bool) -> bool
    ensures { result ≡ call_counts kind left }
{
    match kind {
        CallKind::Dirty | CallKind::Strong => true,
        CallKind::Weak => left,
    }
}

/// Where the client has no time left, forgets the tenure and counts the client as a holder no more.
fn settle(objects: &mut Marks, counts: &mut Counts, left: bool, held: bool)
    requires once { IsTrue (each_once (object_entries objects.old.entries)) }
    requires enough { (w : Way) (o : ObjId)
        → one_if (counts_in w held (object_entries objects.old.entries) o)
        ≤ counted_at w counts.old o }
    requires leased { left ≡ true → held ≡ true }
    ensures objects { object_entries objects.new.entries
        ≡ (if left then object_entries objects.old.entries
        else tenure_forgotten (object_entries objects.old.entries)) }
    ensures counts { (w : Way) (o : ObjId)
        → counted_at w counts.new o
        + one_if (counts_in w held (object_entries objects.old.entries) o)
        ≡ counted_at w counts.old o
        + one_if (counts_in w true (object_entries objects.new.entries) o) }
    ensures kept { (o : ObjId) → has_count counts.old o ≡ true → has_count counts.new o ≡ true }
    ensures room { objects.old.room ≤ objects.new.room }
{
    if !left {
        holders::release(counts, objects, held);
        objects.forget_tenure();
    }
}

/// Notes a call of this kind and number at each of these objects. For those that are not there, there is room.
fn note_all(
    objects: &mut Marks,
    counts: &mut Counts,
    named: &[ObjId],
    kind: CallKind,
    number: &i64,
    hint: ClientHint,
)
    requires room { absent_in (object_entries objects.old.entries) named.now ≤ objects.old.room }
    requires has { (o : ObjId) → is_in o named.now ≡ true → has_count counts.old o ≡ true }
    requires enough { (w : Way) (o : ObjId)
        → one_if (counts_in w true (object_entries objects.old.entries) o)
        ≤ counted_at w counts.old o }
    requires few { (w : Way) (o : ObjId) → counted_at w counts.old o < 2 ^ 31 }
    ensures objects { object_entries objects.new.entries
        ≡ objects_noted kind number.now named.now (object_entries objects.old.entries) }
    ensures counts { (w : Way) (o : ObjId)
        → counted_at w counts.new o
        + one_if (counts_in w true (object_entries objects.old.entries) o)
        ≡ counted_at w counts.old o
        + one_if (counts_in w true (object_entries objects.new.entries) o) }
{
    for object in named {
        note_one(objects, counts, object, kind, number, hint);
    }
}

/// Notes a call of this kind and number at an object, for which there is room if it is not there.
fn note_one(
    objects: &mut Marks,
    counts: &mut Counts,
    object: &ObjId,
    kind: CallKind,
    number: &i64,
    hint: ClientHint,
)
    requires room { has_object (object_entries objects.old.entries) object.now ≡ false
        → 0 < objects.old.room }
    requires has { has_count counts.old object.now ≡ true }
    requires enough { (w : Way)
        → one_if (counts_in w true (object_entries objects.old.entries) object.now)
        ≤ counted_at w counts.old object.now }
    requires few { (w : Way) → counted_at w counts.old object.now ≤ 2 ^ 31 }
    ensures objects { object_entries objects.new.entries
        ≡ object_noted kind number.now object.now (object_entries objects.old.entries) }
    ensures counts { (w : Way) (o : ObjId)
        → counted_at w counts.new o
        + one_if (counts_in w true (object_entries objects.old.entries) o)
        ≡ counted_at w counts.old o
        + one_if (counts_in w true (object_entries objects.new.entries) o) }
    ensures kept { (o : ObjId) → has_count counts.old o ≡ true → has_count counts.new o ≡ true }
    ensures room { objects.old.room
        ≤ objects.new.room
        + (if has_object (object_entries objects.old.entries) object.now then 0 else 1) }
{
    let names = objects.names(object);
    let before = objects.numbers_of(object);
    let after = before.with_call_noted(kind, number);
    put(objects, object, &after, names);
    let share = Share {
        holds: before.is_dirty_highest(),
        names,
    };
    let next = Share {
        holds: after.is_dirty_highest(),
        names: true,
    };
    holders::shift(counts, object, share, next, hint);
}

/// Sets the numbers of an object, which is there if `is_there` says so. If it is not, there is room.
fn put(objects: &mut Marks, object: &ObjId, numbers: &Numbers, is_there: bool)
    requires there { is_there ≡ has_object (object_entries objects.old.entries) object.now }
    requires room { is_there ≡ false → 0 < objects.old.room }
    ensures objects { object_entries objects.new.entries
        ≡ with_numbers object.now numbers.now (object_entries objects.old.entries) }
    ensures room { objects.old.room ≤ objects.new.room + (if is_there then 0 else 1) }
{
    if is_there {
        objects.replace(object, numbers);
    } else {
        objects.add(object, numbers);
    }
}
