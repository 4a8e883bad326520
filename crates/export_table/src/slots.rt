//! Slots of exported objects, by rising number: where an object went, a gap stays.
ghost use Rattle.std.specs.Prelude.{◌≡◌, ◌++◌, ◌∷◌, [], ◌^◌, ℕ, ◌⊎◌, ◌+◌, ◌<◌, ◌≤◌, max, length, map, filter, not, true, false, IsTrue, IfOk, OnOk, MatchOption, int_lt, take, drop, vec_len, vec_capacity};
ghost use Rattle.std.specs.List.{list_all};
ghost use Rattle.history.specs.declared.limits.TheConstants.{MAX_AWAITING};
ghost use Rattle.dgc_server.specs.StandsForCalls.{ForEachLog};
ghost use Rattle.export_table.specs.ExportRows.{is_exported, running_of, pins_of, ids, is_rising, with_row_changed, with_call_begun, with_call_ended, pinned_once, unpinned_once, is_row_kept, stays_among, held_by, row_at};
ghost use Rattle.export_table.specs.Slots.{is_here, is_leaving, all_rows, rows_here, rows_leaving, slot_of, as_leaving, as_marked, as_swept, none_leaving, AreMarked, AreSlots, IsSlotOf};

use crate::rows::{Export, ExportRow, RowList};
use crate::wait_list::WaitList;
use dgc_server::Leases;
use object_ids::ObjId;
use std::alloc::{AllocError, Global};

/// The standing of a slot.
#[derive(Clone, Copy)]
pub enum Standing {
    /// Its object is exported.
    Here,
    /// Its object is about to go.
    Leaving,
    /// Its object went.
    Gap,
}

/// A slot of an exported object.
#[derive(Clone, Copy)]
pub struct Slot {
    /// The row of the object, or of the one that went.
    pub row: Export,
    /// Its standing.
    pub standing: Standing,
}

/// Places from the first on, up to the end.
#[derive(Clone, Copy)]
pub struct Span {
    /// The first place.
    pub first: usize,
    /// The place behind the last one.
    pub upto: usize,
}

impl Slot {
    /// A slot for a row.
    pub fn new(row: Export) -> Slot
        ensures { result ≡ slot_of row }
    {
        Slot {
            row,
            standing: Standing::Here,
        }
    }

    /// True where its object is exported.
    pub fn is_here(&self) -> bool
        ensures { result ≡ is_here self.now }
    {
        match self.standing {
            Standing::Here => true,
            Standing::Leaving => false,
            Standing::Gap => false,
        }
    }

    /// Returns whether the slot's object is about to go.
    fn is_leaving(&self) -> bool
        ensures { result ≡ is_leaving self.now }
    {
        match self.standing {
            Standing::Here => false,
            Standing::Leaving => true,
            Standing::Gap => false,
        }
    }

    /// Marks its object as about to go, if it is exported and isn't kept.
    fn mark(&mut self, waits: &WaitList, leases: &Leases, now: u64)
        ensures marks { ForEachLog leases.now (λ lease moment calls.
            let held = held_by lease (max now moment) calls in
            self.new ≡ as_marked (is_row_kept now held waits.now.waits) self.old) }
        ensures any { (self.new ≡ self.old)
            ⊎ ((is_here self.old ≡ true) × (self.new ≡ as_leaving self.old)) }
    {
        if !self.is_here() {
            return;
        }
        if self.row.is_row_kept(waits, leases, now) {
            return;
        }
        self.standing = Standing::Leaving;
    }
}

impl Span {
    /// Takes in a place.
    fn widen(&mut self, place: usize)
        requires { place + 1 < 2 ^ 64 }
        ensures first { self.new.first ≤ self.old.first }
        ensures from { self.new.first ≤ place }
        ensures upto { self.old.upto ≤ self.new.upto }
        ensures behind { place < self.new.upto }
        ensures within { (n : ℕ) → self.old.upto ≤ n → place < n → self.new.upto ≤ n }
    {
        self.first = self.first.min(place);
        self.upto = self.upto.max(place + 1);
    }
}

/// The place of an exported object's slot.
pub fn place_of(slots: &[Slot], id: &ObjId) -> Option<usize>
    requires { IsTrue (is_rising (ids (all_rows slots.now))) }
    ensures { MatchOption result (is_exported (rows_here slots.now) id.now ≡ false)
        (IsSlotOf slots.now id.now) }
{
    let place = first_from(slots, id);
    if place == slots.len() {
        return None;
    }
    if !slots[place].row.is_of(id) {
        return None;
    }
    if slots[place].is_here() {
        Some(place)
    } else {
        None
    }
}

/// The place of the first slot whose number is not below an object's, or behind the last slot.
fn first_from(slots: &[Slot], id: &ObjId) -> usize
    requires { IsTrue (is_rising (ids (all_rows slots.now))) }
    ensures within { result ≤ length slots.now }
    ensures below { IsTrue
        (list_all (λ o. int_lt o.number id.now.number) (ids (take result (all_rows slots.now)))) }
    ensures from { IsTrue
        (list_all (λ o. not (int_lt o.number id.now.number))
        (ids (drop result (all_rows slots.now)))) }
{
    let mut low: usize = 0;
    let mut high: usize = slots.len();
    while low < high {
        let middle = low + (high - low) / 2;
        if slots[middle].row.is_below(id) {
            low = middle + 1;
        } else {
            high = middle;
        }
    }
    low
}

/// Begins a call of an object, if it is there.
pub fn begin(slots: &mut Vec<Slot>, id: &ObjId) -> bool
    requires rising { IsTrue (is_rising (ids (all_rows slots.old.items))) }
    requires few { running_of (rows_here slots.old.items) id.now < 2 ^ 31 }
    ensures value { result ≡ is_exported (rows_here slots.old.items) id.now }
    ensures rows { rows_here slots.new.items
        ≡ with_row_changed with_call_begun id.now (rows_here slots.old.items) }
    ensures slots { (added gaps : ℕ) → AreSlots slots.old.items added gaps
        → AreSlots slots.new.items added gaps }
    ensures len { vec_len slots.new ≡ vec_len slots.old }
    ensures capacity { vec_capacity slots.new ≡ vec_capacity slots.old }
{
    match place_of(slots, id) {
        Some(i) => {
            slots[i].row.running += 1;
            true
        }
        None => false,
    }
}

/// Ends a call of an object.
pub fn end(slots: &mut Vec<Slot>, id: &ObjId)
    requires rising { IsTrue (is_rising (ids (all_rows slots.old.items))) }
    requires runs { 0 < running_of (rows_here slots.old.items) id.now }
    ensures rows { rows_here slots.new.items
        ≡ with_row_changed with_call_ended id.now (rows_here slots.old.items) }
    ensures slots { (added gaps : ℕ) → AreSlots slots.old.items added gaps
        → AreSlots slots.new.items added gaps }
    ensures len { vec_len slots.new ≡ vec_len slots.old }
    ensures capacity { vec_capacity slots.new ≡ vec_capacity slots.old }
{
    match place_of(slots, id) {
        Some(i) => slots[i].row.running -= 1,
        None => {}
    }
}

/// Pins an object once more.
pub fn pin(slots: &mut Vec<Slot>, id: &ObjId)
    requires rising { IsTrue (is_rising (ids (all_rows slots.old.items))) }
    requires few { pins_of (rows_here slots.old.items) id.now < 2 ^ 31 }
    ensures rows { rows_here slots.new.items
        ≡ with_row_changed pinned_once id.now (rows_here slots.old.items) }
    ensures slots { (added gaps : ℕ) → AreSlots slots.old.items added gaps
        → AreSlots slots.new.items added gaps }
    ensures len { vec_len slots.new ≡ vec_len slots.old }
    ensures capacity { vec_capacity slots.new ≡ vec_capacity slots.old }
{
    match place_of(slots, id) {
        Some(i) => slots[i].row.pins += 1,
        None => {}
    }
}

/// Takes a pin off an object.
pub fn unpin(slots: &mut Vec<Slot>, id: &ObjId)
    requires rising { IsTrue (is_rising (ids (all_rows slots.old.items))) }
    requires stands { 0 < pins_of (rows_here slots.old.items) id.now }
    ensures rows { rows_here slots.new.items
        ≡ with_row_changed unpinned_once id.now (rows_here slots.old.items) }
    ensures slots { (added gaps : ℕ) → AreSlots slots.old.items added gaps
        → AreSlots slots.new.items added gaps }
    ensures len { vec_len slots.new ≡ vec_len slots.old }
    ensures capacity { vec_capacity slots.new ≡ vec_capacity slots.old }
{
    match place_of(slots, id) {
        Some(i) => slots[i].row.pins -= 1,
        None => {}
    }
}

/// Appends a slot for which there is room.
pub fn put(slots: &mut Vec<Slot>, slot: Slot)
    requires { vec_len slots.old < vec_capacity slots.old }
    ensures items { slots.new.items ≡ slots.old.items ++ slot ∷ [] }
    ensures len { vec_len slots.new ≡ vec_len slots.old + 1 }
    ensures capacity { vec_capacity slots.new ≡ vec_capacity slots.old }
{
    slots.push_reserved(slot);
}

/// Closes the gaps.
pub fn close(slots: &mut Vec<Slot>)
    ensures items { slots.new.items ≡ filter is_here slots.old.items }
    ensures len { vec_len slots.new ≤ vec_len slots.old }
    ensures capacity { vec_capacity slots.new ≡ vec_capacity slots.old }
{
    slots.retain(|slot| slot.is_here());
}

/// The rows of exported objects as they are at a moment, of which at most 65,536 references await.
pub fn list(
    alloc: Global,
    slots: &[Slot],
    waits: &WaitList,
    now: u64,
) -> Result<RowList, AllocError>
    requires { length waits.now.waits ≤ MAX_AWAITING }
    ensures { IfOk result (λ list. list ≡ map (row_at now waits.now.waits) (rows_here slots.now)) }
{
    let mut list = RowList::new(alloc);
    for slot in slots {
        show(&mut list, slot, waits, now)?;
    }
    Ok(list)
}

/// Appends the row of a slot as it is at a moment, if its object is exported.
fn show(list: &mut RowList, slot: &Slot, waits: &WaitList, now: u64) -> Result<(), AllocError>
    requires { length waits.now.waits ≤ MAX_AWAITING }
    ensures { OnOk result
        (list.new ≡ list.old ++ map (row_at now waits.now.waits) (rows_here (slot.now ∷ []))) }
{
    if !slot.is_here() {
        return Ok(());
    }
    list.push(ExportRow {
        id: slot.row.id,
        kind: slot.row.kind,
        pinned: slot.row.pinned,
        running: slot.row.running,
        awaiting: waits.count_of(&slot.row.id, now) as u32,
        pins: slot.row.pins,
    })
}

/// Marks each exported object that isn't kept as about to go.
pub fn mark_all(slots: &mut Vec<Slot>, waits: &WaitList, leases: &Leases, now: u64)
    ensures marks { ForEachLog leases.now (λ lease moment calls.
        let held = held_by lease (max now moment) calls in
        slots.new.items ≡ map (as_marked (is_row_kept now held waits.now.waits)) slots.old.items) }
    ensures any { AreMarked slots.old.items slots.new.items }
    ensures len { vec_len slots.new ≡ vec_len slots.old }
    ensures capacity { vec_capacity slots.new ≡ vec_capacity slots.old }
{
    for i in 0..slots.len() {
        slots[i].mark(waits, leases, now);
    }
}

/// Marks each of these objects that is exported and isn't kept as about to go, and says between which places they are. It looks at no
/// other object.
pub fn mark_among(
    slots: &mut Vec<Slot>,
    waits: &WaitList,
    leases: &Leases,
    now: u64,
    objects: &[ObjId],
) -> Span
    requires rising { IsTrue (is_rising (ids (all_rows slots.old.items))) }
    requires settled { none_leaving slots.old.items }
    ensures marks { ForEachLog leases.now (λ lease moment calls.
        let held = held_by lease (max now moment) calls in
        slots.new.items
        ≡ map (as_marked (stays_among objects.now now held waits.now.waits)) slots.old.items) }
    ensures any { AreMarked slots.old.items slots.new.items }
    ensures front { none_leaving (take result.first slots.new.items) }
    ensures back { none_leaving (drop result.upto slots.new.items) }
    ensures within { result.upto ≤ length slots.new.items }
    ensures few { length (filter is_leaving slots.new.items) ≤ length objects.now }
    ensures slots_len { vec_len slots.new ≡ vec_len slots.old }
    ensures slots_capacity { vec_capacity slots.new ≡ vec_capacity slots.old }
{
    let mut span = Span {
        first: slots.len(),
        upto: 0,
    };
    for object in objects {
        mark_one(slots, waits, leases, now, object, &mut span);
    }
    span
}

/// Marks an object as about to go, if it is exported and isn't kept, and widens a span to its place.
fn mark_one(
    slots: &mut Vec<Slot>,
    waits: &WaitList,
    leases: &Leases,
    now: u64,
    object: &ObjId,
    span: &mut Span,
)
    requires rising { IsTrue (is_rising (ids (all_rows slots.old.items))) }
    requires within { span.old.upto ≤ length slots.old.items }
    ensures marks { ForEachLog leases.now (λ lease moment calls.
        let held = held_by lease (max now moment) calls in
        slots.new.items
        ≡ map (as_marked (stays_among (object.now ∷ []) now held waits.now.waits))
        slots.old.items) }
    ensures any { AreMarked slots.old.items slots.new.items }
    ensures front { none_leaving (take span.old.first slots.old.items)
        → none_leaving (take span.new.first slots.new.items) }
    ensures back { none_leaving (drop span.old.upto slots.old.items)
        → none_leaving (drop span.new.upto slots.new.items) }
    ensures within { span.new.upto ≤ length slots.new.items }
    ensures few { length (filter is_leaving slots.new.items)
        ≤ length (filter is_leaving slots.old.items) + 1 }
    ensures slots_len { vec_len slots.new ≡ vec_len slots.old }
    ensures slots_capacity { vec_capacity slots.new ≡ vec_capacity slots.old }
{
    let place = match place_of(slots, object) {
        Some(place) => place,
        None => return,
    };
    if slots[place].row.is_row_kept(waits, leases, now) {
        return;
    }
    slots[place].standing = Standing::Leaving;
    span.widen(place);
}

/// Makes gaps of the slots whose objects are about to go, which are between these places, and appends their identifiers, for which there is room.
pub fn sweep(slots: &mut Vec<Slot>, first: usize, upto: usize, gone: &mut Vec<ObjId>)
    requires front { none_leaving (take first slots.old.items) }
    requires back { none_leaving (drop upto slots.old.items) }
    requires within { upto ≤ length slots.old.items }
    requires room { vec_len gone.old + length (filter is_leaving slots.old.items)
        ≤ vec_capacity gone.old }
    ensures slots { slots.new.items ≡ map as_swept slots.old.items }
    ensures gone { gone.new.items ≡ gone.old.items ++ ids (rows_leaving slots.old.items) }
    ensures len { vec_len gone.new ≡ vec_len gone.old + length (filter is_leaving slots.old.items) }
    ensures capacity { vec_capacity gone.old ≤ vec_capacity gone.new }
    ensures slots_len { vec_len slots.new ≡ vec_len slots.old }
    ensures slots_capacity { vec_capacity slots.new ≡ vec_capacity slots.old }
{
    for i in first..upto {
        let slot = slots[i];
        if slot.is_leaving() {
            note_gone(gone, &slot.row.id);
            slots[i].standing = Standing::Gap;
        }
    }
}

/// Appends an identifier for which there is room.
fn note_gone(gone: &mut Vec<ObjId>, id: &ObjId)
    requires { vec_len gone.old < vec_capacity gone.old }
    ensures items { gone.new.items ≡ gone.old.items ++ id.now ∷ [] }
    ensures len { vec_len gone.new ≡ vec_len gone.old + 1 }
    ensures capacity { vec_capacity gone.old ≤ vec_capacity gone.new }
{
    gone.push_reserved(*id);
}
