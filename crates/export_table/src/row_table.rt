//! The table of exported objects, by rising number.
ghost use Rattle.std.specs.Prelude.{◌≡◌, ◌++◌, ◌∷◌, [], ◌+◌, ◌<◌, ◌≤◌, ◌^◌, pos, max, length, map, filter, not, IsOk, IfOk, OnOk, OnErr, vec_len, vec_capacity};
ghost use Rattle.history.specs.declared.limits.TheConstants.{END_OF_OBJECT_COUNT, MAX_AWAITING};
ghost use Rattle.dgc_server.specs.StandsForCalls.{ForEachLog};
ghost use Rattle.export_table.specs.ExportRows.{is_exported, kind_of, running_of, pins_of, ids, with_row_changed, with_call_begun, with_call_ended, pinned_once, unpinned_once, is_row_kept, stays_among, held_by, row_at, IsPart};

use crate::rows::{Export, RowList};
use crate::slots::{self, Slot};
use crate::wait_list::WaitList;
use dgc_server::Leases;
use object_ids::ObjId;
use std::alloc::{AllocError, Global};
use std::marker::Model;

/// The exported objects, by rising number. Where an object goes, a gap stays in its place, so that no other row is moved; once more than half of the
/// list are gaps, they are closed. Contracts see it as `RowsHeld`.
pub struct RowTable {
    slots: Vec<Slot>,
    /// The number of objects that were ever added.
    added: u64,
    /// The number of slots that are gaps.
    gaps: usize,
}

// Written out, so that whoever owns one has one call at each exit, and not the drop of each field.
impl Drop for RowTable {
    fn drop(self) {
        let RowTable {
            slots,
            added: _,
            gaps: _,
        } = self;
        drop(slots);
    }
}

impl Model for RowTable {
    ghost use Rattle.std.specs.Prelude.{◌-◌, vec_len, vec_capacity};
    ghost use Rattle.export_table.specs.Slots.{RowsHeld, AreSlots, rows_here};

    ghost Value = { RowsHeld };

    ghost view = { λ t. record {
      rows = rows_here t.slots.items;
      added = t.added;
      room = vec_capacity t.slots - vec_len t.slots;
    } };

    ghost invariant = { λ t. AreSlots t.slots.items t.added t.gaps };
}

impl RowTable {
    /// Nothing is exported.
    pub fn new(alloc: Global) -> RowTable
        ensures { result ≡ record { rows = []; added = 0; room = 0 } }
    {
        RowTable {
            slots: Vec::new(alloc),
            added: 0,
            gaps: 0,
        }
    }

    /// The number of exported objects.
    pub fn count(&self) -> usize
        ensures { result ≡ length self.now.rows }
    {
        self.slots.len() - self.gaps
    }

    /// The number of objects that were ever added.
    pub fn added_count(&self) -> u64
        ensures { result ≡ self.now.added }
    {
        self.added
    }

    /// Makes room for so many more.
    pub fn reserve(&mut self, more: usize) -> Result<(), AllocError>
        ensures ok { OnOk result (more ≤ self.new.room) }
        ensures rest { self.new ≡ record self.old { room = self.new.room } }
        ensures room { self.old.room ≤ self.new.room }
        ensures succeeds { more ≤ self.old.room → IsOk result }
        ensures err { OnErr result (self.new ≡ self.old) }
    {
        self.slots.reserve(more)
    }

    /// Adds the next object, for which there is room.
    pub fn put(&mut self, row: Export)
        requires room { 0 < self.old.room }
        requires number { row.id.number ≡ pos (16 + self.old.added) }
        requires early { self.old.added < END_OF_OBJECT_COUNT }
        ensures rows { let rows = self.old.rows ++ row ∷ [] in
            self.new ≡ record self.old
            { rows = rows; added = self.old.added + 1; room = self.new.room } }
        ensures room { self.new.room + 1 ≡ self.old.room }
    {
        slots::put(&mut self.slots, Slot::new(row));
        self.added += 1;
    }

    /// The kind of an object.
    pub fn kind_of(&self, id: &ObjId) -> Option<u32>
        ensures { result ≡ kind_of self.now.rows id.now }
    {
        match slots::place_of(&self.slots, id) {
            Some(i) => Some(self.slots[i].row.kind),
            None => None,
        }
    }

    /// Begins a call of an object, if it is there.
    pub fn begin(&mut self, id: &ObjId) -> bool
        requires { running_of self.old.rows id.now < 2 ^ 31 }
        ensures value { result ≡ is_exported self.old.rows id.now }
        ensures rows { self.new ≡ record self.old
            { rows = with_row_changed with_call_begun id.now self.old.rows } }
    {
        slots::begin(&mut self.slots, id)
    }

    /// Ends a call of an object.
    pub fn end(&mut self, id: &ObjId)
        requires { 0 < running_of self.old.rows id.now }
        ensures { self.new ≡ record self.old
            { rows = with_row_changed with_call_ended id.now self.old.rows } }
    {
        slots::end(&mut self.slots, id);
    }

    /// Pins an object once more.
    pub fn pin(&mut self, id: &ObjId)
        requires { pins_of self.old.rows id.now < 2 ^ 31 }
        ensures { self.new ≡ record self.old
            { rows = with_row_changed pinned_once id.now self.old.rows } }
    {
        slots::pin(&mut self.slots, id);
    }

    /// Takes a pin off an object.
    pub fn unpin(&mut self, id: &ObjId)
        requires { 0 < pins_of self.old.rows id.now }
        ensures { self.new ≡ record self.old
            { rows = with_row_changed unpinned_once id.now self.old.rows } }
    {
        slots::unpin(&mut self.slots, id);
    }

    /// The rows as they are at a moment, of which at most 65,536 references await.
    pub fn list(&self, alloc: Global, waits: &WaitList, now: u64) -> Result<RowList, AllocError>
        requires { length waits.now.waits ≤ MAX_AWAITING }
        ensures { IfOk result (λ list. list ≡ map (row_at now waits.now.waits) self.now.rows) }
    {
        slots::list(alloc, &self.slots, waits, now)
    }

    /// Keeps the rows of objects that are kept, and appends the identifiers of the others, for which there is room. It moves no row.
    pub fn keep(&mut self, waits: &WaitList, leases: &Leases, now: u64, gone: &mut Vec<ObjId>)
        requires { vec_len gone.old + length self.old.rows ≤ vec_capacity gone.old }
        ensures rows { ForEachLog leases.now (λ lease moment calls.
            let held = held_by lease (max now moment) calls in
            self.new.rows ≡ filter (is_row_kept now held waits.now.waits) self.old.rows) }
        ensures gone { ForEachLog leases.now (λ lease moment calls.
            let held = held_by lease (max now moment) calls in
            gone.new.items
            ≡ gone.old.items
            ++ ids (filter (λ x. not (is_row_kept now held waits.now.waits x)) self.old.rows)) }
        ensures part { IsPart self.new.rows self.old.rows }
        ensures rest { self.new ≡ record self.old { rows = self.new.rows } }
        ensures longer { vec_len gone.old ≤ vec_len gone.new }
        ensures more { vec_capacity gone.old ≤ vec_capacity gone.new }
    {
        let told = gone.len();
        slots::mark_all(&mut self.slots, waits, leases, now);
        let upto = self.slots.len();
        slots::sweep(&mut self.slots, 0, upto, gone);
        self.gaps += gone.len() - told;
    }

    /// Keeps the rows that stay where only these objects are looked at, and appends the identifiers of the others, for which there is room. It moves
    /// no row.
    pub fn keep_among(
        &mut self,
        waits: &WaitList,
        leases: &Leases,
        now: u64,
        objects: &[ObjId],
        gone: &mut Vec<ObjId>,
    )
        requires { vec_len gone.old + length objects.now ≤ vec_capacity gone.old }
        ensures rows { ForEachLog leases.now (λ lease moment calls.
            let held = held_by lease (max now moment) calls in
            self.new.rows
            ≡ filter (stays_among objects.now now held waits.now.waits) self.old.rows) }
        ensures gone { ForEachLog leases.now (λ lease moment calls.
            let held = held_by lease (max now moment) calls in
            gone.new.items
            ≡ gone.old.items
            ++ ids
            (filter (λ x. not (stays_among objects.now now held waits.now.waits x))
            self.old.rows)) }
        ensures part { IsPart self.new.rows self.old.rows }
        ensures rest { self.new ≡ record self.old { rows = self.new.rows } }
        ensures longer { vec_len gone.old ≤ vec_len gone.new }
        ensures more { vec_capacity gone.old ≤ vec_capacity gone.new }
    {
        let told = gone.len();
        let span = slots::mark_among(&mut self.slots, waits, leases, now, objects);
        slots::sweep(&mut self.slots, span.first, span.upto, gone);
        self.gaps += gone.len() - told;
    }

    /// Closes the gaps once they are more than half of the list.
    pub fn close(&mut self)
        ensures rest { self.new ≡ record self.old { room = self.new.room } }
        ensures room { self.old.room ≤ self.new.room }
    {
        if self.gaps > self.slots.len() / 2 {
            slots::close(&mut self.slots);
            self.gaps = 0;
        }
    }
}
