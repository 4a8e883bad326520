//! Exported objects, by rising number.
ghost use Rattle.std.specs.Prelude.{◌≡◌, ◌++◌, ◌+◌, ◌≤◌, max, length, filter, not, vec_len, vec_capacity, int_lt};
ghost use Rattle.dgc_server.specs.StandsForCalls.{ForEachLog};
ghost use Rattle.export_table.specs.ExportRows.{is_of, ids, IsPart, new_row, is_pinned, is_row_kept, stays_among, held_by, withdrawn_ids};
ghost use Rattle.export_table.specs.Waits.{still_waiting};

use crate::row_table::RowTable;
use crate::wait_list::WaitList;
use dgc_server::Leases;
use object_ids::ObjId;
use sequence::{Same, Sequence, TryCopy};
use std::alloc::{AllocError, Global};

/// An exported object, with what keeps it.
#[derive(Clone, Copy)]
pub struct Export {
    /// Its identifier.
    pub id: ObjId,
    /// Its kind, a number of its maker's.
    pub kind: u32,
    /// True where it was added pinned.
    pub pinned: bool,
    /// The number of its calls that run.
    pub running: u32,
    /// The number of its pins, besides the one that it was added with.
    pub pins: u32,
}

/// An exported object, as a list of them shows it.
#[derive(Clone, Copy, Debug, PartialEq, Eq)]
pub struct ExportRow {
    /// Its identifier.
    pub id: ObjId,
    /// Its kind, a number of its maker's.
    pub kind: u32,
    /// True where it was added pinned.
    pub pinned: bool,
    /// The number of its calls that run.
    pub running: u32,
    /// The number of references to it that await their acknowledgement.
    pub awaiting: u32,
    /// The number of its pins, besides the one that it was added with.
    pub pins: u32,
}

impl TryCopy for ExportRow {
    fn try_copy(&self, _alloc: Global) -> Result<ExportRow, AllocError> {
        Ok(*self)
    }
}

/// A list of exported objects.
pub type RowList = Sequence<ExportRow>;

impl Export {
    /// An object as it is added.
    pub fn new(id: &ObjId, kind: u32, pinned: bool) -> Export
        ensures { result ≡ new_row id.now kind pinned }
    {
        Export {
            id: *id,
            kind,
            pinned,
            running: 0,
            pins: 0,
        }
    }

    /// True where it is this object.
    pub fn is_of(&self, id: &ObjId) -> bool
        ensures { result ≡ is_of id.now self.now }
    {
        self.id.is_same(id)
    }

    /// True where its number is below an object's.
    pub fn is_below(&self, id: &ObjId) -> bool
        ensures { result ≡ int_lt self.now.id.number id.now.number }
    {
        self.id.number < id.number
    }

    /// Returns whether the object was added pinned, has a pin, or has a running call.
    fn is_pinned(&self) -> bool
        ensures { result ≡ is_pinned self.now }
    {
        self.pinned || self.pins > 0 || self.running > 0
    }

    /// True where it is kept: it is pinned, a reference to it awaits, or a client holds it.
    pub fn is_row_kept(&self, waits: &WaitList, leases: &Leases, now: u64) -> bool
        ensures { ForEachLog leases.now (λ lease moment calls.
            let held = held_by lease (max now moment) calls in
            result ≡ is_row_kept now held waits.now.waits self.now) }
    {
        self.is_pinned() || waits.is_awaited(&self.id, now) || leases.is_held(self.id, now)
    }
}

/// Forgets the waits that ended, keeps the rows of objects that are kept, and appends the identifiers of the others, for which there is
/// room.
pub fn sift(
    rows: &mut RowTable,
    waits: &mut WaitList,
    leases: &Leases,
    now: u64,
    gone: &mut Vec<ObjId>,
)
    requires { vec_len gone.old + length rows.old.rows ≤ vec_capacity gone.old }
    ensures rows { ForEachLog leases.now (λ lease moment calls.
        let held = held_by lease (max now moment) calls in
        rows.new.rows ≡ filter (is_row_kept now held waits.old.waits) rows.old.rows) }
    ensures gone { ForEachLog leases.now (λ lease moment calls.
        let held = held_by lease (max now moment) calls in
        gone.new.items ≡ gone.old.items ++ withdrawn_ids now held waits.old.waits rows.old.rows) }
    ensures part { IsPart rows.new.rows rows.old.rows }
    ensures rest { rows.new ≡ record rows.old { rows = rows.new.rows; room = rows.new.room } }
    ensures room { rows.old.room ≤ rows.new.room }
    ensures longer { vec_len gone.old ≤ vec_len gone.new }
    ensures more { vec_capacity gone.old ≤ vec_capacity gone.new }
    ensures waits { waits.new.waits ≡ still_waiting now waits.old.waits }
    ensures waits_room { waits.new.room ≡ waits.old.room }
{
    waits.forget(now);
    rows.keep(waits, leases, now, gone);
    rows.close();
}

/// Forgets the waits that ended, keeps the rows that stay where only these objects are looked at, and appends the identifiers of the others,
/// for which there is room.
pub fn sift_among(
    rows: &mut RowTable,
    waits: &mut WaitList,
    leases: &Leases,
    now: u64,
    objects: &[ObjId],
    gone: &mut Vec<ObjId>,
)
    requires { vec_len gone.old + length objects.now ≤ vec_capacity gone.old }
    ensures rows { ForEachLog leases.now (λ lease moment calls.
        let held = held_by lease (max now moment) calls in
        rows.new.rows ≡ filter (stays_among objects.now now held waits.old.waits) rows.old.rows) }
    ensures gone { ForEachLog leases.now (λ lease moment calls.
        let held = held_by lease (max now moment) calls in
        gone.new.items
        ≡ gone.old.items
        ++ ids
        (filter (λ x. not (stays_among objects.now now held waits.old.waits x)) rows.old.rows)) }
    ensures part { IsPart rows.new.rows rows.old.rows }
    ensures rest { rows.new ≡ record rows.old { rows = rows.new.rows; room = rows.new.room } }
    ensures room { rows.old.room ≤ rows.new.room }
    ensures longer { vec_len gone.old ≤ vec_len gone.new }
    ensures more { vec_capacity gone.old ≤ vec_capacity gone.new }
    ensures waits { waits.new.waits ≡ still_waiting now waits.old.waits }
    ensures waits_room { waits.new.room ≡ waits.old.room }
{
    waits.forget(now);
    rows.keep_among(waits, leases, now, objects, gone);
    rows.close();
}
