//! The export table.
ghost use Rattle.std.specs.Prelude.{◌≡◌, ◌≢◌, ◌⊎◌, ◌<◌, ◌≤◌, ◌+◌, ◌^◌, ◌↔◌, ◌++◌, ◌∷◌, [], false, max, length, map, filter, not, IsTrue, OnOk, OnErr, IfOk, IfErr, vec_len, vec_capacity};
ghost use Rattle.history.specs.declared.limits.TheConstants.{MAX_EXPORTS, MAX_AWAITING, END_OF_OBJECT_COUNT, END_OF_TIME, MAX_DURATION_MS};
ghost use Rattle.history.specs.Places.{id_at};
ghost use Rattle.object_ids.specs.declared.ids.FullKind.TheVariants.{Exports as FullExports, Awaiting as FullAwaiting};
ghost use Rattle.dgc_server.specs.Counts.{without_all};
ghost use Rattle.dgc_server.specs.StandsForCalls.{StandsFor, ForEachLog};
ghost use Rattle.export_table.specs.Waits.{still_waiting, ends_between, goes_on, ended_waits, of_return, objects, is_waiting, with_listed, without_acknowledged};
ghost use Rattle.std.specs.List.{list_any};
ghost use Rattle.export_table.specs.ExportRows.{is_exported, kind_of, running_of, pins_of, ids, new_row, with_row_changed, with_call_begun, with_call_ended, pinned_once, unpinned_once, is_row_kept, held_by, withdrawn_ids, stays_among, row_at};
ghost use Rattle.export_table.specs.Table.{IsSound, no_room};

use crate::row_table::RowTable;
use crate::rows::{self, Export, RowList};
use crate::wait_list::WaitList;
use dgc_server::Leases;
use history::limits::{MAX_AWAITING, MAX_EXPORTS};
use history::places::id_at;
use object_ids::{FullKind, ObjId, Uid};
use std::alloc::{AllocError, Global};
use std::fmt;
use std::marker::Model;

/// The reason why an entry is refused.
#[derive(Clone, Copy, Debug, PartialEq, Eq)]
pub enum ExportFault {
    /// As many entries as can be are there.
    Full(FullKind),
    /// There is no memory.
    OutOfMemory,
}

impl From<AllocError> for ExportFault {
    ghost use Rattle.export_table.specs.declared.exports.ExportFault.TheVariants.{OutOfMemory};

    ghost from_gives = { λ _ e. e ≡ OutOfMemory };

    fn from(_refused: AllocError) -> ExportFault {
        ExportFault::OutOfMemory
    }
}

/// The objects that a space has exported, with what keeps each of them: that it was added pinned, pins, calls that run,
/// and returned references that await their acknowledgement. Contracts see it as an `ExportTable`.
pub struct Exports {
    space: Uid,
    ack: u64,
    rows: RowTable,
    waits: WaitList,
}

// Written out, so that whoever owns one has one call at each exit, and not the drop of each field.
impl Drop for Exports {
    fn drop(self) {
        let Exports {
            space: _,
            ack: _,
            rows,
            waits,
        } = self;
        drop(rows);
        drop(waits);
    }
}

impl fmt::Debug for Exports {
    fn fmt<W: fmt::Write>(&self, f: &mut fmt::Formatter<W>) -> fmt::Result {
        f.debug_struct("Exports")
            .field("count", &self.rows.count())
            .finish_non_exhaustive()
    }
}

impl Model for Exports {
    ghost use Rattle.export_table.specs.Table.{ExportTable, IsSound};

    ghost Value = { ExportTable };

    ghost view = { λ e. record {
      space = e.space;
      ack = e.ack;
      added = e.rows.added;
      rows = e.rows.rows;
      waits = e.waits.waits;
      room = record {
        exports = e.rows.room;
        waits = e.waits.room;
      };
    } };

    ghost invariant = { λ e. IsSound e.space e.ack e.rows.added e.rows.rows e.waits.waits };
}

impl Exports {
    /// The table of a space that has exported nothing. A returned reference awaits its acknowledgement for
    /// `ack_ms` milliseconds.
    pub fn fresh(alloc: Global, uid: Uid, ack_ms: u64) -> Exports
        requires some { 1 ≤ ack_ms }
        requires short { ack_ms ≤ MAX_DURATION_MS }
        ensures { result ≡ record
            { space = uid; ack = ack_ms; added = 0; rows = []; waits = []; room = no_room } }
    {
        Exports {
            space: uid,
            ack: ack_ms,
            rows: RowTable::new(alloc),
            waits: WaitList::new(alloc),
        }
    }

    /// Adds an object of this kind. The k-th addition of a table, from 0, has the number 16 + k, also where earlier
    /// objects were withdrawn. Full(Exports) comes exactly where 65,536 objects are exported; after a refusal all is as it was.
    pub fn add(&mut self, kind: u32, pinned: bool) -> Result<ObjId, ExportFault>
        requires { self.old.added < END_OF_OBJECT_COUNT }
        ensures id { IfOk result (λ id. id ≡ id_at self.old.space self.old.added) }
        ensures ok { OnOk result
            (let rows = self.old.rows
            ++ new_row (id_at self.old.space self.old.added) kind pinned ∷ [] in
            self.new ≡ record self.old
            { added = self.old.added + 1; rows = rows; room = self.new.room }) }
        ensures full { (result ≡ Err (ExportFault.Full FullExports))
            ↔ (MAX_EXPORTS ≤ length self.old.rows) }
        ensures memory { 0 < self.old.room.exports → result ≢ Err ExportFault.OutOfMemory }
        ensures faults { IfErr result
            (λ fault. (fault ≡ ExportFault.Full FullExports) ⊎ (fault ≡ ExportFault.OutOfMemory)) }
        ensures err { OnErr result (self.new ≡ self.old) }

        // It takes at most one place of the room.
        ensures exports_room { self.old.room.exports ≤ self.new.room.exports + 1 }
        ensures waits_room { self.new.room.waits ≡ self.old.room.waits }
    {
        if self.rows.count() as u64 >= MAX_EXPORTS {
            return Err(ExportFault::Full(FullKind::Exports));
        }
        self.rows.reserve(1)?;
        let id = id_at(self.space, self.rows.added_count());
        self.rows.put(Export::new(&id, kind, pinned));
        Ok(id)
    }

    /// The kind of an exported object.
    pub fn find(&self, id: ObjId) -> Option<u32>
        ensures { result ≡ kind_of self.now.rows id }
    {
        self.rows.kind_of(&id)
    }

    /// Makes room, so that the next so many calls of `add` and of `wait_for` need no memory.
    pub fn reserve(&mut self, objects: u32, waits: u32) -> Result<(), AllocError>
        ensures exports { OnOk result (objects ≤ self.new.room.exports) }
        ensures waits { OnOk result (waits ≤ self.new.room.waits) }
        ensures rest { self.new ≡ record self.old { room = self.new.room } }
        ensures exports_room { self.old.room.exports ≤ self.new.room.exports }
        ensures waits_room { self.old.room.waits ≤ self.new.room.waits }
    {
        self.rows.reserve(objects as usize)?;
        self.waits.reserve(waits as usize)
    }

    /// The number of references that await their acknowledgement at this moment.
    pub fn waiting_count(&self, now: u64) -> u32
        ensures { result ≡ length (still_waiting now self.now.waits) }
    {
        self.waits.count(now) as u32
    }

    /// True where a reference to this object, in this return, awaits its acknowledgement at this moment.
    pub fn is_waiting(&self, id: ObjId, uid: Uid, now: u64) -> bool
        ensures { result ≡ is_waiting now id uid self.now.waits }
    {
        self.waits.is_waiting(&id, &uid, now)
    }

    /// True where the wait of some reference has ended at this moment.
    pub fn has_ended(&self, now: u64) -> bool
        ensures { result ≡ list_any (λ w. not (goes_on now w)) self.now.waits }
    {
        self.waits.has_ended(now)
    }

    /// Returns whether the wait of some reference ends after the moment `from` and no later than `now`. Where no wait has ended by then, it looks at none.
    pub fn has_ended_since(&self, from: u64, now: u64) -> bool
        ensures { result ≡ list_any (ends_between from now) self.now.waits }
    {
        self.waits.has_ended_since(from, now)
    }

    /// The objects of the references whose waits have ended at this moment.
    pub fn ended_objects(&self, alloc: Global, now: u64) -> Result<Vec<ObjId>, AllocError>
        ensures { IfOk result (λ os. os.items ≡ objects (ended_waits now self.now.waits)) }
    {
        self.waits.ended_objects(alloc, now)
    }

    /// The objects of the references in a return that await their acknowledgement.
    pub fn of_return(&self, alloc: Global, uid: Uid) -> Result<Vec<ObjId>, AllocError>
        ensures { IfOk result (λ os. os.items ≡ objects (of_return uid self.now.waits)) }
    {
        self.waits.of_return(alloc, &uid)
    }

    /// The number of exported objects.
    pub fn count(&self) -> u32
        ensures value { result ≡ length self.now.rows }
        ensures sound { IsSound self.now.space self.now.ack self.now.added self.now.rows
            self.now.waits }
    {
        self.rows.count() as u32
    }

    /// The exported objects as they are at this moment, by rising number.
    pub fn rows(&self, alloc: Global, now: u64) -> Result<RowList, AllocError>
        ensures { IfOk result (λ rows. rows ≡ map (row_at now self.now.waits) self.now.rows) }
    {
        self.rows.list(alloc, &self.waits, now)
    }

    /// Begins a call of an object. It answers false exactly where the object isn't exported, and then nothing
    /// changes.
    pub fn begin(&mut self, id: ObjId) -> bool
        requires { running_of self.old.rows id < 2 ^ 31 }
        ensures value { result ≡ is_exported self.old.rows id }
        ensures begun { self.new ≡ record self.old
            { rows = with_row_changed with_call_begun id self.old.rows } }
        ensures absent { result ≡ false → self.new ≡ self.old }
    {
        self.rows.begin(&id)
    }

    /// Ends a call of an object.
    pub fn end(&mut self, id: ObjId)
        requires { 0 < running_of self.old.rows id }
        ensures { self.new ≡ record self.old
            { rows = with_row_changed with_call_ended id self.old.rows } }
    {
        self.rows.end(&id);
    }

    /// Notes that a return has a reference to an exported object, which awaits its acknowledgement from now on, and no shorter than it did
    /// before (Java RMI Specification, chapter 10: `DgcAck`). Waits that ended are forgotten. Full(Awaiting) comes exactly where 65,536
    /// references await at this moment and this one isn't among them; after a refusal all is as it was.
    pub fn wait_for(&mut self, id: ObjId, uid: Uid, now: u64) -> Result<(), ExportFault>
        requires exported { IsTrue (is_exported self.old.rows id) }
        requires early { now < END_OF_TIME }
        ensures ok { OnOk result (let waits = with_listed self.old.ack now id uid self.old.waits in
            self.new ≡ record self.old { waits = waits; room = self.new.room }) }
        ensures full { (result ≡ Err (ExportFault.Full FullAwaiting))
            ↔ ((MAX_AWAITING ≤ length (still_waiting now self.old.waits))
            × (is_waiting now id uid self.old.waits ≡ false)) }
        ensures memory { 0 < self.old.room.waits → result ≢ Err ExportFault.OutOfMemory }
        ensures faults { IfErr result
            (λ fault. (fault ≡ ExportFault.Full FullAwaiting) ⊎ (fault ≡ ExportFault.OutOfMemory)) }
        ensures err { OnErr result (self.new ≡ self.old) }

        // It takes at most one place of the room.
        ensures exports_room { self.new.room.exports ≡ self.old.room.exports }
        ensures waits_room { self.old.room.waits ≤ self.new.room.waits + 1 }
    {
        if self.waits.is_full(&id, &uid, now) {
            return Err(ExportFault::Full(FullKind::Awaiting));
        }
        self.waits.reserve(1)?;
        self.waits.list(&id, &uid, self.ack, now);
        Ok(())
    }

    /// Notes the acknowledgement of a return: none of its references awaits any more.
    pub fn ack(&mut self, uid: Uid)
        ensures value { let waits = without_acknowledged uid self.old.waits in
            self.new ≡ record self.old { waits = waits; room = self.new.room } }
        ensures exports_room { self.new.room.exports ≡ self.old.room.exports }
        ensures waits_room { self.old.room.waits ≤ self.new.room.waits }
    {
        self.waits.acknowledge(&uid);
    }

    /// Pins an exported object once more.
    pub fn pin(&mut self, id: ObjId)
        requires exported { IsTrue (is_exported self.old.rows id) }
        requires few { pins_of self.old.rows id < 2 ^ 31 }
        ensures { self.new ≡ record self.old
            { rows = with_row_changed pinned_once id self.old.rows } }
    {
        self.rows.pin(&id);
    }

    /// Takes a pin off an exported object. An object that was added pinned stays so.
    pub fn unpin(&mut self, id: ObjId)
        requires exported { IsTrue (is_exported self.old.rows id) }
        requires stands { 0 < pins_of self.old.rows id }
        ensures { self.new ≡ record self.old
            { rows = with_row_changed unpinned_once id self.old.rows } }
    {
        self.rows.unpin(&id);
    }

    /// Withdraws each object that isn't kept at this moment, appends its identifier to `gone`, by rising number, and drops it from the
    /// leases. An object is kept where it was added pinned, a pin stands, a call of it runs, a reference to it awaits its acknowledgement, or
    /// a client holds it. Waits that ended are forgotten. It takes no memory.
    pub fn withdraw(&mut self, now: u64, leases: &mut Leases, gone: &mut Vec<ObjId>)
        requires { vec_len gone.old + length self.old.rows ≤ vec_capacity gone.old }
        ensures kept { ForEachLog leases.old (λ lease moment calls.
            let held = held_by lease (max now moment) calls in
            let rows = filter (is_row_kept now held self.old.waits) self.old.rows in
            let waits = still_waiting now self.old.waits in
            self.new ≡ record self.old { rows = rows; waits = waits; room = self.new.room }) }
        ensures gone { ForEachLog leases.old (λ lease moment calls.
            let held = held_by lease (max now moment) calls in
            gone.new.items
            ≡ gone.old.items ++ withdrawn_ids now held self.old.waits self.old.rows) }
        ensures dropped { ForEachLog leases.old (λ lease moment calls.
            let held = held_by lease (max now moment) calls in
            let dropped = withdrawn_ids now held self.old.waits self.old.rows in
            StandsFor lease leases.new moment (map (without_all dropped) calls)) }
        ensures exports_room { self.old.room.exports ≤ self.new.room.exports }
        ensures waits_room { self.old.room.waits ≤ self.new.room.waits }
        ensures capacity { vec_capacity gone.old ≤ vec_capacity gone.new }
    {
        let before = gone.len();
        rows::sift(&mut self.rows, &mut self.waits, leases, now, gone);
        leases.drop_objects(&gone[before..]);
    }

    /// Withdraws each of the objects `doubtful` that isn't kept at this moment, as `withdraw` does, and looks at no other object. Waits that ended
    /// are forgotten. So it does what `withdraw` does where each object that isn't kept is among `doubtful`. It takes no memory.
    pub fn withdraw_among(
        &mut self,
        now: u64,
        leases: &mut Leases,
        doubtful: &[ObjId],
        gone: &mut Vec<ObjId>,
    )
        requires { vec_len gone.old + length doubtful.now ≤ vec_capacity gone.old }
        ensures kept { ForEachLog leases.old (λ lease moment calls.
            let held = held_by lease (max now moment) calls in
            let rows = filter (stays_among doubtful.now now held self.old.waits) self.old.rows in
            let waits = still_waiting now self.old.waits in
            self.new ≡ record self.old { rows = rows; waits = waits; room = self.new.room }) }
        ensures gone { ForEachLog leases.old (λ lease moment calls.
            let held = held_by lease (max now moment) calls in
            gone.new.items
            ≡ gone.old.items
            ++ ids
            (filter (λ x. not (stays_among doubtful.now now held self.old.waits x))
            self.old.rows)) }
        ensures dropped { ForEachLog leases.old (λ lease moment calls.
            let held = held_by lease (max now moment) calls in
            let dropped = ids
            (filter (λ x. not (stays_among doubtful.now now held self.old.waits x))
            self.old.rows) in
            StandsFor lease leases.new moment (map (without_all dropped) calls)) }
        ensures exports_room { self.old.room.exports ≤ self.new.room.exports }
        ensures waits_room { self.old.room.waits ≤ self.new.room.waits }
        ensures capacity { vec_capacity gone.old ≤ vec_capacity gone.new }
    {
        let told = gone.len();
        rows::sift_among(&mut self.rows, &mut self.waits, leases, now, doubtful, gone);
        leases.drop_objects(&gone[told..]);
    }
}
