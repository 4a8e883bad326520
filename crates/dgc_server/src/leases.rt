//! The lease table.
ghost use Rattle.std.specs.Prelude.{◌≡◌, ◌≢◌, ◌<◌, ◌≤◌, ◌↔◌, [], ◌∷◌, true, false, length, map, max, IsTrue, OnOk, OnErr, IfOk};
ghost use Rattle.std.specs.List.{list_any};
ghost use Rattle.object_ids.specs.declared.ids.ObjId.{ObjId};
ghost use Rattle.object_ids.specs.Same.{same_id};
ghost use Rattle.history.specs.declared.limits.TheConstants.{MAX_CLIENTS, MAX_PAIRS, END_OF_TIME, MAX_DURATION_MS};
ghost use Rattle.history.specs.Leases.{is_dirty_kind, grant, is_held, holders, pairs, lease_rows};
ghost use Rattle.dgc_server.specs.Counts.{dirty_call, clean_call, clean_kind, without, without_all, clients_with_call, pairs_with_call};
ghost use Rattle.dgc_server.specs.StandsForCalls.{IsSound, IsTrimmed, StandsFor, ForEachLog, SomeLeaseEnds, table_after};
ghost use Rattle.dgc_server.specs.HolderIndex.{sums_at};
ghost use Rattle.dgc_server.specs.Table.{clients_after, pairs_after};

use crate::clients::Clients;
use crate::entry::LeaseCall;
use crate::holders::{Counts, count_of, forget, forget_all, touch_all};
use crate::table::{self, Sums};
use crate::{lease_ends, scans};
use history::{CallKind, LeaseList, grant};
use object_ids::{ObjId, ObjIds, Vmid};
use std::alloc::{AllocError, Global};
use std::fmt;
use std::marker::Model;

/// The most objects that are dropped one by one. More are dropped together.
const MAX_DROPPED_ONE_BY_ONE: usize = 4;

/// The reason why a lease call is refused.
#[derive(Clone, Copy, Debug, PartialEq, Eq)]
pub enum LeaseFault {
    /// As many clients as can be have time left, and this one is not among them.
    Clients,
    /// The call would bring more pairs of a client and an object than can be remembered.
    Pairs,
    /// There is no memory.
    OutOfMemory,
}

impl From<AllocError> for LeaseFault {
    ghost use Rattle.dgc_server.specs.declared.leases.LeaseFault.TheVariants.{OutOfMemory};

    ghost from_gives = { λ _ e. e ≡ OutOfMemory };

    fn from(_refused: AllocError) -> LeaseFault {
        LeaseFault::OutOfMemory
    }
}

/// The leases of clients, and which objects they hold. A contract speaks of every list of lease calls
/// that the table stands for, the newest first, and of the greatest moment that it was told.
pub struct Leases {
    alloc: Global,
    /// The configured lease, in milliseconds.
    lease: u64,
    /// The clients at the greatest moment so far.
    clients: Clients,
    /// For each object, the number of clients that hold it at that moment, and the number that name it.
    counts: Counts,
    /// The number of clients that have time left at that moment, and the number of pairs that are remembered.
    sums: Sums,
}

// Written out, so that whoever owns one has one call at each exit, and not the drop of each field.
impl Drop for Leases {
    fn drop(self) {
        let Leases {
            alloc: _,
            lease: _,
            clients,
            counts,
            sums: _,
        } = self;
        drop(clients);
        drop(counts);
    }
}

impl fmt::Debug for Leases {
    fn fmt<W: fmt::Write>(&self, f: &mut fmt::Formatter<W>) -> fmt::Result {
        f.debug_struct("Leases")
            .field("kept", &scans::len(&self.clients))
            .finish_non_exhaustive()
    }
}

impl Model for Leases {
    ghost use Rattle.dgc_server.specs.StandsForCalls.{LeaseTable, IsSound};
    ghost use Rattle.std.specs.Prelude.{◌≡◌, ◌<◌};
    ghost use Rattle.dgc_server.specs.HolderIndex.{IsIndexed, sums_at};

    ghost Value = { LeaseTable };

    ghost view = { λ a.
        record { lease = a.lease; moment = a.clients.moment; entries = a.clients.entries } };

    ghost invariant = { λ a. IsSound a.lease a.clients.moment a.clients.entries
        × IsIndexed a.clients.moment a.clients.next a.counts a.clients.entries
        × (a.sums ≡ sums_at a.clients.moment a.clients.entries)
        × (a.clients.moment < a.clients.next) };
}

impl Leases {
    /// The table of no calls. `lease_ms` is the configured lease in milliseconds, the longest that is granted.
    pub fn fresh(alloc: Global, lease_ms: u64) -> Leases
        requires some { 1 ≤ lease_ms }
        requires short { lease_ms ≤ MAX_DURATION_MS }
        ensures { StandsFor lease_ms result 0 [] }
    {
        Leases {
            alloc,
            lease: lease_ms,
            clients: Clients::new(alloc),
            counts: Counts::new(alloc),
            sums: Sums {
                leased: 0,
                pairs: 0,
            },
        }
    }

    /// Notes that time has passed. What ended is forgotten: each client whose lease is over, with all its
    /// numbers but those of strong cleans.
    pub fn lapse(&mut self, now: u64)
        requires { now < END_OF_TIME }
        ensures freed { IsTrimmed self.new }
        ensures stands { ForEachLog self.old
            (λ lease moment calls. StandsFor lease self.new (max now moment) calls) }
    {
        let moment = self.clients.moment();
        let time = now.max(moment);
        let sums = self.clients.pass(&mut self.counts, self.sums, time);
        self.sums = sums;
    }

    /// Notes a dirty call (Java RMI Specification, chapter 9: `DGC.dirty`) that asks for a lease of `asked`
    /// milliseconds, and answers the duration that it grants: from 1 to the configured lease the one that is asked,
    /// and the configured lease otherwise. The client's lease ends no earlier than before, and no earlier than was
    /// granted. Time passes to `now`, as by `lapse`; a moment before the greatest one is read as the greatest. After
    /// a refusal all is as it was.
    pub fn dirty(
        &mut self,
        client: &Vmid,
        number: i64,
        asked: i64,
        objects: &ObjIds,
        now: u64,
    ) -> Result<u64, LeaseFault>
        requires { now < END_OF_TIME }
        ensures ok { OnOk result
            (ForEachLog self.old (λ lease moment calls. let time = max now moment in
            StandsFor lease self.new time
            (dirty_call time client.now number asked objects.now ∷ calls))) }
        ensures freed { OnOk result (IsTrimmed self.new) }
        ensures granted { IfOk result
            (λ granted. ForEachLog self.old (λ lease moment calls. granted ≡ grant lease asked)) }

        // Clients is tested first.
        ensures clients { ForEachLog self.old (λ lease moment calls.
            (result ≡ Err LeaseFault.Clients)
            ↔ (MAX_CLIENTS < clients_with_call lease (max now moment) calls client.now)) }
        ensures pairs { ForEachLog self.old (λ lease moment calls.
            let x = dirty_call (max now moment) client.now number asked objects.now in
            (result ≡ Err LeaseFault.Pairs)
            ↔ ((clients_with_call lease (max now moment) calls client.now ≤ MAX_CLIENTS)
            × (MAX_PAIRS < pairs_with_call lease calls x))) }
        ensures err { OnErr result (self.new ≡ self.old) }
    {
        let granted = grant(self.lease, asked);
        let time = self.time(now);
        let sums = self.sums_by(time);
        if scans::is_past_clients(&self.clients, client, time, sums.leased) {
            return Err(LeaseFault::Clients);
        }
        self.note(client, &number, objects, CallKind::Dirty, granted, time)?;
        Ok(granted)
    }

    /// Notes a clean call (Java RMI Specification, chapter 9: `DGC.clean`). Time passes to `now`, as by `lapse`; a
    /// moment before the greatest one is read as the greatest. After a refusal all is as it was.
    pub fn clean(
        &mut self,
        client: &Vmid,
        number: i64,
        objects: &ObjIds,
        strong: bool,
        now: u64,
    ) -> Result<(), LeaseFault>
        requires { now < END_OF_TIME }
        ensures ok { OnOk result
            (ForEachLog self.old (λ lease moment calls. let time = max now moment in
            StandsFor lease self.new time
            (clean_call time client.now number objects.now strong ∷ calls))) }
        ensures freed { OnOk result (IsTrimmed self.new) }
        ensures clients { result ≢ Err LeaseFault.Clients }
        ensures pairs { ForEachLog self.old (λ lease moment calls.
            let x = clean_call (max now moment) client.now number objects.now strong in
            (result ≡ Err LeaseFault.Pairs) ↔ (MAX_PAIRS < pairs_with_call lease calls x)) }
        ensures err { OnErr result (self.new ≡ self.old) }
    {
        // A clean is granted nothing; it asks for 0.
        let granted = grant(self.lease, 0);
        let time = self.time(now);
        self.note(client, &number, objects, clean_kind(strong), granted, time)
    }

    /// True where some client holds an object at this moment. A moment before the greatest one is read as the
    /// greatest.
    pub fn is_held(&self, object: ObjId, now: u64) -> bool
        ensures { ForEachLog self.now
            (λ lease moment calls. result ≡ is_held lease (max now moment) calls object) }
    {
        let time = self.time(now);
        if time < self.clients.next() {
            count_of(&self.counts, &object).holders > 0
        } else {
            scans::is_held(&self.clients, &object, time)
        }
    }

    /// Objects that clients hold at the greatest moment so far: at least those that none holds any more once time has passed to `now`, in no order.
    /// Where no lease ends by then it looks at no client and takes no memory.
    pub fn freed_objects(&self, alloc: Global, now: u64) -> Result<Vec<ObjId>, AllocError>
        ensures whole { IfOk result
            (λ os. ForEachLog self.now
            (λ lease moment calls. (o : ObjId) → is_held lease moment calls o ≡ true
            → is_held lease (max now moment) calls o ≡ false
            → list_any (same_id o) os.items ≡ true)) }
        ensures held { IfOk result
            (λ os. ForEachLog self.now
            (λ lease moment calls. (o : ObjId) → list_any (same_id o) os.items ≡ true
            → is_held lease moment calls o ≡ true)) }
    {
        lease_ends::freed_objects(alloc, &self.clients, self.time(now))
    }

    /// True where a lease may end as time passes to `now`. Where none may, each object that a client holds at the greatest moment so far is held then, too.
    /// It looks at no client and takes no memory.
    pub fn is_due(&self, now: u64) -> bool
        ensures { result ≡ false
            → ForEachLog self.now
            (λ lease moment calls. (o : ObjId) → is_held lease moment calls o ≡ true
            → is_held lease (max now moment) calls o ≡ true) }
    {
        let time = self.time(now);
        if time < self.clients.next() {
            return false;
        }
        true
    }

    /// Returns whether a client's lease ends after the greatest moment so far and no later than `now`. Where none may, it looks at no client. Else it
    /// looks at the clients of the chunks in which one may, until it finds one. It takes no memory.
    pub fn has_ended(&self, now: u64) -> bool
        ensures { ForEachLog self.now (λ lease moment calls.
            IsTrue result ↔ SomeLeaseEnds lease moment now calls) }
    {
        lease_ends::has_ended(&self.clients, self.time(now))
    }

    /// The number of clients that hold an object at this moment. A moment before the greatest one is read as the
    /// greatest. Where no lease ends by then it looks at no client.
    pub fn holders(&self, object: ObjId, now: u64) -> u32
        ensures { ForEachLog self.now (λ lease moment calls.
            result ≡ length (holders lease (max now moment) calls object)) }
    {
        let time = self.time(now);
        if time < self.clients.next() {
            count_of(&self.counts, &object).holders
        } else {
            scans::holders(&self.clients, &object, time) as u32
        }
    }

    /// Forgets that calls named this object: it is as if no call so far had. An object counts from its last
    /// `drop_object` on. The calls themselves stay, so that each lease ends when it did. It takes no memory.
    pub fn drop_object(&mut self, object: ObjId)
        ensures fewer { length self.new.entries ≤ length self.old.entries }
        ensures stands { ForEachLog self.old (λ lease moment calls.
            StandsFor lease self.new moment (map (without object) calls)) }
    {
        let count = count_of(&self.counts, &object);
        self.clients.drop_object(&object, count.clients, count.hint);
        forget(&mut self.counts, &object);
        self.sums = table::sums_without(self.sums, count.clients as u128);
    }

    /// Forgets that calls named these objects, as `drop_object` does of each: it is as if no call so far had. Of more than a few, those that clients
    /// name cost one look at each object of the clients from the place that a count of one notes on, and then from the first client on, until all
    /// pairs were met, and one at each client's end. It takes no memory.
    pub fn drop_objects(&mut self, objects: &[ObjId])
        ensures fewer { length self.new.entries ≤ length self.old.entries }
        ensures stands { ForEachLog self.old (λ lease moment calls.
            StandsFor lease self.new moment (map (without_all objects.now) calls)) }
    {
        if objects.len() <= MAX_DROPPED_ONE_BY_ONE {
            self.drop_each(objects);
        } else {
            self.drop_together(objects);
        }
    }

    /// The number of pairs of a client and an object that are remembered at this moment: those of clients with time
    /// left, and those of strong cleans. A moment before the greatest one is read as the greatest.
    pub fn pairs(&self, now: u64) -> u32
        ensures { ForEachLog self.now (λ lease moment calls.
            result ≡ length (pairs lease (max now moment) calls)) }
    {
        self.sums_by(self.time(now)).pairs as u32
    }

    /// The clients that have time left at this moment, in the order of clients, with the ends of their
    /// leases. A moment before the greatest one is read as the greatest.
    pub fn clients(&self, alloc: Global, now: u64) -> Result<LeaseList, AllocError>
        ensures { IfOk result (λ rows. ForEachLog self.now (λ lease moment calls.
            rows ≡ lease_rows lease (max now moment) calls)) }
    {
        scans::rows(alloc, &self.clients, self.time(now))
    }

    /// Forgets that calls named these objects, one after another.
    fn drop_each(&mut self, objects: &[ObjId])
        ensures fewer { length self.new.entries ≤ length self.old.entries }
        ensures stands { ForEachLog self.old (λ lease moment calls.
            StandsFor lease self.new moment (map (without_all objects.now) calls)) }
    {
        for object in objects {
            self.drop_object(*object);
        }
    }

    /// Forgets that calls named these objects, all at once.
    fn drop_together(&mut self, objects: &[ObjId])
        ensures fewer { length self.new.entries ≤ length self.old.entries }
        ensures stands { ForEachLog self.old (λ lease moment calls.
            StandsFor lease self.new moment (map (without_all objects.now) calls)) }
    {
        let gone = forget_all(&mut self.counts, objects);
        self.clients
            .drop_objects(&self.counts, gone.pairs, gone.hint);
        self.sums = table::sums_without(self.sums, gone.pairs);
    }

    /// The greater of a moment and the greatest one so far.
    fn time(&self, now: u64) -> u64
        ensures value { result ≡ max now self.now.moment }
        ensures early { now < END_OF_TIME → result < END_OF_TIME }
        ensures sound { IsSound self.now.lease self.now.moment self.now.entries }
    {
        now.max(self.clients.moment())
    }

    /// Returns the number of clients that have time left at a moment, and the number of remembered pairs. The moment
    /// is no earlier than the greatest one so far. Where nothing is due, it looks at no client.
    fn sums_by(&self, time: u64) -> Sums
        requires { self.now.moment ≤ time }
        ensures value { result ≡ sums_at time self.now.entries }
        ensures few { (result.leased ≤ MAX_CLIENTS) × (result.pairs ≤ MAX_PAIRS) }
    {
        scans::sums_by(&self.clients, self.sums, time)
    }

    /// Notes a call at a moment, by which its client is granted a lease of this duration if it is a dirty, if the
    /// pairs that it brings can be remembered.
    fn note(
        &mut self,
        client: &Vmid,
        number: &i64,
        objects: &ObjIds,
        kind: CallKind,
        granted: u64,
        time: u64,
    ) -> Result<(), LeaseFault>
        requires some { 1 ≤ granted }
        requires short { granted ≤ MAX_DURATION_MS }
        requires early { time < END_OF_TIME }
        requires late { self.old.moment ≤ time }
        requires room { IsTrue (is_dirty_kind kind)
            → clients_after self.old.entries client.now time ≤ MAX_CLIENTS }
        ensures ok { OnOk result (
            self.new ≡ table_after granted kind client.now number.now objects.now time self.old) }
        ensures clients { result ≢ Err LeaseFault.Clients }
        ensures pairs { (result ≡ Err LeaseFault.Pairs)
            ↔ (MAX_PAIRS < pairs_after time self.old.entries client.now kind objects.now) }
        ensures err { OnErr result (self.new ≡ self.old) }
    {
        let named = objects.as_slice();
        let pairs = self.sums_by(time).pairs;
        if scans::is_past_pairs(self.alloc, &self.clients, client, kind, named, time, pairs) {
            return Err(LeaseFault::Pairs);
        }
        touch_all(&mut self.counts, named)?;
        let call = LeaseCall {
            kind,
            number,
            objects: named,
            time,
        };
        let noted = self
            .clients
            .note(self.alloc, &mut self.counts, client, &call, granted)?;
        let with = table::sums_with(self.sums, noted.before, noted.after);
        let sums = self.clients.pass(&mut self.counts, with, time);
        self.sums = sums;
        Ok(())
    }
}

/// The kind of a clean call.
fn clean_kind(strong: bool) -> CallKind
    ensures { result ≡ clean_kind strong }
{
    if strong {
        CallKind::Strong
    } else {
        CallKind::Weak
    }
}
