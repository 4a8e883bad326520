//! The table of a client.
ghost use Rattle.std.specs.Prelude.{◌≡◌, ◌⊎◌, ◌<◌, ◌≤◌, ◌+◌, ◌+ℤ◌, ◌++◌, ◌↔◌, ◌∷◌, [], ℤ, pos, length, nat_le, option_map, IfSome, Ok, Err, None, Some, true, false, not, is_some, nat_lt, int_le, filter, find, map, IsTrue, IfOk, IfErr, OnOk, OnErr, if◌then◌else◌};
ghost use Rattle.dgc_client.specs.declared.limits.TheConstants.{MAX_GRANTED_MS, MAX_REFS, END_OF_TIME, LAST_NUMBER};
ghost use Rattle.dgc_client.specs.declared.plan.Plan.TheVariants as plans;
ghost use Rattle.dgc_client.specs.declared.ref_map.Change.TheVariants as ChangeCases;
ghost use Rattle.dgc_client.specs.Log.{Registers, Drops, Dues, Answers, Fails, due_names, has_number};
ghost use Rattle.std.specs.Ordering.{int_eq};
ghost use Rattle.dgc_client.specs.RefMap.{changed_among, has_id, new_ref, sure_of};
ghost use Rattle.dgc_client.specs.SentMap.{dirty_at, AreOnce};
ghost use Rattle.dgc_client.specs.StandsForLog.{StandsFor, ForEachLog, Notes, is_there, is_full_after, plan_after, is_spent_after, is_good_after, until_told, is_usable_after, refs_told, is_over, lapsed_if, wants, ids_of, renews, due_of, with_answer, IsSent};

use crate::asked;
use crate::client_ref::ClientRef;
use crate::client_refs::ClientRefs;
use crate::idle::{self, Idle};
use crate::limits::{LAST_NUMBER, MAX_REFS};
use crate::plan::{ClientFault, Plan};
use crate::ref_map::Change;
use crate::sent_map::{self, Sent, SentMap};
use object_ids::{ObjId, ObjIds, Vmid};
use std::alloc::{AllocError, Global};
use std::marker::Model;

/// A client's table of the references that it holds at one server: it says which lease calls are to be sent, and which references are usable.
/// Moments are those of the client's clock, in milliseconds. Contracts see it as `Parts`; what its calls answer is said by the log of
/// its calls.
#[derive(Debug)]
pub struct ClientTable {
    alloc: Global,
    vmid: Vmid,
    next: i64,
    until: u64,
    renew_at: u64,
    refs: ClientRefs,
    sent: SentMap,
    /// Knowledge of the references since the last `due` for which no call was due.
    idle: Idle,
}

// Written out, so that whoever owns one has one call at each exit, and not the drop of each field.
impl Drop for ClientTable {
    fn drop(self) {
        let ClientTable {
            alloc: _,
            vmid,
            next: _,
            until: _,
            renew_at: _,
            refs,
            sent,
            idle: _,
        } = self;
        drop(vmid);
        drop(refs);
        drop(sent);
    }
}

impl Model for ClientTable {
    ghost use Rattle.dgc_client.specs.Idle.{IsIdle};
    ghost use Rattle.dgc_client.specs.SentMap.{dirties_in, AreEarly};
    ghost use Rattle.dgc_client.specs.StandsForLog.{Parts};

    ghost Value = { Parts };

    ghost view = { λ a. record {
      vmid = a.vmid;
      next = a.next;
      until = a.until;
      renew_at = a.renew_at;
      refs = a.refs;
      sent = dirties_in a.sent.entries;
    } };

    ghost invariant = { λ a. AreEarly (dirties_in a.sent.entries)
        × IsIdle a.idle (dirties_in a.sent.entries) a.refs };
}

impl ClientTable {
    /// The table of a client that has made no calls. The first lease call is sent with this number.
    pub fn new(alloc: Global, vmid: Vmid, first: i64) -> ClientTable
        ensures { StandsFor vmid first result [] }
    {
        ClientTable {
            alloc,
            vmid,
            next: first,
            until: 0,
            renew_at: 0,
            refs: ClientRefs::new(alloc),
            sent: SentMap::new(alloc),
            idle: Idle::Unknown,
        }
    }

    /// Registers a reference to an object, behind the others. It is neither sure nor strong. The answer is false, and nothing changes, where the object's
    /// reference is there. FullRefs comes exactly where it is not there and 16,384 others are.
    pub fn register(&mut self, object: ObjId) -> Result<bool, ClientFault>
        ensures ok { OnOk result (Notes self.old self.new (Registers object)) }
        ensures answer { IfOk result (λ new. ForEachLog self.old
            (λ client first log. new ≡ not (is_there first log object))) }
        ensures same { result ≡ Ok false → self.new ≡ self.old }
        ensures full { ForEachLog self.old (λ client first log.
            (result ≡ Err ClientFault.FullRefs)
            ↔ ((is_there first log object ≡ false) × IsTrue (is_full_after first log))) }
        ensures faults { IfErr result (λ fault.
            (fault ≡ ClientFault.FullRefs) ⊎ (fault ≡ ClientFault.OutOfMemory)) }
        ensures err { OnErr result (self.new ≡ self.old) }
    {
        if self.is_there(&object) {
            return Ok(false);
        }
        if self.is_full() {
            return Err(ClientFault::FullRefs);
        }
        self.add(&object)?;
        Ok(true)
    }

    /// Drops the reference to an object, and plans the clean call that tells the server, with the next number. The call is strong where the reference is.
    /// None comes exactly where the object's reference is not there; NumbersSpent exactly where it is there and no number is left.
    pub fn drop_ref(&mut self, object: ObjId, now: u64) -> Result<Option<Plan>, ClientFault>
        requires { now < END_OF_TIME }
        ensures ok { OnOk result (Notes self.old self.new (Drops object now)) }
        ensures plan { IfOk result (λ plan. ForEachLog self.old
            (λ client first log. plan ≡ plan_after first log (Drops object now))) }
        ensures absent { ForEachLog self.old (λ client first log.
            (result ≡ Ok None) ↔ (is_there first log object ≡ false)) }
        ensures spent { ForEachLog self.old (λ client first log.
            (result ≡ Err ClientFault.NumbersSpent)
            ↔ IsTrue (is_spent_after first log (Drops object now))) }
        ensures faults { IfErr result (λ fault.
            (fault ≡ ClientFault.NumbersSpent) ⊎ (fault ≡ ClientFault.OutOfMemory)) }
        ensures err { OnErr result (self.new ≡ self.old) }
    {
        let _now = now;
        match self.find(&object) {
            Some(reference) => self.release(&object, reference.strong),
            None => Ok(None),
        }
    }

    /// Plans the dirty call that is due: one that names the references that are wanting, or, where there are none and the lease is to be renewed, one that
    /// names none. None comes exactly where no call is due; NumbersSpent where one is due and no number is left, and then only OutOfMemory may come in its
    /// place. Where the client's time is over, no reference is sure any more.
    pub fn due(&mut self, now: u64) -> Result<Option<Plan>, ClientFault>
        requires { now < END_OF_TIME }
        ensures ok { OnOk result (Notes self.old self.new (Dues now)) }
        ensures plan { IfOk result (λ plan. ForEachLog self.old
            (λ client first log. plan ≡ plan_after first log (Dues now))) }
        ensures spent { result ≡ Err ClientFault.NumbersSpent → ForEachLog self.old
            (λ client first log. IsTrue (is_spent_after first log (Dues now))) }
        ensures left { OnOk result (ForEachLog self.old
            (λ client first log. is_spent_after first log (Dues now) ≡ false)) }
        ensures faults { IfErr result (λ fault.
            (fault ≡ ClientFault.NumbersSpent) ⊎ (fault ≡ ClientFault.OutOfMemory)) }
        ensures err { OnErr result (self.new ≡ self.old) }
    {
        match self.objects_due(now)? {
            Some(objects) => self.send(objects, now),
            None => {
                self.rest(now);
                Ok(None)
            }
        }
    }

    /// Notes the answer to the sent call of this number: the duration that the server granted, and when the answer came. The answer counts, and the result is
    /// true, exactly where it is of a dirty call that was neither answered nor failed, and came before the granted duration has passed since
    /// that call was planned. It then confirms the references that the call names, and moves the end of the client's time.
    pub fn answered(&mut self, number: i64, granted: u64, now: u64) -> bool
        requires { granted ≤ MAX_GRANTED_MS }
        ensures stands { Notes self.old self.new (Answers number granted now) }
        ensures answer { ForEachLog self.old (λ client first log.
            result ≡ is_good_after first log (Answers number granted now)) }
    {
        match self.take(&number) {
            Some(call) => self.confirm(&call, &number, granted, now),
            None => false,
        }
    }

    /// Notes that the sent call of this number failed. The references that a dirty call names become strong, since it may still reach the server.
    pub fn failed(&mut self, number: i64)
        ensures { Notes self.old self.new (Fails number) }
    {
        match self.take(&number) {
            Some(call) => self.strengthen(&call),
            None => {}
        }
    }

    /// Returns whether the reference to an object is usable at a moment. It is where it is there and sure, and the client's time is not over.
    pub fn usable(&self, object: ObjId, now: u64) -> bool
        ensures { ForEachLog self.now (λ client first log.
            result ≡ is_usable_after first log object now) }
    {
        self.is_sure(&object) && now < self.until
    }

    /// The end of the client's time, 0 before the first good answer.
    pub fn until(&self) -> u64
        ensures { ForEachLog self.now (λ client first log. result ≡ until_told first log) }
    {
        self.until
    }

    /// The references, in the order of their registration. Each is sure or strong where the whole log says so.
    pub fn refs(&self) -> &ClientRefs
        ensures { ForEachLog self.now (λ client first log. result.now ≡ refs_told first log) }
    {
        &self.refs
    }

    /// The client's identifier.
    pub fn vmid(&self) -> &Vmid
        ensures { ForEachLog self.now (λ client first log. result.now ≡ client) }
    {
        &self.vmid
    }

    /// The reference of an object, if it is there.
    fn find(&self, object: &ObjId) -> Option<ClientRef>
        ensures { result ≡ find (has_id object.now) self.now.refs }
    {
        self.refs.find(object)
    }

    /// Returns whether the reference of an object is there.
    fn is_there(&self, object: &ObjId) -> bool
        ensures { result ≡ is_some (find (has_id object.now) self.now.refs) }
    {
        self.find(object).is_some()
    }

    /// Returns whether the reference of an object is there and sure.
    fn is_sure(&self, object: &ObjId) -> bool
        ensures { result ≡ sure_of (find (has_id object.now) self.now.refs) }
    {
        match self.find(object) {
            Some(reference) => reference.sure,
            None => false,
        }
    }

    /// Returns whether as many references are there as can be.
    fn is_full(&self) -> bool
        ensures { result ≡ nat_le MAX_REFS (length self.now.refs) }
    {
        MAX_REFS <= self.refs.len()
    }

    /// Returns whether the client's time is over.
    fn is_over(&self, now: u64) -> bool
        ensures { result ≡ is_over self.now now }
    {
        !(now < self.until)
    }

    /// Appends a new reference of an object that has none, where there is room.
    fn add(&mut self, object: &ObjId) -> Result<(), AllocError>
        requires absent { find (has_id object.now) self.old.refs ≡ None }
        requires room { length self.old.refs < MAX_REFS }
        ensures ok { OnOk result (self.new ≡ record self.old {
          refs = self.old.refs ++ new_ref object.now self.old.next ∷ [];
        }) }
        ensures err { OnErr result (self.new ≡ self.old) }
    {
        self.idle = Idle::Unknown;
        self.refs.append(object, &self.next)
    }

    /// Drops a reference that is there.
    fn release(&mut self, object: &ObjId, strong: bool) -> Result<Option<Plan>, ClientFault>
        requires { is_some (find (has_id object.now) self.old.refs) ≡ true }
        ensures ok { OnOk result (self.new ≡ record self.old {
          next = self.old.next +ℤ pos 1;
          refs = filter (λ r. not (has_id object.now r)) self.old.refs;
        }) }
        ensures plan { IfOk result (λ plan.
            plan ≡ Some (plans.Clean self.old.next (object.now ∷ []) strong)) }
        ensures spent { (result ≡ Err ClientFault.NumbersSpent)
            ↔ IsTrue (int_le LAST_NUMBER self.old.next) }
        ensures faults { IfErr result (λ fault.
            (fault ≡ ClientFault.NumbersSpent) ⊎ (fault ≡ ClientFault.OutOfMemory)) }
        ensures err { OnErr result (self.new ≡ self.old) }
    {
        if self.next >= LAST_NUMBER {
            return Err(ClientFault::NumbersSpent);
        }
        let ids = ids_of_one(self.alloc, object)?;
        let number = self.next;
        self.idle = Idle::Unknown;
        self.refs.remove(object);
        self.next = number + 1;
        Ok(Some(Plan::Clean {
            number,
            ids,
            strong,
        }))
    }

    /// The objects that a dirty call has to name, if one is due.
    fn objects_due(&self, now: u64) -> Result<Option<ObjIds>, AllocError>
        ensures value { IfOk result (λ objects. objects ≡ due_of self.now now) }
        ensures once { AreOnce self.now.sent }
    {
        let over = self.is_over(now);
        let renews = self.renews(now);
        let ids = self.objects_to_name(over)?;
        Ok(due_names(ids, renews))
    }

    /// The objects that a dirty call has to name, where the client's time is over or not.
    fn objects_to_name(&self, over: bool) -> Result<ObjIds, AllocError>
        ensures { IfOk result (λ ids.
            ids ≡ ids_of (filter (wants over self.now.sent) self.now.refs)) }
    {
        if self.is_idle(over) {
            return Ok(ObjIds::new(self.alloc));
        }
        let asked = asked::asked_of(self.alloc, &self.sent)?;
        self.refs.objects_to_name(self.alloc, over, &asked)
    }

    /// Returns whether no reference is known to want a call, where the client's time is over or not.
    fn is_idle(&self, over: bool) -> bool
        ensures { result ≡ true → (filter (wants over self.now.sent) self.now.refs ≡ [])
            × (lapsed_if over self.now.refs ≡ self.now.refs) }
    {
        idle::is_known(self.idle, over)
    }

    /// Returns whether the lease is to be renewed.
    fn renews(&self, now: u64) -> bool
        ensures value { result ≡ renews self.now now }
        ensures once { AreOnce self.now.sent }
    {
        let under_way = self.sent.len();
        !self.refs.is_empty() && self.renew_at <= now && under_way == 0
    }

    /// Sends a dirty call that names these objects.
    fn send(&mut self, objects: ObjIds, now: u64) -> Result<Option<Plan>, ClientFault>
        requires { now < END_OF_TIME }
        ensures ok { OnOk result (IsSent self.old self.new objects now) }
        ensures plan { IfOk result (λ plan. plan ≡ Some (plans.Dirty self.old.next objects)) }
        ensures spent { (result ≡ Err ClientFault.NumbersSpent)
            ↔ IsTrue (int_le LAST_NUMBER self.old.next) }
        ensures faults { IfErr result (λ fault.
            (fault ≡ ClientFault.NumbersSpent) ⊎ (fault ≡ ClientFault.OutOfMemory)) }
        ensures err { OnErr result (self.new ≡ self.old) }
    {
        if self.next >= LAST_NUMBER {
            return Err(ClientFault::NumbersSpent);
        }
        let ids = objects.copy(self.alloc)?;
        let number = self.next;
        let call = Sent {
            objects,
            moment: now,
        };
        self.idle = Idle::Unknown;
        sent_map::put(&mut self.sent, &number, call)?;
        self.lapse(now);
        self.next = number + 1;
        Ok(Some(Plan::Dirty { number, ids }))
    }

    /// Notes that no call is due. Where the client's time is over, no reference is sure any more.
    fn rest(&mut self, now: u64)
        requires { due_of self.old now ≡ None }
        ensures { self.new
            ≡ record self.old { refs = lapsed_if (is_over self.old now) self.old.refs } }
    {
        let over = self.is_over(now);
        if self.is_idle(over) {
            return;
        }
        self.refs.lapse_if(over);
        self.idle = idle::known(over);
    }

    /// Makes no reference sure, where the client's time is over.
    fn lapse(&mut self, now: u64)
        ensures { self.new
            ≡ record self.old { refs = lapsed_if (is_over self.old now) self.old.refs } }
    {
        let over = self.is_over(now);
        self.idle = Idle::Unknown;
        self.refs.lapse_if(over);
    }

    /// Closes the dirty call of a number, if one is under way that has it.
    fn take(&mut self, number: &i64) -> Option<Sent>
        ensures was { option_map (dirty_at number.now) result
            ≡ find (has_number number.now) self.old.sent }
        ensures closed { (n : ℤ) → find (has_number n) self.new.sent
            ≡ (if int_eq number.now n then None else find (has_number n) self.old.sent) }
        ensures same { self.new ≡ record self.old { sent = self.new.sent } }
        ensures early { IfSome result (λ call. call.moment < END_OF_TIME) }
    {
        self.idle = Idle::Unknown;
        sent_map::take(&mut self.sent, number)
    }

    /// Notes the answer to a dirty call that was under way. The result is whether it counts.
    fn confirm(&mut self, call: &Sent, number: &i64, granted: u64, now: u64) -> bool
        requires granted { granted ≤ MAX_GRANTED_MS }
        requires early { call.now.moment < END_OF_TIME }
        ensures answer { result ≡ nat_lt now (call.now.moment + granted) }
        ensures table { let y = dirty_at number.now call.now in
            self.new ≡ (if result then with_answer self.old y granted now else self.old) }
    {
        let end = call.moment + granted;
        if now >= end {
            return false;
        }
        let over = self.is_over(now);
        self.idle = Idle::Unknown;
        self.refs.lapse_if(over);
        let change = Change::Confirm { number: *number };
        self.refs.change_each(call.objects.as_slice(), &change);
        self.until = if over { end } else { self.until.max(end) };
        self.renew_at = call.moment + granted / 2;
        true
    }

    /// Makes the references that a dirty call names strong.
    fn strengthen(&mut self, call: &Sent)
        ensures { self.new ≡ record self.old {
          refs = map (changed_among call.now.objects ChangeCases.Strengthen) self.old.refs;
        } }
    {
        self.idle = Idle::Unknown;
        let change = Change::Strengthen;
        self.refs.change_each(call.objects.as_slice(), &change);
    }
}

/// The list of one object.
fn ids_of_one(alloc: Global, object: &ObjId) -> Result<ObjIds, AllocError>
    ensures { IfOk result (λ ids. ids ≡ object.now ∷ []) }
{
    let mut ids = ObjIds::new(alloc);
    ids.push(*object)?;
    Ok(ids)
}

/// The objects that a dirty call names, if one is due: these, or none where there are none and the lease is to be renewed.
fn due_names(ids: ObjIds, renews: bool) -> Option<ObjIds>
    ensures { result ≡ due_names renews ids }
{
    if ids.is_empty() && !renews {
        return None;
    }
    Some(ids)
}
