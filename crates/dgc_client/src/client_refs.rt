//! The references of a client.
ghost use Rattle.std.specs.Prelude.{◌≡◌, ◌↔◌, ◌<◌, ◌≤◌, ◌++◌, ◌∷◌, [], None, ℤ, List, not, length, filter, find, map, IsTrue, IfOk, OnOk, OnErr, true, is_some};
ghost use Rattle.std.specs.List.{list_any};
ghost use Rattle.object_ids.specs.declared.ids.ObjId.{ObjId};
ghost use Rattle.dgc_client.specs.declared.limits.TheConstants.{MAX_REFS};
ghost use Rattle.dgc_client.specs.Log.{asks_for, Dirty};
ghost use Rattle.dgc_client.specs.RefMap.{has_id, new_ref, changed_among};
ghost use Rattle.dgc_client.specs.SentMap.{is_asked};
ghost use Rattle.dgc_client.specs.StandsForLog.{lapsed_if, wants, ids_of};

use crate::asked::{self, Asked};
use crate::client_ref::{ClientRef, RefList};
use crate::ref_map::{self, Change, RefMap};
use object_ids::{ObjId, ObjIds};
use std::alloc::{AllocError, Global};
use std::marker::Model;

/// The references that a client holds at one server, in the order of their registration. Contracts see the list of them.
#[derive(Debug)]
pub struct ClientRefs {
    kept: RefMap,
    /// The number of entries that are no gaps.
    count: usize,
    /// The number of first entries that are known to want no call while the client's time lasts.
    settled: usize,
}

// Written out, so that whoever owns one has one call at each exit, and not the drop of each field.
impl Drop for ClientRefs {
    fn drop(self) {
        let ClientRefs {
            kept,
            count: _,
            settled: _,
        } = self;
        drop(kept);
    }
}

impl Model for ClientRefs {
    ghost use Rattle.std.specs.Prelude.{◌≡◌, ◌≤◌, List, length};
    ghost use Rattle.dgc_client.specs.declared.limits.TheConstants.{MAX_REFS};
    ghost use Rattle.dgc_client.specs.declared.client_ref.ClientRef.{ClientRef};
    ghost use Rattle.dgc_client.specs.RefMap.{refs_in, AreSettled};

    ghost Value = { List ClientRef };

    ghost view = { λ a. refs_in a.kept.entries };

    ghost invariant = { λ a.
        (a.count ≡ length (refs_in a.kept.entries)) × (a.count ≤ MAX_REFS)
        × AreSettled a.settled a.kept.entries };
}

impl ClientRefs {
    /// No references.
    pub(crate) fn new(alloc: Global) -> ClientRefs
        ensures { result ≡ [] }
    {
        ClientRefs {
            kept: RefMap::new(alloc),
            count: 0,
            settled: 0,
        }
    }

    /// Returns the number of references, at most 16,384.
    pub fn len(&self) -> usize
        ensures value { result ≡ length self.now }
        ensures few { result ≤ MAX_REFS }
    {
        self.count
    }

    /// Returns whether there are none.
    pub fn is_empty(&self) -> bool
        ensures { IsTrue result ↔ (self.now ≡ []) }
    {
        self.count == 0
    }

    /// The reference of an object, if there is one. It takes no memory.
    pub fn find(&self, object: &ObjId) -> Option<ClientRef>
        ensures { result ≡ find (has_id object.now) self.now }
    {
        ref_map::find(&self.kept, object)
    }

    /// The references, in the order of their registration.
    pub fn list(&self, alloc: Global) -> Result<RefList, AllocError>
        ensures { IfOk result (λ list. list ≡ self.now) }
    {
        ref_map::list(alloc, &self.kept)
    }

    /// Appends a new reference of an object that has none. After a refusal the references are as they were.
    pub(crate) fn append(&mut self, object: &ObjId, since: &i64) -> Result<(), AllocError>
        requires absent { find (has_id object.now) self.old ≡ None }
        requires room { length self.old < MAX_REFS }
        ensures ok { OnOk result (self.new ≡ self.old ++ new_ref object.now since.now ∷ []) }
        ensures err { OnErr result (self.new ≡ self.old) }
    {
        self.settled = self.settled.saturating_sub(1);
        ref_map::append(&mut self.kept, object, since)?;
        self.count += 1;
        Ok(())
    }

    /// Takes the reference of an object out, which is there. The others keep their order, and are not moved until half of what is kept are gaps. It
    /// takes no memory.
    pub(crate) fn remove(&mut self, object: &ObjId)
        requires { is_some (find (has_id object.now) self.old) ≡ true }
        ensures { self.new ≡ filter (λ r. not (has_id object.now r)) self.old }
    {
        ref_map::remove(&mut self.kept, object);
        self.count -= 1;
        if self.kept.len() / 2 > self.count {
            ref_map::sweep(&mut self.kept);
            self.settled = ref_map::settle(&self.kept, 0);
        }
    }

    /// Makes a change to the references of these objects, and looks at no others. It takes no memory.
    pub(crate) fn change_each(&mut self, objects: &[ObjId], change: &Change)
        ensures { self.new ≡ map (changed_among objects.now change.now) self.old }
    {
        ref_map::change_each(&mut self.kept, objects, change);
        self.settled = ref_map::settle(&self.kept, self.settled);
    }

    /// Makes no reference sure, if the client's time is over. It takes no memory.
    pub(crate) fn lapse_if(&mut self, over: bool)
        ensures { self.new ≡ lapsed_if over self.old }
    {
        if over {
            ref_map::lapse(&mut self.kept);
            self.settled = 0;
        }
    }

    /// The objects that a dirty call has to name, where the client's time is over or not, and these are asked for already.
    pub(crate) fn objects_to_name(
        &self,
        alloc: Global,
        over: bool,
        asked: &Asked,
    ) -> Result<ObjIds, AllocError>
        ensures { IfOk result (λ ids. (ys : List Dirty) →
            ((o : ObjId) (since : ℤ) → is_asked asked.now o since
            ≡ list_any (asks_for o since) ys) →
            ids ≡ ids_of (filter (wants over ys) self.now)) }
    {
        asked::objects_to_name(alloc, over, &self.kept, self.settled, asked)
    }
}
