//! The withdrawals of a space.
ghost use Rattle.std.specs.Prelude.{◌≡◌, ◌<◌, ◌≤◌, ◌+◌, ◌^◌, ◌++◌, [], List, true, false, drop, length, map, replicate, slice_get, IfOk, OnOk, vec_len, vec_capacity};
ghost use Rattle.object_ids.specs.declared.ids.ObjId.{ObjId};
ghost use Rattle.history.specs.Replies.{is_abandon};
ghost use Rattle.space.specs.Acts.{withdrawal_at};
ghost use Rattle.space.specs.Doubts.{HasLog};
ghost use Rattle.space.specs.Withdrawing.{HasWithdrawn, IsEnough};

use crate::doubts::{Doubt, copy_of_objects, withdraw};
use crate::told::{MOST_TOLD, ToldWithdrawals};
use dgc_server::Leases;
use export_table::Exports;
use history::asks::is_abandon;
use history::{Ask, Withdrawal};
use object_ids::ObjId;
use std::alloc::{AllocError, Global};
use std::marker::Model;

/// The withdrawals, in their order: their objects and their places apart, so that objects that go are put at once where they stay. Of those that
/// were told as gone a space may keep nothing. Contracts see them as a `WithdrawalTable`.
pub struct Withdrawals {
    /// The first of them, which are kept no longer.
    told: ToldWithdrawals,
    objects: Vec<ObjId>,
    places: Vec<u64>,
}

impl Drop for Withdrawals {
    fn drop(self) {
        let Withdrawals {
            told,
            objects,
            places,
        } = self;
        drop(told);
        drop(objects);
        drop(places);
    }
}

impl Model for Withdrawals {
    ghost use Rattle.std.specs.Prelude.{◌≡◌, ◌+◌, ◌++◌, length, min, vec_capacity};
    ghost use Rattle.space.specs.Withdrawals.{WithdrawalTable, paired_withdrawals};

    ghost Value = { WithdrawalTable };

    ghost view = { λ w. record {
      items = w.told ++ paired_withdrawals w.objects.items w.places.items;
      room = length w.told + min (vec_capacity w.objects) (vec_capacity w.places);
      told = length w.told;
    } };

    ghost invariant = { λ w. length w.objects.items ≡ length w.places.items };
}

impl Withdrawals {
    /// There is none.
    pub fn new(alloc: Global) -> Withdrawals
        ensures items { result.items ≡ [] }
        ensures told { result.told ≡ 0 }
    {
        Withdrawals {
            told: ToldWithdrawals::new(),
            objects: Vec::new(alloc),
            places: Vec::new(alloc),
        }
    }

    /// Returns the number of withdrawals.
    pub fn len(&self) -> usize
        ensures { result ≡ length self.now.items }
    {
        self.told.len() + self.objects.len()
    }

    /// Returns the number of those that are kept: those that are still to be told as gone, and, where all are kept, those that were told.
    pub(crate) fn kept_len(&self) -> usize
        ensures { self.now.told + result ≡ length self.now.items }
    {
        self.objects.len()
    }

    /// The one at this place of the list, of which all are kept.
    pub fn get(&self, k: usize) -> Withdrawal
        requires kept { self.now.told ≡ 0 }
        requires within { k < length self.now.items }
        ensures { slice_get self.now.items k ≡ Some result }
    {
        Withdrawal {
            object: self.objects[k],
            place: self.places[k],
        }
    }

    /// Makes room for so many more.
    pub fn reserve(&mut self, more: usize) -> Result<(), AllocError>
        ensures room { OnOk result (length self.new.items + more ≤ self.new.room) }
        ensures items { self.new.items ≡ self.old.items }
        ensures grow { self.old.room ≤ self.new.room }
        ensures told { self.new.told ≡ self.old.told }
    {
        self.objects.reserve(more)?;
        self.places.reserve(more)
    }

    /// The objects of those that are still to be told as gone, with room for so many more.
    pub fn still_to_tell(
        &self,
        alloc: Global,
        reported: usize,
        more: usize,
    ) -> Result<Vec<ObjId>, AllocError>
        requires told { self.now.told ≤ reported }
        requires within { reported ≤ length self.now.items }
        ensures items { IfOk result
            (λ gone. gone.items ≡ map (λ w. w.object) (drop reported self.now.items)) }
        ensures room { IfOk result (λ gone. vec_len gone + more ≤ vec_capacity gone) }
    {
        let mut gone = rest_of(alloc, &self.objects, reported - self.told.len())?;
        gone.reserve(more)?;
        Ok(gone)
    }

    /// Notes that objects, those of a list from a place of it on, were withdrawn at a place of the history. There is room for them.
    pub fn note(&mut self, gone: &[ObjId], from: usize, place: u64)
        requires within { from ≤ length gone.now }
        requires room { length self.old.items + length (drop from gone.now) ≤ self.old.room }
        ensures items { self.new.items
            ≡ self.old.items ++ map (withdrawal_at place) (drop from gone.now) }
        ensures room { self.old.room ≤ self.new.room }
        ensures told { self.new.told ≡ self.old.told }
    {
        if gone.len() == from {
            return;
        }
        append(&mut self.objects, &gone[from..]);
        fill(&mut self.places, gone.len() - from, place);
    }

    /// Withdraws each exported object that isn't kept at a moment, and notes that it was withdrawn at a place of the history. It looks at the
    /// objects in doubt alone, and takes no memory.
    pub(crate) fn withdraw(
        &mut self,
        exports: &mut Exports,
        leases: &mut Leases,
        now: u64,
        doubt: Doubt<'_>,
        place: u64,
    )
        requires log { HasLog leases.old }
        requires room { length self.old.items + length exports.old.rows ≤ self.old.room }
        requires few { length doubt.objects.now ≤ length exports.old.rows }
        requires enough { IsEnough leases.old exports.old now doubt }
        ensures goes { (gone : List ObjId)
            × (self.new.items ≡ self.old.items ++ map (withdrawal_at place) gone)
            × HasWithdrawn leases.old leases.new exports.old exports.new now [] gone }
        ensures room { self.old.room ≤ self.new.room }
        ensures told { self.new.told ≡ self.old.told }
    {
        let before = self.objects.len();
        withdraw(exports, leases, now, doubt, &mut self.objects);
        fill(&mut self.places, self.objects.len() - before, place);
    }

    /// Keeps them no longer, where all were told as gone: they exist in proofs alone from then on. It takes no memory. No history has so many that
    /// they are not counted.
    pub(crate) fn forget(&mut self)
        ensures items { self.new.items ≡ self.old.items }
        ensures room { self.old.room ≤ self.new.room }
        ensures told { length self.new.items ≤ 2 ^ 62 → self.new.told ≡ length self.new.items }
    {
        if self.objects.len() > MOST_TOLD - self.told.len() {
            return;
        }
        self.told.push_all(&self.objects, &self.places);
        self.objects.clear();
        self.places.clear();
    }
}

/// Keeps the withdrawals no longer that an ask told as gone, which is all of them but at an Abandon, where the history exists in proofs alone.
pub(crate) fn forget_told(withdrawn: &mut Withdrawals, stored: bool, ask: &Ask)
    ensures items { withdrawn.new.items ≡ withdrawn.old.items }
    ensures room { withdrawn.old.room ≤ withdrawn.new.room }
    ensures stored { stored ≡ true → withdrawn.new.told ≡ withdrawn.old.told }
    ensures abandoned { is_abandon ask.now ≡ true → withdrawn.new.told ≡ withdrawn.old.told }
    ensures told { stored ≡ false → is_abandon ask.now ≡ false → length withdrawn.new.items ≤ 2 ^ 62
        → withdrawn.new.told ≡ length withdrawn.new.items }
{
    if !stored && !is_abandon(ask) {
        withdrawn.forget();
    }
}

/// The objects of a list from a place of it on.
fn rest_of(alloc: Global, objects: &[ObjId], from: usize) -> Result<Vec<ObjId>, AllocError>
    requires { from ≤ length objects.now }
    ensures { IfOk result (λ rest. rest.items ≡ drop from objects.now) }
{
    copy_of_objects(alloc, &objects[from..])
}

/// Appends objects to a list that has room for them.
fn append(objects: &mut Vec<ObjId>, more: &[ObjId])
    requires { vec_len objects.old + length more.now ≤ vec_capacity objects.old }
    ensures items { objects.new.items ≡ objects.old.items ++ more.now }
    ensures capacity { vec_capacity objects.old ≤ vec_capacity objects.new }
{
    match objects.extend_from_slice(more) {
        Ok(()) => {}
        Err(_refused) => {}
    }
}

/// Appends a place so many times to a list that has room for it.
fn fill(places: &mut Vec<u64>, count: usize, place: u64)
    requires { vec_len places.old + count ≤ vec_capacity places.old }
    ensures items { places.new.items ≡ places.old.items ++ replicate count place }
    ensures capacity { vec_capacity places.old ≤ vec_capacity places.new }
{
    for _k in 0..count {
        places.push_reserved(place);
    }
}
