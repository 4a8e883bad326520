//! The entries of a port in few bytes.
ghost use Rattle.std.specs.Prelude.{◌≡◌, ◌⊎◌, ◌≤◌, ◌<◌, ◌+◌, ◌^◌, ◌++◌, ◌∷◌, [], ◌↔◌, true, filter, length, map, slice_get, option_map, Some, IsTrue, IfOk, OnOk};
ghost use Rattle.std.specs.List.{AllByRecursion};
ghost use Rattle.ports.specs.AskedRows.{IsKnownRow, IsPlainEnd, entry_of_row};
ghost use Rattle.ports.specs.AskedViews.{entry_of_view};
ghost use Rattle.ports.specs.Balance.{calls_in, is_start};

use crate::asked_rows::{AskedRow, is_plain, is_start, plain_row, view_of, whole_row};
use crate::asked_view::AskedView;
use sequence::TryCopy;
use space::{Asked, AskedList};
use std::alloc::{AllocError, Global};
use std::fmt;
use std::marker::Model;

/// The entries of a port, oldest first. One that is plain (a Begin that started a call, a Finish that makes and lists nothing and ended
/// one, an Ack, each with nothing told as gone, and a call that was ended without an answer) takes 64 bytes, and each other one a place
/// in a list beside. Contracts see it as an `AskedRecord`: the list of its entries, how many of them it has room for, and whether it has a
/// place in the list beside to spare.
pub struct AskedLog {
    alloc: Global,
    rows: Vec<AskedRow>,
    /// The entries that are kept whole, each at the place that is its number.
    wholes: Vec<Asked>,
    /// True only where there is room for one more of them.
    spare: bool,
}

// Written out, so that whoever owns one has one call at each exit, and not the drop of each field.
impl Drop for AskedLog {
    fn drop(self) {
        let AskedLog {
            alloc: _,
            rows,
            wholes,
            spare: _,
        } = self;
        drop(rows);
        drop(wholes);
    }
}

impl fmt::Debug for AskedLog {
    fn fmt<W: fmt::Write>(&self, f: &mut fmt::Formatter<W>) -> fmt::Result {
        f.debug_struct("AskedLog")
            .field("len", &self.rows.len())
            .finish_non_exhaustive()
    }
}

impl Model for AskedLog {
    ghost use Rattle.std.specs.Prelude.{◌≡◌, ◌<◌, true, filter, length, map, vec_capacity};
    ghost use Rattle.std.specs.List.{AllByRecursion};
    ghost use Rattle.ports.specs.AskedLog.{AskedRecord};
    ghost use Rattle.ports.specs.AskedRows.{IsKnownRow, entry_of_row};

    ghost Value = { AskedRecord };

    ghost view = { λ l. record {
      items = map (entry_of_row l.wholes.items) l.rows.items;
      capacity = vec_capacity l.rows;
      spare = l.spare;
    } };

    ghost invariant = { λ l. AllByRecursion (IsKnownRow (length l.wholes.items)) l.rows.items
        × (l.spare ≡ true → length l.wholes.items < vec_capacity l.wholes) };
}

/// A copy of the entry of a row, where these are kept whole.
fn copy_of(alloc: Global, wholes: &[Asked], row: &AskedRow) -> Result<Asked, AllocError>
    requires { IsKnownRow (length wholes.now) row.now }
    ensures { IfOk result (λ copy. copy ≡ entry_of_row wholes.now row.now) }
{
    view_of(alloc, wholes, row).entry().try_copy(alloc)
}

/// Copies of the entries of rows, where these are kept whole.
fn copies_of(alloc: Global, wholes: &[Asked], rows: &[AskedRow]) -> Result<AskedList, AllocError>
    requires { AllByRecursion (IsKnownRow (length wholes.now)) rows.now }
    ensures { IfOk result (λ list. list ≡ map (entry_of_row wholes.now) rows.now) }
{
    let mut list = AskedList::new(alloc);
    for row in rows {
        list.push(copy_of(alloc, wholes, row)?)?;
    }
    Ok(list)
}

/// Returns the number of rows whose entries began a call, where these are kept whole.
fn starts_in(wholes: &[Asked], rows: &[AskedRow]) -> usize
    ensures { result ≡ length
        (filter (λ row. is_start (entry_of_row wholes.now row).end) rows.now) }
{
    rows.iter().filter(|row| is_start(wholes, row)).count()
}

impl AskedLog {
    /// A list with copies of the entries. It is refused only for want of memory.
    pub fn copies(&self, alloc: Global) -> Result<AskedList, AllocError>
        ensures { IfOk result (λ list. list ≡ self.now.items) }
    {
        copies_of(alloc, self.wholes.as_slice(), self.rows.as_slice())
    }

    /// The empty list. It takes no memory.
    pub fn new(alloc: Global) -> AskedLog
        ensures { result.items ≡ [] }
    {
        AskedLog {
            alloc,
            rows: Vec::new(alloc),
            wholes: Vec::new(alloc),
            spare: false,
        }
    }

    /// Returns the number of entries.
    pub fn len(&self) -> usize
        ensures value { result ≡ length self.now.items }
        ensures few { result < 2 ^ 63 }
    {
        self.rows.len()
    }

    /// Returns the number of entries that began a call. It looks at each entry.
    pub fn calls(&self) -> u64
        ensures { result ≡ calls_in self.now.items }
    {
        starts_in(self.wholes.as_slice(), self.rows.as_slice()) as u64
    }

    /// The entry at a place, counted from 0: none where there are no more entries than that. It takes no memory.
    pub fn get(&self, place: usize) -> Option<AskedView<'_>>
        ensures { option_map entry_of_view result ≡ slice_get self.now.items place }
    {
        match self.rows.get(place) {
            Some(row) => Some(view_of(self.alloc, self.wholes.as_slice(), row)),
            None => None,
        }
    }

    /// Makes room for `more` further entries, and for one that isn't plain. After a refusal no room is lost.
    pub fn reserve(&mut self, more: usize) -> Result<(), AllocError>
        ensures items { self.new.items ≡ self.old.items }
        ensures room { OnOk result (length self.new.items + more ≤ self.new.capacity) }
        ensures spare { OnOk result (self.new.spare ≡ true) }
        ensures grow { self.old.capacity ≤ self.new.capacity }
        ensures kept { self.old.spare ≡ true → self.new.spare ≡ true }
    {
        self.rows.reserve(more)?;
        if !self.spare {
            self.wholes.reserve(1)?;
            self.spare = true;
        }
        Ok(())
    }

    /// Appends an entry, for which there is room. It takes no memory; an entry that is plain leaves the place that is to spare.
    pub fn push_reserved(&mut self, entry: Asked)
        requires room { length self.old.items < self.old.capacity }
        requires spare { IsPlainEnd entry.ask entry.end ⊎ (self.old.spare ≡ true) }
        ensures items { self.new.items ≡ self.old.items ++ entry ∷ [] }
        ensures capacity { self.old.capacity ≤ self.new.capacity }
        ensures kept { IsPlainEnd entry.ask entry.end → self.new.spare ≡ self.old.spare }
    {
        if is_plain(&entry.ask, &entry.end) {
            let row = plain_row(&entry);
            self.rows.push_reserved(row);
        } else {
            self.keep_whole(entry);
        }
    }

    /// Appends an entry that is kept whole, for which there is room.
    fn keep_whole(&mut self, entry: Asked)
        requires room { length self.old.items < self.old.capacity }
        requires spare { self.old.spare ≡ true }
        ensures items { self.new.items ≡ self.old.items ++ entry ∷ [] }
        ensures capacity { self.old.capacity ≤ self.new.capacity }
    {
        let row = whole_row(entry.moment, self.wholes.len());
        self.wholes.push_reserved(entry);
        self.spare = false;
        self.rows.push_reserved(row);
    }
}

/// The entries of a port, which contracts see as the list of them.
#[derive(Debug, Drop)]
pub struct PortEntries {
    log: AskedLog,
}

impl Model for PortEntries {
    ghost use Rattle.std.specs.Prelude.{List};
    ghost use Rattle.space.specs.declared.asked.Asked.{Asked};

    ghost Value = { List Asked };

    ghost view = { λ e. e.log.items };
}

impl PortEntries {
    /// The entries of a log.
    pub fn of(log: AskedLog) -> PortEntries
        ensures { result ≡ log.items }
    {
        PortEntries { log }
    }

    /// Returns the number of entries.
    pub fn len(&self) -> usize
        ensures { result ≡ length self.now }
    {
        self.log.len()
    }

    /// Returns whether there are no entries.
    pub fn is_empty(&self) -> bool
        ensures { IsTrue result ↔ (self.now ≡ []) }
    {
        self.log.len() == 0
    }

    /// Returns the number of entries that began a call. It looks at each entry.
    pub fn calls(&self) -> u64
        ensures { result ≡ calls_in self.now }
    {
        self.log.calls()
    }

    /// The entry at a place, counted from 0: none where there are no more entries than that. It takes no memory.
    pub fn get(&self, place: usize) -> Option<AskedView<'_>>
        ensures { option_map entry_of_view result ≡ slice_get self.now place }
    {
        self.log.get(place)
    }

    /// A list with copies of the entries. It is refused only for want of memory.
    pub fn to_list(&self, alloc: Global) -> Result<AskedList, AllocError>
        ensures { IfOk result (λ list. list ≡ self.now) }
    {
        self.log.copies(alloc)
    }
}
