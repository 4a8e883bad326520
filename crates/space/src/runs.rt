//! Calls that connections run.
ghost use Rattle.std.specs.Prelude.{◌≡◌, ◌<◌, ◌≤◌, ◌^◌, ◌++◌, ◌∷◌, [], ℕ, length, filter, slice_get, Some, OnOk};
ghost use Rattle.std.specs.List.{list_any};
ghost use Rattle.indexmap.specs.IndexMap.{index_map_len, spare};
ghost use Rattle.space.specs.Acts.{acted_runs};
ghost use Rattle.space.specs.RunTable.{ArePositive, AreSame, LacksOneOf, all_calls};
ghost use Rattle.space.specs.declared.runs.Run.{Run};
ghost use Rattle.space.specs.Runs.{is_run, without_first};

use history::Ask;
use indexmap::IndexMap;
use object_ids::ObjId;
use std::alloc::{AllocError, Global};
use std::hash::{Hash, Hasher};
use std::marker::Model;

/// A call that a connection runs.
#[derive(Clone, Copy, PartialEq, Eq)]
pub struct Run {
    /// The number of the connection.
    pub by: u32,
    /// The object that it calls.
    pub object: ObjId,
}

// The objects that are called are all of one space, so that their numbers tell them apart.
impl Hash for Run {
    ghost use Rattle.std.specs.Prelude.{◌++◌};
    ghost use Rattle.std.proofs.Common.{rules};
    ghost use Rattle.std.specs.Cmp.Rules.{hashing};
    ghost use Rattle.std.specs.Hash as fed;

    ghost hash_input = { λ run. fed.u32 run.by ++ fed.i64 run.object.number };

    ghost respects_eq = { Prim.search (hashing, rules) };

    fn hash<H: Hasher>(&self, state: &mut H) {
        self.by.hash(state);
        self.object.number.hash(state);
    }
}

/// For each connection and object how many calls of the object it runs, if it runs one. No count is 0.
type Counts = IndexMap<Run, u32>;

/// The calls that connections run. Contracts see them as a `RunTable`, whose list is in no order that matters.
pub struct Runs {
    /// The number of running calls of each connection and object.
    counts: Counts,
    /// The number of all running calls.
    total: usize,
}

impl Drop for Runs {
    fn drop(self) {
        let Runs { counts, total: _ } = self;
        drop(counts);
    }
}

impl Model for Runs {
    ghost use Rattle.std.specs.Prelude.{◌≡◌, length};
    ghost use Rattle.indexmap.specs.IndexMap.{spare};
    ghost use Rattle.space.specs.RunTable.{ArePositive, RunTable, all_calls};

    ghost Value = { RunTable };

    ghost view = { λ r. record { items = all_calls r.counts; room = spare r.counts } };

    ghost invariant = { λ r. (r.total ≡ length (all_calls r.counts)) × ArePositive r.counts };
}

impl Runs {
    /// No call runs.
    pub fn new(alloc: Global) -> Runs
        ensures items { result.items ≡ [] }
    {
        Runs {
            counts: IndexMap::new(alloc),
            total: 0,
        }
    }

    /// Returns the number of running calls.
    pub fn len(&self) -> usize
        ensures { result ≡ length self.now.items }
    {
        self.total
    }

    /// Makes room for one more call.
    pub fn reserve(&mut self) -> Result<(), AllocError>
        ensures ok { OnOk result (0 < self.new.room) }
        ensures items { self.new.items ≡ self.old.items }
    {
        self.counts.reserve(1)
    }

    /// Returns whether a connection runs a call of an object.
    pub fn is_running(&self, by: u32, object: &ObjId) -> bool
        ensures { result ≡ list_any (is_run by object.now) self.now.items }
    {
        self.count(by, object) > 0
    }

    /// Returns the number of calls of an object that a connection runs.
    pub fn count(&self, by: u32, object: &ObjId) -> usize
        ensures value { result ≡ length (filter (is_run by object.now) self.now.items) }
        ensures within { result ≤ length self.now.items }
    {
        let run = Run {
            by,
            object: *object,
        };
        count_of(&self.counts, &run) as usize
    }

    /// Begins a call, for which there is room.
    pub fn put(&mut self, run: Run)
        requires room { 0 < self.old.room }
        requires few { length self.old.items < 2 ^ 31 }
        ensures { AreSame self.new.items (self.old.items ++ run ∷ []) }
    {
        raise(&mut self.counts, run);
        self.total += 1;
    }

    /// Ends a call of an object that a connection runs, if it runs one. It takes no memory.
    pub fn end_one(&mut self, by: u32, object: &ObjId)
        ensures { AreSame self.new.items (without_first (is_run by object.now) self.old.items) }
    {
        let run = Run {
            by,
            object: *object,
        };
        if lower(&mut self.counts, &run) {
            self.total -= 1;
        }
    }
}

/// Does what an ask of a connection does to the running calls. There is room for one more.
pub(crate) fn act_on_runs(runs: &mut Runs, effective: bool, by: u32, ask: &Ask)
    requires room { 0 < runs.old.room }
    requires few { length runs.old.items < 2 ^ 31 }
    ensures { AreSame runs.new.items (acted_runs effective by ask.now runs.old.items) }
{
    if effective {
        match ask {
            Ask::Begin { object } => runs.put(Run {
                by,
                object: *object,
            }),
            Ask::Finish {
                object,
                made: _,
                listed: _,
                uid: _,
            } => runs.end_one(by, object),
            Ask::Abandon { object } => runs.end_one(by, object),
            _ => {}
        }
    }
}

/// Returns the number of calls of an object that a connection runs, by the counts.
fn count_of(counts: &Counts, run: &Run) -> u32
    ensures { result ≡ length (filter (is_run run.now.by run.now.object) (all_calls counts.now)) }
{
    match counts.get_index_of(run) {
        Some(at) => counts[at],
        None => 0,
    }
}

/// Counts one call more, for which there is room.
fn raise(counts: &mut Counts, run: Run)
    requires room { 0 < spare counts.old }
    requires few { length (all_calls counts.old) < 2 ^ 31 }
    requires positive { ArePositive counts.old }
    ensures calls { AreSame (all_calls counts.new) (all_calls counts.old ++ run ∷ []) }
    ensures positive { ArePositive counts.new }
{
    match counts.insert_full(run, 1) {
        Ok((at, Some(before))) => counts[at] = before + 1,
        Ok((_, None)) => {}
        Err(_refused) => {}
    }
}

/// Counts one call fewer, if there is one, and says whether there was. It takes no memory.
fn lower(counts: &mut Counts, run: &Run) -> bool
    requires { ArePositive counts.old }
    ensures ended { result ≡ list_any (is_run run.now.by run.now.object) (all_calls counts.old) }
    ensures rest { AreSame (all_calls counts.new)
        (without_first (is_run run.now.by run.now.object) (all_calls counts.old)) }
    ensures positive { ArePositive counts.new }
{
    match counts.get_index_of(run) {
        Some(at) => {
            lower_at(counts, at);
            true
        }
        None => false,
    }
}

/// Counts one call fewer at a place. Where it was the last one there, the entry goes, and the last entry takes its place. It takes no memory.
fn lower_at(counts: &mut Counts, at: usize)
    requires within { at < index_map_len counts.old }
    requires positive { ArePositive counts.old }
    ensures rest { (e : Run × ℕ) → slice_get counts.old.entries at ≡ Some e
        → LacksOneOf e counts.old.entries counts.new.entries }
    ensures positive { ArePositive counts.new }
{
    let count = counts[at];
    if count > 1 {
        counts[at] = count - 1;
    } else {
        counts.swap_remove_index(at);
    }
}
