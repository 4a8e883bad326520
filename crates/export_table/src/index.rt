//! The index of the references that await, kept beside their list.
ghost use Rattle.std.specs.Prelude.{◌≡◌, ◌++◌, ◌∷◌, [], ◌+◌, ◌<◌, ◌≤◌, ◌^◌, List, length, filter, take, drop, IsTrue, true, if◌then◌else◌};
ghost use Rattle.indexmap.specs.IndexMap.{spare};
ghost use Rattle.indexmap.specs.IndexSet.{spare as places};
ghost use Rattle.export_table.specs.declared.waits.Wait.{Wait};
ghost use Rattle.export_table.specs.Waits.{each_once};
ghost use Rattle.export_table.specs.WaitIndex.{count_at, returned_at, stays, IsIndexOf};

use crate::counts::{self, Counts, References};
use crate::returns::{self, Returns};
use crate::waits::{Stays, Wait};

/// Notes a wait that is listed last. There is room for it.
pub fn add(counts: &mut Counts, references: &mut References, returns: &mut Returns, wait: &Wait)
    requires counts_room { 0 < spare counts.old }
    requires references_room { 0 < places references.old }
    requires returns_room { 0 < spare returns.old }
    requires few { count_at counts.old wait.now.object < 2 ^ 31 }
    requires few_returned { returned_at returns.old wait.now.uid < 2 ^ 31 }
    ensures index { (waits : List Wait) → IsIndexOf counts.old references.old returns.old waits
        → IsIndexOf counts.new references.new returns.new (waits ++ wait.now ∷ []) }
    ensures counts_room { spare counts.old ≤ spare counts.new + 1 }
    ensures references_room { places references.old ≤ places references.new + 1 }
    ensures returns_room { spare returns.old ≤ spare returns.new + 1 }
{
    counts::raise(counts, &wait.object);
    counts::note(references, &wait.object, &wait.uid);
    returns::raise(returns, &wait.uid);
}

/// Notes that a wait is listed no more. It takes no memory.
fn remove(counts: &mut Counts, references: &mut References, returns: &mut Returns, wait: &Wait)
    requires counted { 1 ≤ count_at counts.old wait.now.object }
    requires returned { 1 ≤ returned_at returns.old wait.now.uid }
    ensures index { (before after : List Wait) → each_once (before ++ wait.now ∷ after) ≡ true
        → IsIndexOf counts.old references.old returns.old (before ++ wait.now ∷ after)
        → IsIndexOf counts.new references.new returns.new (before ++ after) }
    ensures counts_room { spare counts.old ≤ spare counts.new }
    ensures references_room { places references.old ≤ places references.new }
    ensures returns_room { spare returns.old ≤ spare returns.new }
{
    counts::lower(counts, &wait.object);
    counts::unnote(references, &wait.object, &wait.uid);
    returns::lower(returns, &wait.uid);
}

/// Notes that a wait is listed no more, unless it stays. It takes no memory.
fn remove_unless(
    counts: &mut Counts,
    references: &mut References,
    returns: &mut Returns,
    wait: &Wait,
    which: &Stays,
)
    requires counted { 1 ≤ count_at counts.old wait.now.object }
    requires returned { 1 ≤ returned_at returns.old wait.now.uid }
    ensures index { (before after : List Wait) → each_once (before ++ wait.now ∷ after) ≡ true
        → IsIndexOf counts.old references.old returns.old (before ++ wait.now ∷ after)
        → IsIndexOf counts.new references.new returns.new
        (if stays which.now wait.now then before ++ wait.now ∷ after else before ++ after) }
    ensures counts_room { spare counts.old ≤ spare counts.new }
    ensures references_room { places references.old ≤ places references.new }
    ensures returns_room { spare returns.old ≤ spare returns.new }
{
    if !which.has(wait) {
        remove(counts, references, returns, wait);
    }
}

/// Notes that of these waits only those are still listed that stay, as all before the place `first` do, and all from the place `upto` on. It looks at none
/// of these, and takes no memory.
pub fn keep(
    counts: &mut Counts,
    references: &mut References,
    returns: &mut Returns,
    waits: &[Wait],
    first: usize,
    upto: usize,
    which: &Stays,
)
    requires order { first ≤ upto }
    requires within { upto ≤ length waits.now }
    requires once { IsTrue (each_once waits.now) }
    requires index { IsIndexOf counts.old references.old returns.old waits.now }
    requires before { filter (stays which.now) (take first waits.now) ≡ take first waits.now }
    requires after { filter (stays which.now) (drop upto waits.now) ≡ drop upto waits.now }
    ensures index { IsIndexOf counts.new references.new returns.new
        (filter (stays which.now) waits.now) }
    ensures counts_room { spare counts.old ≤ spare counts.new }
    ensures references_room { places references.old ≤ places references.new }
    ensures returns_room { spare returns.old ≤ spare returns.new }
{
    for i in first..upto {
        remove_unless(counts, references, returns, &waits[i], which);
    }
}
