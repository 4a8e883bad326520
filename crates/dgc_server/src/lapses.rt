//! The changes that the passing of time makes to the clients.
ghost use Rattle.std.specs.Prelude.{◌≡◌, ◌+◌, ◌<◌, ◌≤◌, ◌^◌, map, IsTrue};
ghost use Rattle.std.specs.List.{list_all, AllByRecursion};
ghost use Rattle.history.specs.declared.limits.TheConstants.{END_OF_TIME};
ghost use Rattle.dgc_server.specs.Entry.{each_has_number, entry_after_lapse};
ghost use Rattle.dgc_server.specs.Table.{after_lapse};
ghost use Rattle.dgc_server.specs.StandsForCalls.{each_once};
ghost use Rattle.dgc_server.specs.HolderIndex.{Tally, tally_in, tally_at, ends_later};
ghost use Rattle.dgc_server.specs.Chunks.{all_of, ends_of, IsBounded};

use crate::board::Board;
use crate::clients::Chunk;
use crate::entry::ClientEntry;
use crate::holders::{Counts, Passed, end_tenure};
use crate::table::{self, Sums};

/// As time passes from one moment to another, forgets the tenures of these clients whose leases are over, where the counts and sums are of these
/// and others, and answers the moment before which no lease of these ends. A client whose lease goes on costs a look at its end; one whose lease is
/// over, some at each of its objects. It takes no memory.
fn pass_each(
    entries: &mut [ClientEntry],
    counts: &mut Counts,
    sums: Sums,
    from: u64,
    to: u64,
) -> Passed
    requires later { from ≤ to }
    requires early { to < END_OF_TIME }
    requires once { IsTrue (list_all (λ e. each_once e.objects) entries.old) }
    requires numbered { IsTrue (list_all (λ e. each_has_number e.objects) entries.old) }
    requires enough { (k : Tally) → tally_in k from entries.old ≤ tally_at k counts.old sums }
    requires few { (sums.leased ≤ 2 ^ 17) × (sums.pairs ≤ 2 ^ 65) }
    ensures entries { entries.new ≡ map (entry_after_lapse to) entries.old }
    ensures tallies { (k : Tally) → tally_at k counts.new result.sums + tally_in k from entries.old
        ≡ tally_at k counts.old sums + tally_in k to (map (entry_after_lapse to) entries.old) }
    ensures few { (result.sums.leased ≤ 2 ^ 17) × (result.sums.pairs ≤ 2 ^ 65) }
    ensures ends { IsTrue (list_all (ends_later to result.next) entries.old) }
    ensures later { to < result.next }
{
    let mut least = u64::MAX;
    let mut so_far = sums;
    for entry in entries.iter_mut() {
        if entry.has_time_left(to) {
            least = least.min(entry.until());
            continue;
        }
        so_far = end_tenure(entry, counts, so_far, from, to);
    }
    Passed {
        next: least,
        sums: so_far,
    }
}

/// As time passes from one moment to another, forgets the tenures of a chunk's clients whose leases are over, where the counts and sums are of these
/// and others, and answers the moment before which no lease of these ends. It takes no memory.
fn pass_entries(chunk: &mut Chunk, counts: &mut Counts, sums: Sums, from: u64, to: u64) -> Passed
    requires later { from ≤ to }
    requires early { to < END_OF_TIME }
    requires once { IsTrue (list_all (λ e. each_once e.objects) chunk.old.entries.items) }
    requires numbered { IsTrue (list_all (λ e. each_has_number e.objects) chunk.old.entries.items) }
    requires enough { (k : Tally)
        → tally_in k from chunk.old.entries.items ≤ tally_at k counts.old sums }
    requires few { (sums.leased ≤ 2 ^ 17) × (sums.pairs ≤ 2 ^ 65) }
    ensures entries { chunk.new.entries.items ≡ map (entry_after_lapse to) chunk.old.entries.items }
    ensures tallies { (k : Tally)
        → tally_at k counts.new result.sums + tally_in k from chunk.old.entries.items
        ≡ tally_at k counts.old sums
        + tally_in k to (map (entry_after_lapse to) chunk.old.entries.items) }
    ensures few { (result.sums.leased ≤ 2 ^ 17) × (result.sums.pairs ≤ 2 ^ 65) }
    ensures ends { IsTrue (list_all (ends_later to result.next) chunk.old.entries.items) }
    ensures later { to < result.next }
{
    pass_each(&mut chunk.entries, counts, sums, from, to)
}

/// As time passes from one moment to another, forgets what ended of the clients of a chunk in which something may be due, and the clients of which
/// nothing is left, where the counts and sums are of these clients and others. It takes no memory.
fn pass_chunk(chunk: &mut Chunk, counts: &mut Counts, sums: Sums, from: u64, to: u64) -> Sums
    requires later { from ≤ to }
    requires early { to < END_OF_TIME }
    requires once { IsTrue (list_all (λ e. each_once e.objects) chunk.old.entries.items) }
    requires numbered { IsTrue (list_all (λ e. each_has_number e.objects) chunk.old.entries.items) }
    requires enough { (k : Tally)
        → tally_in k from chunk.old.entries.items ≤ tally_at k counts.old sums }
    requires few { (sums.leased ≤ 2 ^ 17) × (sums.pairs ≤ 2 ^ 65) }
    ensures entries { chunk.new.entries.items ≡ after_lapse to chunk.old.entries.items }
    ensures tallies { (k : Tally)
        → tally_at k counts.new result + tally_in k from chunk.old.entries.items
        ≡ tally_at k counts.old sums
        + tally_in k to (map (entry_after_lapse to) chunk.old.entries.items) }
    ensures few { (result.leased ≤ 2 ^ 17) × (result.pairs ≤ 2 ^ 65) }
    ensures bounded { IsBounded to (to + 1) chunk.new }
{
    let own = pass_entries(chunk, counts, sums, from, to);
    table::keep(&mut chunk.entries, to);
    chunk.least = own.next;
    own.sums
}

/// As time passes from one moment to another, forgets what ended in the chunks in which something may be due, and the clients of which nothing is
/// left. Chunks in which no client is left stay. It looks at no client of the other chunks. It takes no memory.
pub fn pass_all(board: &mut Board, counts: &mut Counts, sums: Sums, from: u64, to: u64) -> Passed
    requires later { from ≤ to }
    requires early { to < END_OF_TIME }
    requires once { IsTrue (list_all (λ e. each_once e.objects) (all_of board.old.chunks.items)) }
    requires numbered { IsTrue
        (list_all (λ e. each_has_number e.objects) (all_of board.old.chunks.items)) }
    requires tallies { (k : Tally)
        → tally_at k counts.old sums ≡ tally_in k from (all_of board.old.chunks.items) }
    requires few { (sums.leased ≤ 2 ^ 17) × (sums.pairs ≤ 2 ^ 65) }
    requires bounded { AllByRecursion (IsBounded from 0) board.old.chunks.items }
    requires ends { board.old.ends.items ≡ ends_of board.old.chunks.items }
    ensures entries { all_of board.new.chunks.items
        ≡ after_lapse to (all_of board.old.chunks.items) }
    ensures tallies { (k : Tally)
        → tally_at k counts.new result.sums
        ≡ tally_in k to (map (entry_after_lapse to) (all_of board.old.chunks.items)) }
    ensures later { to < result.next }
    ensures bounded { AllByRecursion (IsBounded to result.next) board.new.chunks.items }
    ensures ends { board.new.ends.items ≡ ends_of board.new.chunks.items }
{
    let mut so_far = sums;
    let mut i = board.next_due(0, to);
    while i < board.len() {
        so_far = pass_chunk(&mut board.chunks[i], counts, so_far, from, to);
        board.note_end(i);
        i = board.next_due(i + 1, to);
    }
    Passed {
        next: board.least_end(),
        sums: so_far,
    }
}
