//! Objects that are forgotten, and clients of which nothing is left, chunk by chunk.
ghost use Rattle.std.specs.Prelude.{◌≡◌, ℕ, ◌+◌, length, filter, map, IsTrue};
ghost use Rattle.std.specs.List.{list_all, AllByRecursion};
ghost use Rattle.dgc_server.specs.Entry.{entry_without, is_entry_kept};
ghost use Rattle.dgc_server.specs.HolderIndex.{entry_names, is_named, with_only, objects_in};
ghost use Rattle.dgc_server.specs.Chunks.{all_of, ends_of, is_filled, IsBounded, IsCalmChunk};

use crate::board::Board;
use crate::clients::Chunk;
use crate::holders::{ClientHint, Counts};
use crate::table;
use object_ids::ObjId;

/// Keeps the clients of which something is left.
fn keep(board: &mut Board, now: u64)
    requires { board.old.ends.items ≡ ends_of board.old.chunks.items }
    ensures entries { all_of board.new.chunks.items
        ≡ filter (is_entry_kept now) (all_of board.old.chunks.items) }
    ensures filled { IsTrue (list_all is_filled board.new.chunks.items) }
    ensures bounded { (n : ℕ) → AllByRecursion (IsCalmChunk now n) board.old.chunks.items
        → AllByRecursion (IsBounded now n) board.new.chunks.items }
    ensures ends { board.new.ends.items ≡ ends_of board.new.chunks.items }
{
    keep_each(&mut board.chunks, now);
    board.keep_filled();
}

/// Keeps in each chunk the clients of which something is left.
fn keep_each(chunks: &mut Vec<Chunk>, now: u64)
    ensures entries { all_of chunks.new.items
        ≡ filter (is_entry_kept now) (all_of chunks.old.items) }
    ensures bounded { (n : ℕ) → AllByRecursion (IsCalmChunk now n) chunks.old.items
        → AllByRecursion (IsBounded now n) chunks.new.items }
    ensures ends { ends_of chunks.new.items ≡ ends_of chunks.old.items }
{
    let mut i: usize = 0;
    while i < chunks.len() {
        table::keep(&mut chunks[i].entries, now);
        i += 1;
    }
}

/// Forgets what is kept of an object that so many clients name, and a client of which nothing is left then. It begins to look at this place,
/// as a count notes it, and stops as soon as all that name the object were met. It takes no memory.
pub fn drop_object(board: &mut Board, object: &ObjId, clients: u32, hint: ClientHint, time: u64)
    requires kept { IsTrue (list_all (is_entry_kept time) (all_of board.old.chunks.items)) }
    requires counted { clients
        ≡ length (filter (entry_names object.now) (all_of board.old.chunks.items)) }
    requires ends { board.old.ends.items ≡ ends_of board.old.chunks.items }
    ensures entries { all_of board.new.chunks.items
        ≡ filter (is_entry_kept time)
        (map (entry_without object.now) (all_of board.old.chunks.items)) }
    ensures filled { IsTrue (list_all is_filled board.new.chunks.items) }
    ensures bounded { (n : ℕ) → AllByRecursion (IsBounded time n) board.old.chunks.items
        → AllByRecursion (IsBounded time n) board.new.chunks.items }
    ensures ends { board.new.ends.items ≡ ends_of board.new.chunks.items }
{
    let chunk = hint.chunk as usize;
    let to_go = walk(
        &mut board.chunks,
        object,
        clients,
        chunk,
        hint.index as usize,
        time,
    );
    walk(&mut board.chunks, object, to_go, 0, 0, time);
    board.keep_filled();
}

/// From the client of this index in the chunk of this index on forgets what is kept of an object that so many clients name, and answers how many are left that
/// name it.
fn walk(
    chunks: &mut Vec<Chunk>,
    object: &ObjId,
    clients: u32,
    chunk: usize,
    client: usize,
    time: u64,
) -> u32
    requires kept { IsTrue (list_all (is_entry_kept time) (all_of chunks.old.items)) }
    requires counted { clients
        ≡ length (filter (entry_names object.now) (all_of chunks.old.items)) }
    ensures same { filter (is_entry_kept time)
        (map (entry_without object.now) (all_of chunks.new.items))
        ≡ filter (is_entry_kept time) (map (entry_without object.now) (all_of chunks.old.items)) }
    ensures kept { IsTrue (list_all (is_entry_kept time) (all_of chunks.new.items)) }
    ensures counted { result ≡ length (filter (entry_names object.now) (all_of chunks.new.items)) }
    ensures all { chunk ≡ 0 → client ≡ 0 → result ≡ 0 }
    ensures bounded { (n : ℕ) → AllByRecursion (IsBounded time n) chunks.old.items
        → AllByRecursion (IsBounded time n) chunks.new.items }
    ensures ends { ends_of chunks.new.items ≡ ends_of chunks.old.items }
{
    let mut to_go = clients;
    let mut first = client;
    let mut i = chunk;
    while i < chunks.len() {
        if to_go == 0 {
            return 0;
        }
        to_go = table::walk(&mut chunks[i].entries, object, to_go, first, time);
        first = 0;
        i += 1;
    }
    to_go
}

/// Forgets what is kept of the objects that have no count any more, and the clients of which nothing is left then. So many pairs go. It looks at
/// all objects of the clients from this place on, as a count notes it, and then from the first on, until as many went, and then once at each
/// client's end. It takes no memory.
pub fn drop_objects(board: &mut Board, counts: &Counts, pairs: u128, hint: ClientHint, time: u64)
    requires pairs { pairs
        + objects_in (map (with_only (is_named counts.now)) (all_of board.old.chunks.items))
        ≡ objects_in (all_of board.old.chunks.items) }
    requires ends { board.old.ends.items ≡ ends_of board.old.chunks.items }
    ensures entries { all_of board.new.chunks.items
        ≡ filter (is_entry_kept time)
        (map (with_only (is_named counts.now)) (all_of board.old.chunks.items)) }
    ensures filled { IsTrue (list_all is_filled board.new.chunks.items) }
    ensures bounded { (n : ℕ) → AllByRecursion (IsBounded time n) board.old.chunks.items
        → AllByRecursion (IsBounded time n) board.new.chunks.items }
    ensures ends { board.new.ends.items ≡ ends_of board.new.chunks.items }
{
    let chunk = hint.chunk as usize;
    let to_go = keep_named(&mut board.chunks, counts, pairs, chunk, hint.index as usize);
    keep_named(&mut board.chunks, counts, to_go, 0, 0);
    keep(board, time);
}

/// From the client of this index in the chunk of this index on keeps of each client the objects that are named, where so many pairs are to go, and answers how
/// many are left to go.
fn keep_named(
    chunks: &mut Vec<Chunk>,
    counts: &Counts,
    pairs: u128,
    chunk: usize,
    client: usize,
) -> u128
    requires { pairs + objects_in (map (with_only (is_named counts.now)) (all_of chunks.old.items))
        ≡ objects_in (all_of chunks.old.items) }
    ensures same { map (with_only (is_named counts.now)) (all_of chunks.new.items)
        ≡ map (with_only (is_named counts.now)) (all_of chunks.old.items) }
    ensures to_go { result
        + objects_in (map (with_only (is_named counts.now)) (all_of chunks.new.items))
        ≡ objects_in (all_of chunks.new.items) }
    ensures all { chunk ≡ 0 → client ≡ 0
        → all_of chunks.new.items
        ≡ map (with_only (is_named counts.now)) (all_of chunks.old.items) }
    ensures calm { (m n : ℕ) → AllByRecursion (IsCalmChunk m n) chunks.old.items
        → AllByRecursion (IsCalmChunk m n) chunks.new.items }
    ensures ends { ends_of chunks.new.items ≡ ends_of chunks.old.items }
{
    let mut to_go = pairs;
    let mut first = client;
    let mut i = chunk;
    while i < chunks.len() {
        if to_go == 0 {
            return 0;
        }
        to_go = table::keep_named(&mut chunks[i].entries, counts, to_go, first);
        first = 0;
        i += 1;
    }
    to_go
}
