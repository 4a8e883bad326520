//! Leases that end as time passes, and the objects that their clients hold.
ghost use Rattle.std.specs.Prelude.{◌≡◌, ◌++◌, ◌∷◌, [], ◌≤◌, flat_map, OnOk, IfOk, if◌then◌else◌};
ghost use Rattle.dgc_server.specs.Numbers.{is_dirty_highest};
ghost use Rattle.dgc_server.specs.Entry.{object_entries, dirty_objects};
ghost use Rattle.std.specs.List.{list_any};
ghost use Rattle.dgc_server.specs.HolderIndex.{ends_between, freed_of};
ghost use Rattle.dgc_server.specs.Chunks.{all_of, IsBoard};

use crate::board::Board;
use crate::clients::Clients;
use crate::entry::ClientEntry;
use crate::marks::Marks;
use crate::packed::Packed;
use object_ids::ObjId;
use std::alloc::{AllocError, Global};

/// Appends an object, if by these numbers a client holds it.
fn append_one(freed: &mut Vec<ObjId>, object: &ObjId, numbers: &Packed) -> Result<(), AllocError>
    ensures { OnOk result
        (freed.new.items
        ≡ freed.old.items ++ (if is_dirty_highest numbers.now then object.now ∷ [] else [])) }
{
    if numbers.is_dirty_highest() {
        freed.push(*object)?;
    }
    Ok(())
}

/// Appends those of a client's objects of which the highest call is a dirty.
fn append_objects(freed: &mut Vec<ObjId>, objects: &Marks) -> Result<(), AllocError>
    ensures { OnOk result
        (freed.new.items ≡ freed.old.items ++ dirty_objects (object_entries objects.now.entries)) }
{
    for (object, numbers) in objects.iter() {
        append_one(freed, object, numbers)?;
    }
    Ok(())
}

/// Appends the objects that a client holds, if its lease ends as time passes from one moment to another.
fn append_of(
    freed: &mut Vec<ObjId>,
    entry: &ClientEntry,
    from: u64,
    to: u64,
) -> Result<(), AllocError>
    ensures { OnOk result (freed.new.items ≡ freed.old.items ++ freed_of from to entry.now) }
{
    if entry.has_time_left(from) && !entry.has_time_left(to) {
        append_objects(freed, entry.objects())?;
    }
    Ok(())
}

/// Appends the objects that clients of a chunk hold whose leases end as time passes from one moment to another.
fn append_all(
    freed: &mut Vec<ObjId>,
    entries: &[ClientEntry],
    from: u64,
    to: u64,
) -> Result<(), AllocError>
    ensures { OnOk result
        (freed.new.items ≡ freed.old.items ++ flat_map (freed_of from to) entries.now) }
{
    for entry in entries {
        append_of(freed, entry, from, to)?;
    }
    Ok(())
}

/// The objects that clients hold whose leases end as time passes from the clients' moment to another one. It looks at the clients of the chunks in
/// which a lease may end by then; where nothing is due it looks at no client and takes no memory.
pub fn freed_objects(alloc: Global, clients: &Clients, to: u64) -> Result<Vec<ObjId>, AllocError>
    requires { clients.now.moment ≤ to }
    ensures { IfOk result
        (λ os. os.items ≡ flat_map (freed_of clients.now.moment to) clients.now.entries) }
{
    freed_in(alloc, clients.board(), clients.next(), clients.moment(), to)
}

/// The objects that clients of these chunks hold whose leases end as time passes from one moment to another.
fn freed_in(
    alloc: Global,
    board: &Board,
    next: u64,
    from: u64,
    to: u64,
) -> Result<Vec<ObjId>, AllocError>
    requires later { from ≤ to }
    requires board { IsBoard from next board.now }
    ensures { IfOk result
        (λ os. os.items ≡ flat_map (freed_of from to) (all_of board.now.chunks.items)) }
{
    let mut freed = Vec::new(alloc);
    if to < next {
        return Ok(freed);
    }
    let mut i = board.next_due(0, to);
    while i < board.len() {
        append_all(&mut freed, board.clients(i), from, to)?;
        i = board.next_due(i + 1, to);
    }
    Ok(freed)
}

// ---- whether a lease ends

/// Returns whether a client's lease ends as time passes from the clients' moment to another one. Where nothing is due it looks at no client. Else it
/// looks at the clients of the chunks in which a lease may end by then, until it finds one.
pub fn has_ended(clients: &Clients, to: u64) -> bool
    requires { clients.now.moment ≤ to }
    ensures { result ≡ list_any (ends_between clients.now.moment to) clients.now.entries }
{
    has_ended_in(clients.board(), clients.next(), clients.moment(), to)
}

/// Returns whether the lease of a client of these chunks ends as time passes from one moment to another.
fn has_ended_in(board: &Board, next: u64, from: u64, to: u64) -> bool
    requires later { from ≤ to }
    requires board { IsBoard from next board.now }
    ensures { result ≡ list_any (ends_between from to) (all_of board.now.chunks.items) }
{
    if to < next {
        return false;
    }
    let mut i = board.next_due(0, to);
    while i < board.len() {
        if has_ended_among(board.clients(i), from, to) {
            return true;
        }
        i = board.next_due(i + 1, to);
    }
    false
}

/// Returns whether the lease of a client of a chunk ends as time passes from one moment to another.
fn has_ended_among(entries: &[ClientEntry], from: u64, to: u64) -> bool
    ensures { result ≡ list_any (ends_between from to) entries.now }
{
    entries.iter().any(|entry| entry.has_time_left(from) && !entry.has_time_left(to))
}
