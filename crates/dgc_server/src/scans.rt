//! Searches and sums over the clients. Those over all clients go chunk by chunk.
ghost use Rattle.std.specs.Prelude.{◌≡◌, ◌<◌, ◌≤◌, ◌↔◌, length, filter, map, IfOk, IsTrue};
ghost use Rattle.std.specs.List.{list_any, list_all};
ghost use Rattle.history.specs.declared.limits.TheConstants.{MAX_CLIENTS, MAX_PAIRS};
ghost use Rattle.dgc_server.specs.Entry.{each_has_number, entry_holds, has_time_left, row_of};
ghost use Rattle.dgc_server.specs.StandsForCalls.{is_in_order};
ghost use Rattle.dgc_server.specs.HolderIndex.{sums_at};
ghost use Rattle.dgc_server.specs.Chunks.{all_of, IsBoard};
ghost use Rattle.dgc_server.specs.Table.{entry_of, clients_after, fresh_pairs, pairs_after};
ghost use Rattle.dgc_server.specs.Table.{remembered_count as remembered_at};

use crate::board::Board;
use crate::clients::Clients;
use crate::marks::{Marks, counts_for, fresh_count};
use crate::table::{self, Sums};
use history::limits::{MAX_CLIENTS, MAX_PAIRS};
use history::{CallKind, LeaseList};
use object_ids::{ObjId, Vmid};
use std::alloc::{AllocError, Global};

/// The number of clients of which something is kept.
pub fn len(clients: &Clients) -> u128
    ensures { result ≡ length clients.now.entries }
{
    let chunks = clients.chunks();
    let mut sum: u128 = 0;
    for chunk in chunks {
        sum += chunk.entries.len() as u128;
    }
    sum
}

/// True where some client holds an object.
pub fn is_held(clients: &Clients, object: &ObjId, time: u64) -> bool
    ensures { result ≡ list_any (entry_holds time object.now) clients.now.entries }
{
    let chunks = clients.chunks();
    for chunk in chunks {
        if table::is_held(&chunk.entries, object, time) {
            return true;
        }
    }
    false
}

/// The number of clients that hold an object.
pub fn holders(clients: &Clients, object: &ObjId, time: u64) -> u128
    ensures { result ≡ length (filter (entry_holds time object.now) clients.now.entries) }
{
    let chunks = clients.chunks();
    let mut sum: u128 = 0;
    for chunk in chunks {
        sum += table::holders(&chunk.entries, object, time) as u128;
    }
    sum
}

/// The sums over all clients at a moment that is no earlier than their own, where `sums` are those at their own. It looks at the clients of the
/// chunks in which a lease may end by then.
pub fn sums_by(clients: &Clients, sums: Sums, time: u64) -> Sums
    requires later { clients.now.moment ≤ time }
    requires numbered { IsTrue (list_all (λ e. each_has_number e.objects) clients.now.entries) }
    requires sums { sums ≡ sums_at clients.now.moment clients.now.entries }
    ensures { result ≡ sums_at time clients.now.entries }
{
    sums_in(
        clients.board(),
        sums,
        clients.next(),
        clients.moment(),
        time,
    )
}

/// The sums over the clients of these chunks at the moment `to`, where `sums` are those at `from`. It passes over chunks in which nothing is due.
fn sums_in(board: &Board, sums: Sums, next: u64, from: u64, to: u64) -> Sums
    requires later { from ≤ to }
    requires numbered { IsTrue
        (list_all (λ e. each_has_number e.objects) (all_of board.now.chunks.items)) }
    requires sums { sums ≡ sums_at from (all_of board.now.chunks.items) }
    requires board { IsBoard from next board.now }
    ensures { result ≡ sums_at to (all_of board.now.chunks.items) }
{
    if to < next {
        return sums;
    }
    let mut so_far = sums;
    let mut i = board.next_due(0, to);
    while i < board.len() {
        so_far = table::sums_after(so_far, board.clients(i), from, to);
        i = board.next_due(i + 1, to);
    }
    so_far
}

/// The clients with time left, in order, with the ends of their leases.
pub fn rows(alloc: Global, clients: &Clients, time: u64) -> Result<LeaseList, AllocError>
    ensures { IfOk result
        (λ rows. rows ≡ map row_of (filter (has_time_left time) clients.now.entries)) }
{
    let chunks = clients.chunks();
    let mut rows = LeaseList::new(alloc);
    for chunk in chunks {
        table::append_rows(alloc, &mut rows, &chunk.entries, time)?;
    }
    Ok(rows)
}

// ---- one client

/// Returns whether a client has time left.
fn is_leased(clients: &Clients, client: &Vmid, time: u64) -> bool
    requires { IsTrue (is_in_order clients.now.entries) }
    ensures { result ≡ has_time_left time (entry_of clients.now.entries client.now) }
{
    match clients.find(client) {
        Some(entry) => entry.has_time_left(time),
        None => false,
    }
}

/// Returns the number of clients that have time left after a dirty of this one, where so many have now.
fn clients_after(clients: &Clients, client: &Vmid, time: u64, leased: usize) -> usize
    requires ordered { IsTrue (is_in_order clients.now.entries) }
    requires counted { leased ≡ length (filter (has_time_left time) clients.now.entries) }
    requires few { leased ≤ MAX_CLIENTS }
    ensures { result ≡ clients_after clients.now.entries client.now time }
{
    if is_leased(clients, client, time) {
        leased
    } else {
        leased + 1
    }
}

/// True where more clients have time left after a dirty of this one than can be, where so many have now. It looks for the client only where as
/// many have as can be.
pub fn is_past_clients(clients: &Clients, client: &Vmid, time: u64, leased: usize) -> bool
    requires ordered { IsTrue (is_in_order clients.now.entries) }
    requires counted { leased ≡ length (filter (has_time_left time) clients.now.entries) }
    requires few { leased ≤ MAX_CLIENTS }
    ensures { IsTrue result ↔ (MAX_CLIENTS < clients_after clients.now.entries client.now time) }
{
    leased as u64 >= MAX_CLIENTS
        && clients_after(clients, client, time, leased) as u64 > MAX_CLIENTS
}

/// Returns the number of pairs that a call of this kind brings and that were not remembered.
fn fresh_pairs(
    alloc: Global,
    clients: &Clients,
    client: &Vmid,
    kind: CallKind,
    named: &[ObjId],
    time: u64,
) -> usize
    requires { IsTrue (is_in_order clients.now.entries) }
    ensures { result ≡ fresh_pairs time clients.now.entries client.now kind named.now }
{
    match clients.find(client) {
        Some(entry) if counts_for(kind, entry.has_time_left(time)) => {
            entry.fresh_among(alloc, named, time)
        }
        Some(_) => 0,
        None if counts_for(kind, false) => fresh_count(alloc, &Marks::new(alloc), named, false),
        None => 0,
    }
}

/// Returns the number of pairs that are remembered after a call of this kind, where so many are now.
fn pairs_after(
    alloc: Global,
    clients: &Clients,
    client: &Vmid,
    kind: CallKind,
    named: &[ObjId],
    time: u64,
    remembered: u128,
) -> u128
    requires ordered { IsTrue (is_in_order clients.now.entries) }
    requires counted { remembered ≡ remembered_at time clients.now.entries }
    requires few { remembered ≤ MAX_PAIRS }
    ensures { result ≡ pairs_after time clients.now.entries client.now kind named.now }
{
    remembered + fresh_pairs(alloc, clients, client, kind, named, time) as u128
}

/// True where more pairs are remembered after a call of this kind than can be, where so many are now. It looks for the client only where there would
/// be more if it named none of these objects before.
pub fn is_past_pairs(
    alloc: Global,
    clients: &Clients,
    client: &Vmid,
    kind: CallKind,
    named: &[ObjId],
    time: u64,
    remembered: u128,
) -> bool
    requires ordered { IsTrue (is_in_order clients.now.entries) }
    requires counted { remembered ≡ remembered_at time clients.now.entries }
    requires few { remembered ≤ MAX_PAIRS }
    ensures { IsTrue result
        ↔ (MAX_PAIRS < pairs_after time clients.now.entries client.now kind named.now) }
{
    let most = MAX_PAIRS as u128;
    remembered + named.len() as u128 > most
        && pairs_after(alloc, clients, client, kind, named, time, remembered) > most
}
