//! Leases, computed from slices of lease calls with the newest first. `own` has the calls of one client alone.
ghost use Rattle.std.specs.Prelude.{◌≡◌, ◌∷◌, filter, flat_map, IfOk};
ghost use Rattle.std.specs.List.{list_any};
ghost use Rattle.object_ids.specs.Client.{client_cmp};
ghost use Rattle.history.specs.Lists.{with_item};
ghost use Rattle.history.specs.Leases as words;

use crate::same::equal_clients;
use history::equality::equal_ids;
use history::{Call, CallKind, Pair, grant};
use object_ids::{ObjId, Vmid};
use sequence::TryCopy;
use std::alloc::{AllocError, Global};
use std::cmp::Ordering;

// ---- one call

fn is_dirty(x: &Call) -> bool
    ensures { result ≡ words.is_dirty x.now }
{
    matches!(x.kind, CallKind::Dirty)
}

fn is_strong(x: &Call) -> bool
    ensures { result ≡ words.is_strong x.now }
{
    matches!(x.kind, CallKind::Strong)
}

fn is_naming(object: ObjId, x: &Call) -> bool
    ensures { result ≡ words.is_naming object x.now }
{
    x.objects.as_slice().iter().any(|y| equal_ids(*y, object))
}

/// Returns the moment at which what a dirty was granted ends.
fn grant_end(lease: u64, x: &Call) -> u128
    ensures { result ≡ words.grant_end lease x.now }
{
    u128::from(x.moment) + u128::from(grant(lease, x.asked))
}

fn is_higher(x: &Call, y: &Call) -> bool
    ensures { result ≡ words.is_higher x.now y.now }
{
    y.number < x.number || (y.number == x.number && is_dirty(y) && !is_dirty(x))
}

// ---- the calls of one client

/// Returns the moment at which the client's lease ends, 0 where it sent no dirty.
#[tactic(auto, unfolding(history::specs::Leases::lease_end))]
pub fn lease_end(lease: u64, own: &[Call]) -> u128
    ensures { result ≡ words.lease_end lease own.now }
{
    match own {
        [] => 0,
        [x, before @ ..] => {
            let end = lease_end(lease, before);
            if is_dirty(x) {
                grant_end(lease, x).max(end)
            } else {
                end
            }
        }
    }
}

/// Returns whether the client has time left at a moment.
pub fn has_time_left(lease: u64, time: u64, own: &[Call]) -> bool
    ensures { result ≡ words.has_time_left lease time own.now }
{
    u128::from(time) < lease_end(lease, own)
}

/// The tenure of the client.
#[tactic(auto, unfolding(history::specs::Leases::tenure))]
pub fn tenure(alloc: Global, lease: u64, own: &[Call]) -> Result<Vec<Call>, AllocError>
    ensures { IfOk result (λ calls. calls.items ≡ words.tenure lease own.now) }
{
    match own {
        [] => Ok(Vec::new(alloc)),
        [x, before @ ..] => {
            if has_time_left(lease, x.moment, before) {
                let mut calls = tenure(alloc, lease, before)?;
                calls.insert(0, x.copy(alloc)?)?;
                Ok(calls)
            } else if is_dirty(x) {
                let mut calls = Vec::new(alloc);
                calls.push(x.copy(alloc)?)?;
                Ok(calls)
            } else {
                tenure(alloc, lease, before)
            }
        }
    }
}

/// The strong cleans of the client.
pub fn strong_cleans(alloc: Global, own: &[Call]) -> Result<Vec<Call>, AllocError>
    ensures { IfOk result (λ calls. calls.items ≡ words.strong_cleans own.now) }
{
    match own {
        [] => Ok(Vec::new(alloc)),
        [x, before @ ..] => {
            let mut calls = strong_cleans(alloc, before)?;
            if is_strong(x) {
                calls.insert(0, x.copy(alloc)?)?;
            }
            Ok(calls)
        }
    }
}

/// Those of some calls that name an object.
fn calls_naming(alloc: Global, object: ObjId, calls: &[Call]) -> Result<Vec<Call>, AllocError>
    ensures { IfOk result (λ named. named.items ≡ filter (words.is_naming object) calls.now) }
{
    match calls {
        [] => Ok(Vec::new(alloc)),
        [x, before @ ..] => {
            let mut named = calls_naming(alloc, object, before)?;
            if is_naming(object, x) {
                named.insert(0, x.copy(alloc)?)?;
            }
            Ok(named)
        }
    }
}

/// The calls of the client that count for an object.
#[tactic(auto, unfolding(history::specs::Leases::counting_calls))]
pub fn counting_calls(
    alloc: Global,
    lease: u64,
    own: &[Call],
    object: ObjId,
) -> Result<Vec<Call>, AllocError>
    ensures { IfOk result (λ calls. calls.items ≡ words.counting_calls lease own.now object) }
{
    let mut calls = tenure(alloc, lease, own)?;
    let mut strong = strong_cleans(alloc, own)?;
    calls.append(&mut strong)?;
    calls_naming(alloc, object, calls.as_slice())
}

fn some_is_higher(x: &Call, calls: &[Call]) -> bool
    ensures { result ≡ list_any (λ y. words.is_higher y x.now) calls.now }
{
    calls.iter().any(|y| is_higher(y, x))
}

fn is_highest(x: &Call, calls: &[Call]) -> bool
    ensures { result ≡ words.is_highest calls.now x.now }
{
    !some_is_higher(x, calls)
}

/// Returns whether the highest of some calls is a dirty.
#[tactic(auto, unfolding(history::specs::Leases::highest_is_dirty))]
pub fn highest_is_dirty(calls: &[Call]) -> bool
    ensures { result ≡ words.highest_is_dirty calls.now }
{
    calls
        .iter()
        .filter(|x| is_highest(x, calls))
        .any(|x| is_dirty(x))
}

/// Returns whether the client holds an object at a moment.
#[tactic(auto, unfolding(history::specs::Leases::holds))]
pub fn holds(
    alloc: Global,
    lease: u64,
    time: u64,
    own: &[Call],
    object: ObjId,
) -> Result<bool, AllocError>
    ensures { IfOk result (λ held. held ≡ words.holds lease time own.now object) }
{
    let calls = counting_calls(alloc, lease, own, object)?;
    Ok(has_time_left(lease, time, own) && highest_is_dirty(calls.as_slice()))
}

fn some_name(object: ObjId, calls: &[Call]) -> bool
    ensures { result ≡ list_any (words.is_naming object) calls.now }
{
    calls.iter().any(|x| is_naming(object, x))
}

/// Returns whether the client's pair with an object is remembered at a moment.
#[tactic(auto, unfolding(history::specs::Leases::is_remembered))]
pub fn is_remembered(
    alloc: Global,
    lease: u64,
    time: u64,
    own: &[Call],
    object: ObjId,
) -> Result<bool, AllocError>
    ensures { IfOk result
        (λ remembered. remembered ≡ words.is_remembered lease time own.now object) }
{
    let calls = tenure(alloc, lease, own)?;
    let strong = strong_cleans(alloc, own)?;
    let in_tenure = has_time_left(lease, time, own) && some_name(object, calls.as_slice());
    Ok(in_tenure || some_name(object, strong.as_slice()))
}

// ---- the calls of all clients

/// Calls with a copy of one more in front.
fn with_call(alloc: Global, x: &Call, calls: Vec<Call>) -> Result<Vec<Call>, AllocError>
    ensures { IfOk result (λ more. more.items ≡ x.now ∷ calls.items) }
{
    let copy = x.copy(alloc)?;
    let mut more = calls;
    more.insert(0, copy)?;
    Ok(more)
}

/// The calls of a client.
#[tactic(auto, unfolding(history::specs::Leases::calls_of))]
pub fn calls_of(alloc: Global, client: &Vmid, calls: &[Call]) -> Result<Vec<Call>, AllocError>
    ensures { IfOk result (λ own. own.items ≡ words.calls_of client.now calls.now) }
{
    match calls {
        [] => Ok(Vec::new(alloc)),
        [x, before @ ..] => {
            let own = calls_of(alloc, client, before)?;
            if equal_clients(&x.client, client) {
                with_call(alloc, x, own)
            } else {
                Ok(own)
            }
        }
    }
}

/// Clients with a copy of one more in front.
fn in_front(alloc: Global, client: &Vmid, clients: Vec<Vmid>) -> Result<Vec<Vmid>, AllocError>
    ensures { IfOk result (λ more. more.items ≡ client.now ∷ clients.items) }
{
    let copy = client.copy(alloc)?;
    let mut more = clients;
    more.insert(0, copy)?;
    Ok(more)
}

/// Clients in order, with one more.
fn with_client(alloc: Global, client: &Vmid, clients: &[Vmid]) -> Result<Vec<Vmid>, AllocError>
    ensures { IfOk result (λ more. more.items ≡ with_item client_cmp client.now clients.now) }
{
    match clients {
        [] => in_front(alloc, client, Vec::new(alloc)),
        [first, rest @ ..] => match client.compare(first) {
            Ordering::Less => {
                let all = Vmid::try_copy_all(alloc, clients)?;
                in_front(alloc, client, all)
            }
            Ordering::Equal => Vmid::try_copy_all(alloc, clients),
            Ordering::Greater => {
                let more = with_client(alloc, client, rest)?;
                in_front(alloc, first, more)
            }
        },
    }
}

/// The clients that sent some calls, in order, each once.
#[tactic(auto, unfolding(history::specs::Leases::clients))]
pub fn clients(alloc: Global, calls: &[Call]) -> Result<Vec<Vmid>, AllocError>
    ensures { IfOk result (λ all. all.items ≡ words.clients calls.now) }
{
    match calls {
        [] => Ok(Vec::new(alloc)),
        [x, before @ ..] => {
            let all = clients(alloc, before)?;
            with_client(alloc, &x.client, all.as_slice())
        }
    }
}

/// Returns whether a client has time left at a moment.
fn client_has_time(
    alloc: Global,
    lease: u64,
    time: u64,
    calls: &[Call],
    client: &Vmid,
) -> Result<bool, AllocError>
    ensures { IfOk result
        (λ left. left ≡ words.has_time_left lease time (words.calls_of client.now calls.now)) }
{
    let own = calls_of(alloc, client, calls)?;
    Ok(has_time_left(lease, time, own.as_slice()))
}

/// Those of some clients that have time left at a moment.
fn with_time_left(
    alloc: Global,
    lease: u64,
    time: u64,
    calls: &[Call],
    clients: &[Vmid],
) -> Result<Vec<Vmid>, AllocError>
    ensures { IfOk result (λ left. left.items
        ≡ filter (λ c. words.has_time_left lease time (words.calls_of c calls.now)) clients.now) }
{
    match clients {
        [] => Ok(Vec::new(alloc)),
        [client, rest @ ..] => {
            let has_time = client_has_time(alloc, lease, time, calls, client)?;
            let left = with_time_left(alloc, lease, time, calls, rest)?;
            if has_time {
                in_front(alloc, client, left)
            } else {
                Ok(left)
            }
        }
    }
}

/// The clients that have time left at a moment.
#[tactic(auto, unfolding(history::specs::Leases::clients_with_time_left))]
pub fn clients_with_time_left(
    alloc: Global,
    lease: u64,
    time: u64,
    calls: &[Call],
) -> Result<Vec<Vmid>, AllocError>
    ensures { IfOk result (λ left. left.items ≡ words.clients_with_time_left lease time calls.now) }
{
    let all = clients(alloc, calls)?;
    with_time_left(alloc, lease, time, calls, all.as_slice())
}

/// Returns whether one of some clients holds an object at a moment.
fn some_hold(
    alloc: Global,
    lease: u64,
    time: u64,
    calls: &[Call],
    object: ObjId,
    clients: &[Vmid],
) -> Result<bool, AllocError>
    ensures { IfOk result (λ held. held ≡ list_any
        (λ c. words.holds lease time (words.calls_of c calls.now) object) clients.now) }
{
    match clients {
        [] => Ok(false),
        [client, rest @ ..] => {
            let own = calls_of(alloc, client, calls)?;
            if holds(alloc, lease, time, own.as_slice(), object)? {
                return Ok(true);
            }
            some_hold(alloc, lease, time, calls, object, rest)
        }
    }
}

/// Returns whether some client holds an object at a moment.
#[tactic(auto, unfolding(history::specs::Leases::is_held))]
pub fn is_held(
    alloc: Global,
    lease: u64,
    time: u64,
    calls: &[Call],
    object: ObjId,
) -> Result<bool, AllocError>
    ensures { IfOk result (λ held. held ≡ words.is_held lease time calls.now object) }
{
    let all = clients(alloc, calls)?;
    some_hold(alloc, lease, time, calls, object, all.as_slice())
}

// ---- pairs

/// A client with each of these objects.
fn pairs_of(alloc: Global, client: &Vmid, objects: &[ObjId]) -> Result<Vec<Pair>, AllocError>
    ensures { IfOk result (λ pairs. pairs.items ≡ words.pairs_of client.now objects.now) }
{
    match objects {
        [] => Ok(Vec::new(alloc)),
        [object, rest @ ..] => {
            let mut pairs = pairs_of(alloc, client, rest)?;
            let pair = Pair {
                client: client.copy(alloc)?,
                object: *object,
            };
            pairs.insert(0, pair)?;
            Ok(pairs)
        }
    }
}

/// Those of some objects whose pair with the client of these calls is remembered.
fn remembered_objects(
    alloc: Global,
    lease: u64,
    time: u64,
    own: &[Call],
    objects: &[ObjId],
) -> Result<Vec<ObjId>, AllocError>
    ensures { IfOk result
        (λ kept. kept.items ≡ filter (words.is_remembered lease time own.now) objects.now) }
{
    match objects {
        [] => Ok(Vec::new(alloc)),
        [object, rest @ ..] => {
            let mut kept = remembered_objects(alloc, lease, time, own, rest)?;
            if is_remembered(alloc, lease, time, own, *object)? {
                kept.insert(0, *object)?;
            }
            Ok(kept)
        }
    }
}

/// The remembered pairs of a client with some objects.
fn pairs_of_client(
    alloc: Global,
    lease: u64,
    time: u64,
    calls: &[Call],
    objects: &[ObjId],
    client: &Vmid,
) -> Result<Vec<Pair>, AllocError>
    ensures { IfOk result (λ pairs. pairs.items
        ≡ words.pairs_of client.now
        (filter (words.is_remembered lease time (words.calls_of client.now calls.now))
        objects.now)) }
{
    let own = calls_of(alloc, client, calls)?;
    let kept = remembered_objects(alloc, lease, time, own.as_slice(), objects)?;
    pairs_of(alloc, client, kept.as_slice())
}

/// The remembered pairs of some clients with some objects.
fn pairs_among(
    alloc: Global,
    lease: u64,
    time: u64,
    calls: &[Call],
    objects: &[ObjId],
    clients: &[Vmid],
) -> Result<Vec<Pair>, AllocError>
    ensures { IfOk result (λ pairs. pairs.items
        ≡ flat_map (λ c. words.pairs_of c
        (filter (words.is_remembered lease time (words.calls_of c calls.now)) objects.now))
        clients.now) }
{
    match clients {
        [] => Ok(Vec::new(alloc)),
        [client, rest @ ..] => {
            let mut pairs = pairs_of_client(alloc, lease, time, calls, objects, client)?;
            let mut others = pairs_among(alloc, lease, time, calls, objects, rest)?;
            pairs.append(&mut others)?;
            Ok(pairs)
        }
    }
}

/// The remembered pairs with some objects at a moment.
#[tactic(auto, unfolding(history::specs::Leases::pairs_with))]
pub fn pairs_with(
    alloc: Global,
    lease: u64,
    time: u64,
    calls: &[Call],
    objects: &[ObjId],
) -> Result<Vec<Pair>, AllocError>
    ensures { IfOk result
        (λ pairs. pairs.items ≡ words.pairs_with lease time calls.now objects.now) }
{
    let all = clients(alloc, calls)?;
    pairs_among(alloc, lease, time, calls, objects, all.as_slice())
}

/// The pairs that a call brings.
#[tactic(auto, unfolding(history::specs::Leases::new_pairs))]
pub fn new_pairs(
    alloc: Global,
    lease: u64,
    calls: &[Call],
    x: &Call,
) -> Result<Vec<Pair>, AllocError>
    ensures { IfOk result (λ pairs. pairs.items ≡ words.new_pairs lease calls.now x.now) }
{
    let own = calls_of(alloc, &x.client, calls)?;
    if is_dirty(x) || is_strong(x) || has_time_left(lease, x.moment, own.as_slice()) {
        pairs_of(alloc, &x.client, x.objects.as_slice())
    } else {
        Ok(Vec::new(alloc))
    }
}
