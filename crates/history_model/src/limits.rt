//! Units, the entries of the tables, and refusals.
ghost use Rattle.std.specs.Prelude.{◌≡◌, ◌+◌, ◌*◌, ◌^◌, ◌<◌, ◌≤◌, ◌++◌, [], length, map, filter, flat_map, max, nat_lt, option_to_list, if◌then◌else◌, IfOk};
ghost use Rattle.std.specs.List.{list_any};
ghost use Rattle.object_ids.specs.Same.{same_bytes, same_client};
ghost use Rattle.history.specs.LeaseCalls.{lease_calls as calls_in};
ghost use Rattle.history.specs.Leases as lease_words;
ghost use Rattle.history.specs.Limits as words;
ghost use Rattle.history.specs.Lists.{distinct};
ghost use Rattle.history.specs.Awaiting.{returned_references as returned_at};
ghost use Rattle.history.specs.Names as name_words;
ghost use Rattle.history.specs.Replies.{ids as ids_of};
ghost use Rattle.history.specs.Table.{place_of as place_at, table as table_of};

use crate::awaiting::{awaiting_references, each_once, returned_references};
use crate::leases::{clients_with_time_left, new_pairs, pairs_with};
use crate::names::{name_bound, names};
use crate::places::{ids, now};
use crate::same::{equal_clients, equal_units};
use crate::table::{call_with, is_effective, lease_calls, place_of, table};
use history::asks::{is_begin, is_end, units_of};
use history::equality::equal_ids;
use history::limits::is_past;
use history::{Ask, Call, CallKind, Event, Limits, Pair, Place, Refused, Returned, SpaceConfig};
use object_ids::{FullKind, Vmid};
use sequence::Units;
use std::alloc::{AllocError, Global};

// ---- units

/// The units of a history.
#[tactic(auto, unfolding(history::specs::Limits::units), using(crate::proofs::ModelSteps::units_steps))]
pub fn units(places: &[Place]) -> u128
    ensures value { result ≡ words.units places.now }
    ensures bound { result ≤ 2 ^ 63 * length places.now }
{
    match places {
        [] => 0,
        [p, before @ ..] => u128::from(units_of(&p.event.ask)) + units(before),
    }
}

fn starts(p: &Place) -> bool
    ensures { result ≡ words.starts p.now }
{
    p.effective && is_begin(&p.event.ask)
}

fn ends(p: &Place) -> bool
    ensures { result ≡ words.ends p.now }
{
    p.effective && is_end(&p.event.ask)
}

fn started_count(places: &[Place]) -> usize
    ensures value { result ≡ length (filter words.starts places.now) }
    ensures bound { result ≤ length places.now }
{
    match places {
        [] => 0,
        [p, before @ ..] => {
            if starts(p) {
                1 + started_count(before)
            } else {
                started_count(before)
            }
        }
    }
}

fn ended_count(places: &[Place]) -> usize
    ensures value { result ≡ length (filter words.ends places.now) }
    ensures bound { result ≤ length places.now }
{
    match places {
        [] => 0,
        [p, before @ ..] => {
            if ends(p) {
                1 + ended_count(before)
            } else {
                ended_count(before)
            }
        }
    }
}

/// The units reserved for running calls.
#[tactic(auto, unfolding(history::specs::Limits::reserved_units))]
pub fn reserved_units(places: &[Place]) -> usize
    ensures { result ≡ words.reserved_units places.now }
{
    started_count(places).saturating_sub(ended_count(places))
}

/// Returns whether the history is full for an event.
#[tactic(auto, unfolding(history::specs::Limits::is_full, history::specs::Table::place_of))]
fn is_full(
    alloc: Global,
    limit: u64,
    config: &SpaceConfig,
    places: &[Place],
    event: &Event,
) -> Result<bool, AllocError>
    ensures { IfOk result (λ full. full ≡ words.is_full limit config.now places.now event.now) }
{
    let effective = is_effective(alloc, config, places, event.by, &event.ask)?;
    let used = units(places) + reserved_units(places) as u128 + u128::from(units_of(&event.ask));
    let starts = effective && is_begin(&event.ask);
    let ends = effective && is_end(&event.ask);
    Ok(is_past(limit, used, starts, ends))
}

/// Returns whether an event starts a call where `limit` or more calls run already.
#[tactic(auto, unfolding(history::specs::Limits::starts_too_many, history::specs::Table::place_of))]
fn starts_too_many(
    alloc: Global,
    limit: u64,
    config: &SpaceConfig,
    places: &[Place],
    event: &Event,
) -> Result<bool, AllocError>
    ensures { IfOk result
        (λ many. many ≡ words.starts_too_many limit config.now places.now event.now) }
{
    let effective = is_effective(alloc, config, places, event.by, &event.ask)?;
    Ok(effective && is_begin(&event.ask) && limit <= reserved_units(places) as u64)
}

// ---- entries

/// Returns the number of objects that an event exports.
fn exported_by(
    alloc: Global,
    config: &SpaceConfig,
    places: &[Place],
    event: &Event,
) -> Result<usize, AllocError>
    ensures value { IfOk result
        (λ count. count ≡ length (place_at config.now places.now event.now).exported_here) }
    ensures bound { IfOk result (λ count. count < 2 ^ 61) }
{
    let p = place_of(alloc, config, places, event)?;
    Ok(p.exported_here.as_slice().len())
}

/// Returns the number of exported objects, with those that an event adds.
#[tactic(auto, unfolding(history::specs::Limits::exports_with_event))]
fn exports_with_event(
    alloc: Global,
    config: &SpaceConfig,
    places: &[Place],
    event: &Event,
) -> Result<usize, AllocError>
    ensures { IfOk result
        (λ count. count ≡ words.exports_with_event config.now places.now event.now) }
{
    let more = exported_by(alloc, config, places, event)?;
    let objects = table(alloc, config, places)?;
    Ok(objects.as_slice().len() + more)
}

/// The moment of an event's place, and the references that it returns.
fn moment_and_returned(
    alloc: Global,
    config: &SpaceConfig,
    places: &[Place],
    event: &Event,
) -> Result<(u64, Vec<Returned>), AllocError>
    ensures moment { IfOk result
        (λ both. both.0 ≡ (place_at config.now places.now event.now).moment) }
    ensures returned { IfOk result
        (λ both. both.1.items ≡ returned_at (place_at config.now places.now event.now)) }
{
    let p = place_of(alloc, config, places, event)?;
    let new = returned_references(alloc, &p)?;
    Ok((p.moment, new))
}

/// Returns the number of references that await, with those that an event returns.
#[tactic(auto, unfolding(history::specs::Limits::awaiting_with_event))]
fn awaiting_with_event(
    alloc: Global,
    config: &SpaceConfig,
    places: &[Place],
    event: &Event,
) -> Result<usize, AllocError>
    ensures { IfOk result
        (λ count. count ≡ words.awaiting_with_event config.now places.now event.now) }
{
    let (moment, mut new) = moment_and_returned(alloc, config, places, event)?;
    let mut all = awaiting_references(alloc, config.ack_ms, moment, places)?;
    all.append(&mut new)?;
    let once = each_once(alloc, all.as_slice())?;
    Ok(once.as_slice().len())
}

/// The lease call of an event, with those of its objects that are in the table.
fn lease_call(
    alloc: Global,
    config: &SpaceConfig,
    places: &[Place],
    event: &Event,
) -> Result<Option<Call>, AllocError>
    ensures { IfOk result
        (λ call. option_to_list call ≡ words.lease_call config.now places.now event.now) }
{
    let objects = table(alloc, config, places)?;
    let moment = event.moment.max(now(places));
    call_with(alloc, objects.as_slice(), moment, &event.ask)
}

fn is_client_among(client: &Vmid, clients: &[Vmid]) -> bool
    ensures { result ≡ list_any (same_client client.now) clients.now }
{
    clients.iter().any(|c| equal_clients(client, c))
}

fn distinct_clients(clients: &[Vmid]) -> usize
    ensures value { result ≡ length (distinct same_client clients.now) }
    ensures bound { result ≤ length clients.now }
{
    match clients {
        [] => 0,
        [client, rest @ ..] => {
            if is_client_among(client, rest) {
                distinct_clients(rest)
            } else {
                1 + distinct_clients(rest)
            }
        }
    }
}

/// Clients and the one that a dirty of these calls has.
fn with_dirty(
    alloc: Global,
    clients: Vec<Vmid>,
    call: Option<Call>,
) -> Result<Vec<Vmid>, AllocError>
    ensures { IfOk result (λ more. more.items
        ≡ clients.items
        ++ map (λ x. x.client) (filter lease_words.is_dirty (option_to_list call))) }
{
    let mut more = clients;
    match call {
        None => Ok(more),
        Some(call) => {
            if matches!(call.kind, CallKind::Dirty) {
                more.push(call.client.copy(alloc)?)?;
                Ok(more)
            } else {
                Ok(more)
            }
        }
    }
}

/// The clients that have time left at a moment.
fn clients_left(
    alloc: Global,
    config: &SpaceConfig,
    places: &[Place],
    moment: u64,
) -> Result<Vec<Vmid>, AllocError>
    ensures { IfOk result (λ left. left.items
        ≡ lease_words.clients_with_time_left config.now.lease_ms moment (calls_in places.now)) }
{
    let calls = lease_calls(alloc, places)?;
    let left = clients_with_time_left(alloc, config.lease_ms, moment, calls.as_slice())?;
    Ok(left)
}

/// Returns the number of clients that have time left, with the one that an event brings.
#[tactic(auto, unfolding(history::specs::Limits::clients_with_event))]
fn clients_with_event(
    alloc: Global,
    config: &SpaceConfig,
    places: &[Place],
    event: &Event,
) -> Result<usize, AllocError>
    ensures { IfOk result
        (λ count. count ≡ words.clients_with_event config.now places.now event.now) }
{
    let moment = event.moment.max(now(places));
    let left = clients_left(alloc, config, places, moment)?;
    let call = lease_call(alloc, config, places, event)?;
    let all = with_dirty(alloc, left, call)?;
    Ok(distinct_clients(all.as_slice()))
}

fn equal_pairs(a: &Pair, b: &Pair) -> bool
    ensures { result ≡ lease_words.same_pair a.now b.now }
{
    equal_clients(&a.client, &b.client) && equal_ids(a.object, b.object)
}

fn is_pair_among(pair: &Pair, pairs: &[Pair]) -> bool
    ensures { result ≡ list_any (lease_words.same_pair pair.now) pairs.now }
{
    pairs.iter().any(|p| equal_pairs(pair, p))
}

fn distinct_pairs(pairs: &[Pair]) -> usize
    ensures value { result ≡ length (distinct lease_words.same_pair pairs.now) }
    ensures bound { result ≤ length pairs.now }
{
    match pairs {
        [] => 0,
        [pair, rest @ ..] => {
            if is_pair_among(pair, rest) {
                distinct_pairs(rest)
            } else {
                1 + distinct_pairs(rest)
            }
        }
    }
}

/// The pairs that a call brings, if there is one.
fn pairs_brought(
    alloc: Global,
    lease: u64,
    calls: &[Call],
    call: Option<Call>,
) -> Result<Vec<Pair>, AllocError>
    ensures { IfOk result (λ pairs.
        pairs.items ≡ flat_map (lease_words.new_pairs lease calls.now) (option_to_list call)) }
{
    match call {
        None => Ok(Vec::new(alloc)),
        Some(call) => {
            let pairs = new_pairs(alloc, lease, calls, &call)?;
            Ok(pairs)
        }
    }
}

/// The pairs with objects of the table that are remembered at a moment.
fn pairs_remembered(
    alloc: Global,
    config: &SpaceConfig,
    places: &[Place],
    moment: u64,
    calls: &[Call],
) -> Result<Vec<Pair>, AllocError>
    ensures { IfOk result (λ pairs. pairs.items
        ≡ lease_words.pairs_with config.now.lease_ms moment calls.now
        (ids_of (table_of config.now places.now))) }
{
    let objects = table(alloc, config, places)?;
    let objects = ids(alloc, objects.as_slice())?;
    let pairs = pairs_with(alloc, config.lease_ms, moment, calls, objects.as_slice())?;
    Ok(pairs)
}

/// The pairs that an event brings after these calls.
fn pairs_of_event(
    alloc: Global,
    config: &SpaceConfig,
    places: &[Place],
    event: &Event,
    calls: &[Call],
) -> Result<Vec<Pair>, AllocError>
    ensures { IfOk result (λ pairs. pairs.items
        ≡ flat_map (lease_words.new_pairs config.now.lease_ms calls.now)
        (words.lease_call config.now places.now event.now)) }
{
    let call = lease_call(alloc, config, places, event)?;
    pairs_brought(alloc, config.lease_ms, calls, call)
}

/// Returns the number of remembered pairs, with those that an event brings.
#[tactic(auto, unfolding(history::specs::Limits::pairs_with_event))]
fn pairs_with_event(
    alloc: Global,
    config: &SpaceConfig,
    places: &[Place],
    event: &Event,
) -> Result<usize, AllocError>
    ensures { IfOk result
        (λ count. count ≡ words.pairs_with_event config.now places.now event.now) }
{
    let calls = lease_calls(alloc, places)?;
    let moment = event.moment.max(now(places));
    let mut all = pairs_remembered(alloc, config, places, moment, calls.as_slice())?;
    let mut new = pairs_of_event(alloc, config, places, event, calls.as_slice())?;
    all.append(&mut new)?;
    Ok(distinct_pairs(all.as_slice()))
}

fn is_name_among(name: &Units, names: &[Units]) -> bool
    ensures { result ≡ list_any (same_bytes name.now) names.now }
{
    names
        .iter()
        .any(|n| equal_units(name.as_slice(), n.as_slice()))
}

fn distinct_names(names: &[Units]) -> usize
    ensures value { result ≡ length (distinct same_bytes names.now) }
    ensures bound { result ≤ length names.now }
{
    match names {
        [] => 0,
        [name, rest @ ..] => {
            if is_name_among(name, rest) {
                distinct_names(rest)
            } else {
                1 + distinct_names(rest)
            }
        }
    }
}

fn with_bound(
    alloc: Global,
    effective: bool,
    names: Vec<Units>,
    ask: &Ask,
) -> Result<Vec<Units>, AllocError>
    ensures { IfOk result (λ more. more.items
        ≡ names.items
        ++ (if effective then option_to_list (name_words.name_bound ask.now) else [])) }
{
    if !effective {
        return Ok(names);
    }
    let mut more = names;
    if let Some(name) = name_bound(ask) {
        more.push(name.units().copy(alloc)?)?;
    }
    Ok(more)
}

/// Returns the number of names that stand for something, with the one that an event binds.
#[tactic(auto, unfolding(history::specs::Limits::names_with_event, history::specs::Table::place_of))]
fn names_with_event(
    alloc: Global,
    config: &SpaceConfig,
    places: &[Place],
    event: &Event,
) -> Result<usize, AllocError>
    ensures { IfOk result
        (λ count. count ≡ words.names_with_event config.now places.now event.now) }
{
    let effective = is_effective(alloc, config, places, event.by, &event.ask)?;
    let bound = names(alloc, places)?;
    let all = with_bound(alloc, effective, bound, &event.ask)?;
    Ok(distinct_names(all.as_slice()))
}

// ---- refusal

fn is_above(count: usize, limit: u64) -> bool
    ensures { result ≡ nat_lt limit count }
{
    limit < count as u64
}

/// The first cause for which an event is refused after a history.
#[tactic(auto, unfolding(history::specs::Limits::refusal))]
pub fn refusal(
    alloc: Global,
    limits: &Limits,
    config: &SpaceConfig,
    places: &[Place],
    event: &Event,
) -> Result<Option<Refused>, AllocError>
    ensures { IfOk result
        (λ refused. refused ≡ words.refusal limits.now config.now places.now event.now) }
{
    if is_full(alloc, limits.units, config, places, event)? {
        return Ok(Some(Refused::HistoryFull));
    }
    if starts_too_many(alloc, limits.running, config, places, event)? {
        return Ok(Some(Refused::HistoryFull));
    }
    if is_above(
        exports_with_event(alloc, config, places, event)?,
        limits.exports,
    ) {
        return Ok(Some(Refused::Full(FullKind::Exports)));
    }
    if is_above(
        awaiting_with_event(alloc, config, places, event)?,
        limits.awaiting,
    ) {
        return Ok(Some(Refused::Full(FullKind::Awaiting)));
    }
    if is_above(
        clients_with_event(alloc, config, places, event)?,
        limits.clients,
    ) {
        return Ok(Some(Refused::Full(FullKind::Clients)));
    }
    if is_above(
        pairs_with_event(alloc, config, places, event)?,
        limits.pairs,
    ) {
        return Ok(Some(Refused::Full(FullKind::Pairs)));
    }
    if is_above(
        names_with_event(alloc, config, places, event)?,
        limits.names,
    ) {
        return Ok(Some(Refused::Full(FullKind::Names)));
    }
    Ok(None)
}
