//! The outline of a history by the definitions.
use crate::histories::CONNECTIONS;
use history::{Exported, Name, Place, SpaceConfig};
use history_model::awaiting::awaiting_references;
use history_model::leases::{calls_of, clients, clients_with_time_left, holds, lease_end};
use history_model::limits::units;
use history_model::names::{names, stands_for};
use history_model::places::now;
use history_model::running::running_calls_by;
use history_model::table::{lease_calls, table};
use history_model::turns::withdrawals;
use journal::ObjectRow;
use journal::outline::{
    put_events_line, put_lease_line, put_name_line, put_object_line, put_withdrawal_line,
};
use object_ids::ObjId;
use sequence::{ByteList, Same};
use std::alloc::{AllocError, Global};

/// The outline of these places.
pub(crate) fn defined_outline(
    alloc: Global,
    config: &SpaceConfig,
    places: &[Place],
) -> Result<ByteList, AllocError> {
    let mut text = ByteList::new(alloc);
    let used = u64::try_from(units(places)).unwrap_or(u64::MAX);
    put_events_line(&mut text, places.len() as u64, used, now(places))?;
    put_objects(alloc, config, places, &mut text)?;
    put_leases(alloc, config, places, &mut text)?;
    put_names(alloc, config, places, &mut text)?;
    put_withdrawals(alloc, config, places, &mut text)?;
    Ok(text)
}

fn put_objects(
    alloc: Global,
    config: &SpaceConfig,
    places: &[Place],
    text: &mut ByteList,
) -> Result<(), AllocError> {
    let objects = table(alloc, config, places)?;
    for x in objects.as_slice() {
        let row = row_of(alloc, config, places, x)?;
        put_object_line(text, *config, &row)?;
    }
    Ok(())
}

fn row_of(
    alloc: Global,
    config: &SpaceConfig,
    places: &[Place],
    x: &Exported,
) -> Result<ObjectRow, AllocError> {
    Ok(ObjectRow {
        object: x.id,
        kind: x.kind,
        pinned: x.pinned,
        running: runs(places, x.id),
        awaiting: waits(alloc, config.ack_ms, places, x.id)?,
        held: holders(alloc, config.lease_ms, places, x.id)?,
        names: names_of(alloc, places, x.id)?,
    })
}

/// Returns the number of running calls of an object.
fn runs(places: &[Place], object: ObjId) -> u64 {
    let mut count: u64 = 0;
    for by in 0..CONNECTIONS as u32 {
        count = count.saturating_add(running_calls_by(places, by, object) as u64);
    }
    count
}

/// Returns the number of references to an object that await.
fn waits(alloc: Global, ack: u64, places: &[Place], object: ObjId) -> Result<u64, AllocError> {
    let all = awaiting_references(alloc, ack, now(places), places)?;
    let count = all.iter().filter(|r| r.object.is_same(&object)).count();
    Ok(count as u64)
}

/// Returns the number of clients that hold an object.
fn holders(alloc: Global, lease: u64, places: &[Place], object: ObjId) -> Result<u64, AllocError> {
    let calls = lease_calls(alloc, places)?;
    let all = clients(alloc, calls.as_slice())?;
    let mut count: u64 = 0;
    for client in all.as_slice() {
        let own = calls_of(alloc, client, calls.as_slice())?;
        if holds(alloc, lease, now(places), own.as_slice(), object)? {
            count = count.saturating_add(1);
        }
    }
    Ok(count)
}

/// Returns the number of names that stand for an object.
fn names_of(alloc: Global, places: &[Place], object: ObjId) -> Result<u64, AllocError> {
    let mut count: u64 = 0;
    let all = names(alloc, places)?;
    for name in all.as_slice() {
        if let Some(stood) = stands_for(places, name.as_slice()) {
            if stood.is_same(&object) {
                count = count.saturating_add(1);
            }
        }
    }
    Ok(count)
}

fn put_leases(
    alloc: Global,
    config: &SpaceConfig,
    places: &[Place],
    text: &mut ByteList,
) -> Result<(), AllocError> {
    let calls = lease_calls(alloc, places)?;
    let left = clients_with_time_left(alloc, config.lease_ms, now(places), calls.as_slice())?;
    for client in left.as_slice() {
        let own = calls_of(alloc, client, calls.as_slice())?;
        let end = lease_end(config.lease_ms, own.as_slice());
        put_lease_line(text, client, u64::try_from(end).unwrap_or(u64::MAX))?;
    }
    Ok(())
}

fn put_names(
    alloc: Global,
    config: &SpaceConfig,
    places: &[Place],
    text: &mut ByteList,
) -> Result<(), AllocError> {
    let all = names(alloc, places)?;
    for units in all.as_slice() {
        let stood = stands_for(places, units.as_slice());
        if let (Some(object), Ok(name)) = (stood, Name::new(units.copy(alloc)?)) {
            put_name_line(text, *config, &name, object)?;
        }
    }
    Ok(())
}

fn put_withdrawals(
    alloc: Global,
    config: &SpaceConfig,
    places: &[Place],
    text: &mut ByteList,
) -> Result<(), AllocError> {
    let all = withdrawals(alloc, config, places)?;
    for w in all.as_slice() {
        put_withdrawal_line(text, *config, w.object, w.place)?;
    }
    Ok(())
}
