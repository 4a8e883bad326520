//! The outline of a history by the definitions.
use crate::defined::Defined;
use crate::servers::CONFIG;
use history::{Call, Exported, Name, Place, Returned, Withdrawal};
use history_model::awaiting::awaiting_references;
use history_model::leases::{calls_of, clients, clients_with_time_left, holds, lease_end};
use history_model::limits::units;
use history_model::names::{names, stands_for};
use history_model::places::now;
use history_model::running::running_calls;
use history_model::table::lease_calls;
use journal::ObjectRow;
use journal::outline::{
    put_events_line, put_lease_line, put_name_line, put_object_line, put_withdrawal_line,
};
use object_ids::ObjId;
use sequence::{ByteList, Same, Units};
use std::alloc::{AllocError, Global};

/// The outline of a history.
pub(crate) fn outline_of(alloc: Global, defined: &Defined) -> Result<ByteList, AllocError> {
    let places = defined.places.as_slice();
    let mut text = ByteList::new(alloc);
    let used = u64::try_from(units(places)).unwrap_or(u64::MAX);
    put_events_line(&mut text, places.len() as u64, used, now(places))?;
    put_objects(alloc, places, defined.table.as_slice(), &mut text)?;
    put_leases(alloc, places, &mut text)?;
    put_names(alloc, places, &mut text)?;
    put_withdrawals(defined.withdrawn.as_slice(), &mut text)?;
    Ok(text)
}

/// The lease calls of a client.
type Own = Vec<Call>;

fn put_objects(
    alloc: Global,
    places: &[Place],
    table: &[Exported],
    text: &mut ByteList,
) -> Result<(), AllocError> {
    let waiting = awaiting_references(alloc, CONFIG.ack_ms, now(places), places)?;
    let owns = owns_of(alloc, places)?;
    let names = names(alloc, places)?;
    for x in table {
        let row = ObjectRow {
            object: x.id,
            kind: x.kind,
            pinned: x.pinned,
            running: running_calls(places, x.id) as u64,
            awaiting: waits(waiting.as_slice(), x.id),
            held: holders(alloc, now(places), owns.as_slice(), x.id)?,
            names: names_of(places, names.as_slice(), x.id),
        };
        put_object_line(text, CONFIG, &row)?;
    }
    Ok(())
}

/// The calls of each client.
fn owns_of(alloc: Global, places: &[Place]) -> Result<Vec<Own>, AllocError> {
    let calls = lease_calls(alloc, places)?;
    let all = clients(alloc, calls.as_slice())?;
    let mut owns = Vec::new(alloc);
    for client in all.as_slice() {
        let own = calls_of(alloc, client, calls.as_slice())?;
        owns.push(own)?;
    }
    Ok(owns)
}

/// Returns the number of references to an object that await.
fn waits(waiting: &[Returned], object: ObjId) -> u64 {
    let count = waiting.iter().filter(|r| r.object.is_same(&object)).count();
    count as u64
}

/// Returns the number of clients that hold an object.
fn holders(alloc: Global, at: u64, owns: &[Own], object: ObjId) -> Result<u64, AllocError> {
    let mut count: u64 = 0;
    for own in owns {
        if holds(alloc, CONFIG.lease_ms, at, own.as_slice(), object)? {
            count = count.saturating_add(1);
        }
    }
    Ok(count)
}

/// Returns the number of names that stand for an object.
fn names_of(places: &[Place], names: &[Units], object: ObjId) -> u64 {
    let mut count: u64 = 0;
    for name in names {
        if let Some(stood) = stands_for(places, name.as_slice()) {
            if stood.is_same(&object) {
                count = count.saturating_add(1);
            }
        }
    }
    count
}

fn put_leases(alloc: Global, places: &[Place], text: &mut ByteList) -> Result<(), AllocError> {
    let calls = lease_calls(alloc, places)?;
    let left = clients_with_time_left(alloc, CONFIG.lease_ms, now(places), calls.as_slice())?;
    for client in left.as_slice() {
        let own = calls_of(alloc, client, calls.as_slice())?;
        let end = lease_end(CONFIG.lease_ms, own.as_slice());
        put_lease_line(text, client, u64::try_from(end).unwrap_or(u64::MAX))?;
    }
    Ok(())
}

fn put_names(alloc: Global, places: &[Place], text: &mut ByteList) -> Result<(), AllocError> {
    let all = names(alloc, places)?;
    for units in all.as_slice() {
        let stood = stands_for(places, units.as_slice());
        if let (Some(object), Ok(name)) = (stood, Name::new(units.copy(alloc)?)) {
            put_name_line(text, CONFIG, &name, object)?;
        }
    }
    Ok(())
}

fn put_withdrawals(withdrawn: &[Withdrawal], text: &mut ByteList) -> Result<(), AllocError> {
    for w in withdrawn {
        put_withdrawal_line(text, CONFIG, w.object, w.place)?;
    }
    Ok(())
}
