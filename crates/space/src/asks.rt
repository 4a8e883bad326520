//! Effective requests, the room that a request needs, and its reply.
ghost use Rattle.std.specs.Prelude.{◌≡◌, ◌+◌, ◌<◌, ◌^◌, if◌then◌else◌, length, option_and_then, IfOk};
ghost use Rattle.history.specs.declared.limits.TheConstants.{END_OF_OBJECT_COUNT};
ghost use Rattle.history.specs.Names.{name_in};
ghost use Rattle.history.specs.declared.replies.Reply.TheVariants.{Bound, Done, NoObject, NotBound, NotRunning, Unbound};
ghost use Rattle.export_table.specs.ExportRows.{is_exported};
ghost use Rattle.rmi_registry.specs.Bindings.{names_in, object_of};
ghost use Rattle.space.specs.Acts.{effective_by, opens, reply_at, room_refusal, started_reply, unbound_reply, found_reply, reported_after};

use crate::prepared::Admitted;
use crate::returns::new_ids;
use crate::runs::Runs;
use crate::tables::Tables;
use export_table::Exports;
use history::asks::{is_abandon, is_begin, is_end, units_of};
use history::limits::{MAX_EXPORTS, MAX_RUNNING_CALLS, is_past, units_limit};
use history::places::id_at;
use history::{Ask, Refused, Reply, grant};
use object_ids::{FullKind, ObjId, ObjIds};
use rmi_registry::Names;
use std::alloc::AllocError;

/// Returns whether an object is exported.
pub(crate) fn is_exported(exports: &Exports, object: &ObjId) -> bool
    ensures { result ≡ is_exported exports.now.rows object.now }
{
    exports.find(*object).is_some()
}

/// Returns the object for which the name in a request stands, if there is a name and it stands for something.
pub(crate) fn stood_for(names: &Names, ask: &Ask) -> Option<ObjId>
    ensures { result ≡ option_and_then (object_of names.now) (name_in ask.now) }
{
    match ask {
        Ask::Bind { name, object: _ } => names.lookup(name).ok(),
        Ask::Rebind { name, object: _ } => names.lookup(name).ok(),
        Ask::Unbind { name } => names.lookup(name).ok(),
        Ask::Lookup { name, uid: _ } => names.lookup(name).ok(),
        _ => None,
    }
}

/// Returns whether a request of a connection is effective, where its name stands for `stood`.
pub(crate) fn is_effective(
    exports: &Exports,
    runs: &Runs,
    stood: Option<ObjId>,
    by: u32,
    ask: &Ask,
) -> bool
    ensures { result ≡ effective_by exports.now.rows runs.now.items stood by ask.now }
{
    match ask {
        Ask::Begin { object } => is_exported(exports, object),
        Ask::Finish {
            object,
            made: _,
            listed: _,
            uid: _,
        } => runs.is_running(by, object),
        Ask::Abandon { object } => runs.is_running(by, object),
        Ask::Bind { name: _, object } => is_exported(exports, object) && stood.is_none(),
        Ask::Rebind { name: _, object } => is_exported(exports, object),
        Ask::Unbind { name: _ } => stood.is_some(),
        Ask::Lookup { name: _, uid: _ } => stood.is_some(),
        _ => true,
    }
}

/// Returns the number of objects that a request exports.
pub(crate) fn opens(effective: bool, ask: &Ask) -> u64
    ensures value { result ≡ opens effective ask.now }
    ensures small { result < 2 ^ 63 }
{
    match ask {
        Ask::Open { kind: _, pinned: _ } => 1,
        Ask::Finish {
            object: _,
            made,
            listed: _,
            uid: _,
        } => {
            if effective {
                made.as_slice().len() as u64
            } else {
                0
            }
        }
        _ => 0,
    }
}

/// Why there is no room for an ask, if there is none: in the history, or among the exported objects.
pub(crate) fn room_refusal(tables: &Tables, effective: bool, ask: &Ask) -> Option<Refused>
    ensures { result ≡ room_refusal tables.now.config.stored tables.now.units
        (length tables.now.runs.items) (length tables.now.exports.rows) effective ask.now }
{
    let running = tables.runs.len();
    let exported = tables.exports.count();
    let used = u128::from(tables.units) + running as u128 + u128::from(units_of(ask));
    if is_past(
        units_limit(tables.config.stored),
        used,
        effective && is_begin(ask),
        effective && is_end(ask),
    ) {
        Some(Refused::HistoryFull)
    } else if effective && is_begin(ask) && running as u64 >= MAX_RUNNING_CALLS {
        Some(Refused::HistoryFull)
    } else if u64::from(exported) + opens(effective, ask) > MAX_EXPORTS {
        Some(Refused::Full(FullKind::Exports))
    } else {
        None
    }
}

/// Returns the reply to an admitted request that is taken.
pub(crate) fn reply_at(tables: &Tables, admitted: Admitted, ask: &Ask) -> Result<Reply, AllocError>
    requires { tables.now.added + opens admitted.effective ask.now < END_OF_OBJECT_COUNT }
    ensures { IfOk result (λ reply. reply ≡ reply_at tables.now.config tables.now.added
        tables.now.exports.rows (names_in tables.now.names) admitted.stood admitted.effective
        ask.now) }
{
    let Admitted { stood, effective } = admitted;
    let exports = &tables.exports;
    let uid = tables.config.uid;
    Ok(match ask {
        Ask::Open { kind: _, pinned: _ } => Reply::Opened(id_at(uid, tables.added)),
        Ask::Begin { object } => started_reply(exports.find(*object)),
        Ask::Finish {
            object: _,
            made,
            listed: _,
            uid: _,
        } => {
            if effective {
                let ids = new_ids(tables.alloc, uid, tables.added, made.as_slice())?;
                Reply::Finished(ObjIds::from_vec(ids))
            } else {
                Reply::NotRunning
            }
        }
        Ask::Abandon { object: _ } => abandoned_reply(effective),
        Ask::Dirty {
            client: _,
            number: _,
            asked,
            objects: _,
        } => Reply::Granted(grant(tables.config.lease_ms, *asked)),
        Ask::Bind { name: _, object } => bound_reply(effective, is_exported(exports, object)),
        Ask::Rebind { name: _, object: _ } => rebound_reply(effective),
        Ask::Unbind { name: _ } => unbinding_reply(effective),
        Ask::Lookup { name: _, uid: _ } => found_reply(exports, stood),
        Ask::List => Reply::Names(tables.names.list(tables.alloc)?),
        _ => Reply::Done,
    })
}

/// Returns the reply to a Begin of an object of this kind, if it is exported.
fn started_reply(kind: Option<u32>) -> Reply
    ensures { result ≡ started_reply kind }
{
    match kind {
        Some(kind) => Reply::Started(kind),
        None => Reply::NoObject,
    }
}

/// Returns the reply to an Abandon.
fn abandoned_reply(effective: bool) -> Reply
    ensures { result ≡ (if effective then Done else NotRunning) }
{
    if effective {
        Reply::Done
    } else {
        Reply::NotRunning
    }
}

/// Returns the reply to a Bind, whose object is exported or is not.
fn bound_reply(effective: bool, exported: bool) -> Reply
    ensures { result ≡ (if effective then Bound else unbound_reply exported) }
{
    if effective {
        Reply::Bound
    } else if exported {
        Reply::AlreadyBound
    } else {
        Reply::NoObject
    }
}

/// Returns the reply to a Rebind.
fn rebound_reply(effective: bool) -> Reply
    ensures { result ≡ (if effective then Bound else NoObject) }
{
    if effective {
        Reply::Bound
    } else {
        Reply::NoObject
    }
}

/// Returns the reply to an Unbind.
fn unbinding_reply(effective: bool) -> Reply
    ensures { result ≡ (if effective then Unbound else NotBound) }
{
    if effective {
        Reply::Unbound
    } else {
        Reply::NotBound
    }
}

/// Returns the reply to a Lookup of a name that stands for this object, if it stands for one.
fn found_reply(exports: &Exports, stood: Option<ObjId>) -> Reply
    ensures { result ≡ found_reply exports.now.rows stood }
{
    match stood {
        Some(object) => Reply::Found(object, exports.find(object).unwrap_or(0)),
        None => Reply::NotBound,
    }
}

/// Returns the number of the space's withdrawals that are reported as gone once a request has its reply. Those are
/// all of them. But an Abandon reports none, and leaves the number as it was.
pub(crate) fn reported_after(reported: usize, all: usize, ask: &Ask) -> usize
    ensures { result ≡ reported_after reported all ask.now }
{
    if is_abandon(ask) { reported } else { all }
}
