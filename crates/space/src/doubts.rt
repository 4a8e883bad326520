//! The objects that may have to be withdrawn: those from which an event, or the time that passed, may have taken what kept them. After each turn
//! every exported object is kept, so that no other object can go at the next one.
ghost use Rattle.std.specs.Prelude.{◌≡◌, ◌<◌, ◌≤◌, ◌++◌, ◌∷◌, ◌+◌, [], List, false, not, length, IfOk, OnOk, vec_len, vec_capacity};
ghost use Rattle.std.specs.List.{list_any};
ghost use Rattle.object_ids.specs.declared.ids.ObjId.{ObjId};
ghost use Rattle.history.specs.Places.{id_at};
ghost use Rattle.history.specs.declared.limits.TheConstants.{END_OF_OBJECT_COUNT};
ghost use Rattle.export_table.specs.Waits.{goes_on};
ghost use Rattle.space.specs.Doubts.{AreInDoubt, HasLog, taken_by};
ghost use Rattle.space.specs.Withdrawing.{HasWithdrawn, IsEnough, most_gone};

use crate::returns::list_of;
use crate::tables::Tables;
use dgc_server::Leases;
use export_table::Exports;
use history::Ask;
use history::places::id_at;
use object_ids::ObjId;
use std::alloc::{AllocError, Global};

/// The objects from which an ask at a moment, or the time that passed, may take what keeps them, and those that the ask exports. Its name stands for
/// `stood`, and it returns references to the objects `returned`. It is asked before anything changes.
pub(crate) fn in_doubt(
    tables: &Tables,
    stood: Option<ObjId>,
    returned: &[ObjId],
    now: u64,
    ask: &Ask,
) -> Result<Vec<ObjId>, AllocError>
    requires { tables.now.added < END_OF_OBJECT_COUNT }
    ensures { IfOk result (λ os. AreInDoubt tables.now.leases now tables.now.exports.waits
        (taken_by tables.now.exports.waits (id_at tables.now.config.uid tables.now.added) stood
        returned.now ask.now) os.items) }
{
    let taken = taken_by(tables, stood, returned, ask)?;
    if takes_time(&tables.exports, &tables.leases, now) {
        with_passed(tables, now, taken)
    } else {
        Ok(taken)
    }
}

/// The objects from which the time that passes to a moment may take what keeps them, and others after them.
#[inline(never)]
fn with_passed(tables: &Tables, now: u64, taken: Vec<ObjId>) -> Result<Vec<ObjId>, AllocError>
    ensures { IfOk result (λ os. AreInDoubt tables.now.leases now tables.now.exports.waits
        taken.items os.items) }
{
    let freed = tables.leases.freed_objects(tables.alloc, now)?;
    let ended = tables.exports.ended_objects(tables.alloc, now)?;
    let passed = join_lists(freed, ended)?;
    let objects = join_lists(passed, taken)?;
    Ok(objects)
}

/// A list with another one after it. Where one of them is empty, it is the other one itself.
fn join_lists(mut objects: Vec<ObjId>, more: Vec<ObjId>) -> Result<Vec<ObjId>, AllocError>
    ensures { IfOk result (λ os. os.items ≡ objects.items ++ more.items) }
{
    if objects.is_empty() {
        return Ok(more);
    }
    objects.extend_from_slice(&more)?;
    Ok(objects)
}

/// The objects from which an ask may take what keeps them, and those that it exports.
fn taken_by(
    tables: &Tables,
    stood: Option<ObjId>,
    returned: &[ObjId],
    ask: &Ask,
) -> Result<Vec<ObjId>, AllocError>
    requires { tables.now.added < END_OF_OBJECT_COUNT }
    ensures { IfOk result (λ os. os.items
        ≡ taken_by tables.now.exports.waits (id_at tables.now.config.uid tables.now.added) stood
        returned.now ask.now) }
{
    let alloc = tables.alloc;
    match ask {
        Ask::Open { kind: _, pinned: _ } => {
            list_of(alloc, Some(id_at(tables.config.uid, tables.added)))
        }
        Ask::Finish {
            object,
            made: _,
            listed: _,
            uid: _,
        } => one_and(alloc, object, returned),
        Ask::Abandon { object } => list_of(alloc, Some(*object)),
        Ask::Clean {
            client: _,
            number: _,
            objects: named,
            strong: _,
        } => copy_of_objects(alloc, named.as_slice()),
        Ask::Ack { uid } => tables.exports.of_return(alloc, *uid),
        Ask::Bind { name: _, object: _ } => list_of(alloc, stood),
        Ask::Rebind { name: _, object: _ } => list_of(alloc, stood),
        Ask::Unbind { name: _ } => list_of(alloc, stood),
        _ => Ok(Vec::new(alloc)),
    }
}

/// An object, and others after it.
fn one_and(alloc: Global, object: &ObjId, others: &[ObjId]) -> Result<Vec<ObjId>, AllocError>
    ensures { IfOk result (λ os. os.items ≡ object.now ∷ others.now) }
{
    let mut objects = list_of(alloc, Some(*object))?;
    extend(&mut objects, others)?;
    Ok(objects)
}

/// A copy of these objects. It takes no memory where there are none.
pub(crate) fn copy_of_objects(alloc: Global, objects: &[ObjId]) -> Result<Vec<ObjId>, AllocError>
    ensures { IfOk result (λ os. os.items ≡ objects.now) }
{
    let mut copy = Vec::new(alloc);
    extend(&mut copy, objects)?;
    Ok(copy)
}

/// Appends objects to a list. It takes no time where there are none.
pub(crate) fn extend(objects: &mut Vec<ObjId>, more: &[ObjId]) -> Result<(), AllocError>
    ensures { OnOk result (objects.new.items ≡ objects.old.items ++ more.now) }
{
    if more.is_empty() {
        return Ok(());
    }
    objects.extend_from_slice(more)
}

/// Returns whether time that passes to a moment may take what keeps some object. It may where a lease may end, or
/// where the wait of a reference has ended. Where time takes nothing, only the objects from which the request takes
/// something are in doubt. The function takes no memory.
pub(crate) fn takes_time(exports: &Exports, leases: &Leases, now: u64) -> bool
    ensures { result ≡ false → (taken : List ObjId)
        → AreInDoubt leases.now now exports.now.waits taken taken }
{
    if leases.is_due(now) {
        true
    } else {
        exports.has_ended(now)
    }
}

/// The objects at which a withdrawal looks.
#[derive(Clone, Copy)]
pub(crate) struct Doubt<'a> {
    /// True where it looks at every exported object.
    pub all: bool,
    /// The objects at which it looks otherwise.
    pub objects: &'a [ObjId],
}

/// Withdraws each exported object that isn't kept at a moment, and appends it to those that are gone. It looks at the objects in doubt alone,
/// and takes no memory.
pub(crate) fn withdraw(
    exports: &mut Exports,
    leases: &mut Leases,
    now: u64,
    doubt: Doubt<'_>,
    gone: &mut Vec<ObjId>,
)
    requires log { HasLog leases.old }
    requires room { vec_len gone.old + most_gone doubt exports.old ≤ vec_capacity gone.old }
    requires enough { IsEnough leases.old exports.old now doubt }
    ensures withdrawn { HasWithdrawn leases.old leases.new exports.old exports.new now
        gone.old.items gone.new.items }
    ensures few { length gone.new.items
        ≤ length gone.old.items + most_gone doubt.entry exports.old }
    ensures capacity { vec_capacity gone.old ≤ vec_capacity gone.new }
{
    let _count = exports.count();
    if doubt.all {
        exports.withdraw(now, leases, gone);
    } else if may_change(exports, now, doubt.objects) {
        exports.withdraw_among(now, leases, doubt.objects, gone);
    }
}

/// Returns whether a withdrawal that looks at these objects alone may change anything: there is one of them, or the wait of a reference has
/// ended at a moment.
fn may_change(exports: &Exports, now: u64, objects: &[ObjId]) -> bool
    ensures none { result ≡ false → objects.now ≡ [] }
    ensures waits { result ≡ false
        → list_any (λ w. not (goes_on now w)) exports.now.waits ≡ false }
{
    if objects.is_empty() {
        exports.has_ended(now)
    } else {
        true
    }
}
