//! The clients of a world, and the calls of their tables.
ghost use Rattle.std.specs.Prelude.{◌≡◌, ◌≤◌, ◌<◌, IfOk, None, Ok, Err};
ghost use Rattle.dgc_client.specs.Log.{Registers, Drops, Dues, Fails, number_of};
ghost use Rattle.dgc_client.specs.StandsForLog.{Notes};
ghost use Rattle.dgc_client.specs.declared.limits.TheConstants.{MAX_GRANTED_MS, END_OF_TIME};
ghost use Rattle.lease_world.specs.World.{answer_to};
ghost use Rattle.lease_world.specs.Tables.{IsTableCall, call_of};

use dgc_client::{ClientFault, ClientTable, Plan};
use object_ids::ObjId;

/// A client of a world.
#[derive(Debug)]
pub struct Member {
    /// The duration in milliseconds for which its dirty calls ask.
    pub asked: i64,
    /// Its table.
    pub table: ClientTable,
}

// Written out, so that whoever owns one has one call at each exit, and not the drop of each field.
impl Drop for Member {
    fn drop(self) {
        let Member { asked: _, table } = self;
        drop(table);
    }
}

/// A call that a step makes of a client's table.
#[derive(Clone, Copy)]
pub(crate) enum TableCall {
    /// A reference to an object is registered.
    Register(ObjId),
    /// The reference to an object is dropped.
    Release(ObjId),
    /// The table gives the lease call that is due.
    Due,
}

/// Registers a reference.
fn register(table: &mut ClientTable, object: ObjId) -> Result<Option<Plan>, ClientFault>
    ensures { IsTableCall table.old (Registers object) result table.new }
{
    match table.register(object) {
        Ok(_new) => Ok(None),
        Err(fault) => Err(fault),
    }
}

/// Drops a reference.
fn release(table: &mut ClientTable, object: ObjId, now: u64) -> Result<Option<Plan>, ClientFault>
    requires { now < END_OF_TIME }
    ensures { IsTableCall table.old (Drops object now) result table.new }
{
    table.drop_ref(object, now)
}

/// Asks for the call that is due.
fn ask_for_due(table: &mut ClientTable, now: u64) -> Result<Option<Plan>, ClientFault>
    requires { now < END_OF_TIME }
    ensures { IsTableCall table.old (Dues now) result table.new }
{
    table.due(now)
}

/// Makes a call of a table at a moment, and returns the lease call that it planned, if it planned one.
pub(crate) fn call_table(
    table: &mut ClientTable,
    call: TableCall,
    now: u64,
) -> Result<Option<Plan>, ClientFault>
    requires { now < END_OF_TIME }
    ensures { IsTableCall table.old (call_of call now) result table.new }
{
    match call {
        TableCall::Register(object) => register(table, object),
        TableCall::Release(object) => release(table, object, now),
        TableCall::Due => ask_for_due(table, now),
    }
}

/// Hands the answer to a sent call to the table of its client: to a dirty call the duration that was granted; a clean call is closed.
pub(crate) fn hand_answer(table: &mut ClientTable, plan: &Plan, granted: u64, now: u64)
    requires { granted ≤ MAX_GRANTED_MS }
    ensures { Notes table.old table.new (answer_to now granted plan.now) }
{
    match plan {
        Plan::Dirty { number, ids: _ } => {
            let _counts = table.answered(*number, granted, now);
        }
        Plan::Clean {
            number,
            ids: _,
            strong: _,
        } => table.failed(*number),
    }
}

/// Tells the table of a client that its sent call failed.
pub(crate) fn hand_failure(table: &mut ClientTable, plan: &Plan)
    ensures { Notes table.old table.new (Fails (number_of plan.now)) }
{
    match plan {
        Plan::Dirty { number, ids: _ } => table.failed(*number),
        Plan::Clean {
            number,
            ids: _,
            strong: _,
        } => table.failed(*number),
    }
}
