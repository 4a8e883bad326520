//! Room for what an event adds, made before anything changes. No room is lost.
ghost use Rattle.std.specs.Prelude.{◌≡◌, ◌≤◌, ◌<◌, ◌+◌, ◌^◌, length, true, IfErr, OnOk};
ghost use Rattle.history.specs.declared.replies.Refused.TheVariants.{OutOfMemory};

use crate::prepared::Prepared;
use crate::runs::Runs;
use crate::withdrawals::Withdrawals;
use event_log::SpaceEvents;
use export_table::Exports;
use history::Refused;

/// Makes room for all that an event adds: itself and a call, and the withdrawals, the exported objects and the references that await of what was
/// prepared for it.
pub(crate) fn room_for_all(
    events: &mut SpaceEvents,
    runs: &mut Runs,
    withdrawn: &mut Withdrawals,
    exports: &mut Exports,
    ready: &Prepared,
) -> Result<(), Refused>
    requires few_runs { length runs.old.items < 2 ^ 32 }
    requires few_opened { ready.now.opened < 2 ^ 32 }
    ensures event { OnOk result
        (length events.new.items + length runs.new.items + 2 ≤ events.new.capacity) }
    ensures spare { OnOk result (events.new.spare ≡ true) }
    ensures run { OnOk result (0 < runs.new.room) }
    ensures withdrawals { OnOk result
        (length withdrawn.new.items + ready.now.objects ≤ withdrawn.new.room) }
    ensures opened { OnOk result (ready.now.opened ≤ exports.new.room.exports) }
    ensures returned { OnOk result
        (length ready.now.listed.references.items ≤ exports.new.room.waits) }
    ensures refusal { IfErr result (λ refused. refused ≡ OutOfMemory) }
    ensures events { events.new.items ≡ events.old.items }
    ensures runs { runs.new.items ≡ runs.old.items }
    ensures withdrawn { withdrawn.new.items ≡ withdrawn.old.items }
    ensures rest { exports.new ≡ record exports.old { room = exports.new.room } }
    ensures grow { events.old.capacity ≤ events.new.capacity }
    ensures stored { events.new.stored ≡ events.old.stored }
    ensures told { withdrawn.new.told ≡ withdrawn.old.told }
    ensures grow_withdrawn { withdrawn.old.room ≤ withdrawn.new.room }
{
    room_for_event(events, runs)?;
    room_for_gone(withdrawn, ready.objects)?;
    room_in_table(exports, ready.opened, ready.listed.references.len())
}

/// Makes room for an event, for the events that end the calls that then run, and for a call that it starts.
fn room_for_event(events: &mut SpaceEvents, runs: &mut Runs) -> Result<(), Refused>
    requires { length runs.old.items < 2 ^ 32 }
    ensures event { OnOk result
        (length events.new.items + length runs.new.items + 2 ≤ events.new.capacity) }
    ensures spare { OnOk result (events.new.spare ≡ true) }
    ensures run { OnOk result (0 < runs.new.room) }
    ensures refusal { IfErr result (λ refused. refused ≡ OutOfMemory) }
    ensures events { events.new.items ≡ events.old.items }
    ensures runs { runs.new.items ≡ runs.old.items }
    ensures grow { events.old.capacity ≤ events.new.capacity }
    ensures stored { events.new.stored ≡ events.old.stored }
{
    events.reserve(runs.len() + 2)?;
    runs.reserve()?;
    Ok(())
}

/// Makes room for so many withdrawals.
fn room_for_gone(withdrawn: &mut Withdrawals, objects: usize) -> Result<(), Refused>
    ensures withdrawals { OnOk result (length withdrawn.new.items + objects ≤ withdrawn.new.room) }
    ensures refusal { IfErr result (λ refused. refused ≡ OutOfMemory) }
    ensures withdrawn { withdrawn.new.items ≡ withdrawn.old.items }
    ensures grow { withdrawn.old.room ≤ withdrawn.new.room }
    ensures told { withdrawn.new.told ≡ withdrawn.old.told }
{
    withdrawn.reserve(objects)?;
    Ok(())
}

/// Makes room for so many exported objects, and for so many references that await. There is none for 2^32 of these.
fn room_in_table(exports: &mut Exports, opened: u64, returned: usize) -> Result<(), Refused>
    requires few_opened { opened < 2 ^ 32 }
    ensures opened { OnOk result (opened ≤ exports.new.room.exports) }
    ensures returned { OnOk result (returned ≤ exports.new.room.waits) }
    ensures refusal { IfErr result (λ refused. refused ≡ OutOfMemory) }
    ensures rest { exports.new ≡ record exports.old { room = exports.new.room } }
{
    match u32::try_from(returned) {
        Ok(returned) => {
            exports.reserve(opened as u32, returned)?;
            Ok(())
        }
        Err(_) => Err(Refused::OutOfMemory),
    }
}
