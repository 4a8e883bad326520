//! The texts of a space.
ghost use Rattle.std.specs.Prelude.{◌≡◌, ◌++◌, true, flat_map, map, max, OnOk, IfOk};
ghost use Rattle.history.specs.Leases.{lease_rows};
ghost use Rattle.history.specs.Outline as lines;
ghost use Rattle.dgc_server.specs.StandsForCalls.{ForEachLog};
ghost use Rattle.export_table.specs.ExportRows.{row_at};
ghost use Rattle.space.specs.OutlineRows.{held_row, binding_text};
ghost use Rattle.space.specs.Standing.{standing};

use crate::tables::Tables;
use crate::turns::Space;
use crate::withdrawals::Withdrawals;
use dgc_server::{LeaseRow, Leases};
use export_table::ExportRow;
use history::SpaceConfig;
use journal::ObjectRow;
use journal::outline::{
    put_events_line, put_lease_line, put_name_line, put_object_line, put_withdrawal_line,
};
use rmi_registry::{Binding, Names};
use sequence::ByteList;
use std::alloc::{AllocError, Global};

/// The outline of a space that keeps its events: how many events it took, their units and its present moment; each exported object;
/// each client with time left; the names; all withdrawals.
pub fn outline(alloc: Global, space: &Space) -> Result<ByteList, AllocError>
    requires stored { space.now.configuration.stored ≡ true }
    ensures { IfOk result (λ text. text ≡ lines.outline space.now.configuration space.now.events) }
{
    let mut text = ByteList::new(alloc);
    put_outline(alloc, &mut text, space)?;
    Ok(text)
}

/// The outline of a space without its withdrawals, whether or not it keeps its events: how many events it took, their units and its
/// present moment; each exported object; each client with time left; the names.
pub fn standing(alloc: Global, space: &Space) -> Result<ByteList, AllocError>
    ensures { IfOk result (λ text. text ≡ standing space.now.configuration space.now.events) }
{
    let mut text = ByteList::new(alloc);
    put_standing(alloc, &mut text, space)?;
    Ok(text)
}

/// Appends the outline of a space.
fn put_outline(alloc: Global, text: &mut ByteList, space: &Space) -> Result<(), AllocError>
    requires stored { space.now.configuration.stored ≡ true }
    ensures { OnOk result
        (text.new ≡ text.old ++ lines.outline space.now.configuration space.now.events) }
{
    put_standing(alloc, text, space)?;
    put_withdrawals(text, &space.tables.config, &space.tables.withdrawn)
}

/// Appends the outline of a space without its withdrawals.
fn put_standing(alloc: Global, text: &mut ByteList, space: &Space) -> Result<(), AllocError>
    ensures { OnOk result
        (text.new ≡ text.old ++ standing space.now.configuration space.now.events) }
{
    put_events_line(
        text,
        space.tables.events.len() as u64,
        space.tables.units,
        space.tables.moment,
    )?;
    put_exports(alloc, text, &space.tables)?;
    put_leases(alloc, text, &space.tables.leases, space.tables.moment)?;
    put_bindings(alloc, text, &space.tables.config, &space.tables.names)
}

/// Takes the rows of all exported objects, and appends a line of each.
fn put_exports(alloc: Global, text: &mut ByteList, tables: &Tables) -> Result<(), AllocError>
    ensures { OnOk result
        (ForEachLog tables.now.leases (λ lease moment calls.
        let now = tables.now.moment in
        let rows = map (row_at now tables.now.exports.waits) tables.now.exports.rows in
        text.new
        ≡ text.old ++ flat_map
        (λ x. lines.object_line tables.now.config (held_row lease (max now moment) calls x))
        rows)) }
{
    let rows = tables.exports.rows(alloc, tables.moment)?;
    put_objects(
        text,
        &tables.config,
        &tables.leases,
        tables.moment,
        rows.as_slice(),
    )
}

/// Appends the lines of exported objects.
fn put_objects(
    text: &mut ByteList,
    config: &SpaceConfig,
    leases: &Leases,
    now: u64,
    objects: &[ExportRow],
) -> Result<(), AllocError>
    ensures { OnOk result
        (ForEachLog leases.now (λ lease moment calls. text.new
        ≡ text.old ++ flat_map
        (λ x. lines.object_line config.now (held_row lease (max now moment) calls x))
        objects.now)) }
{
    for object in objects {
        let row = row_of(leases, now, object);
        put_object_line(text, *config, &row)?;
    }
    Ok(())
}

/// Returns the outline's row of an exported object.
fn row_of(leases: &Leases, now: u64, object: &ExportRow) -> ObjectRow
    ensures { ForEachLog leases.now
        (λ lease moment calls. result ≡ held_row lease (max now moment) calls object.now) }
{
    ObjectRow {
        object: object.id,
        kind: object.kind,
        pinned: object.pinned,
        running: u64::from(object.running),
        awaiting: u64::from(object.awaiting),
        held: u64::from(leases.holders(object.id, now)),
        names: u64::from(object.pins),
    }
}

/// Appends the lines of the clients with time left.
fn put_leases(
    alloc: Global,
    text: &mut ByteList,
    leases: &Leases,
    now: u64,
) -> Result<(), AllocError>
    ensures { OnOk result
        (ForEachLog leases.now (λ lease moment calls. text.new
        ≡ text.old ++ flat_map lines.lease_line (lease_rows lease (max now moment) calls))) }
{
    let rows = leases.clients(alloc, now)?;
    put_rows(text, rows.as_slice())
}

fn put_rows(text: &mut ByteList, rows: &[LeaseRow]) -> Result<(), AllocError>
    ensures { OnOk result (text.new ≡ text.old ++ flat_map lines.lease_line rows.now) }
{
    for row in rows {
        put_lease_line(text, &row.client, row.until)?;
    }
    Ok(())
}

/// Takes the bindings of all names, and appends a line of each.
fn put_bindings(
    alloc: Global,
    text: &mut ByteList,
    config: &SpaceConfig,
    names: &Names,
) -> Result<(), AllocError>
    ensures { OnOk result (text.new ≡ text.old ++ flat_map (binding_text config.now) names.now) }
{
    let bindings = names.bindings(alloc)?;
    put_names(text, config, bindings.as_slice())
}

/// Appends the lines of names, each with the object for which it stands.
fn put_names(
    text: &mut ByteList,
    config: &SpaceConfig,
    bindings: &[Binding],
) -> Result<(), AllocError>
    ensures { OnOk result (text.new ≡ text.old ++ flat_map (binding_text config.now) bindings.now) }
{
    for binding in bindings {
        put_name_line(text, *config, &binding.name, binding.object)?;
    }
    Ok(())
}

/// Appends the lines of withdrawals.
fn put_withdrawals(
    text: &mut ByteList,
    config: &SpaceConfig,
    withdrawn: &Withdrawals,
) -> Result<(), AllocError>
    requires { withdrawn.now.told ≡ 0 }
    ensures { OnOk result
        (text.new ≡ text.old ++ flat_map (lines.withdrawal_line config.now) withdrawn.now.items) }
{
    for k in 0..withdrawn.len() {
        let withdrawal = withdrawn.get(k);
        put_withdrawal_line(text, *config, withdrawal.object, withdrawal.place)?;
    }
    Ok(())
}
