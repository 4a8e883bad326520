//! Objects: for each class of the chain its values and its annotation.
ghost use Rattle.std.specs.Prelude.{◌≡◌, ◌≤◌, ◌<◌, ◌+◌, None, nat_lt, length, IfSome};
ghost use Rattle.ser_values.specs.declared.node.SlotPlace.TheVariants.{Reference};
ghost use Rattle.ser_values.specs.declared.limits.TheConstants.{LEVELS, NODES, PARTS};
ghost use Rattle.stream_grammar.specs.Reading.{slot_at, value_at, with_class, object_at};
ghost use Rattle.ser_read.specs.ObjectRows.{values_by, part_by, parts_by, sizes_by, object_by};
ghost use Rattle.ser_read.specs.NodeReading.{ReadsNodes, Any, GivesNode};

use crate::fault::{Large, StreamFault};
use crate::numbers::primitive;
use crate::pieces::bad;
use crate::reading::annotations::note;
use crate::reading::{class, slot};
use crate::row::ClassRow;
use crate::shape::shape_of;
use crate::table::Table;
use class_desc::{Slot, TypeCode, is_primitive};
use ser_values::limits::PARTS;
use ser_values::{Node, Part, PartList, SlotPlace, Value, ValueList};
use std::alloc::Global;
use wire_io::pull::Pull;
use wire_io::source::Source;

/// An object.
#[cycle(reading)]
#[tactic(auto, using(crate::proofs::Parts::with_class_is))]
#[inline(never)]
pub(super) fn object<S: Source>(
    alloc: Global,
    pull: &mut Pull<'_, S>,
    table: &mut Table,
    at: u64,
    left: u32,
) -> Result<Slot, StreamFault>
    requires left { left ≤ LEVELS }
    ensures { ReadsNodes S.half pull.old pull.new table.old table.new result GivesNode
        (λ end. with_class (slot_at end left) table.old.unread.items at
        (object_at end at (slot_at end left Reference table.old.unread.items))) }
{
    let class = class(alloc, pull, table, at, left)?;
    object_in(alloc, pull, table, at, class, left)
}

/// An object, whose class was read.
#[cycle(reading)]
#[tactic(auto, unfolding(stream_grammar::specs::Reading::object_at), using(crate::proofs::Parts::object_is))]
fn object_in<S: Source>(
    alloc: Global,
    pull: &mut Pull<'_, S>,
    table: &mut Table,
    at: u64,
    class: u32,
    left: u32,
) -> Result<Slot, StreamFault>
    requires room { length table.old.nodes.items < NODES }
    requires left { left ≤ LEVELS }
    ensures { ReadsNodes S.half pull.old pull.new table.old table.new result GivesNode
        (λ end. object_at end at (slot_at end left Reference table.old.unread.items) class) }
{
    let shape = shape_of(alloc, table, class)?;
    let rows = shape.rows.as_slice();
    if lacks_object(table, rows) {
        return Err(StreamFault::TooLarge {
            what: Large::Nodes,
            at,
        });
    }
    match shape.fault {
        Some(kind) => Err(bad(kind, at)),
        None => object_after(alloc, pull, table, class, rows, left),
    }
}

/// Returns how many parts an object of these rows has beside those of its notes. None where it is past the limit.
#[tactic(auto, unfolding(crate::specs::ObjectRows::sizes_by))]
fn sizes_of(rows: &[ClassRow]) -> Option<usize>
    ensures few { IfSome result (λ n. (n ≡ sizes_by rows.now) × (n ≤ PARTS)) }
    ensures many { result ≡ None → PARTS < sizes_by rows.now }
{
    let mut total: usize = 0;
    for row in rows {
        let more = row.codes.as_slice().len();
        if more >= PARTS - total {
            return None;
        }
        total += more + 1;
    }
    Some(total)
}

/// Returns whether there is no room for an object of these rows.
fn lacks_object(table: &Table, rows: &[ClassRow]) -> bool
    ensures { result ≡ nat_lt PARTS (table.now.parts + sizes_by rows.now) }
{
    match sizes_of(rows) {
        None => true,
        Some(more) => table.lacks_parts(more),
    }
}

/// The parts of an object.
#[cycle(reading)]
#[tactic(auto, unfolding(crate::specs::ObjectRows::object_by))]
fn object_after<S: Source>(
    alloc: Global,
    pull: &mut Pull<'_, S>,
    table: &mut Table,
    class: u32,
    rows: &[ClassRow],
    left: u32,
) -> Result<Slot, StreamFault>
    requires room { length table.old.nodes.items < NODES }
    requires parts { table.old.parts + sizes_by rows.now ≤ PARTS }
    requires left { left ≤ LEVELS }
    ensures { ReadsNodes S.half pull.old pull.new table.old table.new result GivesNode
        (λ end. object_by end (slot_at end left Reference table.old.unread.items) class rows.now) }
{
    if let Some(more) = sizes_of(rows) {
        table.add_parts(more);
    }
    let number = table.begin(Node::Object {
        class,
        parts: PartList::new(alloc),
    })?;
    let parts = parts(alloc, pull, table, rows, left)?;
    table.fill_object(number, class, parts);
    Ok(Slot::Node(number))
}

/// Parts of an object.
#[cycle(reading)]
fn parts<S: Source>(
    alloc: Global,
    pull: &mut Pull<'_, S>,
    table: &mut Table,
    rows: &[ClassRow],
    left: u32,
) -> Result<PartList, StreamFault>
    requires left { left ≤ LEVELS }
    ensures { ReadsNodes S.half pull.old pull.new table.old table.new result Any
        (λ end. parts_by end (slot_at end left Reference table.old.unread.items) rows.now) }
{
    let mut parts = Vec::new(alloc);
    for row in rows {
        let part = part(alloc, pull, table, row, left)?;
        parts.push(part)?;
    }
    Ok(PartList::from_vec(parts))
}

/// A part of an object.
#[cycle(reading)]
#[tactic(auto, unfolding(crate::specs::ObjectRows::part_by))]
fn part<S: Source>(
    alloc: Global,
    pull: &mut Pull<'_, S>,
    table: &mut Table,
    row: &ClassRow,
    left: u32,
) -> Result<Part, StreamFault>
    requires left { left ≤ LEVELS }
    ensures { ReadsNodes S.half pull.old pull.new table.old table.new result Any
        (λ end. part_by end (slot_at end left Reference table.old.unread.items) row.now) }
{
    let values = values(alloc, pull, table, row.codes.as_slice(), left)?;
    let note = note(alloc, pull, table, row.note, left)?;
    Ok(Part { values, note })
}

/// Values of fields.
#[cycle(reading)]
fn values<S: Source>(
    alloc: Global,
    pull: &mut Pull<'_, S>,
    table: &mut Table,
    codes: &[TypeCode],
    left: u32,
) -> Result<ValueList, StreamFault>
    requires left { left ≤ LEVELS }
    ensures { ReadsNodes S.half pull.old pull.new table.old table.new result Any
        (λ end. values_by (slot_at end left Reference table.old.unread.items) codes.now) }
{
    let mut values = Vec::new(alloc);
    for code in codes {
        let value = value(alloc, pull, table, *code, left)?;
        values.push(value)?;
    }
    Ok(ValueList::from_vec(values))
}

/// The value of a field.
#[cycle(reading)]
#[tactic(auto, unfolding(stream_grammar::specs::Reading::value_at))]
fn value<S: Source>(
    alloc: Global,
    pull: &mut Pull<'_, S>,
    table: &mut Table,
    code: TypeCode,
    left: u32,
) -> Result<Value, StreamFault>
    requires left { left ≤ LEVELS }
    ensures { ReadsNodes S.half pull.old pull.new table.old table.new result Any
        (λ end. value_at (slot_at end left Reference table.old.unread.items) code) }
{
    if is_primitive(code) {
        primitive(pull, code)
    } else {
        let slot = slot(alloc, pull, table, SlotPlace::Reference, left)?;
        Ok(Value::Ref(slot))
    }
}
