//! Constants of enums, and classes as values.
ghost use Rattle.std.specs.Prelude.{◌≤◌, ◌<◌, length};
ghost use Rattle.ser_values.specs.declared.node.SlotPlace.TheVariants.{Text};
ghost use Rattle.ser_values.specs.declared.limits.TheConstants.{LEVELS, NODES};
ghost use Rattle.stream_grammar.specs.Reading.{slot_at, with_class, class_at, enum_at};
ghost use Rattle.ser_read.specs.NodeReading.{ReadsNodes, GivesNode};

use crate::fault::{StreamFault, StreamKind};
use crate::pieces::bad;
use crate::reading::{class, slot};
use crate::table::Table;
use class_desc::Slot;
use ser_values::{Node, SlotPlace};
use std::alloc::Global;
use wire_io::pull::Pull;
use wire_io::source::Source;

/// A class as a value.
#[cycle(reading)]
#[tactic(auto, unfolding(stream_grammar::specs::Reading::class_at), using(crate::proofs::Parts::with_class_is))]
pub(super) fn class_value<S: Source>(
    alloc: Global,
    pull: &mut Pull<'_, S>,
    table: &mut Table,
    at: u64,
    left: u32,
) -> Result<Slot, StreamFault>
    requires left { left ≤ LEVELS }
    ensures { ReadsNodes S.half pull.old pull.new table.old table.new result GivesNode
        (λ end. with_class (slot_at end left) table.old.unread.items at class_at) }
{
    let class = class(alloc, pull, table, at, left)?;
    let number = table.begin(Node::Class { class })?;
    Ok(Slot::Node(number))
}

/// A constant of an enum.
#[cycle(reading)]
#[tactic(auto, using(crate::proofs::Parts::with_class_is))]
pub(super) fn constant<S: Source>(
    alloc: Global,
    pull: &mut Pull<'_, S>,
    table: &mut Table,
    at: u64,
    left: u32,
) -> Result<Slot, StreamFault>
    requires left { left ≤ LEVELS }
    ensures { ReadsNodes S.half pull.old pull.new table.old table.new result GivesNode
        (λ end. with_class (slot_at end left) table.old.unread.items at
        (enum_at at (slot_at end left Text table.old.unread.items))) }
{
    let class = class(alloc, pull, table, at, left)?;
    constant_in(alloc, pull, table, at, class, left)
}

/// A constant, whose class was read.
#[cycle(reading)]
#[tactic(auto, unfolding(stream_grammar::specs::Reading::enum_at))]
fn constant_in<S: Source>(
    alloc: Global,
    pull: &mut Pull<'_, S>,
    table: &mut Table,
    at: u64,
    class: u32,
    left: u32,
) -> Result<Slot, StreamFault>
    requires room { length table.old.nodes.items < NODES }
    requires left { left ≤ LEVELS }
    ensures { ReadsNodes S.half pull.old pull.new table.old table.new result GivesNode
        (λ end. enum_at at (slot_at end left Text table.old.unread.items) class) }
{
    if !table.is_enum(class) {
        return Err(bad(StreamKind::BadDesc, at));
    }
    let number = table.begin(Node::Enum { class, name: 0 })?;
    match slot(alloc, pull, table, SlotPlace::Text, left)? {
        Slot::Null => unreachable!(),
        Slot::Node(name) => {
            table.fill(number, Node::Enum { class, name });
            Ok(Slot::Node(number))
        }
    }
}
