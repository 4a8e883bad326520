//! Arrays.
ghost use Rattle.std.specs.Prelude.{◌≡◌, ◌≤◌, ◌<◌, length, Some};
ghost use Rattle.ser_values.specs.declared.node.SlotPlace.TheVariants.{Reference};
ghost use Rattle.ser_values.specs.declared.limits.TheConstants.{LEVELS, NODES};
ghost use Rattle.stream_grammar.specs.Reading.{slot_at, many_at, elements_at, refs_among, with_class, array_at, array_of};
ghost use Rattle.ser_read.specs.NodeReading.{ReadsNodes, Any, GivesNode};

use crate::fault::{StreamFault, StreamKind};
use crate::numbers::primitives;
use crate::pieces::{bad, count_parts};
use crate::pulled::count;
use crate::reading::{class, slot};
use crate::table::Table;
use class_desc::{Slot, SlotList, TypeCode, is_primitive};
use sequence::ByteList;
use ser_values::{Node, SlotPlace, Values};
use std::alloc::Global;
use wire_io::pull::Pull;
use wire_io::source::Source;

/// An array.
#[cycle(reading)]
#[tactic(auto, using(crate::proofs::Parts::with_class_is))]
#[inline(never)]
pub(super) fn array<S: Source>(
    alloc: Global,
    pull: &mut Pull<'_, S>,
    table: &mut Table,
    at: u64,
    left: u32,
) -> Result<Slot, StreamFault>
    requires left { left ≤ LEVELS }
    ensures { ReadsNodes S.half pull.old pull.new table.old table.new result GivesNode
        (λ end. with_class (slot_at end left) table.old.unread.items at
        (array_at end at (slot_at end left Reference table.old.unread.items))) }
{
    let class = class(alloc, pull, table, at, left)?;
    array_in(alloc, pull, table, at, class, left)
}

/// An array, whose class was read.
#[cycle(reading)]
#[tactic(auto, unfolding(stream_grammar::specs::Reading::array_at, stream_grammar::specs::Reading::array_of))]
fn array_in<S: Source>(
    alloc: Global,
    pull: &mut Pull<'_, S>,
    table: &mut Table,
    at: u64,
    class: u32,
    left: u32,
) -> Result<Slot, StreamFault>
    requires room { length table.old.nodes.items < NODES }
    requires left { left ≤ LEVELS }
    ensures { ReadsNodes S.half pull.old pull.new table.old table.new result GivesNode
        (λ end. array_at end at (slot_at end left Reference table.old.unread.items) class) }
{
    match table.element_type(class) {
        None => Err(bad(StreamKind::BadDesc, at)),
        Some(code) => array_of(alloc, pull, table, at, class, code, left),
    }
}

/// Returns how many parts so many elements of a type are: references alone are parts.
fn refs_among(code: TypeCode, n: u32) -> usize
    ensures { result ≡ refs_among code n }
{
    if is_primitive(code) { 0 } else { n as usize }
}

/// The elements of an array.
#[cycle(reading)]
#[tactic(auto, unfolding(stream_grammar::specs::Reading::array_of))]
fn array_of<S: Source>(
    alloc: Global,
    pull: &mut Pull<'_, S>,
    table: &mut Table,
    at: u64,
    class: u32,
    code: TypeCode,
    left: u32,
) -> Result<Slot, StreamFault>
    requires room { length table.old.nodes.items < NODES }
    requires left { left ≤ LEVELS }
    ensures { ReadsNodes S.half pull.old pull.new table.old table.new result GivesNode
        (λ end. array_of end at (slot_at end left Reference table.old.unread.items) class
        (Some code)) }
{
    let n = count(pull)?;
    count_parts(table, refs_among(code, n), at)?;
    let number = table.begin(Node::Array {
        class,
        values: Values::Bytes(ByteList::new(alloc)),
    })?;
    let values = elements(alloc, pull, table, code, n, left)?;
    table.fill(number, Node::Array { class, values });
    Ok(Slot::Node(number))
}

/// Elements of a type.
#[cycle(reading)]
#[tactic(auto, unfolding(stream_grammar::specs::Reading::elements_at))]
fn elements<S: Source>(
    alloc: Global,
    pull: &mut Pull<'_, S>,
    table: &mut Table,
    code: TypeCode,
    n: u32,
    left: u32,
) -> Result<Values, StreamFault>
    requires left { left ≤ LEVELS }
    ensures { ReadsNodes S.half pull.old pull.new table.old table.new result Any
        (λ end. elements_at (slot_at end left Reference table.old.unread.items) code n) }
{
    if is_primitive(code) {
        primitives(alloc, pull, code, n)
    } else {
        let slots = slots(alloc, pull, table, n, left)?;
        Ok(Values::Refs(slots))
    }
}

/// References, one after the other.
#[cycle(reading)]
fn slots<S: Source>(
    alloc: Global,
    pull: &mut Pull<'_, S>,
    table: &mut Table,
    n: u32,
    left: u32,
) -> Result<SlotList, StreamFault>
    requires left { left ≤ LEVELS }
    ensures { ReadsNodes S.half pull.old pull.new table.old table.new result Any
        (λ end. many_at (slot_at end left Reference table.old.unread.items) n) }
{
    let mut slots = SlotList::new(alloc);
    for _ in 0..n {
        let slot = slot(alloc, pull, table, SlotPlace::Reference, left)?;
        slots.push(slot)?;
    }
    Ok(slots)
}
