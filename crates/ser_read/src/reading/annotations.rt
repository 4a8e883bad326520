//! Annotations: blocks of bytes and references, up to their end.
ghost use Rattle.std.specs.Prelude.{◌-◌, ◌≤◌, true};
ghost use Rattle.ser_values.specs.declared.node.SlotPlace.TheVariants.{Reference};
ghost use Rattle.ser_values.specs.declared.limits.TheConstants.{LEVELS};
ghost use Rattle.stream_grammar.specs.Reading.{slot_at, coded, items_at, note_at};
ghost use Rattle.ser_read.specs.Named.{item_at};
ghost use Rattle.ser_read.specs.NodeReading.{ReadsNodes, Any};

use crate::fault::StreamFault;
use crate::pieces::{add, count_parts};
use crate::pulled::{byte, count, take};
use crate::reading::construct;
use crate::table::Table;
use class_desc::{Item, Items};
use ser_values::SlotPlace;
use std::alloc::Global;
use wire_io::pull::Pull;
use wire_io::source::Source;

/// A part's note.
#[cycle(reading)]
#[tactic(auto, unfolding(stream_grammar::specs::Reading::note_at))]
pub(super) fn note<S: Source>(
    alloc: Global,
    pull: &mut Pull<'_, S>,
    table: &mut Table,
    writes: bool,
    left: u32,
) -> Result<Items, StreamFault>
    requires left { left ≤ LEVELS }
    ensures { ReadsNodes S.half pull.old pull.new table.old table.new result Any
        (λ end. note_at end (slot_at end left Reference table.old.unread.items) writes) }
{
    if writes {
        items(alloc, pull, table, left)
    } else {
        Ok(Items::new(alloc))
    }
}

/// Items up to the end of an annotation.
#[cycle(reading)]
pub(super) fn items<S: Source>(
    alloc: Global,
    pull: &mut Pull<'_, S>,
    table: &mut Table,
    left: u32,
) -> Result<Items, StreamFault>
    requires left { left ≤ LEVELS }
    ensures { ReadsNodes S.half pull.old pull.new table.old table.new result Any
        (λ end. items_at end (slot_at end left Reference table.old.unread.items) true) }
{
    let mut items = Vec::new(alloc);
    loop {
        let at = pull.at;
        let code = byte(pull)?;
        if code == 0x78 {
            return Ok(Items::from_vec(items));
        }
        let item = item(alloc, pull, table, at, code, left)?;
        add(&mut items, item)?;
    }
}

/// A block, or a reference, after its code.
#[cycle(reading)]
#[inline(always)]
#[tactic(auto, unfolding(crate::specs::Named::item_at))]
pub(crate) fn item<S: Source>(
    alloc: Global,
    pull: &mut Pull<'_, S>,
    table: &mut Table,
    at: u64,
    code: u8,
    left: u32,
) -> Result<Item, StreamFault>
    requires left { left ≤ LEVELS }
    ensures { ReadsNodes S.half pull.old pull.new table.old table.new result Any
        (λ end. item_at end at
        (coded end left (slot_at end (left - 1)) Reference table.old.unread.items at code) code) }
{
    if code == 0x77 {
        let n = byte(pull)?;
        Ok(Item::Bytes(take(alloc, pull, u64::from(n))?))
    } else if code == 0x7A {
        let n = count(pull)?;
        Ok(Item::Bytes(take(alloc, pull, u64::from(n))?))
    } else {
        let slot = construct(alloc, pull, table, SlotPlace::Reference, left, at, code)?;
        count_parts(table, 1, at)?;
        Ok(Item::Ref(slot))
    }
}
