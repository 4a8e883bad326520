//! Descriptions of classes and of dynamic proxy classes.
ghost use Rattle.std.specs.Prelude.{◌≤◌, ◌<◌, length, Some};
ghost use Rattle.ser_values.specs.declared.node.SlotPlace.TheVariants.{Text};
ghost use Rattle.ser_values.specs.declared.limits.TheConstants.{LEVELS, NODES};
ghost use Rattle.stream_grammar.specs.Reading.{slot_at, many_at, field_at, field_of, desc_at, proxy_at};
ghost use Rattle.ser_read.specs.Fronts.{desc_behind};
ghost use Rattle.ser_read.specs.NodeReading.{ReadsNodes, Any, GivesNode};

use crate::fault::{StreamFault, StreamKind};
use crate::front::{DescFront, desc_front};
use crate::pieces::{bad, blank, count_parts, names};
use crate::pulled::{byte, count, short_text};
use crate::reading::annotations::items;
use crate::reading::slot;
use crate::table::Table;
use class_desc::{
    ClassDesc, FieldDesc, FieldList, Items, ProxyDesc, Slot, TypeCode, check_desc, is_primitive,
};
use sequence::Units;
use ser_values::{Node, SlotPlace};
use std::alloc::Global;
use wire_io::pull::Pull;
use wire_io::source::Source;

/// A class's description.
#[cycle(reading)]
#[tactic(auto, unfolding(stream_grammar::specs::Reading::desc_at))]
#[inline(never)]
pub(super) fn desc<S: Source>(
    alloc: Global,
    pull: &mut Pull<'_, S>,
    table: &mut Table,
    at: u64,
    left: u32,
) -> Result<Slot, StreamFault>
    requires room { length table.old.nodes.items < NODES }
    requires left { left ≤ LEVELS }
    ensures { ReadsNodes S.half pull.old pull.new table.old table.new result GivesNode
        (λ end. desc_at end at (slot_at end left) table.old.unread.items) }
{
    let name = short_text(alloc, pull)?;
    let front = desc_front(pull)?;
    let number = table.begin(blank(alloc))?;
    table.open(number)?;
    let desc = desc_behind(alloc, pull, table, at, name, front, left)?;
    table.close();
    table.fill_desc(number, desc);
    Ok(Slot::Node(number))
}

/// Reads the rest of a description, from its fields on.
#[cycle(reading)]
#[tactic(auto, unfolding(crate::specs::Fronts::desc_behind))]
fn desc_behind<S: Source>(
    alloc: Global,
    pull: &mut Pull<'_, S>,
    table: &mut Table,
    at: u64,
    name: Units,
    front: DescFront,
    left: u32,
) -> Result<ClassDesc, StreamFault>
    requires left { left ≤ LEVELS }
    ensures { ReadsNodes S.half pull.old pull.new table.old table.new result Any
        (λ end. desc_behind end at (slot_at end left) table.old.unread.items name front) }
{
    count_parts(table, usize::from(front.fields), at)?;
    let fields = fields(alloc, pull, table, at, front.fields, left)?;
    let mut desc = ClassDesc {
        name,
        suid: front.suid.cast_signed(),
        flags: front.flags,
        fields,
        note: Items::new(alloc),
        parent: Slot::Null,
    };
    if check_desc(&desc).is_err() {
        return Err(bad(StreamKind::BadDesc, at));
    }
    desc.note = items(alloc, pull, table, left)?;
    desc.parent = slot(alloc, pull, table, SlotPlace::Parent, left)?;
    Ok(desc)
}

/// The fields of a description.
#[cycle(reading)]
fn fields<S: Source>(
    alloc: Global,
    pull: &mut Pull<'_, S>,
    table: &mut Table,
    at: u64,
    n: u16,
    left: u32,
) -> Result<FieldList, StreamFault>
    requires left { left ≤ LEVELS }
    ensures { ReadsNodes S.half pull.old pull.new table.old table.new result Any
        (λ end. many_at (field_at end at (slot_at end left Text table.old.unread.items)) n) }
{
    let mut fields = Vec::new(alloc);
    for _ in 0..n {
        let field = field(alloc, pull, table, at, left)?;
        fields.push(field)?;
    }
    Ok(FieldList::from_vec(fields))
}

/// A field.
#[cycle(reading)]
#[tactic(auto, unfolding(stream_grammar::specs::Reading::field_at, stream_grammar::specs::Reading::field_of))]
fn field<S: Source>(
    alloc: Global,
    pull: &mut Pull<'_, S>,
    table: &mut Table,
    at: u64,
    left: u32,
) -> Result<FieldDesc, StreamFault>
    requires left { left ≤ LEVELS }
    ensures { ReadsNodes S.half pull.old pull.new table.old table.new result Any
        (λ end. field_at end at (slot_at end left Text table.old.unread.items)) }
{
    let letter = byte(pull)?;
    match TypeCode::from_letter(letter) {
        None => Err(bad(StreamKind::BadDesc, at)),
        Some(code) => field_of(alloc, pull, table, at, code, left),
    }
}

/// A field of a type.
#[cycle(reading)]
#[tactic(auto, unfolding(stream_grammar::specs::Reading::field_of))]
fn field_of<S: Source>(
    alloc: Global,
    pull: &mut Pull<'_, S>,
    table: &mut Table,
    at: u64,
    code: TypeCode,
    left: u32,
) -> Result<FieldDesc, StreamFault>
    requires left { left ≤ LEVELS }
    ensures { ReadsNodes S.half pull.old pull.new table.old table.new result Any
        (λ end. field_of end at (slot_at end left Text table.old.unread.items) (Some code)) }
{
    let name = short_text(alloc, pull)?;
    if is_primitive(code) {
        return Ok(FieldDesc {
            code,
            name,
            type_text: Slot::Null,
        });
    }
    let type_text = slot(alloc, pull, table, SlotPlace::Text, left)?;
    if !table.fits_type(code, type_text) {
        return Err(bad(StreamKind::BadDesc, at));
    }
    Ok(FieldDesc {
        code,
        name,
        type_text,
    })
}

/// The description of a dynamic proxy class.
#[cycle(reading)]
#[tactic(auto, unfolding(stream_grammar::specs::Reading::proxy_at))]
pub(super) fn proxy<S: Source>(
    alloc: Global,
    pull: &mut Pull<'_, S>,
    table: &mut Table,
    at: u64,
    left: u32,
) -> Result<Slot, StreamFault>
    requires room { length table.old.nodes.items < NODES }
    requires left { left ≤ LEVELS }
    ensures { ReadsNodes S.half pull.old pull.new table.old table.new result GivesNode
        (λ end. proxy_at end at (slot_at end left) table.old.unread.items) }
{
    let n = count(pull)?;
    count_parts(table, n as usize, at)?;
    let number = table.begin(blank(alloc))?;
    table.open(number)?;
    let names = names(alloc, pull, n)?;
    let note = items(alloc, pull, table, left)?;
    let parent = slot(alloc, pull, table, SlotPlace::Parent, left)?;
    table.close();
    table.fill(
        number,
        Node::Proxy(ProxyDesc {
            names,
            note,
            parent,
        }),
    );
    Ok(Slot::Node(number))
}
