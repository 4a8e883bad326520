//! Reading references and what they begin (Java Object Serialization Specification, 6.4).
ghost use Rattle.std.specs.Prelude.{◌≢◌, ◌-◌, ◌≤◌, ◌<◌, length};
ghost use Rattle.ser_values.specs.declared.limits.TheConstants.{LEVELS, NODES};
ghost use Rattle.stream_grammar.specs.Reading.{slot_at, coded, fresh_at, text_at, short_at, long_at};
ghost use Rattle.ser_read.specs.Named.{class_named};
ghost use Rattle.ser_read.specs.NodeReading.{ReadsNodes, GivesNode, GivesText, LeavesRoom};

pub(crate) mod annotations;
mod arrays;
mod constants;
mod descriptions;
mod objects;

use self::arrays::array;
use self::constants::{class_value, constant};
use self::descriptions::{desc, proxy};
use self::objects::object;
use crate::fault::{Large, StreamFault, StreamKind};
use crate::pieces::{admits_code, bad, code_fault, handle, null};
use crate::pulled::{byte, long_text, short_text};
use crate::table::Table;
use class_desc::Slot;
use ser_values::{Node, SlotPlace};
use std::alloc::Global;
use wire_io::pull::Pull;
use wire_io::source::Source;

/// A reference, at most so many levels deep.
#[cycle(reading)]
fn slot<S: Source>(
    alloc: Global,
    pull: &mut Pull<'_, S>,
    table: &mut Table,
    place: SlotPlace,
    left: u32,
) -> Result<Slot, StreamFault>
    requires left { left ≤ LEVELS }
    ensures { ReadsNodes S.half pull.old pull.new table.old table.new result (GivesText place)
        (λ end. slot_at end left place table.old.unread.items) }
{
    let at = pull.at;
    let code = byte(pull)?;
    construct(alloc, pull, table, place, left, at, code)
}

/// Reads the construct that a code begins in a place, which may have so many levels.
#[cycle(reading)]
#[inline(always)]
#[tactic(auto, unfolding(stream_grammar::specs::Reading::coded))]
pub(crate) fn construct<S: Source>(
    alloc: Global,
    pull: &mut Pull<'_, S>,
    table: &mut Table,
    place: SlotPlace,
    left: u32,
    at: u64,
    code: u8,
) -> Result<Slot, StreamFault>
    requires left { left ≤ LEVELS }
    ensures { ReadsNodes S.half pull.old pull.new table.old table.new result (GivesText place)
        (λ end. coded end left (slot_at end (left - 1)) place table.old.unread.items at code) }
{
    if code == 0x70 {
        null(place, at)
    } else {
        not_null(alloc, pull, table, place, left, at, code)
    }
}

/// Reads the construct that a code other than null's begins in a place, which may have so many levels.
#[cycle(reading)]
#[inline(never)]
#[tactic(auto, unfolding(stream_grammar::specs::Reading::coded))]
fn not_null<S: Source>(
    alloc: Global,
    pull: &mut Pull<'_, S>,
    table: &mut Table,
    place: SlotPlace,
    left: u32,
    at: u64,
    code: u8,
) -> Result<Slot, StreamFault>
    requires left { left ≤ LEVELS }
    requires code { code ≢ 0x70 }
    ensures { ReadsNodes S.half pull.old pull.new table.old table.new result (GivesText place)
        (λ end. coded end left (slot_at end (left - 1)) place table.old.unread.items at code) }
{
    if code == 0x71 {
        handle(pull, table, place, at)
    } else if !admits_code(place, code) {
        Err(bad(code_fault(code), at))
    } else if left == 0 {
        Err(StreamFault::TooLarge {
            what: Large::Depth,
            at,
        })
    } else if table.is_full() {
        Err(StreamFault::TooLarge {
            what: Large::Nodes,
            at,
        })
    } else {
        fresh(alloc, pull, table, at, code, left - 1)
    }
}

/// Reads the construct that the code of a node with a handle begins.
#[cycle(reading)]
#[tactic(auto, unfolding(stream_grammar::specs::Reading::fresh_at))]
fn fresh<S: Source>(
    alloc: Global,
    pull: &mut Pull<'_, S>,
    table: &mut Table,
    at: u64,
    code: u8,
    left: u32,
) -> Result<Slot, StreamFault>
    requires room { length table.old.nodes.items < NODES }
    requires left { left ≤ LEVELS }
    ensures { ReadsNodes S.half pull.old pull.new table.old table.new result GivesNode
        (λ end. fresh_at end at (slot_at end left) table.old.unread.items code) }
{
    match code {
        0x72 => desc(alloc, pull, table, at, left),
        0x73 => object(alloc, pull, table, at, left),
        0x74 => text(alloc, pull, table),
        0x75 => array(alloc, pull, table, at, left),
        0x76 => class_value(alloc, pull, table, at, left),
        0x7C => very_long_text(alloc, pull, table),
        0x7D => proxy(alloc, pull, table, at, left),
        0x7E => constant(alloc, pull, table, at, left),
        _ => Err(bad(StreamKind::BadCode, at)),
    }
}

/// A text with a length of 16 bits.
#[tactic(auto, unfolding(stream_grammar::specs::Reading::text_at))]
#[inline(never)]
fn text<S: Source>(
    alloc: Global,
    pull: &mut Pull<'_, S>,
    table: &mut Table,
) -> Result<Slot, StreamFault>
    requires room { length table.old.nodes.items < NODES }
    ensures { ReadsNodes S.half pull.old pull.new table.old table.new result GivesNode
        (λ end. text_at (short_at end)) }
{
    let text = short_text(alloc, pull)?;
    let number = table.begin(Node::Text(text))?;
    Ok(Slot::Node(number))
}

/// A text with a length of 64 bits.
#[tactic(auto, unfolding(stream_grammar::specs::Reading::text_at))]
fn very_long_text<S: Source>(
    alloc: Global,
    pull: &mut Pull<'_, S>,
    table: &mut Table,
) -> Result<Slot, StreamFault>
    requires room { length table.old.nodes.items < NODES }
    ensures { ReadsNodes S.half pull.old pull.new table.old table.new result GivesNode
        (λ end. text_at (long_at end)) }
{
    let text = long_text(alloc, pull)?;
    let number = table.begin(Node::Text(text))?;
    Ok(Slot::Node(number))
}

/// The class of a construct that begins with it. The construct's own node has room then.
#[cycle(reading)]
#[tactic(auto, unfolding(crate::specs::Named::class_named))]
fn class<S: Source>(
    alloc: Global,
    pull: &mut Pull<'_, S>,
    table: &mut Table,
    at: u64,
    left: u32,
) -> Result<u32, StreamFault>
    requires left { left ≤ LEVELS }
    ensures { ReadsNodes S.half pull.old pull.new table.old table.new result (LeavesRoom table.new)
        (λ end. class_named (slot_at end left) table.old.unread.items at) }
{
    match slot(alloc, pull, table, SlotPlace::Class, left)? {
        Slot::Null => Err(bad(StreamKind::BadCode, at)),
        Slot::Node(class) => {
            if table.is_full() {
                Err(StreamFault::TooLarge {
                    what: Large::Nodes,
                    at,
                })
            } else {
                Ok(class)
            }
        }
    }
}
