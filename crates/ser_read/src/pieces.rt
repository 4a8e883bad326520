//! Codes, handles, names and items by themselves.
ghost use Rattle.std.specs.Prelude.{◌≡◌, ◌≢◌, ◌+◌, List, ℕ, true, false, nat_lt, length, IfOk, IfErr, OnOk};
ghost use Rattle.ser_values.specs.declared.limits.TheConstants.{PARTS};
ghost use Rattle.class_desc.specs.declared.slot.Slot.TheVariants.{Null};
ghost use Rattle.ser_values.specs.declared.node.SlotPlace.TheVariants.{Text};
ghost use Rattle.ser_values.specs.declared.node.Node.TheVariants.{Desc};
ghost use Rattle.stream_grammar.specs.Reading.{Progress, add_parts, many_at, plain, short_at, null_at, handle_at, admits_code, code_fault, blank};
ghost use Rattle.ser_read.specs.Named.{add_bytes, added};
ghost use Rattle.ser_read.specs.Tables.{now_of};
ghost use Rattle.ser_read.specs.declared.fault.StreamFault.{StreamFault};
ghost use Rattle.ser_read.specs.declared.fault.StreamFault.TheVariants.{Bad, TooLarge};
ghost use Rattle.ser_read.specs.declared.fault.Large.TheVariants.{Nodes};
ghost use Rattle.ser_read.specs.Here.{Caused, Gives, ReadsTaken, StopsTaken, kind_of, IsInBytes};

use crate::fault::{Large, StreamFault, StreamKind};
use crate::pulled::{four, short_text};
use crate::table::Table;
use class_desc::{ClassDesc, FieldList, Item, Items, Slot};
use sequence::{ByteList, NameList, Units};
use ser_values::{FIRST_HANDLE, Node, SlotPlace};
use std::alloc::{AllocError, Global};
use wire_io::pull::Pull;
use wire_io::source::Source;

/// A fault at a position.
pub(crate) fn bad(kind: StreamKind, at: u64) -> StreamFault
    ensures { result ≡ Bad kind at }
{
    StreamFault::Bad { kind, at }
}

/// Returns whether a place takes a node of a code for the first time.
pub(crate) fn admits_code(place: SlotPlace, code: u8) -> bool
    ensures { result ≡ admits_code place code }
{
    match place {
        SlotPlace::Reference => {
            0x72 <= code && code <= 0x76 || (code == 0x7C || (code == 0x7D || code == 0x7E))
        }
        SlotPlace::Class => code == 0x72 || code == 0x7D,
        SlotPlace::Parent => code == 0x72 || code == 0x7D,
        SlotPlace::Text => code == 0x74 || code == 0x7C,
    }
}

/// Why a code stands in no place.
pub(crate) fn code_fault(code: u8) -> StreamKind
    ensures kind { kind_of result ≡ code_fault code }
    ensures known { IsInBytes result }
{
    if code == 0x79 {
        StreamKind::Reset
    } else if code == 0x7B {
        StreamKind::InnerException
    } else {
        StreamKind::BadCode
    }
}

/// A description that is still being read.
pub(crate) fn blank(alloc: Global) -> Node
    ensures { result ≡ Desc blank }
{
    Node::Desc(ClassDesc {
        name: Units::new(alloc),
        suid: 0,
        flags: 0,
        fields: FieldList::new(alloc),
        note: Items::new(alloc),
        parent: Slot::Null,
    })
}

/// Null, whose code at this position was read.
pub(crate) fn null(place: SlotPlace, at: u64) -> Result<Slot, StreamFault>
    ensures gives { (after : StreamFault) (now : Progress) (bs : List ℕ)
        → Gives after (λ slot. (slot, now, bs)) result (null_at place at now bs) }
    ensures cause { (faults : ℕ) → Caused faults faults result }
    ensures some { place ≡ Text → IfOk result (λ slot. slot ≢ Null) }
{
    match place {
        SlotPlace::Reference => Ok(Slot::Null),
        SlotPlace::Parent => Ok(Slot::Null),
        SlotPlace::Class => Err(bad(StreamKind::BadCode, at)),
        SlotPlace::Text => Err(bad(StreamKind::BadCode, at)),
    }
}

/// A handle, whose code at this position was read.
#[tactic(auto, unfolding(stream_grammar::specs::Reading::handle_at))]
pub(crate) fn handle<S: Source>(
    pull: &mut Pull<'_, S>,
    table: &Table,
    place: SlotPlace,
    at: u64,
) -> Result<Slot, StreamFault>
    ensures some { IfOk result (λ slot. slot ≢ Null) }
    ensures lent { pull.new.source.ghost_name ≡ pull.old.source.ghost_name }
    ensures reads { ReadsTaken S.half pull.old pull.new result
        (λ end. handle_at place table.now.unread.items at (now_of table.now))
        (λ x rest. (x, now_of table.now, rest)) }
    ensures stops { StopsTaken S.half pull.old pull.new result
        (λ end. handle_at place table.now.unread.items at (now_of table.now)) }
{
    let handle = four(pull)?;
    if handle < FIRST_HANDLE {
        return Err(bad(StreamKind::BadHandle, at));
    }
    let number = handle - FIRST_HANDLE;
    match table.handle_fault(place, number) {
        Some(kind) => Err(bad(kind, at)),
        None => Ok(Slot::Node(number)),
    }
}

/// Counts so many further parts. `TooLarge` of nodes comes at this position where there is no room for them.
pub(crate) fn count_parts(table: &mut Table, more: usize, at: u64) -> Result<(), StreamFault>
    ensures ok { OnOk result (now_of table.new ≡ add_parts more (now_of table.old)) }
    ensures err { IfErr result (λ fault. (fault ≡ TooLarge Nodes at)
        × (nat_lt PARTS ((now_of table.old).parts + more) ≡ true)) }
    ensures room { OnOk result (nat_lt PARTS ((now_of table.old).parts + more) ≡ false) }
    ensures unread { table.new.unread.items ≡ table.old.unread.items }
    ensures grows { length table.new.nodes.items ≡ length table.old.nodes.items }
{
    if table.lacks_parts(more) {
        return Err(StreamFault::TooLarge {
            what: Large::Nodes,
            at,
        });
    }
    table.add_parts(more);
    Ok(())
}

/// The names of a proxy's interfaces.
pub(crate) fn names<S: Source>(
    alloc: Global,
    pull: &mut Pull<'_, S>,
    n: u32,
) -> Result<NameList, StreamFault>
    ensures lent { pull.new.source.ghost_name ≡ pull.old.source.ghost_name }
    ensures reads { (now : Progress) → ReadsTaken S.half pull.old pull.new result
        (λ end. many_at (plain (short_at end)) n now) (λ x rest. (x, now, rest)) }
    ensures stops { (now : Progress) → StopsTaken S.half pull.old pull.new result
        (λ end. many_at (plain (short_at end)) n now) }
{
    let mut names = NameList::new(alloc);
    for _ in 0..n {
        let name = short_text(alloc, pull)?;
        names.push(name)?;
    }
    Ok(names)
}

/// Makes room for one more item. A list has at most half as much room again as it has items, for most notes are short, and there can be a
/// million of them.
fn make_room(items: &mut Vec<Item>) -> Result<(), AllocError>
    ensures { items.new.items ≡ items.old.items }
{
    let len = items.len();
    if items.capacity() == len {
        items.reserve_exact(len / 2 + 1)?;
    }
    Ok(())
}

/// Adds block data behind items: it joins block data that stands last, and no bytes are no item.
#[inline(never)]
#[tactic(auto, unfolding(crate::specs::Named::add_bytes))]
fn add_bytes(items: &mut Vec<Item>, bytes: ByteList) -> Result<(), AllocError>
    ensures { OnOk result (items.new.items ≡ add_bytes items.old.items bytes) }
{
    if bytes.is_empty() {
        return Ok(());
    }
    match items.pop() {
        None => {
            make_room(items)?;
            items.push(Item::Bytes(bytes))?;
        }
        Some(last) => match last {
            Item::Bytes(mut joined) => {
                joined.append(bytes.as_slice())?;
                items.push(Item::Bytes(joined))?;
            }
            Item::Ref(slot) => {
                items.push(Item::Ref(slot))?;
                make_room(items)?;
                items.push(Item::Bytes(bytes))?;
            }
        },
    }
    Ok(())
}

/// Adds an item behind items.
#[inline(always)]
pub(crate) fn add(items: &mut Vec<Item>, item: Item) -> Result<(), AllocError>
    ensures { OnOk result (items.new.items ≡ added items.old.items item) }
{
    match item {
        Item::Ref(slot) => {
            make_room(items)?;
            items.push(Item::Ref(slot))?;
            Ok(())
        }
        Item::Bytes(bytes) => add_bytes(items, bytes),
    }
}
