//! The order in which nodes get their handles: a walk with a stack of its own, since the rules are judged however deep
//! the nodes are.
ghost use Rattle.std.specs.Prelude.{◌≡◌, ◌<◌, ◌++◌, [], ◌∷◌, false, OnOk, IfOk, length, option_map};
ghost use Rattle.class_desc.specs.declared.slot.Slot.TheVariants as slots;
ghost use Rattle.ser_values.specs.declared.walking.Task.TheVariants as tasks;
ghost use Rattle.ser_values.specs.Node.{has, before, after, is_desc, item_wants, value_wants, part_wants, field_wants, slot_wants, element_wants, inside};
ghost use Rattle.ser_values.specs.Walk.{run, all, wanted, closing, is_new, stacked, Steps, visit_at, end_of};
ghost use Rattle.ser_values.specs.Seen.{IsKept};

use crate::loose::Loose;
use crate::node::{Node, SlotPlace};
use crate::seen::Seen;
use crate::shape::{admits, admits_null, is_desc, takes};
use crate::value::{Part, Value, Values};
use class_desc::{FieldDesc, Item, Slot, is_primitive};
use std::alloc::{AllocError, Global};

/// A task that is left in a walk.
#[derive(Clone, Copy, Debug)]
pub(crate) enum Task {
    /// Write what a slot names in a place, at most so many levels deep.
    Visit(SlotPlace, Slot, u32),
    /// Give a node its handle, and write what stands after it, at most so many levels deep.
    Number(u32, u32),
    /// The last unread description was written whole.
    Close,
}

/// Puts what items want onto the stack, the first on top.
#[tactic(auto, unfolding(crate::specs::Node::item_wants))]
fn push_items(stack: &mut Vec<Task>, items: &[Item], left: u32) -> Result<(), AllocError>
    ensures { OnOk result (stacked stack.new.items ≡ wanted left (item_wants items.now)
        ++ stacked stack.old.items) }
{
    let mut i = items.len();
    while i > 0 {
        i -= 1;
        match &items[i] {
            Item::Bytes(_) => {}
            Item::Ref(slot) => stack.push(Task::Visit(SlotPlace::Reference, *slot, left))?,
        }
    }
    Ok(())
}

/// Puts what values want onto the stack.
#[tactic(auto, unfolding(crate::specs::Node::value_wants))]
fn push_values(stack: &mut Vec<Task>, values: &[Value], left: u32) -> Result<(), AllocError>
    ensures { OnOk result (stacked stack.new.items ≡ wanted left (value_wants values.now)
        ++ stacked stack.old.items) }
{
    let mut i = values.len();
    while i > 0 {
        i -= 1;
        if let Value::Ref(slot) = values[i] {
            stack.push(Task::Visit(SlotPlace::Reference, slot, left))?;
        }
    }
    Ok(())
}

/// Puts what parts want onto the stack.
#[tactic(auto, unfolding(crate::specs::Node::part_wants))]
fn push_parts(stack: &mut Vec<Task>, parts: &[Part], left: u32) -> Result<(), AllocError>
    ensures { OnOk result (stacked stack.new.items ≡ wanted left (part_wants parts.now)
        ++ stacked stack.old.items) }
{
    let mut i = parts.len();
    while i > 0 {
        i -= 1;
        push_items(stack, parts[i].note.as_slice(), left)?;
        push_values(stack, parts[i].values.as_slice(), left)?;
    }
    Ok(())
}

/// Puts the type texts of fields onto the stack.
#[tactic(auto, unfolding(crate::specs::Node::field_wants))]
fn push_fields(stack: &mut Vec<Task>, fields: &[FieldDesc], left: u32) -> Result<(), AllocError>
    ensures { OnOk result (stacked stack.new.items ≡ wanted left (field_wants fields.now)
        ++ stacked stack.old.items) }
{
    let mut i = fields.len();
    while i > 0 {
        i -= 1;
        if !is_primitive(fields[i].code) {
            stack.push(Task::Visit(SlotPlace::Text, fields[i].type_text, left))?;
        }
    }
    Ok(())
}

/// Puts references onto the stack.
#[tactic(auto, unfolding(crate::specs::Node::slot_wants))]
fn push_slots(stack: &mut Vec<Task>, slots: &[Slot], left: u32) -> Result<(), AllocError>
    ensures { OnOk result (stacked stack.new.items ≡ wanted left (slot_wants slots.now)
        ++ stacked stack.old.items) }
{
    let mut i = slots.len();
    while i > 0 {
        i -= 1;
        stack.push(Task::Visit(SlotPlace::Reference, slots[i], left))?;
    }
    Ok(())
}

/// Puts what elements want onto the stack.
fn push_elements(stack: &mut Vec<Task>, values: &Values, left: u32) -> Result<(), AllocError>
    ensures { OnOk result (stacked stack.new.items ≡ wanted left (element_wants values.now)
        ++ stacked stack.old.items) }
{
    match values {
        Values::Refs(slots) => push_slots(stack, slots.as_slice(), left),
        _ => Ok(()),
    }
}

/// Puts one reference onto the stack.
fn push_one(
    stack: &mut Vec<Task>,
    place: SlotPlace,
    slot: Slot,
    left: u32,
) -> Result<(), AllocError>
    ensures { OnOk result (stacked stack.new.items ≡ tasks.Visit place slot left
        ∷ stacked stack.old.items) }
{
    stack.push(Task::Visit(place, slot, left))?;
    Ok(())
}

/// Puts onto the stack what is written of a node before its handle is given.
#[tactic(auto, unfolding(crate::specs::Node::before))]
fn push_before(stack: &mut Vec<Task>, node: &Node, left: u32) -> Result<(), AllocError>
    ensures { OnOk result (stacked stack.new.items ≡ wanted left (before node.now)
        ++ stacked stack.old.items) }
{
    match node {
        Node::Text(_) => Ok(()),
        Node::Desc(_) => Ok(()),
        Node::Proxy(_) => Ok(()),
        Node::Object { class, .. } => push_one(stack, SlotPlace::Class, Slot::Node(*class), left),
        Node::Array { class, .. } => push_one(stack, SlotPlace::Class, Slot::Node(*class), left),
        Node::Class { class } => push_one(stack, SlotPlace::Class, Slot::Node(*class), left),
        Node::Enum { class, .. } => push_one(stack, SlotPlace::Class, Slot::Node(*class), left),
    }
}

/// Puts onto the stack what is written of a node after its handle was given.
#[tactic(auto, unfolding(crate::specs::Node::after))]
fn push_after(stack: &mut Vec<Task>, node: &Node, left: u32) -> Result<(), AllocError>
    ensures { OnOk result (stacked stack.new.items ≡ wanted left (after node.now)
        ++ stacked stack.old.items) }
{
    match node {
        Node::Text(_) => Ok(()),
        Node::Desc(desc) => {
            push_one(stack, SlotPlace::Parent, desc.parent, left)?;
            push_items(stack, desc.note.as_slice(), left)?;
            push_fields(stack, desc.fields.as_slice(), left)
        }
        Node::Proxy(proxy) => {
            push_one(stack, SlotPlace::Parent, proxy.parent, left)?;
            push_items(stack, proxy.note.as_slice(), left)
        }
        Node::Object { parts, .. } => push_parts(stack, parts.as_slice(), left),
        Node::Array { values, .. } => push_elements(stack, values, left),
        Node::Class { .. } => Ok(()),
        Node::Enum { name, .. } => push_one(stack, SlotPlace::Text, Slot::Node(*name), left),
    }
}

/// Returns whether a node without a handle may get one in a place, so many levels above the limit.
fn is_new(loose: &Loose, left: u32, place: SlotPlace, node: &Node) -> bool
    ensures { result ≡ is_new loose.now.nodes.now left place node.now }
{
    left != 0 && (admits(place, node) && loose.is_shaped(node))
}

/// Writes a node in a place: its handle, or first what stands before its handle. False where the rules forbid it.
fn visit(
    loose: &Loose,
    seen: &Seen,
    stack: &mut Vec<Task>,
    place: SlotPlace,
    number: u32,
    left: u32,
) -> Result<bool, AllocError>
    requires kept { IsKept seen.now }
    requires count { length seen.now.marks.items ≡ length loose.now.nodes.now }
    ensures { Steps result
        (run loose.now.nodes.now (tasks.Visit place (slots.Node number) left
        ∷ stacked stack.old.items) seen.now.unread.items seen.now.order.items)
        (run loose.now.nodes.now (stacked stack.new.items) seen.now.unread.items
        seen.now.order.items) }
{
    match loose.node(number) {
        None => Ok(false),
        Some(node) => {
            if seen.is_seen(number) {
                return Ok(takes(place, seen.is_unread(number), node));
            }
            if !is_new(loose, left, place, node) {
                return Ok(false);
            }
            stack.push(Task::Number(number, left - 1))?;
            push_before(stack, node, left - 1)?;
            Ok(true)
        }
    }
}

/// Gives a node its handle; a description is unread until its task is done.
fn enter(seen: &mut Seen, stack: &mut Vec<Task>, number: u32, node: &Node) -> Result<(), AllocError>
    requires kept { IsKept seen.old }
    requires within { number < length seen.old.marks.items }
    requires unseen { has seen.old.order.items number ≡ false }
    ensures kept { OnOk result (IsKept seen.new) }
    ensures count { length seen.new.marks.items ≡ length seen.old.marks.items }
    ensures order { OnOk result (seen.new.order.items ≡ seen.old.order.items ++ number ∷ []) }
    ensures unread { OnOk result (seen.new.unread.items
        ≡ inside seen.old.unread.items number node.now) }
    ensures stack { OnOk result (stacked stack.new.items
        ≡ closing (is_desc node.now) (stacked stack.old.items)) }
{
    if is_desc(node) {
        stack.push(Task::Close)?;
        seen.open(number)
    } else {
        seen.number(number)
    }
}

/// Gives a node its handle, and writes what stands after it.
fn give_handle(
    loose: &Loose,
    seen: &mut Seen,
    stack: &mut Vec<Task>,
    number: u32,
    left: u32,
) -> Result<bool, AllocError>
    requires kept { IsKept seen.old }
    requires count { length seen.old.marks.items ≡ length loose.now.nodes.now }
    ensures kept { OnOk result (IsKept seen.new) }
    ensures count { length seen.new.marks.items ≡ length loose.now.nodes.now }
    ensures step { Steps result
        (run loose.now.nodes.now (tasks.Number number left ∷ stacked stack.old.items)
        seen.old.unread.items seen.old.order.items)
        (run loose.now.nodes.now (stacked stack.new.items) seen.new.unread.items
        seen.new.order.items) }
{
    match loose.node(number) {
        None => Ok(false),
        Some(node) => {
            if seen.is_seen(number) {
                return Ok(false);
            }
            enter(seen, stack, number, node)?;
            push_after(stack, node, left)?;
            Ok(true)
        }
    }
}

/// Does one task. False where the rules forbid it.
fn step(
    loose: &Loose,
    seen: &mut Seen,
    stack: &mut Vec<Task>,
    task: Task,
) -> Result<bool, AllocError>
    requires kept { IsKept seen.old }
    requires count { length seen.old.marks.items ≡ length loose.now.nodes.now }
    ensures kept { OnOk result (IsKept seen.new) }
    ensures count { length seen.new.marks.items ≡ length loose.now.nodes.now }
    ensures step { Steps result
        (run loose.now.nodes.now (task ∷ stacked stack.old.items) seen.old.unread.items
        seen.old.order.items)
        (run loose.now.nodes.now (stacked stack.new.items) seen.new.unread.items
        seen.new.order.items) }
{
    match task {
        Task::Close => {
            seen.close();
            Ok(true)
        }
        Task::Number(number, left) => give_handle(loose, seen, stack, number, left),
        Task::Visit(place, slot, left) => match slot {
            Slot::Null => Ok(admits_null(place)),
            Slot::Node(number) => visit(loose, seen, stack, place, number, left),
        },
    }
}

/// The numbers of the nodes that items reach, in the order of their handles; none where the rules forbid it within so
/// many levels.
pub(crate) fn walk(
    alloc: Global,
    loose: &Loose,
    items: &[Item],
    levels: u32,
) -> Result<Option<Vec<u32>>, AllocError>
    ensures { IfOk result (λ r. option_map (λ v. v.items) r
        ≡ end_of (all (visit_at loose.now.nodes.now levels []) (item_wants items.now) [])) }
{
    let mut seen = Seen::new(alloc, loose.count())?;
    let mut stack = Vec::new(alloc);
    push_items(&mut stack, items, levels)?;
    while let Some(task) = stack.pop() {
        if !step(loose, &mut seen, &mut stack, task)? {
            return Ok(None);
        }
    }
    Ok(Some(seen.into_order()))
}
