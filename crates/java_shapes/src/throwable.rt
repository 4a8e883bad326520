//! The text of a fault.
ghost use Rattle.std.specs.Prelude.{◌≡◌, IfOk, option_map};
ghost use Rattle.java_shapes.specs.Throwable.{class_name_in, message_of, with_message, fault_text_at};
ghost use Rattle.java_shapes.specs.ViewAnswers.{Views};

use crate::class_part::{ClassPart, held_in, node_at, text_in};
use crate::fault::ShapeFault;
use class_desc::{Slot, TypeCode};
use sequence::Units;
use ser_values::{Graph, Node};
use std::alloc::{AllocError, Global};

/// The name of an object's class.
fn class_name<'a>(nodes: &'a [Node], node: Option<&'a Node>) -> Option<&'a Units>
    ensures { option_map (λ name. name.now) result
        ≡ class_name_in nodes.now (option_map (λ node. node.now) node.entry) }
{
    match node {
        Some(Node::Object { class, .. }) => match nodes.get(*class as usize) {
            Some(Node::Desc(desc)) => Some(&desc.name),
            _ => None,
        },
        _ => None,
    }
}

/// The message in an object's part of class `java.lang.Throwable`, where there is one.
fn message_of<'a>(nodes: &'a [Node], throwable: ClassPart<'a>) -> Option<&'a Units>
    ensures { option_map (λ text. text.now) result
        ≡ message_of nodes.now (throwable.entry.desc.now, throwable.entry.part.now) }
{
    match throwable.slot(TypeCode::Object, "detailMessage") {
        Some(slot) => text_in(node_at(nodes, slot)),
        None => None,
    }
}

/// A class's name, and a message after it.
fn text_of(alloc: Global, name: &Units, message: Option<&Units>) -> Result<Units, AllocError>
    ensures { IfOk result (λ text. text ≡ with_message name.now
        (option_map (λ message. message.now) message.entry)) }
{
    let mut text = name.copy(alloc)?;
    if let Some(message) = message {
        text.append(&[u16::from(b':'), u16::from(b' ')])?;
        text.append(message.as_slice())?;
    }
    Ok(text)
}

/// The text of a fault.
fn fault_text(alloc: Global, nodes: &[Node], slot: Slot) -> Result<Units, ShapeFault>
    ensures { Views result (fault_text_at nodes.now slot) }
{
    let node = node_at(nodes, slot);
    let Some(name) = class_name(nodes, node) else {
        return Err(ShapeFault::WrongShape);
    };
    let Some(throwable) = held_in(nodes, node, "java.lang.Throwable") else {
        return Err(ShapeFault::WrongShape);
    };
    Ok(text_of(alloc, name, message_of(nodes, throwable))?)
}

/// The text of a fault: the name of its class, and, where its `detailMessage` is a text, a colon, a space and that text.
/// WrongShape comes exactly where the slot is no object that has a part of class `java.lang.Throwable`, or where its own class is a proxy.
pub fn as_fault_text(alloc: Global, graph: &Graph, slot: Slot) -> Result<Units, ShapeFault>
    ensures { Views result (fault_text_at graph.now.nodes slot) }
{
    fault_text(alloc, graph.nodes().as_slice(), slot)
}
