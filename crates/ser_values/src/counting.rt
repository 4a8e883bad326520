//! How many parts nodes and items have.
ghost use Rattle.std.specs.Prelude.{◌≡◌, ◌<◌, ◌≤◌, ◌+◌, None, length, IfSome, ◌^◌};
ghost use Rattle.ser_values.specs.declared.limits.TheConstants.{PARTS};
ghost use Rattle.ser_values.specs.Shape.{refs_in, sizes_in, notes_in, parts_of};

use crate::limits::PARTS;
use crate::node::Node;
use crate::value::{Part, Values};
use class_desc::Item;

/// Returns the number of references among items.
#[tactic(auto, unfolding(crate::specs::Node::item_wants))]
pub(crate) fn refs_in(items: &[Item]) -> usize
    ensures count { result ≡ refs_in items.now }
    ensures bound { result ≤ length items.now }
{
    let mut count: usize = 0;
    for item in items {
        match item {
            Item::Bytes(_) => {}
            Item::Ref(_) => count += 1,
        }
    }
    count
}

/// Returns the number of parts that an object's parts are, with their values and the references of their notes. None where it is past the limit.
#[tactic(auto, unfolding(crate::specs::Shape::sizes_in, crate::specs::Shape::notes_in))]
fn object_parts(parts: &[Part]) -> Option<usize>
    ensures few { IfSome result (λ n. (n ≡ sizes_in parts.now + notes_in parts.now) × (n ≤ PARTS)) }
    ensures many { result ≡ None → PARTS < sizes_in parts.now + notes_in parts.now }
{
    let mut total: usize = 0;
    for part in parts {
        let more = part.values.as_slice().len() + refs_in(part.note.as_slice());
        if more >= PARTS - total {
            return None;
        }
        total += more + 1;
    }
    Some(total)
}

/// Returns a sum of two lengths. None where it is past the limit.
fn sum(one: usize, other: usize) -> Option<usize>
    requires one { one < 2 ^ 63 }
    requires other { other < 2 ^ 63 }
    ensures few { IfSome result (λ n. (n ≡ one + other) × (n ≤ PARTS)) }
    ensures many { result ≡ None → PARTS < one + other }
{
    let total = one + other;
    if total > PARTS { None } else { Some(total) }
}

/// Returns the number of parts of a node. None where it is past the limit.
pub(crate) fn parts_of(node: &Node) -> Option<usize>
    ensures few { IfSome result (λ n. (n ≡ parts_of node.now) × (n ≤ PARTS)) }
    ensures many { result ≡ None → PARTS < parts_of node.now }
{
    match node {
        Node::Object { parts, .. } => object_parts(parts.as_slice()),
        Node::Desc(desc) => sum(desc.fields.as_slice().len(), refs_in(desc.note.as_slice())),
        Node::Proxy(proxy) => sum(proxy.names.as_slice().len(), refs_in(proxy.note.as_slice())),
        Node::Array {
            values: Values::Refs(slots),
            ..
        } => sum(slots.as_slice().len(), 0),
        _ => Some(0),
    }
}
