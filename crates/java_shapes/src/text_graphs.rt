//! The graph of a list of texts.
ghost use Rattle.std.specs.Prelude.{◌≡◌, ◌≤◌, ◌++◌, [], All, Some, length, IfOk, OnOk, IsTrue};
ghost use Rattle.class_desc.specs.declared.slot.Slot.TheVariants as slots;
ghost use Rattle.java_shapes.specs.Ids.{texts_at};
ghost use Rattle.java_shapes.specs.TextsGraph.{CanBeText, array_first, slots_from, text_nodes, texts_items, texts_nodes};

use crate::class_part::copy_text;
use crate::fault_graphs::{add_class, add_text, look};
use class_desc::{Item, Items, KnownClass, Slot, SlotList};
use sequence::{NameList, Units};
use ser_values::limits::NODES;
use ser_values::{Graph, Node, NodeList, Values};
use std::alloc::{AllocError, Global};

/// The most units of a text.
const TEXT_UNITS: usize = 1 << 60;

/// The slots of so many texts, the first of which is node 2.
fn text_slots(alloc: Global, names: &[Units]) -> Result<SlotList, AllocError>
    requires { length names.now ≤ 65534 }
    ensures { IfOk result (λ list. list ≡ slots_from 2 names.now) }
{
    let mut list = SlotList::new(alloc);
    let mut at = 2;
    for _name in names {
        list.push(Slot::Node(at))?;
        at += 1;
    }
    Ok(list)
}

/// Adds an array of texts with its class, the first nodes; the texts follow it.
fn add_array(alloc: Global, nodes: &mut NodeList, names: &[Units]) -> Result<(), AllocError>
    requires empty { nodes.old ≡ [] }
    requires few { length names.now ≤ 65534 }
    ensures { OnOk result (nodes.new ≡ array_first names.now) }
{
    add_class(alloc, nodes, KnownClass::TextArray, &[], Slot::Null)?;
    let list = text_slots(alloc, names)?;
    nodes.push(Node::Array {
        class: 0,
        values: Values::Refs(list),
    })
}

/// Adds texts.
fn add_texts(alloc: Global, nodes: &mut NodeList, names: &[Units]) -> Result<(), AllocError>
    ensures { OnOk result (nodes.new ≡ nodes.old ++ text_nodes names.now) }
{
    for name in names {
        add_text(nodes, copy_text(alloc, name)?)?;
    }
    Ok(())
}

/// The nodes of a list of texts.
#[tactic(auto, unfolding(crate::specs::TextsGraph::texts_nodes))]
fn texts_nodes(alloc: Global, names: &[Units]) -> Result<NodeList, AllocError>
    requires { length names.now ≤ 65534 }
    ensures { IfOk result (λ nodes. nodes ≡ texts_nodes names.now) }
{
    let mut nodes = NodeList::new(alloc);
    add_array(alloc, &mut nodes, names)?;
    add_texts(alloc, &mut nodes, names)?;
    Ok(nodes)
}

/// The one item of a list of texts.
fn texts_items(alloc: Global) -> Result<Items, AllocError>
    ensures { IfOk result (λ items. items ≡ texts_items) }
{
    let mut items = Items::new(alloc);
    items.push(Item::Ref(Slot::Node(1)))?;
    Ok(items)
}

/// Returns whether a text has at most 2^60 units.
fn can_be_text(name: &Units) -> bool
    ensures { IsTrue result → CanBeText name.now }
{
    look(name.as_slice());
    name.len() <= TEXT_UNITS
}

/// Returns whether each text has at most 2^60 units.
fn can_be_texts(names: &[Units]) -> bool
    ensures { IsTrue result → All CanBeText names.now }
{
    for name in names {
        if !can_be_text(name) {
            return false;
        }
    }
    true
}

/// The graph whose one item is a `String[]` of texts. It is refused only for want of memory, which more than 65,534 texts, or one of
/// more than 2^60 units, would want.
pub fn texts_graph(alloc: Global, names: &NameList) -> Result<Graph, AllocError>
    ensures nodes { IfOk result (λ graph. graph.nodes ≡ texts_nodes names.now) }
    ensures items { IfOk result (λ graph. graph.items ≡ texts_items) }
    ensures viewed { IfOk result (λ graph. texts_at graph.nodes (slots.Node 1) ≡ Some names.now) }
{
    let names = names.as_slice();
    if names.len() > NODES - 2 || !can_be_texts(names) {
        return Err(AllocError);
    }
    let nodes = texts_nodes(alloc, names)?;
    let items = texts_items(alloc)?;
    Ok(Graph::from_parts(nodes, items))
}
