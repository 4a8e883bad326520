//! Graphs.
ghost use Rattle.std.specs.Prelude.{◌≡◌, ◌↔◌, IsTrue, [], ◌∷◌, length, IfOk, IfErr, option_map, slice_get};
ghost use Rattle.class_desc.specs.declared.slot.Item.TheVariants as contents;
ghost use Rattle.ser_values.specs.Numbered.{IsGraph};
ghost use Rattle.ser_values.specs.Finished.{IsGraphOf, IsRefusal};

use crate::fault::BuildFault;
use crate::finishing::{copy_nodes, order_of};
use crate::node::{Node, NodeList};
use crate::renumber::{places, renumber_all};
use class_desc::{Item, Items, Slot};
use sequence::Same;
use std::alloc::{AllocError, Global};

/// The nodes of a stream in the order of their handles, and its items. Every node is reached from the items.
#[derive(Debug)]
pub struct Graph {
    nodes: NodeList,
    items: Items,
    pub ghost numbered: { ∥ IsGraph nodes items ∥₁ },
}

// Written out, so that whoever owns one has one call at each exit, and not the drop of each field.
impl Drop for Graph {
    fn drop(self) {
        let Graph { nodes, items } = self;
        drop(nodes);
        drop(items);
    }
}

impl Graph {
    /// The graph of nodes that are numbered so. It takes no memory.
    pub fn from_parts(nodes: NodeList, items: Items) -> Graph
        requires { ∥ IsGraph nodes items ∥₁ }
        ensures nodes { result.nodes ≡ nodes }
        ensures items { result.items ≡ items }
    {
        Graph { nodes, items }
    }

    /// The graph's nodes and items. It takes no memory.
    pub fn into_parts(self) -> (NodeList, Items)
        ensures nodes { result.0 ≡ self.nodes }
        ensures items { result.1 ≡ self.items }
    {
        let Graph { nodes, items } = self;
        (nodes, items)
    }

    /// The node of a number; None from the count on.
    pub fn node(&self, number: u32) -> Option<&Node>
        ensures { slice_get self.now.nodes number ≡ option_map (λ node. node.now) result }
    {
        self.nodes.as_slice().get(number as usize)
    }

    /// The nodes in the order of their handles.
    pub fn nodes(&self) -> &NodeList
        ensures { result.now ≡ self.now.nodes }
    {
        &self.nodes
    }

    /// The items.
    pub fn items(&self) -> &Items
        ensures { result.now ≡ self.now.items }
    {
        &self.items
    }

    /// The number of nodes: at most 65,536.
    pub fn count(&self) -> u32
        ensures { result ≡ length self.now.nodes }
    {
        self.nodes.len() as u32
    }

    /// A copy, which equals its source. It is refused only for want of memory.
    pub fn copy(&self, alloc: Global) -> Result<Graph, AllocError>
        ensures nodes { IfOk result (λ copy. copy.nodes ≡ self.now.nodes) }
        ensures items { IfOk result (λ copy. copy.items ≡ self.now.items) }
    {
        Ok(Graph {
            nodes: self.nodes.copy(alloc)?,
            items: self.items.copy(alloc)?,
        })
    }

    /// The graph whose one item is a reference: its nodes are those that the reference reaches, under new numbers.
    /// WrongShape comes where a class or a superclass would then name a description that isn't written whole,
    /// or the reference names no node; TooDeep where something would be more than 200 levels deep.
    pub fn part(&self, alloc: Global, slot: Slot) -> Result<Graph, BuildFault>
        ensures ok { IfOk result
            (λ part. IsGraphOf self.now.nodes (contents.Ref slot ∷ []) part.nodes part.items) }
        ensures err { IfErr result (IsRefusal self.now.nodes (contents.Ref slot ∷ [])) }
    {
        let nodes = self.nodes.as_slice();
        let mut items = Items::new(alloc);
        items.push(Item::Ref(slot))?;
        let order = order_of(alloc, nodes, items.as_slice())?;
        let places = places(alloc, &order, nodes.len())?;
        let copies = copy_nodes(alloc, nodes, &order, &places)?;
        renumber_all(alloc, &mut items, &places);
        Ok(Graph {
            nodes: NodeList::from_vec(copies),
            items,
        })
    }
}

/// True where two graphs are equal: the same nodes under the same numbers, and the same items.
pub fn same_graph(a: &Graph, b: &Graph) -> bool
    ensures { IsTrue result ↔ (a.now.nodes ≡ b.now.nodes) × (a.now.items ≡ b.now.items) }
{
    a.nodes.is_same(&b.nodes) && a.items.is_same(&b.items)
}
