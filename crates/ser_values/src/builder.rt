//! Builders: loose nodes that become a graph.
ghost use Rattle.std.specs.Prelude.{◌≡◌, ◌↔◌, ℕ, IsTrue, false, None, Ok, Some, [], length, take, IfOk, IfErr, OnOk, slice_get};
ghost use Rattle.class_desc.specs.declared.slot.Slot.TheVariants as slots;
ghost use Rattle.ser_values.specs.declared.node.Node.TheVariants as nodes;
ghost use Rattle.ser_values.specs.Builder.{AddsNode, number_of, HasNoText, IsFirstText, MatchFirstText, put, slot_to, values_to, part_to, node_to, with_reference, or_none};
ghost use Rattle.ser_values.specs.Finished.{IsGraphOf, IsRefusal};

use crate::fault::BuildFault;
use crate::finishing::{order_of, take_nodes};
use crate::graph::Graph;
use crate::limits::NODES;
use crate::node::{Node, NodeList};
use crate::ranges::Ranged;
use crate::renumber::{places, renumber_all};
use crate::value::{Part, PartList, Value, ValueList, Values};
use class_desc::{ClassDesc, Items, ProxyDesc, Slot, SlotList};
use sequence::Units;
use std::alloc::Global;
use std::marker::Model;
use std::mem;

/// The number that a null class or name is kept by. It is no loose node's.
const NO_NODE: u32 = 0xFFFF_FFFF;

/// Loose nodes, which contracts see as the list of them: the k-th that is made, from 0, has the slot `Node(k)`.
/// A slot that is handed in may name a node that is made later.
pub struct Builder {
    alloc: Global,
    nodes: Vec<Node>,
}

// Written out, so that whoever owns one has one call at each exit, and not the drop of each field.
impl Drop for Builder {
    fn drop(self) {
        let Builder { alloc: _, nodes } = self;
        drop(nodes);
    }
}

impl Model for Builder {
    ghost use Rattle.std.specs.Prelude.{All, List, ◌≤◌, length};
    ghost use Rattle.ser_values.specs.declared.node.Node.{Node};
    ghost use Rattle.ser_values.specs.declared.limits.TheConstants.{NODES};
    ghost use Rattle.ser_values.specs.Ranges.{InRange};

    ghost Value = { List Node };

    ghost view = { λ b. b.nodes.items };

    ghost invariant = { λ b. (length b.nodes.items ≤ NODES) × All InRange b.nodes.items };
}

/// The number that a class or a name is kept by.
fn number_of(slot: Slot) -> u32
    ensures { result ≡ number_of slot }
{
    match slot {
        Slot::Null => NO_NODE,
        Slot::Node(number) => number,
    }
}

/// Writes over the reference at a place of values. False where none stands there.
fn set_value(values: &mut [Value], place: usize, to: Slot) -> bool
    ensures done { values_to values.old place to ≡ or_none result (Some values.new) }
    ensures kept { result ≡ false → values.new ≡ values.old }
{
    if place >= values.len() {
        return false;
    }
    match values[place] {
        Value::Ref(_) => {
            values[place] = Value::Ref(to);
            true
        }
        _ => false,
    }
}

/// Writes over the reference at a place of a part.
fn set_in_part(alloc: Global, part: &mut Part, place: usize, to: Slot) -> bool
    ensures done { part_to place to (Some part.old) ≡ or_none result (Some part.new) }
    ensures kept { result ≡ false → part.new ≡ part.old }
{
    let mut values = mem::replace(&mut part.values, ValueList::new(alloc)).into_vec();
    let done = set_value(&mut values, place, to);
    part.values = ValueList::from_vec(values);
    done
}

/// Writes over the reference at a place of one of several parts.
fn set_in_parts(alloc: Global, parts: &mut [Part], part: usize, place: usize, to: Slot) -> bool
    ensures done { put parts.old part (part_to place to (slice_get parts.old part))
        ≡ or_none result (Some parts.new) }
    ensures kept { result ≡ false → parts.new ≡ parts.old }
{
    if part >= parts.len() {
        return false;
    }
    set_in_part(alloc, &mut parts[part], place, to)
}

/// Writes over the reference at a place of references.
fn set_slot(slots: &mut [Slot], place: usize, to: Slot) -> bool
    ensures done { put slots.old place (slot_to to (slice_get slots.old place))
        ≡ or_none result (Some slots.new) }
    ensures kept { result ≡ false → slots.new ≡ slots.old }
{
    if place >= slots.len() {
        return false;
    }
    slots[place] = to;
    true
}

/// Writes over the reference at a place of an object's part or of an array.
fn set_in_node(alloc: Global, node: &mut Node, part: usize, place: usize, to: Slot) -> bool
    ensures done { node_to part place to (Some node.old) ≡ or_none result (Some node.new) }
    ensures kept { result ≡ false → node.new ≡ node.old }
{
    match node {
        Node::Object { parts, .. } => {
            let mut list = mem::replace(parts, PartList::new(alloc)).into_vec();
            let done = set_in_parts(alloc, &mut list, part, place, to);
            *parts = PartList::from_vec(list);
            done
        }
        Node::Array { values, .. } => match values {
            Values::Refs(slots) => {
                let mut list = mem::replace(slots, SlotList::new(alloc)).into_vec();
                let done = part == 0 && set_slot(&mut list, place, to);
                *slots = SlotList::from_vec(list);
                done
            }
            _ => false,
        },
        _ => false,
    }
}

/// Writes over the reference at a place of a loose node.
fn set_in_nodes(
    alloc: Global,
    nodes: &mut [Node],
    node: Slot,
    part: usize,
    place: usize,
    to: Slot,
) -> bool
    ensures done { with_reference nodes.old node part place to ≡ or_none result (Some nodes.new) }
    ensures kept { result ≡ false → nodes.new ≡ nodes.old }
{
    match node {
        Slot::Null => false,
        Slot::Node(number) => {
            if number as usize >= nodes.len() {
                return false;
            }
            set_in_node(alloc, &mut nodes[number as usize], part, place, to)
        }
    }
}

/// Returns whether a node is the text of some units.
fn is_text_of(node: &Node, units: &Units) -> bool
    ensures { IsTrue result ↔ (node.now ≡ nodes.Text units.now) }
{
    match node {
        Node::Text(text) => text.as_slice() == units.as_slice(),
        _ => false,
    }
}

/// The first loose text with these units.
fn find_text(nodes: &[Node], units: &Units) -> Option<usize>
    ensures { MatchFirstText nodes.now units.now result }
{
    let mut i = 0;
    while i < nodes.len() {
        if is_text_of(&nodes[i], units) {
            return Some(i);
        }
        i += 1;
    }
    None
}

impl Builder {
    /// No loose nodes.
    pub fn new(alloc: Global) -> Builder
        ensures { result ≡ [] }
    {
        Builder {
            alloc,
            nodes: Vec::new(alloc),
        }
    }

    /// The number of loose nodes: at most 65,536.
    pub fn len(&self) -> usize
        ensures { result ≡ length self.now }
    {
        self.nodes.len()
    }

    /// True where there are none.
    pub fn is_empty(&self) -> bool
        ensures { IsTrue result ↔ (self.now ≡ []) }
    {
        self.nodes.is_empty()
    }

    /// Keeps the first `len` loose nodes, or all where there are no more. So what was added to a builder can be taken back.
    pub fn truncate(&mut self, len: usize)
        ensures { self.new ≡ take len self.old }
    {
        self.nodes.truncate(len);
    }

    /// Adds a loose node.
    fn add(&mut self, node: Node) -> Result<Slot, BuildFault>
        ensures { AddsNode self.old self.new node result }
    {
        let count = self.nodes.len();
        if count >= NODES {
            drop(node);
            return Err(BuildFault::TooManyNodes);
        }
        node.look();
        match self.nodes.push(node) {
            Ok(()) => Ok(Slot::Node(count as u32)),
            Err(failed) => {
                drop(failed);
                Err(BuildFault::OutOfMemory)
            }
        }
    }

    /// A loose text.
    pub fn text(&mut self, units: Units) -> Result<Slot, BuildFault>
        ensures { AddsNode self.old self.new (nodes.Text units) result }
    {
        self.add(Node::Text(units))
    }

    /// A loose description of a class.
    pub fn desc(&mut self, desc: ClassDesc) -> Result<Slot, BuildFault>
        ensures { AddsNode self.old self.new (nodes.Desc desc) result }
    {
        self.add(Node::Desc(desc))
    }

    /// A loose description of a proxy class.
    pub fn proxy(&mut self, desc: ProxyDesc) -> Result<Slot, BuildFault>
        ensures { AddsNode self.old self.new (nodes.Proxy desc) result }
    {
        self.add(Node::Proxy(desc))
    }

    /// A loose object.
    pub fn object(&mut self, class: Slot, parts: PartList) -> Result<Slot, BuildFault>
        ensures { AddsNode self.old self.new (nodes.Object (number_of class) parts) result }
    {
        let class = number_of(class);
        self.add(Node::Object { class, parts })
    }

    /// A loose array.
    pub fn array(&mut self, class: Slot, values: Values) -> Result<Slot, BuildFault>
        ensures { AddsNode self.old self.new (nodes.Array (number_of class) values) result }
    {
        let class = number_of(class);
        self.add(Node::Array { class, values })
    }

    /// A loose constant of an enum.
    pub fn enumerated(&mut self, class: Slot, name: Slot) -> Result<Slot, BuildFault>
        ensures { AddsNode self.old self.new (nodes.Enum (number_of class) (number_of name))
            result }
    {
        let class = number_of(class);
        let name = number_of(name);
        self.add(Node::Enum { class, name })
    }

    /// A loose class as a value.
    pub fn class_of(&mut self, class: Slot) -> Result<Slot, BuildFault>
        ensures { AddsNode self.old self.new (nodes.Class (number_of class)) result }
    {
        let class = number_of(class);
        self.add(Node::Class { class })
    }

    /// The first loose text that equals the units, or a new one.
    pub fn share_text(&mut self, units: Units) -> Result<Slot, BuildFault>
        ensures shared { (j : ℕ) → IsFirstText self.old units j → (result ≡ Ok (slots.Node j))
            × (self.new ≡ self.old) }
        ensures added { HasNoText self.old units
            → AddsNode self.old self.new (nodes.Text units) result }
    {
        match find_text(&self.nodes, &units) {
            Some(number) => {
                drop(units);
                Ok(Slot::Node(number as u32))
            }
            None => self.add(Node::Text(units)),
        }
    }

    /// Writes over one reference of an object, or of an array, whose `part` is 0. So loose nodes may reach themselves.
    /// WrongShape comes exactly where no reference stands there.
    pub fn set_ref(
        &mut self,
        node: Slot,
        part: usize,
        place: usize,
        to: Slot,
    ) -> Result<(), BuildFault>
        ensures ok { OnOk result (with_reference self.old node part place to ≡ Some self.new) }
        ensures err { IfErr result (λ fault. (fault ≡ BuildFault.WrongShape)
            × (with_reference self.old node part place to ≡ None) × (self.new ≡ self.old)) }
    {
        if set_in_nodes(self.alloc, &mut self.nodes, node, part, place, to) {
            Ok(())
        } else {
            Err(BuildFault::WrongShape)
        }
    }

    /// The graph of what the items reach; the rest is dropped. WrongShape comes where the items or what they reach break
    /// the rules of graphs, however deep; then TooDeep where something is more than 200 levels deep.
    pub fn finish(self, items: Items) -> Result<Graph, BuildFault>
        ensures ok { IfOk result (λ graph. IsGraphOf self items graph.nodes graph.items) }
        ensures err { IfErr result (IsRefusal self items) }
    {
        let Builder { alloc, nodes } = self;
        let mut nodes = nodes;
        let mut items = items;
        items.look();
        let order = order_of(alloc, &nodes, items.as_slice())?;
        let places = places(alloc, &order, nodes.len())?;
        let taken = take_nodes(alloc, &mut nodes, &order, &places)?;
        renumber_all(alloc, &mut items, &places);
        Ok(Graph::from_parts(NodeList::from_vec(taken), items))
    }
}
