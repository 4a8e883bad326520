//! The nodes of a stream that is being read.
ghost use Rattle.std.specs.Prelude.{◌≡◌, ◌+◌, ◌<◌, ◌≤◌, ◌++◌, ◌∷◌, [], map, not, nat_lt, length, option_map, slice_get, IfOk, IfSome, OnOk, Some, None, List, ℕ, ◌^◌, if◌then◌else◌};
ghost use Rattle.ser_values.specs.declared.limits.TheConstants.{NODES, PARTS};
ghost use Rattle.ser_values.specs.Loose.{elements_in, elements_at};
ghost use Rattle.ser_values.specs.Node.{has, is_desc, is_text};
ghost use Rattle.ser_values.specs.declared.node.Node.TheVariants.{Desc, Object};

use crate::fault::StreamKind;
use class_desc::{ClassDesc, ENUM, Slot, TypeCode, element_code, is_primitive};
use ser_values::limits::{NODES, PARTS};
use ser_values::{Node, NodeList, PartList, SlotPlace, elements_in, fits_node, is_desc, is_text};
use std::alloc::{AllocError, Global};

/// For how many nodes there is room when the first one is added: as many as most calls have. A memory allocator keeps blocks of up to about
/// 1,000 bytes at hand, and takes longer for larger ones.
const ROOM: usize = 8;

/// For how many types of elements there is room when the first one is added.
const TYPES: usize = 32;

/// The nodes so far. One that is still being read stands there empty, and is written over when it was read.
#[derive(Drop)]
pub(crate) struct Table {
    /// The nodes in the order of their handles.
    pub(crate) nodes: Vec<Node>,
    /// The type of the elements of the array class that each node's text or name says, so that no text is looked through
    /// at each node that names it.
    elements: Vec<Option<TypeCode>>,
    /// The number of parts that were counted.
    parts: usize,
    /// The descriptions that are still being read, the outermost first.
    unread: Vec<u32>,
    ghost known: { elements.items ≡ map elements_in nodes.items },
    ghost few_nodes: { length nodes.items ≤ NODES },
    ghost few_parts: { parts ≤ PARTS },
}

/// Returns whether a number is among some, at most 200.
#[tactic(auto, unfolding(ser_values::specs::Node::has))]
fn has(numbers: &[u32], number: u32) -> bool
    ensures { result ≡ has numbers.now number }
{
    match numbers {
        [] => false,
        [first, rest @ ..] => *first == number || has(rest, number),
    }
}

/// For how many further nodes there is to be room behind so many: for `first` behind none, and for one behind others, since room doubles as it
/// grows.
fn room_behind(nodes: usize, first: usize) -> usize
    requires { 1 ≤ first }
    ensures { 1 ≤ result }
{
    if nodes == 0 { first } else { 1 }
}

/// Writes a description. Where one stands already, as one that was begun does, it alone is written over.
fn write_desc(place: &mut Node, desc: ClassDesc)
    ensures { place.new ≡ Desc desc }
{
    match place {
        Node::Desc(old) => *old = desc,
        other => *other = Node::Desc(desc),
    }
}

/// The most parts of an object whose list may keep spare room. A list with more parts than these could otherwise have room for twice as many.
const FEW_PARTS: usize = 16;

/// Returns the same parts. A long list of them keeps no spare room.
fn without_spare_room(parts: PartList) -> PartList
    ensures { result ≡ parts }
{
    if parts.len() <= FEW_PARTS {
        return parts;
    }
    let mut items = parts.into_vec();
    items.shrink_to_fit();
    PartList::from_vec(items)
}

/// Writes an object. Where an object stands already, as one that was begun does, its fields alone are written over.
fn write_object(place: &mut Node, class: u32, parts: PartList)
    ensures { place.new ≡ Object class parts }
{
    match place {
        Node::Object {
            class: old_class,
            parts: old_parts,
        } => {
            *old_class = class;
            *old_parts = without_spare_room(parts);
        }
        other => *other = Node::Object { class, parts },
    }
}

impl Table {
    ghost use Rattle.ser_values.specs.Shape.{is_enum, fits_type};
    ghost use Rattle.stream_grammar.specs.Reading.{push, fill, add_parts, type_in, handle_fault, bad_desc, wrong_handle_kind};
    ghost use Rattle.ser_read.specs.Tables.{now_of};
    ghost use Rattle.ser_read.specs.Here.{kind_of, IsInBytes};

    /// No nodes.
    pub(crate) fn new(alloc: Global) -> Table
        ensures nodes { result.nodes.items ≡ [] }
        ensures parts { result.parts ≡ 0 }
        ensures unread { result.unread.items ≡ [] }
    {
        Table {
            nodes: Vec::new(alloc),
            elements: Vec::new(alloc),
            parts: 0,
            unread: Vec::new(alloc),
        }
    }

    /// Returns whether there is no room for a further node.
    pub(crate) fn is_full(&self) -> bool
        ensures { result ≡ not (nat_lt (length self.now.nodes.items) NODES) }
    {
        self.nodes.len() >= NODES
    }

    /// Gives a node the next handle. The answer is its number.
    #[inline(always)]
    pub(crate) fn begin(&mut self, node: Node) -> Result<u32, AllocError>
        requires { length self.old.nodes.items < NODES }
        ensures number { IfOk result (λ number. number ≡ length self.old.nodes.items) }
        ensures now { OnOk result (now_of self.new ≡ push (now_of self.old) node) }
        ensures unread { self.new.unread.items ≡ self.old.unread.items }
        ensures grows { length self.old.nodes.items ≤ length self.new.nodes.items }
        ensures below { IfOk result (λ number. number < length self.new.nodes.items) }
    {
        let number = self.nodes.len() as u32;
        let count = self.nodes.len();
        self.elements.reserve(room_behind(count, TYPES))?;
        self.nodes.reserve(room_behind(count, ROOM))?;
        self.elements.push_reserved(elements_in(&node));
        self.nodes.push_reserved(node);
        Ok(number)
    }

    /// Writes a node, which was read, in the place that it has.
    pub(crate) fn fill(&mut self, number: u32, node: Node)
        requires { number < length self.old.nodes.items }
        ensures now { now_of self.new ≡ fill (now_of self.old) number node }
        ensures unread { self.new.unread.items ≡ self.old.unread.items }
        ensures grows { length self.new.nodes.items ≡ length self.old.nodes.items }
    {
        let place = number as usize;
        self.elements[place] = elements_in(&node);
        self.nodes[place] = node;
    }

    /// Writes a description, which was read, in the place that it has.
    pub(crate) fn fill_desc(&mut self, number: u32, desc: ClassDesc)
        requires { number < length self.old.nodes.items }
        ensures now { now_of self.new ≡ fill (now_of self.old) number (Desc desc) }
        ensures unread { self.new.unread.items ≡ self.old.unread.items }
        ensures grows { length self.new.nodes.items ≡ length self.old.nodes.items }
    {
        let place = number as usize;
        self.elements[place] = element_code(&desc.name);
        write_desc(&mut self.nodes[place], desc);
    }

    /// Writes an object, whose parts were read, in the place that it has.
    pub(crate) fn fill_object(&mut self, number: u32, class: u32, parts: PartList)
        requires { number < length self.old.nodes.items }
        ensures now { now_of self.new ≡ fill (now_of self.old) number (Object class parts) }
        ensures unread { self.new.unread.items ≡ self.old.unread.items }
        ensures grows { length self.new.nodes.items ≡ length self.old.nodes.items }
    {
        let place = number as usize;
        self.elements[place] = None;
        write_object(&mut self.nodes[place], class, parts);
    }

    /// The description of this number is being read.
    pub(crate) fn open(&mut self, number: u32) -> Result<(), AllocError>
        ensures now { now_of self.new ≡ now_of self.old }
        ensures unread { OnOk result (self.new.unread.items ≡ self.old.unread.items ++ number
            ∷ []) }
    {
        self.unread.push(number)?;
        Ok(())
    }

    /// The last description that is being read was read.
    pub(crate) fn close(&mut self)
        ensures now { now_of self.new ≡ now_of self.old }
        ensures unread { (others : List ℕ) (last : ℕ) → self.old.unread.items ≡ others ++ last ∷ []
            → self.new.unread.items ≡ others }
    {
        let _last = self.unread.pop();
    }

    /// Returns whether there is no room for so many further parts.
    pub(crate) fn lacks_parts(&self, more: usize) -> bool
        ensures { result ≡ nat_lt PARTS (self.now.parts + more) }
    {
        more > PARTS - self.parts
    }

    /// Counts so many further parts.
    pub(crate) fn add_parts(&mut self, more: usize)
        requires { self.old.parts + more ≤ PARTS }
        ensures now { now_of self.new ≡ add_parts more (now_of self.old) }
        ensures unread { self.new.unread.items ≡ self.old.unread.items }
    {
        self.parts += more;
    }

    /// The node of a number.
    pub(crate) fn node(&self, number: u32) -> Option<&Node>
        ensures { slice_get self.now.nodes.items number ≡ option_map (λ node. node.now) result }
    {
        self.nodes.get(number as usize)
    }

    /// Returns the type of an array's elements, by the text or the name of the node of a number.
    pub(crate) fn elements_at(&self, number: u32) -> Option<TypeCode>
        ensures { result ≡ elements_at (slice_get self.now.nodes.items number) }
    {
        match self.elements.as_slice().get(number as usize) {
            Some(code) => *code,
            None => None,
        }
    }

    /// The type of the elements of an array class. None where the node is no array class.
    pub(crate) fn element_type(&self, number: u32) -> Option<TypeCode>
        ensures { result ≡ type_in (slice_get self.now.nodes.items number) }
    {
        match self.node(number) {
            Some(Node::Desc(_)) => self.elements_at(number),
            _ => None,
        }
    }

    /// Returns whether a node is the description of an enum's class.
    pub(crate) fn is_enum(&self, number: u32) -> bool
        ensures { result ≡ is_enum (slice_get self.now.nodes.items number) }
    {
        match self.node(number) {
            Some(Node::Desc(desc)) => desc.flags & ENUM == ENUM,
            _ => false,
        }
    }

    /// Returns whether a field of a code may have such a type text.
    pub(crate) fn fits_type(&self, code: TypeCode, slot: Slot) -> bool
        ensures { result ≡ fits_type self.now.nodes.items code slot }
    {
        match slot {
            Slot::Null => is_primitive(code),
            Slot::Node(number) => match self.node(number) {
                Some(node) => {
                    !is_primitive(code) && fits_node(code, node, self.elements_at(number))
                }
                None => false,
            },
        }
    }

    /// Why a description that has a handle is not taken.
    fn desc_fault(&self, number: u32, node: &Node) -> Option<StreamKind>
        ensures kind { option_map kind_of result
            ≡ (if has self.now.unread.items number then Some bad_desc else
            (if is_desc node.now then None else Some wrong_handle_kind)) }
        ensures known { IfSome result IsInBytes }
    {
        if has(&self.unread, number) {
            Some(StreamKind::BadDesc)
        } else if is_desc(node) {
            None
        } else {
            Some(StreamKind::WrongHandleKind)
        }
    }

    /// Why the node of a handle is not taken in a place.
    pub(crate) fn handle_fault(&self, place: SlotPlace, number: u32) -> Option<StreamKind>
        ensures kind { option_map kind_of result
            ≡ handle_fault place (has self.now.unread.items number)
            (slice_get self.now.nodes.items number) }
        ensures known { IfSome result IsInBytes }
    {
        match self.node(number) {
            None => Some(StreamKind::BadHandle),
            Some(node) => match place {
                SlotPlace::Reference => None,
                SlotPlace::Text => {
                    if is_text(node) {
                        None
                    } else {
                        Some(StreamKind::WrongHandleKind)
                    }
                }
                SlotPlace::Class => self.desc_fault(number, node),
                SlotPlace::Parent => self.desc_fault(number, node),
            },
        }
    }

    /// The nodes.
    pub(crate) fn into_nodes(self) -> NodeList
        ensures { result ≡ self.nodes.items }
    {
        let Table { nodes, .. } = self;
        NodeList::from_vec(nodes)
    }
}
