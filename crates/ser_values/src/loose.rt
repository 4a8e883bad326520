//! Loose nodes, with what their texts say of arrays.
ghost use Rattle.std.specs.Prelude.{◌≡◌, IfOk, length, map, option_map, slice_get};
ghost use Rattle.ser_values.specs.Loose.{elements_in, elements_at};

use crate::node::Node;
use class_desc::{TypeCode, element_code};
use std::alloc::{AllocError, Global};

/// Loose nodes, and the type of the elements of the array class that each node's text or name says,
/// so that no text is looked through at each node that names it.
#[derive(Drop)]
pub(crate) struct Loose<'a> {
    nodes: &'a [Node],
    elements: Vec<Option<TypeCode>>,
    ghost known: { elements.items ≡ map elements_in nodes.now },
}

/// The type of the elements of the array class that a text or a description names.
pub fn elements_in(node: &Node) -> Option<TypeCode>
    ensures { result ≡ elements_in node.now }
{
    match node {
        Node::Text(text) => element_code(text),
        Node::Desc(desc) => element_code(&desc.name),
        _ => None,
    }
}

impl<'a> Loose<'a> {
    /// Looks once at each node.
    pub(crate) fn new(alloc: Global, nodes: &'a [Node]) -> Result<Loose<'a>, AllocError>
        ensures { IfOk result (λ loose. loose.nodes.now ≡ nodes.now) }
    {
        let mut elements = Vec::new(alloc);
        for node in nodes {
            elements.push(elements_in(node))?;
        }
        Ok(Loose { nodes, elements })
    }

    /// Returns the number of nodes.
    pub(crate) fn count(&self) -> usize
        ensures { result ≡ length self.now.nodes.now }
    {
        self.nodes.len()
    }

    /// The node of a number.
    pub(crate) fn node(&self, number: u32) -> Option<&'a Node>
        ensures { slice_get self.now.nodes.now number ≡ option_map (λ node. node.now) result }
    {
        self.nodes.get(number as usize)
    }

    /// Returns the type of an array's elements, by the text or the name of the node of a number.
    pub(crate) fn elements(&self, number: u32) -> Option<TypeCode>
        ensures { result ≡ elements_at (slice_get self.now.nodes.now number) }
    {
        match self.elements.as_slice().get(number as usize) {
            Some(code) => *code,
            None => None,
        }
    }
}
