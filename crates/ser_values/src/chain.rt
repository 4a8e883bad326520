//! The chains of classes.
ghost use Rattle.std.specs.Prelude.{◌≡◌, List, ℕ, IfOk, slice_get};
ghost use Rattle.class_desc.specs.declared.slot.Slot.{Slot as OneSlot};
ghost use Rattle.ser_values.specs.Chain.{chain, up_from, up_by};

use crate::graph::Graph;
use crate::limits::PARTS;
use crate::node::{Node, NumberList};
use class_desc::Slot;
use std::alloc::{AllocError, Global};

/// The superclass of the description of a number, if there is one.
fn parent_of(nodes: &[Node], number: u32) -> Option<Slot>
    ensures { (above : OneSlot → List ℕ) → up_from above number (slice_get nodes.now number)
        ≡ up_by above number result }
{
    match nodes.get(number as usize) {
        Some(Node::Desc(desc)) => Some(desc.parent),
        Some(Node::Proxy(proxy)) => Some(proxy.parent),
        _ => None,
    }
}

/// The numbers of the descriptions of a slot's chain.
fn numbers_up(alloc: Global, nodes: &[Node], class: Slot) -> Result<Vec<u32>, AllocError>
    ensures { IfOk result (λ numbers. numbers.items ≡ chain nodes.now class) }
{
    let mut numbers = Vec::new(alloc);
    let mut slot = class;
    let mut left = PARTS;
    while left > 0 {
        match slot {
            Slot::Null => return Ok(numbers),
            Slot::Node(number) => match parent_of(nodes, number) {
                None => return Ok(numbers),
                Some(parent) => {
                    numbers.push(number)?;
                    slot = parent;
                }
            },
        }
        left -= 1;
    }
    Ok(numbers)
}

impl Graph {
    /// The numbers of the descriptions of a class's chain: its own, then its superclass's, and so on up. It ends before what
    /// is no description. An object has a part for each of them, in the opposite order, unless its class is
    /// externalizable. It is refused only for want of memory.
    pub fn chain(&self, alloc: Global, class: Slot) -> Result<NumberList, AllocError>
        ensures { IfOk result (λ numbers. numbers ≡ chain self.now.nodes class) }
    {
        Ok(NumberList::from_vec(numbers_up(alloc, self.nodes().as_slice(), class)?))
    }
}
