//! Loose nodes become a graph.
ghost use Rattle.std.specs.Prelude.{◌≡◌, ◌≢◌, ◌<◌, ◌≤◌, ◌+◌, ℕ, List, true, None, map, length, IfOk, IfErr, IfSome, nat_le, option_map, slice_get};
ghost use Rattle.ser_values.specs.declared.limits.TheConstants.{PARTS};
ghost use Rattle.ser_values.specs.Finished.{IsOrder, IsRefusal, parts_or, parts_at};
ghost use Rattle.ser_values.specs.Renumber.{place_at, node_or_by};
ghost use Rattle.ser_values.specs.Seen.{Once};
ghost use Rattle.ser_values.specs.Shape.{is_joined};

use crate::counting::{parts_of, refs_in};
use crate::fault::BuildFault;
use crate::limits::{LEVELS, NODES, PARTS};
use crate::loose::Loose;
use crate::node::Node;
use crate::renumber::Renumber;
use crate::shape::is_joined;
use crate::walking::walk;
use class_desc::Item;
use sequence::{TryCopy, Units};
use std::alloc::{AllocError, Global};
use std::mem;

/// Returns the number of parts of a node, which is 0 where there is no node. None where it is past the limit.
fn parts_at(node: Option<&Node>) -> Option<usize>
    ensures few { IfSome result (λ n. (n ≡ parts_or (option_map (λ node. node.now) node.entry))
        × (n ≤ PARTS)) }
    ensures many { result ≡ None → PARTS < parts_or (option_map (λ node. node.now) node.entry) }
{
    match node {
        Some(node) => parts_of(node),
        None => Some(0),
    }
}

/// Returns whether the nodes of an order have few enough parts in all, beside so many.
#[tactic(auto, unfolding(crate::specs::Finished::parts_at))]
fn has_few_parts(loose: &Loose, order: &[u32], beside: usize) -> bool
    ensures { result ≡ nat_le (parts_at loose.now.nodes.now order.now + beside) PARTS }
{
    if beside > PARTS {
        return false;
    }
    let mut total = beside;
    for number in order {
        match parts_at(loose.node(*number)) {
            None => return false,
            Some(n) => total += n,
        }
        if total > PARTS {
            return false;
        }
    }
    true
}

/// Why there is no order within the greatest depth: a broken rule, however deep it lies, or the depth.
fn fault_of(alloc: Global, loose: &Loose, items: &[Item]) -> Result<BuildFault, AllocError>
    requires few { length loose.now.nodes.now ≤ NODES }
    requires joined { is_joined items.now ≡ true }
    requires deeper { (order : List ℕ) → ¬ IsOrder loose.now.nodes.now LEVELS items.now order }
    ensures { IfOk result (IsRefusal loose.now.nodes.now items.now) }
{
    match walk(alloc, loose, items, loose.count() as u32)? {
        Some(order) => {
            if has_few_parts(loose, &order, refs_in(items)) {
                Ok(BuildFault::TooDeep)
            } else {
                Ok(BuildFault::WrongShape)
            }
        }
        None => Ok(BuildFault::WrongShape),
    }
}

/// The numbers of the loose nodes that items reach, in the order of their handles.
pub(crate) fn order_of(
    alloc: Global,
    nodes: &[Node],
    items: &[Item],
) -> Result<Vec<u32>, BuildFault>
    requires { length nodes.now ≤ NODES }
    ensures ok { IfOk result (λ order. IsOrder nodes.now LEVELS items.now order.items) }
    ensures err { IfErr result (IsRefusal nodes.now items.now) }
{
    if !is_joined(items) {
        return Err(BuildFault::WrongShape);
    }
    let loose = Loose::new(alloc, nodes)?;
    match walk(alloc, &loose, items, LEVELS)? {
        Some(order) => {
            if has_few_parts(&loose, &order, refs_in(items)) {
                Ok(order)
            } else {
                Err(BuildFault::WrongShape)
            }
        }
        None => Err(fault_of(alloc, &loose, items)?),
    }
}

/// Takes the node of a number out of its place, under its new numbers.
#[tactic(auto, unfolding(crate::specs::Renumber::node_by))]
fn take_node(alloc: Global, nodes: &mut [Node], number: u32, places: &[u32]) -> Node
    ensures taken { result ≡ node_or_by (place_at places.now) (slice_get nodes.old number) }
    ensures kept { (j : ℕ) → j ≢ number → slice_get nodes.new j ≡ slice_get nodes.old j }
{
    let empty = Node::Text(Units::new(alloc));
    if (number as usize) < nodes.len() {
        let mut node = mem::replace(&mut nodes[number as usize], empty);
        node.renumber(alloc, places);
        node
    } else {
        empty
    }
}

/// The nodes of an order, taken out of their places, under their new numbers.
pub(crate) fn take_nodes(
    alloc: Global,
    nodes: &mut [Node],
    order: &[u32],
    places: &[u32],
) -> Result<Vec<Node>, AllocError>
    requires { Once order.now }
    ensures { IfOk result (λ taken. taken.items
        ≡ map (λ j. node_or_by (place_at places.now) (slice_get nodes.old j)) order.now) }
{
    let mut taken = Vec::with_capacity(alloc, order.len())?;
    for number in order {
        taken.push(take_node(alloc, nodes, *number, places))?;
    }
    Ok(taken)
}

/// A copy of the node of a number, under its new numbers.
fn copy_node(alloc: Global, nodes: &[Node], number: u32, places: &[u32]) -> Result<Node, AllocError>
    ensures { IfOk result (λ copy. copy ≡ node_or_by (place_at places.now)
        (slice_get nodes.now number)) }
{
    match nodes.get(number as usize) {
        Some(node) => {
            let mut copy = node.try_copy(alloc)?;
            copy.renumber(alloc, places);
            Ok(copy)
        }
        None => Ok(Node::Text(Units::new(alloc))),
    }
}

/// Copies of the nodes of an order, under their new numbers.
pub(crate) fn copy_nodes(
    alloc: Global,
    nodes: &[Node],
    order: &[u32],
    places: &[u32],
) -> Result<Vec<Node>, AllocError>
    ensures { IfOk result (λ copies. copies.items
        ≡ map (λ j. node_or_by (place_at places.now) (slice_get nodes.now j)) order.now) }
{
    let mut copies = Vec::with_capacity(alloc, order.len())?;
    for number in order {
        copies.push(copy_node(alloc, nodes, *number, places)?)?;
    }
    Ok(copies)
}
