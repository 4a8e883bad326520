//! Graphs with other bytes before their items.
ghost use Rattle.std.specs.Prelude.{◌≡◌, ◌∷◌, ◌≤◌, true, List, length, drop, None, Some, IfOk, IfSome, OnOk, option_map};
ghost use Rattle.class_desc.specs.declared.slot.Item.{Item as OneItem};
ghost use Rattle.class_desc.specs.declared.slot.Item.TheVariants as contents;
ghost use Rattle.ser_values.specs.Fronts.{begin_with_bytes, front_len, without_front, HasFront, put_block};

use crate::graph::Graph;
use crate::ranges::look_at_each;
use class_desc::{Item, Items, Slot};
use sequence::ByteList;
use std::alloc::{AllocError, Global};
use std::mem;

/// Returns the number of bytes of block data with which items begin.
fn front_len(items: &[Item]) -> usize
    ensures { result ≡ front_len items.now }
{
    match items {
        [Item::Bytes(bytes), ..] => bytes.len(),
        _ => 0,
    }
}

/// Returns whether items begin with bytes of block data.
fn begin_with_bytes(items: &[Item]) -> bool
    ensures { result ≡ begin_with_bytes items.now }
{
    matches!(items, [Item::Bytes(_), ..])
}

/// A list's bytes less the first n.
fn drop_front(bytes: ByteList, n: usize) -> ByteList
    requires { n ≤ length bytes }
    ensures { result ≡ drop n bytes }
{
    let mut bytes = bytes.into_vec();
    let left = bytes.len() - n;
    bytes.rotate_left(n);
    bytes.truncate(left);
    ByteList::from_vec(bytes)
}

/// Takes the bytes that items begin with.
fn take_bytes(alloc: Global, items: &mut [Item]) -> ByteList
    requires { begin_with_bytes items.old ≡ true }
    ensures taken { items.old ≡ contents.Bytes result ∷ drop 1 items.old }
    ensures left { items.new ≡ contents.Ref Slot.Null ∷ drop 1 items.old }
{
    match mem::replace(&mut items[0], Item::Ref(Slot::Null)) {
        Item::Bytes(bytes) => bytes,
        Item::Ref(_) => ByteList::new(alloc),
    }
}

/// Takes away the first n bytes, of so many or more that items begin with.
fn cut_front(alloc: Global, items: &mut Vec<Item>, n: usize)
    requires { n ≤ front_len items.old.items }
    ensures { without_front n items.old.items ≡ Some items.new.items }
{
    if n == 0 {
        return;
    }
    if n == front_len(items.as_slice()) {
        drop(items.remove(0));
    } else {
        let bytes = take_bytes(alloc, items.as_mut_slice());
        items[0] = Item::Bytes(drop_front(bytes, n));
    }
}

/// Puts bytes before items, together with those that they begin with.
fn join_front(alloc: Global, items: &mut Vec<Item>, bytes: ByteList) -> Result<(), AllocError>
    ensures { OnOk result (items.new.items ≡ put_block bytes items.old.items) }
{
    let mut bytes = bytes;
    if bytes.is_empty() {
        return Ok(());
    }
    if !begin_with_bytes(items.as_slice()) {
        items.insert(0, Item::Bytes(bytes))?;
    } else {
        let others = take_bytes(alloc, items.as_mut_slice());
        bytes.append(others.as_slice())?;
        items[0] = Item::Bytes(bytes);
    }
    Ok(())
}

impl Graph {
    /// The graph whose items are those of this one less the first n bytes of their block data; its nodes are the same. An
    /// emptied item goes. None exactly where the items do not begin with n bytes. It takes no memory.
    pub fn without_front(self, alloc: Global, n: usize) -> Option<Graph>
        ensures nodes { IfSome result (λ graph. graph.nodes ≡ self.nodes) }
        ensures items { option_map (λ graph. graph.items) result ≡ without_front n self.items }
        ensures some { IfSome result (λ graph. HasFront n self.items graph.items) }
        ensures none { result ≡ None → (rest : List OneItem) → ¬ HasFront n self.items rest }
    {
        let (nodes, items) = self.into_parts();
        let mut items = items.into_vec();
        if front_len(items.as_slice()) < n {
            return None;
        }
        cut_front(alloc, &mut items, n);
        Some(Graph::from_parts(nodes, Items::from_vec(items)))
    }

    /// The graph whose items are these bytes and then those of this one; its nodes are the same. The bytes join those
    /// that the items begin with. It is refused only for want of memory.
    pub fn with_front(self, alloc: Global, bytes: &[u8]) -> Result<Graph, AllocError>
        ensures nodes { IfOk result (λ graph. graph.nodes ≡ self.nodes) }
        ensures items { IfOk result (λ graph. graph.items ≡ put_block bytes.now self.items) }
        ensures undone { IfOk result (λ graph. without_front (length bytes.now) graph.items
            ≡ Some self.items) }
    {
        look_at_each(bytes);
        let (nodes, items) = self.into_parts();
        let mut items = items.into_vec();
        join_front(alloc, &mut items, ByteList::from_slice(alloc, bytes)?)?;
        Ok(Graph::from_parts(nodes, Items::from_vec(items)))
    }
}
