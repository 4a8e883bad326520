//! Nodes under other numbers.
ghost use Rattle.std.specs.Prelude.{◌≡◌, ◌<◌, ◌^◌, ℕ, map, length, IfOk};
ghost use Rattle.ser_values.specs.Renumber.{AllBelow, HasPlaces, place_at, slot_by, item_by, field_by, value_by, part_by, values_by, desc_by, proxy_by, node_by};

use crate::node::Node;
use crate::value::{Part, Value, Values};
use class_desc::{ClassDesc, FieldDesc, Item, ProxyDesc, Slot, is_primitive};
use sequence::Sequence;
use std::alloc::{AllocError, Global};
use std::mem;

/// Where each number stands in an order; for the others, any number.
pub(crate) fn places(alloc: Global, order: &[u32], count: usize) -> Result<Vec<u32>, AllocError>
    requires below { AllBelow order.now count }
    requires few { length order.now < 2 ^ 32 }
    ensures { IfOk result (λ places. HasPlaces order.now 0 places.items) }
{
    let mut places = vec![in alloc; 0; count]?;
    let mut i = order.len();
    while i > 0 {
        i -= 1;
        places[order[i] as usize] = i as u32;
    }
    Ok(places)
}

/// The new number of a node.
fn place_of(places: &[u32], number: u32) -> u32
    ensures { result ≡ place_at places.now number }
{
    match places.get(number as usize) {
        Some(place) => *place,
        None => 0,
    }
}

/// The same reference under the new numbers.
fn slot_by(places: &[u32], slot: Slot) -> Slot
    ensures { result ≡ slot_by (place_at places.now) slot }
{
    match slot {
        Slot::Null => Slot::Null,
        Slot::Node(number) => Slot::Node(place_of(places, number)),
    }
}

/// A value that names nodes, and can be given their new numbers.
pub(crate) trait Renumber {
    /// The same value under new numbers.
    ghost by: { (ℕ → ℕ) → Self → Self };

    /// Gives each node that is named its new number.
    fn renumber(&mut self, alloc: Global, places: &[u32])
        ensures { self.new ≡ by (place_at places.now) self.old };
}

/// Gives the nodes that some values name their new numbers.
fn renumber_each<T: Renumber>(alloc: Global, values: &mut [T], places: &[u32])
    ensures { values.new ≡ map (T.by (place_at places.now)) values.old }
{
    let mut i = 0;
    while i < values.len() {
        values[i].renumber(alloc, places);
        i += 1;
    }
}

/// Gives the nodes that a list's values name their new numbers.
pub(crate) fn renumber_all<T: Renumber + Drop>(
    alloc: Global,
    list: &mut Sequence<T>,
    places: &[u32],
)
    ensures { list.new ≡ map (T.by (place_at places.now)) list.old }
{
    let mut values = mem::replace(list, Sequence::new(alloc)).into_vec();
    renumber_each(alloc, &mut values, places);
    *list = Sequence::from_vec(values);
}

impl Renumber for Slot {
    ghost by = { slot_by };

    fn renumber(&mut self, _alloc: Global, places: &[u32]) {
        *self = slot_by(places, *self);
    }
}

impl Renumber for Item {
    ghost by = { item_by };

    fn renumber(&mut self, alloc: Global, places: &[u32]) {
        match self {
            Item::Bytes(_) => {}
            Item::Ref(slot) => slot.renumber(alloc, places),
        }
    }
}

impl Renumber for FieldDesc {
    ghost by = { field_by };

    fn renumber(&mut self, alloc: Global, places: &[u32]) {
        if !is_primitive(self.code) {
            self.type_text.renumber(alloc, places);
        }
    }
}

impl Renumber for Value {
    ghost by = { value_by };

    fn renumber(&mut self, alloc: Global, places: &[u32]) {
        match self {
            Value::Ref(slot) => slot.renumber(alloc, places),
            _ => {}
        }
    }
}

impl Renumber for Part {
    ghost by = { part_by };

    fn renumber(&mut self, alloc: Global, places: &[u32]) {
        renumber_all(alloc, &mut self.values, places);
        renumber_all(alloc, &mut self.note, places);
    }
}

impl Renumber for Values {
    ghost by = { values_by };

    fn renumber(&mut self, alloc: Global, places: &[u32]) {
        match self {
            Values::Refs(slots) => renumber_all(alloc, slots, places),
            _ => {}
        }
    }
}

impl Renumber for ClassDesc {
    ghost by = { desc_by };

    fn renumber(&mut self, alloc: Global, places: &[u32]) {
        renumber_all(alloc, &mut self.fields, places);
        renumber_all(alloc, &mut self.note, places);
        self.parent.renumber(alloc, places);
    }
}

impl Renumber for ProxyDesc {
    ghost by = { proxy_by };

    fn renumber(&mut self, alloc: Global, places: &[u32]) {
        renumber_all(alloc, &mut self.note, places);
        self.parent.renumber(alloc, places);
    }
}

#[tactic(auto, unfolding(crate::specs::Renumber::node_by))]
impl Renumber for Node {
    ghost by = { node_by };

    fn renumber(&mut self, alloc: Global, places: &[u32]) {
        match self {
            Node::Text(_) => {}
            Node::Desc(desc) => desc.renumber(alloc, places),
            Node::Proxy(desc) => desc.renumber(alloc, places),
            Node::Object { class, parts } => {
                *class = place_of(places, *class);
                renumber_all(alloc, parts, places);
            }
            Node::Array { class, values } => {
                *class = place_of(places, *class);
                values.renumber(alloc, places);
            }
            Node::Class { class } => *class = place_of(places, *class),
            Node::Enum { class, name } => {
                *class = place_of(places, *class);
                *name = place_of(places, *name);
            }
        }
    }
}
