//! The clients and the names of a log's events.
ghost use Rattle.std.specs.Prelude.{◌≡◌, ◌<◌, ◌≤◌, ◌+◌, ◌++◌, ◌∷◌, [], length, slice_get, Some, IfSome, IsTrue, OnOk, vec_capacity};

use history::Name;
use object_ids::Vmid;
use sequence::Same;
use std::alloc::{AllocError, Global};

/// The content of a slot without a number. No value gets this number.
const FREE: u32 = 4_294_967_295;

/// The number of slots, one after the other, that are searched for a value's number.
const TRIES: u64 = 8;

/// The least number of slots, where there are any.
const LEAST: usize = 16;

/// A value with a number by which it is mostly told apart from others of its type.
pub trait Hashed {
    /// The number, the same for equal values.
    fn hash(&self) -> u64;
}

/// Values by number, which is the place in the list. A value's number is looked for in a few slots only, so that no choice of values makes
/// that slow. Where it isn't found there, the value gets a further number, so one may stand in the list more than once.
#[derive(Drop)]
pub struct Numbered<T> {
    /// The values, each at the place that is its number.
    pub list: Vec<T>,
    /// Numbers of values, each among the slots that begin at the value's hash.
    slots: Vec<u32>,
}

/// The clients of a log's events.
pub type Clients = Numbered<Vmid>;

/// The names of a log's events.
pub type Names = Numbered<Name>;

impl<T: Hashed + Same + Drop> Numbered<T> {
    /// No values. It takes no memory.
    pub fn new(alloc: Global) -> Numbered<T>
        ensures { result.list.items ≡ [] }
    {
        Numbered {
            list: Vec::new(alloc),
            slots: Vec::new(alloc),
        }
    }

    /// Makes room for one more value.
    pub fn reserve(&mut self, alloc: Global) -> Result<(), AllocError>
        ensures list { self.new.list.items ≡ self.old.list.items }
        ensures room { OnOk result (length self.new.list.items < vec_capacity self.new.list) }
        ensures grow { vec_capacity self.old.list ≤ vec_capacity self.new.list }
    {
        self.list.reserve(1)?;
        if self.slots.len() / 4 <= self.list.len() {
            let count = self.slots.len().saturating_mul(2).max(LEAST);
            self.slots = slots_of(alloc, self.list.as_slice(), count)?;
        }
        Ok(())
    }

    /// A number of a value, if one is found in the value's slots. None says nothing: the list may have the value all the same, which then gets
    /// a further number. That costs memory alone.
    pub fn find(&self, value: &T) -> Option<u32>
        ensures { IfSome result (λ number. slice_get self.now.list.items number ≡ Some value.now) }
    {
        let hash = value.hash();
        for step in 0..TRIES {
            if let Some(number) = self.slots.get(slot_at(hash, step, self.slots.len())) {
                if self.is_at(*number, value) {
                    return Some(*number);
                }
            }
        }
        None
    }

    /// Returns whether a value has this number.
    fn is_at(&self, number: u32, value: &T) -> bool
        ensures { IsTrue result → slice_get self.now.list.items number ≡ Some value.now }
    {
        match self.list.get(number as usize) {
            Some(known) => known.is_same(value),
            None => false,
        }
    }

    /// The number of the next value that is added; None where all numbers are given.
    pub fn next(&self) -> Option<u32>
        ensures { IfSome result (λ number. number ≡ length self.now.list.items) }
    {
        if self.list.len() < FREE as usize {
            Some(self.list.len() as u32)
        } else {
            None
        }
    }

    /// Adds a value, for which there is room, under this number. It takes no memory.
    pub fn add(&mut self, number: u32, value: T)
        requires { length self.old.list.items < vec_capacity self.old.list }
        ensures list { self.new.list.items ≡ self.old.list.items ++ value ∷ [] }
        ensures len { length self.new.list.items ≡ length self.old.list.items + 1 }
        ensures last { slice_get self.new.list.items (length self.old.list.items) ≡ Some value }
    {
        note(&mut self.slots, value.hash(), number);
        self.list.push_reserved(value);
    }
}

/// The numbers of these values in so many slots, a power of 2.
fn slots_of<T: Hashed>(alloc: Global, values: &[T], count: usize) -> Result<Vec<u32>, AllocError> {
    let mut slots = vec![in alloc; FREE; count]?;
    let mut number: u32 = 0;
    for value in values {
        note(&mut slots, value.hash(), number);
        number = number.wrapping_add(1);
    }
    Ok(slots)
}

/// Notes a number of a value with this hash in the first of its slots that is free, or else in the first of them.
fn note(slots: &mut Vec<u32>, hash: u64, number: u32) {
    let count = slots.len();
    let mut chosen = slot_at(hash, 0, count);
    for step in 0..TRIES {
        let slot = slot_at(hash, step, count);
        if slots.get(slot) == Some(&FREE) {
            chosen = slot;
            break;
        }
    }
    if chosen < slots.len() {
        slots[chosen] = number;
    }
}

/// The slot that is tried after so many others, among so many.
fn slot_at(hash: u64, step: u64, count: usize) -> usize {
    (hash.wrapping_add(step) & (count as u64).wrapping_sub(1)) as usize
}

impl Hashed for Vmid {
    fn hash(&self) -> u64 {
        let uid = self.uid();
        let mut hash = mix(
            uid.time.unsigned_abs(),
            u64::from(uid.unique.unsigned_abs()),
        );
        hash = mix(hash, u64::from(uid.count.unsigned_abs()));
        for byte in self.addr() {
            hash = mix(hash, u64::from(*byte));
        }
        hash
    }
}

impl Hashed for Name {
    fn hash(&self) -> u64 {
        let mut hash = 0;
        for unit in self.units() {
            hash = mix(hash, u64::from(*unit));
        }
        hash
    }
}

/// A hash with a further number.
fn mix(hash: u64, number: u64) -> u64 {
    let product = (hash ^ number).wrapping_mul(0x9E37_79B9_7F4A_7C15);
    product ^ (product >> 32)
}
