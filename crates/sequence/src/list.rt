//! Lists over `Vec`, which contracts see as lists.
ghost use Rattle.std.specs.Prelude.{◌≡◌, [], ◌∷◌, ◌++◌, ◌-◌, ◌^◌, ◌<◌, length, take, slice_get, slice_index_or, OnOk, OnErr, IfOk, IsTrue, ◌↔◌};
ghost use Rattle.std.specs.Iterator.Adapters.{IterYieldsInOrder, IterYieldsInReverse};
ghost use Rattle.std.specs.Iterator.Runs.{EveryRun, ItemsAre, ItemsMapTo};
ghost use Rattle.std.specs.Option.{option_copied};
ghost use Rattle.std.specs.Slice.{IsItemAt, IsGetResult};
ghost use Rattle.std.specs.Slice.Iter.{iter_rest, iter_steps};
ghost use Rattle.std.specs.Vec.Iter.{into_iter_items, into_iter_len, into_iter_steps};

use std::alloc::{AllocError, Global};
use std::marker::Model;
use std::ops::Index;
use std::{slice, vec};

/// A value that can be copied where there is memory for the copy.
pub trait TryCopy {
    /// A copy, which equals its source. It is refused only for want of memory.
    fn try_copy(&self, alloc: Global) -> Result<Self, AllocError>
        ensures { IfOk result (λ copy. copy ≡ self.now) };

    /// Copies of several values, in their order. It is refused only for want of memory.
    fn try_copy_all(alloc: Global, items: &[Self]) -> Result<Vec<Self>, AllocError>
    where
        Self: Drop,
        ensures { IfOk result (λ copies. copies.items ≡ items.now) }
    {
        let mut copies = Vec::new(alloc);
        for item in items {
            copies.push(item.try_copy(alloc)?)?;
        }
        Ok(copies)
    }
}

/// A value whose equality with another of its type can be tested.
pub trait Same {
    /// Returns whether the two are equal.
    fn is_same(&self, other: &Self) -> bool
        ensures { IsTrue result ↔ (self.now ≡ other.now) };
}

/// A list, which contracts see as the list of its items.
#[derive(Debug, Drop)]
pub struct Sequence<T> {
    items: Vec<T>,
}

impl<T> Model for Sequence<T> {
    ghost use Rattle.std.specs.Prelude.{List};

    ghost Value = { List T };

    ghost view = { λ b. b.items.items };
}

/// A list of bytes.
pub type ByteList = Sequence<u8>;
/// A text as its units of 16 bits. Surrogates stand as they are, paired or not.
pub type Units = Sequence<u16>;
/// A list of texts.
pub type NameList = Sequence<Units>;
/// A list of small numbers, as of kinds of objects or of places in a list.
pub type Kinds = Sequence<u32>;
/// A list of moments, in milliseconds.
pub type MomentList = Sequence<u64>;
/// A list of 16-bit numbers, as of the elements of an array of characters.
pub type U16List = Sequence<u16>;
/// A list of 32-bit numbers, as of the bits of an array of floats.
pub type U32List = Sequence<u32>;
/// A list of 64-bit numbers, as of the bits of an array of doubles.
pub type U64List = Sequence<u64>;
/// A list of signed 16-bit numbers.
pub type I16List = Sequence<i16>;
/// A list of signed 32-bit numbers.
pub type I32List = Sequence<i32>;
/// A list of signed 64-bit numbers.
pub type I64List = Sequence<i64>;
/// A list of truth values.
pub type BoolList = Sequence<bool>;

impl<T> Sequence<T> {
    /// The empty list.
    pub fn new(alloc: Global) -> Sequence<T>
        ensures { result ≡ [] }
    {
        Sequence {
            items: Vec::new(alloc),
        }
    }

    /// The list of a vector's items. It takes no memory.
    pub fn from_vec(items: Vec<T>) -> Sequence<T>
        ensures { result ≡ items.items }
    {
        Sequence { items }
    }

    /// The vector of the list's items. It takes no memory.
    pub fn into_vec(self) -> Vec<T>
        ensures { result.items ≡ self }
    {
        self.items
    }

    /// The items in order.
    pub fn as_slice(&self) -> &[T]
        ensures { result.now ≡ self.now }
    {
        self.items.as_slice()
    }

    /// The items in order, to go over them.
    pub fn iter(&self) -> slice::Iter<'_, T>
        ensures rest { iter_rest result ≡ self.now }
        ensures len { length (iter_rest result) ≡ length self.now }
        ensures bound { length (iter_rest result) < 2 ^ 64 }

        // It gives them in order, or from the back.
        ensures runs { IterYieldsInOrder T }
        ensures runs_back { IterYieldsInReverse T }
    {
        self.items.iter()
    }

    /// The item at a place, counted from 0: none where the list is no longer than that.
    pub fn get(&self, index: usize) -> Option<&T>
        ensures value { option_copied result ≡ slice_get self.now index }
        ensures item { IsItemAt self.now index result }
    {
        self.items.get(index)
    }

    /// The first item, if there is one.
    pub fn first(&self) -> Option<&T>
        ensures value { option_copied result ≡ slice_get self.now 0 }
        ensures item { IsItemAt self.now 0 result }
    {
        self.items.first()
    }

    /// The last item, if there is one.
    pub fn last(&self) -> Option<&T>
        ensures value { option_copied result ≡ slice_get self.now (length self.now - 1) }
        ensures item { IsGetResult self.now 0 (length self.now - 1) result }
    {
        self.items.last()
    }

    /// The number of items.
    pub fn len(&self) -> usize
        ensures { result ≡ length self.now }
    {
        self.items.len()
    }

    /// True where there are none.
    pub fn is_empty(&self) -> bool
        ensures { IsTrue result ↔ (self.now ≡ []) }
    {
        self.items.is_empty()
    }

    /// Appends an item. After a refusal the list is as it was.
    pub fn push(&mut self, item: T) -> Result<(), AllocError>
    where
        T: Drop,
        ensures ok { OnOk result (self.new ≡ self.old ++ item ∷ []) }
        ensures err { OnErr result (self.new ≡ self.old) }
    {
        self.items.push(item)?;
        Ok(())
    }

    /// Keeps the first `len` items, or all where there are no more.
    pub fn truncate(&mut self, len: usize)
    where
        T: Drop,
        ensures { self.new ≡ take len self.old }
    {
        self.items.truncate(len);
    }

    /// Makes room for `more` further items, so that appending them takes no memory.
    pub fn reserve(&mut self, more: usize) -> Result<(), AllocError>
        ensures { self.new ≡ self.old }
    {
        self.items.reserve(more)?;
        Ok(())
    }
}

impl<T: Copy> Sequence<T> {
    /// The list of a slice's items.
    pub fn from_slice(alloc: Global, items: &[T]) -> Result<Sequence<T>, AllocError>
        ensures { IfOk result (λ list. list ≡ items.now) }
    {
        Ok(Sequence {
            items: Vec::from_slice(alloc, items)?,
        })
    }

    /// Appends a slice's items. After a refusal the list is as it was.
    pub fn append(&mut self, items: &[T]) -> Result<(), AllocError>
        ensures ok { OnOk result (self.new ≡ self.old ++ items.now) }
        ensures err { OnErr result (self.new ≡ self.old) }
    {
        self.items.extend_from_slice(items)?;
        Ok(())
    }
}

impl<T> Index<usize> for Sequence<T> {
    type Output = T;

    ghost can_index = { λ list index. index < length list };

    ghost index_gives = { λ list index item. item ≡ slice_index_or list index item };

    fn index(&self, index: usize) -> &T {
        &self.items[index]
    }
}

impl<'a, T> IntoIterator for &'a Sequence<T> {
    type Item = &'a T;

    type IntoIter = slice::Iter<'a, T>;

    ghost into_iter_gives = { λ list rest. (iter_rest rest ≡ list.now)
        × (length (iter_rest rest) < 2 ^ 64)
        × EveryRun (iter_steps {A = T}) (λ p. ItemsMapTo p (λ x. x.now) (iter_rest p.from)) };

    fn into_iter(self) -> slice::Iter<'a, T> {
        self.iter()
    }
}

impl<T: Drop> IntoIterator for Sequence<T> {
    ghost use Rattle.std.specs.declared.alloc.Global.{Global};

    type Item = T;

    type IntoIter = vec::IntoIter<T>;

    ghost into_iter_gives = { λ list rest. (into_iter_items rest ≡ list)
        × (into_iter_len rest ≡ length list) × (into_iter_len rest < 2 ^ 64)
        × EveryRun (into_iter_steps {X = T} {Z = Global})
        (λ p. ItemsAre p (into_iter_items p.from)) };

    fn into_iter(self) -> vec::IntoIter<T> {
        self.items.into_iter()
    }
}

impl<T: TryCopy + Drop> Sequence<T> {
    /// A copy, which equals its source. It is refused only for want of memory.
    pub fn copy(&self, alloc: Global) -> Result<Sequence<T>, AllocError>
        ensures { IfOk result (λ copy. copy ≡ self.now) }
    {
        self.try_copy(alloc)
    }
}

impl<T: TryCopy + Drop> TryCopy for Sequence<T> {
    fn try_copy(&self, alloc: Global) -> Result<Sequence<T>, AllocError> {
        Ok(Sequence {
            items: T::try_copy_all(alloc, self.items.as_slice())?,
        })
    }
}

impl<T: Same> Same for Sequence<T> {
    fn is_same(&self, other: &Sequence<T>) -> bool {
        are_same(self.items.as_slice(), other.items.as_slice())
    }
}

/// Returns whether two slices have equal items in one order.
fn are_same<T: Same>(a: &[T], b: &[T]) -> bool
    ensures { IsTrue result ↔ (a.now ≡ b.now) }
{
    if a.len() != b.len() {
        return false;
    }
    for (i, item) in a.iter().enumerate() {
        if i < b.len() && !item.is_same(&b[i]) {
            return false;
        }
    }
    true
}
