//! Bytes and lists from text. A test stops where there is no memory: no helper answers an error, and none has an early end.
use class_desc::{Item, Items, Slot};
use mod_utf::utf::units_of_ascii;
use sequence::{ByteList, MomentList, Units};
use ser_values::{Builder, Graph};
use std::alloc::Global;
use std::process::Abort;
use test_support::texts;
pub(crate) use test_support::texts::cut;

/// Stops where this does not hold, and says what it is.
pub(crate) fn must(rt: &impl Abort, holds: bool, what: &str) {
    assert!(rt; holds, "{what}");
}

/// Appends a piece.
pub(crate) fn put(rt: &impl Abort, bytes: &mut ByteList, piece: &[u8]) {
    must(rt, bytes.append(piece).is_ok(), "memory");
}

/// A list of these bytes.
pub(crate) fn bytes_from(rt: &impl Abort, alloc: Global, piece: &[u8]) -> ByteList {
    let mut bytes = ByteList::new(alloc);
    put(rt, &mut bytes, piece);
    bytes
}

/// The units of a text of ASCII.
pub(crate) fn units_of(rt: &impl Abort, alloc: Global, text: &str) -> Units {
    units_of_ascii(alloc, text.as_bytes()).expect(rt, "memory")
}

/// Appends the bytes that hex digits spell, two for each. Any other character counts for nothing.
pub(crate) fn put_digits(rt: &impl Abort, bytes: &mut ByteList, digits: &str) {
    must(rt, texts::put_digits(bytes, digits).is_ok(), "memory");
}

/// The graph of null.
pub(crate) fn null_graph(rt: &impl Abort, alloc: Global) -> Graph {
    let mut items = Items::new(alloc);
    must(rt, items.push(Item::Ref(Slot::Null)).is_ok(), "memory");
    Builder::new(alloc).finish(items).expect(rt, "a graph")
}

/// The number that a text spells.
pub(crate) fn number_of(rt: &impl Abort, text: &str) -> u32 {
    text.parse::<u32>().expect(rt, text)
}

/// The moments that words spell.
pub(crate) fn moments_of(rt: &impl Abort, alloc: Global, words: &str) -> MomentList {
    texts::moments_of(alloc, words).expect(rt, words)
}
