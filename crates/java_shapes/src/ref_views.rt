//! References to remote objects, read from their shapes.
ghost use Rattle.std.specs.Prelude.{◌≡◌, ◌↔◌, IsTrue, option_map};
ghost use Rattle.java_shapes.specs.LiveRefs.{cut_text, after_kind, host_and_tail, is_proxied, proxy_handler, holder_at, note_at, ref_of, ref_with, stub_ref_at, live_ref_at};
ghost use Rattle.java_shapes.specs.Objects.{same_text};
ghost use Rattle.java_shapes.specs.ViewAnswers.{Views};

use crate::class_part::{held_in, node_at, own_at};
use crate::fault::ShapeFault;
use class_desc::{Item, Slot, TypeCode};
use mod_utf::decode::{UtfFault, decode};
use object_ids::{ObjId, objid_of};
use sequence::{ByteList, Units};
use ser_values::{Graph, Node};
use std::alloc::Global;

/// A reference to a remote object (`java.rmi.server.RemoteRef`, of class `UnicastRef`).
#[derive(Debug)]
pub struct LiveRef {
    /// The host of the object's server.
    pub host: Units,
    /// The port of the object's server.
    pub port: i32,
    /// The object.
    pub id: ObjId,
    /// True where the reference was made for a result, so that its receiver acknowledges it.
    pub result: bool,
}

// Written out, so that whoever owns one has one call at each exit, and not the drop of each field.
impl Drop for LiveRef {
    fn drop(self) {
        let LiveRef {
            host,
            port: _,
            id: _,
            result: _,
        } = self;
        drop(host);
    }
}

/// A text of 16 bits' length at the front of bytes, and what follows it.
fn cut_text(bytes: &[u8]) -> Option<(&[u8], &[u8])>
    ensures { option_map (λ parts. (parts.0.now, parts.1.now)) result ≡ cut_text bytes.now }
{
    match bytes {
        [high, low, rest @ ..] => {
            let len = 256 * usize::from(*high) + usize::from(*low);
            if len <= rest.len() {
                Some((&rest[..len], &rest[len..]))
            } else {
                None
            }
        }
        _ => None,
    }
}

/// Returns whether bytes are equal.
fn are_equal(bytes: &[u8], others: &[u8]) -> bool
    ensures { IsTrue result ↔ (bytes.now ≡ others.now) }
{
    bytes == others
}

/// Returns whether bytes are this text of ASCII characters.
fn is_ascii(bytes: &[u8], text: &str) -> bool
    ensures { result ≡ same_text bytes.now text.now }
{
    are_equal(bytes, text.as_bytes())
}

/// Returns the bytes that follow the kind of a reference. It is None where the kind is neither `UnicastRef` nor
/// `UnicastRef2`, and where the byte after `UnicastRef2` is not 0.
fn after_kind<'a>(kind: &[u8], rest: &'a [u8]) -> Option<&'a [u8]>
    ensures { option_map (λ rest. rest.now) result ≡ after_kind (kind.now, rest.now) }
{
    if is_ascii(kind, "UnicastRef") {
        return Some(rest);
    }
    if !is_ascii(kind, "UnicastRef2") {
        return None;
    }
    match rest {
        [0, rest @ ..] => Some(rest),
        _ => None,
    }
}

/// The encoded host of a reference, and what follows it.
#[tactic(auto, unfolding(crate::specs::LiveRefs::host_and_tail))]
fn host_and_tail(bytes: &[u8]) -> Option<(&[u8], &[u8])>
    ensures { option_map (λ parts. (parts.0.now, parts.1.now)) result ≡ host_and_tail bytes.now }
{
    let (kind, rest) = cut_text(bytes)?;
    let rest = after_kind(kind, rest)?;
    cut_text(rest)
}

/// The reference to a host with these last bytes.
fn ref_with(host: Units, tail: &[u8]) -> Option<LiveRef>
    ensures { result ≡ ref_with host tail.now }
{
    if tail.len() != 27 {
        return None;
    }
    let mut port = [0; 4];
    port.copy_from_slice(&tail[..4]);
    let mut id = [0; 22];
    id.copy_from_slice(&tail[4..26]);
    Some(LiveRef {
        host,
        port: i32::from_be_bytes(port),
        id: objid_of(id),
        result: tail[26] != 0,
    })
}

/// The reference that the bytes of a note are.
pub(crate) fn ref_of(alloc: Global, bytes: &[u8]) -> Result<LiveRef, ShapeFault>
    ensures { Views result (ref_of bytes.now) }
{
    let Some((host, tail)) = host_and_tail(bytes) else {
        return Err(ShapeFault::WrongShape);
    };
    match decode(alloc, host) {
        Ok(host) => ref_with(host, tail).ok_or(ShapeFault::WrongShape),
        Err(UtfFault::BadUtf { .. }) => Err(ShapeFault::WrongShape),
        Err(UtfFault::OutOfMemory) => Err(ShapeFault::OutOfMemory),
    }
}

/// Returns whether a node is an object of a proxy class.
fn is_proxied(nodes: &[Node], node: Option<&Node>) -> bool
    ensures { result ≡ is_proxied nodes.now (option_map (λ node. node.now) node.entry) }
{
    match node {
        Some(Node::Object { class, .. }) => {
            matches!(nodes.get(*class as usize), Some(Node::Proxy(_)))
        }
        _ => false,
    }
}

/// The handler of a proxy, where it is that of a reference.
#[tactic(auto, unfolding(crate::specs::LiveRefs::proxy_handler))]
fn proxy_handler(nodes: &[Node], slot: Slot) -> Option<Slot>
    ensures { result ≡ proxy_handler nodes.now slot }
{
    let proxy = held_in(nodes, node_at(nodes, slot), "java.lang.reflect.Proxy")?;
    let handler = proxy.slot(TypeCode::Object, "h")?;
    match own_at(
        nodes,
        handler,
        "java.rmi.server.RemoteObjectInvocationHandler",
    ) {
        Some(_held) => Some(handler),
        None => None,
    }
}

/// The object that has the note of a reference: a proxy's handler, or else the object itself.
fn holder_at(nodes: &[Node], slot: Slot) -> Slot
    ensures { result ≡ holder_at nodes.now slot }
{
    if !is_proxied(nodes, node_at(nodes, slot)) {
        return slot;
    }
    match proxy_handler(nodes, slot) {
        Some(handler) => handler,
        None => slot,
    }
}

/// The note of an object's part of class `java.rmi.server.RemoteObject`, where that is one run of bytes.
pub(crate) fn note_at<'a>(nodes: &'a [Node], slot: Slot) -> Option<&'a ByteList>
    ensures { option_map (λ bytes. bytes.now) result ≡ note_at nodes.now slot }
{
    let held = held_in(nodes, node_at(nodes, slot), "java.rmi.server.RemoteObject")?;
    match held.part.note.as_slice() {
        [Item::Bytes(bytes)] => Some(bytes),
        _ => None,
    }
}

/// The reference that an object's own note is.
pub(crate) fn stub_ref_at(alloc: Global, nodes: &[Node], slot: Slot) -> Result<LiveRef, ShapeFault>
    ensures { Views result (stub_ref_at nodes.now slot) }
{
    match note_at(nodes, slot) {
        Some(bytes) => ref_of(alloc, bytes.as_slice()),
        None => Err(ShapeFault::WrongShape),
    }
}

/// The reference that a slot is.
pub(crate) fn live_ref_in(alloc: Global, nodes: &[Node], slot: Slot) -> Result<LiveRef, ShapeFault>
    ensures { Views result (live_ref_at nodes.now slot) }
{
    stub_ref_at(alloc, nodes, holder_at(nodes, slot))
}

/// Returns the reference to a remote object that stands in a slot. It has one of two forms:
///
/// - a dynamic proxy with any interfaces, whose handler `h` is an object of class `java.rmi.server.RemoteObjectInvocationHandler`
/// - an object with a part of class `java.rmi.server.RemoteObject`, as a static stub
///
/// The part's note is one run of block bytes. It begins with the text `UnicastRef`, or with `UnicastRef2` and the format byte 0. The
/// host follows as a text, the port in 4 bytes, the object's identifier in 22, and a truth value in one.
///
/// WrongShape comes exactly where the slot is no such reference. It comes also at another format byte, which stands for a socket
/// factory, and where bytes are left.
pub fn as_live_ref(alloc: Global, graph: &Graph, slot: Slot) -> Result<LiveRef, ShapeFault>
    ensures { Views result (live_ref_at graph.now.nodes slot) }
{
    live_ref_in(alloc, graph.nodes().as_slice(), slot)
}
