//! References to remote objects among the loose nodes of a builder.
ghost use Rattle.std.specs.Prelude.{◌≡◌, ◌≤◌, ◌∷◌, ◌++◌, [], Some, length, IfOk, IfErr, OnOk, OnErr};
ghost use Rattle.std.specs.Int.{w32};
ghost use Rattle.mod_utf.specs.Utf.{utf};
ghost use Rattle.object_ids.specs.Bytes.{bytes_of_objid, objid_from_bytes, signed_bytes, signed_from_bytes};
ghost use Rattle.ser_values.specs.declared.node.Node.TheVariants as loose;
ghost use Rattle.java_shapes.specs.Fault.{reference, empty_part};
ghost use Rattle.java_shapes.specs.LiveRefs.{live_ref_at, ref_of};
ghost use Rattle.java_shapes.specs.Objects.{node_at};
ghost use Rattle.java_shapes.specs.Proxies.{HandlerAt, ProxyAt, ProxyClassAt, interfaces, noted_part, proxy_with};
ghost use Rattle.java_shapes.specs.Put.{Grows, IsPutRefusal, Puts};
ghost use Rattle.java_shapes.specs.RefNotes.{plain_kind, ref_note, tail_bytes, text_bytes, truth_byte};

use crate::class_part::{copy_text, is_text};
use crate::classes::{no_codebase, put_class, put_object};
use crate::faults::{empty_part, reference};
use crate::ref_views::LiveRef;
use class_desc::{Item, Items, KnownClass, ProxyDesc, Slot};
use mod_utf::utf::{encode, units_of_ascii};
use object_ids::objid_bytes;
use sequence::{ByteList, NameList, Units};
use ser_values::{BuildFault, Builder, Part, PartList, ValueList};
use std::alloc::{AllocError, Global};

/// The number of bytes for which there is room when a note is begun: as many as most of them have.
pub const NOTE_ROOM: usize = 64;

/// The last bytes of a reference's note: its port, its object and its flag.
fn tail_bytes(reference: &LiveRef) -> [u8; 27]
    ensures value { result ≡ tail_bytes reference.now (truth_byte reference.now.result) }
    ensures port { signed_from_bytes w32 (signed_bytes w32 reference.now.port)
        ≡ reference.now.port }
    ensures id { objid_from_bytes (bytes_of_objid reference.now.id) ≡ reference.now.id }
{
    let mut tail = [0; 27];
    tail[..4].copy_from_slice(&reference.port.to_be_bytes());
    tail[4..26].copy_from_slice(&objid_bytes(reference.id));
    tail[26] = u8::from(reference.result);
    tail
}

/// A note of this encoded host and these last bytes.
fn note_with(alloc: Global, host: &[u8], tail: &[u8]) -> Result<ByteList, AllocError>
    requires { length host.now ≤ 65535 }
    ensures { IfOk result (λ bytes. bytes ≡ plain_kind ++ (text_bytes host.now ++ tail.now)) }
{
    let mut note = ByteList::new(alloc);
    note.reserve(NOTE_ROOM)?;
    note.append(&[0, 10])?;
    note.append(b"UnicastRef")?;
    note.append(&(host.len() as u16).to_be_bytes())?;
    note.append(host)?;
    note.append(tail)?;
    Ok(note)
}

/// The note of a reference.
#[tactic(auto, unfolding(crate::specs::RefNotes::ref_note))]
pub(crate) fn ref_note(alloc: Global, reference: &LiveRef) -> Result<ByteList, AllocError>
    requires { length (utf reference.now.host) ≤ 65535 }
    ensures note { IfOk result (λ bytes. bytes ≡ ref_note reference.now) }
    ensures viewed { IfOk result (λ bytes. ref_of bytes ≡ Some reference.now) }
{
    let host = encode(alloc, &reference.host)?;
    let note = note_with(alloc, host.as_slice(), &tail_bytes(reference))?;
    Ok(note)
}

/// The parts of the handler of a reference with this note.
pub(crate) fn handler_parts(alloc: Global, bytes: ByteList) -> Result<PartList, AllocError>
    ensures { IfOk result (λ parts. parts ≡ noted_part bytes ∷ empty_part ∷ []) }
{
    let mut note = Items::new(alloc);
    note.push(Item::Bytes(bytes))?;
    let mut parts = PartList::new(alloc);
    parts.push(Part {
        values: ValueList::new(alloc),
        note,
    })?;
    parts.push(empty_part(alloc))?;
    Ok(parts)
}

/// Puts the handler of a reference with this note.
fn put_handler(alloc: Global, b: &mut Builder, bytes: ByteList) -> Result<Slot, BuildFault>
    ensures { Puts 3 (λ nodes s. HandlerAt nodes bytes s) b.old b.new result }
{
    let remote_object = put_class(alloc, b, KnownClass::RemoteObject, Slot::Null)?;
    let class = put_class(alloc, b, KnownClass::RefHandler, remote_object)?;
    let parts = handler_parts(alloc, bytes)?;
    put_object(b, class, parts)
}

/// The names of a proxy's interfaces: `java.rmi.Remote`, and the interface where it is another.
fn interfaces(alloc: Global, interface: &Units) -> Result<NameList, AllocError>
    ensures { IfOk result (λ names. names ≡ interfaces interface.now) }
{
    let mut names = NameList::new(alloc);
    if is_text(interface, "java.rmi.Remote") {
        names.push(copy_text(alloc, interface)?)?;
        return Ok(names);
    }
    names.push(units_of_ascii(alloc, b"java.rmi.Remote")?)?;
    names.push(copy_text(alloc, interface)?)?;
    Ok(names)
}

/// The description of the class of a proxy with an interface.
pub(crate) fn proxy_with(
    alloc: Global,
    interface: &Units,
    parent: Slot,
) -> Result<ProxyDesc, AllocError>
    ensures { IfOk result (λ desc. desc ≡ proxy_with interface.now parent) }
{
    Ok(ProxyDesc {
        names: interfaces(alloc, interface)?,
        note: no_codebase(alloc)?,
        parent,
    })
}

/// Puts the description of a proxy class.
fn put_proxy(b: &mut Builder, desc: ProxyDesc) -> Result<Slot, BuildFault>
    ensures { Puts 1 (λ nodes s. node_at nodes s ≡ Some (loose.Proxy desc)) b.old b.new result }
{
    b.proxy(desc)
}

/// Puts the class of a proxy with an interface.
fn put_proxy_class(alloc: Global, b: &mut Builder, interface: &Units) -> Result<Slot, BuildFault>
    ensures { Puts 3 (λ nodes s. ProxyClassAt nodes interface.now s) b.old b.new result }
{
    let proxy = put_class(alloc, b, KnownClass::Proxy, Slot::Null)?;
    let desc = proxy_with(alloc, interface, proxy)?;
    put_proxy(b, desc)
}

/// The parts of a proxy with this handler.
pub(crate) fn proxy_parts(alloc: Global, handler: Slot) -> Result<PartList, AllocError>
    ensures { IfOk result (λ parts. parts ≡ reference handler ∷ empty_part ∷ []) }
{
    let mut parts = PartList::new(alloc);
    parts.push(reference(alloc, handler)?)?;
    parts.push(empty_part(alloc))?;
    Ok(parts)
}

/// Puts a proxy with a handler of this note; a refusal may leave some of its nodes.
fn put_all(
    alloc: Global,
    b: &mut Builder,
    interface: &Units,
    bytes: ByteList,
) -> Result<Slot, BuildFault>
    ensures { Puts 16 (λ nodes s. ProxyAt nodes interface.now bytes s) b.old b.new result }
{
    let handler = put_handler(alloc, b, bytes)?;
    let class = put_proxy_class(alloc, b, interface)?;
    let parts = proxy_parts(alloc, handler)?;
    put_object(b, class, parts)
}

/// Puts a reference to a remote object as a dynamic proxy: of the interface and `java.rmi.Remote`, with a
/// `java.rmi.server.RemoteObjectInvocationHandler` whose note is the reference, of class `UnicastRef`. TooManyNodes comes only
/// where the loose nodes before and at most 16 are more than 65,536; else it is refused only for want of memory. After a
/// refusal the builder is as it was. The host's modified UTF has at most 65,535 bytes; the interface's has to, too, for the
/// builder's `finish` not to refuse the proxy.
pub fn put_live_ref(
    alloc: Global,
    b: &mut Builder,
    interface: &Units,
    reference: &LiveRef,
) -> Result<Slot, BuildFault>
    requires { length (utf reference.now.host) ≤ 65535 }
    ensures ok { IfOk result (λ slot. ProxyAt b.new interface.now (ref_note reference.now) slot) }
    ensures grown { OnOk result (Grows 16 b.old b.new) }
    ensures viewed { IfOk result (λ slot. live_ref_at b.new slot ≡ Some reference.now) }
    ensures err { IfErr result (IsPutRefusal 16 b.old) }
    ensures unchanged { OnErr result (b.new ≡ b.old) }
{
    let note = ref_note(alloc, reference)?;
    let before = b.len();
    match put_all(alloc, b, interface, note) {
        Ok(slot) => Ok(slot),
        Err(fault) => {
            b.truncate(before);
            Err(fault)
        }
    }
}
