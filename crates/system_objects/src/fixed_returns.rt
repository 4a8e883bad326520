//! Returns of leases and of references. All their bytes are known, but for some numbers and texts: they are put together without a graph, and are those
//! that are written of its graph.
ghost use Rattle.std.specs.Prelude.{◌≡◌, ◌↔◌, ◌∷◌, ◌++◌, ◌≤◌, [], codes, length, IfOk, IfSome, IsTrue, OnOk};
ghost use Rattle.std.specs.Int.{w32};
ghost use Rattle.mod_utf.specs.Utf.{unit_bytes, utf};
ghost use Rattle.object_ids.specs.Bytes.{bytes_of_objid, signed_bytes};
ghost use Rattle.ser_write.specs.Canonical.{interface_bytes, short_bytes};
ghost use Rattle.java_shapes.specs.LeaseGraph.{lease_items, lease_nodes};
ghost use Rattle.java_shapes.specs.Objects.{same_text};
ghost use Rattle.java_shapes.specs.Proxies.{interfaces};
ghost use Rattle.java_shapes.specs.RefNotes.{plain_kind, ref_note, text_bytes};
ghost use Rattle.system_objects.specs.FixedReturns.{array_head, array_object, client_head, client_object, handler_head, handler_object, lease_head, lease_object, lease_start, proxy_head, proxy_object, reference_object, return_start, uid_head, uid_object, uid_values};
ghost use Rattle.system_objects.specs.ReturnBytes.{graph_return, own_return, reference_to};
ghost use Rattle.system_objects.specs.Terms.{terms_of};

use crate::setup::Setup;
use java_shapes::NOTE_ROOM;
use mod_utf::utf::encode;
use object_ids::{ObjId, Uid, Vmid, objid_bytes, uid_bytes};
use sequence::{ByteList, Units};
use ser_write::write_blocks_onto;
use std::alloc::{AllocError, Global};

/// The number of bytes for which a new Return has room. Most Returns have no more.
const RETURN_ROOM: usize = 512;

/// Begins a normal Return.
#[tactic(auto, unfolding(crate::specs::FixedReturns::return_start))]
fn begin(alloc: Global, uid: Uid) -> Result<ByteList, AllocError>
    ensures { IfOk result (λ bytes. bytes ≡ return_start uid) }
{
    let mut out = ByteList::new(alloc);
    out.reserve(RETURN_ROOM)?;
    out.append(&[0x51, 0xAC, 0xED, 0x00, 0x05, 0x77, 0x0F, 0x01])?;
    out.append(&uid_bytes(uid))?;
    Ok(out)
}

// ---- leases

/// A lease, up to its duration.
#[tactic(auto, unfolding(crate::specs::FixedReturns::lease_head))]
fn lease_head() -> &'static [u8]
    ensures { result.now ≡ lease_head }
{
    b"sr\0\x12java.rmi.dgc.Lease\xB0\xB5\xE2\x66\x0C\x4A\xDC\x34\x02\0\x02J\0\x05valueL\0\x04vmidt\0\x13Ljava/rmi/dgc/VMID;pxp"
}

/// A client, up to its address.
#[tactic(auto, unfolding(crate::specs::FixedReturns::client_head))]
fn client_head() -> &'static [u8]
    ensures { result.now ≡ client_head }
{
    b"sr\0\x11java.rmi.dgc.VMID\xF8\x86\x5B\xAF\xA4\xA5\x6D\xB6\x02\0\x02[\0\x04addrt\0\x02[BL\0\x03uidt\0\x15Ljava/rmi/server/UID;pxp"
}

/// An array of bytes, up to its length.
#[tactic(auto, unfolding(crate::specs::FixedReturns::array_head))]
fn array_head() -> &'static [u8]
    ensures { result.now ≡ array_head }
{
    b"ur\0\x02[B\xAC\xF3\x17\xF8\x06\x08\x54\xE0\x02\0\0pxp"
}

/// An identifier, up to its count.
#[tactic(auto, unfolding(crate::specs::FixedReturns::uid_head))]
fn uid_head() -> &'static [u8]
    ensures { result.now ≡ uid_head }
{
    b"sr\0\x13java.rmi.server.UID\x0F\x12\x70\x0D\xBF\x36\x4F\x12\x02\0\x03S\0\x05countJ\0\x04timeI\0\x06uniquepxp"
}

/// Appends an array of bytes.
#[tactic(auto, unfolding(crate::specs::FixedReturns::array_object))]
fn put_array(out: &mut ByteList, bytes: &[u8]) -> Result<(), AllocError>
    requires { length bytes.now ≤ 255 }
    ensures { OnOk result (out.new ≡ out.old ++ array_object bytes.now) }
{
    out.append(array_head())?;
    out.append(&(bytes.len() as u32).to_be_bytes())?;
    out.append(bytes)
}

/// The count, the time and the unique number of an identifier.
#[tactic(auto, unfolding(crate::specs::FixedReturns::uid_values))]
fn uid_values(uid: &Uid) -> [u8; 14]
    ensures { result ≡ uid_values uid.now }
{
    let mut bytes = [0; 14];
    bytes[..2].copy_from_slice(&uid.count.to_be_bytes());
    bytes[2..10].copy_from_slice(&uid.time.to_be_bytes());
    bytes[10..].copy_from_slice(&uid.unique.to_be_bytes());
    bytes
}

/// Appends an identifier.
#[tactic(auto, unfolding(crate::specs::FixedReturns::uid_object))]
fn put_uid(out: &mut ByteList, uid: &Uid) -> Result<(), AllocError>
    ensures { OnOk result (out.new ≡ out.old ++ uid_object uid.now) }
{
    out.append(uid_head())?;
    out.append(&uid_values(uid))
}

/// Appends a client.
#[tactic(auto, unfolding(crate::specs::FixedReturns::client_object))]
fn put_client(out: &mut ByteList, client: &Vmid) -> Result<(), AllocError>
    ensures { OnOk result (out.new ≡ out.old ++ client_object client.now) }
{
    out.append(client_head())?;
    put_array(out, client.addr().as_slice())?;
    put_uid(out, &client.uid())
}

/// Appends a lease of this many milliseconds, up to its client.
#[tactic(auto, unfolding(crate::specs::FixedReturns::lease_start))]
fn put_lease(out: &mut ByteList, duration: &i64) -> Result<(), AllocError>
    ensures { OnOk result (out.new ≡ out.old ++ lease_start duration.now) }
{
    out.append(lease_head())?;
    out.append(&duration.to_be_bytes())
}

/// A lease of this many milliseconds to a client, behind what a Return begins with.
#[tactic(auto, unfolding(crate::specs::FixedReturns::lease_object))]
fn lease_return(
    alloc: Global,
    uid: Uid,
    duration: &i64,
    client: &Vmid,
) -> Result<ByteList, AllocError>
    ensures { IfOk result
        (λ bytes. bytes ≡ return_start uid ++ lease_object duration.now client.now) }
{
    let mut out = begin(alloc, uid)?;
    put_lease(&mut out, duration)?;
    put_client(&mut out, client)?;
    Ok(out)
}

/// The Return of a lease of this many milliseconds to a client.
pub(crate) fn lease_bytes(
    alloc: Global,
    uid: Uid,
    duration: &i64,
    client: &Vmid,
) -> Result<ByteList, AllocError>
    ensures { IfOk result
        (λ bytes. bytes ≡ graph_return uid (lease_nodes duration.now client.now) lease_items) }
{
    let bytes = lease_return(alloc, uid, duration, client)?;
    Ok(bytes)
}

// ---- references

/// A reference's proxy, behind its interfaces and up to its handler.
#[tactic(auto, unfolding(crate::specs::FixedReturns::proxy_head))]
fn proxy_head() -> &'static [u8]
    ensures { result.now ≡ proxy_head }
{
    b"pxr\0\x17java.lang.reflect.Proxy\xE1\x27\xDA\x20\xCC\x10\x43\xCB\x02\0\x01L\0\x01ht\0\x25Ljava/lang/reflect/InvocationHandler;pxp"
}

/// A reference's handler, up to its note.
#[tactic(auto, unfolding(crate::specs::FixedReturns::handler_head))]
fn handler_head() -> &'static [u8]
    ensures { result.now ≡ handler_head }
{
    b"sr\0\x2Djava.rmi.server.RemoteObjectInvocationHandler\0\0\0\0\0\0\0\x02\x02\0\0pxr\0\x1Cjava.rmi.server.RemoteObject\xD3\x61\xB4\x91\x0C\x61\x33\x1E\x03\0\0pxp"
}

/// The name of the interface of each remote object, `java.rmi.Remote`.
fn remote() -> &'static [u16]
    ensures { result.now ≡ codes "java.rmi.Remote" }
{
    &[
        106, 97, 118, 97, 46, 114, 109, 105, 46, 82, 101, 109, 111, 116, 101,
    ]
}

/// Returns whether units are equal.
fn are_equal(units: &[u16], others: &[u16]) -> bool
    ensures { IsTrue result ↔ (units.now ≡ others.now) }
{
    units == others
}

/// Returns whether the interface is `java.rmi.Remote`.
fn is_remote(interface: &Units) -> bool
    ensures { result ≡ same_text interface.now (codes "java.rmi.Remote") }
{
    are_equal(interface.as_slice(), remote())
}

/// The interfaces of a proxy, up to the last one: how many there are, and `java.rmi.Remote` where that is not the last.
fn interfaces_head(interface: &Units) -> &'static [u8]
    ensures { result.now ++ short_bytes interface.now ≡ interface_bytes (interfaces interface.now) }
{
    if is_remote(interface) {
        b"\0\0\0\x01"
    } else {
        b"\0\0\0\x02\0\x0Fjava.rmi.Remote"
    }
}

/// Appends a text of these bytes, with a length of 16 bits.
fn put_text(out: &mut ByteList, text: &[u8]) -> Result<(), AllocError>
    requires { length text.now ≤ 65535 }
    ensures { OnOk result (out.new ≡ out.old ++ text_bytes text.now) }
{
    out.append(&(text.len() as u16).to_be_bytes())?;
    out.append(text)
}

/// The byte that spells a unit, where it is spelled by one.
fn plain_byte(unit: u16) -> Option<u8>
    ensures { IfSome result (λ byte. unit_bytes unit ≡ byte ∷ []) }
{
    if 0 < unit && unit < 0x80 {
        Some(unit as u8)
    } else {
        None
    }
}

/// The bytes that spell a text. There is room for one for each unit before, as many as most texts have.
#[tactic(auto, using(crate::proofs::FixedReturns::one_spelled))]
fn spell_text(alloc: Global, text: &Units) -> Result<ByteList, AllocError>
    ensures { IfOk result (λ bytes. bytes ≡ utf text.now) }
{
    let units = text.as_slice();
    let mut out = ByteList::new(alloc);
    out.reserve(units.len())?;
    for unit in units {
        let Some(byte) = plain_byte(*unit) else {
            return encode(alloc, text);
        };
        out.push(byte)?;
    }
    Ok(out)
}

/// Appends the interfaces of a proxy. There is no memory for one of more than 65,535 bytes.
fn put_interfaces(alloc: Global, out: &mut ByteList, interface: &Units) -> Result<(), AllocError>
    ensures { OnOk result (out.new ≡ out.old ++ interface_bytes (interfaces interface.now)) }
{
    let text = spell_text(alloc, interface)?;
    if text.len() > 65535 {
        return Err(AllocError);
    }
    out.append(interfaces_head(interface))?;
    put_text(out, text.as_slice())?;
    Ok(())
}

/// The last bytes of a reference's note, where it was made for a result: its port, its object and its flag.
fn note_tail(port: &i32, object: ObjId) -> [u8; 27]
    ensures { result ≡ signed_bytes w32 port.now ++ (bytes_of_objid object ++ 1 ∷ []) }
{
    let mut tail = [0; 27];
    tail[..4].copy_from_slice(&port.to_be_bytes());
    tail[4..26].copy_from_slice(&objid_bytes(object));
    tail[26] = 1;
    tail
}

/// A note of this encoded host and these last bytes.
fn note_with(alloc: Global, host: &[u8], tail: &[u8]) -> Result<ByteList, AllocError>
    requires { length host.now ≤ 65535 }
    ensures { IfOk result (λ bytes. bytes ≡ plain_kind ++ (text_bytes host.now ++ tail.now)) }
{
    let mut note = ByteList::new(alloc);
    note.reserve(NOTE_ROOM)?;
    note.append(b"\0\x0AUnicastRef")?;
    put_text(&mut note, host)?;
    note.append(tail)?;
    Ok(note)
}

/// The note of a reference to an object of the server, made for a result. There is no memory for one whose host has more than 65,535 bytes.
#[tactic(auto, unfolding(java_shapes::specs::RefNotes::ref_note))]
fn own_note(alloc: Global, setup: &Setup, object: ObjId) -> Result<ByteList, AllocError>
    ensures { IfOk result
        (λ bytes. bytes ≡ ref_note (reference_to (terms_of [] setup.now) object)) }
{
    let host = spell_text(alloc, &setup.host)?;
    if host.len() > 65535 {
        return Err(AllocError);
    }
    let note = note_with(alloc, host.as_slice(), &note_tail(&setup.port, object))?;
    Ok(note)
}

/// Appends a proxy of an interface, up to its handler. There is no memory for an interface of more than 65,535 bytes.
#[tactic(auto, unfolding(crate::specs::FixedReturns::proxy_object))]
fn put_proxy(alloc: Global, out: &mut ByteList, interface: &Units) -> Result<(), AllocError>
    ensures { OnOk result (out.new ≡ out.old ++ proxy_object interface.now) }
{
    out.append(b"s}")?;
    put_interfaces(alloc, out, interface)?;
    out.append(proxy_head())
}

/// Appends a handler with this note.
#[tactic(auto, unfolding(crate::specs::FixedReturns::handler_object))]
fn put_handler(out: &mut ByteList, note: &[u8]) -> Result<(), AllocError>
    ensures { OnOk result (out.new ≡ out.old ++ handler_object note.now) }
{
    out.append(handler_head())?;
    write_blocks_onto(out, note)?;
    out.push(0x78)
}

/// A reference with this note, whose interface has this name, behind what a Return begins with. There is no memory for an interface of more than
/// 65,535 bytes.
#[tactic(auto, unfolding(crate::specs::FixedReturns::reference_object))]
fn reference_return(
    alloc: Global,
    uid: Uid,
    interface: &Units,
    note: &[u8],
) -> Result<ByteList, AllocError>
    ensures { IfOk result
        (λ bytes. bytes ≡ return_start uid ++ reference_object interface.now note.now) }
{
    let mut out = begin(alloc, uid)?;
    put_proxy(alloc, &mut out, interface)?;
    put_handler(&mut out, note)?;
    Ok(out)
}

/// The Return of a reference to an object of the server, whose interface has this name. There is no memory for one whose host or interface has more
/// than 65,535 bytes.
pub(crate) fn reference_bytes(
    alloc: Global,
    setup: &Setup,
    uid: Uid,
    interface: &Units,
    object: ObjId,
) -> Result<ByteList, AllocError>
    ensures { IfOk result
        (λ bytes. bytes ≡ own_return (terms_of [] setup.now) uid interface.now object) }
{
    let note = own_note(alloc, setup, object)?;
    let bytes = reference_return(alloc, uid, interface, note.as_slice())?;
    Ok(bytes)
}
