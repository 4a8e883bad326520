//! Java's own objects: what views tell of streams, three of which Java 17 wrote, and the bytes of what is built.
use crate::ref_tests::id_of;
use crate::script::names_of;
use crate::text::{MEMORY, ascii, bytes_of, cut, decimal, is_text, must, number_of, slot_of};
use class_desc::{Item, Items, Slot};
use java_shapes::{
    LeaseView, LiveRef, as_fault_text, as_lease, as_live_ref, as_objids, as_text, as_texts,
    as_vmid, fault_graph, lease_graph, put_fault, put_lease, put_objids, put_texts, put_vmid,
};
use object_ids::{ObjIds, Uid, Vmid};
use sequence::{ByteList, Kinds};
use ser_read::read_to_end;
use ser_values::{Builder, Graph};
use ser_write::write_stream;
use std::alloc::Global;
use std::process::Abort;
use wire_io::mem::MemSource;
use wire_io::pull::Pull;

/// Streams, and after each what views tell of its nodes. The first two are Java's: a proxy of a reference; two ObjIDs, a VMID,
/// its Lease and a Lease with no VMID. So is the last, a proxy of two interfaces that is no reference.
const VIEWS: &str =
    "ACED0005737D00000001000E73616D706C652E436F756E746572787200176A6176612E6C616E672E7265666C6563742E50726F7879E127DA20CC1043
 CB0200014C0001687400254C6A6176612F6C616E672F7265666C6563742F496E766F636174696F6E48616E646C65723B78707372002D6A6176612E72
 6D692E7365727665722E52656D6F74654F626A656374496E766F636174696F6E48616E646C657200000000000000020200007872001C6A6176612E72
 6D692E7365727665722E52656D6F74654F626A656374D361B4910C61331E03000078707732000A556E696361737452656600093132372E302E302E31
 000053345505028CF303AF2EDD3A8DC9000001A219FCD08480010078
= ref #3 127.0.0.1 00005334 5505028CF303AF2E false
= ref #6 127.0.0.1 00005334 5505028CF303AF2E false
= ref #0 wrong
= ref null wrong
= text #2 Ljava/lang/reflect/InvocationHandler;
= fault #3 wrong
~
ACED0005737200156A6176612E726D692E7365727665722E4F626A4944A75EFA128DDCE55C0200024A00066F626A4E756D4C00057370616365740015
 4C6A6176612F726D692F7365727665722F5549443B78700000000000000005737200136A6176612E726D692E7365727665722E5549440F12700DBF36
 4F12020003530005636F756E744A000474696D65490006756E69717565787000000000000000000000000000007371007E0003000300000000000000
 0000000000737200116A6176612E726D692E6467632E564D4944F8865BAFA4A56DB60200025B0004616464727400025B424C000375696471007E0001
 7870757200025B42ACF317F8060854E0020000787000000008FD85AD29D3F34D9D7371007E00038001000001A219F5D3EA4FDCD5F4737200126A6176
 612E726D692E6467632E4C65617365B0B5E2660C4ADC340200024A000576616C75654C0004766D69647400134C6A6176612F726D692F6467632F564D
 49443B787000000000000927C07371007E000671007E000A7371007E00038002000001A219F5D3EA4FDCD5F47371007E000C000000000000000170
= vmid #8 FD85AD29D3F34D9D 4FDCD5F4
= vmid #2 wrong
= lease #14 600000 client
= lease #17 1 none
= lease #8 wrong
= ids #2 wrong
= ids #10 wrong
~
ACED0005 75 72 '[Ljava.lang.String;' ADD256E7E91D7B47 02 0000 70 78 70 00000002 74 0001 61 71 007E0002
= texts #1 2
= text #2 a
= text #1 wrong
= texts #2 wrong
~
ACED0005 75 72 '[Ljava.lang.String;' ADD256E7E91D7B47 02 0000 70 78 70 00000001 70
= texts #1 wrong
~
ACED0005 75 72 '[Ljava.rmi.server.ObjID;' 871300B8D02C647E 02 0000 70 78 70 00000001
 73 72 'java.rmi.server.ObjID' A75EFA128DDCE55C 02 0002 4A 'objNum' 4C 'space' 74 'Ljava/rmi/server/UID;' 70 78 70 0000000000000011
 73 72 'java.rmi.server.UID' 0F12700DBF364F12 02 0003 53 'count' 4A 'time' 49 'unique' 70 78 70 0000 0000000000000009 00000007
= ids #1 0000000000000011
= ids #4 wrong
~
ACED0005 73 72 'a.B' 0000000000000001 02 0000 78 72 'java.lang.Throwable' D5C635273977B8CB 03 0001
 4C 'detailMessage' 74 'Ljava/lang/String;' 78 70 74 'oh' 78
= fault #3 a.B: oh
= fault #4 wrong
~
ACED0005 73 72 'a.B' 0000000000000001 02 0000 78 72 'java.lang.Throwable' D5C635273977B8CB 03 0001
 4C 'detailMessage' 74 'Ljava/lang/String;' 78 70 70 78
= fault #3 a.B
~
ACED0005 73 72 'a.Stub' 0000000000000002 02 0000 78 72 'java.rmi.server.RemoteObject' D361B4910C61331E 03 0000 78 70
 77 34 'UnicastRef2' 00 '127.0.0.1' 0000044B 0000000000000011 00000007 0000000000000009 0000 02 78
= ref #2 127.0.0.1 0000044B 0000000000000011 true
~
ACED0005 73 72 'a.Stub' 0000000000000002 02 0000 78 72 'java.rmi.server.RemoteObject' D361B4910C61331E 03 0000 78 70
 77 34 'UnicastRef2' 01 '127.0.0.1' 0000044B 0000000000000011 00000007 0000000000000009 0000 00 78
= ref #2 wrong
~
ACED0005 73 72 'a.Stub' 0000000000000002 02 0000 78 72 'java.rmi.server.RemoteObject' D361B4910C61331E 03 0000 78 70
 77 33 'UnicastRef' '127.0.0.1' 0000044B 0000000000000011 00000007 0000000000000009 0000 01 00 78
= ref #2 wrong
~
ACED0005 73 7D 00000002 'java.lang.Runnable' 'java.lang.Comparable' 78
 72 'java.lang.reflect.Proxy' E127DA20CC1043CB 02 0001 4C 'h' 74 'Ljava/lang/reflect/InvocationHandler;' 78 70
 73 72 'Streams$H' 99B88DDCE6753C86 02 0000 78 70
= ref #3 wrong
= ref #5 wrong";

/// The graph of a stream.
pub fn read(rt: &impl Abort, alloc: Global, bytes: ByteList) -> Graph {
    let mut source = MemSource::new(bytes, Kinds::new(alloc), Kinds::new(alloc));
    read_to_end(alloc, &mut Pull::new(&mut source)).expect(rt, "a stream")
}

/// Returns whether a reference is that of a host, a port, an object's number and a truth value.
fn is_ref(reference: &LiveRef, words: &str) -> bool {
    let (host, rest) = cut(words, ' ');
    let (port, rest) = cut(rest, ' ');
    let (number, result) = cut(rest, ' ');
    is_text(&reference.host, host)
        && u64::from(u32::from_be_bytes(reference.port.to_be_bytes())) == number_of(port.as_bytes())
        && reference.id.number.to_be_bytes() == number_of(number.as_bytes()).to_be_bytes()
        && reference.result == (result == "true")
}

/// Returns whether a client is that of an address and a unique number.
fn is_client(rt: &impl Abort, alloc: Global, vmid: &Vmid, words: &str) -> bool {
    let (addr, unique) = cut(words, ' ');
    let unique = number_of(unique.as_bytes());
    let addr = bytes_of(alloc, addr).expect(rt, MEMORY);
    vmid.addr().as_slice() == addr.as_slice()
        && u64::from(u32::from_be_bytes(vmid.uid().unique.to_be_bytes())) == unique
}

/// Returns whether the first of some identifiers has a number.
fn is_first(ids: &ObjIds, number: &str) -> bool {
    let number = number_of(number.as_bytes()).to_be_bytes();
    ids.first()
        .is_some_and(|id| id.number.to_be_bytes() == number)
}

/// Returns whether a lease has a value and a client or none.
fn is_lease(lease: &LeaseView, words: &str) -> bool {
    let (value, client) = cut(words, ' ');
    lease.value.to_be_bytes() == decimal(value).to_be_bytes()
        && lease.vmid.is_some() == (client == "client")
}

/// Returns whether these words tell a text, a list of texts or a fault, or none where a slot has another shape.
fn tells_text(alloc: Global, graph: &Graph, view: &str, slot: Slot, words: &str) -> Option<bool> {
    match view {
        "text" => Some(is_text(&as_text(alloc, graph, slot).ok()?, words)),
        "fault" => Some(is_text(&as_fault_text(alloc, graph, slot).ok()?, words)),
        _ => Some(as_texts(alloc, graph, slot).ok()?.len() as u64 == decimal(words)),
    }
}

/// Returns whether these words tell identifiers, a client, a lease or a reference, or none where a slot has another
/// shape.
fn tells_id(
    rt: &impl Abort,
    alloc: Global,
    graph: &Graph,
    view: &str,
    slot: Slot,
    words: &str,
) -> Option<bool> {
    match view {
        "ids" => Some(is_first(&as_objids(alloc, graph, slot).ok()?, words)),
        "vmid" => Some(is_client(rt, alloc, &as_vmid(alloc, graph, slot).ok()?, words)),
        "lease" => Some(is_lease(&as_lease(alloc, graph, slot).ok()?, words)),
        _ => Some(is_ref(&as_live_ref(alloc, graph, slot).ok()?, words)),
    }
}

/// Returns whether a view tells these words of a slot. The words `wrong` say that the slot has another shape.
fn tells(rt: &impl Abort, alloc: Global, graph: &Graph, line: &str) -> bool {
    let (view, rest) = cut(line.trim(), ' ');
    let (slot, words) = cut(rest, ' ');
    let slot = slot_of(slot);
    let told = match view {
        "text" | "fault" | "texts" => tells_text(alloc, graph, view, slot, words),
        _ => tells_id(rt, alloc, graph, view, slot, words),
    };
    match told {
        Some(told) => told && words != "wrong",
        None => words == "wrong",
    }
}

#[test]
fn views_tell_javas_objects(rt: HostRuntime) {
    let alloc = rt.alloc();
    for block in VIEWS.split('~') {
        let (stream, lines) = cut(block, '=');
        let graph = read(&rt, alloc, bytes_of(alloc, stream).expect(&rt, MEMORY));
        for line in lines.split('=') {
            must(&rt, tells(&rt, alloc, &graph, line), line);
        }
    }
}

/// A fault with the message `no such object`.
const FAULT: &str =
    "ACED0005 73 72 'java.rmi.RemoteException' B88C9D4EDEE47A22 02 0001 4C 'detail' 74 'Ljava/lang/Throwable;' 70 78
 72 'java.io.IOException' 6C8073646525F0AB 02 0000 70 78
 72 'java.lang.Exception' D0FD1F3E1A3B1CC4 02 0000 70 78
 72 'java.lang.Throwable' D5C635273977B8CB 03 0001 4C 'detailMessage' 74 'Ljava/lang/String;' 70 78 70
 74 'no such object' 78 70";

/// A lease of 600,000 milliseconds for the client 0102030405060708@3/4/5.
const LEASE: &str =
    "ACED0005 73 72 'java.rmi.dgc.Lease' B0B5E2660C4ADC34 02 0002 4A 'value' 4C 'vmid' 74 'Ljava/rmi/dgc/VMID;' 70 78 70 00000000000927C0
 73 72 'java.rmi.dgc.VMID' F8865BAFA4A56DB6 02 0002 5B 'addr' 74 '[B' 4C 'uid' 74 'Ljava/rmi/server/UID;' 70 78 70
 75 72 '[B' ACF317F8060854E0 02 0000 70 78 70 00000008 0102030405060708
 73 72 'java.rmi.server.UID' 0F12700DBF364F12 02 0003 53 'count' 4A 'time' 49 'unique' 70 78 70 0005 0000000000000004 00000003";

/// That client, of which the lease tells.
const CLIENT: &str =
    "ACED0005 73 72 'java.rmi.dgc.VMID' F8865BAFA4A56DB6 02 0002 5B 'addr' 74 '[B' 4C 'uid' 74 'Ljava/rmi/server/UID;' 70 78 70
 75 72 '[B' ACF317F8060854E0 02 0000 70 78 70 00000008 0102030405060708
 73 72 'java.rmi.server.UID' 0F12700DBF364F12 02 0003 53 'count' 4A 'time' 49 'unique' 70 78 70 0005 0000000000000004 00000003";

/// The objects 17 and 16 of the space 7/9/0, the first of them twice.
const IDS: &str =
    "ACED0005 75 72 '[Ljava.rmi.server.ObjID;' 871300B8D02C647E 02 0000 70 78 70 00000003
 73 72 'java.rmi.server.ObjID' A75EFA128DDCE55C 02 0002 4A 'objNum' 4C 'space' 74 'Ljava/rmi/server/UID;' 70 78 70 0000000000000011
 73 72 'java.rmi.server.UID' 0F12700DBF364F12 02 0003 53 'count' 4A 'time' 49 'unique' 70 78 70 0000 0000000000000009 00000007
 73 71 007E0002 0000000000000010 73 71 007E0005 0000 0000000000000009 00000007
 73 71 007E0002 0000000000000011 73 71 007E0005 0000 0000000000000009 00000007";

/// No objects.
const NO_IDS: &str =
    "ACED0005 75 72 '[Ljava.rmi.server.ObjID;' 871300B8D02C647E 02 0000 70 78 70 00000000";

/// The texts `a` and `b`.
const TEXTS: &str =
    "ACED0005 75 72 '[Ljava.lang.String;' ADD256E7E91D7B47 02 0000 70 78 70 00000002 74 'a' 74 'b'";

/// Returns whether a graph is written as these bytes.
pub fn is_written(rt: &impl Abort, alloc: Global, graph: &Graph, notation: &str) -> bool {
    let bytes = bytes_of(alloc, notation).expect(rt, MEMORY);
    let written = write_stream(alloc, graph).expect(rt, MEMORY);
    written.as_slice() == bytes.as_slice()
}

/// The graph of what a builder's slot reaches.
pub fn graph_at(rt: &impl Abort, alloc: Global, builder: Builder, slot: Slot) -> Graph {
    let items = Items::from_vec(vec![in alloc; Item::Ref(slot)].expect(rt, MEMORY));
    builder.finish(items).expect(rt, "a graph")
}

/// A client's address and identifier.
fn client(rt: &impl Abort, alloc: Global) -> Vmid {
    let addr = ByteList::from_slice(alloc, &[1, 2, 3, 4, 5, 6, 7, 8]).expect(rt, MEMORY);
    let uid = Uid {
        unique: 3,
        time: 4,
        count: 5,
    };
    Vmid::new(addr, uid).expect(rt, "a client")
}

/// Identifiers of objects with these numbers, of the space 7/9/0.
fn ids_of(rt: &impl Abort, alloc: Global, numbers: &[i64]) -> ObjIds {
    let mut ids = ObjIds::new(alloc);
    for number in numbers {
        must(rt, ids.push(id_of(*number)).is_ok(), MEMORY);
    }
    ids
}

/// Puts what a word names into a builder: a fault, a lease, a client, objects, or texts.
fn put(rt: &impl Abort, alloc: Global, builder: &mut Builder, word: &str) -> Slot {
    let slot = match word {
        "fault" => {
            let message = ascii(alloc, "no such object").expect(rt, MEMORY);
            put_fault(alloc, builder, &message)
        }
        "lease" => put_lease(alloc, builder, 600_000, &client(rt, alloc)),
        "client" => put_vmid(alloc, builder, &client(rt, alloc)),
        "ids" => put_objids(alloc, builder, &ids_of(rt, alloc, &[17, 16, 17])),
        "no ids" => put_objids(alloc, builder, &ids_of(rt, alloc, &[])),
        _ => put_texts(alloc, builder, &names_of(rt, alloc, "a,b")),
    };
    slot.expect(rt, word)
}

/// Words for objects that are put into a builder, and the bytes that are written of the graph of each.
const BUILT: [(&str, &str); 6] = [
    ("fault", FAULT),
    ("lease", LEASE),
    ("client", CLIENT),
    ("ids", IDS),
    ("no ids", NO_IDS),
    ("texts", TEXTS),
];

#[test]
fn what_is_put_is_written(rt: HostRuntime) {
    let alloc = rt.alloc();
    for (word, stream) in BUILT {
        let mut builder = Builder::new(alloc);
        let slot = put(&rt, alloc, &mut builder, word);
        let graph = graph_at(&rt, alloc, builder, slot);
        must(&rt, is_written(&rt, alloc, &graph, stream), word);
    }
}

#[test]
fn a_fault_has_its_graph(rt: HostRuntime) {
    let alloc = rt.alloc();
    let message = ascii(alloc, "no such object").expect(&rt, MEMORY);
    let graph = fault_graph(alloc, &message).expect(&rt, "a graph");
    must(&rt, is_written(&rt, alloc, &graph, FAULT), "a fault");
}

#[test]
fn a_lease_has_its_graph(rt: HostRuntime) {
    let alloc = rt.alloc();
    let graph = lease_graph(alloc, 600_000, &client(&rt, alloc)).expect(&rt, "a graph");
    must(&rt, is_written(&rt, alloc, &graph, LEASE), "a lease");
}
