//! References to remote objects: the bytes of what is built, and what is done with all references of a graph.
ghost use Rattle.std.specs.Prelude.{◌≤◌, length};
ghost use Rattle.mod_utf.specs.Utf.{utf};

use crate::shape_tests::{graph_at, is_written, read};
use crate::text::{MEMORY, ascii, bytes_of, must};
use java_shapes::{LiveRef, local_refs, put_live_ref, ref_graph, with_result_flag};
use mod_utf::utf::encoded_len;
use object_ids::{ObjId, Uid};
use sequence::ByteList;
use ser_values::{Builder, Graph};
use ser_write::write_stream;
use std::alloc::Global;
use std::process::Abort;

/// A reference to object 16 of the space 7/9/0 at 127.0.0.1 port 1099, with the interface `sample.Echo`.
const ECHO: &str = "ACED0005 73 7D 00000002 'java.rmi.Remote' 'sample.Echo' 70 78
 72 'java.lang.reflect.Proxy' E127DA20CC1043CB 02 0001 4C 'h' 74 'Ljava/lang/reflect/InvocationHandler;' 70 78 70
 73 72 'java.rmi.server.RemoteObjectInvocationHandler' 0000000000000002 02 0000 70 78
 72 'java.rmi.server.RemoteObject' D361B4910C61331E 03 0000 70 78 70
 77 32 'UnicastRef' '127.0.0.1' 0000044B 0000000000000010 00000007 0000000000000009 0000 01 78";

/// The same with `java.rmi.Remote` alone.
const REMOTE: &str = "ACED0005 73 7D 00000001 'java.rmi.Remote' 70 78
 72 'java.lang.reflect.Proxy' E127DA20CC1043CB 02 0001 4C 'h' 74 'Ljava/lang/reflect/InvocationHandler;' 70 78 70
 73 72 'java.rmi.server.RemoteObjectInvocationHandler' 0000000000000002 02 0000 70 78
 72 'java.rmi.server.RemoteObject' D361B4910C61331E 03 0000 70 78 70
 77 32 'UnicastRef' '127.0.0.1' 0000044B 0000000000000010 00000007 0000000000000009 0000 01 78";

/// The identifier of an object of the space 7/9/0.
pub fn id_of(number: i64) -> ObjId {
    let space = Uid {
        unique: 7,
        time: 9,
        count: 0,
    };
    ObjId { number, space }
}

/// A reference to object 16 at 127.0.0.1 port 1099, as it stands in a result.
fn reference(rt: &impl Abort, alloc: Global) -> LiveRef
    ensures { length (utf result.host) ≤ 65535 }
{
    let host = ascii(alloc, "127.0.0.1").expect(rt, MEMORY);
    assert!(rt; encoded_len(&host) <= 65_535, "a short host");
    LiveRef {
        host,
        port: 1099,
        id: id_of(16),
        result: true,
    }
}

/// The graph of the reference of object 16, put with an interface.
fn built(rt: &impl Abort, alloc: Global, interface: &str) -> Graph {
    let reference = reference(rt, alloc);
    let interface = ascii(alloc, interface).expect(rt, MEMORY);
    let mut builder = Builder::new(alloc);
    let slot = put_live_ref(alloc, &mut builder, &interface, &reference).expect(rt, "a reference");
    graph_at(rt, alloc, builder, slot)
}

#[test]
fn references_are_built(rt: HostRuntime) {
    let alloc = rt.alloc();
    for (interface, stream) in [("sample.Echo", ECHO), ("java.rmi.Remote", REMOTE)] {
        let graph = built(&rt, alloc, interface);
        must(&rt, is_written(&rt, alloc, &graph, stream), interface);
    }
}

#[test]
fn a_reference_has_its_graph(rt: HostRuntime) {
    let alloc = rt.alloc();
    let interface = ascii(alloc, "sample.Echo").expect(&rt, MEMORY);
    let graph = ref_graph(alloc, &interface, &reference(&rt, alloc)).expect(&rt, "a graph");
    must(&rt, is_written(&rt, alloc, &graph, ECHO), "a reference");
}

/// An array of stubs of the objects 17, 16 and 17, of object 18 at another port, and of object 19 at another host; `^` stands
/// for a flag.
const STUBS: &str = "ACED0005 75 72 '[La.B;' 0000000000000001 02 0000 70 78 70 00000005
 73 72 'a.Stub' 0000000000000002 02 0000 70 78 72 'java.rmi.server.RemoteStub' 0000000000000003 02 0000 70 78
 72 'java.rmi.server.RemoteObject' D361B4910C61331E 03 0000 70 78 70
 77 32 'UnicastRef' '127.0.0.1' 0000044B 0000000000000011 00000007 0000000000000009 0000 ^ 78
 73 71 007E0002 77 34 'UnicastRef2' 00 '127.0.0.1' 0000044B 0000000000000010 00000007 0000000000000009 0000 ^ 78
 73 71 007E0002 77 32 'UnicastRef' '127.0.0.1' 0000044B 0000000000000011 00000007 0000000000000009 0000 ^ 78
 73 71 007E0002 77 32 'UnicastRef' '127.0.0.1' 0000044C 0000000000000012 00000007 0000000000000009 0000 ^ 78
 73 71 007E0002 77 32 'UnicastRef' '127.0.0.2' 0000044B 0000000000000013 00000007 0000000000000009 0000 ^ 78";

/// The stubs, with this flag in each.
fn stubs(rt: &impl Abort, alloc: Global, flag: u8) -> ByteList {
    let mut bytes = ByteList::new(alloc);
    for (place, piece) in STUBS.split('^').enumerate() {
        if place > 0 {
            bytes.push(flag).expect(rt, MEMORY);
        }
        let piece = bytes_of(alloc, piece).expect(rt, MEMORY);
        bytes.append(piece.as_slice()).expect(rt, MEMORY);
    }
    bytes
}

/// Returns whether the local references of a graph are those of the objects 17 and 16, each once.
fn has_two(rt: &impl Abort, alloc: Global, graph: &Graph) -> bool {
    let host = ascii(alloc, "127.0.0.1").expect(rt, MEMORY);
    let ids = local_refs(alloc, graph, &host, 1099).expect(rt, MEMORY);
    ids.as_slice() == [id_of(17), id_of(16)].as_slice()
}

/// The stream of a graph with the flag of each reference set.
fn flagged(rt: &impl Abort, alloc: Global, graph: Graph) -> ByteList {
    let flagged = with_result_flag(alloc, graph).expect(rt, MEMORY);
    write_stream(alloc, &flagged).expect(rt, MEMORY)
}

#[test]
fn references_are_listed_and_flagged(rt: HostRuntime) {
    let alloc = rt.alloc();
    let graph = read(&rt, alloc, stubs(&rt, alloc, 0));
    must(&rt, has_two(&rt, alloc, &graph), "each local object once");
    let written = flagged(&rt, alloc, graph);
    let wanted = stubs(&rt, alloc, 1);
    must(
        &rt,
        written.as_slice() == wanted.as_slice(),
        "each flag is set",
    );
}
