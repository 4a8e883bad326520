//! Graphs that are built, written, read again, and shown as text.
use crate::script::graph_of;
use crate::shape_tests::{is_written, read};
use crate::text::{MEMORY, bytes_of, cut, decimal, must, slot_of};
use graph_text::graph_text;
use ser_values::{Graph, NodeList, same_graph};
use ser_write::write_stream;
use std::alloc::Global;
use std::process::Abort;

/// Graphs and their streams: a text that an array holds twice; an object whose field is itself; a list with its note;
/// a reference to object 17 of the space 7/9/0 at 127.0.0.1 port 1099; a fault with its message; a lease of 600,000 milliseconds
/// for the client 0102030405060708@3/4/5; a constant of an enum, its class as a value, and bytes between them; an externalizable
/// object; a value of every type and arrays of every kind, those of a float and of a double with bits that stand for no number.
const STREAMS: &str = "text a
desc [Ljava.lang.String; ADD256E7E91D7B47 02 null null
array #1 #0,#0
item #2
= ACED0005 75 72 0013 5B4C6A6176612E6C616E672E537472696E673B ADD256E7E91D7B47 02 0000 70 78 70 00000002 74 0001 61 71 007E0002
~
object #1 #0/-
desc N 0 02 null null L:next:#2
text LN;
item #0
= ACED0005 73 72 0001 4E 0000000000000000 02 0001 4C 0004 6E657874 74 0003 4C4E3B 70 78 70 71 007E0002
~
desc java.util.ArrayList 7881D21D99C7619D 03 null null I:size
text a
object #0 I1/x00000001,#1
item #2
= ACED0005 73 72 'java.util.ArrayList' 7881D21D99C7619D 03 0001 49 'size' 70 78 70 00000001 77 04 00000001 74 0001 61 78
~
desc java.rmi.server.RemoteObject D361B4910C61331E 03 null null
desc java.rmi.server.RemoteObjectInvocationHandler 2 02 #0 null
object #1 -/x'UnicastRef''127.0.0.1'0000044B0000000000000011000000070000000000000009000001 -/-
text Ljava/lang/reflect/InvocationHandler;
desc java.lang.reflect.Proxy E127DA20CC1043CB 02 null null L:h:#3
proxy java.rmi.Remote,sample.Echo #4 null
object #5 #2/- -/-
item #6
= ACED0005 73 7D 00000002 'java.rmi.Remote' 'sample.Echo' 70 78
 72 'java.lang.reflect.Proxy' E127DA20CC1043CB 02 0001 4C 'h' 74 'Ljava/lang/reflect/InvocationHandler;' 70 78 70
 73 72 'java.rmi.server.RemoteObjectInvocationHandler' 0000000000000002 02 0000 70 78
 72 'java.rmi.server.RemoteObject' D361B4910C61331E 03 0000 70 78 70
 77 32 'UnicastRef' '127.0.0.1' 0000044B 0000000000000011 00000007 0000000000000009 0000 01 78
~
text no such method
text Ljava/lang/Throwable;
text Ljava/lang/String;
desc java.lang.Throwable D5C635273977B8CB 03 null null L:detailMessage:#2
desc java.lang.Exception D0FD1F3E1A3B1CC4 02 #3 null
desc java.io.IOException 6C8073646525F0AB 02 #4 null
desc java.rmi.RemoteException B88C9D4EDEE47A22 02 #5 null L:detail:#1
object #6 #0/- -/- -/- null/-
item #7
= ACED0005 73 72 'java.rmi.RemoteException' B88C9D4EDEE47A22 02 0001 4C 'detail' 74 'Ljava/lang/Throwable;' 70 78
 72 'java.io.IOException' 6C8073646525F0AB 02 0000 70 78
 72 'java.lang.Exception' D0FD1F3E1A3B1CC4 02 0000 70 78
 72 'java.lang.Throwable' D5C635273977B8CB 03 0001 4C 'detailMessage' 74 'Ljava/lang/String;' 70 78 70
 74 'no such method' 78 70
~
desc java.rmi.dgc.Lease B0B5E2660C4ADC34 02 null null J:value L:vmid:#1
text Ljava/rmi/dgc/VMID;
object #0 J927C0,#6/-
desc java.rmi.dgc.VMID F8865BAFA4A56DB6 02 null null [:addr:#4 L:uid:#5
text [B
text Ljava/rmi/server/UID;
object #3 #10,#8/-
desc java.rmi.server.UID 0F12700DBF364F12 02 null null S:count J:time I:unique
object #7 S5,J4,I3/-
desc [B ACF317F8060854E0 02 null null
array #9 B0102030405060708
item #2
= ACED0005 73 72 'java.rmi.dgc.Lease' B0B5E2660C4ADC34 02 0002 4A 'value' 4C 'vmid' 74 'Ljava/rmi/dgc/VMID;' 70 78 70 00000000000927C0
 73 72 'java.rmi.dgc.VMID' F8865BAFA4A56DB6 02 0002 5B 'addr' 74 '[B' 4C 'uid' 74 'Ljava/rmi/server/UID;' 70 78 70
 75 72 '[B' ACF317F8060854E0 02 0000 70 78 70 00000008 0102030405060708
 73 72 'java.rmi.server.UID' 0F12700DBF364F12 02 0003 53 'count' 4A 'time' 49 'unique' 70 78 70 0005 0000000000000004 00000003
~
desc java.lang.Enum 0 12 null null
desc Color 0 12 #0 null
text RED
enum #1 #2
class #1
item #3
item x010203
item #4
item #3
item null
= ACED0005 7E 72 'Color' 0000000000000000 12 0000 70 78 72 'java.lang.Enum' 0000000000000000 12 0000 70 78 70 74 'RED'
 77 03 010203 76 71 007E0000 71 007E0002 70
~
desc External 102 0C null null
object #0 -/#1,xFF
item #1
= ACED0005 73 72 'External' 0000000000000102 0C 0000 70 78 70 71 007E0001 77 01 FF 78
~
text [I
text LA;
desc A 1 02 null null B:a C:b D:c F:d I:e J:f S:g Z:h [:a:#0 L:b:#1
object #2 B80,CD800,D7FF4000000000001,F7FA00001,IFFFFFFFE,JFFFFFFFFFFFFFFFD,SFFFC,Z1,null,#1/-
item #3
= ACED0005 73 72 'A' 0000000000000001 02 000A 42 'a' 43 'b' 44 'c' 46 'd' 49 'e' 4A 'f' 53 'g' 5A 'h' 5B 'a' 74 '[I' 4C 'b' 74 'LA;'
 70 78 70 80 D800 7FF4000000000001 7FA00001 FFFFFFFE FFFFFFFFFFFFFFFD FFFC 01 70 71 007E0002
~
desc [B 1 02 null null
array #0 B
array #0 B80
desc [C 1 02 null null
array #3 C
array #3 CD800
desc [D 1 02 null null
array #6 D
array #6 D7FF4000000000001
desc [F 1 02 null null
array #9 F
array #9 F7FA00001
desc [I 1 02 null null
array #12 I
array #12 IFFFFFFFE
desc [J 1 02 null null
array #15 J
array #15 JFFFFFFFFFFFFFFFD
desc [S 1 02 null null
array #18 S
array #18 SFFFC
desc [Z 1 02 null null
array #21 Z
array #21 Z1
desc [[B 1 02 null null
array #24 -
array #24 null
item #1
item #2
item #4
item #5
item #7
item #8
item #10
item #11
item #13
item #14
item #16
item #17
item #19
item #20
item #22
item #23
item #25
item #26
= ACED0005 75 72 '[B' 0000000000000001 02 0000 70 78 70 00000000 75 71 007E0000 00000001 80
 75 72 '[C' 0000000000000001 02 0000 70 78 70 00000000 75 71 007E0003 00000001 D800
 75 72 '[D' 0000000000000001 02 0000 70 78 70 00000000 75 71 007E0006 00000001 7FF4000000000001
 75 72 '[F' 0000000000000001 02 0000 70 78 70 00000000 75 71 007E0009 00000001 7FA00001
 75 72 '[I' 0000000000000001 02 0000 70 78 70 00000000 75 71 007E000C 00000001 FFFFFFFE
 75 72 '[J' 0000000000000001 02 0000 70 78 70 00000000 75 71 007E000F 00000001 FFFFFFFFFFFFFFFD
 75 72 '[S' 0000000000000001 02 0000 70 78 70 00000000 75 71 007E0012 00000001 FFFC
 75 72 '[Z' 0000000000000001 02 0000 70 78 70 00000000 75 71 007E0015 00000001 01
 75 72 '[[B' 0000000000000001 02 0000 70 78 70 00000000 75 71 007E0018 00000001 70";

/// Returns whether a graph is read of these bytes.
fn is_read(rt: &impl Abort, alloc: Global, notation: &str, graph: &Graph) -> bool {
    let bytes = bytes_of(alloc, notation).expect(rt, MEMORY);
    same_graph(&read(rt, alloc, bytes), graph)
}

#[test]
fn graphs_are_written_and_read(rt: HostRuntime) {
    let alloc = rt.alloc();
    for block in STREAMS.split('~') {
        let (script, stream) = cut(block, '=');
        let graph = graph_of(&rt, alloc, script).expect(&rt, block);
        must(&rt, is_written(&rt, alloc, &graph, stream), block);
        must(&rt, is_read(&rt, alloc, stream, &graph), block);
    }
}

/// Long texts and long runs of bytes: what is written first, what last, and how many bytes in all.
const LENGTHS: &str = "letters 65535
item #0 = ACED0005 74 FFFF 61 = 61 = 65542 ~
letters 65536
item #0 = ACED0005 7C 0000000000010000 61 = 61 = 65549 ~
block 255 = ACED0005 77 FF 61 = 61 = 261 ~
block 256 = ACED0005 7A 00000100 61 = 61 = 265 ~
block 1024 = ACED0005 7A 00000400 61 = 61 61 61 = 1033 ~
block 1025 = ACED0005 7A 00000400 61 = 61 77 01 61 = 1036";

/// Returns whether a stream begins or ends with these bytes.
fn has_end(rt: &impl Abort, alloc: Global, stream: &[u8], notation: &str, first: bool) -> bool {
    let bytes = bytes_of(alloc, notation).expect(rt, MEMORY);
    if first {
        stream.starts_with(bytes.as_slice())
    } else {
        stream.ends_with(bytes.as_slice())
    }
}

/// Returns whether the bytes that are written of a graph have this beginning, this end and this length.
fn is_long(rt: &impl Abort, alloc: Global, graph: &Graph, parts: &str) -> bool {
    let (first, rest) = cut(parts, '=');
    let (last, length) = cut(rest, '=');
    let written = write_stream(alloc, graph).expect(rt, MEMORY);
    written.len() as u64 == decimal(length)
        && has_end(rt, alloc, written.as_slice(), first, true)
        && has_end(rt, alloc, written.as_slice(), last, false)
}

#[test]
fn lengths_are_written(rt: HostRuntime) {
    for block in LENGTHS.split('~') {
        let (script, parts) = cut(block, '=');
        let graph = graph_of(&rt, rt.alloc(), script).expect(&rt, block);
        must(&rt, is_long(&rt, rt.alloc(), &graph, parts), block);
    }
}

/// Returns the numbers of nodes and items of a graph.
fn counts(graph: Graph) -> (usize, usize) {
    let (nodes, items) = graph.into_parts();
    (nodes.len(), items.len())
}

/// Returns the numbers of nodes and items of a script's graph, or why its nodes are none.
fn shape_of(rt: &impl Abort, alloc: Global, script: &str) -> String {
    let text = match graph_of(rt, alloc, script) {
        Ok(graph) => {
            let (nodes, items) = counts(graph);
            format!(in alloc; "{nodes} nodes {items} items")
        }
        Err(fault) => format!(in alloc; "{fault}"),
    };
    text.expect(rt, MEMORY)
}

/// Checks graphs against how many nodes and items they have, or why nodes are none.
fn check(rt: &impl Abort, alloc: Global, shapes: &str) {
    for block in shapes.split('~') {
        let (script, expected) = cut(block, '=');
        let shape = shape_of(rt, alloc, script);
        must(rt, shape.as_str() == expected.trim(), block);
    }
}

/// Nothing at all; superclasses that go round; an object of a class in the class's own annotation, where the class isn't written
/// whole; references that are set where there is none; a constant of an enum and the class of a proxy; the class of nothing.
const SHAPES: &str = "= 0 nodes 0 items ~
desc A 1 02 #1 -
desc B 1 02 #0 -
item #0 = wrong shape ~
desc A 1 02 null #1
object #0 -/-
item #0 = wrong shape ~
text a
desc [LA; 1 02 null -
array #1 null
array #1 B01
wrong shape ! set #0 0 0 #0
wrong shape ! set #1 0 0 #0
wrong shape ! set #3 0 0 #0
wrong shape ! set null 0 0 #0
wrong shape ! set #9 0 0 #0
wrong shape ! set #2 1 0 #0
wrong shape ! set #2 0 1 #0
#0 ! set #2 0 0 #0
item #2 = 3 nodes 1 items ~
proxy java.rmi.Remote null -
desc E 0 12 null -
text ONE
enum #1 #2
class #0
#5 ! class null
item #4
item #3 = 5 nodes 2 items ~
class null
item #0 = wrong shape";

/// At most 200 levels. A broken rule comes first, however deep it lies, and what was written before is no deeper.
const LEVELS: &str = "desc [LA; 1 02 null -
nest 200 null
item #1 = 201 nodes 1 items ~
desc [LA; 1 02 null -
nest 201 null
item #1 = too deep ~
desc [LA; 1 02 null -
nest 65535 #65536
item #1 = wrong shape ~
desc [LA; 1 02 null -
nest 200 #1
item #1 = 201 nodes 1 items";

/// A full builder, which shares the texts that it has.
const NODES: &str = "desc [LA; 1 02 null -
row 65534
too many nodes ! text b
too many nodes ! class #0
#1 ! share a
item #65535 = 65536 nodes 1 items";

/// As many parts as there may be, 2,047 references of items among them, and one more that nothing names.
const MOST_PARTS: &str = "chain 1023
fill 1023 #1022
item #0
object #0 -/- = 2046 nodes 2047 items";

/// The same with an item that names the one more.
const ONE_PART_MORE: &str = "item #2046
chain 1023
fill 1023 #1022
object #0 -/- = wrong shape";

#[test]
fn shapes_are_kept(rt: HostRuntime) {
    check(&rt, rt.alloc(), SHAPES);
    check(&rt, rt.alloc(), LEVELS);
}

#[test]
fn nodes_are_at_most_65536(rt: HostRuntime) {
    check(&rt, rt.alloc(), NODES);
}

#[test]
fn parts_are_as_many_as_1048576(rt: HostRuntime) {
    check(&rt, rt.alloc(), MOST_PARTS);
}

#[test]
fn parts_are_no_more_than_1048576(rt: HostRuntime) {
    check(&rt, rt.alloc(), ONE_PART_MORE);
}

/// Returns whether a graph's text is this one and the end of its last line.
fn is_shown_as(rt: &impl Abort, alloc: Global, graph: &Graph, text: &str) -> bool {
    let shown = graph_text(alloc, graph).expect(rt, MEMORY);
    shown.as_slice().strip_suffix(b"\n") == Some(text.trim().as_bytes())
}

/// An object of a class with a `double` and a reference, an array of bytes, and null.
const POINT: &str = "text LA;
desc P FFFFFFFFFFFFFFFE 03 null - D:x L:y:#0
object #1 D3FF0000000000000,null/x07AB
desc [B FFFFFFFFFFFFFFFE 03 null -
array #3 B01FF80
item #2
item #4
item null";

/// The lines of its nodes and items.
const POINT_LINES: &str = r#"
#0 desc "P" fffffffffffffffe 03 D:"x",L:"y":#1 note - super null
#1 text "LA;"
#2 object #0 (x:3ff0000000000000,null x:07ab)
#3 desc "[B" fffffffffffffffe 03 - note - super null
#4 array #3 3 1,-1,-128
item #2
item #4
item null"#;

/// An object of a class `N` whose one field, of the type `N`, is the object itself. Before them stands a text that nothing names.
const KNOT: &str = "text unused
share LN;
desc N 1 02 null - L:next:#1
object #2 null/-
set #3 0 0 #3
item #3";

/// Its lines.
const KNOT_LINES: &str = r#"
#0 desc "N" 0000000000000001 02 L:"next":#1 note - super null
#1 text "LN;"
#2 object #0 (#2 -)
item #2"#;

/// References of the object's graph, and the lines of what they reach.
const PARTS: &str = r#"#2 =
#0 desc "N" 0000000000000001 02 L:"next":#1 note - super null
#1 text "LN;"
#2 object #0 (#2 -)
item #2 ~
#1 =
#0 text "LN;"
item #0 ~
null =
item null"#;

/// Returns whether a reference of a graph reaches what a row says, which is all of the graph for `#2` alone.
fn is_part(rt: &impl Abort, alloc: Global, graph: &Graph, row: &str) -> bool {
    let (slot, lines) = cut(row, '=');
    let part = graph.part(alloc, slot_of(slot)).expect(rt, row);
    is_shown_as(rt, alloc, &part, lines) && same_graph(graph, &part) == (slot == "#2 ")
}

/// Returns whether a copy of a graph is the same.
fn is_copied(rt: &impl Abort, alloc: Global, graph: &Graph) -> bool {
    let copy = graph.copy(alloc).expect(rt, MEMORY);
    same_graph(graph, &copy)
}

/// Returns whether a graph has three nodes and one item.
fn is_of_three(graph: &Graph) -> bool {
    graph.count() == 3
        && graph.items().len() == 1
        && graph.node(2).is_some()
        && graph.node(3).is_none()
}

/// Returns whether the graph of a script is shown in these lines, and the parts that its references reach in these.
fn is_shown(rt: &impl Abort, alloc: Global, script: &str, lines: &str, parts: &str) -> bool {
    let graph = graph_of(rt, alloc, script).expect(rt, script);
    for row in parts.split('~') {
        must(
            rt,
            row.is_empty() || is_part(rt, alloc, &graph, row.trim_start()),
            row,
        );
    }
    must(rt, is_of_three(&graph) != parts.is_empty(), "counts");
    is_copied(rt, alloc, &graph) && is_shown_as(rt, alloc, &graph, lines)
}

#[test]
fn graphs_and_their_parts_are_shown(rt: HostRuntime) {
    must(&rt, NodeList::new(rt.alloc()).is_empty(), "a list of nodes");
    must(
        &rt,
        is_shown(&rt, rt.alloc(), POINT, POINT_LINES, ""),
        POINT,
    );
    must(
        &rt,
        is_shown(&rt, rt.alloc(), KNOT, KNOT_LINES, PARTS),
        KNOT,
    );
}
