//! Rows on descriptions: the streams of their graphs, and the greatest number of fields.

use sequence::ByteList;
use ser_values::Graph;
use ser_write::write_stream;
use std::alloc::{AllocError, Global};
use std::process::Abort;
use stream_laws::description_read_back;
use suid_calc::{ClassOutline, DescribeFault, describe, parse_outline};

/// Stops where this does not hold, and says what it is.
fn must(rt: &impl Abort, holds: bool, what: &str) {
    assert!(rt; holds, "{what}");
}

/// Outlines, and the streams of their classes' descriptions.
const STREAMS: [(&[u8], &[u8]); 15] = [
    (
        // the first row
        b"class 33 A\nconstructor 1 ()V\nfield 2 n I\n",
        b"\xAC\xED\x00\x05r\x00\x01A\x96C\xDF2\xE4\xD7\xB8:\x02\x00\x01I\x00\x01npxp",
    ),
    (
        // another modifier of the class: another number
        b"class 49 A\nconstructor 1 ()V\nfield 2 n I\n",
        b"\xAC\xED\x00\x05r\x00\x01A\x1C?\xB0)0MY#\x02\x00\x01I\x00\x01npxp",
    ),
    (
        // another name of the class
        b"class 33 B\nconstructor 1 ()V\nfield 2 n I\n",
        b"\xAC\xED\x00\x05r\x00\x01B\x8C\xBD\x1C~\xA9\xE1[#\x02\x00\x01I\x00\x01npxp",
    ),
    (
        // a private constructor: another number
        b"class 33 A\nconstructor 2 ()V\nfield 2 n I\n",
        b"\xAC\xED\x00\x05r\x00\x01Al\x8B\xF5Z\xDB\xC3e\xCF\x02\x00\x01I\x00\x01npxp",
    ),
    (
        // another name of the field
        b"class 33 A\nconstructor 1 ()V\nfield 2 m I\n",
        b"\xAC\xED\x00\x05r\x00\x01AB\x9E)\x01\x8A\xCD\x06\xE8\x02\x00\x01I\x00\x01mpxp",
    ),
    (
        // another type of it
        b"class 33 A\nconstructor 1 ()V\nfield 2 n J\n",
        b"\xAC\xED\x00\x05r\x00\x01A\xA1\xAE\x99D\x01\x1C\xF8b\x02\x00\x01J\x00\x01npxp",
    ),
    (
        // an array, whose type has a text
        b"class 33 A\nconstructor 1 ()V\nfield 2 n [I\n",
        b"\xAC\xED\x00\x05r\x00\x01A\x8A]\x95\xF5axgi\x02\x00\x01[\x00\x01nt\x00\x02[Ipxp",
    ),
    (
        // a static field is left out
        b"class 33 A\nconstructor 1 ()V\nfield 10 n I\n",
        b"\xAC\xED\x00\x05r\x00\x01Ap\xF1\x1B\x97P\xB5\x01\x9C\x02\x00\x00pxp",
    ),
    (
        // a transient field is left out
        b"class 33 A\nconstructor 1 ()V\nfield 130 n I\n",
        b"\xAC\xED\x00\x05r\x00\x01Ap\xF1\x1B\x97P\xB5\x01\x9C\x02\x00\x00pxp",
    ),
    (
        // no field
        b"class 33 A\nconstructor 1 ()V\n",
        b"\xAC\xED\x00\x05r\x00\x01Ap\xF1\x1B\x97P\xB5\x01\x9C\x02\x00\x00pxp",
    ),
    (
        // primitive fields first, by name; one text for two fields
        b"class 33 A\nfield 0 b LA;\nfield 0 a LA;\nfield 0 d I\nfield 0 c Z\n",
        b"\xAC\xED\x00\x05r\x00\x01A,\x14\xE2/*\xFE\xF4\xC7\x02\x00\x04Z\x00\x01cI\x00\x01dL\x00\x01at\x00\x03LA;L\x00\x01bq\x00~\x00\x01pxp",
    ),
    (
        // two texts
        b"class 33 A\nfield 0 b LB;\nfield 0 a LA;\nfield 0 d I\nfield 0 c Z\n",
        b"\xAC\xED\x00\x05r\x00\x01Au\xEC\xBC\xCAG\xE0\xEE+\x02\x00\x04Z\x00\x01cI\x00\x01dL\x00\x01at\x00\x03LA;L\x00\x01bt\x00\x03LB;pxp",
    ),
    (
        // a class of Java's, as its RMI writes the description
        b"class 1 D\ninterface java.io.Serializable\nfield 0 b Ljava/lang/String;\nfield 0 a Ljava/lang/String;\nfield 0 z I\nfield 0 y B\nfield 0 next LD;\nfield 0 q [Ljava/lang/Object;\nfield 0 prev LD;\nfield 8 s I\nfield 128 t Ljava/lang/String;\nfield 26 k Ljava/lang/String;\nfield 0 w [J\nfield 0 c C\nfield 0 v [J\nconstructor 1 ()V\nmethod 0 plus (I)I\n",
        b"\xAC\xED\x00\x05r\x00\x01D\xACe\x09_\xE2\x11\xD8\x8E\x02\x00\nC\x00\x01cB\x00\x01yI\x00\x01zL\x00\x01at\x00\x12Ljava/lang/String;L\x00\x01bq\x00~\x00\x01L\x00\x04nextt\x00\x03LD;L\x00\x04prevq\x00~\x00\x02[\x00\x01qt\x00\x13[Ljava/lang/Object;[\x00\x01vt\x00\x02[J[\x00\x01wq\x00~\x00\x04pxp",
    ),
    (
        // another one
        b"class 17 p.C\ninterface java.io.Serializable\ninterface java.lang.Runnable\nfield 0 b I\nfield 0 a J\nfield 0 o Ljava/lang/Object;\nfield 0 s Ljava/lang/String;\nconstructor 1 ()V\nmethod 1 run ()V\nmethod 1 f (Lp/C;Ljava/util/List;)Lp/C;\n",
        b"\xAC\xED\x00\x05r\x00\x03p.C3\xBE\xEAh\xA1dp\xA5\x02\x00\x04J\x00\x01aI\x00\x01bL\x00\x01ot\x00\x12Ljava/lang/Object;L\x00\x01st\x00\x12Ljava/lang/String;pxp",
    ),
    (
        // another one, nested
        b"class 0 p.C$In\ninterface java.io.Serializable\nfield 0 z I\nfield 4112 this$0 Lp/C;\nconstructor 0 (Lp/C;)V\n",
        b"\xAC\xED\x00\x05r\x00\x06p.C$Inn\x1B\x92h\xAD[\xDA=\x02\x00\x02I\x00\x01zL\x00\x06this$0t\x00\x05Lp/C;pxp",
    ),
];

/// Numbers of fields with these modifiers, and whether such a class is described.
const COUNTS: [(usize, &str, bool); 3] = [
    (32_767, "0", true),
    (32_768, "0", false),
    // static fields don't count
    (32_768, "8", true),
];

/// Returns whether a graph is written as this stream.
fn is_written(alloc: Global, graph: &Graph, stream: &[u8]) -> bool {
    match write_stream(alloc, graph) {
        Ok(written) => written.as_slice() == stream,
        Err(_error) => false,
    }
}

/// Returns whether a class's description is written as this stream.
fn is_described_so(alloc: Global, outline: &ClassOutline, stream: &[u8]) -> bool {
    match describe(alloc, outline) {
        Ok(graph) => is_written(alloc, &graph, stream),
        Err(_fault) => false,
    }
}

/// Returns whether a class's description, written and read back, is written as this stream.
fn is_read_back(alloc: Global, outline: &ClassOutline, stream: &[u8]) -> bool {
    match description_read_back(alloc, outline) {
        Ok(read) => match read {
            Ok(graph) => is_written(alloc, &graph, stream),
            Err(_fault) => false,
        },
        Err(_fault) => false,
    }
}

/// Returns whether a text is the outline of a class with this description, which is read back.
fn has_stream(alloc: Global, text: &[u8], stream: &[u8]) -> bool {
    match parse_outline(alloc, text) {
        Ok(outline) => {
            is_described_so(alloc, &outline, stream) && is_read_back(alloc, &outline, stream)
        }
        Err(_fault) => false,
    }
}

/// Returns the outline of a class with so many fields.
fn text_of(alloc: Global, count: usize, modifiers: &str) -> Result<ByteList, AllocError> {
    let mut text = ByteList::from_slice(alloc, b"class 1 A\n")?;
    for place in 0..count {
        let line = format!(in alloc; "field {modifiers} f{place} I\n")?;
        text.append(line.as_bytes())?;
    }
    Ok(text)
}

/// Returns whether a class with so many fields is described; None where there was no memory.
fn is_described(alloc: Global, count: usize, modifiers: &str) -> Option<bool> {
    let text = text_of(alloc, count, modifiers).ok()?;
    let outline = parse_outline(alloc, text.as_slice()).ok()?;
    match describe(alloc, &outline) {
        Ok(_graph) => Some(true),
        Err(DescribeFault::TooManyFields) => Some(false),
        Err(DescribeFault::OutOfMemory) => None,
    }
}

#[test]
fn streams_of_descriptions(rt: HostRuntime) {
    for (text, stream) in STREAMS {
        must(&rt, has_stream(rt.alloc(), text, stream), "the stream");
    }
}

#[test]
fn fields_of_a_description(rt: HostRuntime) {
    for (count, modifiers, taken) in COUNTS {
        must(
            &rt,
            is_described(rt.alloc(), count, modifiers) == Some(taken),
            "the number of fields",
        );
    }
}
