//! The list of texts, served to a recorded client in memory; what it got is printed.
ghost use Rattle.std.specs.List.{AllByRecursion};
ghost use Rattle.wire_io.specs.Links.{IsNew};

use crate::texts::{TEXTS, Texts, kinds};
use mod_utf::utf::units_of_ascii;
use rmi_server::{Named, Site, serve};
use sequence::{ByteList, Kinds, MomentList, NameList};
use std::alloc::{AllocError, Global};
use std::io::Write;
use std::sync::Wait;
use std::thread::Threads;
use wire_io::{Link, MemClock, MemLinks, MemListener, MemSink, MemSource};

/// The opening of a connection: the magic number and the version, the stream protocol, and the client's own host and port, which are empty.
const OPENING: &[u8] = b"JRMI\x00\x02K\x00\x00\x00\x00\x00\x00";

/// A call's first byte, its stream's magic number and version, and a block of 34 bytes: the object that is called, the operation and the hash
/// of its method.
const CALL: &[u8] = b"P\xAC\xED\x00\x05w\x22";

/// A call whose block has 4 bytes more, for a number of the type int.
const CALL_WITH_INT: &[u8] = b"P\xAC\xED\x00\x05w\x26";

/// The object 16 of the space 7/9/0, the list, and the operation -1, which leaves the method to its hash.
const LIST: &[u8] =
    b"\x00\x00\x00\x00\x00\x00\x00\x10\x00\x00\x00\x07\x00\x00\x00\x00\x00\x00\x00\x09\x00\x00\xFF\xFF\xFF\xFF";

/// The hash of `add(Ljava/lang/String;)I`.
const ADD: &[u8] = b"\xA8\x6D\x56\x9D\x35\x8B\xB4\xC5";

/// The hash of `get(I)Ljava/lang/String;`.
const GET: &[u8] = b"\x8E\x16\x24\xA2\xAE\xA7\xCA\x12";

/// The hash of `all()[Ljava/lang/String;`.
const ALL: &[u8] = b"\xEA\x5C\x9F\xC0\x5F\xF5\xA9\xE2";

/// A client that adds a text and null, gets the texts of the places 0 and 1, and all.
const PIECES: [&[u8]; 20] = [
    OPENING,
    CALL,
    LIST,
    ADD,
    b"t\x00\x03one",
    CALL,
    LIST,
    ADD,
    b"p",
    CALL_WITH_INT,
    LIST,
    GET,
    b"\x00\x00\x00\x00",
    CALL_WITH_INT,
    LIST,
    GET,
    b"\x00\x00\x00\x01",
    CALL,
    LIST,
    ALL,
];

/// The bytes of all pieces. There may be no memory for them.
fn joined(alloc: Global) -> Result<ByteList, AllocError> {
    let mut bytes = ByteList::new(alloc);
    for piece in &PIECES {
        bytes.append(piece)?;
    }
    Ok(bytes)
}

/// Adds the link of the client, over a clock that stands at 0. There may be no memory for it.
fn add_client(alloc: Global, links: &mut MemLinks) -> Result<(), AllocError>
    ensures { AllByRecursion IsNew links.old → AllByRecursion IsNew links.new }
{
    let bytes = joined(alloc)?;
    let host = units_of_ascii(alloc, b"127.0.0.1")?;
    let link = Link {
        source: MemSource::new(bytes, Kinds::new(alloc), Kinds::new(alloc)),
        sink: MemSink::new(alloc, Kinds::new(alloc)),
        clock: MemClock::new(MomentList::new(alloc)),
        host,
        port: 1234,
    };
    links.push(link)
}

/// A listener with the client. There may be no memory for it.
fn listener(alloc: Global) -> Result<MemListener, AllocError> {
    let mut links = MemLinks::new(alloc);
    add_client(alloc, &mut links)?;
    Ok(MemListener::new(alloc, links))
}

/// Serves the client, and prints how its connection ended and the bytes that it got.
pub fn serve_recorded<R: Threads + Wait + Sync>(
    rt: &R,
    alloc: Global,
    out: &mut impl Write,
) -> anyhow::Result<()> {
    let site = Site {
        kinds: kinds(alloc)?,
        names: &[Named::new("texts", TEXTS)],
        host: "127.0.0.1",
        port: 1099,
        links: 1,
        stored: false,
        seed: [5, 6, 7, 9],
    };
    let texts = Texts {
        texts: NameList::new(alloc),
    };
    let report = serve(rt, alloc, &mut listener(alloc)?, texts, &site)?;
    for link in report.links.as_slice() {
        writeln!(out, "{:?} calls {}", link.end, link.hand.calls)?;
        for byte in link.sink.bytes() {
            write!(out, "{byte:02x}")?;
        }
        writeln!(out)?;
    }
    Ok(())
}
