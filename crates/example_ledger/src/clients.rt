//! Clients that were recorded: what each of them sends, piece by piece.
ghost use Rattle.std.specs.List.{AllByRecursion};
ghost use Rattle.wire_io.specs.Links.{IsNew};

use mod_utf::utf::units_of_ascii;
use sequence::{ByteList, Kinds, MomentList};
use std::alloc::{AllocError, Global};
use wire_io::{Link, MemClock, MemLinks, MemListener, MemSink, MemSource};

/// The opening of a connection: the magic number and the version, the stream protocol, and the client's own host and port, which are empty.
const OPENING: &[u8] = b"JRMI\x00\x02K\x00\x00\x00\x00\x00\x00";

/// A call's first byte, its stream's magic number and version, and a block of 34 bytes: the object that is called, the operation and the hash
/// of its method.
const CALL: &[u8] = b"P\xAC\xED\x00\x05w\x22";

/// A call whose block has 8 bytes more, for a number of the type long.
const CALL_WITH_LONG: &[u8] = b"P\xAC\xED\x00\x05w\x2A";

/// The registry is the object 0 of no space.
const REGISTRY: &[u8] = &[0; 22];

/// The registry's operation 2, which is `lookup`, and the hash of its interface.
const LOOKUP: &[u8] = b"\x00\x00\x00\x02\x44\x15\x4D\xC9\xD4\xE6\x3B\xDF";

/// The object 16 of the space 7/9/0, the ledger.
const LEDGER: &[u8] =
    b"\x00\x00\x00\x00\x00\x00\x00\x10\x00\x00\x00\x07\x00\x00\x00\x00\x00\x00\x00\x09\x00\x00";

/// The object 17 of the space, the first account.
const ACCOUNT: &[u8] =
    b"\x00\x00\x00\x00\x00\x00\x00\x11\x00\x00\x00\x07\x00\x00\x00\x00\x00\x00\x00\x09\x00\x00";

/// The operation -1, which leaves the method to its hash, and the hash of `open()Lexample/Account;`.
const OPEN: &[u8] = b"\xFF\xFF\xFF\xFF\x4D\x28\xB5\xB0\xFD\xC5\xA1\x9C";

/// The same with the hash of `total()J`.
const TOTAL: &[u8] = b"\xFF\xFF\xFF\xFF\x33\xBE\x40\x57\x84\x5F\x46\x6B";

/// The same with the hash of `add(J)J`.
const ADD: &[u8] = b"\xFF\xFF\xFF\xFF\xDE\x3E\xC5\x1A\x30\x25\xA1\x0E";

/// The acknowledgement of the second result of the first connection, which refers to the first account.
const ACKNOWLEDGED: &[u8] = b"T\x00\x00\x00\x06\x00\x00\x00\x00\x00\x00\x00\x06\x80\x01";

/// A client that looks the ledger up, opens an account, adds 5 and the greatest number, gets the total, and lets the account go. The total is 0
/// then.
pub const ADDING: [&[u8]; 23] = [
    OPENING,
    CALL,
    REGISTRY,
    LOOKUP,
    b"t\x00\x06ledger",
    CALL,
    LEDGER,
    OPEN,
    CALL_WITH_LONG,
    ACCOUNT,
    ADD,
    b"\x00\x00\x00\x00\x00\x00\x00\x05",
    CALL_WITH_LONG,
    ACCOUNT,
    ADD,
    b"\x7F\xFF\xFF\xFF\xFF\xFF\xFF\xFF",
    CALL,
    LEDGER,
    TOTAL,
    ACKNOWLEDGED,
    CALL,
    LEDGER,
    TOTAL,
];

/// A client that looks up a name that nobody bound.
pub const ASKING: [&[u8]; 5] = [OPENING, CALL, REGISTRY, LOOKUP, b"t\x00\x06closed"];

/// The bytes of all pieces. There may be no memory for them.
fn joined(alloc: Global, pieces: &[&[u8]]) -> Result<ByteList, AllocError> {
    let mut bytes = ByteList::new(alloc);
    for piece in pieces {
        bytes.append(piece)?;
    }
    Ok(bytes)
}

/// Adds the link of a client that sends these pieces, over a clock that stands at 0. There may be no memory for it.
fn add_client(
    alloc: Global,
    links: &mut MemLinks,
    pieces: &[&[u8]],
    port: i32,
) -> Result<(), AllocError>
    ensures { AllByRecursion IsNew links.old → AllByRecursion IsNew links.new }
{
    let bytes = joined(alloc, pieces)?;
    let host = units_of_ascii(alloc, b"127.0.0.1")?;
    let link = Link {
        source: MemSource::new(bytes, Kinds::new(alloc), Kinds::new(alloc)),
        sink: MemSink::new(alloc, Kinds::new(alloc)),
        clock: MemClock::new(MomentList::new(alloc)),
        host,
        port,
    };
    links.push(link)
}

/// A listener with both clients. There may be no memory for it.
pub fn listener(alloc: Global) -> Result<MemListener, AllocError> {
    let mut links = MemLinks::new(alloc);
    add_client(alloc, &mut links, &ADDING, 1234)?;
    add_client(alloc, &mut links, &ASKING, 1235)?;
    Ok(MemListener::new(alloc, links))
}
