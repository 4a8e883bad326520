//! A Java server that was recorded: what it sent on its registry's link and on the greeter's, message by message.
ghost use Rattle.std.specs.Prelude.{◌≤◌, length, IfOk, OnOk};
ghost use Rattle.std.specs.List.{AllByRecursion};
ghost use Rattle.wire_io.specs.Links.{IsNew};

use anyhow::{Result, bail};
use mod_utf::utf::{encoded_len, units_of_ascii};
use sequence::{ByteList, Kinds, MomentList};
use std::alloc::{AllocError, Global};
use wire_io::{Link, MAX_HOST_BYTES, MemClock, MemDialer, MemLink, MemLinks, MemSink, MemSource};

/// The acknowledgement of a connection: the client's host and port, as the server sees them.
const ACK: &[u8] = b"N\x00\x09127.0.0.1\x00\x00\xA7\x96";

/// A Return that is no exception, up to the last byte of its identifier: its code, its stream's magic number and version, and a block.
const RETURN: &[u8] = b"Q\xAC\xED\x00\x05w\x0F\x01Y\xD0\x9C\x93\x00\x00\x01\xA2*\xD5W\x81\x80";

/// A reference with the interface `example.Greeter`, up to its endpoint: a proxy, and its handler.
const PROXY: &[u8] =
    b"s}\x00\x00\x00\x01\x00\x0Fexample.Greeterpxr\x00\x17java.lang.reflect.Proxy\xE1'\xDA \xCC\x10C\xCB\x02\x00\x01L\x00\x01ht\x00%Ljava/lang/reflect/InvocationHandler;pxp";

const HANDLER: &[u8] =
    b"sr\x00-java.rmi.server.RemoteObjectInvocationHandler\x00\x00\x00\x00\x00\x00\x00\x02\x02\x00\x00pxr\x00\x1Cjava.rmi.server.RemoteObject\xD3a\xB4\x91\x0Ca3\x1E\x03\x00\x00pxp";

/// The endpoint: the port 1100 of a host, the object 0 of a space, and that it was made for a result.
const ENDPOINT: &[u8] =
    b"w2\x00\x0AUnicastRef\x00\x09127.0.0.1\x00\x00\x04L\x00\x00\x00\x00\x00\x00\x00\x00Y\xD0\x9C\x93\x00\x00\x01\xA2*\xD5W\x81\x80\x00\x01x";

/// The endpoint of a friend: the object 1 of the same space.
const FRIEND: &[u8] =
    b"w2\x00\x0AUnicastRef\x00\x09127.0.0.1\x00\x00\x04L\x00\x00\x00\x00\x00\x00\x00\x01Y\xD0\x9C\x93\x00\x00\x01\xA2*\xD5W\x81\x80\x01\x01x";

/// A lease of 600,000 milliseconds, and the client's identifier in it.
const LEASE: &[u8] =
    b"sr\x00\x12java.rmi.dgc.Lease\xB0\xB5\xE2f\x0CJ\xDC4\x02\x00\x02J\x00\x05valueL\x00\x04vmidt\x00\x13Ljava/rmi/dgc/VMID;pxp\x00\x00\x00\x00\x00\x09'\xC0";

const CLIENT: &[u8] =
    b"sr\x00\x11java.rmi.dgc.VMID\xF8\x86[\xAF\xA4\xA5m\xB6\x02\x00\x02[\x00\x04addrt\x00\x02[BL\x00\x03uidt\x00\x15Ljava/rmi/server/UID;pxpur\x00\x02[B\xAC\xF3\x17\xF8\x06\x08T\xE0\x02\x00\x00pxp\x00\x00\x00\x08\x01\x02\x03\x04\x05\x06\x07\x08";

const CLIENT_UID: &[u8] =
    b"sr\x00\x13java.rmi.server.UID\x0F\x12p\x0D\xBF6O\x12\x02\x00\x03S\x00\x05countJ\x00\x04timeI\x00\x06uniquepxp\x00\x05\x00\x00\x00\x00\x00\x00\x00\x04\x00\x00\x00\x03";

/// A Return whose result is a number of the type int, up to the last byte of its identifier.
const RETURN_WITH_INT: &[u8] =
    b"Q\xAC\xED\x00\x05w\x13\x01Y\xD0\x9C\x93\x00\x00\x01\xA2*\xD5W\x81\x80";

/// The bytes that came on the registry's link: the answer to a lookup.
const REGISTRY: [&[u8]; 6] = [ACK, RETURN, b"\x01", PROXY, HANDLER, ENDPOINT];

/// The bytes that came on the greeter's link: the answers to a dirty call, two greetings, their count, a friend, a further dirty call, two
/// greetings, their count, and a clean call.
const GREETER: [&[u8]; 34] = [
    ACK,
    RETURN,
    b"\x02",
    LEASE,
    CLIENT,
    CLIENT_UID,
    RETURN,
    b"\x03",
    b"t\x00\x0BHello, Ada!",
    RETURN,
    b"\x04",
    b"t\x00\x0BHello, Bob!",
    RETURN_WITH_INT,
    b"\x05\x00\x00\x00\x02",
    RETURN,
    b"\x06",
    PROXY,
    HANDLER,
    FRIEND,
    RETURN,
    b"\x07",
    LEASE,
    CLIENT,
    CLIENT_UID,
    RETURN,
    b"\x08",
    b"t\x00\x0BHello, Ada!",
    RETURN,
    b"\x09",
    b"t\x00\x0BHello, Bob!",
    RETURN_WITH_INT,
    b"\x0A\x00\x00\x00\x04",
    RETURN,
    b"\x0B",
];

/// The bytes that came on the friend's link: the answers to a dirty call, two greetings, their count, and a clean call.
const FRIENDS: [&[u8]; 16] = [
    ACK,
    RETURN,
    b"\x02",
    LEASE,
    CLIENT,
    CLIENT_UID,
    RETURN,
    b"\x03",
    b"t\x00\x08Hi, Ada!",
    RETURN,
    b"\x04",
    b"t\x00\x08Hi, Bob!",
    RETURN_WITH_INT,
    b"\x05\x00\x00\x00\x02",
    RETURN,
    b"\x06",
];

/// The moments at which the clock of the greeter's link is read: as the first lease call is sent and answered; before each call; as the lease is
/// renewed and that is answered; before each call; and as the clean call is sent and answered.
const MOMENTS: [u64; 13] = [
    1_000, 1_010, 1_100, 1_200, 1_300, 1_400, 301_000, 301_010, 301_100, 301_200, 301_300, 302_000,
    302_010,
];

/// The bytes of all pieces.
fn joined(alloc: Global, pieces: &[&[u8]]) -> Result<ByteList, AllocError> {
    let mut bytes = ByteList::new(alloc);
    for piece in pieces {
        bytes.append(piece)?;
    }
    Ok(bytes)
}

/// A link on which these pieces come, with these moments of its clock.
fn link_of(alloc: Global, pieces: &[&[u8]], moments: &[u64]) -> Result<MemLink>
    ensures { IfOk result IsNew }
{
    let bytes = joined(alloc, pieces)?;
    let moments = MomentList::from_slice(alloc, moments)?;
    let host = units_of_ascii(alloc, b"127.0.0.1")?;
    if encoded_len(&host) > MAX_HOST_BYTES {
        bail!("the host is too long");
    }
    Ok(Link {
        source: MemSource::new(bytes, Kinds::new(alloc), Kinds::new(alloc)),
        sink: MemSink::new(alloc, Kinds::new(alloc)),
        clock: MemClock::new(moments),
        host,
        port: 0,
    })
}

/// Appends a link.
fn put_link(links: &mut MemLinks, link: MemLink) -> Result<(), AllocError>
    requires { IsNew link }
    ensures { AllByRecursion IsNew links.old → OnOk result (AllByRecursion IsNew links.new) }
{
    links.push(link)
}

/// The dialer of the two links.
pub fn recorded_server(alloc: Global) -> Result<MemDialer> {
    let mut links = MemLinks::new(alloc);
    put_link(&mut links, link_of(alloc, &REGISTRY, &[])?)?;
    put_link(&mut links, link_of(alloc, &GREETER, &MOMENTS)?)?;
    put_link(&mut links, link_of(alloc, &FRIENDS, &[])?)?;
    Ok(MemDialer::new(alloc, links))
}
