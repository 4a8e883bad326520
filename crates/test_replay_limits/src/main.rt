// SPDX-License-Identifier: Apache-2.0 OR MIT
//! Replays journals that reach a limit of their space, and prints the status, the outline and the
//! line of each.
#![tactic(auto)]

use journal::Word;
use journal::outline::put_line;
use journal::put::put_decimal;
use object_ids::{Uid, Vmid};
use rmi_cli::{Host, Words, run};
use sequence::{ByteList, Kinds, MomentList};
use std::alloc::{AllocError, Global};
use std::io;
use std::io::Write;
use std::sync::Wait;
use std::thread::Threads;
use wire_io::{MemClock, MemDialer, MemLinks, MemListener, MemSink, MemSource};

const FIRST_LINE: &[u8] = b"space 600000 300000 7 9\n";

/// The number of objects that a client names.
const OBJECTS: u32 = 512;

/// The number of clients that name them: 262,144 pairs.
const CLIENTS: i32 = 512;

/// The most clients of a space.
const MOST_CLIENTS: i32 = 65_536;

/// Two pieces, one after the other.
fn joined(alloc: Global, front: &[u8], rest: &[u8]) -> Result<ByteList, AllocError> {
    let mut bytes = ByteList::from_slice(alloc, front)?;
    bytes.append(rest)?;
    Ok(bytes)
}

/// A piece so many times.
fn repeated(alloc: Global, piece: &[u8], count: u32) -> Result<ByteList, AllocError> {
    let mut bytes = ByteList::new(alloc);
    for _ in 0..count {
        bytes.append(piece)?;
    }
    Ok(bytes)
}

/// The line of a dirty that names 65,536 times an object, which is not exported.
fn long_dirty(alloc: Global) -> Result<ByteList, AllocError> {
    let more = repeated(alloc, b",16", 65_535)?;
    let mut line = joined(alloc, b"1 0 dirty -@0/0/0 1 0 16", more.as_slice())?;
    line.append(b"\n")?;
    Ok(line)
}

/// A journal of 63 such dirties: 4,128,831 units, of 4,194,304.
fn nearly_full(alloc: Global) -> Result<ByteList, AllocError> {
    let dirty = long_dirty(alloc)?;
    let dirties = repeated(alloc, dirty.as_slice(), 63)?;
    joined(alloc, FIRST_LINE, dirties.as_slice())
}

/// The numbers of so many objects, from the first that a space exports, joined by commas.
fn first_objects(alloc: Global, count: u32) -> Result<ByteList, AllocError> {
    let mut objects = ByteList::from_slice(alloc, b"16")?;
    for k in 1..count {
        objects.push(b',')?;
        put_decimal(&mut objects, 16 + u64::from(k))?;
    }
    Ok(objects)
}

/// A client by its number, with an empty address.
fn client(alloc: Global, number: i32) -> Option<Vmid> {
    let uid = Uid {
        unique: number,
        time: 0,
        count: 0,
    };
    Vmid::new(ByteList::new(alloc), uid)
}

/// Appends the line of a strong clean of a client that never asked for a lease.
fn put_clean<'a>(
    journal: &mut ByteList,
    client: &'a Vmid,
    objects: &'a [u8],
) -> Result<(), AllocError> {
    put_line(
        journal,
        &[
            Word::Text(b"1 0 clean"),
            Word::Client(client),
            Word::Text(b"1 strong"),
            Word::Text(objects),
        ],
    )
}

/// A journal of 512 pinned objects, which 512 clients name in strong cleans: 262,144 pairs, which is the most.
fn paired(alloc: Global) -> Result<ByteList, AllocError> {
    let opens = repeated(alloc, b"0 0 open 1 pinned\n", OBJECTS)?;
    let mut journal = joined(alloc, FIRST_LINE, opens.as_slice())?;
    let objects = first_objects(alloc, OBJECTS)?;
    for number in 0..CLIENTS {
        if let Some(client) = client(alloc, number) {
            put_clean(&mut journal, &client, objects.as_slice())?;
        }
    }
    Ok(journal)
}

/// Appends the line of a dirty of a client that names no object.
fn put_dirty(journal: &mut ByteList, client: &Vmid) -> Result<(), AllocError> {
    put_line(
        journal,
        &[
            Word::Text(b"1 0 dirty"),
            Word::Client(client),
            Word::Text(b"1 600000 -"),
        ],
    )
}

/// A journal of 65,536 dirties of as many clients, which is the most.
fn leased(alloc: Global) -> Result<ByteList, AllocError> {
    let mut journal = ByteList::from_slice(alloc, FIRST_LINE)?;
    for number in 0..MOST_CLIENTS {
        if let Some(client) = client(alloc, number) {
            put_dirty(&mut journal, &client)?;
        }
    }
    Ok(journal)
}

/// Replays a journal with a further piece, and prints what is written and answered.
fn show<R: Threads + Wait + Sync, W: Write>(
    rt: &R,
    alloc: Global,
    out: &mut W,
    what: &str,
    journal: &ByteList,
    further: &[u8],
) -> io::Result<()> {
    let words: Vec<String> = vec![in alloc; "replay".to_string(alloc)?]?;
    let input = joined(alloc, journal.as_slice(), further)?;
    let mut host = Host {
        input: MemSource::new(input, Kinds::new(alloc), Kinds::new(alloc)),
        output: MemSink::new(alloc, Kinds::new(alloc)),
        errors: MemSink::new(alloc, Kinds::new(alloc)),
        ticks: MemClock::new(MomentList::new(alloc)),
        listener: MemListener::new(alloc, MemLinks::new(alloc)),
        dialer: MemDialer::new(alloc, MemLinks::new(alloc)),
        seed: [0; 4],
        served: None,
        talked: Vec::new(alloc),
    };
    let status = run(rt, alloc, &Words::from_vec(words), &mut host);
    writeln!(out, "{what}: {status}")?;
    out.write_all(host.output.bytes())?;
    out.write_all(host.errors.bytes())
}

/// The last units of a history: they are enough for a tick, and not for one more dirty.
fn history<R: Threads + Wait + Sync, W: Write>(
    rt: &R,
    alloc: Global,
    out: &mut W,
) -> io::Result<()> {
    let journal = nearly_full(alloc)?;
    let dirty = long_dirty(alloc)?;
    show(rt, alloc, out, "History 4128832", &journal, b"1 0 tick\n")?;
    show(
        rt,
        alloc,
        out,
        "History 4194368",
        &journal,
        dirty.as_slice(),
    )
}

/// A pair that is remembered is taken, so that the line after it is told as bad; one more pair is refused.
fn pairs<R: Threads + Wait + Sync, W: Write>(rt: &R, alloc: Global, out: &mut W) -> io::Result<()> {
    let journal = paired(alloc)?;
    let again = b"1 0 clean -@0/0/0 2 strong 16\ntack\n";
    let more = b"1 0 clean -@512/0/0 1 strong 16\n";
    show(rt, alloc, out, "Pairs 262144", &journal, again)?;
    show(rt, alloc, out, "Pairs 262145", &journal, more)
}

/// A client that has time left is taken, so that the line after it is told as bad; one more client is refused.
fn clients<R: Threads + Wait + Sync, W: Write>(
    rt: &R,
    alloc: Global,
    out: &mut W,
) -> io::Result<()> {
    let journal = leased(alloc)?;
    let again = b"1 0 dirty -@0/0/0 2 600000 -\ntack\n";
    let more = b"1 0 dirty -@65536/0/0 1 600000 -\n";
    show(rt, alloc, out, "Clients 65536", &journal, again)?;
    show(rt, alloc, out, "Clients 65537", &journal, more)
}

fn main(rt: HostRuntime) -> io::Result<()> {
    let mut out = rt.stdout();
    history(&rt, rt.alloc(), &mut out)?;
    pairs(&rt, rt.alloc(), &mut out)?;
    clients(&rt, rt.alloc(), &mut out)
}
