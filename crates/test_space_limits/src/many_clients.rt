//! Many clients: as many as can be come in no order, half of them come again, and the leases of the others end.
ghost use Rattle.std.specs.Prelude.{◌<◌};
ghost use Rattle.history.specs.declared.limits.TheConstants.{END_OF_TIME};

use crate::outlined;
use history::{Ask, Refused};
use object_ids::{ObjIds, Vmid};
use sequence::ByteList;
use space::Space;
use std::alloc::Global;
use std::cmp::Ordering;
use std::io::Write;
use std::{io, str};
use test_support::spaces::{CONFIG, FIRST, SPACE};

/// The number of clients.
const CLIENTS: u64 = 65_536;

/// The number of the client that comes as the k-th: each number below 65,536 once, for k below it.
fn scattered(k: u64) -> [u8; 2] {
    let low = (k % CLIENTS) as u16;
    low.wrapping_mul(40_503).to_be_bytes()
}

/// A dirty call of a client that names the object.
fn dirty(alloc: Global, client: [u8; 2], number: i64) -> Result<Ask, Refused> {
    let mut addr = ByteList::new(alloc);
    let mut objects = ObjIds::new(alloc);
    if addr.append(&client).is_err() || objects.push(FIRST).is_err() {
        return Err(Refused::OutOfMemory);
    }
    match Vmid::new(addr, SPACE) {
        Some(client) => Ok(Ask::Dirty {
            client,
            number,
            asked: 600_000,
            objects,
        }),
        None => Err(Refused::OutOfMemory),
    }
}

/// Makes a turn, whose answer counts for nothing unless it is refused.
fn take(space: &mut Space, moment: u64, ask: Ask) -> Result<(), Refused>
    requires { moment < END_OF_TIME }
{
    let _turn = space.turn(1, moment, ask)?;
    Ok(())
}

/// Has so many clients call at a moment, in no order.
fn come(
    alloc: Global,
    space: &mut Space,
    clients: u64,
    moment: u64,
    number: i64,
) -> Result<(), Refused>
    requires { moment < END_OF_TIME }
{
    for k in 0..clients {
        take(space, moment, dirty(alloc, scattered(k), number)?)?;
    }
    Ok(())
}

/// Has the clients come, and one half of them again before the leases of the others end.
fn fill(alloc: Global, space: &mut Space) -> Result<(), Refused> {
    let pinned = true;
    take(space, 0, Ask::Open { kind: 2, pinned })?;
    come(alloc, space, CLIENTS, 0, 1)?;
    come(alloc, space, CLIENTS / 2, 1, 2)?;
    take(space, 600_000, Ask::Tick)
}

/// Returns whether a line comes behind another in the order of bytes.
fn is_behind(line: &[u8], other: &[u8]) -> bool {
    match other.cmp(line) {
        Ordering::Less => true,
        Ordering::Equal | Ordering::Greater => false,
    }
}

/// Prints an outline's lines that are no leases, how many are leases, and how many of these are not behind the lease before.
fn show<W: Write>(out: &mut W, text: &str) -> io::Result<()> {
    let mut leases: u64 = 0;
    let mut late: u64 = 0;
    let mut last: &[u8] = b"";
    for line in text.split('\n') {
        if line.starts_with("lease ") {
            leases = leases.saturating_add(1);
            if !is_behind(line.as_bytes(), last) {
                late = late.saturating_add(1);
            }
            last = line.as_bytes();
        } else if !line.is_empty() {
            writeln!(out, "{line}")?;
        }
    }
    writeln!(out, "leases: {leases}, out of order: {late}")
}

/// Prints what a space is.
fn tell<W: Write>(alloc: Global, out: &mut W, space: &Space) -> io::Result<()> {
    let text = outlined(alloc, space)?;
    match str::from_utf8(text.as_slice()) {
        Ok(text) => show(out, text),
        Err(_) => writeln!(out, "no text"),
    }
}

/// Fills a space, and prints what it is then.
pub(crate) fn many_clients<W: Write>(alloc: Global, out: &mut W) -> io::Result<()> {
    let mut space = Space::fresh(alloc, &CONFIG);
    match fill(alloc, &mut space) {
        Ok(()) => tell(alloc, out, &space),
        Err(refused) => writeln!(out, "many clients {refused:?}"),
    }
}
