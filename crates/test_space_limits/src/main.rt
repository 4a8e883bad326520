// SPDX-License-Identifier: Apache-2.0 OR MIT
//! Drives spaces by turns to their limits, and prints what they answer there. Each word of the command line names what is
//! filled: `history`, `pairs`, `returns`, `twice`, `clients`, `exports`, `names`, by `lookups` the references that await, by `many_pairs` the
//! pairs, by calls that each name many objects, or by `many_calls` the running calls, or by `many_clients` the clients, in no order. By
//! `many_turns` the objects are filled, and many turns made then. By `erased_turns` many turns are made of a space that doesn't keep its events,
//! and by `erased_calls` its running calls are filled. By `given_up` running calls are given up.
#![tactic(auto)]

mod erased;
mod given_up;
mod many_calls;
mod many_clients;
mod many_pairs;
mod many_turns;
mod named;

use crate::erased::{erased_calls, erased_turns};
use crate::given_up::given_up;
use crate::many_calls::many_calls;
use crate::many_clients::many_clients;
use crate::many_pairs::many_pairs;
use crate::many_turns::many_turns;
use crate::named::{lookups, names, nearly_look_up, nearly_name};
use history::{Ask, Refused, SpaceConfig};
use object_ids::{ObjId, ObjIds, Uid, Vmid};
use sequence::{ByteList, Kinds};
use space::{Space, outline, standing};
use std::alloc::{AllocError, Global};
use std::io::Write;
use std::{env, io};

/// The space without events, which keeps its events or does not.
fn fresh(alloc: Global, stored: bool) -> Space {
    let config = SpaceConfig {
        lease_ms: 600_000,
        ack_ms: 300_000,
        uid: numbered(7),
        stored,
    };
    Space::fresh(alloc, &config)
}

/// The k-th object, from 0, that the space exports.
fn object(k: u32) -> ObjId {
    ObjId {
        number: 16 + i64::from(k),
        space: numbered(7),
    }
}

/// So many objects, from the first on.
fn first_objects(alloc: Global, count: u32) -> Result<ObjIds, AllocError> {
    let mut ids = ObjIds::new(alloc);
    for k in 0..count {
        ids.push(object(k))?;
    }
    Ok(ids)
}

/// An identifier of the space, of a machine or of a return.
fn numbered(unique: i32) -> Uid {
    Uid {
        unique,
        time: 0,
        count: 0,
    }
}

/// The outline of a space, without its withdrawals where it doesn't keep its events.
fn outlined(alloc: Global, space: &Space) -> Result<ByteList, AllocError> {
    if space.is_stored() {
        outline(alloc, space)
    } else {
        standing(alloc, space)
    }
}

/// Makes a turn of a connection at the moment 0.
fn turn(space: &mut Space, by: u32, ask: Ask) -> Result<(), Refused> {
    match space.turn(by, 0, ask) {
        Ok(_turn) => Ok(()),
        Err(refused) => Err(refused),
    }
}

/// Opens a pinned object.
fn open(space: &mut Space) -> Result<(), Refused> {
    let pinned = true;
    turn(space, 0, Ask::Open { kind: 1, pinned })
}

/// Begins a call of the first object.
fn begin(space: &mut Space) -> Result<(), Refused> {
    let object = object(0);
    turn(space, 1, Ask::Begin { object })
}

/// Gives up a call of the first object.
fn abandon(space: &mut Space) -> Result<(), Refused> {
    let object = object(0);
    turn(space, 1, Ask::Abandon { object })
}

/// The request that returns a call of the first object, with so many new objects, and with the first object so many
/// times.
fn finish_ask(alloc: Global, made: u32, listed: u32, unique: i32) -> Result<Ask, AllocError> {
    let made = vec![in alloc; 1; made as usize]?;
    let listed = vec![in alloc; object(0); listed as usize]?;
    Ok(Ask::Finish {
        object: object(0),
        made: Kinds::from_vec(made),
        listed: ObjIds::from_vec(listed),
        uid: numbered(unique),
    })
}

/// Returns a call of the first object, with so many new objects, and with the first object so many times.
fn finish(
    alloc: Global,
    space: &mut Space,
    made: u32,
    listed: u32,
    unique: i32,
) -> Result<(), Refused> {
    match finish_ask(alloc, made, listed, unique) {
        Ok(ask) => turn(space, 1, ask),
        Err(_refused) => Err(Refused::OutOfMemory),
    }
}

/// The request that returns a call of the first object, with so many objects, from the first on, and with the first
/// once more.
fn finish_all_ask(alloc: Global, count: u32, unique: i32) -> Result<Ask, AllocError> {
    let mut listed = first_objects(alloc, count)?;
    listed.push(object(0))?;
    Ok(Ask::Finish {
        object: object(0),
        made: Kinds::new(alloc),
        listed,
        uid: numbered(unique),
    })
}

/// Returns a call of the first object, with so many objects, from the first on, and with the first once more.
fn finish_all(alloc: Global, space: &mut Space, count: u32, unique: i32) -> Result<(), Refused> {
    match finish_all_ask(alloc, count, unique) {
        Ok(ask) => turn(space, 1, ask),
        Err(_refused) => Err(Refused::OutOfMemory),
    }
}

/// A dirty call of a client that names so many objects, from the first on.
fn dirty_ask(alloc: Global, client: i32, count: u32) -> Result<Ask, AllocError> {
    let objects = first_objects(alloc, count)?;
    let client = Vmid::new(ByteList::new(alloc), numbered(client)).unwrap();
    Ok(Ask::Dirty {
        client,
        number: 1,
        asked: 600_000,
        objects,
    })
}

/// Makes a dirty call of a client that names so many objects, from the first on.
fn dirty(alloc: Global, space: &mut Space, client: i32, count: u32) -> Result<(), Refused> {
    match dirty_ask(alloc, client, count) {
        Ok(ask) => turn(space, 2, ask),
        Err(_refused) => Err(Refused::OutOfMemory),
    }
}

/// Notes that time has passed.
fn tick(space: &mut Space) -> Result<(), Refused> {
    turn(space, 3, Ask::Tick)
}

/// Opens a pinned object in a space without events, and begins so many calls of it.
fn begin_calls(space: &mut Space, calls: u32) -> Result<(), Refused> {
    open(space)?;
    for _ in 0..calls {
        begin(space)?;
    }
    Ok(())
}

/// Leaves one running call and 4,194,302 units in a space without events, so that one is left beside the call's.
fn nearly_fill(alloc: Global, space: &mut Space) -> Result<(), Refused> {
    begin_calls(space, 1)?;
    for _ in 0..63 {
        dirty(alloc, space, 0, 65_536)?;
    }
    dirty(alloc, space, 0, 65_468)
}

/// Opens 513 pinned objects in a space without events, of which 512 clients hold 512, but for the last of the last: 262,143 pairs.
fn nearly_pair(alloc: Global, space: &mut Space) -> Result<(), Refused> {
    for _ in 0..513 {
        open(space)?;
    }
    for client in 0..511 {
        dirty(alloc, space, client, 512)?;
    }
    dirty(alloc, space, 511, 511)
}

/// Leaves 65,535 clients that have time left in a space without events.
fn nearly_lease(alloc: Global, space: &mut Space) -> Result<(), Refused> {
    for client in 0..65_535 {
        dirty(alloc, space, client, 0)?;
    }
    Ok(())
}

/// Leaves one object in a space without events, of which five calls run and to which one reference awaits, as listed in the return 0.
fn await_once(alloc: Global, space: &mut Space) -> Result<(), Refused> {
    begin_calls(space, 6)?;
    finish(alloc, space, 0, 1, 0)
}

/// Prints what was answered.
fn show<W: Write>(out: &mut W, what: &str, answer: Result<(), Refused>) -> io::Result<()> {
    match answer {
        Ok(()) => writeln!(out, "{what} taken"),
        Err(refused) => writeln!(out, "{what} {refused:?}"),
    }
}

/// The last units of a history, of which one is kept for the running call.
fn history<W: Write>(alloc: Global, out: &mut W, space: &mut Space) -> io::Result<()> {
    show(out, "History 4194304", tick(space))?;
    show(out, "History 4194305", tick(space))?;
    show(out, "History, a return", finish(alloc, space, 0, 1, 0))?;
    show(out, "History, an abandon", abandon(space))?;
    show(out, "History 4194305", tick(space))
}

/// The last pair, one more of an old and of a new client, and pairs that are remembered.
fn pairs<W: Write>(alloc: Global, out: &mut W, space: &mut Space) -> io::Result<()> {
    show(out, "Pairs 262144", dirty(alloc, space, 511, 512))?;
    show(out, "Pairs 262145", dirty(alloc, space, 0, 513))?;
    show(out, "Pairs 262145", dirty(alloc, space, 512, 1))?;
    show(out, "Pairs 262144", dirty(alloc, space, 0, 512))?;
    show(out, "Pairs 262144", dirty(alloc, space, 512, 0))
}

/// Returns that would pass one limit or two, Exports the first; and many references that are one.
fn returns<W: Write>(alloc: Global, out: &mut W, space: &mut Space) -> io::Result<()> {
    let rows = [
        ("Exports 65537 Awaiting 65537", 65_536, 0, 1),
        ("Exports 65536 Awaiting 65537", 65_535, 1, 1),
        ("Exports 1 Awaiting 2", 0, 65_537, 1),
        ("Exports 65535 Awaiting 65537", 65_534, 1, 2),
    ];
    for (what, made, listed, unique) in rows {
        show(out, what, finish(alloc, space, made, listed, unique))?;
    }
    Ok(())
}

/// A return that lists one of its objects twice and fills the references that await, where counting it twice would pass the limit; and
/// one reference more.
fn twice<W: Write>(alloc: Global, out: &mut W, space: &mut Space) -> io::Result<()> {
    show(out, "Awaiting 32768", finish(alloc, space, 32_767, 0, 0))?;
    show(out, "Awaiting 65536", finish_all(alloc, space, 32_768, 1))?;
    show(out, "Awaiting 65537", finish(alloc, space, 0, 1, 2))
}

/// The last client, one more, one that has time left, and a call that brings no client.
fn clients<W: Write>(alloc: Global, out: &mut W, space: &mut Space) -> io::Result<()> {
    show(out, "Clients 65536", dirty(alloc, space, 65_535, 0))?;
    show(out, "Clients 65537", dirty(alloc, space, 65_536, 0))?;
    show(out, "Clients 65536", dirty(alloc, space, 0, 0))
}

/// A return that fills two tables, and what no longer goes into them.
fn exports<W: Write>(alloc: Global, out: &mut W, space: &mut Space) -> io::Result<()> {
    let rows = [
        ("Exports 65536 Awaiting 65536", 65_535, 1, 0),
        ("Exports 65537 Awaiting 65537", 1, 0, 1),
        ("Exports 65536 Awaiting 65537", 0, 1, 1),
        ("Exports 65536 Awaiting 65536", 0, 1, 0),
    ];
    for (what, made, listed, unique) in rows {
        show(out, what, finish(alloc, space, made, listed, unique))?;
    }
    show(out, "Exports 65537", open(space))
}

/// Fills what a word names in a space without events.
fn fill(alloc: Global, space: &mut Space, word: &str) -> Result<(), Refused> {
    match word {
        "history" => nearly_fill(alloc, space),
        "pairs" => nearly_pair(alloc, space),
        "clients" => nearly_lease(alloc, space),
        "names" => nearly_name(alloc, space),
        "lookups" => nearly_look_up(alloc, space),
        _ => await_once(alloc, space),
    }
}

/// Fills what a word names in a space without events, and prints what is answered then.
fn show_limits<W: Write>(
    alloc: Global,
    out: &mut W,
    space: &mut Space,
    word: &str,
) -> io::Result<()> {
    if fill(alloc, space, word).is_err() {
        return writeln!(out, "{word} is not filled");
    }
    match word {
        "history" => history(alloc, out, space),
        "pairs" => pairs(alloc, out, space),
        "returns" => returns(alloc, out, space),
        "twice" => twice(alloc, out, space),
        "clients" => clients(alloc, out, space),
        "exports" => exports(alloc, out, space),
        "names" => names(alloc, out, space),
        "lookups" => lookups(alloc, out, space),
        _ => writeln!(out, "{word} is no word"),
    }
}

/// Makes a space, fills in it what a word names, and prints what is answered then.
fn try_word<W: Write>(alloc: Global, out: &mut W, word: &str) -> io::Result<()> {
    if word == "many_pairs" {
        return many_pairs(alloc, out);
    }
    if word == "many_calls" {
        return many_calls(alloc, out);
    }
    if word == "many_clients" {
        return many_clients(alloc, out);
    }
    if word == "erased_turns" {
        return erased_turns(alloc, out);
    }
    if word == "erased_calls" {
        return erased_calls(alloc, out);
    }
    if word == "given_up" {
        return given_up(alloc, out);
    }
    let mut space = fresh(alloc, true);
    if word == "many_turns" {
        return many_turns(alloc, out, &mut space);
    }
    show_limits(alloc, out, &mut space, word)
}

fn main(rt: HostRuntime) -> io::Result<()> {
    let alloc = rt.alloc();
    let mut out = rt.stdout();
    let words: Vec<String> = env::args(&rt)?.skip(1).collect(alloc)?;
    for word in &words {
        try_word(alloc, &mut out, word.as_str())?;
    }
    Ok(())
}
