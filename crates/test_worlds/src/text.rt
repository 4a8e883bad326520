//! The lines of a script, and what is printed of a world by its definitions.
use crate::plain::Plain;
use lease_world::Step;
use std::alloc::{AllocError, Global};
use std::fmt::Write;

/// Appends the line of a step.
pub(crate) fn put_step(text: &mut String, step: Step) -> Result<(), AllocError> {
    match step {
        Step::At { moment } => writeln!(text, "at {moment}"),
        Step::Make => writeln!(text, "make"),
        Step::Ack { make } => writeln!(text, "ack {make}"),
        Step::Register { client, number } => writeln!(text, "register {client} {number}"),
        Step::Release { client, number } => writeln!(text, "drop {client} {number}"),
        Step::Due { client } => writeln!(text, "due {client}"),
        Step::Deliver { call } => writeln!(text, "deliver {call}"),
        Step::Answer { call } => writeln!(text, "answer {call}"),
        Step::Fail { call } => writeln!(text, "fail {call}"),
        Step::Tick => writeln!(text, "tick"),
        Step::Ask { client, asked } => writeln!(text, "ask {client} {asked}"),
    }
}

/// Returns the text that is printed of a world.
pub(crate) fn defined_text(alloc: Global, plain: &Plain) -> Result<String, AllocError> {
    let mut text = String::new(alloc);
    let events = plain.server.events;
    let units = plain.server.units;
    let now = plain.server.now;
    writeln!(text, "events {events} units {units} now {now}")?;
    put_objects(alloc, &mut text, plain)?;
    put_leases(&mut text, plain)?;
    for (object, place) in plain.server.withdrawn.as_slice() {
        writeln!(text, "withdrawn {object} place {place}")?;
    }
    put_clients(alloc, &mut text, plain)?;
    Ok(text)
}

fn put_objects(alloc: Global, text: &mut String, plain: &Plain) -> Result<(), AllocError> {
    for x in plain.server.table.as_slice() {
        let number = x.id.number;
        let kind = x.kind;
        let pinned = if x.pinned { "pinned" } else { "free" };
        let awaiting = u64::from(plain.server.awaits(x.id));
        let held = plain.server.holders(alloc, x.id)?;
        write!(text, "object {number} kind {kind} {pinned} running 0 ")?;
        writeln!(text, "awaiting {awaiting} held {held} names 0")?;
    }
    Ok(())
}

fn put_leases(text: &mut String, plain: &Plain) -> Result<(), AllocError> {
    for client in 0..plain.clients.len() {
        let client = client.min(255) as u8;
        if let Some(end) = plain.server.lease_of(client) {
            let end = u64::try_from(end).unwrap_or(u64::MAX);
            writeln!(text, "lease {client:02x}@0/0/0 until {end}")?;
        }
    }
    Ok(())
}

fn put_clients(alloc: Global, text: &mut String, plain: &Plain) -> Result<(), AllocError> {
    for (number, client) in plain.clients.as_slice().iter().enumerate() {
        let until = client.until();
        writeln!(text, "client {number} until {until}")?;
        let refs = client.refs(alloc)?;
        for r in refs.as_slice() {
            let object = r.object;
            let is_sure = client.is_sure(*r);
            let sure = if is_sure { "sure" } else { "unsure" };
            let usable = if is_sure && plain.moment < until {
                "usable"
            } else {
                "lapsed"
            };
            writeln!(text, "ref {number} {object} {sure} {usable}")?;
        }
    }
    Ok(())
}
