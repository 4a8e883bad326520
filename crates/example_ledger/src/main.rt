// SPDX-License-Identifier: Apache-2.0 OR MIT
//! A service in a page of code: a ledger of accounts, which Java programs open and add to.
//! `docs/SERVICE.md` explains it.
//!
//! With the word PORT it listens on 127.0.0.1:PORT and serves until its input ends. With the words
//! PORT and LINKS it serves so many connections and exits. Without words it serves recorded
//! clients in memory, and prints the bytes that each got. It proves nothing of its own sums.
//!
//! The last line on standard error says why it stopped. The status is 0 where its input ended or all
//! LINKS were served, and 1 in each other case.
#![tactic(auto)]

mod clients;
mod ledger;
mod recorded;

use crate::ledger::{LEDGER, Ledger, kinds};
use crate::recorded::serve_recorded;
use anyhow::{Result, bail};
use indexmap::IndexMap;
use rmi_server::{Named, Site, Stop, TcpDoor, host_tcp, seed, serve_tcp};
use std::env;

fn main(rt: HostRuntime) -> Result<()> {
    let alloc = rt.alloc();
    let words: Vec<String> = env::args(&rt)?.skip(1).collect(alloc)?;
    let (port, links) = match words.as_slice() {
        [port] => (port.parse()?, None),
        [port, links] => (port.parse()?, Some(links.parse()?)),
        _ => return serve_recorded(&rt, alloc, &mut rt.stdout()),
    };
    let site = Site {
        kinds: kinds(alloc)?,
        names: &[Named::new("ledger", LEDGER)],
        host: "127.0.0.1",
        port,
        links: links.unwrap_or(0),
        stored: false,
        seed: seed(&rt)?,
    };
    let ledger = Ledger {
        balances: IndexMap::new(alloc),
    };
    if links.is_some() {
        let report = serve_tcp(&rt, alloc, ledger, &site)?;
        return end_counted(&rt, report.stop);
    }
    let door = TcpDoor {
        address: "127.0.0.1",
        input: rt.stdin(),
    };
    let hosted = host_tcp(&rt, alloc, ledger, &site, door)?;
    end_hosted(&rt, hosted.stop)
}

/// Tells why the hosted service stopped. It is an error unless the input ended, so that a service manager starts the program again.
fn end_hosted(rt: &impl Eprint, stop: Stop) -> Result<()> {
    match stop {
        Stop::Told => tell(rt, "stopped: the input ended"),
        Stop::All => bail!("stopped: no more connections can be numbered"),
        Stop::AcceptFault => bail!("stopped: the listener failed"),
        Stop::OutOfMemory => bail!("stopped: no memory for a connection"),
    }
}

/// Tells why the service of so many connections stopped. It is an error unless it served them all.
fn end_counted(rt: &impl Eprint, stop: Stop) -> Result<()> {
    match stop {
        Stop::All => tell(rt, "stopped: all connections were served"),
        stop => end_hosted(rt, stop),
    }
}

/// Prints a line on standard error. That it could not be written changes nothing.
fn tell(rt: &impl Eprint, line: &str) -> Result<()> {
    let _ = rt.eprintln(line);
    Ok(())
}
