// SPDX-License-Identifier: Apache-2.0 OR MIT
//! A second service: a list of texts that all clients share, and to which Java programs add.
//!
//! With the words PORT and LINKS it listens on 127.0.0.1:PORT, serves so many connections and
//! exits. Without words it serves a recorded client in memory.
#![tactic(auto)]

mod recorded;
mod texts;

use crate::recorded::serve_recorded;
use crate::texts::{TEXTS, Texts, kinds};
use anyhow::Result;
use rmi_server::{Named, Site, seed, serve_tcp};
use sequence::NameList;
use std::env;

fn main(rt: HostRuntime) -> Result<()> {
    let alloc = rt.alloc();
    let words: Vec<String> = env::args(&rt)?.skip(1).collect(alloc)?;
    let [port, links] = words.as_slice() else {
        return serve_recorded(&rt, alloc, &mut rt.stdout());
    };
    let site = Site {
        kinds: kinds(alloc)?,
        names: &[Named::new("texts", TEXTS)],
        host: "127.0.0.1",
        port: port.parse()?,
        links: links.parse()?,
        stored: false,
        seed: seed(&rt)?,
    };
    let texts = Texts {
        texts: NameList::new(alloc),
    };
    serve_tcp(&rt, alloc, texts, &site)?;
    Ok(())
}
