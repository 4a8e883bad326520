// SPDX-License-Identifier: Apache-2.0 OR MIT
//! Serves connections of many calls over spaces that keep none of their events. Each word of the
//! command line names a kind of call and says how many of them a client makes on one connection, as
//! `get:3000000`. A space that keeps its events has room for 2,097,152 calls.
//!
//! For each word it prints how the connection ended, how many bytes were written to the client, what
//! stands in the space then, and how many withdrawals the space keeps.
#![tactic(auto)]

mod messages;
mod served;
mod wires;

use crate::messages::CallKind;
use crate::served::serve_calls;
use crate::wires::CountingSink;
use history::{Refused, SpaceConfig};
use sample_app::sample_space;
use space::{Space, standing};
use std::alloc::Global;
use std::io::Write;
use std::{env, io};
use test_support::spaces::SPACE;
use test_support::texts::cut;

/// The space of the sample, which keeps none of its events.
fn erased_space(alloc: Global) -> Result<Space, Refused> {
    let config = SpaceConfig {
        lease_ms: 600_000,
        ack_ms: 300_000,
        uid: SPACE,
        stored: false,
    };
    sample_space(alloc, &config)
}

/// Serves a client that makes so many calls of a kind, and prints what comes of it.
fn show_calls<W: Write>(
    alloc: Global,
    out: &mut W,
    space: &mut Space,
    kind: CallKind,
    calls: u32,
) -> io::Result<()> {
    let mut sink = CountingSink::new();
    let end = serve_calls(alloc, space, &mut sink, kind, calls)?;
    writeln!(out, "{end:?}, bytes {}", sink.bytes)?;
    out.write_all(standing(alloc, space)?.as_slice())?;
    writeln!(out, "withdrawals kept {}", space.kept_withdrawals())
}

/// Serves what a word says, over a space of its own.
fn try_word<W: Write>(alloc: Global, out: &mut W, word: &str) -> io::Result<()> {
    let (name, digits) = cut(word, ':');
    let (Some(kind), Ok(calls)) = (CallKind::named(name), digits.parse::<u32>()) else {
        return writeln!(out, "{word} is no word");
    };
    match erased_space(alloc) {
        Ok(mut space) => {
            write!(out, "{word}: ")?;
            show_calls(alloc, out, &mut space, kind, calls)
        }
        Err(refused) => writeln!(out, "{word}: no space, {refused:?}"),
    }
}

fn main(rt: HostRuntime) -> io::Result<()> {
    let alloc = rt.alloc();
    let mut out = rt.stdout();
    let words: Vec<String> = env::args(&rt)?.skip(1).collect(alloc)?;
    for word in &words {
        try_word(alloc, &mut out, word.as_str())?;
    }
    Ok(())
}
