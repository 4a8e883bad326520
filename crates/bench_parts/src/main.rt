// SPDX-License-Identifier: Apache-2.0 OR MIT
//! Times a part of the product, which the first word names: `graphs`, `streams`, `suid`, `lock` or
//! `client`. The other words say how much of it. Scripts of the same names in `bench/` run it.
#![tactic(auto)]

mod classes;
mod client;
mod crew;
mod graphs;
mod lock;
mod sample;
mod sizes;
mod streams;

use classes::time_class;
use client::time_client;
use graphs::time_graph;
use lock::time_lock;
use std::process::ExitCode;
use std::{env, io};
use streams::time_stream;

/// A part of the product that is timed.
#[derive(Clone, Copy)]
enum Part {
    Graphs,
    Streams,
    Suid,
    Lock,
    Client,
}

impl Part {
    /// The part that a word names.
    fn named(word: &str) -> Option<Part> {
        match word {
            "graphs" => Some(Part::Graphs),
            "streams" => Some(Part::Streams),
            "suid" => Some(Part::Suid),
            "lock" => Some(Part::Lock),
            "client" => Some(Part::Client),
            _ => None,
        }
    }
}

fn main(rt: HostRuntime) -> io::Result<ExitCode> {
    let alloc = rt.alloc();
    let mut words: Vec<String> = env::args(&rt)?.skip(1).collect(alloc)?;
    let mut part = None;
    if !words.is_empty() {
        part = Part::named(words.remove(0).as_str());
    }
    match part {
        Some(Part::Graphs) => time_graph(&rt, alloc, words.as_slice()),
        Some(Part::Streams) => time_stream(&rt, alloc, rt.stdin()),
        Some(Part::Suid) => time_class(&rt, alloc, rt.stdin()),
        Some(Part::Lock) => time_lock(&rt, alloc, words.as_slice()),
        Some(Part::Client) => time_client(&rt, alloc, words.as_slice()),
        None => {
            eprintln!(rt;
                "usage: bench_parts graphs NODES BYTES, streams, suid, lock THREADS TURNS, or client HOST PORT CALLS"
            )?;
            Ok(ExitCode::from(1))
        }
    }
}
