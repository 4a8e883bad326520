// SPDX-License-Identifier: Apache-2.0 OR MIT
//! A client in a page of code: it looks a greeter up, has it greet, holds it on and lets it go.
//! `docs/CLIENT.md` explains it.
//!
//! With the words HOST, PORT and NAME it calls the greeter that a Java registry there knows by that
//! name. Without words it talks to a recorded Java server in memory. It proves nothing of its own.
#![tactic(auto)]

mod recorded;

use crate::recorded::recorded_server;
use anyhow::Result;
use rmi_caller::{Argument, Client, Dialer, Remote, TcpDial};
use std::env;
use std::io::Write;

/// Has the greeter greet two guests, and prints what it answers.
fn greet_all<D: Dialer>(out: &mut impl Write, greeter: &mut Remote<D>) -> Result<()> {
    for guest in ["Ada", "Bob"] {
        let greet = "greet(Ljava/lang/String;)Ljava/lang/String;";
        let greeting = greeter.call(greet, &[Argument::Text(guest)])?;
        writeln!(out, "{}", greeting.text()?)?;
    }
    let count = greeter.call("count()I", &[])?;
    writeln!(out, "greetings: {}", count.int()?)?;
    Ok(())
}

/// Visits a greeter, and another one that it refers to. Each is held until it is given up, and its lease is renewed where that is due.
fn visit<D: Dialer>(
    out: &mut impl Write,
    client: &mut Client,
    dialer: &mut D,
    greeter: &mut Remote<D>,
) -> Result<()> {
    greet_all(out, greeter)?;
    let friend = greeter.call("friend()Lexample/Greeter;", &[])?;
    let mut friend = greeter.follow(client, dialer, &friend)?;
    greet_all(out, &mut friend)?;
    friend.give_up()?;
    greeter.renew()?;
    greet_all(out, greeter)?;
    greeter.give_up()?;
    Ok(())
}

fn main(rt: HostRuntime) -> Result<()> {
    let (alloc, mut out) = (rt.alloc(), rt.stdout());
    let words: Vec<String> = env::args(&rt)?.skip(1).collect(alloc)?;
    let [host, port, name] = words.as_slice() else {
        let mut client = Client::new(alloc, 1, 2, 3);
        let mut dialer = recorded_server(alloc)?;
        let mut greeter = Remote::lookup(&mut client, &mut dialer, "127.0.0.1", 1099, "greeter")?;
        return visit(&mut out, &mut client, &mut dialer, &mut greeter);
    };
    let mut client = Client::random(alloc, &rt)?;
    let mut dialer = TcpDial::new(alloc, &rt);
    let mut greeter = Remote::lookup(&mut client, &mut dialer, host, port.parse()?, name)?;
    visit(&mut out, &mut client, &mut dialer, &mut greeter)
}
