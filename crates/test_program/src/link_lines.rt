//! The lines of ended links, and of where a server listens.
use crate::hosts::must;
use call_dispatch::ConnEnd;
use rmi_cli::{EndedLink, listening_line};
use sequence::Units;
use std::alloc::Global;
use std::process::Abort;

/// The units of a text of ASCII.
fn units_of(rt: &impl Abort, alloc: Global, text: &str) -> Units {
    let mut units = Units::new(alloc);
    for byte in text.as_bytes() {
        must(rt, units.push(u16::from(*byte)).is_ok(), "memory");
    }
    units
}

/// Looks whether a link that ends so has this line.
fn check_line(rt: &impl Abort, alloc: Global, end: ConnEnd, wanted: &str) {
    let link = EndedLink {
        number: 7,
        host: units_of(rt, alloc, "127.0.0.1"),
        port: 40204,
        end,
        calls: 12,
        milliseconds: 3400,
    };
    match link.line(alloc) {
        Ok(line) => must(rt, line.as_slice() == wanted.as_bytes(), wanted),
        Err(_) => must(rt, false, "memory"),
    }
}

#[test]
fn a_line_tells_an_ended_link(rt: HostRuntime) {
    let ended = "link 7 127.0.0.1 40204 ended calls 12 ms 3400\n";
    check_line(&rt, rt.alloc(), ConnEnd::Ended, ended);
    let truncated = "link 7 127.0.0.1 40204 truncated at 65 calls 12 ms 3400\n";
    check_line(&rt, rt.alloc(), ConnEnd::Truncated { at: 65 }, truncated);
}

#[test]
fn a_line_tells_where_a_server_listens(rt: HostRuntime) {
    match listening_line(rt.alloc(), "0.0.0.0", 1099) {
        Ok(line) => must(
            &rt,
            line.as_slice() == b"listening 0.0.0.0 1099\n".as_slice(),
            "a line",
        ),
        Err(_) => must(&rt, false, "memory"),
    }
}
