//! The ledger, served to recorded clients in memory; what each of them got is printed, and what the server has left.
use crate::clients::listener;
use crate::ledger::{LEDGER, Ledger, kinds};
use anyhow::Result;
use conn_server::LinkReport;
use indexmap::IndexMap;
use rmi_server::{Named, ServiceHand, Site, serve};
use space::standing;
use std::alloc::Global;
use std::io;
use std::io::Write;
use std::sync::Wait;
use std::thread::Threads;
use wire_io::{MemClock, MemSink, MemSource};

/// The report of a link in memory.
type LedgerLink<'t, R> = LinkReport<MemSource, MemSink, MemClock, ServiceHand<'t, R, Ledger>>;

/// Prints the number of a connection, how it ended, how many calls its hand was given, and the bytes that its client got.
fn show_link<R: Wait + Sync>(out: &mut impl Write, link: &LedgerLink<'_, R>) -> io::Result<()> {
    writeln!(
        out,
        "connection {} {:?} calls {}",
        link.by, link.end, link.hand.calls
    )?;
    for byte in link.sink.bytes() {
        write!(out, "{byte:02x}")?;
    }
    writeln!(out)
}

/// Serves both clients, and prints the report.
pub fn serve_recorded<R: Threads + Wait + Sync>(
    rt: &R,
    alloc: Global,
    out: &mut impl Write,
) -> Result<()> {
    let site = Site {
        kinds: kinds(alloc)?,
        names: &[Named::new("ledger", LEDGER)],
        host: "127.0.0.1",
        port: 1099,
        links: 2,
        stored: true,
        seed: [5, 6, 7, 9],
    };
    let ledger = Ledger {
        balances: IndexMap::new(alloc),
    };
    let report = serve(rt, alloc, &mut listener(alloc)?, ledger, &site)?;
    for link in report.links.as_slice() {
        show_link(out, link)?;
    }
    out.write_all(standing(alloc, &report.space)?.as_slice())?;
    Ok(())
}
