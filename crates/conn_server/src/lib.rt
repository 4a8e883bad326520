// SPDX-License-Identifier: Apache-2.0 OR MIT
//! A server: it accepts connections, serves each in a thread of its own over one space, and reports
//! what came of each.
//!
//! `Server::serve` serves a plan's count of links and gives a `Report`. `serve_with` hands each
//! link's report to a `ReportTaker` as the link ends. `host` serves until its listener is told to
//! stop. You give it a `TurnLock` with its `Root`, a `Crew`, a `Book` and a `ServePlan`.
//!
//! # What is proved
//!
//! - `served` of `serve` (`specs/Reports`): each accepted link has a report with its peer, a dialogue
//!   over its own bytes, its hand, its moments, its calls and its entries. Each Call is invoked at
//!   most once. Each entry is answered as at its place in the one history, which is legal. Its rows
//!   are what `Collects` makes. Other events are the server's own Ticks, one before each link.
//! - A read or write fault has its cause (`halves`). Whole messages are answered to their end
//!   (`complete`). A link for which there is no memory is shut and given back (`lost`).
//! - The stop is `All` exactly if the count was served, and `AcceptFault` only if the listener failed:
//!   once at least for `serve`, and more than 60 times since its last answer for `host` (`fault`).
//! - `given` of `serve_with`: the same, and the taker is given each report once.
//! - `hosts` of `host` (`specs/Hosts`, `specs/Quiet`): the same. The server also makes Ticks in seconds
//!   without a link. A look at its clock has a Tick only if something had ended. It has none only if
//!   nothing had, or if something had and the result counts the Tick as missed (`ticks_missed`). It
//!   looks at its clock for each answer of the listener that no link came, or that it was not told to
//!   stop (`asked`). The hand of number 0 is told each object that these Ticks withdraw once (`told`).
//!   The stop is `Told` only if the listener was told, before its close. Links come by `wait`, never
//!   by `accept` (`waited`). A host that records gives its taker the events after the opening's in
//!   order (`handed`), and all of them if it says `whole`. Whatever the cause, the listener is closed
//!   at the end, and not before (`closed`, `closed_last`). While a link is live it is not given up
//!   (`idle` of `run`).
//!
//! # What is not
//!
//! - When a link begins, how long it waits, or how long a stop takes. That a host asks its listener,
//!   or looks at its clock while the listener fails. That memory grows with live links alone, or that
//!   no more than `most_live` are live. `test_server` tests most of these.
//! - How fresh the history is by which a look judges: it has the server's own turns so far, and may
//!   lack turns of links. Listener, clock and taker share no list. So no clause says that a look, a
//!   report or a part comes before the stop. `test_server` tests it.
//! - That memory lacked where a Tick or a thread was missed, a link was lost, or `whole` is false: no
//!   contract sees that. So a body that counts each due Tick as missed, or serves each link by the
//!   accepting thread, is not refused.
//! - That links are still live when a host closes its listener. `test_server` tests it.
//! - Who is told of objects that the end of a call withdraws after its link has ended: the next turn
//!   tells them. If there is none, nobody does.
//!
//! # Choices and cost
//!
//! - Where no thread can be started for a link, the server tries 60 times more, for three seconds at
//!   most. Then the accepting thread serves that link.
//! - A listener that fails is asked again while a link is served. When none is, `serve` asks it four
//!   times more and `host` 60 times, with a pause of 50 milliseconds each.
//! - A host that has as many links as it may have looks every 50 milliseconds whether it is to stop.
//! - A host closes its listener before it waits for its last links, whatever the cause.
//! - Threads of ended links are joined as accepting goes on. Each notes its number as its last act.
//! - The list of all links exists in proofs alone, and so do the entries of a host's links.
//! - An idle link takes 16.4 kB, 12 of them its thread's stack. Linux allows some 32,700 threads.
#![tactic(auto)]

mod accept_loop;
mod admission;
mod ended_links;
mod handing;
mod host_loop;
mod join;
mod link_entries;
pub mod link_task;
mod link_thread;
pub mod plan;
mod quiet_second;
pub mod server;
mod shared;
pub mod taker;

pub use accept_loop::Stop;
pub use admission::LostLink;
pub use host_loop::MAX_LIVE;
pub use link_entries::LinkEntries;
pub use link_task::{AdmittedLink, LinkDone, LinkReport, LinkTask, TaskPromise};
pub use plan::{ServePlan, random_seed};
pub use server::{
    AllJoined, Begin, HostBegin, HostJoined, Hosted, LinkReports, Report, Served, Server,
};
pub use taker::{DropsReports, KeepsReports, MAX_PART, ReportTaker};
