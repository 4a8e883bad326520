// SPDX-License-Identifier: Apache-2.0 OR MIT
//! A service in a page of code: its author says what calls do, and this crate serves them over the
//! Java Remote Method Protocol. `docs/SERVICE.md` is its guide, `crates/example_ledger` its
//! example.
//!
//! The author implements [`Service`], describes the kinds of its objects by [`kind`], and calls
//! [`host_tcp`], which serves until an input ends, or [`serve_tcp`], which serves a count of
//! connections. `host` and `serve` do the same over any listener. One lock keeps the service, so its
//! calls come one at a time, whatever the number of connections.
//!
//! # What is proved
//!
//! - It serves as `conn_server::Server::serve` does (`IsServedBy`, `fault`, `all` of `serve`), and
//!   hosts as `Server::host` does (`IsHostedBy`, `fault`, `all` of `host`).
//! - The site's objects are opened in their order. The first has the number 16, each other the next
//!   one. Each is pinned, and each name is bound to its own object (`opened_events`).
//! - `ServiceHand::invoke` gives an outcome that fits the called method of the site's own kinds, or
//!   ends the call (`fits`; `FitsCall`).
//! - The outcome of each call is that of an answer which the service gave to this very call
//!   (`IsAnswer`, `May`). An author who says which answers the service may give (`may_answer`) has
//!   this said of each call by `IsServedBy` and `IsHostedBy`.
//! - `Call` reads an argument exactly if one of that type is at its place (`ReadsPrimitive`,
//!   `ReadsText`, `ReadsReference`, `ReadsObject`).
//! - `kind` and `book_of` refuse for the faults that `RefusesTexts` and `RefusesKinds` name.
//!   `ServeFault` names a fault that the site has (`RefusesSite`). A site that is served has none
//!   in its names or its host (`IsSound`).
//!
//! # What is not
//!
//! - How often a hand asks the service for a call, and that it tells the service of objects that
//!   are gone. `example_ledger` tests these.
//! - If a site has several faults, no clause says which comes.
//! - What sockets do under `serve_tcp` and `host_tcp`, and that the end of its input stops `host_tcp`.
//!   A socket tells contracts nothing, so a body of these two that serves nobody is not refused;
//!   `interop/run` tests them. A body of `serve` or `host` is.
//!
//! The hands' calls, and what serves or hosts, wait for the service's lock, for links and for
//! threads.
#![tactic(auto)]

mod call;
mod crew;
mod fault;
mod fitting;
mod hosting;
mod kinds;
mod opening;
mod reply;
mod service;
mod serving;
mod site;
mod tcp;

pub use call::Call;
pub use call_dispatch::{Kind, KindList};
pub use conn_server::Stop;
pub use crew::{ServiceCrew, ServiceHand};
pub use fault::{CallFault, Wanted};
pub use hosting::{Door, HostedService, host};
pub use kinds::{KindFault, book_of, kind};
pub use object_ids::ObjId;
pub use reply::Reply;
pub use service::Service;
pub use serving::{ServeFault, serve};
pub use site::{Named, Site};
pub use tcp::{TcpDoor, TcpHosted, TcpReport, host_tcp, seed, serve_tcp};
