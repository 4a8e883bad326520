// SPDX-License-Identifier: Apache-2.0 OR MIT
//! Ports: a port hands the requests of one connection to a space, and keeps an entry of each turn.
//!
//! `Port` is the trait that `call_dispatch` uses. `DirectPort` has a space to itself. `turn_lock`
//! has ports of threads. `AskedLog` keeps entries, an entry of a plain turn in 64 bytes. `ToldPort`
//! and `ToldLog` keep none at run time, but contracts see the same list. `calls` counts the calls
//! that began.
//!
//! # What is proved
//!
//! - An answer is one that its request can have (`answer`): refused as full only for a table that
//!   the request may fill.
//! - A connection's running calls add up, whatever other connections do between its turns
//!   (`calls_add_up`).
//! - Entries lead from a legal history to a legal one (`entries_leave_legal_histories`).
//! - A turn without memory has no entry.
//!
//! # What is not
//!
//! That memory is really lacking where a turn answers OutOfMemory, and how much memory a port
//! takes.
#![tactic(auto)]

pub mod asked_log;
mod asked_rows;
pub mod asked_view;
pub mod direct_port;
pub mod laws;
pub mod port;
pub mod told_log;
pub mod told_port;

pub use asked_log::{AskedLog, PortEntries};
pub use asked_view::AskedView;
pub use direct_port::{DirectPort, SpacePort};
pub use port::Port;
pub use told_log::ToldLog;
pub use told_port::ToldPort;
