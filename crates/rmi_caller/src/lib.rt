// SPDX-License-Identifier: Apache-2.0 OR MIT
//! A client in a page of code: it finds remote objects, leases them, calls them and lets them go.
//! `docs/CLIENT.md` is its guide, `crates/example_client` its example.
//!
//! [`Remote::lookup`] finds an object by its name in a registry, and takes a lease on it.
//! [`Remote::call`] calls a method by its text, and [`Answer`] has readers for the result.
//! [`Remote::follow`] takes a lease on an object that a result refers to. [`Remote::renew`] renews a
//! lease, and [`Remote::give_up`] ends it. Each remote has a connection, a table and an identifier
//! of its own. They work over any `Dialer`, such as `TcpDial`.
//!
//! # What is proved
//!
//! - A call is refused before anything is sent, for a reason that it has. Otherwise the session
//!   sends exactly one call of the object. It carries the hash of the method's text, and the
//!   arguments, each of which fits its parameter. The result is the one that the bytes heard say
//!   (`calls` of `call`; `CallsOrRefuses`).
//! - If the lease ended by the moment at which the clock is read, `call` answers `Lapsed`
//!   (`lapsed`).
//! - A remote that is found is held: its first message is a dirty call that names the object, and
//!   the server granted it (`Finds`, `Holds`, `TakesLease`).
//! - A lookup, or a result that is followed, is acknowledged only if that dirty call was answered,
//!   and only if its reference is marked so (`held`, `refused` of `follow`; `AcksIf`, `AcksNot`).
//! - `renew` and `give_up` send the lease call that the table of `dgc_client` plans at the clock's
//!   moment, if any, and note what became of it (`leases`). So the numbers of lease calls rise
//!   strictly (`dgc_client::laws::numbers_rise`).
//! - `DialFault` comes only if the dialer's count of faults rose (`fault`).
//! - Readers answer exactly if the result is of their type (`Reads`, `ReadsAt`,
//!   `ReadsValue`).
//!
//! # What is not
//!
//! - The order of messages on two connections. `example_client` tests it.
//! - When `NotBound` comes, and that identifiers differ. `object_ids::UidDraw` promises the latter.
//! - What `Display` writes, and the bytes of `Answer::text`.
//!
//! # Choices
//!
//! - A method is named by its text, as `add(J)J`, whose classes are not compared with arguments.
//! - No `float`, `double` or array is an argument. A result of these types has no reader.
//! - Nothing runs by itself: the author calls `renew`.
#![tactic(auto)]

mod answer;
mod argument;
mod arguments;
mod client;
mod connect;
mod error;
mod exception;
mod lookup;
mod prepared;
mod remote;

pub use answer::Answer;
pub use argument::Argument;
pub use client::Client;
pub use error::{CallError, Wanted};
pub use exception::RemoteException;
pub use java_shapes::LiveRef;
pub use remote::Remote;
pub use wire_io::{Dialer, TcpDial};
