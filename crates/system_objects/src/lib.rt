// SPDX-License-Identifier: Apache-2.0 OR MIT
//! The registry and the collector as a connection serves them, and the book of the kinds of
//! objects.
//!
//! `request_for` says what a call of the registry or the collector asks for, or why it is rejected.
//! `system_return` builds its Return. A `Book` has the kinds that a server serves: each an
//! interface with its methods and their hashes. `Setup` has a connection's terms: who binds, which
//! host and port references name, and where identifiers are drawn from.
//!
//! # What is proved
//!
//! - What a call asks for is a function of its method, its arguments and the terms (`request_of` in
//!   `specs/SystemRequests`). So is its Return of a turn's answer (`answer_written` in
//!   `specs/SystemReturns`).
//! - A book is its kinds with their methods. A `float` or `double` in a method refuses it (`kinds`,
//!   `none`, `float`).
//! - Returns of leases and of the server's own references are put together from known bytes. These
//!   are exactly the bytes of the graph (`specs/FixedReturns`).
//!
//! # Readings of the specification
//!
//! - Both objects are called by their operations' numbers, whatever hash comes along, as Java's own
//!   code does. With the operation -1, the hash names the method.
//! - Arguments are read first. Then these are refused, in this order and without a turn: a wrong
//!   argument, closed binding, a name of more than 255 units, a reference to another server. The
//!   connection goes on.
//! - A dirty call of a client that names no machine gets a name: the connection's mark and a drawn
//!   identifier.
#![tactic(auto)]

pub mod book;
pub mod faults;
mod fixed_returns;
pub mod request;
pub mod returns;
pub mod setup;
pub mod system_return;

pub use book::{Book, BookFault, Kind, KindList};
pub use setup::{DRAWS_BEGIN_BELOW, Setup};
