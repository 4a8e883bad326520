// SPDX-License-Identifier: Apache-2.0 OR MIT
//! The sample that `rmi serve`, `host` and `answer` serve: the objects `echo`, `counter` and
//! `maker`, all pinned.
//!
//! `sample_book` has the kinds `sample.Echo`, `sample.Counter` and `sample.Maker`, `sample_space`
//! the opened space with the objects 16, 17 and 18. `SampleWorker` does calls for one connection.
//! `SampleCrew` makes hands that share one table of counters. It shows how to implement `Worker`
//! and `Crew` of `call_dispatch` with clauses of one's own.
//!
//! # What is proved
//!
//! - Which outcomes a call may have (`may`); it does not depend on the counters' numbers. How a
//!   call moves the numbers that it finds (`moves`; `specs/Does`).
//! - A hand of a crew shows some numbers that its last call may have found, and those that it left
//!   (`last`). It shows neither its calls nor its numbers, since other hands change them.
//!
//! # What is not
//!
//! That the counters are those of all connections, since a lock shows nothing of what it holds;
//! `test_server` does. How long a hand waits for the lock of the counters.
//!
//! A call with arguments of another method comes out as `Void`. It cannot come from a connection.
#![tactic(auto)]

mod counters;
mod crew;
mod kinds;
mod opening;
mod sample_call;
mod worker;

pub use counters::Counters;
pub use crew::{SampleCrew, SampleHand};
pub use kinds::sample_book;
pub use opening::sample_space;
pub use sample_call::SampleCall;
pub use worker::{CountersChange, SampleWorker};
