// SPDX-License-Identifier: Apache-2.0 OR MIT
//! A client's table of the references that it holds at one server, and the lease calls that keep
//! them (Java RMI Specification, chapter 9).
//!
//! The table sends nothing itself. `register` notes a reference, and `drop_ref` gives one up. `due`
//! says which lease call is to be sent at a moment. The caller sends it, and then tells the table
//! what became of it. `usable` says if the client may use a reference now. A dirty call is due for
//! each new reference. Later ones renew once half of the lease is over.
//!
//! # What is proved
//!
//! Clauses speak of every list of calls that the table stands for.
//!
//! - Each answer is the definition's, over that list (`plan`, `answer`, `same`; `specs/Log`).
//! - The numbers of lease calls rise (`numbers_rise`). `NumbersSpent` comes only if none is left
//!   (`spent`).
//! - `FullRefs` comes exactly at 16,384 references (`full`). A refused call leaves the table as it
//!   was (`err`).
//!
//! # Choices
//!
//! - A reference is usable only while a dirty call that named it was answered in time.
//! - A failed dirty call makes the clean calls of every reference that it names strong: it may
//!   still reach the server.
//! - An answer is judged by the end of the client's time just before that call.
//! - Moments are below 2^62, and at most 2^40 milliseconds are granted.
//! - Clean calls are forgotten once they are planned. Dirty calls are kept until they are answered
//!   or fail.
//!
//! # Cost
//!
//! A `due` looks only at references behind the settled ones (`AreSettled`). If no call was due,
//! later calls of `due` look at none until the table changes or the time ends (`IsIdle`). To
//! register, renew and drop 16,384 references takes 30 ms as a whole `rmi world`.
#![tactic(auto)]

mod asked;
mod client_ref;
mod client_refs;
mod client_table;
mod idle;
pub mod laws;
pub mod limits;
mod plan;
mod ref_map;
mod sent_map;

pub use client_ref::{ClientRef, RefList};
pub use client_refs::ClientRefs;
pub use client_table::ClientTable;
pub use limits::{MAX_GRANTED_MS, MAX_REFS};
pub use plan::{ClientFault, Plan};
