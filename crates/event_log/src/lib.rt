// SPDX-License-Identifier: Apache-2.0 OR MIT
//! The events of a history in few bytes, or in proofs alone.
//!
//! `EventLog` stores events, `ErasedLog` keeps none, and `SpaceEvents` is one or the other by the
//! configuration. Most events take a row of 48 bytes: those without lists or names, dirty and clean
//! calls of at most one object, and lookups. Clients and names are stored once. Each other event
//! takes a box beside its row. A lookup of a client looks at eight slots alone, so no choice of
//! clients makes a turn slow.
//!
//! # What is proved
//!
//! Contracts see both kinds of log as the list of their events (`items`). `reserve` makes room
//! (`room`, `refused`), and a `push_reserved` then cannot fail. An erased log has the same clauses,
//! but its events cannot be read.
//!
//! # Cost
//!
//! A history of 4,194,304 ticks takes 199 MB, one of 2,097,151 dirty calls of 1,000 clients 103 MB.
//! An event with lists or names takes some 300 bytes more.
#![tactic(auto)]

pub mod erased;
pub mod log;
mod numbered;
mod rows;
pub mod space_events;
pub mod view;

pub use erased::ErasedLog;
pub use log::EventLog;
pub use space_events::SpaceEvents;
pub use view::EventView;
