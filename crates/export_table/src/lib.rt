// SPDX-License-Identifier: Apache-2.0 OR MIT
//! The export table: which objects a space has exported, what keeps each of them, and when each is
//! withdrawn (Java RMI Specification, chapter 9).
//!
//! `Exports::add` exports an object, `begin` and `end` count its running calls, `wait_for` and
//! `ack` follow returned references, `pin` and `unpin` count names. `withdraw` removes what nothing
//! keeps.
//!
//! # What is proved
//!
//! - Contracts see the exported objects by rising number, each with its kind, running calls and
//!   pins, and the references that await.
//! - `withdraw` removes exactly what nothing keeps (`kept`, `gone`). `withdraw_among` does the same
//!   of the objects that it is given, and looks at no other.
//! - Each limit is exact and a refusal changes nothing (`full`, `faults`, `err`): 65,536 objects,
//!   65,536 awaiting references.
//! - Laws tie these lists to a history's (`waits_are_awaiting`, `rows_count_running`,
//!   `rows_count_names`).
//!
//! # How it is kept
//!
//! Rows are in the order of their numbers. An object that goes leaves a gap until gaps are more
//! than half. Waits that have ended are skipped while their ends rise, and removed once they are
//! more than half. `ack` looks from both ends at once.
//!
//! # Cost
//!
//! An exported object takes 80 bytes, and up to 160 after the list grew. A reference that awaits
//! takes 181 to 362. An acknowledgement in the middle of n waits looks at all of them, some three
//! times. 500 objects that go one by one of 65,536 take 0.0001 s.
#![tactic(auto)]

mod counts;
mod exports;
mod index;
pub mod laws;
mod returns;
mod row_table;
mod rows;
mod slots;
mod wait_list;
mod wait_queue;
mod waits;

pub use exports::{ExportFault, Exports};
pub use rows::{ExportRow, RowList};
