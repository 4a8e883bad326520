// SPDX-License-Identifier: Apache-2.0 OR MIT
//! Laws of writing and reading together, and of the faults that bytes show.
//!
//! # What is proved
//!
//! - A graph of at most 2^62 canonical bytes that is written and read back is the same graph,
//!   unless a read failed (`same` of `read_back`).
//! - Reading answers a fault if and only if the bytes show it: for a list of wants
//!   (`want_faults_are_shown`), behind a head (`headed_faults_are_shown`), and for a whole stream
//!   (`faults_are_shown`).
//! - Bytes show at most one fault (`want_fault_is_one`, `fault_is_one`), and none while more bytes
//!   are needed (`short_wants_show_none`, `short_shows_none`).
//! - A description that `suid_calc::describe` makes is read back (`description_read_back`).
//!
//! What bytes show is defined by cases beside the grammar, not by reading (`specs/WantFails`,
//! `Fails`, `Reads`):
//!
//! | fault | the bytes show it where |
//! |---|---|
//! | `BadMagic` | a byte differs from the magic number or the version |
//! | `BadCode` | a code begins nothing that is allowed here |
//! | `Reset`, `InnerException` | `79` or `7B` comes where a reference or block data is wanted |
//! | `BadHandle` | a handle is below 007E0000, or no node so far has it |
//! | `WrongHandleKind` | the handle's node is not allowed here |
//! | `BadDesc` | a description is unread, breaks a rule, or its class has no such constructs |
//! | `OldExternal` | the class is externalizable and writes no block data |
//! | `BadUtf` | the bytes of a text are none, at the first byte of the bad spelling |
//! | `NegativeLength` | a length or a count is not below its bound |
//! | `TooLarge` | there is no room for a node, a part or a level |
//! | `MissingBlock` | no block begins where block data is wanted |
//! | `BlockLeft` | bytes of a block are left where a reference or the end is wanted |
#![tactic(auto)]

mod descriptions;
pub mod faults;
mod round_trip;

pub use descriptions::description_read_back;
pub use round_trip::read_back;
