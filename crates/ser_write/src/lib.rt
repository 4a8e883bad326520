// SPDX-License-Identifier: Apache-2.0 OR MIT
//! Writes graphs as serialization streams (Java Object Serialization Specification, chapter 6).
//!
//! `write_stream` gives a whole stream. `write_items_onto` appends a graph's items to bytes that
//! are there, and `write_items_after` joins block data to them. Block data is cut into blocks of
//! 1,024 bytes and one shorter rest.
//!
//! # What is proved
//!
//! - The bytes spell the graph (`spelled`), and are its canonical bytes (`canonical`, `written`).
//! - A graph with the same canonical bytes is the same graph (`alone`).
//! - A refusal, which is only for lack of memory, leaves the list as it was (`err`).
#![tactic(auto)]

mod node_pieces;
mod numbers;
mod pieces;
mod writing;

pub use pieces::{put_primitive, write_blocks_onto};
pub use writing::{write_items_after, write_items_onto, write_stream};
