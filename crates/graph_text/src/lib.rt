// SPDX-License-Identifier: Apache-2.0 OR MIT
//! The text of a graph: one line for each node in the order of their handles, then one for each
//! item. `rmi show` prints it.
//!
//! # What is proved
//!
//! `graph_text` gives the text that the definition in `specs/` says, or refuses for lack of memory.
#![tactic(auto)]

mod lines;
mod words;

pub use lines::graph_text;
pub use words::put_value;
