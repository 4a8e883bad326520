// SPDX-License-Identifier: Apache-2.0 OR MIT
//! Graphs of the values in a serialization stream (Java Object Serialization Specification, chapter
//! 6).
//!
//! A `Graph` has nodes in the order of their handles, and items: block data and references.
//! `Builder` makes one. Its `text`, `object`, `array` and the like add loose nodes, in any order.
//! `finish` numbers what the items reach. Floats and doubles are kept as their bits. Annotations
//! and what write methods wrote are kept unread.
//!
//! # Limits
//!
//! At most 65,536 nodes, 2^20 parts in all (`limits::PARTS` says what they are), and 200 levels.
//! An object has one part for each description in its class's chain. The limit on parts bounds the
//! memory of a graph, since a byte or two of a stream can make a part.
//!
//! # What is proved
//!
//! - `finish` gives a graph of exactly what the items reach (`ok`). `WrongShape` says that the
//!   whole breaks a rule of graphs, however deep. `TooDeep` says that it breaks none, and is more
//!   than 200 levels deep (`err`).
//! - `TooManyNodes` comes exactly where a builder has 65,536 nodes.
//! - `part` gives the graph of one reference. `copy` and `same_graph` are exact.
//!
//! Contracts of other crates name a graph's nodes and items directly. The rules of graphs are
//! definitions in `specs/`.
#![tactic(auto)]

mod builder;
mod chain;
mod copying;
mod counting;
mod equality;
mod fault;
mod finishing;
mod fronts;
mod graph;
pub mod limits;
mod loose;
mod node;
mod note_bytes;
mod ranges;
mod renumber;
mod seen;
mod shape;
mod value;
mod walking;

pub use builder::Builder;
pub use fault::BuildFault;
pub use graph::{Graph, same_graph};
pub use loose::elements_in;
pub use node::{FIRST_HANDLE, Node, NodeList, NumberList, SlotPlace};
pub use note_bytes::NotePlace;
pub use shape::{fits_node, fits_value, is_desc, is_text};
pub use value::{Part, PartList, Value, ValueList, Values};
