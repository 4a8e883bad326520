// SPDX-License-Identifier: Apache-2.0 OR MIT
//! The grammar of serialization streams (Java Object Serialization Specification, 6.4), and reading
//! as a function.
//!
//! There is no code here. `specs/` has the grammar: which bytes spell which graph. `specs/Reading`
//! is a function that reads bytes from left to right and gives a graph or the first fault.
//! `specs/Faults` has one line for each kind of fault.
//!
//! # What is proved
//!
//! - Bytes are a stream of at most one graph (`streams_have_one_reading`), and what they are a
//!   stream of is a graph (`streams_are_of_graphs`).
//! - Reading finds that graph (`streams_are_read`). It comes to one answer
//!   (`reading_comes_to_one`).
//! - A fault that reading gives is in the bytes (`faults_stand_in_bytes`).
//! - An object has a part for each description of its class's chain, unless its class is
//!   externalizable (`objects_have_parts_by_chain`).
//!
//! # Choices that the specification leaves open
//!
//! - Only what gets a handle has a depth, at most 200.
//! - A reference to a description that is still being read is the fault `BadDesc`, at the
//!   reference.
//! - A class is judged when its construct's handle is due: first the room for a node, then for
//!   parts, then the class.
//! - Fields, interface names, values and elements count as parts before they are read. A reference
//!   of an annotation or of the stream counts once it was read. A part too many is a fault at the
//!   code of the construct, or of that reference.
//! - A field of fixed length or a text is read whole before it is judged. If the input ends in it,
//!   it is `Truncated`.
//! - Blocks may be cut anywhere, and empty blocks are allowed. Short texts may use the long length
//!   code.
//! - A reset (`79`) and an exception that stopped the writer (`7B`) are faults.
#![tactic(auto)]

pub mod laws;
