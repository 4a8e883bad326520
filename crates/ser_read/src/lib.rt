// SPDX-License-Identifier: Apache-2.0 OR MIT
//! Reads graphs from serialization streams (Java Object Serialization Specification, chapter 6),
//! from any source.
//!
//! `read_to_end` reads a whole input. `Reader` reads piece by piece: `bytes` takes block data,
//! `slot` takes a reference. `read_wants` answers a list of wants and takes no byte behind them;
//! messages are read so. The recursion is at most 200 levels deep. Functions that call each other
//! are proved as one cycle.
//!
//! # What is proved of `read_to_end`
//!
//! - On `Ok`, the bytes up to the input's end were taken, and are a stream of the graph (`taken`).
//! - If the input is told and ends within the limit, every stream is read as its graph
//!   (`complete`). For other bytes the fault is the first at which reading stops (`gives`).
//! - Past the limit the answer is the first fault before it, or `TooLarge` (`limited`).
//! - At a fault, exactly the bytes were taken that decide it. Whatever follows, reading gives this
//!   fault (`stops`).
//! - `ReadFault` comes only if the source failed (`cause`).
//!
//! `read_wants` and `Reader` say the same of their wants (`spelled`, `gives`, `stops`, `complete`).
//! After a refusal, every call of a `Reader` repeats it and takes nothing (`again`, `refused`).
//!
//! # What is not
//!
//! That no memory is taken for a length whose bytes never come, and that a message of 16 MB takes
//! at most 200 MB in all. Both are tested.
//!
//! # Cost
//!
//! Streams of 16 MB are read in 10 ms (bytes), 12 ms (numbers of 4 bytes) and 37 ms (one text).
//! 60,000 small objects take 16 ms (`bench/streams`, 4 cores at 2.7 GHz). Java's reader takes 14,
//! 16, 33 and 12 ms.
//!
//! A small call spends most of its time here. So functions that each value passes through are
//! inlined, and rare or long paths are not: faults, large items, the parts of an object.
#![tactic(auto)]

mod block;
mod fault;
mod front;
mod header;
pub mod laws;
mod numbers;
mod pieces;
mod pulled;
mod reader;
mod reading;
mod row;
mod serving;
mod shape;
mod spelled;
mod table;
mod wanted;
mod whole;
mod words;

pub use fault::{Large, StreamFault, StreamKind};
pub use reader::Reader;
pub use serving::{Want, read_wants};
pub use wanted::{to_u8, to_u16, to_u32, to_u64};
pub use whole::read_to_end;
