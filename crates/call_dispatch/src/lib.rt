// SPDX-License-Identifier: Apache-2.0 OR MIT
//! Serves one connection of the Java Remote Method Protocol, from its first byte to its end.
//!
//! `serve_connection` reads messages from a source, makes turns at a port, has a `Worker` do the
//! calls, and writes the answers to a sink. You give it a `Book` of kinds and a `Setup`. A `Crew`
//! makes a worker for each connection. Implement `Worker` and `Crew` to prove more of a service
//! than `rmi_server` does; `sample_app` is an example.
//!
//! # What is proved of `serve_connection`
//!
//! A *dialogue* is an opening, a chain of exchanges, and one end. It is a relation between whole
//! lists: bytes taken, acts, identifiers drawn, bytes left, bytes written, and the end
//! (`specs/Dialogue`, `Rows`, `Served`).
//!
//! - What a connection took, did, drew and wrote is a dialogue (`dialogue`). It is the only one of
//!   its input and of what the outside answered, unless the outside failed.
//! - Each Call that is read is invoked at most once, with its own graph, also one in which the
//!   connection ends (`invoked`). Nothing else is invoked.
//! - A Call makes the turn Begin, one invocation, and the turn Finish with a normal Return. After a
//!   fault, an outcome that does not fit, or a refused Finish, the call is given up and the Return
//!   is an exception.
//! - An object that is not exported, a hash that names no method, or a full history ends the
//!   connection.
//! - A call of the registry or the collector makes one turn or none.
//! - A new remote object is exported by Finish. An old one is listed there, as is each own object
//!   in a returned graph, once.
//! - An input of whole messages whose calls all find their objects is answered to its end
//!   (`complete`).
//! - No call is left running (`balanced`). Faults have their causes (`read_fault`, `write_fault`).
//!   Neither half is shut.
//! - After a write fault, the output is the answers so far and a prefix of the next. After a
//!   stream's fault, the bytes taken are those that decide it.
//!
//! Laws (`src/laws.rt`): two settled dialogues of one input and the same answers are one
//! (`one_dialogue`).
//!
//! # What is not
//!
//! Turns, bytes and moments share no list. So these are tested (`test_calls`, `test_server`): a
//! worker hears of an object that is gone before the next byte is read; a call is given up before
//! its exceptional Return; a turn's moment is read when it is made; nothing is read or written
//! after a fault; each answer is written before the next byte is read.
//!
//! # Readings of the specification
//!
//! - Only `4B` (stream) and `4C` (single-op) are served. Single-op serves one message, without
//!   acknowledgement and endpoints. Any other protocol byte is answered `4F`. The client's endpoint
//!   may name any host.
//! - An acknowledgement makes one turn and is not answered. If the history is full it is passed
//!   over.
//! - Exported objects are called with the operation -1, by hash. In a result each reference has a
//!   result's flag.
//! - The limit of messages, 2^56, comes before whatever the next message is. A message that ends
//!   early is an end of its own. Positions count from 0 at the connection's first byte.
//! - If no memory is left for a new object's Return, the object stays until its time to be
//!   acknowledged is over.
//!
//! # Cost
//!
//! `docs/PERFORMANCE.md` has the instructions of a call, a lookup and a dirty call. At 100,000
//! messages a second a connection reaches its limit of messages after 22,000 years.
#![tactic(auto)]

mod answer;
mod calls;
mod connection;
pub mod crew;
mod dispatch;
pub mod end;
pub mod laws;
mod messages;
mod opening;
pub mod outcome;
pub mod recording;
mod results;
mod returns;
pub mod serve;
mod suitable;
mod turns;
pub mod words;
pub mod worker;

pub use crew::Crew;
pub use end::ConnEnd;
pub use outcome::{Invocation, Outcome, OutcomeList};
pub use recording::{Recorded, RecordingWorker};
pub use serve::serve_connection;
pub use suitable::suits;
pub use system_ids::SystemMethod;
pub use system_objects::{Book, BookFault, DRAWS_BEGIN_BELOW, Kind, KindList, Setup};
pub use turns::notify_unreferenced;
pub use worker::Worker;
