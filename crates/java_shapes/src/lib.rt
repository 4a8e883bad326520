// SPDX-License-Identifier: Apache-2.0 OR MIT
//! Java's own objects in graphs: identifiers, leases, references to remote objects, lists of texts,
//! and faults (Java RMI Specification, chapters 8 to 10).
//!
//! Functions that begin with `as_` read a plain value from a graph. Those that begin with `put_`
//! add one to a builder. Those that end with `_graph` build a graph of one value. Classes and
//! fields are found by name and type; no serialVersionUID is compared. What is built carries the
//! numbers of Java's own classes.
//!
//! # What is proved
//!
//! - A view answers exactly where the graph has that shape; otherwise it answers `WrongShape`
//!   (`ensures` of `as_live_ref` and its kin).
//! - What is put is viewed as the same value (`viewed`). A refused call leaves the builder as it
//!   was (`unchanged`).
//! - `local_refs` gives the objects of a graph's references to one host and port, each once.
//! - `with_result_flag` changes the flags of references and nothing else.
//!
//! # Choices
//!
//! - If two classes of one chain have the name that is looked for, the one nearest to the object's
//!   own class counts.
//! - An object of a proxy class has no class name, so it is no fault.
//! - A proxy whose handler is no reference's is read by its own part of `RemoteObject`, if it has
//!   one.
//! - Any byte but 0 in a reference's last place is true.
//! - Type texts of fields are shared, within one call and across calls. Descriptions are shared
//!   within one call alone.
//! - An interface of more than 65,535 encoded bytes is refused by `finish`. `put_live_ref` requires
//!   a short host.
#![tactic(auto)]

mod class_part;
mod classes;
mod fault;
mod fault_graphs;
mod faults;
mod flags;
mod id_lists;
mod id_views;
pub mod laws;
mod lease_graphs;
mod lease_views;
mod leases;
mod live_refs;
mod local_ids;
mod name_lists;
mod ref_graphs;
mod ref_views;
mod text_graphs;
mod text_views;
mod throwable;

pub use fault::ShapeFault;
pub use fault_graphs::fault_graph;
pub use faults::put_fault;
pub use flags::with_result_flag;
pub use id_lists::put_objids;
pub use id_views::as_objids;
pub use lease_graphs::lease_graph;
pub use lease_views::{LeaseView, as_lease, as_vmid};
pub use leases::{put_lease, put_vmid};
pub use live_refs::{NOTE_ROOM, put_live_ref};
pub use local_ids::{is_local, local_refs};
pub use name_lists::put_texts;
pub use ref_graphs::ref_graph;
pub use ref_views::{LiveRef, as_live_ref};
pub use text_graphs::texts_graph;
pub use text_views::{as_text, as_texts};
pub use throwable::as_fault_text;
