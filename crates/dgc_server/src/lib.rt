// SPDX-License-Identifier: Apache-2.0 OR MIT
//! The lease table of the distributed collector (Java RMI Specification, chapter 9): which client
//! holds which object, and until when.
//!
//! `Leases::dirty` and `clean` take a lease call at a moment. `is_held` and `holders` answer who
//! holds an object. `lapse` frees what has ended, and `drop_object` forgets an object.
//! `freed_objects` says beforehand which objects may lose their last holder.
//!
//! # What is proved
//!
//! The table does not store the list of its calls. Each clause speaks of every list of lease calls
//! that the table stands for.
//!
//! - What is granted, held and remembered is what the definitions of `history` say of that list
//!   (`granted`, `clients`, `pairs`).
//! - What has lapsed is freed, so renewals cannot grow the table (`freed`).
//! - Each limit is exact: at most 65,536 clients with time left and 262,144 pairs of a client and
//!   an object (`err`).
//! - `drop_object` leaves the table as if no call had named the object (`fewer`, `stands`).
//!
//! # How it is kept
//!
//! No clause speaks of this. Clients are ordered, not hashed, since peers choose their identifiers.
//! They are in chunks of at most 256. Each chunk knows a moment before which none of its leases
//! ends. These moments are in a list of their own, which `lane_kernels::first_due` searches. So
//! `has_ended` looks from the outside in: at one bound over all leases, at those of chunks, then at
//! clients' own ends. Its answer is exact. A client's few objects are a list, more than eight a
//! map. Each object has a count of its holders.
//!
//! # Cost
//!
//! A pair takes 54 to 85 bytes (measured; 56 to 93 by the types' sizes). A client takes 184 to 200,
//! and 312 with its copy beside the history. 65,536 clients come in 0.05 s. Once a lease may end, a
//! turn searches the list of the chunks' moments, which has 8 bytes a chunk. It looks at the
//! clients of those chunks in which one may end. A new client moves at most 255 others. An object
//! that goes costs a look at clients from the noted one to the last that names it. If five or more
//! go together, all clients' objects are looked at, until all pairs are gone.
#![tactic(auto)]

mod board;
mod clients;
mod drops;
mod entry;
mod few_marks;
mod holders;
mod lapses;
mod lease_ends;
mod leases;
mod many_marks;
mod mark_list;
mod marks;
mod numbers;
mod packed;
mod scans;
mod table;

pub use history::{LeaseList, LeaseRow};
pub use leases::{LeaseFault, Leases};
