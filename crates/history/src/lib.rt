// SPDX-License-Identifier: Apache-2.0 OR MIT
//! What a space of exported objects is asked, what it answers, and what the distributed collector
//! makes of it (Java RMI Specification, chapters 6, 9 and 10).
//!
//! `Ask`, `Event`, `Reply` and `Turn` are the plain data. `SpaceConfig` has the lease, the wait for
//! acknowledgements, and whether events are stored. `specs/` has every definition of the collector,
//! over the list of all events. The lease table, the export table, the registry and the space cite
//! these.
//!
//! # The headline
//!
//! `Collects` in `specs/Collector` says what happens to the table of exported objects at one event:
//!
//! > Of the objects that were in the table or are exported by the event, those that are needed are
//! > the table afterwards, and the others are withdrawn. An object is needed exactly if it was
//! > opened pinned, or a name is bound to it, or a connection runs a call of it, or a returned
//! > reference to it awaits its acknowledgement, or a client holds it.
//!
//! It speaks of the rows of any table. So a table that keeps what it should drop does not meet it.
//!
//! # What is proved
//!
//! Laws in `src/laws.rt` say of a whole history what people believe of it:
//!
//! - `the_table_is_what_was_kept_since_its_export`: the table has the objects that were kept at
//!   each prefix since.
//! - `objects_are_numbered_as_exported`: no identifier is given twice.
//! - `a_reference_awaits_since_its_last_return`: until its time ends or its acknowledgement comes.
//! - `a_lease_never_falls`: neither a shorter dirty call nor a clock that goes back shortens a
//!   lease.
//! - `a_name_stands_for_its_last_change`, `what_a_name_stands_for_is_exported`.
//! - `running_calls_are_begins_less_ends`.
//! - `the_collector_keeps_what_is_needed`: `Collects` holds at each step.
//!
//! The prover also computes worked histories (`proofs/`). `history_model` has plain functions for
//! the same definitions.
//!
//! # Readings of the specification
//!
//! - A lease ends at the greatest of each dirty call's moment plus the duration that it was
//!   granted. A client is granted what it asks for, from 1 ms up to the configured lease, else the
//!   configured lease.
//! - A tenure begins with the last dirty call at which the client had no time left. A weak clean
//!   call without a tenure is forgotten. A strong clean call counts for good.
//! - A moment before the greatest so far is read as the greatest.
//! - Limits are counted at the event's moment. `Full(Exports)` counts the objects before the event.
//!   References that one event returns more than once count once.
#![tactic(auto)]

pub mod asks;
pub mod calls;
pub mod equality;
pub mod laws;
pub mod limits;
pub mod names;
pub mod places;
pub mod replies;

pub use asks::{Ask, Event, EventList, SpaceConfig};
pub use calls::{Call, CallKind, CallList, LeaseList, LeaseRow, Pair, PairList, grant};
pub use limits::Limits;
pub use names::{Name, NameTooLong};
pub use places::{
    Exported, ExportedList, Place, PlaceList, Returned, ReturnedList, Withdrawal, WithdrawalList,
};
pub use replies::{Refused, Reply, Turn};
