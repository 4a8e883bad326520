// SPDX-License-Identifier: Apache-2.0 OR MIT
//! A space of exported objects: it takes one event after another, and answers each by the whole
//! list of events before it (Java RMI Specification, chapters 6, 9 and 10).
//!
//! `Space::fresh` makes one from a configuration. `turn` takes an event and answers it, or refuses
//! it. `turn_noted` also gives the entry that a port keeps. `abandon` ends a running call without
//! an answer. `has_ended` says if a Tick would end a lease or a wait, and `has_untold` if an
//! `abandon` withdrew objects that no turn has reported. `outline`, `summary`, `journal` and
//! `standing` are its texts. Use `ports` or `turn_lock` to give connections turns.
//!
//! # What is proved
//!
//! Contracts see a space as its configuration, the list of its events, and the rows of its export
//! table.
//!
//! - `collector` of `turn`, `turn_noted`, `abandon`, `turns` and `of_events` is the headline: of
//!   the objects in the table and those that the event exports, exactly the needed ones are kept
//!   (`Collects`; see `history`).
//! - Each answer is the definition's, over the whole history (`step`).
//! - `turn` refuses only where a limit is passed, and there always, or with OutOfMemory. Then it
//!   leaves the space as it was (`step`, `err`).
//! - Every space that calls can reach has a legal history, and its rows are that history's table
//!   (`legal`, `rows` of `len`).
//! - `abandon` takes no memory and is never refused.
//! - `has_ended` is true exactly if a lease or a wait ends after the newest event and no later than
//!   the given moment (`ends`). If none does, a Tick at that moment changes nothing (`idle`).
//! - `has_untold` says whether an `abandon` withdrew objects that no turn has reported (`some`,
//!   `none`).
//! - A space that doesn't keep its events keeps no withdrawal that was reported: `kept_withdrawals`
//!   counts those that it keeps (`stored`, `erased`).
//!
//! # What is not
//!
//! That memory is really lacking where a call answers OutOfMemory: any call that may answer it may
//! do so at any time. How much memory a space takes: `bench/soak` measures it.
//!
//! # Stored or erased
//!
//! If the configuration says `stored`, events are kept, with a limit of 4,194,304 units. An event
//! counts 1 unit, and 1 more for each entry of its lists. Otherwise events exist in proofs alone,
//! with a limit of 2^61 units: at a million turns a second they last for 73,000 years. At most
//! 4,194,304 calls run at once. Each answer is the same. Only `outline` and `journal` need a stored
//! space. A space that keeps no events made 3,600,000 turns in 1.5 s and took 1,236 kB.
//!
//! # Choices
//!
//! - A running call can always be given up: the space keeps the room for it from the call's
//!   beginning on.
//! - A turn takes all its memory before it changes anything.
//! - Objects that an `abandon` withdraws are reported as gone by the next turn.
//!
//! # Cost
//!
//! A turn looks only at objects that may go. Those are the one whose call ends, those that a clean
//! call names, and the one that loses a name. Others are those whose references are acknowledged or
//! have waited their time, and what the event exports. No other can go, since every exported object
//! was needed after the last event. So a turn costs the same with 16 and with 65,536 objects: 0.16
//! to 0.46 microseconds of a processor (`bench/turns`). An `abandon` looks at every object if a
//! lease or wait may have ended.
#![tactic(auto)]

mod abandons;
mod acts;
pub mod asked;
mod asks;
mod calls;
mod doubts;
mod idle;
pub mod journal_text;
pub mod lists;
mod names;
mod noted;
mod prepared;
mod returns;
mod rooms;
mod runs;
mod tables;
pub mod texts;
mod told;
pub mod turns;
mod withdrawals;

pub use asked::{Asked, AskedEnd, AskedList};
pub use history::{Ask, Event, Refused, Reply, SpaceConfig, Turn};
pub use journal_text::{journal, summary};
pub use lists::{ObjectKind, Turns};
pub use object_ids::FullKind;
pub use texts::{outline, standing};
pub use turns::Space;
