// SPDX-License-Identifier: Apache-2.0 OR MIT
//! The text of a journal: its first line, its events, and the lines of an outline.
//! `docs/JOURNAL.md` explains them.
//!
//! `read_first_line` and `read_event` read a line, `put_first_line` and `put_event_line` write one.
//! The `put_` functions of `outline` write what is exported.
//!
//! # What is proved
//!
//! - A line's event is found exactly where the line spells one (`ensures` of `read_event`).
//! - A line spells one event (`lines_spell_one_event`), and a journal one history
//!   (`journals_tell_one_history`).
//! - What is written of an event spells it (`event_texts_spell`), and so does a whole journal
//!   (`journal_texts_are_journals`).
//! - A journal has one first bad line at most (`first_bad_lines_are_alone`).
//!
//! # Choices
//!
//! An object of the space's own identifier may be written by its number alone or in the long form.
//! A character that may be written as itself in a name is not read as `\u` and digits. The last
//! line needs its line feed. A line costs some 2,980 instructions to replay.
#![tactic(auto)]

pub(crate) mod asks;
pub(crate) mod client;
pub(crate) mod fields;
pub(crate) mod hex;
pub(crate) mod ids;
pub(crate) mod items;
pub mod lines;
pub(crate) mod listed;
pub(crate) mod name;
pub(crate) mod number;
pub mod outline;
pub(crate) mod parts;
pub mod put;
pub mod text_laws;
pub(crate) mod unread;
pub mod write;

pub use lines::{read_event, read_first_line, split_line};
pub use number::{begins_plainly, read_below, read_duration, read_signed};
pub use outline::{ObjectRow, Word};
pub use write::{put_event_line, put_first_line};
