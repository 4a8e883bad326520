// SPDX-License-Identifier: Apache-2.0 OR MIT
//! Searches and readings of many numbers at once, by vectors.
//!
//! `plain_run` counts the bytes from 01 to 7F at the front of a slice. `be_words32` and
//! `be_words64` read big-endian numbers. `first_due` finds the first deadline that has passed. No
//! function takes memory.
//!
//! # What is proved
//!
//! Each function equals its plain definition for every length (`ensures` of each; definitions in
//! `specs/`).
//!
//! # What is not
//!
//! That the compiler uses vectors. `test_lanes` compares the functions with plain loops.
#![tactic(auto)]

pub mod due;
mod first_set;
pub mod runs;
pub mod words;

pub use due::first_due;
pub use runs::{is_plain, plain_run};
pub use words::{be_words32, be_words64};
