// SPDX-License-Identifier: Apache-2.0 OR MIT
//! The model of a space: plain and slow functions for small histories. No product crate uses it.
//!
//! It computes from the list of events what the definitions of `history` say. Each function is
//! proved to be its definition. `test_judge` compares spaces, stored and erased, with it: 81,192
//! events of 5,812 random histories.
//!
//! A slice of places or of lease calls has the newest first, so what follows its first item is what
//! came before. A function that takes memory fails only for lack of memory.
#![tactic(auto)]

pub mod awaiting;
pub mod leases;
pub mod limits;
pub mod names;
pub mod places;
pub mod running;
pub mod same;
pub mod table;
pub mod turns;
