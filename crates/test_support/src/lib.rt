// SPDX-License-Identifier: Apache-2.0 OR MIT
//! Helpers of several test crates: the space that they test, and bytes and numbers from text.
#![tactic(auto)]

pub mod spaces;
pub mod texts;
