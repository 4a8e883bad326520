// SPDX-License-Identifier: Apache-2.0 OR MIT
//! Tests of links in memory, and over TCP on this machine alone.
#![tactic(auto)]

#[cfg(test)]
use std::process::Abort;

#[cfg(test)]
mod memory;
#[cfg(test)]
mod tcp;

/// Stops where this does not hold, and says what it is.
#[cfg(test)]
fn must(rt: &impl Abort, holds: bool, what: &str) {
    assert!(rt; holds, "{what}");
}
