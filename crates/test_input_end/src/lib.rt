// SPDX-License-Identifier: Apache-2.0 OR MIT
//! Tests of inputs whose end is seen without a wait, and of listeners that stop there: in memory,
//! and over sockets on this machine alone.
#![tactic(auto)]

#[cfg(test)]
use std::process::Abort;

#[cfg(test)]
mod closes;
#[cfg(test)]
mod descriptors;
#[cfg(test)]
mod drains;
#[cfg(test)]
mod flags;
#[cfg(test)]
mod stops;

/// Stops where this does not hold, and says what it is.
#[cfg(test)]
fn must(rt: &impl Abort, holds: bool, what: &str) {
    assert!(rt; holds, "{what}");
}
