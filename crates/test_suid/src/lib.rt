// SPDX-License-Identifier: Apache-2.0 OR MIT
//! Tests of class outlines byte for byte, of bad lines and limits, and of the numbers of Java's own
//! classes.
#![tactic(auto)]

#[cfg(test)]
mod descriptions;
#[cfg(test)]
mod rows;
