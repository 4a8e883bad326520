// SPDX-License-Identifier: Apache-2.0 OR MIT
//! Tests of served calls: method texts and their hashes, messages, connections over a port and a
//! recording worker, listeners.
//!
//! A case is a line of text with what it must give. One loop runs all lines of its kind. 61 hashes
//! are Java's.
#![tactic(auto)]

#[cfg(test)]
mod cut_tests;
#[cfg(test)]
mod listener_tests;
#[cfg(test)]
mod message_tests;
#[cfg(test)]
mod method_tests;
#[cfg(test)]
mod remote_rows;
#[cfg(test)]
mod return_tests;
#[cfg(test)]
mod seen;
#[cfg(test)]
mod served_tests;
#[cfg(test)]
mod spaces;
#[cfg(test)]
mod system_rows;
#[cfg(test)]
mod texts;
#[cfg(test)]
mod turn_tests;
