// SPDX-License-Identifier: Apache-2.0 OR MIT
//! Tests of a client's sessions and commands, over links in memory.
//!
//! A case is a line of text: what is read or called, what the server sends, what the client sends,
//! and the answer or the end. One loop runs all lines. `src/faults.rt` looks that nothing is asked
//! of a half that failed.
#![tactic(auto)]

#[cfg(test)]
mod calls;
#[cfg(test)]
mod changes;
#[cfg(test)]
mod faults;
#[cfg(test)]
mod readings;
#[cfg(test)]
mod replies;
#[cfg(test)]
mod sessions;
#[cfg(test)]
mod shuts;
#[cfg(test)]
mod talks;
#[cfg(test)]
mod texts;
#[cfg(test)]
mod words;
