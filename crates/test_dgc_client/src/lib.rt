// SPDX-License-Identifier: Apache-2.0 OR MIT
//! Tests of a client's table of references: transcripts of its calls with each answer, and the
//! limit of references.
#![tactic(auto)]

#[cfg(test)]
mod answers;
#[cfg(test)]
mod limit;
#[cfg(test)]
mod transcripts;
