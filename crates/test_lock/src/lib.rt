// SPDX-License-Identifier: Apache-2.0 OR MIT
//! Tests of the turn lock: threads that take turns at one space, and its history afterwards.
#![tactic(auto)]

#[cfg(test)]
mod crews;
#[cfg(test)]
mod crowds;
#[cfg(test)]
mod journals;
#[cfg(test)]
mod quiet;
#[cfg(test)]
mod records;
#[cfg(test)]
mod turns;
