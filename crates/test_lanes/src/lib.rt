// SPDX-License-Identifier: Apache-2.0 OR MIT
//! Tests of the vector kernels against plain loops.
#![tactic(auto)]

#[cfg(test)]
mod rows;
