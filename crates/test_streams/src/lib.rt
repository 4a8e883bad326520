// SPDX-License-Identifier: Apache-2.0 OR MIT
//! Tests of the crates of streams, from units and lists to the text of a graph: readers, writers,
//! Java's own objects.
//!
//! A case is a line of text with what it must give. One loop runs all lines of its kind.
#![tactic(auto)]

#[cfg(test)]
mod class_tests;
#[cfg(test)]
mod graph_tests;
#[cfg(test)]
mod read_tests;
#[cfg(test)]
mod ref_tests;
#[cfg(test)]
mod script;
#[cfg(test)]
mod shape_tests;
#[cfg(test)]
mod text;
#[cfg(test)]
mod utf_tests;
