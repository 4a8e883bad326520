// SPDX-License-Identifier: Apache-2.0 OR MIT
//! Tests of the program: its words, commands, lines and statuses, over sources, sinks and links in
//! memory.
//!
//! A case is a row of a table with what it must give. One loop runs all rows of its kind.
#![tactic(auto)]

#[cfg(test)]
mod answers;
#[cfg(test)]
mod calls;
#[cfg(test)]
mod classes;
#[cfg(test)]
mod connections;
#[cfg(test)]
mod drills;
#[cfg(test)]
mod ends;
#[cfg(test)]
mod frames;
#[cfg(test)]
mod hands;
#[cfg(test)]
mod helps;
#[cfg(test)]
mod hosting;
#[cfg(test)]
mod hosts;
#[cfg(test)]
mod journals;
#[cfg(test)]
mod link_lines;
#[cfg(test)]
mod listens;
#[cfg(test)]
mod longest;
#[cfg(test)]
mod object_calls;
#[cfg(test)]
mod promptness;
#[cfg(test)]
mod recording;
#[cfg(test)]
mod replays;
#[cfg(test)]
mod served;
#[cfg(test)]
mod serves;
#[cfg(test)]
mod setups;
#[cfg(test)]
mod shows;
#[cfg(test)]
mod system_rows;
#[cfg(test)]
mod talks;
#[cfg(test)]
mod texts;
#[cfg(test)]
mod wires;
#[cfg(test)]
mod words;
#[cfg(test)]
mod worlds;
