// SPDX-License-Identifier: Apache-2.0 OR MIT
//! Tests of the collector's crates over their public calls: identifiers, definitions, lease tables,
//! export tables, spaces and ports. Most are transcripts: a journal's lines, each with its answer.
#![tactic(auto)]

#[cfg(test)]
mod answers;
#[cfg(test)]
mod definitions;
#[cfg(test)]
mod ends;
#[cfg(test)]
mod export_rows;
#[cfg(test)]
mod identifiers;
#[cfg(test)]
mod lease_rows;
#[cfg(test)]
mod limits;
#[cfg(test)]
mod name_rows;
#[cfg(test)]
mod port_entries;
#[cfg(test)]
mod scripts;
#[cfg(test)]
mod spaces;
#[cfg(test)]
mod transcripts;
