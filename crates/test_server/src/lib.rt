// SPDX-License-Identifier: Apache-2.0 OR MIT
//! Tests of the server with the sample's crew, all in memory: links that are served at once, one
//! after another, and many together; links and listeners that fail; 200 links whose history is
//! replayed; four recorded connections of Java 17.
#![tactic(auto)]

#[cfg(test)]
mod collecting;
#[cfg(test)]
mod defined;
#[cfg(test)]
mod full;
#[cfg(test)]
mod gates;
#[cfg(test)]
mod histories;
#[cfg(test)]
mod holding;
#[cfg(test)]
mod hosting;
#[cfg(test)]
mod many;
#[cfg(test)]
mod outlines;
#[cfg(test)]
mod promptly;
#[cfg(test)]
mod recorded;
#[cfg(test)]
mod recording;
#[cfg(test)]
mod replies;
#[cfg(test)]
mod rows;
#[cfg(test)]
mod servers;
#[cfg(test)]
mod telling;
#[cfg(test)]
mod texts;
