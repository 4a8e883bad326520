// SPDX-License-Identifier: Apache-2.0 OR MIT
//! Long histories for tests and measurements: a seed and a number of rounds decide the events.
//!
//! `rmi drill SEED N` prints the summary of the space that takes them, `rmi journal SEED N` its
//! journal. The journal begins with `space 600000 300000 0 0` and `0 0 open 2 pinned`. N rounds
//! follow.
//!
//! # A round
//!
//! A state of 64 bits begins as the seed. A draw multiplies it by 6364136223846793005, adds
//! 1442695040888963407 modulo 2^64, and gives the upper 31 bits. Round `i`, from 0, draws `a b c d
//! e`. The moment grows by 1 + `a` mod 5999. The client is the byte (`i` / 512 + `c` mod 2) mod 8
//! at `0/0/0`. The object is 17 if the drill has made none, else 16 + `made` - `d` mod min(8,
//! `made`). Connection 1 asks, by `b` mod 8:
//!
//! | | request |
//! |---|---|
//! | 0 | `begin 16`, then `finish 16 1 - 0/i/0`, which makes an object |
//! | 1 | `dirty CLIENT i 600000 OBJECT` |
//! | 2 | `clean CLIENT i weak OBJECT` |
//! | 3 | `clean CLIENT n strong OBJECT`, where `n` is `i` - `e` mod 4 |
//! | 4 | `dirty CLIENT i 600000 -` |
//! | 5 | `ack 0/n/0`, where `n` is `e` mod (`i` + 1) |
//! | 6 | `dirty CLIENT n 600000 OBJECT`, where `n` is `i` - `e` mod 16 |
//! | 7 | `tick` |
//!
//! # What is proved
//!
//! `drill` gives the space that takes all these events (`events`, `config`), or refuses because a
//! limit refuses one (`refused`).
#![tactic(auto)]

mod generator;
mod rounds;
mod running;

pub use rounds::{Drill, drill_config};
pub use running::drill;
