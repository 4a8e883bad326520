// SPDX-License-Identifier: Apache-2.0 OR MIT
//! Judges worlds by their definitions.
//!
//! It makes random worlds of up to 200 clients, the same in each run. It compares the answer to
//! each step, and what is printed after it, with plain functions over the lists of what was done.
//! Before that come worked rows and refusals.
#![tactic(auto)]

mod client;
mod draws;
mod judge;
mod plain;
mod refusals;
mod rows;
mod server;
mod steps;
mod text;

ghost use Rattle.std.specs.Prelude.{◌≤◌};
ghost use Rattle.history.specs.declared.limits.TheConstants.{MAX_DURATION_MS};

use crate::draws::Draws;
use crate::judge::{Beginning, Seen, judge_world};
use crate::plain::Plain;
use crate::refusals::first_other_answer;
use crate::rows::first_other_row;
use lease_world::WorldFault;
use std::alloc::Global;
use std::io;
use std::io::Write;

/// Kinds of worlds: the number of worlds, the random steps of each, and the numbers of clients, the greatest number being the last one.
const KINDS: [(u64, u64, u8, u8); 4] = [
    (2_000, 12, 3, 3),
    (600, 40, 4, 4),
    (120, 150, 6, 6),
    (12, 200, 1, 200),
];
/// The number of seeds for each kind.
const SEEDS: u64 = 1_000_000;
/// The longest lease and the longest time to acknowledge, in milliseconds.
const LONGEST_MS: u64 = 40;

/// Counts over some worlds.
#[derive(Clone, Copy)]
struct Counts {
    steps: u64,
    refused: u64,
    made: u64,
    withdrawn: u64,
    sent: u64,
    lost: u64,
    repeated: u64,
    good: u64,
    late: u64,
}

impl Counts {
    /// Nothing happened.
    fn new() -> Counts {
        Counts {
            steps: 0,
            refused: 0,
            made: 0,
            withdrawn: 0,
            sent: 0,
            lost: 0,
            repeated: 0,
            good: 0,
            late: 0,
        }
    }

    /// Adds what happened in a world.
    fn add(&mut self, seen: &Seen, plain: &Plain) {
        self.steps = self.steps.saturating_add(seen.taken);
        self.refused = self.refused.saturating_add(seen.refused);
        self.made = self.made.saturating_add(plain.server.return_count() as u64);
        self.withdrawn = self
            .withdrawn
            .saturating_add(plain.server.withdrawn.len() as u64);
        self.sent = self.sent.saturating_add(plain.sent_count() as u64);
        self.lost = self.lost.saturating_add(plain.lost_count() as u64);
        self.repeated = self.repeated.saturating_add(plain.tally.repeated);
        self.good = self.good.saturating_add(plain.tally.good);
        self.late = self.late.saturating_add(plain.tally.late);
    }

    /// Prints what happened in so many worlds.
    fn print<W: Write>(&self, out: &mut W, worlds: u64) -> io::Result<()> {
        let Counts {
            steps,
            refused,
            made,
            withdrawn,
            sent,
            lost,
            repeated,
            good,
            late,
        } = *self;
        write!(out, "worlds {worlds} steps {steps} refused {refused} ")?;
        write!(out, "objects {made} withdrawn {withdrawn} calls {sent} ")?;
        write!(out, "lost {lost} repeated {repeated} ")?;
        writeln!(out, "answers {good} late {late} agree")
    }
}

/// A random duration, in milliseconds.
fn duration(draws: &mut Draws) -> u64
    ensures some { 1 ≤ result }
    ensures short { result ≤ MAX_DURATION_MS }
{
    1 + draws.below(LONGEST_MS)
}

/// Judges one world after the other, of one seed after the other, and prints what happened in them, or the script of the first that differs from its
/// definitions. Whether there was none.
fn judge_kind<W: Write>(
    alloc: Global,
    out: &mut W,
    first_seed: u64,
    kind: (u64, u64, u8, u8),
) -> Result<bool, WorldFault> {
    let (worlds, steps, numbers, most) = kind;
    let mut counts = Counts::new();
    for k in 0..worlds {
        let mut draws = Draws::new(first_seed.saturating_add(k));
        let begins = Beginning {
            lease_ms: duration(&mut draws),
            ack_ms: duration(&mut draws),
            clients: most.saturating_sub(draws.any_below(usize::from(numbers)).min(255) as u8),
        };
        let mut plain = Plain::new(alloc, begins.lease_ms, begins.ack_ms, begins.clients)?;
        let seen = judge_world(alloc, &mut draws, begins, &mut plain, steps)?;
        counts.add(&seen, &plain);
        if let Some(script) = seen.differs {
            let _ = out.write_all(script.as_bytes());
            return Ok(false);
        }
    }
    Ok(counts.print(out, worlds).is_ok())
}

/// Judges the worlds of one kind after the other, up to the first that differs from its definitions.
fn judge_all<W: Write>(alloc: Global, out: &mut W) -> Result<(), WorldFault> {
    for (k, kind) in KINDS.iter().enumerate() {
        let first_seed = SEEDS.saturating_mul(k as u64);
        if !judge_kind(alloc, out, first_seed, *kind)? {
            return Ok(());
        }
    }
    Ok(())
}

fn main(rt: HostRuntime) -> io::Result<()> {
    let mut out = rt.stdout();
    match first_other_row(rt.alloc())? {
        Some(row) => writeln!(out, "another end of {row}")?,
        None => writeln!(out, "rows agree")?,
    }
    match first_other_answer(rt.alloc()) {
        Ok(Some(line)) => writeln!(out, "other answers to {line}")?,
        Ok(None) => writeln!(out, "refusals agree")?,
        Err(fault) => writeln!(out, "{fault:?}")?,
    }
    match judge_all(rt.alloc(), &mut out) {
        Ok(()) => Ok(()),
        Err(fault) => writeln!(out, "{fault:?}"),
    }
}
