// SPDX-License-Identifier: Apache-2.0 OR MIT
//! Judges spaces by the definitions of histories.
//!
//! It makes random histories, the same in each run. It compares each answer of a space, and the
//! outline at the end, with what the functions of `history_model` compute from the list of events.
//! For long histories a course keeps the places and the table from event to event.
#![tactic(auto)]

mod course;
mod defined;
mod draws;
mod histories;
mod judge;
mod listed;

ghost use Rattle.std.specs.Prelude.{◌≤◌};
ghost use Rattle.history.specs.declared.limits.TheConstants.{MAX_DURATION_MS};

use crate::course::Course;
use crate::draws::Draws;
use crate::judge::{Verdict, judge_course, judge_plainly};
use history::{Event, SpaceConfig};
use history_model::places::exported_count;
use journal::{put_event_line, put_first_line};
use sequence::ByteList;
use std::alloc::{AllocError, Global};
use std::io;
use std::io::Write;

/// Rows of histories: their number, the fewest random events of each, and the number of numbers of random events.
const ROWS: [(u64, u64, u64); 6] = [
    (4_000, 3, 4),
    (1_000, 7, 13),
    (300, 20, 14),
    (300, 34, 14),
    (200, 48, 13),
    (12, 150, 11),
];
/// The number of seeds for each row.
const SEEDS: u64 = 1_000_000;
/// The model goes through the whole of a history of fewer random events than these.
const SHORT: u64 = 7;

/// The journal of some events.
fn journal(alloc: Global, config: &SpaceConfig, events: &[Event]) -> Result<ByteList, AllocError> {
    let mut text = ByteList::new(alloc);
    put_first_line(&mut text, config)?;
    for event in events {
        put_event_line(&mut text, config.uid, event)?;
    }
    Ok(text)
}

/// Prints a history of which the space and the definitions say other things, up to the event that they answer otherwise.
fn show<W: Write>(
    alloc: Global,
    out: &mut W,
    config: &SpaceConfig,
    events: &[Event],
    verdict: &Verdict,
) -> io::Result<()> {
    let taken = match verdict {
        Verdict::Answer(place) => {
            writeln!(out, "another answer to the last event of")?;
            place.saturating_add(1)
        }
        Verdict::List => {
            writeln!(out, "other answers to the whole list of")?;
            events.len()
        }
        _ => {
            writeln!(out, "another outline of")?;
            events.len()
        }
    };
    let shown = events.get(..taken).unwrap_or(events);
    out.write_all(journal(alloc, config, shown)?.as_slice())
}

/// The counts of events and objects in some histories.
#[derive(Clone, Copy, Debug)]
struct Counts {
    events: u64,
    without_effect: u64,
    exported: u64,
    withdrawn: u64,
    told_later: u64,
}

impl Counts {
    /// Nothing happened.
    fn new() -> Counts {
        Counts {
            events: 0,
            without_effect: 0,
            exported: 0,
            withdrawn: 0,
            told_later: 0,
        }
    }

    /// Adds what happened in a course.
    fn add(&mut self, alloc: Global, course: &Course) -> Result<(), AllocError> {
        let exported = exported_count(alloc, course.places.as_slice())?;
        let left = course.table.len() as u64;
        let idle = course.places.iter().filter(|p| !p.effective).count() as u64;
        self.events = self.events.saturating_add(course.places.len() as u64);
        self.without_effect = self.without_effect.saturating_add(idle);
        self.exported = self.exported.saturating_add(exported);
        self.withdrawn = self.withdrawn.saturating_add(exported.saturating_sub(left));
        self.told_later = self.told_later.saturating_add(course.told_later);
        Ok(())
    }

    /// Prints what happened in so many histories.
    fn print<W: Write>(&self, out: &mut W, histories: u64) -> io::Result<()> {
        let Counts {
            events,
            without_effect,
            exported,
            withdrawn,
            told_later,
        } = *self;
        write!(
            out,
            "histories {histories} events {events} without effect {without_effect} "
        )?;
        writeln!(
            out,
            "objects {exported} withdrawn {withdrawn} told later {told_later} agree"
        )
    }
}

/// Judges a space of this configuration by a course of so many random events.
fn judge_history(
    alloc: Global,
    config: &SpaceConfig,
    course: &Course,
    length: u64,
) -> Result<Verdict, AllocError>
    requires lease { (1 ≤ config.now.lease_ms) × (config.now.lease_ms ≤ MAX_DURATION_MS) }
    requires ack { (1 ≤ config.now.ack_ms) × (config.now.ack_ms ≤ MAX_DURATION_MS) }
{
    if length < SHORT {
        match judge_plainly(alloc, config, course.events.as_slice())? {
            Verdict::Agree => {}
            verdict => return Ok(verdict),
        }
    }
    judge_course(alloc, config, course)
}

/// Returns the number of random events of a history.
fn drawn_length(draws: &mut Draws, fewest: u64, lengths: u64) -> u64 {
    if lengths == 0 {
        return fewest;
    }
    fewest.saturating_add(draws.below(lengths))
}

/// Judges so many histories, of one seed after the other, and prints what happened in them, or the first where a space and the definitions say other
/// things. Returns whether there was none.
fn judge_row<W: Write>(
    alloc: Global,
    out: &mut W,
    first_seed: u64,
    row: (u64, u64, u64),
) -> io::Result<bool> {
    let (histories, fewest, lengths) = row;
    let mut counts = Counts::new();
    for k in 0..histories {
        let mut draws = Draws::new(first_seed.saturating_add(k));
        let config = histories::configuration(&mut draws);
        let length = drawn_length(&mut draws, fewest, lengths);
        let course = histories::course(alloc, &config, &mut draws, length)?;
        match judge_history(alloc, &config, &course, length)? {
            Verdict::Agree => counts.add(alloc, &course)?,
            verdict => {
                show(alloc, out, &config, course.events.as_slice(), &verdict)?;
                return Ok(false);
            }
        }
    }
    counts.print(out, histories)?;
    Ok(true)
}

/// Judges the histories of one row after the other, up to the first where a space and the definitions say other things.
fn judge_all<W: Write>(alloc: Global, out: &mut W) -> io::Result<()> {
    for (k, row) in ROWS.iter().enumerate() {
        let first_seed = SEEDS.saturating_mul(k as u64);
        if !judge_row(alloc, out, first_seed, *row)? {
            return Ok(());
        }
    }
    Ok(())
}

fn main(rt: HostRuntime) -> io::Result<()> {
    judge_all(rt.alloc(), &mut rt.stdout())
}
