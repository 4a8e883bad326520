//! Identifiers that are drawn one after the other, none of them twice.
ghost use Rattle.std.specs.Prelude.{◌≡◌, ◌≢◌, ℕ, ◌+◌, ◌^◌, ◌<◌, ◌↔◌, pos, ◌≤ℤ◌, ◌<ℤ◌, IsNone, IfSome, OnSome, IfNone};
ghost use Rattle.object_ids.specs.Draw.{Draws, uid_drawn, moment_drawn};

use crate::ids::Uid;
use std::marker::Model;

/// Draws identifiers that are unique on this machine: 65,536 of one moment, then those of the next.
/// Contracts see it as `Draws`.
#[derive(Debug, Drop)]
pub struct UidDraw {
    unique: i32,
    time: i64,
    drawn: u128,
}

impl Model for UidDraw {
    ghost use Rattle.std.specs.Prelude.{pos, ◌≤ℤ◌, ◌<ℤ◌, ◌≤◌, ◌^◌};
    ghost use Rattle.object_ids.specs.Draw.{Draws};

    ghost Value = { Draws };

    ghost view = { λ d. record { unique = d.unique; time = d.time; drawn = d.drawn } };

    ghost invariant = { λ d. (pos 0 ≤ℤ d.time) × (d.time <ℤ pos (2 ^ 62)) × (d.drawn ≤ 2 ^ 78) };
}

/// The count of the first identifier of a moment.
const FIRST_COUNT: i32 = -32768;
/// The number of identifiers that a moment has.
const PER_MOMENT: u128 = 65536;
/// The moment at which drawing ends.
const END: i64 = 1 << 62;

impl UidDraw {
    /// Begins at a moment in milliseconds, with the number that tells this virtual machine from others.
    pub fn new(unique: i32, time: i64) -> UidDraw
        requires begun { pos 0 ≤ℤ time }
        requires before_end { time <ℤ pos (2 ^ 62) }
        ensures { result ≡ record { unique = unique; time = time; drawn = 0 } }
    {
        UidDraw {
            unique,
            time,
            drawn: 0,
        }
    }

    /// The next identifier. It is None exactly where the moment of the next has reached 2^62, and then
    /// it stays so.
    pub fn next(&mut self) -> Option<Uid>
        ensures ended { IsNone result
            ↔ (pos (2 ^ 62) ≤ℤ moment_drawn self.old.time self.old.drawn) }
        ensures value { IfSome result
            (λ uid. uid ≡ uid_drawn self.old.unique self.old.time self.old.drawn) }
        ensures fresh { IfSome result (λ uid. (k : ℕ) → k < self.old.drawn
            → uid_drawn self.old.unique self.old.time k ≢ uid) }
        ensures some { OnSome result (self.new ≡ record self.old { drawn = self.old.drawn + 1 }) }
        ensures none { IfNone result (self.new ≡ self.old) }
    {
        let time = self.time + (self.drawn / PER_MOMENT) as i64;
        if END <= time {
            return None;
        }
        let count = FIRST_COUNT + (self.drawn % PER_MOMENT) as i32;
        self.drawn += 1;
        Some(Uid {
            unique: self.unique,
            time,
            count: count as i16,
        })
    }
}
