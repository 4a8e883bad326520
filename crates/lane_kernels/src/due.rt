//! Deadlines that have passed.
ghost use Rattle.std.specs.Prelude.{◌≡◌, ◌+◌, ◌≤◌, length, not};
ghost use Rattle.std.specs.List.{position, prefix_len};
ghost use Rattle.std.specs.Simd.Lanes.{chunk};
ghost use Rattle.lane_kernels.specs.Kernels.{is_due};

use crate::first_set::first_set;
use std::simd::prelude::*;

/// The number of deadlines that one step looks at.
const LANES: usize = 8;

/// Returns the index of the first deadline that is at most `now`, or None where all are later.
pub fn first_due(deadlines: &[u64], now: u64) -> Option<usize>
    ensures { result ≡ position (is_due now) deadlines.now }
{
    let later = later_run(deadlines, now);
    if later < deadlines.len() {
        Some(later)
    } else {
        None
    }
}

/// Returns how many deadlines at the front are later than `now`.
fn later_run(deadlines: &[u64], now: u64) -> usize
    ensures { result ≡ prefix_len (λ end. not (is_due now end)) deadlines.now }
{
    let mut at = 0;
    while deadlines.len() - at >= LANES {
        let run = later_in_lanes(deadlines, at, now);
        if run < LANES {
            return at + run;
        }
        at += LANES;
    }
    later_from(deadlines, at, now)
}

/// Returns how many of the `LANES` deadlines from `at` on are later than `now`, up to the first that is not.
#[inline(always)]
fn later_in_lanes(deadlines: &[u64], at: usize, now: u64) -> usize
    requires { at + LANES ≤ length deadlines.now }
    ensures { result ≡ prefix_len (λ end. not (is_due now end)) (chunk at LANES deadlines.now) }
{
    let due = u64x8::from_slice(&deadlines[at..]).simd_le(u64x8::splat(now));
    first_set(due.to_bitmask(), LANES)
}

/// Returns the same as [`later_run`], where the deadlines before `from` are later. It looks at one after the other.
fn later_from(deadlines: &[u64], from: usize, now: u64) -> usize
    requires { from ≤ prefix_len (λ end. not (is_due now end)) deadlines.now }
    ensures { result ≡ prefix_len (λ end. not (is_due now end)) deadlines.now }
{
    for i in from..deadlines.len() {
        if deadlines[i] <= now {
            return i;
        }
    }
    deadlines.len()
}
