//! Runs of plain bytes.
ghost use Rattle.std.specs.Prelude.{◌≡◌, ◌+◌, ◌≤◌, length};
ghost use Rattle.std.specs.List.{prefix_len};
ghost use Rattle.std.specs.Simd.Lanes.{chunk};
ghost use Rattle.lane_kernels.specs.Kernels.{is_plain};

use crate::first_set::first_set;
use std::simd::prelude::*;

/// The number of bytes that one step looks at.
const LANES: usize = 32;

/// Returns how many bytes at the front are from 01 to 7F, up to the first that is not.
pub fn plain_run(bytes: &[u8]) -> usize
    ensures { result ≡ prefix_len is_plain bytes.now }
{
    let mut at = 0;
    while bytes.len() - at >= LANES {
        let run = run_in_lanes(bytes, at);
        if run < LANES {
            return at + run;
        }
        at += LANES;
    }
    run_from(bytes, at)
}

/// Returns how many of the `LANES` bytes from `at` on are plain, up to the first that is not.
#[inline(always)]
fn run_in_lanes(bytes: &[u8], at: usize) -> usize
    requires { at + LANES ≤ length bytes.now }
    ensures { result ≡ prefix_len is_plain (chunk at LANES bytes.now) }
{
    let lanes = u8x32::from_slice(&bytes[at..]);
    let stops = lanes.simd_eq(u8x32::splat(0)) | lanes.simd_ge(u8x32::splat(0x80));
    first_set(stops.to_bitmask(), LANES)
}

/// Returns the same as [`plain_run`], where the bytes before `from` are plain. It looks at one byte after the other.
fn run_from(bytes: &[u8], from: usize) -> usize
    requires { from ≤ prefix_len is_plain bytes.now }
    ensures { result ≡ prefix_len is_plain bytes.now }
{
    for i in from..bytes.len() {
        if !is_plain(bytes[i]) {
            return i;
        }
    }
    bytes.len()
}

/// Returns whether a byte is from 01 to 7F.
pub fn is_plain(byte: u8) -> bool
    ensures { result ≡ is_plain byte }
{
    1 <= byte && byte <= 0x7F
}
