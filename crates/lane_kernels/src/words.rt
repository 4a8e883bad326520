//! Signed numbers from bytes, the highest byte first.
ghost use Rattle.std.specs.Prelude.{◌≡◌, ◌*◌, ◌≤◌, length, take};
ghost use Rattle.std.specs.Int.{w32, w64};
ghost use Rattle.lane_kernels.specs.Kernels.{signed_words};

use std::simd::prelude::*;

/// The number of bytes that one step reads.
const LANES: usize = 16;
/// The number of numbers of 32 bits that one step reads.
const LANES32: usize = 4;
/// The number of numbers of 64 bits that one step reads.
const LANES64: usize = 2;

/// Reads a signed number of 32 bits from each four bytes, the highest byte first.
pub fn be_words32(bytes: &[u8], out: &mut [i32])
    requires { length bytes.now ≡ 4 * length out.old }
    ensures { out.new ≡ signed_words w32 (length out.old) bytes.now }
{
    let mut read = 0;
    while out.len() - read >= LANES32 {
        lanes32(&bytes[4 * read..]).copy_to_slice(&mut out[read..]);
        read += LANES32;
    }
    words32_from(bytes, out, read);
}

/// Returns the numbers of the first sixteen bytes.
#[inline(always)]
fn lanes32(bytes: &[u8]) -> i32x4
    requires { LANES ≤ length bytes.now }
    ensures { result ≡ signed_words w32 LANES32 bytes.now }
{
    let lanes = u8x16::from_slice(bytes);
    let lowest_first = lanes.swizzle([3, 2, 1, 0, 7, 6, 5, 4, 11, 10, 9, 8, 15, 14, 13, 12]);
    i32x4::from_le_bytes(lowest_first)
}

/// Reads the numbers from the index `from` on, where those before it were read.
fn words32_from(bytes: &[u8], out: &mut [i32], from: usize)
    requires bytes { length bytes.now ≡ 4 * length out.old }
    requires from { from ≤ length out.old }
    requires before { take from out.old ≡ signed_words w32 from bytes.now }
    ensures { out.new ≡ signed_words w32 (length out.old) bytes.now }
{
    for i in from..out.len() {
        let at = 4 * i;
        out[i] = i32::from_be_bytes([bytes[at], bytes[at + 1], bytes[at + 2], bytes[at + 3]]);
    }
}

/// Reads a signed number of 64 bits from each eight bytes, the highest byte first.
pub fn be_words64(bytes: &[u8], out: &mut [i64])
    requires { length bytes.now ≡ 8 * length out.old }
    ensures { out.new ≡ signed_words w64 (length out.old) bytes.now }
{
    let mut read = 0;
    while out.len() - read >= LANES64 {
        lanes64(&bytes[8 * read..]).copy_to_slice(&mut out[read..]);
        read += LANES64;
    }
    words64_from(bytes, out, read);
}

/// Returns the numbers of the first sixteen bytes.
#[inline(always)]
fn lanes64(bytes: &[u8]) -> i64x2
    requires { LANES ≤ length bytes.now }
    ensures { result ≡ signed_words w64 LANES64 bytes.now }
{
    let lanes = u8x16::from_slice(bytes);
    let lowest_first = lanes.swizzle([7, 6, 5, 4, 3, 2, 1, 0, 15, 14, 13, 12, 11, 10, 9, 8]);
    i64x2::from_le_bytes(lowest_first)
}

/// Reads the numbers from the index `from` on, where those before it were read.
fn words64_from(bytes: &[u8], out: &mut [i64], from: usize)
    requires bytes { length bytes.now ≡ 8 * length out.old }
    requires from { from ≤ length out.old }
    requires before { take from out.old ≡ signed_words w64 from bytes.now }
    ensures { out.new ≡ signed_words w64 (length out.old) bytes.now }
{
    for i in from..out.len() {
        let at = 8 * i;
        out[i] = i64::from_be_bytes([
            bytes[at],
            bytes[at + 1],
            bytes[at + 2],
            bytes[at + 3],
            bytes[at + 4],
            bytes[at + 5],
            bytes[at + 6],
            bytes[at + 7],
        ]);
    }
}
