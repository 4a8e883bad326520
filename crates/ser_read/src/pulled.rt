//! Bytes, numbers and texts from a Pull.
ghost use Rattle.std.specs.Prelude.{◌≡◌, ◌++◌, ◌^◌, ◌≤◌, true, length, OnOk};
ghost use Rattle.std.specs.Int.{w16, w32, w64};
ghost use Rattle.stream_grammar.specs.Reading.{byte_at, take_at, number_at, size_at, units_at, short_at, long_at};
ghost use Rattle.ser_read.specs.declared.fault.StreamFault.TheVariants.{Bad};
ghost use Rattle.ser_read.specs.declared.fault.StreamKind.TheVariants.{NegativeLength};
ghost use Rattle.ser_read.specs.Here.{ReadsTaken, StopsTaken};
ghost use Rattle.stream_grammar.specs.Faults.{AreBytes};
ghost use Rattle.ser_read.specs.declared.pulled.TheConstants.{FEW};

use crate::fault::{StreamFault, StreamKind};
use crate::spelled::text_of;
use mod_utf::decode::UtfFault;
use sequence::{ByteList, Units};
use std::alloc::{AllocError, Global};
use wire_io::pull::Pull;
use wire_io::source::Source;

/// The most bytes that are taken at once. A Pull makes room for as many at once, so a piece is not moved while it
/// grows.
const PIECE: u64 = 0x1000;

/// The most bytes of a text that count as few.
const FEW: u16 = 64;

/// The next byte.
pub(crate) fn byte<S: Source>(pull: &mut Pull<'_, S>) -> Result<u8, StreamFault>
    ensures lent { pull.new.source.ghost_name ≡ pull.old.source.ghost_name }
    ensures reads { ReadsTaken S.half pull.old pull.new result (λ end. byte_at)
        (λ x rest. (x, rest)) }
    ensures stops { StopsTaken S.half pull.old pull.new result (λ end. byte_at) }
{
    Ok(pull.byte()?)
}

/// Bytes are numbers of 8 bits.
fn see(bytes: &[u8])
    ensures { AreBytes bytes.now }
{
    for byte in bytes {
        let _seen = *byte;
    }
}

/// Takes the next bytes into the whole of `buf`.
#[inline(always)]
pub(crate) fn fill<S: Source>(pull: &mut Pull<'_, S>, buf: &mut [u8]) -> Result<(), StreamFault>
    ensures lent { pull.new.source.ghost_name ≡ pull.old.source.ghost_name }
    ensures reads { ReadsTaken S.half pull.old pull.new result (λ end. take_at (length buf.old))
        (λ x rest. (buf.new, rest)) }
    ensures stops { StopsTaken S.half pull.old pull.new result (λ end. take_at (length buf.old)) }
{
    pull.take_into(buf)?;
    see(buf);
    Ok(())
}

/// The next two bytes as a number, the highest first.
#[inline(always)]
pub(crate) fn two<S: Source>(pull: &mut Pull<'_, S>) -> Result<u16, StreamFault>
    ensures lent { pull.new.source.ghost_name ≡ pull.old.source.ghost_name }
    ensures reads { ReadsTaken S.half pull.old pull.new result (λ end. number_at w16)
        (λ x rest. (x, rest)) }
    ensures stops { StopsTaken S.half pull.old pull.new result (λ end. number_at w16) }
{
    let mut bytes = [0; 2];
    fill(pull, &mut bytes)?;
    Ok(u16::from_be_bytes(bytes))
}

/// The next four bytes as a number, the highest first.
#[inline(always)]
pub(crate) fn four<S: Source>(pull: &mut Pull<'_, S>) -> Result<u32, StreamFault>
    ensures lent { pull.new.source.ghost_name ≡ pull.old.source.ghost_name }
    ensures reads { ReadsTaken S.half pull.old pull.new result (λ end. number_at w32)
        (λ x rest. (x, rest)) }
    ensures stops { StopsTaken S.half pull.old pull.new result (λ end. number_at w32) }
{
    let mut bytes = [0; 4];
    fill(pull, &mut bytes)?;
    Ok(u32::from_be_bytes(bytes))
}

/// The next eight bytes as a number, the highest first.
#[inline(always)]
pub(crate) fn eight<S: Source>(pull: &mut Pull<'_, S>) -> Result<u64, StreamFault>
    ensures lent { pull.new.source.ghost_name ≡ pull.old.source.ghost_name }
    ensures reads { ReadsTaken S.half pull.old pull.new result (λ end. number_at w64)
        (λ x rest. (x, rest)) }
    ensures stops { StopsTaken S.half pull.old pull.new result (λ end. number_at w64) }
{
    let mut bytes = [0; 8];
    fill(pull, &mut bytes)?;
    Ok(u64::from_be_bytes(bytes))
}

/// A length or a count: below 2^31, or `NegativeLength` at its first byte.
#[tactic(auto, unfolding(stream_grammar::specs::Reading::size_at))]
pub(crate) fn count<S: Source>(pull: &mut Pull<'_, S>) -> Result<u32, StreamFault>
    ensures lent { pull.new.source.ghost_name ≡ pull.old.source.ghost_name }
    ensures reads { ReadsTaken S.half pull.old pull.new result (λ end. size_at end w32 (2 ^ 31))
        (λ x rest. (x, rest)) }
    ensures stops { StopsTaken S.half pull.old pull.new result (λ end. size_at end w32 (2 ^ 31)) }
{
    let at = pull.at;
    let count = four(pull)?;
    if count < 0x8000_0000 {
        Ok(count)
    } else {
        Err(negative_length(at))
    }
}

/// A long length: below 2^63, or `NegativeLength` at its first byte.
#[tactic(auto, unfolding(stream_grammar::specs::Reading::size_at))]
fn long_length<S: Source>(pull: &mut Pull<'_, S>) -> Result<u64, StreamFault>
    ensures lent { pull.new.source.ghost_name ≡ pull.old.source.ghost_name }
    ensures reads { ReadsTaken S.half pull.old pull.new result (λ end. size_at end w64 (2 ^ 63))
        (λ x rest. (x, rest)) }
    ensures stops { StopsTaken S.half pull.old pull.new result (λ end. size_at end w64 (2 ^ 63)) }
{
    let at = pull.at;
    let length = eight(pull)?;
    if length < 0x8000_0000_0000_0000 {
        Ok(length)
    } else {
        Err(negative_length(at))
    }
}

/// The fault of a length or a count that is too great to be signed.
pub(crate) fn negative_length(at: u64) -> StreamFault
    ensures { result ≡ Bad NegativeLength at }
{
    StreamFault::Bad {
        kind: StreamKind::NegativeLength,
        at,
    }
}

/// The next bytes, as one piece.
pub(crate) fn piece<S: Source>(
    alloc: Global,
    pull: &mut Pull<'_, S>,
    n: u32,
) -> Result<ByteList, StreamFault>
    ensures lent { pull.new.source.ghost_name ≡ pull.old.source.ghost_name }
    ensures reads { ReadsTaken S.half pull.old pull.new result (λ end. take_at n)
        (λ x rest. (x, rest)) }
    ensures stops { StopsTaken S.half pull.old pull.new result (λ end. take_at n) }
{
    let bytes = pull.take(alloc, n)?;
    see(bytes.as_slice());
    Ok(bytes)
}

/// Appends a piece. Where nothing stands there, the piece takes the list's place, and none of its bytes is copied.
pub(crate) fn add_piece(bytes: &mut ByteList, piece: ByteList) -> Result<(), AllocError>
    ensures { OnOk result (bytes.new ≡ bytes.old ++ piece) }
{
    if bytes.is_empty() {
        *bytes = piece;
        Ok(())
    } else {
        bytes.append(piece.as_slice())
    }
}

/// The next `n` bytes. They are taken piece by piece, so that memory grows with what was read and not with `n`.
pub(crate) fn take<S: Source>(
    alloc: Global,
    pull: &mut Pull<'_, S>,
    n: u64,
) -> Result<ByteList, StreamFault>
    ensures lent { pull.new.source.ghost_name ≡ pull.old.source.ghost_name }
    ensures reads { ReadsTaken S.half pull.old pull.new result (λ end. take_at n)
        (λ x rest. (x, rest)) }
    ensures stops { StopsTaken S.half pull.old pull.new result (λ end. take_at n) }
{
    let mut bytes = ByteList::new(alloc);
    let mut left = n;
    while left > 0 {
        let more = left.min(PIECE);
        let piece = piece(alloc, pull, more as u32)?;
        add_piece(&mut bytes, piece)?;
        left -= more;
    }
    Ok(bytes)
}

/// A text of so many bytes of modified UTF, which are all there before they are judged. `BadUtf` comes at the first byte of
/// the spelling that is none.
#[tactic(auto, unfolding(stream_grammar::specs::Reading::units_at))]
fn units<S: Source>(alloc: Global, pull: &mut Pull<'_, S>, n: u64) -> Result<Units, StreamFault>
    ensures lent { pull.new.source.ghost_name ≡ pull.old.source.ghost_name }
    ensures reads { ReadsTaken S.half pull.old pull.new result (λ end. units_at end n)
        (λ x rest. (x, rest)) }
    ensures stops { StopsTaken S.half pull.old pull.new result (λ end. units_at end n) }
{
    let start = pull.at;
    let bytes = take(alloc, pull, n)?;
    match text_of(alloc, bytes.as_slice()) {
        Ok(units) => Ok(units),
        Err(UtfFault::OutOfMemory) => Err(StreamFault::OutOfMemory),
        Err(UtfFault::BadUtf { at }) => Err(StreamFault::Bad {
            kind: StreamKind::BadUtf,
            at: start + at as u64,
        }),
    }
}

/// Returns whether so many bytes of a text are few.
fn is_few(n: u16) -> bool
    ensures { result ≡ true → n ≤ FEW }
{
    n <= FEW
}

/// A text of few bytes of modified UTF, as [`units`] reads it: its bytes need no memory of their own.
#[tactic(auto, unfolding(stream_grammar::specs::Reading::units_at))]
fn few_units<S: Source>(alloc: Global, pull: &mut Pull<'_, S>, n: u16) -> Result<Units, StreamFault>
    requires { n ≤ FEW }
    ensures lent { pull.new.source.ghost_name ≡ pull.old.source.ghost_name }
    ensures reads { ReadsTaken S.half pull.old pull.new result (λ end. units_at end n)
        (λ x rest. (x, rest)) }
    ensures stops { StopsTaken S.half pull.old pull.new result (λ end. units_at end n) }
{
    let start = pull.at;
    let mut buf = [0; FEW as usize];
    let bytes = &mut buf[..usize::from(n)];
    fill(pull, bytes)?;
    match text_of(alloc, bytes) {
        Ok(units) => Ok(units),
        Err(fault) => match fault {
            UtfFault::OutOfMemory => Err(StreamFault::OutOfMemory),
            UtfFault::BadUtf { at } => {
                let at = start + at as u64;
                Err(StreamFault::Bad {
                    kind: StreamKind::BadUtf,
                    at,
                })
            }
        },
    }
}

/// A text with a length of 16 bits.
#[tactic(auto, unfolding(stream_grammar::specs::Reading::short_at))]
pub(crate) fn short_text<S: Source>(
    alloc: Global,
    pull: &mut Pull<'_, S>,
) -> Result<Units, StreamFault>
    ensures lent { pull.new.source.ghost_name ≡ pull.old.source.ghost_name }
    ensures reads { ReadsTaken S.half pull.old pull.new result (λ end. short_at end)
        (λ x rest. (x, rest)) }
    ensures stops { StopsTaken S.half pull.old pull.new result (λ end. short_at end) }
{
    let n = two(pull)?;
    if is_few(n) {
        few_units(alloc, pull, n)
    } else {
        units(alloc, pull, u64::from(n))
    }
}

/// A text with a length of 64 bits.
#[tactic(auto, unfolding(stream_grammar::specs::Reading::long_at))]
pub(crate) fn long_text<S: Source>(
    alloc: Global,
    pull: &mut Pull<'_, S>,
) -> Result<Units, StreamFault>
    ensures lent { pull.new.source.ghost_name ≡ pull.old.source.ghost_name }
    ensures reads { ReadsTaken S.half pull.old pull.new result (λ end. long_at end)
        (λ x rest. (x, rest)) }
    ensures stops { StopsTaken S.half pull.old pull.new result (λ end. long_at end) }
{
    let n = long_length(pull)?;
    units(alloc, pull, n)
}
