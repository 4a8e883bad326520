//! Decimal numbers without needless zeros or signs.
ghost use Rattle.std.specs.Prelude.{◌≡◌, ◌≢◌, ◌↔◌, ◌^◌, ◌≤◌, IsTrue, MatchOption, length, slice_index};
ghost use Rattle.std.specs.Str.Parse.{AllDigits, digits_value};
ghost use Rattle.std.specs.Int.{w16, w32, w64};
ghost use Rattle.journal.specs.Reading.{Finds};
ghost use Rattle.journal.specs.Numbers.{BeginsPlainly};
ghost use Rattle.journal.specs.Grammar.{SpellsBelow, SpellsSigned, SpellsNumber, SpellsMoment, SpellsDuration};

use crate::fields::Field;
use crate::unread::Unread;
use history::limits::{END_OF_TIME, MAX_DURATION_MS};
use object_ids::Uid;
use std::alloc::Global;

/// The most digits of a number that is read: it is below 10^19, so that 64 bits hold it.
const MAX_DIGITS: usize = 19;

/// Returns whether there is a first byte that is no plus sign, and no zero before further bytes.
pub fn begins_plainly(word: &[u8]) -> bool
    ensures { IsTrue result ↔ BeginsPlainly word.now }
{
    !word.is_empty() && word[0] != b'+' && (word[0] != b'0' || word.len() == 1)
}

/// The number that at most 19 digits write, the first one the highest; None where a byte is no digit.
fn value_of(digits: &[u8]) -> Option<u64>
    requires { length digits.now ≤ 19 }
    ensures { MatchOption result (¬ AllDigits 10 digits.now)
        (λ n. AllDigits 10 digits.now × (n ≡ digits_value 10 digits.now)) }
{
    let mut n: u64 = 0;
    for byte in digits {
        if !byte.is_ascii_digit() {
            return None;
        }
        n = 10 * n + u64::from(*byte - b'0');
    }
    Some(n)
}

/// The number below 10^19 that a word spells.
fn read_unsigned(word: &[u8]) -> Option<u64>
    ensures { Finds (SpellsBelow (10 ^ 19)) result word.now }
{
    if word.len() > MAX_DIGITS {
        return None;
    }
    if !begins_plainly(word) {
        return None;
    }
    value_of(word)
}

/// Returns whether the first byte is a minus sign.
fn is_negative(word: &[u8]) -> bool
    ensures { IsTrue result ↔ (slice_index word.now 0 ≡ 45) }
{
    !word.is_empty() && word[0] == b'-'
}

/// The number of 64 bits, with a sign, that a word spells.
pub fn read_signed(word: &[u8]) -> Option<i64>
    ensures { Finds (SpellsSigned w64) result word.now }
{
    if is_negative(word) {
        read_negative(word)
    } else {
        read_positive(word)
    }
}

/// The number below 0 that a word with a minus sign spells.
fn read_negative(word: &[u8]) -> Option<i64>
    requires { slice_index word.now 0 ≡ 45 }
    ensures { Finds (SpellsSigned w64) result word.now }
{
    let (_minus, digits) = word.split_first()?;
    let amount = read_unsigned(digits)?;
    if amount == 0 {
        return None;
    }
    let less = amount - 1;
    if less >= 1 << 63 {
        return None;
    }
    Some(-1 - less as i64)
}

/// The number from 0 on that a word without a minus sign spells.
fn read_positive(word: &[u8]) -> Option<i64>
    requires { slice_index word.now 0 ≢ 45 }
    ensures { Finds (SpellsSigned w64) result word.now }
{
    let amount = read_unsigned(word)?;
    if amount >= 1 << 63 {
        return None;
    }
    Some(amount as i64)
}

/// The number of 32 bits, with a sign, that a word spells.
pub(crate) fn read_signed_32(word: &[u8]) -> Option<i32>
    ensures { Finds (SpellsSigned w32) result word.now }
{
    match i32::try_from(read_signed(word)?) {
        Ok(n) => Some(n),
        Err(_) => None,
    }
}

/// The number of 16 bits, with a sign, that a word spells.
fn read_signed_16(word: &[u8]) -> Option<i16>
    ensures { Finds (SpellsSigned w16) result word.now }
{
    match i16::try_from(read_signed(word)?) {
        Ok(n) => Some(n),
        Err(_) => None,
    }
}

/// The number below a limit, which is at most 10^19, that a word spells.
pub fn read_below(limit: u64, word: &[u8]) -> Option<u64>
    requires { limit ≤ 10 ^ 19 }
    ensures { Finds (SpellsBelow limit) result word.now }
{
    let n = read_unsigned(word)?;
    if n < limit { Some(n) } else { None }
}

/// The duration of a configuration that a word spells, from 1 to 2^40 milliseconds.
pub fn read_duration(word: &[u8]) -> Option<u64>
    ensures { Finds SpellsDuration result word.now }
{
    let n = read_below(MAX_DURATION_MS + 1, word)?;
    if n == 0 { None } else { Some(n) }
}

/// A moment of an event, in milliseconds, below 2^62.
#[derive(Drop)]
pub(crate) struct Moment(pub u64);

impl Field for u32 {
    ghost spells = { λ _ n word. SpellsNumber n word };

    fn read(_alloc: Global, _space: Uid, word: &[u8]) -> Result<u32, Unread> {
        match read_below(1 << 32, word) {
            Some(n) => Ok(n as u32),
            None => Err(Unread::NotSpelled),
        }
    }
}

impl Field for Moment {
    ghost spells = { λ _ n word. SpellsMoment n.0 word };

    fn read(_alloc: Global, _space: Uid, word: &[u8]) -> Result<Moment, Unread> {
        match read_below(END_OF_TIME, word) {
            Some(n) => Ok(Moment(n)),
            None => Err(Unread::NotSpelled),
        }
    }
}

impl Field for i16 {
    ghost spells = { λ _ n word. SpellsSigned w16 n word };

    fn read(_alloc: Global, _space: Uid, word: &[u8]) -> Result<i16, Unread> {
        read_signed_16(word).ok_or(Unread::NotSpelled)
    }
}

impl Field for i32 {
    ghost spells = { λ _ n word. SpellsSigned w32 n word };

    fn read(_alloc: Global, _space: Uid, word: &[u8]) -> Result<i32, Unread> {
        read_signed_32(word).ok_or(Unread::NotSpelled)
    }
}

impl Field for i64 {
    ghost spells = { λ _ n word. SpellsSigned w64 n word };

    fn read(_alloc: Global, _space: Uid, word: &[u8]) -> Result<i64, Unread> {
        read_signed(word).ok_or(Unread::NotSpelled)
    }
}
