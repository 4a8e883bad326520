//! Units from bytes: modified UTF (Java Object Serialization Specification, 6.2).
ghost use Rattle.std.specs.Prelude.{◌≡◌, ◌++◌, ◌<◌, ◌≤◌, length, take, List, ℕ, OnOk, OnErr, IfOk, IfErr, IfSome};
ghost use Rattle.mod_utf.specs.Utf.{Utf};
ghost use Rattle.mod_utf.specs.Decoding.{front, two, three, decoded_units, IsUnread, GivesUnits, GivesMore};

use sequence::Units;
use std::alloc::Global;
use thiserror::Error;

/// The reason why bytes are not read as a text.
#[derive(Clone, Copy, Debug, PartialEq, Eq, Error)]
pub enum UtfFault {
    /// The bytes spell no text: from this place on, counted from 0, no unit is spelled, and those before it spell
    /// whole units.
    #[error("no text from byte {at} on")]
    BadUtf { at: usize },
    /// There was no memory.
    #[error("out of memory")]
    OutOfMemory,
}

/// The text that these bytes spell.
///
/// It is refused exactly where they spell none, with the place from where on no unit is spelled, and for want of memory.
#[tactic(auto, using(crate::proofs::Decoded::only_text))]
pub fn decode(alloc: Global, bytes: &[u8]) -> Result<Units, UtfFault>
    ensures ok { IfOk result (λ units. Utf units bytes.now) }
    ensures alone { IfOk result
        (λ units. (others : List ℕ) → Utf others bytes.now → others ≡ units) }
    ensures err { IfErr result (λ fault. IsUnread bytes.now fault) }
    ensures value { GivesUnits result (decoded_units bytes.now) }
{
    let mut units = Units::new(alloc);
    match decode_onto(&mut units, bytes) {
        Ok(()) => Ok(units),
        Err(fault) => Err(fault),
    }
}

/// Appends the text that these bytes spell. It is refused as `decode` is, and then the units are as they were.
pub fn decode_onto(units: &mut Units, bytes: &[u8]) -> Result<(), UtfFault>
    ensures ok { OnOk result
        ((text : List ℕ) × Utf text bytes.now × (units.new ≡ units.old ++ text)) }
    ensures err { IfErr result (λ fault. IsUnread bytes.now fault) }
    ensures unchanged { OnErr result (units.new ≡ units.old) }
    ensures value { GivesMore units.old units.new result (decoded_units bytes.now) }
{
    let before = units.len();
    match push_all(units, bytes) {
        Ok(()) => Ok(()),
        Err(fault) => {
            units.truncate(before);
            Err(fault)
        }
    }
}

/// Appends the units that these bytes spell, up to the place from where on they spell none.
fn push_all(units: &mut Units, bytes: &[u8]) -> Result<(), UtfFault>
    ensures ok { OnOk result
        ((text : List ℕ) × Utf text bytes.now × (units.new ≡ units.old ++ text)) }
    ensures err { IfErr result (λ fault. IsUnread bytes.now fault) }
    ensures kept { OnErr result (take (length units.old) units.new ≡ units.old) }
{
    let mut at = 0;
    while at < bytes.len() {
        match front(&bytes[at..]) {
            None => return Err(UtfFault::BadUtf { at }),
            Some((unit, taken)) => {
                if units.push(unit).is_err() {
                    return Err(UtfFault::OutOfMemory);
                }
                at += taken;
            }
        }
    }
    Ok(())
}

/// The unit at the front of these bytes, and how many bytes it takes.
#[tactic(auto, unfolding(crate::specs::Decoding::front))]
fn front(bytes: &[u8]) -> Option<(u16, usize)>
    ensures value { result ≡ front bytes.now }
    ensures within { IfSome result (λ x. (0 < x.1) × (x.1 ≤ length bytes.now)) }
{
    match bytes {
        [] => None,
        [first, rest @ ..] => {
            let first = *first;
            if 0 < first && first < 128 {
                Some((u16::from(first), 1))
            } else if 192 <= first && first < 224 {
                two(first, rest)
            } else if 224 <= first && first < 240 {
                three(first, rest)
            } else {
                None
            }
        }
    }
}

/// The unit that 110xxxxx and these bytes spell in two bytes.
fn two(first: u8, bytes: &[u8]) -> Option<(u16, usize)>
    requires { (192 ≤ first) × (first < 224) }
    ensures value { result ≡ two first bytes.now }
    ensures within { IfSome result (λ x. (x.1 ≡ 2) × (1 ≤ length bytes.now)) }
{
    match bytes {
        [] => None,
        [low, ..] => {
            let low = *low;
            if !(128 <= low && low < 192) {
                return None;
            }
            let unit = u16::from(first - 192) * 64 + u16::from(low - 128);
            if unit == 0 || 128 <= unit {
                Some((unit, 2))
            } else {
                None
            }
        }
    }
}

/// The unit that 1110xxxx and these bytes spell in three bytes.
fn three(first: u8, bytes: &[u8]) -> Option<(u16, usize)>
    requires { (224 ≤ first) × (first < 240) }
    ensures value { result ≡ three first bytes.now }
    ensures within { IfSome result (λ x. (x.1 ≡ 3) × (2 ≤ length bytes.now)) }
{
    match bytes {
        [] => None,
        [_] => None,
        [middle, low, ..] => {
            let middle = *middle;
            let low = *low;
            if !(128 <= middle && middle < 192) || !(128 <= low && low < 192) {
                return None;
            }
            let unit = u16::from(first - 224) * 4096
                + u16::from(middle - 128) * 64
                + u16::from(low - 128);
            if 2048 <= unit { Some((unit, 3)) } else { None }
        }
    }
}
