//! Names as words.
ghost use Rattle.std.specs.Prelude.{◌≡◌, ◌≢◌, ◌∷◌, ◌++◌, [], List, ℕ, MatchOption};
ghost use Rattle.history.specs.Texts.{is_plain_unit};
ghost use Rattle.journal.specs.Reading.{Finds, Reads};
ghost use Rattle.journal.specs.Units.{BeginsWithUnit, BeginsWithEscape, SpellsUnits};
ghost use Rattle.journal.specs.Grammar.{SpellsName};

use crate::fields::Field;
use crate::hex::first_byte;
use crate::unread::Unread;
use history::Name;
use history::limits::MAX_NAME_UNITS;
use object_ids::Uid;
use sequence::Units;
use std::alloc::Global;

/// The number of bytes in the escape of a unit.
const ESCAPE_LEN: usize = 6;

/// The first unit of a text, and how many bytes spell it.
#[derive(Drop)]
struct FirstUnit {
    unit: u16,
    len: usize,
}

/// Returns the bytes between quotation marks. It is None exactly where these are not the first and the last byte.
fn unquote(word: &[u8]) -> Option<&[u8]>
    ensures { MatchOption result ((inner : List ℕ) → word.now ≢ 34 ∷ (inner ++ 34 ∷ []))
        (λ inner. word.now ≡ 34 ∷ (inner.now ++ 34 ∷ [])) }
{
    let (first, rest) = word.split_first()?;
    let (last, inner) = rest.split_last()?;
    if *first == b'"' && *last == b'"' {
        Some(inner)
    } else {
        None
    }
}

/// Returns whether a unit is written as it is, without an escape.
pub(crate) fn is_plain(unit: u16) -> bool
    ensures { result ≡ is_plain_unit unit }
{
    0x21 <= unit && unit <= 0x7E && unit != 0x22 && unit != 0x5C
}

/// The unit whose escape stands first.
fn first_escape(text: &[u8]) -> Option<u16>
    ensures { Finds BeginsWithEscape result text.now }
{
    if text.len() < ESCAPE_LEN || text[0] != b'\\' || text[1] != b'u' {
        return None;
    }
    let high = first_byte(&text[2..])?;
    let low = first_byte(&text[4..])?;
    let unit = 256 * high as u16 + low as u16;
    if is_plain(unit) { None } else { Some(unit) }
}

/// The unit whose spelling stands first.
fn first_unit(text: &[u8]) -> Option<FirstUnit>
    ensures { Finds (λ p. BeginsWithUnit p.unit p.len) result text.now }
{
    if text.is_empty() {
        return None;
    }
    let unit = text[0] as u16;
    if is_plain(unit) {
        return Some(FirstUnit { unit, len: 1 });
    }
    Some(FirstUnit {
        unit: first_escape(text)?,
        len: ESCAPE_LEN,
    })
}

/// The units that a text spells, at most 255.
fn read_units(alloc: Global, text: &[u8]) -> Result<Units, Unread>
    ensures { Reads SpellsUnits result text.now }
{
    let mut units = Units::new(alloc);
    let mut rest = text;
    while !rest.is_empty() {
        if units.len() == MAX_NAME_UNITS {
            return Err(Unread::NotSpelled);
        }
        let Some(first) = first_unit(rest) else {
            return Err(Unread::NotSpelled);
        };
        units.push(first.unit)?;
        rest = &rest[first.len..];
    }
    Ok(units)
}

impl Field for Name {
    ghost spells = { λ _ name word. SpellsName name word };

    fn read(alloc: Global, _space: Uid, word: &[u8]) -> Result<Name, Unread> {
        let Some(inner) = unquote(word) else {
            return Err(Unread::NotSpelled);
        };
        let units = read_units(alloc, inner)?;
        match Name::new(units) {
            Ok(name) => Ok(name),
            Err(_too_long) => Err(Unread::NotSpelled),
        }
    }
}
