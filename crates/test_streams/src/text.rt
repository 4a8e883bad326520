//! Readers of the tests' lines.
use class_desc::Slot;
use mod_utf::utf::units_of_ascii;
use sequence::{ByteList, Sequence, Units};
use std::alloc::{AllocError, Global};
use std::process::Abort;
use test_support::texts::{digit_of, put_digits};

/// The message where a test finds no memory.
pub const MEMORY: &str = "memory";

/// Stops where this does not hold, and says what it is.
pub fn must(rt: &impl Abort, holds: bool, what: &str) {
    assert!(rt; holds, "{what}");
}

/// Returns the text before the first mark, and the text after it. Where the mark is missing, they are the whole text
/// and nothing.
pub fn cut(text: &str, mark: char) -> (&str, &str) {
    text.split_once(mark).unwrap_or((text, ""))
}

/// Appends a text's length in 16 bits, and its bytes.
fn put_text(bytes: &mut ByteList, text: &[u8]) -> Result<(), AllocError> {
    let length = u16::try_from(text.len()).unwrap_or(0);
    bytes.append(&length.to_be_bytes())?;
    bytes.append(text)
}

/// Appends the bytes of a notation: hex digits, two for each; a text in quotes is its length in 16 bits and its bytes.
fn put_bytes(bytes: &mut ByteList, notation: &str) -> Result<(), AllocError> {
    for (place, piece) in notation.split('\'').enumerate() {
        if place % 2 == 1 {
            put_text(bytes, piece.as_bytes())?;
        } else {
            put_digits(bytes, piece)?;
        }
    }
    Ok(())
}

/// Appends so many times what a notation names.
fn put_group(
    alloc: Global,
    bytes: &mut ByteList,
    notation: &str,
    count: u64,
) -> Result<(), AllocError> {
    let mut group = ByteList::new(alloc);
    put_bytes(&mut group, notation)?;
    for _ in 0..count {
        bytes.append(group.as_slice())?;
    }
    Ok(())
}

/// The bytes of a notation, in which `(3 * 70)` once stands for `70 70 70`.
pub fn bytes_of(alloc: Global, notation: &str) -> Result<ByteList, AllocError> {
    let (front, rest) = cut(notation, '(');
    let (group, back) = cut(rest, ')');
    let (count, group) = cut(group, '*');
    let mut bytes = ByteList::new(alloc);
    put_bytes(&mut bytes, front)?;
    put_group(alloc, &mut bytes, group, decimal(count))?;
    put_bytes(&mut bytes, back)?;
    Ok(bytes)
}

/// The units that hex digits spell, with spaces between them.
pub fn units_of(alloc: Global, words: &str) -> Result<Units, AllocError> {
    let mut units = Units::new(alloc);
    for word in words.split(' ') {
        if !word.is_empty() {
            let [.., high, low] = number_of(word.as_bytes()).to_be_bytes();
            units.push(u16::from_be_bytes([high, low]))?;
        }
    }
    Ok(units)
}

/// The text of these ASCII characters.
pub fn ascii(alloc: Global, text: &str) -> Result<Units, AllocError> {
    units_of_ascii(alloc, text.as_bytes())
}

/// Returns whether a text has these ASCII characters.
pub fn is_text(units: &Units, text: &str) -> bool {
    units.len() == text.len()
        && units
            .iter()
            .zip(text.as_bytes())
            .all(|(unit, byte)| *unit == u16::from(*byte))
}

/// The number that hex digits spell.
pub fn number_of(digits: &[u8]) -> u64 {
    let mut number: u64 = 0;
    for character in digits {
        if let Some(digit) = digit_of(*character) {
            number = (number << 4) | u64::from(digit);
        }
    }
    number
}

/// The number that decimal digits spell, below 2^64. Any other character counts for nothing.
pub fn decimal(digits: &str) -> u64 {
    let mut number: u64 = 0;
    for character in digits.as_bytes() {
        if let Some(digit) = digit_of(*character) {
            number = number.wrapping_mul(10).wrapping_add(u64::from(digit));
        }
    }
    number
}

/// The reference that is written `#` and a node's number, or `null`.
pub fn slot_of(word: &str) -> Slot {
    match word.trim().split_once('#') {
        Some((_, number)) => Slot::Node(u32::try_from(decimal(number)).unwrap_or(u32::MAX)),
        None => Slot::Null,
    }
}

/// The list of so many equal items.
pub fn repeated<T: Copy + Drop>(
    alloc: Global,
    item: T,
    count: u64,
) -> Result<Sequence<T>, AllocError> {
    Ok(Sequence::from_vec(vec![in alloc; item; count as usize]?))
}
