//! Bytes and numbers from text.
ghost use Rattle.std.specs.Prelude.{◌<◌, IfSome};

use sequence::{ByteList, Kinds, MomentList};
use std::alloc::{AllocError, Global};

/// Returns the text before the separator and the text after it, each without blanks around it.
pub fn cut(text: &str, separator: char) -> (&str, &str) {
    let (front, rest) = text.split_once(separator).unwrap_or((text, ""));
    (front.trim(), rest.trim())
}

/// The value of a hexadecimal digit in capitals.
pub fn digit_of(character: u8) -> Option<u8>
    ensures { IfSome result (λ digit. digit < 16) }
{
    match character {
        b'0'..=b'9' => Some(character - b'0'),
        b'A'..=b'F' => Some(character - b'A' + 10),
        _ => None,
    }
}

/// Appends the bytes that hexadecimal digits spell, two for each. Any other character counts for nothing.
pub fn put_digits(bytes: &mut ByteList, digits: &str) -> Result<(), AllocError> {
    let mut half = None;
    for character in digits.as_bytes() {
        match (half, digit_of(*character)) {
            (None, low) => half = low,
            (Some(high), Some(low)) => {
                bytes.push((high << 4) | low)?;
                half = None;
            }
            (Some(_), None) => {}
        }
    }
    Ok(())
}

/// Returns the meaning of a word in a table. Each line of the table has a name, a blank and the name's meaning. A word
/// that is no name is returned itself.
pub fn meaning_of<'t>(table: &'t str, word: &'t str) -> &'t str {
    for line in table.split('\n') {
        let (name, meaning) = cut(line, ' ');
        if name == word {
            return meaning;
        }
    }
    word
}

/// The numbers that words spell, where each spells one and there is memory.
pub fn numbers_of(alloc: Global, words: &str) -> Option<Kinds> {
    let mut numbers = Kinds::new(alloc);
    if !words.is_empty() {
        for word in words.split(' ') {
            numbers.push(word.parse::<u32>().ok()?).ok()?;
        }
    }
    Some(numbers)
}

/// The moments that words spell, where each spells one below 2^32 and there is memory.
pub fn moments_of(alloc: Global, words: &str) -> Option<MomentList> {
    let mut moments = MomentList::new(alloc);
    if !words.is_empty() {
        for word in words.split(' ') {
            moments.push(u64::from(word.parse::<u32>().ok()?)).ok()?;
        }
    }
    Some(moments)
}
