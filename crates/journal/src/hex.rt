//! Bytes as hexadecimal digits in lower case.
ghost use Rattle.journal.specs.Reading.{Finds, Reads};
ghost use Rattle.journal.specs.Hex.{IsHexDigit, BeginsWithByte, SpellsBytes};

use crate::unread::Unread;
use sequence::ByteList;
use std::alloc::Global;

/// The value of a hexadecimal digit, from 0 to 15.
fn hex_digit(byte: u8) -> Option<u8>
    ensures { Finds IsHexDigit result byte }
{
    match byte {
        b'0'..=b'9' => Some(byte - b'0'),
        b'a'..=b'f' => Some(byte - b'a' + 10),
        _ => None,
    }
}

/// The byte that the first two digits spell.
pub(crate) fn first_byte(digits: &[u8]) -> Option<u8>
    ensures { Finds BeginsWithByte result digits.now }
{
    if digits.len() < 2 {
        return None;
    }
    let high = hex_digit(digits[0])?;
    let low = hex_digit(digits[1])?;
    Some(16 * high + low)
}

/// The bytes that digits spell.
pub(crate) fn read_bytes(alloc: Global, digits: &[u8]) -> Result<ByteList, Unread>
    ensures { Reads SpellsBytes result digits.now }
{
    let mut bytes = ByteList::new(alloc);
    let mut rest = digits;
    while !rest.is_empty() {
        let Some(byte) = first_byte(rest) else {
            return Err(Unread::NotSpelled);
        };
        bytes.push(byte)?;
        rest = &rest[2..];
    }
    Ok(bytes)
}
