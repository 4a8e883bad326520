//! Units as bytes: modified UTF (Java Object Serialization Specification, 6.2).
ghost use Rattle.std.specs.Prelude.{◌≡◌, ◌++◌, length, List, ℕ, All, OnOk, OnErr, IfOk};
ghost use Rattle.mod_utf.specs.Utf.{SpellsItself, SpellsUnit, Utf, unit_bytes, utf};

use sequence::{ByteList, Units};
use std::alloc::{AllocError, Global};

/// The bytes that spell a text. It is refused only for want of memory.
pub fn encode(alloc: Global, units: &Units) -> Result<ByteList, AllocError>
    ensures spelled { IfOk result (λ bytes. Utf units.now bytes) }
    ensures value { IfOk result (λ bytes. bytes ≡ utf units.now) }
{
    let mut out = ByteList::new(alloc);
    for unit in units.as_slice() {
        push_unit(&mut out, *unit)?;
    }
    Ok(out)
}

/// The text of these ASCII characters, one unit each: a unit's number is its byte's. Where none is 0 or above 7F, the
/// bytes are also the text's modified UTF. It is refused only for want of memory.
#[tactic(auto, using(crate::proofs::Spelling::ascii_spelled))]
pub fn units_of_ascii(alloc: Global, bytes: &[u8]) -> Result<Units, AllocError>
    ensures value { IfOk result (λ units. units ≡ bytes.now) }
    ensures spelled { IfOk result (λ units. All SpellsItself bytes.now → Utf units bytes.now) }
{
    Ok(Units::from_vec(bytes.iter().map(|byte| u16::from(*byte)).collect(alloc)?))
}

/// The number of the bytes that spell a text.
pub fn encoded_len(units: &Units) -> u64
    ensures spelled { (bytes : List ℕ) → Utf units.now bytes → result ≡ length bytes }
    ensures value { result ≡ length (utf units.now) }
{
    let mut sum: u64 = 0;
    for unit in units.as_slice() {
        sum += unit_len(*unit);
    }
    sum
}

/// Appends the bytes that spell a unit.
fn push_unit(out: &mut ByteList, unit: u16) -> Result<(), AllocError>
    ensures spelled { SpellsUnit unit (unit_bytes unit) }
    ensures ok { OnOk result (out.new ≡ out.old ++ unit_bytes unit) }
    ensures err { OnErr result (out.new ≡ out.old) }
{
    match unit_len(unit) {
        1 => out.append(&[unit as u8]),
        2 => out.append(&[0xC0 + (unit / 64) as u8, 0x80 + (unit % 64) as u8]),
        _ => out.append(&[
            0xE0 + (unit / 4096) as u8,
            0x80 + (unit / 64 % 64) as u8,
            0x80 + (unit % 64) as u8,
        ]),
    }
}

/// The number of the bytes that spell a unit: 1 for 0001 to 007F, 2 for 0000 and 0080 to 07FF, else 3.
fn unit_len(unit: u16) -> u64
    ensures { result ≡ length (unit_bytes unit) }
{
    if 0 < unit && unit < 0x80 {
        1
    } else if unit < 0x800 {
        2
    } else {
        3
    }
}
