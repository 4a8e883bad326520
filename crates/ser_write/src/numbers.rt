//! Numbers, truth values and texts as bytes.
ghost use Rattle.std.specs.Prelude.{◌≡◌, ◌∷◌, ◌++◌, [], ℕ, List, length, OnErr, OnOk};
ghost use Rattle.std.specs.Int.{w16, w32, w64, to_be_bytes, cast_unsigned, from_bool};
ghost use Rattle.std.specs.List.{flat_map};
ghost use Rattle.mod_utf.specs.Utf.{unit_bytes, utf};
ghost use Rattle.ser_write.specs.Canonical.{Begins};

use mod_utf::utf::encoded_len;
use sequence::{ByteList, Units};
use std::alloc::AllocError;

/// Appends a byte.
pub(crate) fn put_byte(out: &mut ByteList, byte: u8) -> Result<(), AllocError>
    ensures written { OnOk result (out.new ≡ out.old ++ byte ∷ []) }
    ensures kept { OnErr result (Begins out.old out.new) }
{
    out.push(byte)
}

/// Appends the lowest 16 bits of a number, the highest byte first.
pub(crate) fn put_16(out: &mut ByteList, number: usize) -> Result<(), AllocError>
    ensures written { OnOk result (out.new ≡ out.old ++ to_be_bytes w16 number) }
    ensures kept { OnErr result (Begins out.old out.new) }
{
    out.append(&[(number / 256 % 256) as u8, (number % 256) as u8])
}

/// Appends the lowest 32 bits of a number, the highest byte first.
pub(crate) fn put_32(out: &mut ByteList, number: usize) -> Result<(), AllocError>
    ensures written { OnOk result (out.new ≡ out.old ++ to_be_bytes w32 number) }
    ensures kept { OnErr result (Begins out.old out.new) }
{
    out.append(&[
        (number / 0x100_0000 % 256) as u8,
        (number / 0x1_0000 % 256) as u8,
        (number / 256 % 256) as u8,
        (number % 256) as u8,
    ])
}

/// A value that has one spelling in bytes.
pub(crate) trait Spelled {
    /// The bytes.
    ghost bytes: { Self → List ℕ };

    /// Appends the bytes.
    fn put(&self, out: &mut ByteList) -> Result<(), AllocError>
        ensures written { OnOk result (out.new ≡ out.old ++ bytes self.now) }
        ensures kept { OnErr result (Begins out.old out.new) };
}

/// Appends the bytes of each value in order.
pub(crate) fn put_each<T: Spelled>(out: &mut ByteList, values: &[T]) -> Result<(), AllocError>
    ensures written { OnOk result (out.new ≡ out.old ++ flat_map T.bytes values.now) }
    ensures kept { OnErr result (Begins out.old out.new) }
{
    for value in values {
        value.put(out)?;
    }
    Ok(())
}

impl Spelled for u16 {
    ghost bytes = { to_be_bytes w16 };

    fn put(&self, out: &mut ByteList) -> Result<(), AllocError> {
        out.append(&self.to_be_bytes())
    }
}

impl Spelled for u32 {
    ghost bytes = { to_be_bytes w32 };

    fn put(&self, out: &mut ByteList) -> Result<(), AllocError> {
        out.append(&self.to_be_bytes())
    }
}

impl Spelled for u64 {
    ghost bytes = { to_be_bytes w64 };

    fn put(&self, out: &mut ByteList) -> Result<(), AllocError> {
        out.append(&self.to_be_bytes())
    }
}

impl Spelled for i16 {
    ghost bytes = { λ v. to_be_bytes w16 (cast_unsigned w16 v) };

    fn put(&self, out: &mut ByteList) -> Result<(), AllocError> {
        out.append(&self.to_be_bytes())
    }
}

impl Spelled for i32 {
    ghost bytes = { λ v. to_be_bytes w32 (cast_unsigned w32 v) };

    fn put(&self, out: &mut ByteList) -> Result<(), AllocError> {
        out.append(&self.to_be_bytes())
    }
}

impl Spelled for i64 {
    ghost bytes = { λ v. to_be_bytes w64 (cast_unsigned w64 v) };

    fn put(&self, out: &mut ByteList) -> Result<(), AllocError> {
        out.append(&self.to_be_bytes())
    }
}

impl Spelled for bool {
    ghost bytes = { λ v. from_bool v ∷ [] };

    fn put(&self, out: &mut ByteList) -> Result<(), AllocError> {
        out.push(u8::from(*self))
    }
}

/// Appends the bytes that spell a unit.
fn put_unit(out: &mut ByteList, unit: u16) -> Result<(), AllocError>
    ensures written { OnOk result (out.new ≡ out.old ++ unit_bytes unit) }
    ensures kept { OnErr result (Begins out.old out.new) }
{
    if 0 < unit && unit < 0x80 {
        put_byte(out, unit as u8)
    } else if unit < 0x800 {
        out.append(&[0xC0 + (unit / 64) as u8, 0x80 + (unit % 64) as u8])
    } else {
        out.append(&[
            0xE0 + (unit / 4096) as u8,
            0x80 + (unit / 64 % 64) as u8,
            0x80 + (unit % 64) as u8,
        ])
    }
}

/// Appends the bytes that spell units.
fn put_units(out: &mut ByteList, units: &[u16]) -> Result<(), AllocError>
    ensures written { OnOk result (out.new ≡ out.old ++ utf units.now) }
    ensures kept { OnErr result (Begins out.old out.new) }
{
    for unit in units {
        put_unit(out, *unit)?;
    }
    Ok(())
}

/// Appends a text with a length of 16 bits.
pub(crate) fn put_short_text(out: &mut ByteList, text: &Units) -> Result<(), AllocError>
    ensures written { OnOk result (out.new ≡ out.old
        ++ (to_be_bytes w16 (length (utf text.now)) ++ utf text.now)) }
    ensures kept { OnErr result (Begins out.old out.new) }
{
    let len = encoded_len(text) as usize;
    out.reserve(len)?;
    put_16(out, len)?;
    put_units(out, text.as_slice())
}

/// Appends a text with a length of 64 bits.
pub(crate) fn put_long_text(out: &mut ByteList, text: &Units) -> Result<(), AllocError>
    ensures written { OnOk result (out.new ≡ out.old
        ++ (to_be_bytes w64 (length (utf text.now)) ++ utf text.now)) }
    ensures kept { OnErr result (Begins out.old out.new) }
{
    let len = encoded_len(text);
    out.reserve(len as usize)?;
    len.put(out)?;
    put_units(out, text.as_slice())
}
