//! Writing what lines name. After a refusal, which comes only for want of memory, a front of the text stands appended.
ghost use Rattle.std.specs.Prelude.{◌≡◌, ◌<◌, ◌^◌, ◌∷◌, ◌++◌, false, decimal, flat_map, OnOk, OnErr};
ghost use Rattle.std.specs.List.{AllByRecursion};
ghost use Rattle.std.specs.Fmt.{signed_decimal, digit_glyph};
ghost use Rattle.history.specs.Texts.{hex_byte, uid_text, address_text, client_text, object_text, unit_text, name_text};
ghost use Rattle.journal.specs.Putting.{AppendsFront};
ghost use Rattle.journal.specs.Grammar.{long_text, IsUid, IsClient, IsName};
ghost use Rattle.journal.specs.Written.{IsObject};

use crate::name::is_plain;
use history::Name;
use object_ids::{ObjId, Uid, Vmid};
use sequence::{ByteList, Same};
use std::alloc::AllocError;

/// Appends a number in decimal digits.
pub fn put_decimal(out: &mut ByteList, n: u64) -> Result<(), AllocError>
    ensures ok { OnOk result (out.new ≡ out.old ++ decimal n) }
    ensures err { OnErr result (AppendsFront out.old (decimal n) out.new) }
{
    if n < 10 {
        return out.push(b'0' + n as u8);
    }
    put_decimal(out, n / 10)?;
    out.push(b'0' + (n % 10) as u8)
}

/// Appends a number in decimal digits, with a minus sign where it is below 0.
pub fn put_signed(out: &mut ByteList, n: i64) -> Result<(), AllocError>
    ensures ok { OnOk result (out.new ≡ out.old ++ signed_decimal n) }
    ensures err { OnErr result (AppendsFront out.old (signed_decimal n) out.new) }
{
    if n < 0 {
        out.push(b'-')?;
    }
    put_decimal(out, n.unsigned_abs())
}

/// Appends an identifier as U/T/C.
pub fn put_uid(out: &mut ByteList, uid: Uid) -> Result<(), AllocError>
    ensures ok { OnOk result (out.new ≡ out.old ++ uid_text uid) }
    ensures err { OnErr result (AppendsFront out.old (uid_text uid) out.new) }
    ensures fits { OnOk result (IsUid uid) }
{
    put_signed(out, uid.unique as i64)?;
    put_after_slash(out, uid.time)?;
    put_after_slash(out, uid.count as i64)
}

/// Appends a slash and a number.
fn put_after_slash(out: &mut ByteList, n: i64) -> Result<(), AllocError>
    ensures ok { OnOk result (out.new ≡ out.old ++ 47 ∷ signed_decimal n) }
    ensures err { OnErr result (AppendsFront out.old (47 ∷ signed_decimal n) out.new) }
{
    out.push(b'/')?;
    put_signed(out, n)
}

/// Appends bytes as two hexadecimal digits each.
pub fn put_hex(out: &mut ByteList, bytes: &[u8]) -> Result<(), AllocError>
    ensures ok { OnOk result (out.new ≡ out.old ++ flat_map hex_byte bytes.now) }
    ensures err { OnErr result (AppendsFront out.old (flat_map hex_byte bytes.now) out.new) }
    ensures fits { OnOk result (AllByRecursion (λ b. b < 2 ^ 8) bytes.now) }
{
    for byte in bytes {
        put_hex_byte(out, *byte)?;
    }
    Ok(())
}

/// Appends a byte as two hexadecimal digits. After a refusal nothing was appended.
fn put_hex_byte(out: &mut ByteList, byte: u8) -> Result<(), AllocError>
    ensures ok { OnOk result (out.new ≡ out.old ++ hex_byte byte) }
    ensures err { OnErr result (out.new ≡ out.old) }
{
    out.append(&[hex_digit(byte / 16), hex_digit(byte % 16)])
}

/// The hexadecimal digit of a number below 16.
fn hex_digit(value: u8) -> u8
    requires { value < 16 }
    ensures { result ≡ digit_glyph false value }
{
    if value < 10 {
        b'0' + value
    } else {
        b'a' - 10 + value
    }
}

/// Appends a client's address in hexadecimal digits, or `-` where it is empty.
fn put_address(out: &mut ByteList, addr: &ByteList) -> Result<(), AllocError>
    ensures ok { OnOk result (out.new ≡ out.old ++ address_text addr.now) }
    ensures err { OnErr result (AppendsFront out.old (address_text addr.now) out.new) }
    ensures fits { OnOk result (AllByRecursion (λ b. b < 2 ^ 8) addr.now) }
{
    if addr.is_empty() {
        out.push(b'-')
    } else {
        put_hex(out, addr.as_slice())
    }
}

/// Appends a client as ADDR@U/T/C.
pub fn put_client(out: &mut ByteList, client: &Vmid) -> Result<(), AllocError>
    ensures ok { OnOk result (out.new ≡ out.old ++ client_text client.now) }
    ensures err { OnErr result (AppendsFront out.old (client_text client.now) out.new) }
    ensures fits { OnOk result (IsClient client.now) }
{
    put_address(out, client.addr())?;
    out.push(b'@')?;
    put_uid(out, client.uid())
}

/// Appends an object: the number of one of this space, or N:U/T/C.
pub fn put_object(out: &mut ByteList, space: Uid, object: ObjId) -> Result<(), AllocError>
    ensures ok { OnOk result (out.new ≡ out.old ++ object_text space object) }
    ensures err { OnErr result (AppendsFront out.old (object_text space object) out.new) }
    ensures fits { OnOk result (IsObject object) }
{
    if object.space.is_same(&space) {
        put_signed(out, object.number)
    } else {
        put_long_object(out, object)
    }
}

/// Appends an object as N:U/T/C.
fn put_long_object(out: &mut ByteList, object: ObjId) -> Result<(), AllocError>
    ensures ok { OnOk result (out.new ≡ out.old ++ long_text object) }
    ensures err { OnErr result (AppendsFront out.old (long_text object) out.new) }
    ensures fits { OnOk result (IsObject object) }
{
    put_signed(out, object.number)?;
    out.push(b':')?;
    put_uid(out, object.space)
}

/// Appends a unit of a name: itself, or `\u` and four hexadecimal digits. After a refusal nothing was appended.
fn put_unit(out: &mut ByteList, unit: u16) -> Result<(), AllocError>
    ensures ok { OnOk result (out.new ≡ out.old ++ unit_text unit) }
    ensures err { OnErr result (out.new ≡ out.old) }
{
    if is_plain(unit) {
        return out.push(unit as u8);
    }
    let high = (unit / 256) as u8;
    let low = (unit % 256) as u8;
    out.append(&[
        b'\\',
        b'u',
        hex_digit(high / 16),
        hex_digit(high % 16),
        hex_digit(low / 16),
        hex_digit(low % 16),
    ])
}

/// Appends the units of a name.
pub fn put_units(out: &mut ByteList, units: &[u16]) -> Result<(), AllocError>
    ensures ok { OnOk result (out.new ≡ out.old ++ flat_map unit_text units.now) }
    ensures err { OnErr result (AppendsFront out.old (flat_map unit_text units.now) out.new) }
    ensures fits { OnOk result (AllByRecursion (λ u. u < 2 ^ 16) units.now) }
{
    for unit in units {
        put_unit(out, *unit)?;
    }
    Ok(())
}

/// Appends a name in quotation marks.
pub fn put_name(out: &mut ByteList, name: &Name) -> Result<(), AllocError>
    ensures ok { OnOk result (out.new ≡ out.old ++ name_text name.now) }
    ensures err { OnErr result (AppendsFront out.old (name_text name.now) out.new) }
    ensures fits { OnOk result (IsName name.now) }
{
    out.push(b'"')?;
    put_units(out, name.units().as_slice())?;
    out.push(b'"')
}
