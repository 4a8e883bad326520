//! Numbers that wanted bytes spell, the highest byte first.
ghost use Rattle.std.specs.Prelude.{◌≡◌, length, nat_eq, Some, None, if◌then◌else◌};
ghost use Rattle.std.specs.Int.{w8, w16, w32, w64, from_be_bytes};

/// The number of one byte. None where there are not so many.
pub fn to_u8(bytes: &[u8]) -> Option<u8>
    ensures { result
        ≡ (if nat_eq (length bytes.now) 1 then Some (from_be_bytes w8 bytes.now) else None) }
{
    match bytes {
        [a] => Some(u8::from_be_bytes([*a])),
        _ => None,
    }
}

/// The number of two bytes. None where there are not so many.
pub fn to_u16(bytes: &[u8]) -> Option<u16>
    ensures { result
        ≡ (if nat_eq (length bytes.now) 2 then Some (from_be_bytes w16 bytes.now) else None) }
{
    match bytes {
        [a, b] => Some(u16::from_be_bytes([*a, *b])),
        _ => None,
    }
}

/// The number of four bytes. None where there are not so many.
pub fn to_u32(bytes: &[u8]) -> Option<u32>
    ensures { result
        ≡ (if nat_eq (length bytes.now) 4 then Some (from_be_bytes w32 bytes.now) else None) }
{
    match bytes {
        [a, b, c, d] => Some(u32::from_be_bytes([*a, *b, *c, *d])),
        _ => None,
    }
}

/// The number of eight bytes. None where there are not so many.
pub fn to_u64(bytes: &[u8]) -> Option<u64>
    ensures { result
        ≡ (if nat_eq (length bytes.now) 8 then Some (from_be_bytes w64 bytes.now) else None) }
{
    match bytes {
        [a, b, c, d, e, f, g, h] => Some(u64::from_be_bytes([*a, *b, *c, *d, *e, *f, *g, *h])),
        _ => None,
    }
}
