//! The bytes of identifiers: big-endian numbers in a fixed order.
ghost use Rattle.std.specs.Prelude.{◌≡◌, length};
ghost use Rattle.std.specs.Int.{w16, w32, w64};
ghost use Rattle.object_ids.specs.Bytes.{signed_bytes, signed_from_bytes, bytes_of_uid, uid_from_bytes, bytes_of_objid, objid_from_bytes};

use crate::ids::{ObjId, Uid};

/// The bytes of an identifier: its unique number in bytes 0 to 3, its time in bytes 4 to 11, its
/// count in bytes 12 and 13 (`java.rmi.server.UID.write`).
pub fn uid_bytes(uid: Uid) -> [u8; 14]
    ensures value { result ≡ bytes_of_uid uid }
    ensures inverse { uid_from_bytes result ≡ uid }
{
    let mut bytes = [0; 14];
    bytes[..4].copy_from_slice(&uid.unique.to_be_bytes());
    bytes[4..12].copy_from_slice(&uid.time.to_be_bytes());
    bytes[12..].copy_from_slice(&uid.count.to_be_bytes());
    bytes
}

/// The identifier that these bytes spell. Any bytes spell one.
pub fn uid_of(bytes: [u8; 14]) -> Uid
    ensures value { result ≡ uid_from_bytes bytes }
    ensures inverse { bytes_of_uid result ≡ bytes }
{
    uid_in(&bytes)
}

/// The bytes of an object's identifier: its number in bytes 0 to 7, then the bytes of its space's
/// identifier (`java.rmi.server.ObjID.write`).
pub fn objid_bytes(id: ObjId) -> [u8; 22]
    ensures value { result ≡ bytes_of_objid id }
    ensures inverse { objid_from_bytes result ≡ id }
{
    let mut bytes = [0; 22];
    bytes[..8].copy_from_slice(&id.number.to_be_bytes());
    bytes[8..].copy_from_slice(&uid_bytes(id.space));
    bytes
}

/// The object's identifier that these bytes spell. Any bytes spell one.
pub fn objid_of(bytes: [u8; 22]) -> ObjId
    ensures value { result ≡ objid_from_bytes bytes }
    ensures inverse { bytes_of_objid result ≡ bytes }
{
    ObjId {
        number: i64_of(&bytes[..8]),
        space: uid_in(&bytes[8..]),
    }
}

/// The identifier that fourteen bytes spell.
fn uid_in(bytes: &[u8]) -> Uid
    requires { length bytes.now ≡ 14 }
    ensures value { result ≡ uid_from_bytes bytes.now }
    ensures inverse { bytes_of_uid result ≡ bytes.now }
{
    Uid {
        unique: i32_of(&bytes[..4]),
        time: i64_of(&bytes[4..12]),
        count: i16_of(&bytes[12..]),
    }
}

/// The number that two bytes spell.
fn i16_of(bytes: &[u8]) -> i16
    requires { length bytes.now ≡ 2 }
    ensures value { result ≡ signed_from_bytes w16 bytes.now }
    ensures inverse { signed_bytes w16 result ≡ bytes.now }
{
    i16::from_be_bytes([bytes[0], bytes[1]])
}

/// The number that four bytes spell.
fn i32_of(bytes: &[u8]) -> i32
    requires { length bytes.now ≡ 4 }
    ensures value { result ≡ signed_from_bytes w32 bytes.now }
    ensures inverse { signed_bytes w32 result ≡ bytes.now }
{
    i32::from_be_bytes([bytes[0], bytes[1], bytes[2], bytes[3]])
}

/// The number that eight bytes spell.
fn i64_of(bytes: &[u8]) -> i64
    requires { length bytes.now ≡ 8 }
    ensures value { result ≡ signed_from_bytes w64 bytes.now }
    ensures inverse { signed_bytes w64 result ≡ bytes.now }
{
    i64::from_be_bytes([
        bytes[0], bytes[1], bytes[2], bytes[3], bytes[4], bytes[5], bytes[6], bytes[7],
    ])
}
