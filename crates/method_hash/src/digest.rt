//! The hash by which a call names a method (Java RMI Specification, 8.3).
ghost use Rattle.std.specs.Prelude.{◌≡◌, ◌<◌, ◌^◌, length};
ghost use Rattle.method_hash.specs.Hash.{folded_hash, hash_of};

use crate::method::Method;
use sha1::Sha1;

/// The hash of a method's text, which has at most 65,535 bytes: the digest of its length in 16 bits and of its bytes, folded.
pub fn hash_text(text: &[u8]) -> i64
    requires { length text.now < 2 ^ 16 }
    ensures { result ≡ hash_of text.now }
{
    let mut hasher = Sha1::new();
    hasher.update(&(text.len() as u16).to_be_bytes());
    hasher.update(text);
    fold_hash(hasher.finalize())
}

/// The hash of a method, which is that of its text.
pub fn hash(method: &Method) -> i64
    ensures { result ≡ hash_of method.now.text }
{
    hash_text(method.text.as_slice())
}

/// The first eight bytes of a digest, as a number with its lowest byte first.
pub fn fold_hash(digest: [u8; 20]) -> i64
    ensures { result ≡ folded_hash digest }
{
    i64::from_le_bytes([
        digest[0], digest[1], digest[2], digest[3], digest[4], digest[5], digest[6], digest[7],
    ])
}
