//! Taking all that a source has left.
ghost use Rattle.std.specs.Prelude.{◌≡◌, ◌≢◌, ◌≤◌, ◌<◌, ◌+◌, ◌^◌, ℕ, List, length, IfOk, Err};
ghost use Rattle.wire_io.specs.Wire.{with_front, NothingLeft, Rose};
ghost use Rattle.wire_io.specs.declared.whole.TheConstants.{READ_BLOCK};

use crate::source::Source;
use sequence::ByteList;
use std::alloc::Global;

/// The number of bytes that one read asks for.
pub const READ_BLOCK: usize = 4096;

/// Why the whole input could not be taken.
#[derive(Clone, Copy, Debug, PartialEq, Eq)]
pub enum WholeEnd {
    /// The source has more bytes than the limit.
    TooLarge,
    /// A read failed. The source's count of faults rose, which it does in no other case.
    ReadFault,
    /// There was no memory to keep the bytes.
    OutOfMemory,
}

/// Takes all the bytes that the source has left, to the end of input, where they are at most `limit`.
///
/// After an error some front of them was taken, at most 4,096 bytes more than the limit; after `TooLarge` it is longer than
/// the limit.
pub fn take_whole<S: Source>(
    alloc: Global,
    source: &mut S,
    limit: usize,
) -> Result<ByteList, WholeEnd>
    requires { limit < 2 ^ 32 }
    ensures ok { IfOk result (λ bytes. (length bytes ≤ limit)
        × ((S.half source.old).left ≡ with_front bytes (S.half source.new).left)
        × NothingLeft (S.half source.new).left) }
    ensures too_large { result ≡ Err WholeEnd.TooLarge → (bytes : List ℕ)
        × (limit < length bytes) × (length bytes ≤ limit + READ_BLOCK)
        × ((S.half source.old).left ≡ with_front bytes (S.half source.new).left) }
    ensures err { (front : List ℕ) × (length front ≤ limit + READ_BLOCK)
        × ((S.half source.old).left ≡ with_front front (S.half source.new).left) }
    ensures read_fault { result ≡ Err WholeEnd.ReadFault →
        Rose (S.half source.old).faults (S.half source.new).faults }
    ensures kept { result ≢ Err WholeEnd.ReadFault
        → (S.half source.new).faults ≡ (S.half source.old).faults }
    ensures faults { (S.half source.old).faults ≤ (S.half source.new).faults }
    ensures shut { (S.half source.new).shut ≡ (S.half source.old).shut }
{
    let mut bytes = ByteList::new(alloc);
    let mut block = [0u8; READ_BLOCK];
    while bytes.len() <= limit {
        match source.read(&mut block) {
            Ok(n) => {
                if n == 0 {
                    return Ok(bytes);
                }
                if bytes.append(&block[..n]).is_err() {
                    return Err(WholeEnd::OutOfMemory);
                }
            }
            Err(_) => return Err(WholeEnd::ReadFault),
        }
    }
    Err(WholeEnd::TooLarge)
}
