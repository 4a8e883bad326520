//! The bytes of a class's description between its name and its fields.
ghost use Rattle.std.specs.Prelude.{◌≡◌};
ghost use Rattle.ser_read.specs.Fronts.{front_at};
ghost use Rattle.ser_read.specs.Here.{ReadsTaken, StopsTaken};

use crate::fault::StreamFault;
use crate::pulled::{fill, negative_length};
use wire_io::pull::Pull;
use wire_io::source::Source;

/// A description's number and flags, and how many fields it has.
#[derive(Clone, Copy, Debug, PartialEq, Eq)]
pub(crate) struct DescFront {
    /// The number, as its 64 bits.
    pub(crate) suid: u64,
    /// The flags.
    pub(crate) flags: u8,
    /// The number of fields, below 2^15.
    pub(crate) fields: u16,
}

/// The next 11 bytes, which are all there before one of them is judged. `NegativeLength` comes at the first byte of the count of fields.
pub(crate) fn desc_front<S: Source>(pull: &mut Pull<'_, S>) -> Result<DescFront, StreamFault>
    ensures lent { pull.new.source.ghost_name ≡ pull.old.source.ghost_name }
    ensures reads { ReadsTaken S.half pull.old pull.new result (λ end. front_at end)
        (λ x rest. (x, rest)) }
    ensures stops { StopsTaken S.half pull.old pull.new result (λ end. front_at end) }
{
    let start = pull.at;
    let mut bytes = [0; 11];
    fill(pull, &mut bytes)?;
    let fields = u16::from_be_bytes([bytes[9], bytes[10]]);
    if fields >= 0x8000 {
        return Err(negative_length(start + 9));
    }
    Ok(DescFront {
        suid: u64::from_be_bytes([
            bytes[0], bytes[1], bytes[2], bytes[3], bytes[4], bytes[5], bytes[6], bytes[7],
        ]),
        flags: bytes[8],
        fields,
    })
}
