//! The header of a stream: the magic number and the version.
ghost use Rattle.std.specs.Prelude.{◌≡◌, ◌∷◌, []};
ghost use Rattle.stream_grammar.specs.Reading.{magic_at};
ghost use Rattle.ser_read.specs.Here.{ReadsTaken, StopsTaken};

use crate::fault::{StreamFault, StreamKind};
use crate::pieces::bad;
use crate::pulled::byte;
use wire_io::pull::Pull;
use wire_io::source::Source;

/// One byte of the magic number and the version.
#[tactic(auto, unfolding(stream_grammar::specs::Reading::magic_at))]
fn magic_byte<S: Source>(pull: &mut Pull<'_, S>, want: u8) -> Result<(), StreamFault>
    ensures lent { pull.new.source.ghost_name ≡ pull.old.source.ghost_name }
    ensures reads { ReadsTaken S.half pull.old pull.new result (λ end. magic_at end (want ∷ []))
        (λ x rest. rest) }
    ensures stops { StopsTaken S.half pull.old pull.new result (λ end. magic_at end (want ∷ [])) }
{
    let at = pull.at;
    let byte = byte(pull)?;
    if byte == want {
        Ok(())
    } else {
        Err(bad(StreamKind::BadMagic, at))
    }
}

/// The magic number and the version.
#[tactic(auto, unfolding(stream_grammar::specs::Reading::magic_at))]
pub(crate) fn magic<S: Source>(pull: &mut Pull<'_, S>) -> Result<(), StreamFault>
    ensures lent { pull.new.source.ghost_name ≡ pull.old.source.ghost_name }
    ensures reads { ReadsTaken S.half pull.old pull.new result
        (λ end. magic_at end (0xAC ∷ 0xED ∷ 0x00 ∷ 0x05 ∷ [])) (λ x rest. rest) }
    ensures stops { StopsTaken S.half pull.old pull.new result
        (λ end. magic_at end (0xAC ∷ 0xED ∷ 0x00 ∷ 0x05 ∷ [])) }
{
    magic_byte(pull, 0xAC)?;
    magic_byte(pull, 0xED)?;
    magic_byte(pull, 0x00)?;
    magic_byte(pull, 0x05)
}
