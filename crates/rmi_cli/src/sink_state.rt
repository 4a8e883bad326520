//! A sink that is given a text in pieces.
ghost use Rattle.std.specs.Prelude.{◌≡◌, ◌∷◌, ℕ, List, IfOk};
ghost use Rattle.wire_io.specs.Wire.{WriteHalf};
ghost use Rattle.rmi_cli.specs.Sinks.{Goes, joined};

use sequence::ByteList;
use std::alloc::AllocError;
use wire_io::put::put_all;
use wire_io::sink::Sink;

/// The state of a sink that is given a text in pieces.
#[derive(Clone, Copy, Debug, PartialEq, Eq)]
pub enum SinkState {
    /// It took all pieces.
    Whole,
    /// It failed. No further piece is written to it.
    Failed,
    /// There was no memory for a piece. The pieces before it were written, and no further piece is.
    Lost,
}

/// Writes the text of some pieces, and returns the sink's state after it. Nothing is written where the sink failed before, or a piece was lost.
pub(crate) fn write_text<K: Sink>(sink: &mut K, state: SinkState, text: &[u8]) -> SinkState
    ensures { (pieces : List (List ℕ)) → text.now ≡ joined pieces
        → Goes (K.half sink.old) (K.half sink.new) pieces state result }
{
    match state {
        SinkState::Whole => match put_all(sink, text) {
            Ok(()) => SinkState::Whole,
            Err(_) => SinkState::Failed,
        },
        SinkState::Failed => SinkState::Failed,
        SinkState::Lost => SinkState::Lost,
    }
}

/// Writes the text of a piece and of those after it as `write_text` does. Where there was no memory for that text, the piece is lost, and none of them
/// is written.
pub(crate) fn write_made<K: Sink>(
    sink: &mut K,
    state: SinkState,
    made: Result<ByteList, AllocError>,
) -> SinkState
    ensures { (piece : List ℕ) (more : List (List ℕ))
        → IfOk made (λ text. text ≡ joined (piece ∷ more))
        → Goes (K.half sink.old) (K.half sink.new) (piece ∷ more) state result }
{
    match made {
        Ok(text) => write_text(sink, state, text.as_slice()),
        Err(_refused) => lose_piece(state),
    }
}

/// Returns the state of a sink after a piece for which there was no memory.
fn lose_piece(state: SinkState) -> SinkState
    ensures { (half : WriteHalf) (piece : List ℕ) (more : List (List ℕ))
        → Goes half half (piece ∷ more) state result }
{
    match state {
        SinkState::Whole => SinkState::Lost,
        SinkState::Failed => SinkState::Failed,
        SinkState::Lost => SinkState::Lost,
    }
}
