//! The round trip of class descriptions.
ghost use Rattle.std.specs.Prelude.{◌≡◌, Ok, IfOk, IfErr};
ghost use Rattle.stream_grammar.specs.Reading.{stream_of};
ghost use Rattle.stream_grammar.specs.Spelled.{IsStream};
ghost use Rattle.ser_write.specs.Canonical.{canonical};
ghost use Rattle.ser_read.specs.Whole.{AnswersGraph};
ghost use Rattle.suid_calc.specs.Description.{nodes_of, items_of, IsUndescribed};

use crate::round_trip::read_back;
use ser_read::StreamFault;
use ser_values::Graph;
use std::alloc::Global;
use suid_calc::{ClassOutline, DescribeFault, describe};

/// Describes an outline's class, writes the description as a stream, and reads the stream. The bytes are a stream, and the graph that is
/// read is the same description; only a failed read or want of memory refuses it. TooManyFields comes exactly where more than 32,767
/// fields are neither static nor transient.
pub fn description_read_back(
    alloc: Global,
    outline: &ClassOutline,
) -> Result<Result<Graph, StreamFault>, DescribeFault>
    ensures same { IfOk result (λ read. ∥ AnswersGraph (nodes_of outline.now) items_of read ∥₁) }
    ensures spelled { IfOk result
        (λ _. ∥ IsStream (nodes_of outline.now) items_of (canonical (nodes_of outline.now) items_of)
        ∥₁) }
    ensures read { IfOk result (λ _. stream_of (canonical (nodes_of outline.now) items_of)
        ≡ Ok (nodes_of outline.now, items_of)) }
    ensures err { IfErr result (IsUndescribed outline.now) }
{
    let graph = describe(alloc, outline)?;
    Ok(read_back(alloc, &graph))
}
