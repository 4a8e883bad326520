//! Lists of wants.
ghost use Rattle.std.specs.Prelude.{◌≡◌, ◌∷◌, ◌++◌, List, ℕ, OnOk, IfOk, None};
ghost use Rattle.wire_io.specs.Pulled.{pull_state};
ghost use Rattle.class_desc.specs.declared.slot.Item.{Item};
ghost use Rattle.ser_values.specs.declared.node.Node.{Node};
ghost use Rattle.ser_read.specs.Here.{coming, IsTold, Caused};
ghost use Rattle.ser_read.specs.Wants.{WantGivesTold, WantStopsTaken, WantReadsTaken, want_at, serve, wants_at};
ghost use Rattle.ser_read.specs.SpelledWants.{SpellsWants, TakesWants, AnswersWants};

use crate::fault::StreamFault;
use crate::reader::Reader;
use class_desc::{Item, Items};
use ser_values::Graph;
use std::alloc::Global;
use wire_io::pull::Pull;
use wire_io::source::Source;

/// A request of a stream: what is to come of it next.
#[derive(Clone, Copy, Debug, PartialEq, Eq)]
pub enum Want {
    /// So many bytes of block data.
    Bytes(u32),
    /// A reference or null.
    Slot,
}

/// Returns the reader's item for a want.
#[tactic(auto, unfolding(crate::specs::Wants::want_at))]
fn serve_one<S: Source>(
    alloc: Global,
    pull: &mut Pull<'_, S>,
    reader: &mut Reader,
    want: Want,
) -> Result<Item, StreamFault>
    requires kept { reader.old.refused ≡ None }
    ensures kept { OnOk result (reader.new.refused ≡ None) }
    ensures lent { pull.new.source.ghost_name ≡ pull.old.source.ghost_name }
    ensures reads { WantReadsTaken S.half pull.old pull.new result
        (λ end. want_at end want reader.old.stand) (λ x rest. (x, reader.new.stand, rest)) }
    ensures stops { WantStopsTaken S.half pull.old pull.new result
        (λ end. want_at end want reader.old.stand) }
{
    match want {
        Want::Bytes(n) => {
            let bytes = reader.bytes(alloc, pull, n)?;
            Ok(Item::Bytes(bytes))
        }
        Want::Slot => {
            let slot = reader.slot(alloc, pull)?;
            Ok(Item::Ref(slot))
        }
    }
}

/// Returns the reader's items for wants, one after the other.
pub(crate) fn serve_all<S: Source>(
    alloc: Global,
    pull: &mut Pull<'_, S>,
    reader: &mut Reader,
    wants: &[Want],
) -> Result<Items, StreamFault>
    requires kept { reader.old.refused ≡ None }
    ensures kept { OnOk result (reader.new.refused ≡ None) }
    ensures lent { pull.new.source.ghost_name ≡ pull.old.source.ghost_name }
    ensures reads { WantReadsTaken S.half pull.old pull.new result
        (λ end. serve end wants.now reader.old.stand) (λ x rest. (x, reader.new.stand, rest)) }
    ensures stops { WantStopsTaken S.half pull.old pull.new result
        (λ end. serve end wants.now reader.old.stand) }
{
    let mut answers = Items::new(alloc);
    for want in wants {
        let answer = serve_one(alloc, pull, reader, *want)?;
        answers.push(answer)?;
    }
    Ok(answers)
}

/// Reads a stream of which this is asked.
#[tactic(auto, unfolding(crate::specs::Wants::wants_at, crate::specs::Wants::serve_to_close))]
fn read_each<S: Source>(
    alloc: Global,
    pull: &mut Pull<'_, S>,
    wants: &[Want],
) -> Result<(Items, Graph), StreamFault>
    ensures lent { pull.new.source.ghost_name ≡ pull.old.source.ghost_name }
    ensures reads { WantReadsTaken S.half pull.old pull.new result (λ end. wants_at end wants.now)
        (λ x rest. (x.0, x.1.nodes, x.1.items, rest)) }
    ensures stops { WantStopsTaken S.half pull.old pull.new result (λ end. wants_at end wants.now) }
{
    let mut reader = Reader::start(alloc, pull)?;
    let answers = serve_all(alloc, pull, &mut reader, wants)?;
    let graph = reader.close(pull)?;
    Ok((answers, graph))
}

/// Reads a stream of which this is asked, one want after the other and then the end: what each gave, and the graph of it all.
///
/// The stream need not end the input: no byte behind what was asked is taken. What it answers is what `SpellsWants` says of the bytes taken, and no
/// proper front of them says it of the same wants ([`crate::laws::spelled_is_one`]).
pub fn read_wants<S: Source>(
    alloc: Global,
    pull: &mut Pull<'_, S>,
    wants: &[Want],
) -> Result<(Items, Graph), StreamFault>
    ensures lent { pull.new.source.ghost_name ≡ pull.old.source.ghost_name }
    ensures cause { Caused (S.half pull.old.source.now).faults (S.half pull.new.source.now).faults
        result }
    ensures gives { WantGivesTold S.half pull.old pull.new result (λ end. wants_at end wants.now)
        (λ x rest. (x.0, x.1.nodes, x.1.items, rest)) }
    ensures stops { WantStopsTaken S.half pull.old pull.new result (λ end. wants_at end wants.now) }
    ensures spelled { IfOk result
        (λ x. TakesWants (pull_state S.half pull.old) (pull_state S.half pull.new) wants.now x.0
        x.1.nodes x.1.items) }
    ensures complete { (answers : List Item) (nodes : List Node) (bytes rest : List ℕ)
        → IsTold S.half pull.old → coming S.half pull.old ≡ 0xAC ∷ 0xED ∷ 0x00 ∷ 0x05
        ∷ (bytes ++ rest) → SpellsWants wants.now answers nodes bytes
        → AnswersWants answers nodes rest (coming S.half pull.new) result }
{
    read_each(alloc, pull, wants)
}
