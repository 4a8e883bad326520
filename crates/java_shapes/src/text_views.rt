//! Texts and lists of texts, read from their shapes.
ghost use Rattle.java_shapes.specs.Ids.{texts_at};
ghost use Rattle.java_shapes.specs.Objects.{each, text_at};
ghost use Rattle.java_shapes.specs.ViewAnswers.{Views};

use crate::class_part::{copy_text, node_at, refs_at, text_in};
use crate::fault::ShapeFault;
use class_desc::Slot;
use sequence::{NameList, Units};
use ser_values::{Graph, Node};
use std::alloc::Global;

/// The text that a slot is.
fn text_at(alloc: Global, nodes: &[Node], slot: Slot) -> Result<Units, ShapeFault>
    ensures { Views result (text_at nodes.now slot) }
{
    match text_in(node_at(nodes, slot)) {
        Some(text) => Ok(copy_text(alloc, text)?),
        None => Err(ShapeFault::WrongShape),
    }
}

/// The texts that slots are.
fn each_text(alloc: Global, nodes: &[Node], slots: &[Slot]) -> Result<NameList, ShapeFault>
    ensures { Views result (each (text_at nodes.now) slots.now) }
{
    let mut texts = NameList::new(alloc);
    for slot in slots {
        texts.push(text_at(alloc, nodes, *slot)?)?;
    }
    Ok(texts)
}

/// A text. WrongShape comes exactly where the slot is none.
pub fn as_text(alloc: Global, graph: &Graph, slot: Slot) -> Result<Units, ShapeFault>
    ensures { Views result (text_at graph.now.nodes slot) }
{
    text_at(alloc, graph.nodes().as_slice(), slot)
}

/// The elements of a `String[]`. WrongShape comes exactly where the slot is none, or an element is null or no text.
#[tactic(auto, unfolding(crate::specs::Ids::texts_at))]
pub fn as_texts(alloc: Global, graph: &Graph, slot: Slot) -> Result<NameList, ShapeFault>
    ensures { Views result (texts_at graph.now.nodes slot) }
{
    let nodes = graph.nodes().as_slice();
    match refs_at(nodes, slot, "[Ljava.lang.String;") {
        Some(slots) => each_text(alloc, nodes, slots.as_slice()),
        None => Err(ShapeFault::WrongShape),
    }
}
