//! The output of `call`.
ghost use Rattle.std.specs.Prelude.{◌≡◌, ◌∷◌, ◌++◌, [], codes, IfOk};
ghost use Rattle.history.specs.Texts.{name_text};
ghost use Rattle.graph_text.specs.GraphText.{graph_text, value_text};
ghost use Rattle.java_shapes.specs.LiveRefs.{live_ref_at};
ghost use Rattle.java_shapes.specs.Objects.{text_at};
ghost use Rattle.client_talk.specs.Contents.{returned};
ghost use Rattle.rmi_cli.specs.Called.{answer_text, remote_text, slot_text, string_text, tree_text};
ghost use Rattle.rmi_cli.specs.Talked.{reference_text};

use crate::talk_text::put_reference;
use class_desc::{Item, Slot};
use graph_text::{graph_text, put_value};
use java_shapes::{LiveRef, ShapeFault, as_live_ref, as_text};
use journal::put::put_units;
use jrmp_frames::Body;
use rmi_client::Answer;
use sequence::{ByteList, Units};
use ser_values::{Graph, Value};
use std::alloc::{AllocError, Global};

/// Returns what is printed of a Return: `void`, a number, `true` or `false`, a string in quotation marks, `null`, `ref` and a reference to a remote
/// object, or the lines of any other graph.
pub(crate) fn answer_text(alloc: Global, answer: &Answer) -> Result<ByteList, AllocError>
    ensures { IfOk result (λ text. text ≡ answer_text (returned answer.now)) }
{
    match &answer.body {
        Body::Void => ByteList::from_slice(alloc, b"void\n"),
        Body::Prim(value) => value_text(alloc, value),
        Body::Tree(graph) => tree_text(alloc, graph),
    }
}

/// Returns the line of a number, a character or a truth value.
fn value_text(alloc: Global, value: &Value) -> Result<ByteList, AllocError>
    ensures { IfOk result (λ text. text ≡ value_text value.now ++ 10 ∷ []) }
{
    let mut text = ByteList::new(alloc);
    put_value(&mut text, value)?;
    text.push(b'\n')?;
    Ok(text)
}

/// Returns what is printed of a graph: of its one item, where that is a reference.
fn tree_text(alloc: Global, graph: &Graph) -> Result<ByteList, AllocError>
    ensures { IfOk result (λ text. text ≡ tree_text graph.now.nodes graph.now.items) }
{
    match graph.items().as_slice() {
        [Item::Ref(slot)] => slot_text(alloc, graph, *slot),
        _ => graph_text(alloc, graph),
    }
}

/// Returns what is printed of a reference in a graph.
fn slot_text(alloc: Global, graph: &Graph, slot: Slot) -> Result<ByteList, AllocError>
    ensures { IfOk result (λ text. text
        ≡ slot_text graph.now.nodes slot (graph_text graph.now.nodes graph.now.items)) }
{
    match slot {
        Slot::Null => ByteList::from_slice(alloc, b"null\n"),
        Slot::Node(_) => node_text(alloc, graph, slot),
    }
}

/// Returns what is printed of a node.
fn node_text(alloc: Global, graph: &Graph, slot: Slot) -> Result<ByteList, AllocError>
    ensures { IfOk result (λ text. text ≡ string_text (text_at graph.now.nodes slot)
        (remote_text (live_ref_at graph.now.nodes slot)
        (graph_text graph.now.nodes graph.now.items))) }
{
    match as_text(alloc, graph, slot) {
        Ok(units) => string_text(alloc, &units),
        Err(ShapeFault::WrongShape) => object_text(alloc, graph, slot),
        Err(ShapeFault::OutOfMemory) => Err(AllocError),
    }
}

/// Returns what is printed of a node that is no string.
fn object_text(alloc: Global, graph: &Graph, slot: Slot) -> Result<ByteList, AllocError>
    ensures { IfOk result (λ text. text
        ≡ remote_text (live_ref_at graph.now.nodes slot)
        (graph_text graph.now.nodes graph.now.items)) }
{
    match as_live_ref(alloc, graph, slot) {
        Ok(reference) => remote_text(alloc, &reference),
        Err(ShapeFault::WrongShape) => graph_text(alloc, graph),
        Err(ShapeFault::OutOfMemory) => Err(AllocError),
    }
}

/// Returns the line of a reference to a remote object.
fn remote_text(alloc: Global, reference: &LiveRef) -> Result<ByteList, AllocError>
    ensures { IfOk result (λ text. text ≡ codes "ref " ++ reference_text reference.now) }
{
    let mut text = ByteList::new(alloc);
    text.append(b"ref ")?;
    put_reference(alloc, &mut text, reference)?;
    Ok(text)
}

/// Returns the line of a string, in quotation marks.
fn string_text(alloc: Global, units: &Units) -> Result<ByteList, AllocError>
    ensures { IfOk result (λ text. text ≡ name_text units.now ++ 10 ∷ []) }
{
    let mut text = ByteList::new(alloc);
    text.push(b'"')?;
    put_units(&mut text, units.as_slice())?;
    text.append(b"\"\n")?;
    Ok(text)
}
