//! The references that a Return holds.
ghost use Rattle.std.specs.Prelude.{◌≡◌, IfOk};
ghost use Rattle.std.specs.List.{list_any};
ghost use Rattle.class_desc.specs.declared.slot.Slot.TheVariants as slots;
ghost use Rattle.java_shapes.specs.LiveRefs.{live_ref_at};
ghost use Rattle.java_shapes.specs.LocalRefs.{as_list, refs_in};
ghost use Rattle.client_talk.specs.Contents.{content_of, ids_held, is_for_result, is_flagged};

use class_desc::Slot;
use java_shapes::{LiveRef, ShapeFault, as_live_ref, local_refs};
use jrmp_frames::Body;
use object_ids::ObjIds;
use ser_values::Graph;
use std::alloc::{AllocError, Global};

/// The objects of the references in a body that are of the host and port of this one, each once, in the order of the body's nodes.
pub(crate) fn ids_held(
    alloc: Global,
    body: &Body,
    reference: &LiveRef,
) -> Result<ObjIds, AllocError>
    ensures { IfOk result (λ ids. ids
        ≡ ids_held reference.now.host reference.now.port (content_of body.now)) }
{
    match body {
        Body::Tree(graph) => local_refs(alloc, graph, &reference.host, reference.port),
        Body::Void => Ok(ObjIds::new(alloc)),
        Body::Prim(_) => Ok(ObjIds::new(alloc)),
    }
}

/// Returns whether a node is a reference that was made for a result.
fn is_flagged_at(alloc: Global, graph: &Graph, number: u32) -> Result<bool, AllocError>
    ensures { IfOk result (λ flagged. flagged
        ≡ list_any is_for_result (as_list (live_ref_at graph.now.nodes (slots.Node number)))) }
{
    match as_live_ref(alloc, graph, Slot::Node(number)) {
        Ok(reference) => Ok(reference.result),
        Err(ShapeFault::WrongShape) => Ok(false),
        Err(ShapeFault::OutOfMemory) => Err(AllocError),
    }
}

/// Returns whether a graph holds a reference that was made for a result.
fn is_flagged_in(alloc: Global, graph: &Graph) -> Result<bool, AllocError>
    ensures { IfOk result (λ flagged. flagged
        ≡ list_any is_for_result (refs_in graph.now.nodes)) }
{
    let mut flagged = false;
    for number in 0..graph.count() {
        let here = is_flagged_at(alloc, graph, number)?;
        flagged = flagged || here;
    }
    Ok(flagged)
}

/// Returns whether a body holds a reference that was made for a result, so that its receiver acknowledges it.
pub(crate) fn is_flagged(alloc: Global, body: &Body) -> Result<bool, AllocError>
    ensures { IfOk result (λ flagged. flagged ≡ is_flagged (content_of body.now)) }
{
    match body {
        Body::Tree(graph) => is_flagged_in(alloc, graph),
        Body::Void => Ok(false),
        Body::Prim(_) => Ok(false),
    }
}
