//! Objects and moments of a history.
ghost use Rattle.std.specs.Prelude.{◌≡◌, ◌+◌, ◌<◌, ◌^◌, length, filter, IfOk};
ghost use Rattle.history.specs.Places as words;
ghost use Rattle.history.specs.Replies.{ids as ids_of};
ghost use Rattle.history.specs.declared.limits.TheConstants.{END_OF_OBJECT_COUNT};

use history::equality::equal_ids;
use history::places::id_at;
use history::{Exported, Place};
use object_ids::{ObjId, Uid};
use std::alloc::{AllocError, Global};

/// Returns whether an object is among these.
pub fn has(objects: &[Exported], object: ObjId) -> bool
    ensures { result ≡ words.has objects.now object }
{
    objects.iter().any(|x| equal_ids(x.id, object))
}

/// The object's kind among these, 0 where it is none of them.
pub fn kind_of(objects: &[Exported], object: ObjId) -> u32
    ensures { result ≡ words.kind_of objects.now object }
{
    match objects {
        [] => 0,
        [x, rest @ ..] => {
            if equal_ids(x.id, object) {
                x.kind
            } else {
                kind_of(rest, object)
            }
        }
    }
}

/// The greatest moment of a history, 0 if it is empty.
#[tactic(auto, unfolding(history::specs::Places::now))]
pub fn now(places: &[Place]) -> u64
    ensures { result ≡ words.now places.now }
{
    match places {
        [] => 0,
        [p, before @ ..] => p.event.moment.max(now(before)),
    }
}

/// All objects that were ever exported, in order.
#[tactic(auto, unfolding(history::specs::Places::ever_exported))]
pub fn ever_exported(alloc: Global, places: &[Place]) -> Result<Vec<Exported>, AllocError>
    ensures { IfOk result (λ all. all.items ≡ words.ever_exported places.now) }
{
    match places {
        [] => Ok(Vec::new(alloc)),
        [p, before @ ..] => {
            let mut all = ever_exported(alloc, before)?;
            all.extend_from_slice(p.exported_here.as_slice())?;
            Ok(all)
        }
    }
}

/// Returns the number of objects that were ever exported. It fails only where there is no memory.
#[tactic(auto, using(crate::proofs::ModelSteps::next_steps))]
pub fn exported_count(alloc: Global, places: &[Place]) -> Result<u64, AllocError>
    ensures value { IfOk result (λ k. k ≡ words.exported_count places.now) }
    ensures bound { IfOk result (λ k. k < 2 ^ 61) }
{
    let all = ever_exported(alloc, places)?;
    Ok(all.as_slice().len() as u64)
}

/// Objects of these kinds, the first of them as the space's k-th.
pub fn exported_from(
    alloc: Global,
    space: Uid,
    k: u64,
    pinned: bool,
    kinds: &[u32],
) -> Result<Vec<Exported>, AllocError>
    requires { k + length kinds.now < END_OF_OBJECT_COUNT }
    ensures { IfOk result
        (λ objects. objects.items ≡ words.exported_from space k pinned kinds.now) }
{
    match kinds {
        [] => Ok(Vec::new(alloc)),
        [kind, rest @ ..] => {
            let mut objects = exported_from(alloc, space, k + 1, pinned, rest)?;
            let first = Exported {
                id: id_at(space, k),
                kind: *kind,
                pinned,
            };
            objects.insert(0, first)?;
            Ok(objects)
        }
    }
}

/// The identifiers of some objects.
pub fn ids(alloc: Global, objects: &[Exported]) -> Result<Vec<ObjId>, AllocError>
    ensures { IfOk result (λ ids. ids.items ≡ ids_of objects.now) }
{
    objects.iter().map(|x| x.id).collect(alloc)
}

/// Those of some objects that are among the exported ones.
pub fn known_objects(
    alloc: Global,
    exported: &[Exported],
    objects: &[ObjId],
) -> Result<Vec<ObjId>, AllocError>
    ensures { IfOk result (λ kept. kept.items ≡ filter (words.has exported.now) objects.now) }
{
    objects
        .iter()
        .copied()
        .filter(|o| has(exported, *o))
        .collect(alloc)
}
