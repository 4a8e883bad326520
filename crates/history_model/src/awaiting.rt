//! Returned references that await their acknowledgement.
ghost use Rattle.std.specs.Prelude.{◌≡◌, filter, map, IfOk};
ghost use Rattle.std.specs.List.{list_any};
ghost use Rattle.history.specs.Lists.{distinct};
ghost use Rattle.history.specs.Awaiting as words;

use history::equality::{equal_ids, equal_uids};
use history::{Ask, Place, Returned};
use object_ids::{ObjId, Uid};
use std::alloc::{AllocError, Global};

fn equal_returned(a: &Returned, b: &Returned) -> bool
    ensures { result ≡ words.same_returned a.now b.now }
{
    equal_ids(a.object, b.object) && equal_uids(a.uid, b.uid)
}

fn return_uid(ask: &Ask) -> Option<Uid>
    ensures { result ≡ words.return_uid ask.now }
{
    match ask {
        Ask::Finish {
            object: _,
            made: _,
            listed: _,
            uid,
        } => Some(*uid),
        Ask::Lookup { name: _, uid } => Some(*uid),
        _ => None,
    }
}

fn references(alloc: Global, uid: Uid, objects: &[ObjId]) -> Result<Vec<Returned>, AllocError>
    ensures { IfOk result
        (λ all. all.items ≡ map (λ o. record { object = o; uid = uid }) objects.now) }
{
    objects
        .iter()
        .map(|o| Returned { object: *o, uid })
        .collect(alloc)
}

/// The references that a place returns.
pub fn returned_references(alloc: Global, p: &Place) -> Result<Vec<Returned>, AllocError>
    ensures { IfOk result (λ all. all.items ≡ words.returned_references p.now) }
{
    match return_uid(&p.event.ask) {
        Some(uid) => references(alloc, uid, p.returned_here.as_slice()),
        None => Ok(Vec::new(alloc)),
    }
}

/// Returns whether a place returns a reference.
fn returns(alloc: Global, r: &Returned, p: &Place) -> Result<bool, AllocError>
    ensures { IfOk result (λ found. found ≡ words.returns r.now p.now) }
{
    let all = returned_references(alloc, p)?;
    Ok(all.as_slice().iter().any(|x| equal_returned(r, x)))
}

fn is_ack_of(uid: Uid, ask: &Ask) -> bool
    ensures { result ≡ words.is_ack_of uid ask.now }
{
    match ask {
        Ask::Ack { uid: u } => equal_uids(*u, uid),
        _ => false,
    }
}

/// The moment until which a reference awaits its acknowledgement.
#[tactic(auto, unfolding(history::specs::Awaiting::until_of))]
fn until_of(alloc: Global, ack: u64, places: &[Place], r: &Returned) -> Result<u128, AllocError>
    ensures { IfOk result (λ until. until ≡ words.until_of ack places.now r.now) }
{
    match places {
        [] => Ok(0),
        [p, before @ ..] => {
            if returns(alloc, r, p)? {
                Ok(u128::from(p.moment) + u128::from(ack))
            } else if is_ack_of(r.uid, &p.event.ask) {
                Ok(0)
            } else {
                until_of(alloc, ack, before, r)
            }
        }
    }
}

/// Returns whether a reference awaits its acknowledgement at a moment.
#[tactic(auto, unfolding(history::specs::Awaiting::awaits))]
pub fn awaits(
    alloc: Global,
    ack: u64,
    time: u64,
    places: &[Place],
    r: &Returned,
) -> Result<bool, AllocError>
    ensures { IfOk result (λ waits. waits ≡ words.awaits ack time places.now r.now) }
{
    let until = until_of(alloc, ack, places, r)?;
    Ok(u128::from(time) < until)
}

/// The references that were ever returned.
#[tactic(auto, unfolding(history::specs::Awaiting::references))]
fn all_returned(alloc: Global, places: &[Place]) -> Result<Vec<Returned>, AllocError>
    ensures { IfOk result (λ all. all.items ≡ words.references places.now) }
{
    match places {
        [] => Ok(Vec::new(alloc)),
        [p, before @ ..] => {
            let mut all = returned_references(alloc, p)?;
            let mut others = all_returned(alloc, before)?;
            all.append(&mut others)?;
            Ok(all)
        }
    }
}

fn references_awaiting(
    alloc: Global,
    ack: u64,
    time: u64,
    places: &[Place],
    references: &[Returned],
) -> Result<Vec<Returned>, AllocError>
    ensures { IfOk result
        (λ left. left.items ≡ filter (words.awaits ack time places.now) references.now) }
{
    match references {
        [] => Ok(Vec::new(alloc)),
        [r, rest @ ..] => {
            let is_left = awaits(alloc, ack, time, places, r)?;
            let mut left = references_awaiting(alloc, ack, time, places, rest)?;
            if is_left {
                left.insert(0, *r)?;
            }
            Ok(left)
        }
    }
}

fn is_among(r: &Returned, references: &[Returned]) -> bool
    ensures { result ≡ list_any (words.same_returned r.now) references.now }
{
    references.iter().any(|x| equal_returned(r, x))
}

/// Each of some references once.
pub fn each_once(alloc: Global, references: &[Returned]) -> Result<Vec<Returned>, AllocError>
    ensures { IfOk result (λ once. once.items ≡ distinct words.same_returned references.now) }
{
    match references {
        [] => Ok(Vec::new(alloc)),
        [r, rest @ ..] => {
            let mut once = each_once(alloc, rest)?;
            if !is_among(r, rest) {
                once.insert(0, *r)?;
            }
            Ok(once)
        }
    }
}

/// The references that await at a moment, each once.
#[tactic(auto, unfolding(history::specs::Awaiting::awaiting_references))]
pub fn awaiting_references(
    alloc: Global,
    ack: u64,
    time: u64,
    places: &[Place],
) -> Result<Vec<Returned>, AllocError>
    ensures { IfOk result (λ left. left.items ≡ words.awaiting_references ack time places.now) }
{
    let all = all_returned(alloc, places)?;
    let left = references_awaiting(alloc, ack, time, places, all.as_slice())?;
    each_once(alloc, left.as_slice())
}

/// Returns whether some reference to an object awaits at a moment.
#[tactic(auto, unfolding(history::specs::Awaiting::is_awaited))]
pub fn is_awaited(
    alloc: Global,
    ack: u64,
    time: u64,
    places: &[Place],
    object: ObjId,
) -> Result<bool, AllocError>
    ensures { IfOk result (λ waits. waits ≡ words.is_awaited ack time places.now object) }
{
    let left = awaiting_references(alloc, ack, time, places)?;
    Ok(left.as_slice().iter().any(|r| equal_ids(r.object, object)))
}
