//! The names of the registry.
ghost use Rattle.std.specs.Prelude.{◌≡◌, ◌∷◌, ◌++◌, filter, option_copied, not, IfOk};
ghost use Rattle.object_ids.specs.Same.{same_bytes};
ghost use Rattle.history.specs.Names as words;

use crate::same::equal_units;
use history::equality::equal_ids;
use history::{Ask, Name, Place};
use object_ids::ObjId;
use sequence::Units;
use std::alloc::{AllocError, Global};

/// The name in a request.
pub fn name_in(ask: &Ask) -> Option<&Name>
    ensures { option_copied result ≡ words.name_in ask.now }
{
    match ask {
        Ask::Bind { name, object: _ } => Some(name),
        Ask::Rebind { name, object: _ } => Some(name),
        Ask::Unbind { name } => Some(name),
        Ask::Lookup { name, uid: _ } => Some(name),
        _ => None,
    }
}

/// The name that a request binds.
pub fn name_bound(ask: &Ask) -> Option<&Name>
    ensures { option_copied result ≡ words.name_bound ask.now }
{
    match ask {
        Ask::Bind { name, object: _ } => Some(name),
        Ask::Rebind { name, object: _ } => Some(name),
        _ => None,
    }
}

fn object_bound(ask: &Ask) -> Option<ObjId>
    ensures { result ≡ words.object_bound ask.now }
{
    match ask {
        Ask::Bind { name: _, object } => Some(*object),
        Ask::Rebind { name: _, object } => Some(*object),
        _ => None,
    }
}

fn is_name(name: &Name, units: &[u16]) -> bool
    ensures { result ≡ same_bytes name.now units.now }
{
    equal_units(name.units().as_slice(), units)
}

fn is_bind_of(units: &[u16], ask: &Ask) -> bool
    ensures { result ≡ words.is_bind_of units.now ask.now }
{
    match ask {
        Ask::Bind { name, object: _ } => is_name(name, units),
        Ask::Rebind { name, object: _ } => is_name(name, units),
        _ => false,
    }
}

fn is_unbind_of(units: &[u16], ask: &Ask) -> bool
    ensures { result ≡ words.is_unbind_of units.now ask.now }
{
    match ask {
        Ask::Unbind { name } => is_name(name, units),
        _ => false,
    }
}

fn changes_name(units: &[u16], p: &Place) -> bool
    ensures { result ≡ words.changes_name units.now p.now }
{
    p.effective && (is_bind_of(units, &p.event.ask) || is_unbind_of(units, &p.event.ask))
}

/// Returns the object that a name stands for, or none.
#[tactic(auto, unfolding(history::specs::Names::stands_for))]
pub fn stands_for(places: &[Place], units: &[u16]) -> Option<ObjId>
    ensures { result ≡ words.stands_for places.now units.now }
{
    match places {
        [] => None,
        [p, before @ ..] => {
            if changes_name(units, p) {
                object_bound(&p.event.ask)
            } else {
                stands_for(before, units)
            }
        }
    }
}

fn unbinds(p: &Place, units: &[u16]) -> bool
    ensures { result ≡ words.unbinds p.now units.now }
{
    p.effective && is_unbind_of(units, &p.event.ask)
}

fn before_all(alloc: Global, name: &Units, names: Vec<Units>) -> Result<Vec<Units>, AllocError>
    ensures { IfOk result (λ more. more.items ≡ name.now ∷ names.items) }
{
    let mut more = names;
    more.insert(0, name.copy(alloc)?)?;
    Ok(more)
}

/// The names among these that a place doesn't unbind.
fn names_still_bound(alloc: Global, p: &Place, names: &[Units]) -> Result<Vec<Units>, AllocError>
    ensures { IfOk result
        (λ left. left.items ≡ filter (λ n. not (words.unbinds p.now n)) names.now) }
{
    match names {
        [] => Ok(Vec::new(alloc)),
        [name, rest @ ..] => {
            let left = names_still_bound(alloc, p, rest)?;
            if unbinds(p, name.as_slice()) {
                Ok(left)
            } else {
                before_all(alloc, name, left)
            }
        }
    }
}

/// Names, and the one that a place begins.
fn with_begun(alloc: Global, names: Vec<Units>, p: &Place) -> Result<Vec<Units>, AllocError>
    ensures { IfOk result (λ more. more.items ≡ names.items ++ words.name_begun p.now) }
{
    let mut more = names;
    if p.effective && p.name_stood_for.is_none() {
        if let Some(name) = name_bound(&p.event.ask) {
            more.push(name.units().copy(alloc)?)?;
        }
    }
    Ok(more)
}

/// The names that stand for something, in the order of the places that begin them.
#[tactic(auto, unfolding(history::specs::Names::names))]
pub fn names(alloc: Global, places: &[Place]) -> Result<Vec<Units>, AllocError>
    ensures { IfOk result (λ names. names.items ≡ words.names places.now) }
{
    match places {
        [] => Ok(Vec::new(alloc)),
        [p, before @ ..] => {
            let bound = names(alloc, before)?;
            let left = names_still_bound(alloc, p, bound.as_slice())?;
            with_begun(alloc, left, p)
        }
    }
}

fn is_name_of(places: &[Place], object: ObjId, units: &Units) -> bool
    ensures { result ≡ words.is_name_of places.now object units.now }
{
    match stands_for(places, units.as_slice()) {
        Some(o) => equal_ids(o, object),
        None => false,
    }
}

/// Returns whether some name stands for an object.
#[tactic(auto, unfolding(history::specs::Names::is_named))]
pub fn is_named(alloc: Global, places: &[Place], object: ObjId) -> Result<bool, AllocError>
    ensures { IfOk result (λ named. named ≡ words.is_named places.now object) }
{
    let all = names(alloc, places)?;
    Ok(all.as_slice().iter().any(|n| is_name_of(places, object, n)))
}
