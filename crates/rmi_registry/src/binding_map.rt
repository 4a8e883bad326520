//! The bindings as a map, by calls that speak of the list of them.
ghost use Rattle.std.specs.Prelude.{◌≡◌, ◌≤◌, ◌++◌, ◌∷◌, [], None, IfOk, OnOk, OnErr, filter, length, is_some, if◌then◌else◌};
ghost use Rattle.indexmap.specs.IndexMap.{values};
ghost use Rattle.object_ids.specs.Same.{same_id, same_bytes};
ghost use Rattle.history.specs.declared.limits.TheConstants.{MAX_NAME_UNITS};
ghost use Rattle.std.specs.List.{AllByRecursion};
ghost use Rattle.history.specs.Lists.{AllOnce};
ghost use Rattle.rmi_registry.specs.MapEntries.{bindings_of};
ghost use Rattle.rmi_registry.specs.Bindings.{object_of, names_in, count_of, with_binding, without_name};

use crate::binding::{Binding, BindingList};
use history::Name;
use history::equality::equal_ids;
use indexmap::IndexMap;
use object_ids::ObjId;
use sequence::{NameList, Units};
use std::alloc::{AllocError, Global};
use std::mem;

/// For each name, by its units, the object for which it stands. The map keeps the order of binding.
pub type BindingMap = IndexMap<Vec<u16>, ObjId>;

/// The object for which a name stands.
pub fn find(bound: &BindingMap, units: &[u16]) -> Option<ObjId>
    ensures { result ≡ object_of (bindings_of bound.now.entries) units.now }
{
    bound.get(units).copied()
}

/// Binds a name that is there to another object, and answers the one that stood there. It takes no memory.
pub fn replace(bound: &mut BindingMap, units: &[u16], object: ObjId) -> Option<ObjId>
    ensures was { result ≡ object_of (bindings_of bound.old.entries) units.now }
    ensures bindings { bindings_of bound.new.entries
        ≡ (if is_some result then with_binding (bindings_of bound.old.entries) units.now object else
        bindings_of bound.old.entries) }
{
    let slot = bound.get_mut(units)?;
    Some(mem::replace(slot, object))
}

/// Binds a name that is not there. After a refusal the bindings are as they were.
pub fn append(
    alloc: Global,
    bound: &mut BindingMap,
    units: &[u16],
    object: ObjId,
) -> Result<(), AllocError>
    requires { object_of (bindings_of bound.old.entries) units.now ≡ None }
    ensures ok { OnOk result
        (bindings_of bound.new.entries
        ≡ bindings_of bound.old.entries ++ record { name = units.now; object = object } ∷ []) }
    ensures err { OnErr result (bindings_of bound.new.entries ≡ bindings_of bound.old.entries) }
{
    let key = Vec::from_slice(alloc, units)?;
    bound.insert(key, object)?;
    Ok(())
}

/// Takes a name away, and answers the object for which it stood. It takes no memory.
pub fn remove(bound: &mut BindingMap, units: &[u16]) -> Option<ObjId>
    requires { AllOnce same_bytes (names_in (bindings_of bound.old.entries)) }
    ensures was { result ≡ object_of (bindings_of bound.old.entries) units.now }
    ensures bindings { bindings_of bound.new.entries
        ≡ without_name (bindings_of bound.old.entries) units.now }
{
    bound.shift_remove(units)
}

/// The number of names that stand for an object.
pub fn count(bound: &BindingMap, object: &ObjId) -> usize
    ensures { result ≡ count_of (bindings_of bound.now.entries) object.now }
{
    values_of(bound, object)
}

/// Returns the number of entries that have an object.
fn values_of(bound: &BindingMap, object: &ObjId) -> usize
    ensures { result ≡ length (filter (λ o. same_id o object.now) (values bound.now)) }
{
    bound
        .values()
        .filter(|other| equal_ids(**other, *object))
        .count()
}

/// The names, in order.
pub fn names(alloc: Global, bound: &BindingMap) -> Result<NameList, AllocError>
    ensures { IfOk result (λ names. names ≡ names_in (bindings_of bound.now.entries)) }
{
    let mut names = NameList::new(alloc);
    for units in bound.keys() {
        names.push(Units::from_slice(alloc, units.as_slice())?)?;
    }
    Ok(names)
}

/// The bindings, in order.
pub fn bindings(alloc: Global, bound: &BindingMap) -> Result<BindingList, AllocError>
    requires { AllByRecursion (λ n. length n ≤ MAX_NAME_UNITS)
        (names_in (bindings_of bound.now.entries)) }
    ensures { IfOk result (λ bindings. bindings ≡ bindings_of bound.now.entries) }
{
    let mut bindings = BindingList::new(alloc);
    for (units, object) in bound.iter() {
        bindings.push(binding(alloc, units.as_slice(), object)?)?;
    }
    Ok(bindings)
}

/// The binding of a name to an object.
fn binding(alloc: Global, units: &[u16], object: &ObjId) -> Result<Binding, AllocError>
    requires { length units.now ≤ MAX_NAME_UNITS }
    ensures { IfOk result (λ binding. binding ≡ record { name = units.now; object = object.now }) }
{
    match Name::new(Units::from_slice(alloc, units)?) {
        Ok(name) => Ok(Binding {
            name,
            object: *object,
        }),
        // no name that is kept is too long
        Err(_long) => Err(AllocError),
    }
}
