//! The names of a registry.
ghost use Rattle.std.specs.Prelude.{◌≡◌, ◌⊎◌, ◌≤◌, ◌↔◌, ◌++◌, ◌∷◌, [], Ok, Err, None, false, IsTrue, IsOk, IfOk, IfErr, OnOk, OnErr, length, nat_le, if◌then◌else◌};
ghost use Rattle.std.specs.Result.{result_ok};
ghost use Rattle.history.specs.declared.limits.TheConstants.{MAX_NAMES};
ghost use Rattle.object_ids.specs.declared.ids.FullKind.TheVariants.{Names as FullNames};
ghost use Rattle.rmi_registry.specs.Bindings.{object_of, is_bound, names_in, count_of, with_binding, without_name, IsRegistry};

use crate::binding::BindingList;
use crate::binding_map::{self, BindingMap};
use history::Name;
use history::limits::MAX_NAMES;
use object_ids::{FullKind, ObjId};
use sequence::NameList;
use std::alloc::{AllocError, Global};
use std::marker::Model;

/// The reason why a name is not bound.
#[derive(Clone, Copy, Debug, PartialEq, Eq)]
pub enum NameFault {
    /// The name stands for an object.
    AlreadyBound,
    /// As many names as can be are bound.
    Full(FullKind),
    /// There is no memory.
    OutOfMemory,
}

/// The name stands for nothing.
#[derive(Clone, Copy, Debug, PartialEq, Eq)]
pub struct NotBound;

impl From<AllocError> for NameFault {
    ghost use Rattle.rmi_registry.specs.declared.names.NameFault.TheVariants.{OutOfMemory};

    ghost from_gives = { λ _ fault. fault ≡ OutOfMemory };

    fn from(_refused: AllocError) -> NameFault {
        NameFault::OutOfMemory
    }
}

/// The names of a registry, each with the object for which it stands. Contracts see it as the list of its bindings, the oldest
/// first. No name stands twice, and there are at most 4,096.
#[derive(Debug)]
pub struct Names {
    alloc: Global,
    bound: BindingMap,
}

// Written out, so that whoever owns one has one call at each exit, and not the drop of each field.
impl Drop for Names {
    fn drop(self) {
        let Names { alloc: _, bound } = self;
        drop(bound);
    }
}

impl Model for Names {
    ghost use Rattle.std.specs.Prelude.{List};
    ghost use Rattle.rmi_registry.specs.declared.binding.Binding.{Binding};
    ghost use Rattle.rmi_registry.specs.MapEntries.{bindings_of};
    ghost use Rattle.rmi_registry.specs.Bindings.{IsRegistry};

    ghost Value = { List Binding };

    ghost view = { λ a. bindings_of a.bound.entries };

    ghost invariant = { λ a. IsRegistry (bindings_of a.bound.entries) };
}

impl Names {
    /// The registry of no names.
    pub fn fresh(alloc: Global) -> Names
        ensures { result ≡ [] }
    {
        Names {
            alloc,
            bound: BindingMap::new(alloc),
        }
    }

    /// Binds a name that stands for nothing. AlreadyBound comes exactly where it stands for an object; else Full(Names) exactly
    /// where 4,096 names are bound. After a refusal all is as it was.
    pub fn bind(&mut self, name: Name, object: ObjId) -> Result<(), NameFault>
        ensures ok { OnOk result
            (self.new ≡ self.old ++ record { name = name; object = object } ∷ []) }
        ensures already { (result ≡ Err NameFault.AlreadyBound) ↔ IsTrue (is_bound self.old name) }
        ensures full { (result ≡ Err (NameFault.Full FullNames))
            ↔ ((is_bound self.old name ≡ false) × (MAX_NAMES ≤ length self.old)) }
        ensures faults { IfErr result (λ fault. (fault ≡ NameFault.AlreadyBound)
            ⊎ ((fault ≡ NameFault.Full FullNames) ⊎ (fault ≡ NameFault.OutOfMemory))) }
        ensures err { OnErr result (self.new ≡ self.old) }
    {
        if self.is_bound(&name) {
            return Err(NameFault::AlreadyBound);
        }
        self.add(&name, object)
    }

    /// Binds a name, whatever it stands for, and answers the object for which it stood. A name that is there keeps its place, and
    /// that takes no memory. Full(Names) comes exactly where the name is new and 4,096 are bound. After a refusal all is as it
    /// was.
    pub fn rebind(&mut self, name: Name, object: ObjId) -> Result<Option<ObjId>, NameFault>
        ensures stood { IfOk result (λ stood. stood ≡ object_of self.old name) }
        ensures ok { OnOk result (self.new ≡ with_binding self.old name object) }
        ensures full { (result ≡ Err (NameFault.Full FullNames))
            ↔ ((is_bound self.old name ≡ false) × (MAX_NAMES ≤ length self.old)) }
        ensures faults { IfErr result
            (λ fault. (fault ≡ NameFault.Full FullNames) ⊎ (fault ≡ NameFault.OutOfMemory)) }
        ensures memory { IsTrue (is_bound self.old name) → IsOk result }
        ensures err { OnErr result (self.new ≡ self.old) }
    {
        match self.replace(&name, object) {
            Some(stood) => Ok(Some(stood)),
            None => {
                self.add(&name, object)?;
                Ok(None)
            }
        }
    }

    /// Unbinds a name, and answers the object for which it stood. The other names keep their order. NotBound comes exactly where
    /// it stands for nothing, and then nothing changes. It takes no memory.
    pub fn unbind(&mut self, name: &Name) -> Result<ObjId, NotBound>
        ensures value { result_ok result ≡ object_of self.old name.now }
        ensures bindings { self.new ≡ without_name self.old name.now }
        ensures err { OnErr result (self.new ≡ self.old) }
    {
        binding_map::remove(&mut self.bound, name.units().as_slice()).ok_or(NotBound)
    }

    /// The object for which a name stands. NotBound comes exactly where it stands for nothing. It takes no memory.
    pub fn lookup(&self, name: &Name) -> Result<ObjId, NotBound>
        ensures { result_ok result ≡ object_of self.now name.now }
    {
        binding_map::find(&self.bound, name.units().as_slice()).ok_or(NotBound)
    }

    /// The names, in the order in which they were first bound.
    pub fn list(&self, alloc: Global) -> Result<NameList, AllocError>
        ensures { IfOk result (λ names. names ≡ names_in self.now) }
    {
        binding_map::names(alloc, &self.bound)
    }

    /// The bindings, in the order in which their names were first bound.
    pub fn bindings(&self, alloc: Global) -> Result<BindingList, AllocError>
        ensures { IfOk result (λ bindings. bindings ≡ self.now) }
    {
        binding_map::bindings(alloc, &self.bound)
    }

    /// The number of names that stand for an object. It takes no memory.
    pub fn binds(&self, object: ObjId) -> u32
        ensures { result ≡ count_of self.now object }
    {
        binding_map::count(&self.bound, &object) as u32
    }

    /// The number of bound names, at most 4,096. None of them stands twice or has more than 255 units.
    pub fn len(&self) -> u32
        ensures value { result ≡ length self.now }
        ensures sound { IsRegistry self.now }
    {
        self.bound.len() as u32
    }

    /// True where a name stands for an object.
    pub fn is_bound(&self, name: &Name) -> bool
        ensures { result ≡ is_bound self.now name.now }
    {
        self.lookup(name).is_ok()
    }

    /// Returns whether as many names are bound as the limit allows.
    fn is_full(&self) -> bool
        ensures { result ≡ nat_le MAX_NAMES (length self.now) }
    {
        self.bound.len() as u64 >= MAX_NAMES
    }

    /// Binds a name that is there to another object, and answers the one that stood there; nothing changes where it is not there.
    fn replace(&mut self, name: &Name, object: ObjId) -> Option<ObjId>
        ensures stood { result ≡ object_of self.old name.now }
        ensures bindings { self.new
            ≡ (if is_bound self.old name.now then with_binding self.old name.now object else
            self.old) }
    {
        binding_map::replace(&mut self.bound, name.units().as_slice(), object)
    }

    /// Binds a name that is not there, where there is room.
    fn add(&mut self, name: &Name, object: ObjId) -> Result<(), NameFault>
        requires { is_bound self.old name.now ≡ false }
        ensures ok { OnOk result
            (self.new ≡ self.old ++ record { name = name.now; object = object } ∷ []) }
        ensures full { (result ≡ Err (NameFault.Full FullNames)) ↔ (MAX_NAMES ≤ length self.old) }
        ensures faults { IfErr result
            (λ fault. (fault ≡ NameFault.Full FullNames) ⊎ (fault ≡ NameFault.OutOfMemory)) }
        ensures err { OnErr result (self.new ≡ self.old) }
    {
        if self.is_full() {
            return Err(NameFault::Full(FullKind::Names));
        }
        let units = name.units().as_slice();
        binding_map::append(self.alloc, &mut self.bound, units, object)?;
        Ok(())
    }
}
