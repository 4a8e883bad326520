//! The names of a registry.
ghost use Rattle.std.specs.Prelude.{◌≡◌, ◌≤◌, ◌↔◌, length, IfOk, IsOk, IfErr};
ghost use Rattle.history.specs.declared.limits.TheConstants.{MAX_NAME_UNITS};

use crate::limits::MAX_NAME_UNITS;
use sequence::{Same, TryCopy, Units};
use std::alloc::{AllocError, Global};
use std::marker::Model;

/// A name of a registry (Java RMI Specification, chapter 6): a text of at most 255 units. Contracts
/// see it as the list of its units.
#[derive(Debug, Drop)]
pub struct Name {
    units: Units,
}

impl Model for Name {
    ghost use Rattle.std.specs.Prelude.{List, ℕ, ◌≤◌, length};
    ghost use Rattle.history.specs.declared.limits.TheConstants.{MAX_NAME_UNITS};

    ghost Value = { List ℕ };

    ghost view = { λ n. n.units };

    ghost invariant = { λ n. length n.units ≤ MAX_NAME_UNITS };
}

/// More units than a name has.
#[derive(Debug, Drop)]
pub struct NameTooLong {
    /// The units that were handed in.
    pub units: Units,
}

impl Name {
    /// The name of these units. It is refused exactly where there are more than 255 of them; the refusal
    /// hands them back.
    pub fn new(units: Units) -> Result<Name, NameTooLong>
        ensures short { IsOk result ↔ (length units ≤ MAX_NAME_UNITS) }
        ensures value { IfOk result (λ name. name ≡ units) }
        ensures back { IfErr result (λ refused. refused.units ≡ units) }
    {
        if units.len() <= MAX_NAME_UNITS {
            Ok(Name { units })
        } else {
            Err(NameTooLong { units })
        }
    }

    /// The units of the name, at most 255.
    pub fn units(&self) -> &Units
        ensures value { result.now ≡ self.now }
        ensures short { length result.now ≤ MAX_NAME_UNITS }
    {
        &self.units
    }

    /// A copy, which equals its source. It is refused only for want of memory.
    pub fn copy(&self, alloc: Global) -> Result<Name, AllocError>
        ensures { IfOk result (λ copy. copy ≡ self.now) }
    {
        Ok(Name {
            units: self.units.copy(alloc)?,
        })
    }
}

impl TryCopy for Name {
    fn try_copy(&self, alloc: Global) -> Result<Name, AllocError> {
        self.copy(alloc)
    }
}

impl Same for Name {
    fn is_same(&self, other: &Name) -> bool {
        self.units.is_same(&other.units)
    }
}
