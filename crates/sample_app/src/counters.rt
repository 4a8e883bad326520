//! Numbers of objects.
ghost use Rattle.std.specs.Prelude.{◌≡◌, [], pos, unwrap_or, OnOk, OnErr};
ghost use Rattle.std.specs.Option.{option_copied};
ghost use Rattle.sample_app.specs.Counters.{count_of, with_count, without};

use indexmap::IndexMap;
use object_ids::ObjId;
use std::alloc::{AllocError, Global};
use std::marker::Model;

/// The numbers of objects. Contracts see them as a list of pairs of an object and its number, in the order in which they were first put.
/// An object without a pair has the number 0.
#[derive(Drop)]
pub struct Counters {
    pairs: IndexMap<ObjId, i64>,
}

impl Model for Counters {
    ghost use Rattle.call_dispatch.specs.Acts.{States};

    ghost Value = { States };

    ghost view = { λ c. c.pairs.entries };
}

impl Counters {
    /// No pairs. It takes no memory.
    pub fn new(alloc: Global) -> Counters
        ensures { result ≡ [] }
    {
        Counters {
            pairs: IndexMap::new(alloc),
        }
    }

    /// The number of an object.
    pub fn count(&self, object: &ObjId) -> i64
        ensures { result ≡ count_of self.now object.now }
    {
        count_or_zero(self.pairs.get(object))
    }

    /// Puts the number of an object in place of the one that it has.
    pub fn put(&mut self, object: ObjId, count: i64) -> Result<(), AllocError>
        ensures ok { OnOk result (self.new ≡ with_count self.old object count) }
        ensures err { OnErr result (self.new ≡ self.old) }
    {
        self.pairs.insert(object, count)?;
        Ok(())
    }

    /// Takes the pair of an object away. It takes no memory.
    pub fn forget(&mut self, object: &ObjId)
        ensures { self.new ≡ without self.old object.now }
    {
        let _old = self.pairs.shift_remove(object);
    }
}

/// The number that was found, or 0.
fn count_or_zero(found: Option<&i64>) -> i64
    ensures { result ≡ unwrap_or (option_copied found.entry) (pos 0) }
{
    match found {
        Some(count) => *count,
        None => 0,
    }
}
