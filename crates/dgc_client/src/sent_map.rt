//! The dirty calls that were sent and are neither answered nor failed, each found by its number.
ghost use Rattle.std.specs.Prelude.{◌≡◌, None, Some, ℤ, find, option_map, OnOk, OnErr, if◌then◌else◌};
ghost use Rattle.std.specs.Ordering.{int_eq};
ghost use Rattle.dgc_client.specs.Log.{has_number};
ghost use Rattle.dgc_client.specs.SentMap.{dirty_at, dirties_in};

use indexmap::IndexMap;
use object_ids::ObjIds;
use std::alloc::AllocError;

/// A dirty call that was sent.
#[derive(Debug)]
pub struct Sent {
    /// The objects that it names.
    pub objects: ObjIds,
    /// The moment at which it was planned, in milliseconds.
    pub moment: u64,
}

// Written out, so that whoever owns one has one call at each exit, and not the drop of each field.
impl Drop for Sent {
    fn drop(self) {
        let Sent { objects, moment: _ } = self;
        drop(objects);
    }
}

/// The dirty calls, by number.
pub type SentMap = IndexMap<i64, Sent>;

/// Takes the call of a number out. It takes no memory.
pub fn take(sent: &mut SentMap, number: &i64) -> Option<Sent>
    ensures was { option_map (dirty_at number.now) result
        ≡ find (has_number number.now) (dirties_in sent.old.entries) }
    ensures rest { (n : ℤ) → find (has_number n) (dirties_in sent.new.entries)
        ≡ (if int_eq number.now n then None
        else find (has_number n) (dirties_in sent.old.entries)) }
{
    sent.swap_remove(number)
}

/// Adds a call under its number. After a refusal the calls are as they were.
pub fn put(sent: &mut SentMap, number: &i64, call: Sent) -> Result<(), AllocError>
    ensures ok { OnOk result ((n : ℤ) → find (has_number n) (dirties_in sent.new.entries)
        ≡ (if int_eq number.now n then Some (dirty_at number.now call)
        else find (has_number n) (dirties_in sent.old.entries))) }
    ensures err { OnErr result (dirties_in sent.new.entries ≡ dirties_in sent.old.entries) }
{
    sent.insert(*number, call)?;
    Ok(())
}
