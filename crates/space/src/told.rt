//! Withdrawals that were told as gone and are kept no longer.
ghost use Rattle.std.specs.Prelude.{◌≡◌, ◌≤◌, ◌+◌, ◌^◌, ◌++◌, [], length};
ghost use Rattle.space.specs.Withdrawals.{paired_withdrawals};

use http_server::Log;
use object_ids::ObjId;
use std::marker::Model;

/// The most withdrawals that are told and kept no longer. No history has as many.
pub(crate) const MOST_TOLD: usize = 1 << 62;

/// Withdrawals, in their order, of which nothing is kept but their number. Contracts see the list of them.
pub struct ToldWithdrawals {
    count: usize,
    batches: Log<Vec<ObjId>, Vec<u64>>,
}

impl Drop for ToldWithdrawals {
    fn drop(self) {
        let ToldWithdrawals { count: _, batches } = self;
        drop(batches);
    }
}

impl Model for ToldWithdrawals {
    ghost use Rattle.std.specs.Prelude.{◌≡◌, ◌≤◌, ◌^◌, List, flat_map, length};
    ghost use Rattle.history.specs.declared.places.Withdrawal.{Withdrawal};
    ghost use Rattle.space.specs.ToldBatches.{batch_withdrawals};

    ghost Value = { List Withdrawal };

    ghost view = { λ t. flat_map batch_withdrawals t.batches.items };

    ghost invariant = { λ t. (t.count ≡ length (flat_map batch_withdrawals t.batches.items))
        × (t.count ≤ 2 ^ 62) };
}

impl ToldWithdrawals {
    /// There is none.
    pub(crate) fn new() -> ToldWithdrawals
        ensures { result ≡ [] }
    {
        ToldWithdrawals {
            count: 0,
            batches: Log::new(),
        }
    }

    /// Returns the number of withdrawals.
    pub(crate) fn len(&self) -> usize
        ensures value { result ≡ length self.now }
        ensures few { result ≤ 2 ^ 62 }
    {
        self.count
    }

    /// Appends withdrawals, by their objects and their places, which are only looked at.
    #[tactic(auto, using(crate::proofs::ToldLaws::told_more, crate::proofs::ToldLaws::told_length))]
    pub(crate) fn push_all(&mut self, objects: &Vec<ObjId>, places: &Vec<u64>)
        requires even { length objects.now.items ≡ length places.now.items }
        requires few { length self.old + length objects.now.items ≤ 2 ^ 62 }
        ensures { self.new ≡ self.old ++ paired_withdrawals objects.now.items places.now.items }
    {
        self.count += objects.len();
        self.batches = self.batches.and(objects, places);
    }
}
