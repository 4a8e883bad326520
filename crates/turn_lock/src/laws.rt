//! Laws of locks: what follows from their rule. Each function does nothing, and its contract is the law.
ghost use Rattle.turn_lock.specs.Orders.{RuleOrders, EntriesCollect};

/// Where the lock's rule holds, which the table of words keeps between any two steps, all passes have one history: it is legal and goes on
/// from the one that the lock was made with, what each pass has seen begins it, and its further events are each of the pass whose number
/// they have. Of each pass that has ended the root has the list of its events.
pub fn passes_are_ordered()
    ensures ordered { RuleOrders }
{}

/// At each event that an entry of a pass tells as taken, at its place in the one history, the collector keeps what there is a reason to keep
/// and withdraws the rest.
pub fn entries_collect()
    ensures collected { EntriesCollect }
{}
