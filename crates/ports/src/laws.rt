//! Laws of ports: what follows from the contracts of several calls. Each function does nothing, and its contract is the law.
ghost use Rattle.ports.specs.Balance.{WentAlone, CallsAddUp, BalancedLeavesNone};
ghost use Rattle.ports.specs.Legal.{WentStaysLegal};

/// The calls that a connection runs after its entries are those that it ran before, with those that the entries begin, less those that they
/// end, whatever other connections do between. So none runs where none ran before and the entries are balanced.
pub fn calls_add_up()
    ensures alone { WentAlone }
    ensures sum { CallsAddUp }
    ensures none { BalancedLeavesNone }
{}

/// The entries of a connection's port lead from a legal history to a legal one, refused turns and calls that ended without an answer
/// among them.
pub fn entries_leave_legal_histories()
    ensures { WentStaysLegal }
{}
