//! Laws of the log of a client's table. Each function does nothing, and its contract is the law.
ghost use Rattle.dgc_client.specs.Laws.{NumbersRise};

/// The numbers of the calls that a client sends rise strictly, dirty and clean calls alike. So no number is sent twice
/// (Java RMI Specification, section 9.1).
pub fn numbers_rise()
    ensures { NumbersRise }
{}
