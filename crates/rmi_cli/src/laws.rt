//! A law of journals, whoever prints them. The function does nothing: its contract is the law.
ghost use Rattle.rmi_cli.specs.Journals.{JournalsReplay};

/// The journal of a legal history is one that `replay` takes, whether or not its space keeps its events: as long as its numbers are within their
/// ranges, and its units within the limit of a history that is kept. `replay` prints what stands, and then the withdrawals.
pub fn journals_replay()
    ensures { JournalsReplay }
{}
